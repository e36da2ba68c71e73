//! Fixed tables and MCFG of the machines of QEMU 7.2, but for the maker in their headers.

use acpi_tables::Aml;
use acpi_tables::facs::FACS;
use acpi_tables::fadt::{FADTBuilder, FadtRelease, Flags};
use acpi_tables::gas::{AccessSize, AddressSpace, GAS};
use acpi_tables::hpet::{EventTimerBlockId, HPET};
use acpi_tables::mcfg::MCFG;
use acpi_tables::sdt::Sdt;
use acpi_tables::spcr::{BaudRate, FlowControl, InterfaceType, InterruptController, SPCR};
use acpi_tables::tpm2::{PlatformClass, StartMethod, Tpm2, TpmClient1_2};
use acpi_tables::waet::WAET;
use std::alloc::Global;
use std::test::Fail;
use test_support::table::table;
use test_support::{OEM, OEM_REVISION, OEM_TABLE, writes};

// Fails unless an object is the table of this signature and revision with these bytes after its header.
fn is(
    alloc: Global,
    aml: &dyn Aml,
    signature: &[u8; 4],
    revision: u8,
    wanted: &[u8],
) -> Result<(), Fail> {
    writes(alloc, aml, &table(alloc, signature, revision, &[wanted])?)
}

// Of a PC: a timer block, what the operating system needn't do, and the log of a TPM of version 1.2. The FACS has version 0.
#[test]
fn of_a_pc(rt: HostRuntime) -> Result<(), Fail> {
    let id = EventTimerBlockId::new(1, 3, 0x8086)
        .wide_counter()
        .legacy_replacement();
    let (space, access) = (AddressSpace::SystemMemory, AccessSize::Undefined);
    let registers = GAS::new(space, 0, 0, access, 0xfed0_0000);
    let hpet = HPET::new(OEM, OEM_TABLE, OEM_REVISION, id, registers);
    let waet = WAET::new(OEM, OEM_TABLE, OEM_REVISION).pm_timer_good();
    let tcpa = TpmClient1_2::new(OEM, OEM_TABLE, OEM_REVISION, 0x1_0000, 0x7ff_0000);
    let rows: [(&dyn Aml, &[u8; 4], u8, &[u8]); 3] = [
        (
            &hpet,
            b"HPET",
            1,
            b"\x01\xa2\x86\x80\0\0\0\0\0\0\xd0\xfe\0\0\0\0\0\0\0\0",
        ),
        (&waet, b"WAET", 1, b"\x02\0\0\0"),
        (&tcpa, b"TCPA", 2, b"\0\0\0\0\x01\0\0\0\xff\x07\0\0\0\0"),
    ];
    for (aml, signature, revision, wanted) in rows {
        is(rt.alloc(), aml, signature, revision, wanted)?;
    }
    let mut facs = FACS::new();
    facs.version = 0;
    let mut wanted = [0; 64];
    wanted[..8].copy_from_slice(b"FACS\x40\0\0\0");
    writes(rt.alloc(), &facs, &wanted)
}

// A Q35, and `virt`.
#[test]
fn configuration_spaces(rt: HostRuntime) -> Result<(), Fail> {
    let alloc = rt.alloc();
    let rows: [(u64, &[u8]); 2] = [
        (
            0xb000_0000,
            b"\0\0\0\0\0\0\0\0\0\0\0\xb0\0\0\0\0\0\0\0\xff\0\0\0\0",
        ),
        (
            0x40_1000_0000,
            b"\0\0\0\0\0\0\0\0\0\0\0\x10\x40\0\0\0\0\0\0\xff\0\0\0\0",
        ),
    ];
    for (base, wanted) in rows {
        let mut mcfg = MCFG::new(alloc, OEM, OEM_TABLE, OEM_REVISION);
        mcfg.add_ecam(base, 0, 0, 0xff)?;
        is(alloc, &mcfg, b"MCFG", 1, wanted)?;
    }
    Ok(())
}

// The FADT of `virt`: hardware-reduced, with the calls of PSCI, and revision 6.0.
#[test]
fn fixed_hardware(rt: HostRuntime) -> Result<(), Fail> {
    let mut fields = FADTBuilder::new(OEM, OEM_TABLE, OEM_REVISION).flag(Flags::HwReducedAcpi);
    fields.arm_boot_arch = 3;
    fields.fadt_minor_version = 0;
    fields.hypervisor_vendor_identity = 0x554d_4551;
    let mut wanted = [0; 240];
    wanted[78] = 0x10;
    wanted[93] = 3;
    wanted[232..236].copy_from_slice(b"QEMU");
    is(rt.alloc(), &fields.finalize(), b"FACP", 6, &wanted)
}

// The ports of a PC's power management: its first block of events is of this many bytes at an address.
fn ports(events: u32, size: u8, enable: u8, disable: u8) -> FADTBuilder {
    let mut fields = FADTBuilder::new(OEM, OEM_TABLE, OEM_REVISION)
        .flag(Flags::Wbinvd)
        .flag(Flags::ProcC1)
        .flag(Flags::SlpButton)
        .flag(Flags::RtcS4)
        .flag(Flags::UsePlatformClock)
        .gpe_info(events, 0, size, 0, 0);
    fields.sci_int = 9;
    fields.smi_cmd = 0xb2;
    fields.acpi_enable = enable;
    fields.acpi_disable = disable;
    fields.pm1a_evt_blk = 0x600;
    fields.pm1a_cnt_blk = 0x604;
    fields.pm_tmr_blk = 0x608;
    fields.pm1_evt_len = 4;
    fields.pm1_cnt_len = 2;
    fields.pm_tmr_len = 4;
    fields.p_lvl2_lat = 0xfff;
    fields.p_lvl3_lat = 0xfff;
    fields.century = 0x32;
    fields
}

// Without system management there is no command port.
fn unmanaged(mut fields: FADTBuilder) -> FADTBuilder {
    fields.smi_cmd = 0;
    fields.acpi_enable = 0;
    fields.acpi_disable = 0;
    fields
}

// A PC, of ACPI 1.0, with system management and without.
#[test]
fn first_hardware(rt: HostRuntime) -> Result<(), Fail> {
    let managed: &[u8] = b"\0\0\0\0\0\0\0\0\x01\0\x09\0\xb2\0\0\0\xf1\xf0\0\0\0\x06\0\0\0\0\0\0\
        \x04\x06\0\0\0\0\0\0\0\0\0\0\x08\x06\0\0\xe0\xaf\0\0\0\0\0\0\x04\x02\0\x04\x04\0\0\0\
        \xff\x0f\xff\x0f\0\0\0\0\0\0\0\0\x32\0\0\0\xa5\x80\0\0";
    let mut wanted = [0; 80];
    wanted.copy_from_slice(managed);
    let fields = ports(0xafe0, 4, 0xf1, 0xf0);
    let table = fields.finalize_earlier(FadtRelease::Acpi1_0);
    is(rt.alloc(), &table.multiple_apic(), b"FACP", 1, &wanted)?;
    wanted[12] = 0;
    wanted[16] = 0;
    wanted[17] = 0;
    let table = unmanaged(fields).finalize_earlier(FadtRelease::Acpi1_0);
    is(rt.alloc(), &table.multiple_apic(), b"FACP", 1, &wanted)
}

fn port(bits: u8, address: u64) -> GAS {
    GAS::new(
        AddressSpace::SystemIo,
        bits,
        0,
        AccessSize::Undefined,
        address,
    )
}

// The ports of a Q35, each as an address of a register, too.
fn registers() -> FADTBuilder {
    let mut fields = ports(0x620, 0x10, 2, 3).flag(Flags::ResetRegSup);
    fields.iapc_boot_arch = 2;
    fields.reset_reg = port(8, 0xcf9);
    fields.reset_value = 0xf;
    fields.x_pm1a_evt_blk = port(32, 0x600);
    fields.x_pm1a_cnt_blk = port(16, 0x604);
    fields.x_pm_tmr_blk = port(32, 0x608);
    fields.x_gpe0_blk = port(128, 0x620);
    fields
}

// A Q35, of ACPI 2.0: with system management, with x2APICs, and without system management.
#[test]
fn second_hardware(rt: HostRuntime) -> Result<(), Fail> {
    let managed: &[u8] = b"\0\0\0\0\0\0\0\0\x01\0\x09\0\xb2\0\0\0\x02\x03\0\0\0\x06\0\0\0\0\0\0\
        \x04\x06\0\0\0\0\0\0\0\0\0\0\x08\x06\0\0\x20\x06\0\0\0\0\0\0\x04\x02\0\x04\x10\0\0\0\
        \xff\x0f\xff\x0f\0\0\0\0\0\0\0\0\x32\x02\0\0\xa5\x84\0\0\x01\x08\0\0\xf9\x0c\0\0\0\0\0\0\
        \x0f\0\0\0\0\0\0\0\0\0\0\0\0\0\0\0\0\0\0\0\x01\x20\0\0\0\x06\0\0\0\0\0\0\
        \0\0\0\0\0\0\0\0\0\0\0\0\x01\x10\0\0\x04\x06\0\0\0\0\0\0\0\0\0\0\0\0\0\0\
        \0\0\0\0\0\0\0\0\0\0\0\0\0\0\0\0\x01\x20\0\0\x08\x06\0\0\0\0\0\0\
        \x01\x80\0\0\x20\x06\0\0\0\0\0\0\0\0\0\0\0\0\0\0\0\0\0\0";
    let mut wanted = [0; 208];
    wanted.copy_from_slice(managed);
    let table = registers().finalize_earlier(FadtRelease::Acpi2_0);
    is(rt.alloc(), &table.multiple_apic(), b"FACP", 3, &wanted)?;
    wanted[78] = 4;
    let clusters = registers().flag(Flags::ForceApicClusterModel);
    let table = clusters.finalize_earlier(FadtRelease::Acpi2_0);
    is(rt.alloc(), &table.multiple_apic(), b"FACP", 3, &wanted)?;
    wanted[78] = 0;
    wanted[12] = 0;
    wanted[16] = 0;
    wanted[17] = 0;
    let table = unmanaged(registers()).finalize_earlier(FadtRelease::Acpi2_0);
    is(rt.alloc(), &table.multiple_apic(), b"FACP", 3, &wanted)
}

fn byte_at(address: u64) -> GAS {
    let (space, access) = (AddressSpace::SystemMemory, AccessSize::Undefined);
    GAS::new(space, 8, 0, access, address)
}

// A microvm, of ACPI 5.0 and hardware-reduced.
#[test]
fn reduced_hardware(rt: HostRuntime) -> Result<(), Fail> {
    let mut fields = FADTBuilder::new(OEM, OEM_TABLE, OEM_REVISION)
        .flag(Flags::HwReducedAcpi)
        .flag(Flags::ResetRegSup);
    fields.reset_reg = byte_at(0xfea0_0202);
    fields.reset_value = 0x42;
    fields.sleep_control_reg = byte_at(0xfea0_0200);
    fields.sleep_status_reg = byte_at(0xfea0_0201);
    let mut wanted = [0; 232];
    wanted[76..80].copy_from_slice(b"\0\x04\x10\0");
    wanted[80..93].copy_from_slice(b"\0\x08\0\0\x02\x02\xa0\xfe\0\0\0\0\x42");
    wanted[208..220].copy_from_slice(b"\0\x08\0\0\0\x02\xa0\xfe\0\0\0\0");
    wanted[220..232].copy_from_slice(b"\0\x08\0\0\x01\x02\xa0\xfe\0\0\0\0");
    let table = fields.finalize_earlier(FadtRelease::Acpi5_0);
    is(rt.alloc(), &table, b"FACP", 5, &wanted)
}

// The PL011 of `virt`, in a table of revision 2.
#[test]
fn console(rt: HostRuntime) -> Result<(), Fail> {
    let (space, access) = (AddressSpace::SystemMemory, AccessSize::ByteAccess);
    let registers = GAS::new(space, 8, 0, access, 0x900_0000);
    let port = SPCR::new(
        OEM,
        OEM_TABLE,
        OEM_REVISION,
        InterfaceType::ArmPl011,
        registers,
    );
    let spcr = port
        .gsi(InterruptController::ArmGic, 0x21)
        .baud_rate(BaudRate::Baud9600)
        .flow_control(FlowControl::RtsCts);
    let wanted = b"\x03\0\0\0\0\x08\0\x01\0\0\0\x09\0\0\0\0\x08\0\x21\0\0\0\x03\0\x01\x02\0\0\
        \xff\xff\xff\xff\0\0\0\0\0\0\0\0\0\0\0\0";
    is(rt.alloc(), &spcr.earlier(), b"SPCR", 2, wanted)
}

// A TPM of version 2.0 that is used by its FIFO, and its log.
#[test]
fn module(rt: HostRuntime) -> Result<(), Fail> {
    let (class, method) = (PlatformClass::Client, StartMethod::Mmio);
    let mut tpm2 = Tpm2::of_revision(4, OEM, OEM_TABLE, OEM_REVISION, class, 0, method);
    tpm2.set_log_area(0x1_0000, 0x7ff_0000)?;
    let wanted = b"\0\0\0\0\0\0\0\0\0\0\0\0\x06\0\0\0\0\0\0\0\0\0\0\0\0\0\0\0\
        \0\0\x01\0\0\0\xff\x07\0\0\0\0";
    is(rt.alloc(), &tpm2, b"TPM2", 4, wanted)
}

// A licence that is a header alone.
#[test]
fn licence(rt: HostRuntime) -> Result<(), Fail> {
    let slic = Sdt::new(rt.alloc(), *b"SLIC", 36, 1, OEM, OEM_TABLE, OEM_REVISION)?;
    is(rt.alloc(), &slic, b"SLIC", 1, &[])
}
