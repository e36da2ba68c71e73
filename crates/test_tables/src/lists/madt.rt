//! MADT and its structures.

use acpi_base::error::{Error, R};
use acpi_base::object::Aml;
use acpi_tables::madt::{
    APLIC, EnabledStatus, GicIts, GicMsi, GicVersion, Gicc, Gicd, Gicr, HartStatus, IMSIC, IoApic,
    LocalInterruptController, MADT, PCAT_COMPAT, PLIC, ProcessorLocalApic, RINTC, Trigger,
};
use std::alloc::Global;
use std::test::Fail;
use test_support::broken::Broken;
use test_support::table::{many, stands};
use test_support::{OEM, OEM_REVISION, OEM_TABLE, all, equal, refuses, writes};

fn table(alloc: Global, int: LocalInterruptController) -> MADT {
    MADT::new(alloc, OEM, OEM_TABLE, OEM_REVISION, int)
}

// Adds structures of two types to a list.
fn fill(alloc: Global, list: &mut Vec<Box<dyn Aml + Drop>>) -> R<()> {
    let local = Box::new(alloc, ProcessorLocalApic::new(1, 2, EnabledStatus::Enabled))?;
    list.push(local)?;
    let io = Box::new(alloc, IoApic::new(3, 0x0706_0504, 8))?;
    list.push(io)?;
    Ok(())
}

// Fails unless a table has the structures of that list this many times.
fn has_list(alloc: Global, madt: &MADT, times: u32) -> Result<(), Fail> {
    let bytes = b"\0\x08\x01\x02\x01\0\0\0\x01\x0c\x03\0\x04\x05\x06\x07\x08\0\0\0";
    let fixed = &[1, 2, 3, 4, 0, 0, 0, 0];
    many(alloc, madt, b"APIC", 1, fixed, bytes, times)
}

// Adds a list three times.
fn borrows(alloc: Global, madt: &mut MADT, list: &[Box<dyn Aml + Drop>]) -> Result<(), Fail> {
    for times in 1..4u32 {
        for structure in list {
            madt.add_borrowed_structure(&**structure)?;
        }
        has_list(alloc, madt, times)?;
        equal(&madt.count(), &(2 * times))?;
    }
    Ok(())
}

fn takes_borrowed(
    alloc: Global,
    madt: &mut MADT,
    list: &mut Vec<Box<dyn Aml + Drop>>,
) -> Result<(), Fail> {
    fill(alloc, list)?;
    borrows(alloc, madt, list)?;
    refuses(madt.add_borrowed_structure(&Broken {}), Error::Sink(9))?;
    has_list(alloc, madt, 3)
}

// The list is only borrowed.
#[test]
fn borrowed(rt: HostRuntime) -> Result<(), Fail> {
    let local = LocalInterruptController::Address(0x0403_0201);
    let mut madt = table(rt.alloc(), local);
    takes_borrowed(rt.alloc(), &mut madt, &mut Vec::new(rt.alloc()))
}

#[test]
fn tables_without_structures(rt: HostRuntime) -> Result<(), Fail> {
    let nothing =
        b"APIC\x2c\0\0\0\x01\x6aFOOBARCAFEDEAD\xef\xbe\xad\xdeRVAT\0\0\0\x01\0\0\0\0\0\0\0\0";
    writes(
        rt.alloc(),
        &table(rt.alloc(), LocalInterruptController::Riscv),
        nothing,
    )?;
    let elsewhere = table(rt.alloc(), LocalInterruptController::Address(0x0403_0201));
    stands(rt.alloc(), &elsewhere, 36, b"\x01\x02\x03\x04\0\0\0\0")
}

fn takes_one(alloc: Global, x86: &mut MADT) -> Result<(), Fail> {
    x86.add_structure(ProcessorLocalApic::new(0, 0, EnabledStatus::Enabled))?;
    let one =
        b"APIC\x34\0\0\0\x01\x7bFOOBARCAFEDEAD\xef\xbe\xad\xdeRVAT\0\0\0\x01\0\0\xe0\xfe\0\0\0\0\0\x08\0\0\x01\0\0\0";
    writes(alloc, x86, one)
}

// A table of revision 6 for a machine with two 8259 controllers.
#[test]
fn revision_6(rt: HostRuntime) -> Result<(), Fail> {
    let local = LocalInterruptController::Address(0);
    let table = MADT::of_revision(
        rt.alloc(),
        6,
        OEM,
        OEM_TABLE,
        OEM_REVISION,
        local,
        PCAT_COMPAT,
    );
    writes(
        rt.alloc(),
        &table,
        b"APIC\x2c\0\0\0\x06\x64FOOBARCAFEDEAD\xef\xbe\xad\xdeRVAT\0\0\0\x01\0\0\0\0\x01\0\0\0",
    )
}

#[test]
fn a_table_of_one_structure(rt: HostRuntime) -> Result<(), Fail> {
    let mut x86 = table(rt.alloc(), LocalInterruptController::Address(0xfee0_0000));
    takes_one(rt.alloc(), &mut x86)
}

// Fails unless an interface has these flags, and these bytes of its performance interrupt and its maintenance interrupt.
fn has_flags(alloc: Global, gicc: &Gicc, flags: u8, first: u8, second: u8) -> Result<(), Fail> {
    let mut wanted = [0; 82];
    wanted[0] = 0x0b;
    wanted[1] = 0x52;
    wanted[12] = flags;
    wanted[20] = first;
    wanted[56] = second;
    writes(alloc, gicc, &wanted)
}

#[test]
fn cpu_interface_flags(rt: HostRuntime) -> Result<(), Fail> {
    for (status, flags) in [
        (EnabledStatus::Disabled, 0),
        (EnabledStatus::Enabled, 0x01),
        (EnabledStatus::DisabledOnlineCapable, 0x08),
    ] {
        has_flags(rt.alloc(), &Gicc::new(status), flags, 0, 0)?;
    }
    Ok(())
}

#[test]
fn triggers_of_cpu_interfaces(rt: HostRuntime) -> Result<(), Fail> {
    let later = Gicc::new(EnabledStatus::DisabledOnlineCapable);
    let both = later
        .maintenance_interrupt(9, Trigger::Edge)
        .performance_interrupt(7, Trigger::Edge);
    let other = later
        .performance_interrupt(7, Trigger::Edge)
        .maintenance_interrupt(9, Trigger::Edge);
    let twice = both.performance_interrupt(7, Trigger::Edge);
    let again = both.maintenance_interrupt(9, Trigger::Edge);
    for gicc in [both, other, twice, again] {
        has_flags(rt.alloc(), &gicc, 0x0e, 7, 9)?;
    }
    let mut wanted = [0; 82];
    wanted[..2].copy_from_slice(&[0x0b, 0x52]);
    wanted[12] = 0x0e;
    wanted[20..24].copy_from_slice(&[0xff; 4]);
    let levels = both
        .performance_interrupt(u32::MAX, Trigger::Level)
        .maintenance_interrupt(0, Trigger::Level);
    writes(rt.alloc(), &levels, &wanted)
}

#[test]
fn distributors(rt: HostRuntime) -> Result<(), Fail> {
    for (number, version) in [
        (0, GicVersion::Unspecified),
        (1, GicVersion::GICv1),
        (2, GicVersion::GICv2),
        (3, GicVersion::GICv3),
        (4, GicVersion::GICv4),
    ] {
        let mut wanted =
            *b"\x0c\x18\0\0\x01\x02\x03\x04\x11\x12\x13\x14\x15\x16\x17\x18\0\0\0\0\0\0\0\0";
        equal(&(version as u8), &number)?;
        wanted[20] = number;
        let gicd = Gicd::new(0x0403_0201, 0x1817_1615_1413_1211, version);
        writes(rt.alloc(), &gicd, &wanted)?;
    }
    Ok(())
}

#[test]
fn harts(rt: HostRuntime) -> Result<(), Fail> {
    for (number, status) in [
        (0, HartStatus::Disabled),
        (1, HartStatus::Enabled),
        (2, HartStatus::OnlineCapable),
    ] {
        equal(&(status as u8), &number)?;
        let mut wanted = *b"\x18\x24\x01\0\0\0\0\0\x11\x12\x13\x14\x15\x16\x17\x18\
            \x21\x22\x23\x24\x31\x32\x33\x34\x41\x42\x43\x44\x45\x46\x47\x48\x51\x52\x53\x54";
        wanted[4] = number;
        let rintc = RINTC::new(
            status,
            0x1817_1615_1413_1211,
            0x2423_2221,
            0x3433_3231,
            0x4847_4645_4443_4241,
            0x5453_5251,
        );
        writes(rt.alloc(), &rintc, &wanted)?;
    }
    Ok(())
}

fn imsic() -> IMSIC {
    IMSIC::new(0x0201, 0x0403, 5, 6, 7, 8)
}

const IMSIC_BYTES: [u8; 16] = *b"\x19\x10\x01\0\0\0\0\0\x01\x02\x03\x04\x05\x06\x07\x08";

// Structures with each of their fields, but for the flags of interfaces, and the lengths of those of RISC-V.
#[test]
fn structures(rt: HostRuntime) -> Result<(), Fail> {
    let lengths = [RINTC::len(), IMSIC::len(), APLIC::len(), PLIC::len()];
    equal(&lengths, &[36, 16, 36, 36])?;
    let interface = Gicc::new(EnabledStatus::Enabled)
        .cpu_interface_number(0x0403_0201)
        .acpi_processor_uid(0x0807_0605)
        .parking_protocol_version(0x1413_1211)
        .performance_interrupt(0x1817_1615, Trigger::Edge)
        .parked_address(0x2827_2625_2423_2221)
        .base_address(0x3837_3635_3433_3231)
        .virtual_registers(0x4847_4645_4443_4241)
        .control_block_registers(0x5857_5655_5453_5251)
        .maintenance_interrupt(0x6463_6261, Trigger::Level)
        .redistributor_base(0x7877_7675_7473_7271)
        .mpidr(0x8887_8685_8483_8281)
        .power_efficiency_class(0x91)
        .overflow_interrupt(0xa2a1)
        .trbe_interrupt(0xb2b1);
    let own = GicMsi::new().spi_count_and_base(2, 64);
    let frame = own
        .gic_msi_frame_id(0x0403_0201)
        .base_addr(0x1817_1615_1413_1211)
        .spi_count_and_base(0x2221, 0x2423);
    let aplic = APLIC::new(
        7,
        *b"RSCV0002",
        0x1211,
        0x2423_2221,
        0x3837_3635_3433_3231,
        0x4443_4241,
        0x5251,
    );
    let plic = PLIC::new(
        2,
        *b"RSCV0001",
        0x1211,
        0x1413,
        0x2423_2221,
        0x3837_3635_3433_3231,
        0x4443_4241,
    );
    all(
        rt.alloc(),
        &[
            (
                &ProcessorLocalApic::new(1, 2, EnabledStatus::Disabled),
                b"\0\x08\x01\x02\0\0\0\0",
            ),
            (
                &ProcessorLocalApic::new(0xff, 0xfe, EnabledStatus::Enabled),
                b"\0\x08\xff\xfe\x01\0\0\0",
            ),
            (
                &ProcessorLocalApic::new(0, 0xff, EnabledStatus::DisabledOnlineCapable),
                b"\0\x08\0\xff\x02\0\0\0",
            ),
            (
                &IoApic::new(1, 0x0504_0302, 0x0908_0706),
                b"\x01\x0c\x01\0\x02\x03\x04\x05\x06\x07\x08\x09",
            ),
            (
                &IoApic::new(u8::MAX, u32::MAX, u32::MAX),
                b"\x01\x0c\xff\0\xff\xff\xff\xff\xff\xff\xff\xff",
            ),
            (
                &interface,
                b"\x0b\x52\0\0\x01\x02\x03\x04\x05\x06\x07\x08\x03\0\0\0\x11\x12\x13\x14\
                    \x15\x16\x17\x18\x21\x22\x23\x24\x25\x26\x27\x28\x31\x32\x33\x34\x35\x36\x37\x38\
                    \x41\x42\x43\x44\x45\x46\x47\x48\x51\x52\x53\x54\x55\x56\x57\x58\x61\x62\x63\x64\
                    \x71\x72\x73\x74\x75\x76\x77\x78\x81\x82\x83\x84\x85\x86\x87\x88\x91\0\xa1\xa2\xb1\xb2",
            ),
            (
                &GicMsi::new(),
                b"\x0d\x18\0\0\0\0\0\0\0\0\0\0\0\0\0\0\0\0\0\0\0\0\0\0",
            ),
            (
                &own.spi_count_and_base(2, 64),
                b"\x0d\x18\0\0\0\0\0\0\0\0\0\0\0\0\0\0\x01\0\0\0\x02\0\x40\0",
            ),
            (
                &own,
                b"\x0d\x18\0\0\0\0\0\0\0\0\0\0\0\0\0\0\x01\0\0\0\x02\0\x40\0",
            ),
            (
                &frame,
                b"\x0d\x18\0\0\x01\x02\x03\x04\x11\x12\x13\x14\x15\x16\x17\x18\x01\0\0\0\x21\x22\x23\x24",
            ),
            (
                &Gicr::new(0x1817_1615_1413_1211, 0x0403_0201),
                b"\x0e\x10\0\0\x11\x12\x13\x14\x15\x16\x17\x18\x01\x02\x03\x04",
            ),
            (
                &GicIts::new(0x0403_0201, 0x1817_1615_1413_1211),
                b"\x0f\x14\0\0\x01\x02\x03\x04\x11\x12\x13\x14\x15\x16\x17\x18\0\0\0\0",
            ),
            (
                &GicIts::new(u32::MAX, u64::MAX),
                b"\x0f\x14\0\0\xff\xff\xff\xff\xff\xff\xff\xff\xff\xff\xff\xff\0\0\0\0",
            ),
            (&imsic(), &IMSIC_BYTES),
            (
                &IMSIC::new(u16::MAX, u16::MAX, u8::MAX, u8::MAX, u8::MAX, u8::MAX),
                b"\x19\x10\x01\0\0\0\0\0\xff\xff\xff\xff\xff\xff\xff\xff",
            ),
            (
                &aplic,
                b"\x1a\x24\x01\x07\0\0\0\0RSCV0002\
                    \x11\x12\x51\x52\x21\x22\x23\x24\x31\x32\x33\x34\x35\x36\x37\x38\x41\x42\x43\x44",
            ),
            (
                &plic,
                b"\x1b\x24\x01\x02RSCV0001\x11\x12\x13\x14\
                    \0\0\0\0\x21\x22\x23\x24\x31\x32\x33\x34\x35\x36\x37\x38\x41\x42\x43\x44",
            ),
        ],
    )
}

// Fails unless a table has this length and checksum, and this many such controllers.
fn holds(alloc: Global, madt: &MADT, size: u8, checksum: u8, imsics: u32) -> Result<(), Fail> {
    stands(alloc, madt, 4, &[size, 0, 0, 0, 1, checksum])?;
    many(alloc, madt, b"APIC", 1, &[0; 8], &IMSIC_BYTES, imsics)
}

fn takes_one_imsic(alloc: Global, madt: &mut MADT) -> Result<(), Fail> {
    madt.add_structure(imsic())?;
    madt.add_imsic(imsic())?;
    holds(alloc, madt, 76, 0xae, 2)?;
    refuses(madt.add_imsic(imsic()), Error::ImsicSet)?;
    holds(alloc, madt, 76, 0xae, 2)
}

#[test]
fn one_imsic(rt: HostRuntime) -> Result<(), Fail> {
    let mut madt = table(rt.alloc(), LocalInterruptController::Riscv);
    takes_one_imsic(rt.alloc(), &mut madt)
}

// Fails unless a table refuses a structure, and is unchanged.
fn is_unchanged(alloc: Global, madt: &mut MADT) -> Result<(), Fail> {
    refuses(madt.add_structure(Broken {}), Error::Sink(9))?;
    holds(alloc, madt, 44, 0x6a, 0)?;
    madt.add_imsic(imsic())?;
    refuses(madt.add_structure(Broken {}), Error::Sink(9))?;
    holds(alloc, madt, 60, 0x0c, 1)
}

#[test]
fn a_structure_that_refuses(rt: HostRuntime) -> Result<(), Fail> {
    let mut madt = table(rt.alloc(), LocalInterruptController::Riscv);
    is_unchanged(rt.alloc(), &mut madt)
}

// Adds a structure of one of two kinds in turn.
fn add_nth(madt: &mut MADT, i: u16) -> R<()> {
    let [low, high] = i.to_le_bytes();
    if i % 2 == 0 {
        madt.add_structure(ProcessorLocalApic::new(low, high, EnabledStatus::Enabled))
    } else {
        madt.add_structure(IoApic::new(low, 0xfec0_0000 + u32::from(i), u32::from(i)))
    }
}

// The bytes of that structure.
fn append_nth(bytes: &mut Vec<u8>, i: u16) -> R<()> {
    let [low, high] = i.to_le_bytes();
    if i % 2 == 0 {
        bytes.extend_from_slice(&[0, 8, low, high, 1, 0, 0, 0])?;
    } else {
        bytes.extend_from_slice(&[1, 12, low, 0, low, high, 0xc0, 0xfe, low, high, 0, 0])?;
    }
    Ok(())
}

// Adds this many structures. Fails unless a table has this length, sums to zero, and is its header and these structures.
fn takes_many(
    alloc: Global,
    madt: &mut MADT,
    structures: &mut Vec<u8>,
    (count, size): (u16, u32),
) -> Result<(), Fail> {
    for i in 0..count {
        add_nth(madt, i)?;
        append_nth(structures, i)?;
    }
    stands(alloc, madt, 4, &size.to_le_bytes())?;
    many(alloc, madt, b"APIC", 1, &[0; 8], structures, 1)
}

fn of_many(alloc: Global, counts: (u16, u32)) -> Result<(), Fail> {
    let mut madt = table(alloc, LocalInterruptController::Riscv);
    takes_many(alloc, &mut madt, &mut Vec::new(alloc), counts)
}

#[test]
fn many_structures(rt: HostRuntime) -> Result<(), Fail> {
    for counts in [(256, 2604), (300, 3044), (6_600, 66_044)] {
        of_many(rt.alloc(), counts)?;
    }
    Ok(())
}
