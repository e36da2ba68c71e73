//! Tables of no structure, of one and of 256, read back into the structures that were added.

use acpi_base::buffer::append;
use acpi_base::object::Aml;
use acpi_tables::cedt::{CEDT, CxlHostBridge, CxlVersion};
use acpi_tables::gas::{AccessSize, AddressSpace, GAS};
use acpi_tables::hest::{FirmwareFirst, HEST, PciDevice, PcieAerDevice};
use acpi_tables::madt::{EnabledStatus, LocalInterruptController, MADT, ProcessorLocalApic};
use acpi_tables::mcfg::MCFG;
use acpi_tables::rqsc::{ControllerType, QoSController, RQSC};
use acpi_tables::srat::{MemoryAffinity, SRAT};
use acpi_tables::xsdt::XSDT;
use std::alloc::Global;
use std::test::Fail;
use test_support::table::{is_sized, reads_back};
use test_support::{OEM, OEM_REVISION, OEM_TABLE};

// Fails unless a table of this many bytes has this number of structures, of this size each from an offset on, and is read
// back into them.
fn is_read(
    alloc: Global,
    table: &dyn Aml,
    counts: (usize, u32),
    (start, size): (usize, usize),
    structures: &[u8],
    wanted: u16,
) -> Result<(), Fail> {
    is_sized(counts, start, size, wanted)?;
    reads_back(alloc, table, start, size, structures)
}

fn xsdt(alloc: Global, table: &mut XSDT, added: &mut Vec<u8>, count: u16) -> Result<(), Fail> {
    for n in 0..count {
        added.extend_from_slice(&u64::from(n).to_le_bytes())?;
        table.add_entry(u64::from(n))?;
    }
    let counts = (table.len(), table.count());
    is_read(alloc, table, counts, (36, 8), added, count)
}

fn xsdt_of(alloc: Global, count: u16) -> Result<(), Fail> {
    let mut table = XSDT::new(alloc, OEM, OEM_TABLE, OEM_REVISION);
    xsdt(alloc, &mut table, &mut Vec::new(alloc), count)
}

fn mcfg(alloc: Global, table: &mut MCFG, added: &mut Vec<u8>, count: u16) -> Result<(), Fail> {
    for n in 0..count {
        added.extend_from_slice(&u64::from(n).to_le_bytes())?;
        added.extend_from_slice(b"\x01\x02\x03\x04\0\0\0\0")?;
        table.add_ecam(u64::from(n), 0x0201, 3, 4)?;
    }
    let counts = (table.len(), table.count());
    is_read(alloc, table, counts, (44, 16), added, count)
}

fn mcfg_of(alloc: Global, count: u16) -> Result<(), Fail> {
    let mut table = MCFG::new(alloc, OEM, OEM_TABLE, OEM_REVISION);
    mcfg(alloc, &mut table, &mut Vec::new(alloc), count)
}

fn madt(alloc: Global, table: &mut MADT, added: &mut Vec<u8>, count: u16) -> Result<(), Fail> {
    for n in 0..count {
        let processor = ProcessorLocalApic::new((n & 0xff) as u8, 7, EnabledStatus::Enabled);
        append(&processor, added)?;
        table.add_structure(processor)?;
    }
    let counts = (table.len(), table.count());
    is_read(alloc, table, counts, (44, 8), added, count)
}

fn madt_of(alloc: Global, count: u16) -> Result<(), Fail> {
    let local = LocalInterruptController::Address(0xfee0_0000);
    let mut table = MADT::new(alloc, OEM, OEM_TABLE, OEM_REVISION, local);
    madt(alloc, &mut table, &mut Vec::new(alloc), count)
}

fn srat(alloc: Global, table: &mut SRAT, added: &mut Vec<u8>, count: u16) -> Result<(), Fail> {
    for n in 0..count {
        append(&MemoryAffinity::new(u32::from(n), 1, 2), added)?;
        table.add_memory_affinity(MemoryAffinity::new(u32::from(n), 1, 2))?;
    }
    let counts = (table.len(), table.count());
    is_read(alloc, table, counts, (48, 40), added, count)
}

fn srat_of(alloc: Global, count: u16) -> Result<(), Fail> {
    let mut table = SRAT::new(alloc, OEM, OEM_TABLE, OEM_REVISION);
    srat(alloc, &mut table, &mut Vec::new(alloc), count)
}

fn cedt(alloc: Global, table: &mut CEDT, added: &mut Vec<u8>, count: u16) -> Result<(), Fail> {
    for n in 0..count {
        append(
            &CxlHostBridge::new(u32::from(n), CxlVersion::Cxl2, 1),
            added,
        )?;
        table.add_host_bridge(CxlHostBridge::new(u32::from(n), CxlVersion::Cxl2, 1))?;
    }
    let counts = (table.len(), table.count());
    is_read(alloc, table, counts, (36, 32), added, count)
}

fn cedt_of(alloc: Global, count: u16) -> Result<(), Fail> {
    let mut table = CEDT::new(alloc, OEM, OEM_TABLE, OEM_REVISION);
    cedt(alloc, &mut table, &mut Vec::new(alloc), count)
}

fn hest(alloc: Global, table: &mut HEST, added: &mut Vec<u8>, count: u16) -> Result<(), Fail> {
    for n in 0..count {
        let device = PciDevice::new((n & 0xff) as u8, 3, 4);
        let source = PcieAerDevice::new_root_port(FirmwareFirst::Enabled, device);
        append(&source, added)?;
        table.add_structure(source)?;
    }
    let counts = (table.len(), table.count());
    is_read(alloc, table, counts, (40, 44), added, count)
}

fn hest_of(alloc: Global, count: u16) -> Result<(), Fail> {
    let mut table = HEST::new(alloc, OEM, OEM_TABLE, OEM_REVISION);
    hest(alloc, &mut table, &mut Vec::new(alloc), count)
}

const REGISTER: GAS = GAS {
    address_space_id: AddressSpace::SystemMemory,
    register_bit_width: 32,
    register_bit_offset: 0,
    access_size: AccessSize::DwordAccess,
    address: 1,
};

fn controller(alloc: Global, n: u16) -> QoSController {
    let kind = ControllerType::Capacity;
    QoSController::new(alloc, kind, REGISTER, u32::from(n), 2, 3)
}

fn rqsc(alloc: Global, table: &mut RQSC, added: &mut Vec<u8>, count: u16) -> Result<(), Fail> {
    for n in 0..count {
        append(&controller(alloc, n), added)?;
        table.add_controller(controller(alloc, n))?;
    }
    let counts = (table.len(), table.count());
    is_read(alloc, table, counts, (40, 28), added, count)
}

fn rqsc_of(alloc: Global, count: u16) -> Result<(), Fail> {
    let mut table = RQSC::new(alloc, OEM, OEM_TABLE, OEM_REVISION);
    rqsc(alloc, &mut table, &mut Vec::new(alloc), count)
}

#[test]
fn tables(rt: HostRuntime) -> Result<(), Fail> {
    let alloc = rt.alloc();
    for count in [0, 1, 256] {
        xsdt_of(alloc, count)?;
        mcfg_of(alloc, count)?;
        madt_of(alloc, count)?;
        srat_of(alloc, count)?;
        cedt_of(alloc, count)?;
        hest_of(alloc, count)?;
        rqsc_of(alloc, count)?;
    }
    Ok(())
}
