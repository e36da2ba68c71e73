//! Tables of PCs.

use crate::trial::Grows;
use acpi_tables::R;
use acpi_tables::dmar::{Andd, Atsr, DMAR, DeviceScope, Drhd, Rhsa, Rmrr, Satc, ScopeType, Sidp};
use acpi_tables::erst::{Action, ERST, Instruction, SerializationEntry};
use acpi_tables::fpdt::FPDT;
use acpi_tables::gas::GAS;
use acpi_tables::nfit::{
    Capabilities, ControlRegion, DataWindow, FlushHint, Interleave, NFIT, RangeType, RegionMapping,
    SmbiosInformation, SpaRange,
};
use acpi_tables::rsdt::RSDT;
use std::alloc::Global;
use test_support::{OEM, OEM_REVISION, OEM_TABLE};

impl Grows for RSDT {
    const WAYS: u8 = 1;

    fn empty(alloc: Global) -> R<RSDT> {
        Ok(RSDT::new(alloc, OEM, OEM_TABLE, OEM_REVISION))
    }

    fn grow(&mut self, _alloc: Global, _way: u8) -> R<()> {
        self.add_entry(0x1234)
    }
}

impl Grows for FPDT {
    const WAYS: u8 = 2;

    fn empty(alloc: Global) -> R<FPDT> {
        Ok(FPDT::new(alloc, OEM, OEM_TABLE, OEM_REVISION))
    }

    fn grow(&mut self, _alloc: Global, way: u8) -> R<()> {
        match way {
            0 => self.add_boot_pointer(0x1234),
            _ => self.add_s3_pointer(0x5678),
        }
    }
}

fn step() -> SerializationEntry {
    SerializationEntry::new(Action::Execute, Instruction::Noop, GAS::default(), 1, 2)
}

impl Grows for ERST {
    const WAYS: u8 = 1;

    fn empty(alloc: Global) -> R<ERST> {
        Ok(ERST::new(alloc, OEM, OEM_TABLE, OEM_REVISION))
    }

    fn grow(&mut self, _alloc: Global, _way: u8) -> R<()> {
        self.add_entry(step())
    }
}

// One step of a path has room inside the value. The second asks for memory.
fn scope(alloc: Global) -> R<DeviceScope> {
    let mut scope = DeviceScope::new(alloc, ScopeType::PciEndpoint, 0, 0, 1, 0)?;
    scope.add_step(2, 3)?;
    Ok(scope)
}

fn add_drhd(table: &mut DMAR, alloc: Global, scope: &DeviceScope) -> R<()> {
    let mut unit = Drhd::new(alloc, 0, 0xfed9_0000);
    unit.add_scope(scope)?;
    unit.add_scope(scope)?;
    table.add_drhd(unit)
}

fn add_rmrr(table: &mut DMAR, alloc: Global, scope: &DeviceScope) -> R<()> {
    let mut region = Rmrr::new(alloc, 0, 0x1000, 0x1fff);
    region.add_scope(scope)?;
    table.add_rmrr(region)
}

fn add_atsr(table: &mut DMAR, alloc: Global, scope: &DeviceScope) -> R<()> {
    let mut ports = Atsr::new(alloc, 0);
    ports.add_scope(scope)?;
    table.add_atsr(ports)
}

fn add_satc(table: &mut DMAR, alloc: Global, scope: &DeviceScope) -> R<()> {
    let mut devices = Satc::new(alloc, 0);
    devices.add_scope(scope)?;
    table.add_satc(devices)
}

fn add_sidp(table: &mut DMAR, alloc: Global, scope: &DeviceScope) -> R<()> {
    let mut devices = Sidp::new(alloc, 0);
    devices.add_scope(scope)?;
    table.add_sidp(devices)
}

fn add_scoped(table: &mut DMAR, alloc: Global, scope: &DeviceScope, way: u8) -> R<()> {
    match way {
        0 => add_drhd(table, alloc, scope),
        1 => add_rmrr(table, alloc, scope),
        2 => add_atsr(table, alloc, scope),
        3 => add_satc(table, alloc, scope),
        _ => add_sidp(table, alloc, scope),
    }
}

fn add_andd(table: &mut DMAR, alloc: Global) -> R<()> {
    table.add_andd(Andd::new(alloc, 5, "\\_SB.DEV0")?)
}

impl Grows for DMAR {
    const WAYS: u8 = 7;

    fn empty(alloc: Global) -> R<DMAR> {
        Ok(DMAR::new(alloc, OEM, OEM_TABLE, OEM_REVISION, 38, 0))
    }

    fn grow(&mut self, alloc: Global, way: u8) -> R<()> {
        match way {
            5 => add_andd(self, alloc),
            6 => self.add_rhsa(Rhsa::new(0xfed9_0000, 1)),
            _ => add_scoped(self, alloc, &scope(alloc)?, way),
        }
    }
}

fn add_interleave(table: &mut NFIT, alloc: Global) -> R<()> {
    let mut interleave = Interleave::new(alloc, 1, 256);
    interleave.add_line(3)?;
    interleave.add_line(4)?;
    table.add_interleave(interleave)
}

fn add_hint(table: &mut NFIT, alloc: Global) -> R<()> {
    let mut hint = FlushHint::new(alloc, 7);
    hint.add_address(0x1000)?;
    hint.add_address(0x2000)?;
    table.add_flush_hint(hint)
}

fn add_information(table: &mut NFIT, alloc: Global) -> R<()> {
    table.add_smbios_information(SmbiosInformation::new(alloc, &[1, 2, 3, 4])?)
}

fn range() -> SpaRange {
    SpaRange::new(1, RangeType::Persistent, 0x1000, 0x2000, 8).location_cookie(9)
}

fn add_record(table: &mut NFIT, way: u8) -> R<()> {
    match way {
        0 => table.add_spa_range(range()),
        1 => table.add_region_mapping(RegionMapping::new(1, 2, 3, 0x2000)),
        2 => table.add_control_region(ControlRegion::new(1, 2, 3, 4, 5, 6)),
        3 => table.add_data_window(DataWindow::new(1, 2, 3, 4, 5, 6)),
        _ => table.add_capabilities(Capabilities::new(1).cache_flush()),
    }
}

impl Grows for NFIT {
    const WAYS: u8 = 8;

    fn empty(alloc: Global) -> R<NFIT> {
        Ok(NFIT::new(alloc, OEM, OEM_TABLE, OEM_REVISION))
    }

    fn grow(&mut self, alloc: Global, way: u8) -> R<()> {
        match way {
            5 => add_interleave(self, alloc),
            6 => add_hint(self, alloc),
            7 => add_information(self, alloc),
            _ => add_record(self, way),
        }
    }
}
