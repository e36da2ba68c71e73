//! Tables of PCs, and their structures.

use crate::scoped::with_scope;
use crate::short::{starve_all, starve_made};
use acpi_tables::R;
use acpi_tables::dmar::{Andd, Atsr, DMAR, DeviceScope, Drhd, Rhsa, Rmrr, Satc, ScopeType, Sidp};
use acpi_tables::erst::{Action, ERST, Instruction, SerializationEntry};
use acpi_tables::fpdt::FPDT;
use acpi_tables::gas::GAS;
use acpi_tables::nfit::{
    Capabilities, ControlRegion, DataWindow, FlushHint, Interleave, NFIT, RangeType, RegionMapping,
    SmbiosInformation, SpaRange,
};
use acpi_tables::rsdt::RSDT;
use std::alloc::Global;
use std::test::Fail;
use test_support::{OEM, OEM_REVISION, OEM_TABLE};

fn rsdt(alloc: Global) -> R<RSDT> {
    let mut rsdt = RSDT::new(alloc, OEM, OEM_TABLE, OEM_REVISION);
    rsdt.add_entry(0x0403_0201)?;
    Ok(rsdt)
}

fn fpdt(alloc: Global) -> R<FPDT> {
    let mut fpdt = FPDT::new(alloc, OEM, OEM_TABLE, OEM_REVISION);
    fpdt.add_boot_pointer(1)?;
    fpdt.add_s3_pointer(2)?;
    Ok(fpdt)
}

fn step() -> SerializationEntry {
    SerializationEntry::new(Action::Execute, Instruction::Noop, GAS::default(), 1, 2)
}

fn erst(alloc: Global) -> R<ERST> {
    let mut erst = ERST::new(alloc, OEM, OEM_TABLE, OEM_REVISION);
    erst.add_entry(step())?;
    Ok(erst)
}

fn dmar(alloc: Global) -> R<DMAR> {
    let mut dmar = DMAR::new(alloc, OEM, OEM_TABLE, OEM_REVISION, 38, 0);
    dmar.add_rhsa(Rhsa::new(1, 2))?;
    Ok(dmar)
}

fn nfit(alloc: Global) -> R<NFIT> {
    let mut nfit = NFIT::new(alloc, OEM, OEM_TABLE, OEM_REVISION);
    nfit.add_region_mapping(RegionMapping::new(1, 2, 3, 4))?;
    Ok(nfit)
}

#[test]
fn tables(rt: HostRuntime) -> Result<(), Fail> {
    let alloc = rt.alloc();
    starve_made(alloc, 40, rsdt(alloc))?;
    starve_made(alloc, 68, fpdt(alloc))?;
    starve_made(alloc, 80, erst(alloc))?;
    starve_made(alloc, 68, dmar(alloc))?;
    starve_made(alloc, 88, nfit(alloc))
}

#[test]
fn records(rt: HostRuntime) -> Result<(), Fail> {
    let range = SpaRange::new(1, RangeType::Persistent, 2, 3, 4);
    starve_all(
        rt.alloc(),
        &[
            (32, &step()),
            (20, &Rhsa::new(1, 2)),
            (56, &range),
            (64, &range.location_cookie(5)),
            (48, &RegionMapping::new(1, 2, 3, 4)),
            (80, &ControlRegion::new(1, 2, 3, 4, 5, 6)),
            (40, &DataWindow::new(1, 2, 3, 4, 5, 6)),
            (16, &Capabilities::new(1)),
        ],
    )
}

// A scope has 8 bytes.
#[test]
fn remapping_structures(rt: HostRuntime) -> Result<(), Fail> {
    let alloc = rt.alloc();
    let scope = DeviceScope::new(alloc, ScopeType::PciEndpoint, 0, 1, 2, 3)?;
    starve_made(alloc, 24, with_scope::<Drhd>(alloc, &scope))?;
    starve_made(alloc, 32, with_scope::<Rmrr>(alloc, &scope))?;
    starve_made(alloc, 16, with_scope::<Atsr>(alloc, &scope))?;
    starve_made(alloc, 16, with_scope::<Satc>(alloc, &scope))?;
    starve_made(alloc, 16, with_scope::<Sidp>(alloc, &scope))?;
    starve_made(alloc, 18, Andd::new(alloc, 1, "\\_SB.DEV0"))
}

fn interleave(alloc: Global) -> R<Interleave> {
    let mut interleave = Interleave::new(alloc, 1, 2);
    interleave.add_line(3)?;
    Ok(interleave)
}

fn hint(alloc: Global) -> R<FlushHint> {
    let mut hint = FlushHint::new(alloc, 1);
    hint.add_address(2)?;
    Ok(hint)
}

#[test]
fn lists(rt: HostRuntime) -> Result<(), Fail> {
    let alloc = rt.alloc();
    starve_made(alloc, 20, interleave(alloc))?;
    starve_made(alloc, 24, hint(alloc))?;
    starve_made(alloc, 12, SmbiosInformation::new(alloc, &[1, 2, 3, 4]))
}
