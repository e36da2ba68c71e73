//! Tables and records of fixed size.

use crate::short::{starve, starve_all};
use acpi_tables::bert::BERT;
use acpi_tables::bgrt::BGRT;
use acpi_tables::facs::FACS;
use acpi_tables::fadt::{FADTBuilder, FadtRelease};
use acpi_tables::gas::{AccessSize, AddressSpace, GAS};
use acpi_tables::hpet::{EventTimerBlockId, HPET};
use acpi_tables::rsdp::{Rsdp, Rsdp0};
use acpi_tables::spcr::SPCR;
use acpi_tables::tpm2::{PlatformClass, StartMethod, Tpm2, TpmClient1_2, TpmServer1_2};
use acpi_tables::waet::WAET;
use acpi_tables::wsmt::WSMT;
use std::test::Fail;
use test_support::{OEM, OEM_REVISION, OEM_TABLE};

#[test]
fn records(rt: HostRuntime) -> Result<(), Fail> {
    let alloc = rt.alloc();
    let register = GAS::new(
        AddressSpace::SystemIo,
        8,
        3,
        AccessSize::WordAccess,
        0x0807_0605_0403_0201,
    );
    let timers = EventTimerBlockId::new(1, 3, 4);
    starve_all(
        alloc,
        &[
            (12, &register),
            (36, &Rsdp::new(OEM, 0x0807_0605_0403_0201)),
            (64, &FACS::new()),
            (
                276,
                &FADTBuilder::new(OEM, OEM_TABLE, OEM_REVISION).finalize(),
            ),
            (48, &BERT::new(OEM, OEM_TABLE, OEM_REVISION, 1, 2)),
            (90, &SPCR::sbi(OEM, OEM_TABLE, OEM_REVISION)),
            (50, &TpmClient1_2::new(OEM, OEM_TABLE, OEM_REVISION, 1, 2)),
            (100, &TpmServer1_2::new(OEM, OEM_TABLE, OEM_REVISION)),
            (40, &WAET::new(OEM, OEM_TABLE, OEM_REVISION)),
            (56, &BGRT::new(OEM, OEM_TABLE, OEM_REVISION, 1, 2, 3)),
            (40, &WSMT::new(OEM, OEM_TABLE, OEM_REVISION)),
            (
                56,
                &HPET::new(OEM, OEM_TABLE, OEM_REVISION, timers, register),
            ),
        ],
    )
}

#[test]
fn earlier_revisions(rt: HostRuntime) -> Result<(), Fail> {
    let fadt = FADTBuilder::new(OEM, OEM_TABLE, OEM_REVISION);
    starve_all(
        rt.alloc(),
        &[
            (20, &Rsdp0::new(OEM, 0x0403_0201)),
            (116, &fadt.finalize_earlier(FadtRelease::Acpi1_0)),
            (80, &SPCR::sbi(OEM, OEM_TABLE, OEM_REVISION).earlier()),
        ],
    )
}

fn tpm2_table() -> Tpm2 {
    Tpm2::new(
        OEM,
        OEM_TABLE,
        OEM_REVISION,
        PlatformClass::Server,
        1,
        StartMethod::Crb,
    )
}

#[test]
fn tpm2(rt: HostRuntime) -> Result<(), Fail> {
    let mut table = tpm2_table();
    starve(rt.alloc(), 52, &table)?;
    table.set_log_area(2, 3)?;
    starve(rt.alloc(), 76, &table)
}
