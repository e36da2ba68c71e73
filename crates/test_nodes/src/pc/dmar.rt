//! DMAR, its structures and their scopes.

use crate::tables::is;
use acpi_base::error::{Error, R};
use acpi_tables::dmar::{
    Andd, Atsr, DMA_CTRL_PLATFORM_OPT_IN, DMAR, DeviceScope, Drhd, INTR_REMAP, Rhsa, Rmrr, Satc,
    ScopeType, Sidp, X2APIC_OPT_OUT,
};
use std::alloc::Global;
use std::test::Fail;
use test_support::{OEM, OEM_REVISION, OEM_TABLE, equal, refuses, sized};

const QEMU: &[u8] = b"\x26\x01\0\0\0\0\0\0\0\0\0\0\
    \0\0\x40\0\0\0\0\0\0\0\xd9\xfe\0\0\0\0\
    \x03\x08\0\0\0\xff\0\0\
    \x01\x08\0\0\0\0\0\0\
    \x01\x08\0\0\0\0\x01\0\
    \x01\x08\0\0\0\0\x1f\0\
    \x01\x08\0\0\0\0\x1f\x02\
    \x01\x08\0\0\0\0\x1f\x03\
    \x02\0\x08\0\x01\0\0\0";

fn qemu_unit(alloc: Global) -> R<Drhd> {
    let mut unit = Drhd::new(alloc, 0, 0xfed9_0000);
    for (kind, bus, device, function) in [
        (ScopeType::IoApic, 0xff, 0, 0),
        (ScopeType::PciEndpoint, 0, 0, 0),
        (ScopeType::PciEndpoint, 0, 1, 0),
        (ScopeType::PciEndpoint, 0, 0x1f, 0),
        (ScopeType::PciEndpoint, 0, 0x1f, 2),
        (ScopeType::PciEndpoint, 0, 0x1f, 3),
    ] {
        unit.add_scope(&DeviceScope::new(alloc, kind, 0, bus, device, function)?)?;
    }
    Ok(unit)
}

fn becomes_qemus(alloc: Global, dmar: &mut DMAR) -> Result<(), Fail> {
    dmar.add_drhd(qemu_unit(alloc)?)?;
    dmar.add_atsr(Atsr::new(alloc, 0).all_ports())?;
    equal(&(dmar.len(), dmar.count()), &(120, 2))?;
    is(alloc, dmar, b"DMAR", 1, &[QEMU])
}

// The table that QEMU 7.2 writes for a Q35 with an Intel IOMMU of 39 address bits.
#[test]
fn of_qemu(rt: HostRuntime) -> Result<(), Fail> {
    let alloc = rt.alloc();
    let mut dmar = DMAR::new(alloc, OEM, OEM_TABLE, OEM_REVISION, 38, INTR_REMAP);
    becomes_qemus(alloc, &mut dmar)
}

// The type of a scope, its flags, its ID, its bus, its first step, and further ones.
type Row = (ScopeType, u8, u8, u8, (u8, u8), &'static [(u8, u8)]);

// A scope of each type. One has flags and a path of three steps.
const ROWS: [Row; 5] = [
    (ScopeType::PciEndpoint, 0, 0, 0, (0x1f, 7), &[]),
    (
        ScopeType::PciSubHierarchy,
        0x11,
        0,
        0,
        (1, 2),
        &[(3, 4), (5, 6)],
    ),
    (ScopeType::IoApic, 0, 8, 0, (1, 0), &[]),
    (ScopeType::MsiCapableHpet, 0, 9, 0x21, (2, 0), &[]),
    (ScopeType::AcpiNamespaceDevice, 0, 10, 0, (3, 0), &[]),
];

fn add_steps(scope: &mut DeviceScope, steps: &[(u8, u8)]) -> R<()> {
    for (device, function) in steps {
        scope.add_step(*device, *function)?;
    }
    Ok(())
}

fn scope(alloc: Global, row: Row) -> R<DeviceScope> {
    let (kind, flags, id, bus, (device, function), further) = row;
    let mut scope = DeviceScope::new(alloc, kind, id, bus, device, function)?.flags(flags);
    add_steps(&mut scope, further)?;
    Ok(scope)
}

fn scopes(alloc: Global) -> R<Vec<DeviceScope>> {
    let mut scopes = Vec::new(alloc);
    for row in &ROWS {
        scopes.push(scope(alloc, *row)?)?;
    }
    Ok(scopes)
}

const SCOPES: &[u8] = b"\x01\x08\0\0\0\0\x1f\x07\
    \x02\x0c\x11\0\0\0\x01\x02\x03\x04\x05\x06\
    \x03\x08\0\0\x08\0\x01\0\
    \x04\x08\0\0\x09\x21\x02\0\
    \x05\x08\0\0\x0a\0\x03\0";

const DRHD: &[u8] = b"\0\0\x3c\0\x01\x0f\x01\x02\x11\x12\x13\x14\x15\x16\x17\x18";

const RMRR: &[u8] =
    b"\x01\0\x44\0\0\0\x01\x02\x11\x12\x13\x14\x15\x16\x17\x18\x21\x22\x23\x24\x25\x26\x27\x28";

const ATSR: &[u8] = b"\x02\0\x34\0\0\0\x01\x02";

const SATC: &[u8] = b"\x05\0\x34\0\x01\0\x01\x02";

const BASE: u64 = 0x1817_1615_1413_1211;

fn add_drhd(alloc: Global, dmar: &mut DMAR, scopes: &[DeviceScope]) -> R<()> {
    let mut unit = Drhd::new(alloc, 0x0201, BASE).include_pci_all().pages(15);
    for scope in scopes {
        unit.add_scope(scope)?;
    }
    dmar.add_drhd(unit.include_pci_all())
}

fn add_rmrr(alloc: Global, dmar: &mut DMAR, scopes: &[DeviceScope]) -> R<()> {
    let mut region = Rmrr::new(alloc, 0x0201, BASE, 0x2827_2625_2423_2221);
    for scope in scopes {
        region.add_scope(scope)?;
    }
    dmar.add_rmrr(region)
}

fn add_atsr(alloc: Global, dmar: &mut DMAR, scopes: &[DeviceScope]) -> R<()> {
    let mut ports = Atsr::new(alloc, 0x0201);
    for scope in scopes {
        ports.add_scope(scope)?;
    }
    dmar.add_atsr(ports)
}

const RHSA: &[u8] = b"\x03\0\x14\0\0\0\0\0\x11\x12\x13\x14\x15\x16\x17\x18\x01\x02\x03\x04";

const ANDD: &[u8] = b"\x04\0\x12\0\0\0\0\x0a\\_SB.I2C0\0";

fn add_andd(alloc: Global, dmar: &mut DMAR) -> R<()> {
    dmar.add_andd(Andd::new(alloc, 10, "\\_SB.I2C0")?)
}

fn add_satc(alloc: Global, dmar: &mut DMAR, scopes: &[DeviceScope]) -> R<()> {
    let mut devices = Satc::new(alloc, 0x0201).atc_required();
    for scope in scopes {
        devices.add_scope(scope)?;
    }
    dmar.add_satc(devices.atc_required())
}

const SIDP: &[u8] = b"\x06\0\x34\0\0\0\x01\x02";

fn add_sidp(alloc: Global, dmar: &mut DMAR, scopes: &[DeviceScope]) -> R<()> {
    let mut devices = Sidp::new(alloc, 0x0201);
    for scope in scopes {
        devices.add_scope(scope)?;
    }
    dmar.add_sidp(devices)
}

fn add_each(alloc: Global, dmar: &mut DMAR, scopes: &[DeviceScope]) -> R<()> {
    add_drhd(alloc, dmar, scopes)?;
    add_rmrr(alloc, dmar, scopes)?;
    add_atsr(alloc, dmar, scopes)?;
    dmar.add_rhsa(Rhsa::new(BASE, 0x0403_0201))?;
    add_andd(alloc, dmar)?;
    add_satc(alloc, dmar, scopes)?;
    add_sidp(alloc, dmar, scopes)
}

const FIXED: &[u8] = b"\x2f\x06\0\0\0\0\0\0\0\0\0\0";

fn takes_each(alloc: Global, dmar: &mut DMAR) -> Result<(), Fail> {
    is(alloc, dmar, b"DMAR", 1, &[FIXED])?;
    add_each(alloc, dmar, &scopes(alloc)?)?;
    let parts = [
        FIXED, DRHD, SCOPES, RMRR, SCOPES, ATSR, SCOPES, RHSA, ANDD, SATC, SCOPES, SIDP, SCOPES,
    ];
    is(alloc, dmar, b"DMAR", 1, &parts)
}

// One structure of each type, in the order of the calls.
#[test]
fn each_structure(rt: HostRuntime) -> Result<(), Fail> {
    let flags = X2APIC_OPT_OUT | DMA_CTRL_PLATFORM_OPT_IN;
    let mut dmar = DMAR::new(rt.alloc(), OEM, OEM_TABLE, OEM_REVISION, 0x2f, flags);
    takes_each(rt.alloc(), &mut dmar)
}

// A scope with a path of this many steps.
fn scope_of(alloc: Global, steps: u8) -> R<DeviceScope> {
    let mut scope = DeviceScope::new(alloc, ScopeType::PciSubHierarchy, 0, 0, 0, 0)?;
    for step in 1..steps {
        scope.add_step(step, 0)?;
    }
    Ok(scope)
}

fn takes_no_step(scope: &mut DeviceScope) -> Result<(), Fail> {
    refuses(scope.add_step(0, 0), Error::FieldWidth)?;
    equal(&scope.step_count(), &124)
}

#[test]
fn the_longest_scope(rt: HostRuntime) -> Result<(), Fail> {
    takes_no_step(&mut scope_of(rt.alloc(), 124)?)
}

// Fails unless a unit has room for 257 scopes of 254 bytes and for one of 240 bytes, and for no other.
fn fills(unit: &mut Drhd, long: &DeviceScope, last: &DeviceScope) -> Result<(), Fail> {
    for _ in 0..257u16 {
        unit.add_scope(long)?;
    }
    refuses(unit.add_scope(long), Error::FieldWidth)?;
    unit.add_scope(last)?;
    refuses(unit.add_scope(last), Error::FieldWidth)
}

#[test]
fn the_most_scopes(rt: HostRuntime) -> Result<(), Fail> {
    let alloc = rt.alloc();
    let mut unit = Drhd::new(alloc, 0, 0);
    fills(&mut unit, &scope_of(alloc, 124)?, &scope_of(alloc, 117)?)
}

// A device whose name has this many letters.
fn named(alloc: Global, letters: usize) -> R<Andd> {
    Andd::new(alloc, 0, "n".repeat(alloc, letters)?.as_str())
}

// Names of 65,526 bytes and of one more.
#[test]
fn the_longest_name(rt: HostRuntime) -> Result<(), Fail> {
    sized(rt.alloc(), &named(rt.alloc(), 65_526)?, 65_535)?;
    refuses(named(rt.alloc(), 65_527), Error::FieldWidth)
}
