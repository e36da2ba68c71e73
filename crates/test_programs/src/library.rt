//! Bytes that the library writes, in a file, and what a run of `acpiread` on this file prints. The lines were worked out by hand.

use crate::words::owned;
use acpi_tables::aml::{
    Device, EISAName, IO, Interrupt, Name, ONE, Package, Path, ResourceTemplate, ZERO,
};
use acpi_tables::rimt::{IdMapping, InterruptWire, Iommu, PciDevice, PcieRootComplex, RIMT};
use acpi_tables::sdt::Sdt;
use acpi_tables::{Aml, R};
use acpiread_program::program::run;
use std::alloc::Global;
use std::fs;
use std::test::Fail;
use test_support::{OEM, OEM_REVISION, OEM_TABLE, bytes_of, equal, same};

// Fails unless a run on a file with these bytes has this status, and prints these texts.
fn ends(
    rt: &HostRuntime,
    words: &[&str; 2],
    bytes: &[u8],
    status: u8,
    out: &str,
    err: &str,
) -> Result<(), Fail> {
    fs::write(rt, words[1], bytes)?;
    let words = owned(rt, words)?;
    let mut printed = Vec::new(rt.alloc());
    let mut told = Vec::new(rt.alloc());
    let result = run(rt, rt.alloc(), &words, &mut printed, &mut told)?;
    same(&printed, out.as_bytes())?;
    same(&told, err.as_bytes())?;
    equal(&result, &status)
}

fn prints(rt: &HostRuntime, words: &[&str; 2], bytes: &[u8], out: &str) -> Result<(), Fail> {
    ends(rt, words, bytes, 0, out, "")
}

// Fails unless each beginning of a table is refused: of those without a whole header the number of bytes is said.
fn beginnings_are_refused(rt: &HostRuntime, words: &[&str; 2], bytes: &[u8]) -> Result<(), Fail> {
    for count in 0..bytes.len() {
        let line = if count < 36 {
            format!(in rt.alloc(); "refused at {count}: ShortHeader\n")?
        } else {
            String::from_str(rt.alloc(), "refused at 4: TableLength\n")?
        };
        ends(rt, words, &bytes[..count], 1, "", line.as_str())?;
    }
    Ok(())
}

// The bytes of a definition block with these terms.
fn block(alloc: Global, terms: &[u8]) -> R<Vec<u8>> {
    let mut table = Sdt::new(alloc, *b"DSDT", 36, 2, OEM, OEM_TABLE, OEM_REVISION)?;
    table.append_slice(terms)?;
    Ok(Vec::from_slice(alloc, table.as_slice())?)
}

// The bytes of a package of 0 and 1.
fn package(alloc: Global) -> R<Vec<u8>> {
    bytes_of(
        alloc,
        Package::new(vec![in alloc; &ZERO as &dyn Aml, &ONE]?),
    )
}

#[test]
fn a_package(rt: HostRuntime) -> Result<(), Fail> {
    let bytes = block(rt.alloc(), &package(rt.alloc())?)?;
    prints(
        &rt,
        &["table", "package"],
        &bytes,
        "DSDT length 41 revision 2 sum 0\n",
    )?;
    prints(
        &rt,
        &["dsdt", "package"],
        &bytes,
        "DSDT length 41 revision 2 sum 0\npackage 2\n  number 0\n  number 1\n",
    )?;
    beginnings_are_refused(&rt, &["table", "package"], &bytes)
}

// The interrupt and the ports of a serial port.
fn resources(alloc: Global) -> R<Name> {
    let interrupt = Interrupt::new(true, true, false, false, 4);
    let ports = IO::new(0x3f8, 0x3f8, 0, 8);
    let template = ResourceTemplate::new(vec![in alloc; &interrupt as &dyn Aml, &ports]?)?;
    Name::new(Path::new(alloc, "_CRS")?, &template)
}

// The bytes of a serial port.
fn port(alloc: Global) -> R<Vec<u8>> {
    let id = Name::new(Path::new(alloc, "_HID")?, &EISAName::new("PNP0501")?)?;
    let resources = resources(alloc)?;
    let path = Path::new(alloc, "_SB_.COM1")?;
    bytes_of(
        alloc,
        Device::new(path, vec![in alloc; &id as &dyn Aml, &resources]?),
    )
}

const PORT: &str = "\
device _SB_.COM1
  define _HID
    number 17158209
  define _CRS
    buffer data 8906000301040000004701f803f80300087900
      number 19
";

#[test]
fn a_port(rt: HostRuntime) -> Result<(), Fail> {
    let terms = port(rt.alloc())?;
    prints(&rt, &["aml", "port"], &terms, PORT)?;
    let bytes = block(rt.alloc(), &terms)?;
    let lines = ["DSDT length 86 revision 2 sum 0\n", PORT].concat(rt.alloc())?;
    prints(&rt, &["dsdt", "port"], &bytes, lines.as_str())?;
    beginnings_are_refused(&rt, &["dsdt", "port"], &bytes)
}

// An IOMMU with four wires.
fn iommu(alloc: Global) -> R<Iommu> {
    let wires = vec![in alloc;
        InterruptWire::new(1, true, false, 1),
        InterruptWire::new(2, false, true, 2),
        InterruptWire::new(3, true, true, 3),
        InterruptWire::new(4, false, false, 4),
    ]?;
    let device = PciDevice::new(5, 6, 7, 7);
    Ok(Iommu::new(1, None, Some(device), Some(15), Some(wires)))
}

// Adds an IOMMU, and a root complex with two mappings to it.
fn fill(alloc: Global, table: &mut RIMT) -> R<()> {
    let offset = table.add_iommu(iommu(alloc)?)?;
    let first = IdMapping::new(1, 2, 10, offset, true, true, false);
    let second = IdMapping::new(2, 3, 5, offset, false, false, true);
    let mappings = vec![in alloc; first, second]?;
    table.add_pcie_root_complex(PcieRootComplex::new(1, 1, true, true, Some(mappings)))
}

fn filled(alloc: Global) -> R<RIMT> {
    let mut table = RIMT::new(alloc, OEM, OEM_TABLE, OEM_REVISION);
    fill(alloc, &mut table)?;
    Ok(table)
}

#[test]
fn a_root_complex(rt: HostRuntime) -> Result<(), Fail> {
    let bytes = bytes_of(rt.alloc(), filled(rt.alloc()))?;
    prints(
        &rt,
        &["table", "rimt"],
        &bytes,
        "RIMT length 168 revision 1 sum 0\n48 type 0 size 64\n112 type 1 size 56\n",
    )
}

#[test]
fn many_terms(rt: HostRuntime) -> Result<(), Fail> {
    let bytes = b"\x70\x01\x60".as_slice().repeat(rt.alloc(), 20_000)?;
    let lines = "store\n  number 1\n  local 0\n".repeat(rt.alloc(), 20_000)?;
    prints(&rt, &["aml", "many"], &bytes, lines.as_str())
}
