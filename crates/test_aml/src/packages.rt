//! Packages, and the lengths that frame them.

use super::make::named;
use super::tables::dsdt;
use acpi_tables::aml::{Arg, ONE, Package, PackageBuilder, Path, Scope, VarPackageTerm, ZERO};
use acpi_tables::sdt::append_object;
use acpi_tables::{Aml, AmlSink, Checksum, Error, R, u8sum};
use std::alloc::Global;
use std::test::Fail;
use test_support::{equal, makes, refuses, same, writes, written};

fn ones(alloc: Global, count: usize) -> R<Vec<&'static dyn Aml>> {
    let mut all: Vec<&'static dyn Aml> = Vec::new(alloc);
    for _ in 0..count {
        all.push(&ONE)?;
    }
    Ok(all)
}

// The numbers zero and one.
fn pair(alloc: Global) -> R<Package> {
    let elements = vec![in alloc; &ZERO as &dyn Aml, &ONE]?;
    Package::new(elements)
}

const PAIR: [u8; 5] = [0x12, 0x04, 0x02, 0x00, 0x01];

#[test]
fn two_elements(rt: HostRuntime) -> Result<(), Fail> {
    let package = pair(rt.alloc())?;
    writes(rt.alloc(), &package, &PAIR)?;
    equal(&u8sum(&package)?, &0x19)?;
    let mut checksum = Checksum::default();
    package.to_aml_bytes(&mut checksum)?;
    equal(&checksum.raw_value(), &0x19)
}

fn seven(alloc: Global) -> R<Package> {
    let elements = vec![in alloc; &7u8 as &dyn Aml]?;
    Package::new(elements)
}

#[test]
fn a_named_package(rt: HostRuntime) -> Result<(), Fail> {
    let alloc = rt.alloc();
    let name = named(alloc, "_S5_", &seven(alloc)?);
    makes(alloc, name, b"\x08_S5_\x12\x04\x01\x0a\x07")
}

// An address, a pin, a path and a number.
type Route = (u32, u8, &'static str, u32);

// The routes of a bus's interrupts, and the package of each.
const ROUTES: [(Route, &[u8]); 8] = [
    (
        (0x1_ffff, 0, "LNKA", 0x10),
        b"\x12\x0e\x04\x0c\xff\xff\x01\x00\x00LNKA\x0a\x10",
    ),
    (
        (0x1_ffff, 1, "LNKB", 0x11),
        b"\x12\x0e\x04\x0c\xff\xff\x01\x00\x01LNKB\x0a\x11",
    ),
    (
        (0x1_ffff, 2, "LNKC", 0x12),
        b"\x12\x0f\x04\x0c\xff\xff\x01\x00\x0a\x02LNKC\x0a\x12",
    ),
    (
        (0x1_ffff, 3, "LNKD", 0x13),
        b"\x12\x0f\x04\x0c\xff\xff\x01\x00\x0a\x03LNKD\x0a\x13",
    ),
    (
        (0x2_ffff, 0, "\\_SB_.GSIE", 0x114),
        b"\x12\x15\x04\x0c\xff\xff\x02\x00\x00\x5c\x2e_SB_GSIE\x0b\x14\x01",
    ),
    (
        (0x2_ffff, 1, "_SB_.GSIF", 0),
        b"\x12\x12\x04\x0c\xff\xff\x02\x00\x01\x2e_SB_GSIF\x00",
    ),
    (
        (0x2_ffff, 2, "LNKA", 1),
        b"\x12\x0e\x04\x0c\xff\xff\x02\x00\x0a\x02LNKA\x01",
    ),
    (
        (0x2_ffff, 3, "LNKB", 0x5_0607),
        b"\x12\x12\x04\x0c\xff\xff\x02\x00\x0a\x03LNKB\x0c\x07\x06\x05\x00",
    ),
];

fn route(alloc: Global, (address, pin, path, number): Route) -> R<Package> {
    let path = Path::new(alloc, path)?;
    let elements = vec![in alloc; &address as &dyn Aml, &pin, &path, &number]?;
    Package::new(elements)
}

#[test]
fn packages_of_routes(rt: HostRuntime) -> Result<(), Fail> {
    for (parts, bytes) in ROUTES {
        makes(rt.alloc(), route(rt.alloc(), parts), bytes)?;
    }
    Ok(())
}

// The package of these packages.
fn bytes_of_routes(alloc: Global) -> R<Vec<u8>> {
    let mut all = Vec::from_slice(alloc, &[0x12, 0x4c, 0x08, 0x08])?;
    for (_, bytes) in ROUTES {
        all.extend_from_slice(bytes)?;
    }
    Ok(all)
}

fn route_builder(alloc: Global, (address, pin, path, number): Route) -> R<PackageBuilder> {
    let mut inner = PackageBuilder::new(alloc);
    inner.add_element(&address)?;
    inner.add_element(&pin)?;
    inner.add_element(&Path::new(alloc, path)?)?;
    inner.add_element(&number)?;
    Ok(inner)
}

fn builder_of_routes(alloc: Global) -> R<PackageBuilder> {
    let mut outer = PackageBuilder::new(alloc);
    for (parts, _) in ROUTES {
        outer.add_element(&route_builder(alloc, parts)?)?;
    }
    Ok(outer)
}

#[test]
fn a_builder_of_builders(rt: HostRuntime) -> Result<(), Fail> {
    let wanted = bytes_of_routes(rt.alloc())?;
    equal(&wanted.len(), &141)?;
    makes(rt.alloc(), builder_of_routes(rt.alloc()), &wanted)
}

fn routes(alloc: Global) -> R<Vec<Package>> {
    let mut routes = Vec::new(alloc);
    for (parts, _) in ROUTES {
        routes.push(route(alloc, parts)?)?;
    }
    Ok(routes)
}

fn package_of(alloc: Global, packages: &[Package]) -> R<Package> {
    let mut elements: Vec<&dyn Aml> = Vec::new(alloc);
    for package in packages {
        elements.push(package)?;
    }
    Package::new(elements)
}

#[test]
fn a_package_of_packages(rt: HostRuntime) -> Result<(), Fail> {
    let alloc = rt.alloc();
    let package = package_of(alloc, &routes(alloc)?)?;
    writes(alloc, &package, &bytes_of_routes(alloc)?)
}

// The package in a table, whose checksum is 41.
#[test]
fn a_table_of_a_package(rt: HostRuntime) -> Result<(), Fail> {
    let mut table = dsdt(rt.alloc())?;
    append_object(&pair(rt.alloc())?, &mut table)?;
    same(
        table.as_slice(),
        b"DSDT\x29\0\0\0\x02\x41FOOBARCAFEDEAD\xef\xbe\xad\xdeRVAT\0\0\0\x01\x12\x04\x02\x00\x01",
    )
}

fn boxed(alloc: Global) -> R<Box<dyn Aml + Drop>> {
    let package = pair(alloc)?;
    let boxed: Box<dyn Aml + Drop> = Box::new(alloc, package)?;
    Ok(boxed)
}

// A boxed object writes the same to each sink as the object itself.
#[test]
fn a_boxed_package(rt: HostRuntime) -> Result<(), Fail> {
    let boxed = boxed(rt.alloc())?;
    let mut checksum = Checksum::default();
    boxed.to_aml_bytes(&mut checksum)?;
    equal(&checksum.raw_value(), &0x19)?;
    let mut bytes = Vec::new(rt.alloc());
    boxed.to_aml_bytes(&mut bytes)?;
    same(&bytes, &PAIR)
}

#[test]
fn a_boxed_package_in_a_builder(rt: HostRuntime) -> Result<(), Fail> {
    let boxed = boxed(rt.alloc())?;
    let mut builder = PackageBuilder::new(rt.alloc());
    boxed.to_aml_bytes(&mut builder)?;
    let wanted = [0x12, 0x07, 0x00, 0x12, 0x04, 0x02, 0x00, 0x01];
    writes(rt.alloc(), &builder, &wanted)
}

#[test]
fn a_boxed_package_in_a_table(rt: HostRuntime) -> Result<(), Fail> {
    let boxed = boxed(rt.alloc())?;
    let mut table = dsdt(rt.alloc())?;
    boxed.to_aml_bytes(&mut table)?;
    same(table.as_slice().get(36..).unwrap_or(&[]), &PAIR)
}

// Fails unless an object begins with these bytes.
fn begins(alloc: Global, made: &dyn Aml, start: &[u8]) -> Result<(), Fail> {
    let bytes = written(alloc, made)?;
    same(bytes.get(..start.len()).unwrap_or(&[]), start)
}

#[test]
fn counts_of_elements(rt: HostRuntime) -> Result<(), Fail> {
    let alloc = rt.alloc();
    let starts: [(usize, &[u8]); 3] = [
        (61, &[0x12, 0x3f, 0x3d]),
        (62, &[0x12, 0x41, 0x04, 0x3e]),
        (255, &[0x12, 0x42, 0x10, 0xff]),
    ];
    for (count, start) in starts {
        begins(alloc, &Package::new(ones(alloc, count)?)?, start)?;
    }
    refuses(Package::new(ones(alloc, 256)?), Error::PackageElements)
}

#[test]
fn a_refused_element(rt: HostRuntime) -> Result<(), Fail> {
    let arg = Arg(7);
    let children = vec![in rt.alloc(); &ONE as &dyn Aml, &arg]?;
    refuses(Package::new(children), Error::ArgNumber)?;
    let mut bytes = Vec::new(rt.alloc());
    refuses(arg.to_aml_bytes(&mut bytes), Error::ArgNumber)?;
    equal(&bytes.len(), &0)
}

#[test]
fn builders(rt: HostRuntime) -> Result<(), Fail> {
    let alloc = rt.alloc();
    let mut builder = PackageBuilder::new(alloc);
    builder.add_element(&ZERO)?;
    builder.add_element(&ONE)?;
    builder.byte(0x0a)?;
    builder.vec(&[0x05])?;
    writes(alloc, &builder, &[0x12, 0x06, 0x02, 0x00, 0x01, 0x0a, 0x05])
}

#[test]
fn full_builder(rt: HostRuntime) -> Result<(), Fail> {
    let alloc = rt.alloc();
    let mut builder = PackageBuilder::new(alloc);
    for _ in 0..255 {
        builder.add_element(&ONE)?;
    }
    refuses(builder.add_element(&Arg(7)), Error::PackageElements)?;
    begins(alloc, &builder, &[0x12, 0x42, 0x10, 0xff])
}

#[test]
fn variable_package(rt: HostRuntime) -> Result<(), Fail> {
    let alloc = rt.alloc();
    makes(
        alloc,
        VarPackageTerm::new(alloc, &2u8),
        &[0x13, 0x03, 0x0a, 0x02],
    )
}

// Fails unless a scope of this many bytes has these ones after its opcode. Its name is four bytes of the content.
fn framed(alloc: Global, content: usize, start: &[u8]) -> Result<(), Fail> {
    let inside = vec![in alloc; 0u8; content.saturating_sub(4)]?;
    let raw = Scope::raw(Path::new(alloc, "_SB_")?, inside)?;
    let end = start.len().saturating_add(1);
    same(raw.get(1..end).unwrap_or(&[]), start)
}

#[test]
fn package_lengths(rt: HostRuntime) -> Result<(), Fail> {
    let alloc = rt.alloc();
    let starts: [(usize, &[u8]); 9] = [
        (62, &[0x3f]),
        (63, &[0x41, 0x04]),
        (4093, &[0x4f, 0xff]),
        (4094, &[0x81, 0x00, 0x01]),
        (0x1ffd, &[0x80, 0x00, 0x02]),
        (0x2_3453, &[0x86, 0x45, 0x23]),
        (1_048_572, &[0x8f, 0xff, 0xff]),
        (1_048_573, &[0xc1, 0x00, 0x00, 0x01]),
        (0x10_2341, &[0xc5, 0x34, 0x02, 0x01]),
    ];
    for (content, start) in starts {
        framed(alloc, content, start)?;
    }
    let empty = Scope::raw(Path::new(alloc, "_SB_")?, Vec::new(alloc))?;
    same(&empty, &[0x10, 0x05, 0x5f, 0x53, 0x42, 0x5f])
}
