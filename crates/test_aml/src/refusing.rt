//! Objects that return errors.

use super::make::{device, method, named, scope, template};
use acpi_tables::aml::{
    Add, AddressSpace, Arg, Else, If, Local, MethodCall, NotEqual, ONE, OpRegion, OpRegionSpace,
    Package, PackageBuilder, Path, PowerResource, Store, VarPackageTerm, While, ZERO,
};
use acpi_tables::{Aml, Error, R, u8sum};
use std::alloc::Global;
use std::test::Fail;
use test_support::broken::Broken;
use test_support::{refuses, same, writes};

const BROKEN: Broken = Broken {};

#[test]
fn an_object_that_refuses(rt: HostRuntime) -> Result<(), Fail> {
    let mut bytes = Vec::new(rt.alloc());
    refuses(BROKEN.to_aml_bytes(&mut bytes), Error::Sink(9))?;
    same(&bytes, &[1, 2, 3, 4])?;
    refuses(u8sum(&BROKEN), Error::Sink(9))
}

#[test]
fn an_element_that_refuses(rt: HostRuntime) -> Result<(), Fail> {
    let mut builder = PackageBuilder::new(rt.alloc());
    builder.add_element(&ONE)?;
    refuses(builder.add_element(&BROKEN), Error::Sink(9))?;
    refuses(builder.add_element(&Arg(7)), Error::ArgNumber)?;
    writes(rt.alloc(), &builder, &[0x12, 0x03, 0x01, 0x01])
}

fn broken_first(alloc: Global) -> R<Vec<&'static dyn Aml>> {
    Ok(vec![in alloc; &BROKEN as &dyn Aml, &ZERO]?)
}

fn call(alloc: Global, arguments: &[&dyn Aml]) -> R<MethodCall> {
    let arguments = Vec::from_slice(alloc, arguments)?;
    MethodCall::new(Path::new(alloc, "NAME")?, arguments)
}

fn power(alloc: Global) -> R<PowerResource> {
    let parts = broken_first(alloc)?;
    PowerResource::new(Path::new(alloc, "_SB_")?, 0, 0, parts)
}

#[test]
fn a_part_that_refuses(rt: HostRuntime) -> Result<(), Fail> {
    let alloc = rt.alloc();
    refuses(scope(alloc, "_SB_", &[&BROKEN, &ZERO]), Error::Sink(9))?;
    refuses(device(alloc, "_SB_", &[&BROKEN, &ZERO]), Error::Sink(9))?;
    refuses(power(alloc), Error::Sink(9))?;
    refuses(Else::new(broken_first(alloc)?), Error::Sink(9))?;
    refuses(If::new(&ONE, broken_first(alloc)?), Error::Sink(9))?;
    refuses(While::new(&ONE, broken_first(alloc)?), Error::Sink(9))?;
    refuses(VarPackageTerm::new(alloc, &BROKEN), Error::Sink(9))?;
    refuses(named(alloc, "_HID", &BROKEN), Error::Sink(9))
}

fn region(alloc: Global, start: &dyn Aml, size: &dyn Aml) -> R<OpRegion> {
    OpRegion::new(
        Path::new(alloc, "PRST")?,
        OpRegionSpace::SystemIO,
        start,
        size,
    )
}

#[test]
fn the_first_refusal_in_written_order(rt: HostRuntime) -> Result<(), Fail> {
    let alloc = rt.alloc();
    refuses(Store::new(alloc, &Arg(7), &ONE), Error::ArgNumber)?;
    refuses(Store::new(alloc, &BROKEN, &Arg(7)), Error::ArgNumber)?;
    refuses(Store::new(alloc, &Arg(7), &BROKEN), Error::Sink(9))?;
    refuses(Add::new(alloc, &BROKEN, &Arg(7), &ONE), Error::ArgNumber)?;
    refuses(NotEqual::new(alloc, &ONE, &BROKEN), Error::Sink(9))
}

// If a number passes its limit and a child fails, the error is that of the limit.
#[test]
fn arguments_before_children(rt: HostRuntime) -> Result<(), Fail> {
    for (args, refusal) in [
        (0, Error::Sink(9)),
        (7, Error::Sink(9)),
        (8, Error::MethodArgs),
    ] {
        let method = method(rt.alloc(), ("MTHD", args, false), &[&BROKEN, &ZERO]);
        refuses(method, refusal)?;
    }
    Ok(())
}

fn package(alloc: Global, more: u16) -> R<Package> {
    let mut elements = broken_first(alloc)?;
    for _ in 0..more {
        elements.push(&ONE)?;
    }
    Package::new(elements)
}

#[test]
fn the_number_of_elements_before_them(rt: HostRuntime) -> Result<(), Fail> {
    refuses(package(rt.alloc(), 253), Error::Sink(9))?;
    refuses(package(rt.alloc(), 254), Error::PackageElements)
}

// A path of this first part, 254 other parts, and this last part.
fn parts(alloc: Global, first: &str, last: &str) -> R<Path> {
    let mut text = String::from_str(alloc, first)?;
    for _ in 0..254 {
        text.push_str(".ABCD")?;
    }
    text.push_str(last)?;
    Path::new(alloc, &text)
}

#[test]
fn parts_before_their_number(rt: HostRuntime) -> Result<(), Fail> {
    for (first, last, refusal) in [
        ("_SB_", ".ABCD", Error::PathParts),
        ("_SB", ".ABCD", Error::NamePart),
        ("_SB_", ".ABC", Error::NamePart),
        ("_SB_", ".ABCD.", Error::NamePart),
    ] {
        refuses(parts(rt.alloc(), first, last), refusal)?;
    }
    Ok(())
}

fn branch(alloc: Global, test: &dyn Aml, part: &dyn Aml) -> R<If> {
    If::new(test, vec![in alloc; part]?)
}

fn repeated(alloc: Global, test: &dyn Aml, part: &dyn Aml) -> R<While> {
    While::new(test, vec![in alloc; part]?)
}

fn both(alloc: Global, first: &dyn Aml, second: &dyn Aml) -> R<Package> {
    Package::new(vec![in alloc; first, second]?)
}

// Fails unless each object of two parts returns this error.
fn all_refuse(
    alloc: Global,
    first: &dyn Aml,
    second: &dyn Aml,
    refusal: Error,
) -> Result<(), Fail> {
    refuses(branch(alloc, first, second), refusal)?;
    refuses(repeated(alloc, first, second), refusal)?;
    refuses(template(alloc, &[first, second]), refusal)?;
    refuses(both(alloc, first, second), refusal)?;
    refuses(call(alloc, &[first, second]), refusal)?;
    refuses(region(alloc, first, second), refusal)
}

// If two parts fail, the error is that of the part that is written first.
#[test]
fn the_first_part_that_refuses(rt: HostRuntime) -> Result<(), Fail> {
    let range = AddressSpace::new_io(5u16, 4, None);
    let (arg, local) = (Arg(7), Local(8));
    let all: [(&dyn Aml, Error); 4] = [
        (&BROKEN, Error::Sink(9)),
        (&range, Error::AddressRange),
        (&arg, Error::ArgNumber),
        (&local, Error::LocalNumber),
    ];
    for (first, refusal) in all {
        for (second, _) in all {
            all_refuse(rt.alloc(), first, second, refusal)?;
        }
    }
    Ok(())
}
