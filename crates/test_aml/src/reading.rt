//! The terms of objects, with the stated numbers of arguments. The bytes of each object are in the other files, and the terms of
//! bytes in `cases/aml.cases`.

use crate::make::method;
use acpi_tables::aml::{Arg, Method, MethodCall, ONE, PackageBuilder, Path};
use acpi_tables::read::{Arities, NameString, report_terms, terms_of};
use acpi_tables::{Aml, AmlSink, Error, R};
use std::alloc::Global;
use std::test::Fail;
use test_support::{agree, equal, refuses};

// This name takes this many arguments.
fn stated(alloc: Global, name: &str, count: u8) -> Result<Arities, Fail> {
    let name = NameString::new(alloc, name)?;
    Ok(Arities::new(vec![in alloc; (name, count)]?)?)
}

fn call(alloc: Global) -> R<MethodCall> {
    let arguments = vec![in alloc; &ONE as &dyn Aml, &5u8]?;
    MethodCall::new(Path::new(alloc, "MTHD")?, arguments)
}

// Fails unless an object means the terms of these lines, if a name takes this many arguments.
fn means(alloc: Global, aml: &dyn Aml, name: &str, count: u8, lines: &str) -> Result<(), Fail> {
    let terms = terms_of(aml, &stated(alloc, name, count)?)??;
    agree(&report_terms(alloc, &terms)?, lines)
}

// Fails unless an object means no terms, if MTHD takes this many arguments.
fn means_none(alloc: Global, aml: &dyn Aml, count: u8) -> Result<(), Fail> {
    equal(
        &terms_of(aml, &stated(alloc, "MTHD", count)?)?.is_err(),
        &true,
    )
}

#[test]
fn calls(rt: HostRuntime) -> Result<(), Fail> {
    let call = call(rt.alloc())?;
    let lines = "name MTHD args 2\n  number 1\n  number 5\n";
    means(rt.alloc(), &call, "MTHD", 2, lines)?;
    let lines = "name MTHD args 0\nnumber 1\nnumber 5\n";
    means(rt.alloc(), &call, "\\MTHD", 2, lines)?;
    means_none(rt.alloc(), &call, 3)
}

fn calling(alloc: Global) -> R<Method> {
    let arguments = vec![in alloc; &Arg(0) as &dyn Aml]?;
    let call = MethodCall::new(Path::new(alloc, "MTHD")?, arguments)?;
    method(alloc, ("CALL", 1, false), &[&call, &ONE])
}

#[test]
fn calls_in_methods(rt: HostRuntime) -> Result<(), Fail> {
    let lines = "method CALL args 1 serialized 0\n  name MTHD args 1\n    arg 0\n  number 1\n";
    means(rt.alloc(), &calling(rt.alloc())?, "MTHD", 1, lines)
}

#[test]
fn refused_objects(rt: HostRuntime) -> Result<(), Fail> {
    let none = stated(rt.alloc(), "MTHD", 0)?;
    refuses(terms_of(&Arg(7), &none), Error::ArgNumber)
}

// Bytes that are added to a builder as to a sink don't count as elements.
#[test]
fn uncounted_elements(rt: HostRuntime) -> Result<(), Fail> {
    let mut builder = PackageBuilder::new(rt.alloc());
    builder.add_element(&ONE)?;
    builder.vec(&[0x0a, 0x05])?;
    means_none(rt.alloc(), &builder, 0)
}
