//! Whole methods, devices and scopes, byte for byte.

use super::make::{device, method, named, scope, template};
use acpi_tables::aml::{
    Acquire, AddressSpace, AddressSpaceCacheable, Arg, Break, CreateField, EISAName, Equal,
    GreaterThan, If, Local, Memory32Fixed, Method, MethodCall, Mutex, Name, Notify, ONE, ONES,
    Path, Release, Return, Store, Subtract, While, ZERO,
};
use acpi_tables::{Aml, R};
use std::alloc::Global;
use std::test::Fail;
use test_support::makes;

// A return of zero, if the second argument is one.
fn zero_if_one(alloc: Global) -> R<If> {
    let same = Equal::new(alloc, &Arg(1), &ONE)?;
    let none = Return::new(alloc, &ZERO)?;
    If::new(&same, vec![in alloc; &none as &dyn Aml]?)
}

#[test]
fn a_method_that_compares_its_argument(rt: HostRuntime) -> Result<(), Fail> {
    let alloc = rt.alloc();
    let branch = zero_if_one(alloc)?;
    let all = Return::new(alloc, &ONES)?;
    makes(
        alloc,
        method(alloc, ("PICK", 2, false), &[&branch, &all]),
        b"\x14\x0fPICK\x02\xa0\x06\x93\x69\x01\xa4\x00\xa4\xff",
    )
}

// A return of one, if a variable is zero.
fn one_if_zero(alloc: Global) -> R<If> {
    let cleared = Equal::new(alloc, &Local(3), &ZERO)?;
    let one = Return::new(alloc, &ONE)?;
    If::new(&cleared, vec![in alloc; &one as &dyn Aml]?)
}

#[test]
fn a_method_that_compares_what_it_stored(rt: HostRuntime) -> Result<(), Fail> {
    let alloc = rt.alloc();
    let kept = Store::new(alloc, &Local(3), &ONE)?;
    let branch = one_if_zero(alloc)?;
    let answer = Return::new(alloc, &Local(3))?;
    makes(
        alloc,
        method(alloc, ("WAIT", 0, false), &[&kept, &branch, &answer]),
        b"\x14\x12WAIT\x00\x70\x01\x63\xa0\x06\x93\x63\x00\xa4\x01\xa4\x63",
    )
}

fn call(alloc: Global, name: &str, argument: &dyn Aml) -> R<MethodCall> {
    let arguments = vec![in alloc; argument]?;
    MethodCall::new(Path::new(alloc, name)?, arguments)
}

#[test]
fn methods_that_call_each_other(rt: HostRuntime) -> Result<(), Fail> {
    let alloc = rt.alloc();
    let there = call(alloc, "PONG", &Arg(0))?;
    makes(
        alloc,
        method(alloc, ("PING", 1, false), &[&there]),
        b"\x14\x0bPING\x01PONG\x68",
    )?;
    let back = call(alloc, "PING", &7u8)?;
    makes(
        alloc,
        method(alloc, ("PONG", 1, true), &[&back]),
        b"\x14\x0cPONG\x09PING\x0a\x07",
    )
}

// A method that has a lock while it stores a number.
fn taking(alloc: Global) -> R<Method> {
    let taken = Acquire::new(Path::new(alloc, "MTX5")?, 0x1234);
    let kept = Store::new(alloc, &Local(0), &ONE)?;
    let given = Release::new(Path::new(alloc, "MTX5")?);
    method(alloc, ("TAKE", 0, false), &[&taken, &kept, &given])
}

#[test]
fn a_device_with_a_lock(rt: HostRuntime) -> Result<(), Fail> {
    let alloc = rt.alloc();
    let id = named(alloc, "_HID", &EISAName::new("ABC1234")?)?;
    let lock = Mutex::new(Path::new(alloc, "MTX5")?, 5);
    let taking = taking(alloc)?;
    makes(
        alloc,
        device(alloc, "_SB_.LOCK", &[&id, &lock, &taking]),
        b"\x5b\x82\x33\x2e_SB_LOCK\x08_HID\x0c\x04\x43\x12\x34\x5b\x01MTX5\x05\
          \x14\x17TAKE\x00\x5b\x23MTX5\x34\x12\x70\x01\x60\x5b\x27MTX5",
    )
}

#[test]
fn a_device_that_notifies(rt: HostRuntime) -> Result<(), Fail> {
    let alloc = rt.alloc();
    let notice = Notify::new(alloc, &Path::new(alloc, "_SB_.PCI0.SLT3")?, &ONE)?;
    let ring = method(alloc, ("RING", 1, false), &[&notice])?;
    makes(
        alloc,
        device(alloc, "_SB_.BELL", &[&ring]),
        b"\x5b\x82\x21\x2e_SB_BELL\x14\x16RING\x01\x86\x2f\x03_SB_PCI0SLT3\x01",
    )
}

fn break_if_reached(alloc: Global) -> R<If> {
    let reached = Equal::new(alloc, &Arg(0), &Local(1))?;
    If::new(&reached, vec![in alloc; &Break::new() as &dyn Aml]?)
}

// A loop that counts down to the argument, or to zero.
fn counting(alloc: Global) -> R<While> {
    let left = GreaterThan::new(alloc, &Local(1), &ZERO)?;
    let next = Subtract::new(alloc, &Local(1), &Local(1), &ONE)?;
    let stop = break_if_reached(alloc)?;
    While::new(&left, vec![in alloc; &next as &dyn Aml, &stop]?)
}

fn spinning(alloc: Global) -> R<Method> {
    let start = Store::new(alloc, &Local(1), &0x20u8)?;
    let count = counting(alloc)?;
    let answer = Return::new(alloc, &3u8)?;
    method(alloc, ("SPIN", 1, false), &[&start, &count, &answer])
}

#[test]
fn a_device_with_a_loop(rt: HostRuntime) -> Result<(), Fail> {
    let alloc = rt.alloc();
    let spinning = spinning(alloc)?;
    makes(
        alloc,
        device(alloc, "\\_SB_.LOOP", &[&spinning]),
        b"\x5b\x82\x28\x5c\x2e_SB_LOOP\x14\x1cSPIN\x01\x70\x0a\x20\x61\
          \xa2\x0e\x94\x61\x00\x74\x61\x01\x61\xa0\x05\x93\x68\x61\xa5\xa4\x0a\x03",
    )
}

#[test]
fn a_scope_of_memory(rt: HostRuntime) -> Result<(), Fail> {
    let alloc = rt.alloc();
    let memory = Memory32Fixed::new(false, 0x8765_4321, 0x0011_2233);
    let settings = named(alloc, "_CRS", &template(alloc, &[&memory])?)?;
    makes(
        alloc,
        scope(alloc, "_SB_.RAM0", &[&settings]),
        b"\x10\x21\x2e_SB_RAM0\x08_CRS\x11\x11\x0a\x0e\x86\x09\x00\x00\
          \x21\x43\x65\x87\x33\x22\x11\x00\x79\x00",
    )
}

// A field of eight bytes of the buffer `RNGE`, from this bit on.
fn field(alloc: Global, name: &str, bit: u8) -> R<CreateField> {
    let range = Path::new(alloc, "RNGE")?;
    CreateField::new(alloc, &Path::new(alloc, name)?, &range, &bit, &0x40u8)
}

fn size_field(alloc: Global) -> R<CreateField> {
    let range = Path::new(alloc, "RNGE")?;
    let name = Path::new(alloc, "SIZE")?;
    CreateField::new(alloc, &name, &range, &0x130u16, &0x40u8)
}

// Adds fields for the ends of a range and for its length.
fn add_fields(alloc: Global, fields: &mut Vec<CreateField>) -> R<()> {
    fields.push(field(alloc, "LOW_", 0x70)?)?;
    fields.push(field(alloc, "HIGH", 0xb0)?)?;
    fields.push(size_field(alloc)?)?;
    Ok(())
}

// A range of all addresses but the last.
fn range(alloc: Global) -> R<Name> {
    let cached = AddressSpaceCacheable::Cacheable;
    let memory = AddressSpace::new_memory(cached, true, 0, u64::MAX - 1, None);
    named(alloc, "RNGE", &template(alloc, &[&memory])?)
}

fn ranging<'a>(alloc: Global, range: &'a Name, fields: &'a [CreateField]) -> R<Method> {
    let mut body = vec![in alloc; range as &dyn Aml]?;
    for field in fields {
        body.push(field)?;
    }
    Method::new(Path::new(alloc, "MKRS")?, 0, true, body)
}

#[test]
fn a_method_of_fields(rt: HostRuntime) -> Result<(), Fail> {
    let alloc = rt.alloc();
    let range = range(alloc)?;
    let mut fields = Vec::new(alloc);
    add_fields(alloc, &mut fields)?;
    makes(
        alloc,
        ranging(alloc, &range, &fields),
        b"\x14\x4b\x06MKRS\x08\x08RNGE\x11\x33\x0a\x30\x8a\x2b\x00\x00\x0c\x03\0\0\0\0\0\0\0\0\0\0\0\0\0\0\0\0\
          \xfe\xff\xff\xff\xff\xff\xff\xff\0\0\0\0\0\0\0\0\xff\xff\xff\xff\xff\xff\xff\xff\x79\x00\
          \x5b\x13RNGE\x0a\x70\x0a\x40LOW_\x5b\x13RNGE\x0a\xb0\x0a\x40HIGH\
          \x5b\x13RNGE\x0b\x30\x01\x0a\x40SIZE",
    )
}
