//! Matrices of a locality.

use crate::matrices::hmat::{holds, locality, table};
use acpi_tables::hmat::SystemLocality;
use acpi_tables::{Error, R};
use std::alloc::Global;
use std::test::Fail;
use test_support::{refuses, writes};

// A value of a matrix: an entry of an initiator and a target, or the domain of one of them.
#[derive(Clone, Copy)]
pub(crate) enum Value {
    Entry(usize, usize, u16),
    Initiator(usize, u32),
    Target(usize, u32),
}

fn set(made: &mut SystemLocality, value: Value) -> R<()> {
    match value {
        Value::Entry(initiator, target, value) => made.set_entry_value(initiator, target, value),
        Value::Initiator(initiator, domain) => made.set_initiator_value(initiator, domain),
        Value::Target(target, domain) => made.set_target_value(target, domain),
    }
}

// Sets these values of a matrix, and fails unless it refuses values outside of it.
pub(crate) fn takes(
    made: &mut SystemLocality,
    values: &[Value],
    outside: &[Value],
) -> Result<(), Fail> {
    for value in values {
        set(made, *value)?;
    }
    for value in outside {
        refuses(set(made, *value), Error::Index)?;
    }
    Ok(())
}

// Fails unless a matrix has these bytes after it took values and refused others.
fn becomes(
    alloc: Global,
    mut made: SystemLocality,
    values: &[Value],
    outside: &[Value],
    wanted: &[u8],
) -> Result<(), Fail> {
    takes(&mut made, values, outside)?;
    writes(alloc, &made, wanted)
}

// All values of a matrix of three by two. Its last entry is set twice.
const ALL: [Value; 12] = [
    Value::Entry(2, 1, 10),
    Value::Initiator(0, 0x2423_2221),
    Value::Initiator(1, 0x3433_3231),
    Value::Initiator(2, 0x4443_4241),
    Value::Target(0, 0x5453_5251),
    Value::Target(1, 0x6463_6261),
    Value::Entry(0, 0, 0x7271),
    Value::Entry(0, 1, 0x8281),
    Value::Entry(1, 0, 0x9291),
    Value::Entry(1, 1, 0xa2a1),
    Value::Entry(2, 0, 0xb2b1),
    Value::Entry(2, 1, 0xc2c1),
];

const FULL: &[u8] = b"\x01\0\0\0\x40\0\0\0\x03\x05\x0b\0\x03\0\0\0\
            \x02\0\0\0\0\0\0\0\x01\x02\x03\x04\x05\x06\x07\x08\
            !\x22#$1234ABCDQRST\
            abcd\x71\x72\x81\x82\x91\x92\xa1\xa2\xb1\xb2\xc1\xc2";

// The values outside of a matrix of three by two.
const OUTSIDE: [Value; 7] = [
    Value::Entry(0, 2, 1),
    Value::Entry(3, 0, 1),
    Value::Entry(usize::MAX, usize::MAX, 1),
    Value::Initiator(3, 1),
    Value::Initiator(usize::MAX, 1),
    Value::Target(2, 1),
    Value::Target(usize::MAX, 1),
];

// Three by two, whose last entry is 10.
const LAST: &[u8] = b"\x01\0\0\0\x40\0\0\0\x03\x05\x0b\0\x03\0\0\0\
            \x02\0\0\0\0\0\0\0\x01\x02\x03\x04\x05\x06\x07\x08\
            \0\0\0\0\0\0\0\0\0\0\0\0\0\0\0\0\
            \0\0\0\0\xff\xff\xff\xff\xff\xff\xff\xff\xff\xff\x0a\0";

// Numbers of initiators and of targets, values that are set, values that are refused, and the bytes then.
type Matrix = (
    usize,
    usize,
    &'static [Value],
    &'static [Value],
    &'static [u8],
);

// The bytes of three by two are the same before and after the refusals.
#[rattlefmt::skip]
const MATRICES: [Matrix; 9] = [
    (3, 2, &[], &[],
        b"\x01\0\0\0\x40\0\0\0\x03\x05\x0b\0\x03\0\0\0\
            \x02\0\0\0\0\0\0\0\x01\x02\x03\x04\x05\x06\x07\x08\
            \0\0\0\0\0\0\0\0\0\0\0\0\0\0\0\0\
            \0\0\0\0\xff\xff\xff\xff\xff\xff\xff\xff\xff\xff\xff\xff"),
    (3, 2, &[Value::Entry(2, 1, 10)], &[], LAST),
    (3, 2, &[Value::Entry(2, 1, 10)], &OUTSIDE, LAST),
    (3, 2, &ALL, &[], FULL),
    // a row of three targets
    (1, 3, &[Value::Entry(0, 1, 0x0201), Value::Target(2, 7)], &[Value::Entry(1, 0, 1), Value::Initiator(1, 1)],
        b"\x01\0\0\0\x36\0\0\0\x03\x05\x0b\0\x01\0\0\0\
            \x03\0\0\0\0\0\0\0\x01\x02\x03\x04\x05\x06\x07\x08\
            \0\0\0\0\0\0\0\0\0\0\0\0\x07\0\0\0\xff\xff\x01\x02\xff\xff"),
    // a column of three initiators
    (3, 1, &[Value::Entry(1, 0, 0x0201), Value::Initiator(2, 7)], &[Value::Entry(0, 1, 1), Value::Target(1, 1)],
        b"\x01\0\0\0\x36\0\0\0\x03\x05\x0b\0\x03\0\0\0\
            \x01\0\0\0\0\0\0\0\x01\x02\x03\x04\x05\x06\x07\x08\
            \0\0\0\0\0\0\0\0\x07\0\0\0\0\0\0\0\xff\xff\x01\x02\xff\xff"),
    (0, 0, &[], &[Value::Entry(0, 0, 1), Value::Initiator(0, 1), Value::Target(0, 1)],
        b"\x01\0\0\0\x20\0\0\0\x03\x05\x0b\0\0\0\0\0\0\0\0\0\0\0\0\0\x01\x02\x03\x04\x05\x06\x07\x08"),
    (0, 2, &[Value::Target(1, 9)], &[Value::Entry(0, 0, 1)],
        b"\x01\0\0\0\x28\0\0\0\x03\x05\x0b\0\0\0\0\0\x02\0\0\0\0\0\0\0\x01\x02\x03\x04\x05\x06\x07\x08\0\0\0\0\x09\0\0\0"),
    (2, 0, &[Value::Initiator(1, 9)], &[Value::Entry(0, 0, 1)],
        b"\x01\0\0\0\x28\0\0\0\x03\x05\x0b\0\x02\0\0\0\0\0\0\0\0\0\0\0\x01\x02\x03\x04\x05\x06\x07\x08\0\0\0\0\x09\0\0\0"),
];

#[test]
fn matrices(rt: HostRuntime) -> Result<(), Fail> {
    for (initiators, targets, values, outside, wanted) in &MATRICES {
        let made = locality(rt.alloc(), *initiators, *targets)?;
        becomes(rt.alloc(), made, *values, *outside, *wanted)?;
    }
    Ok(())
}

fn full(alloc: Global) -> Result<SystemLocality, Fail> {
    let mut made = locality(alloc, 3, 2)?;
    takes(&mut made, &ALL, &[])?;
    Ok(made)
}

#[test]
fn a_table_of_three_by_two(rt: HostRuntime) -> Result<(), Fail> {
    let mut hmat = table(rt.alloc());
    hmat.add_system_locality(full(rt.alloc())?)?;
    holds(rt.alloc(), hmat, FULL, 1)
}
