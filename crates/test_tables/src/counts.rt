//! A table of any kind, made directly: how many structures a count of two bytes allows.

use acpi_base::error::Error;
use acpi_base::oem::Oem;
use acpi_core::form::Form;
use acpi_core::table::Table;
use std::alloc::Global;
use std::test::Fail;
use test_support::table::many;
use test_support::{OEM, OEM_REVISION, OEM_TABLE, refuses};

type Structures = Table<38>;

// Fails unless a table takes 65,535 structures.
fn takes_most(alloc: Global, table: &mut Structures) -> Result<(), Fail> {
    for _ in 0..65_535u32 {
        table.add(&[0x5a])?;
    }
    has_most(alloc, table)?;
    refuses(table.add(&[0x5a]), Error::FieldWidth)?;
    has_most(alloc, table)
}

fn has_most(alloc: Global, table: &Structures) -> Result<(), Fail> {
    many(alloc, table, b"TEST", 1, &[0xff; 2], &[0x5a], 65_535)
}

#[test]
fn most_structures(rt: HostRuntime) -> Result<(), Fail> {
    let form = Form::new(*b"TEST", 1, Oem::new(OEM, OEM_TABLE, OEM_REVISION), 2);
    let mut table: Structures = Table::new(rt.alloc(), form, &[], &[]);
    takes_most(rt.alloc(), &mut table)
}
