//! Filling a table until it takes no further structure.

use crate::fault::Fault;
use acpi_tables::read::Table;
use acpi_tables::{Aml, Error, R};
use std::alloc::Global;

/// The size of a large structure: a quarter of the limit of a table.
pub const GIB: usize = 1 << 30;

/// A table that grows by calls.
pub trait Fills: Aml + Drop + Sized {
    /// What a call adds, as a plural noun.
    const UNIT: &'static str;

    /// The table before the first call.
    fn empty(alloc: Global) -> R<Self>;

    /// Makes the call of this number, counted from 0. Large structures come first, so that few calls fill the table.
    fn grow(&mut self, alloc: Global, number: u32) -> R<()>;
}

/// A table that takes no further structure.
#[derive(Clone, Copy, Debug)]
pub struct Full {
    /// What is counted: structures, additions, localities or targets.
    pub unit: &'static str,
    pub count: u32,
    pub bytes: usize,
}

/// The bytes that an object writes.
pub fn written<T: Aml>(alloc: Global, object: &T) -> R<Vec<u8>> {
    let mut bytes = Vec::new(alloc);
    object.to_aml_bytes(&mut bytes)?;
    Ok(bytes)
}

/// Makes calls until one returns `FieldWidth`, and checks the length and the sum of the table.
pub fn fill<T: Fills>(alloc: Global) -> Result<Full, Fault> {
    let mut table = T::empty(alloc)?;
    let count = grow(alloc, &mut table)?;
    let bytes = written(alloc, &table)?;
    Table::check(&bytes)?;
    Ok(Full {
        unit: T::UNIT,
        count,
        bytes: bytes.len(),
    })
}

// Makes calls until one returns `FieldWidth`, and returns how many succeeded.
fn grow<T: Fills>(alloc: Global, table: &mut T) -> Result<u32, Fault> {
    for number in 0..u32::MAX {
        match table.grow(alloc, number) {
            Ok(()) => {}
            Err(Error::FieldWidth) => return Ok(number),
            Err(other) => return Err(Fault::Built(other)),
        }
    }
    Err(Fault::Unlimited)
}
