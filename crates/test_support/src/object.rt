//! Comparing what objects write with expected bytes and errors.

ghost use Rattle.std.specs.Prelude.{◌≡◌, All, Err, IfOk, IsOkAnd, OnOk, length};
ghost use Rattle.acpi_base.specs.Object.{Built};

use crate::compare::{equal, same};
use acpi_base::buffer::{append, append_value};
use acpi_base::error::{Error, R};
use acpi_base::object::Aml;
use std::alloc::Global;
use std::test::Fail;

/// The bytes that an object writes.
pub fn written(alloc: Global, aml: &dyn Aml) -> R<Vec<u8>>
    ensures { IfOk result (λ bytes. Built (object aml.now) bytes.items) }
{
    let mut bytes = Vec::new(alloc);
    append(aml, &mut bytes)?;
    Ok(bytes)
}

/// The bytes that an object writes, if its constructor succeeded.
pub fn bytes_of<T: Aml + Drop>(alloc: Global, made: R<T>) -> R<Vec<u8>>
    ensures { IfOk result (λ bytes. IsOkAnd made (λ value. Built (T.object value) bytes.items)) }
{
    let mut bytes = Vec::new(alloc);
    append_value(&made?, &mut bytes)?;
    Ok(bytes)
}

/// Fails unless an object writes these bytes.
pub fn writes(alloc: Global, aml: &dyn Aml, wanted: &[u8]) -> Result<(), Fail>
    ensures { OnOk result (Built (object aml.now) wanted.now) }
{
    let bytes = written(alloc, aml)?;
    same(&bytes, wanted)
}

/// Fails unless an object writes this many bytes.
pub fn sized(alloc: Global, aml: &dyn Aml, wanted: usize) -> Result<(), Fail>
    ensures { OnOk result (length (object aml.now).front ≡ wanted) }
{
    equal(&written(alloc, aml)?.len(), &wanted)
}

/// Fails unless a constructor succeeded and its object writes these bytes.
pub fn makes<T: Aml + Drop>(alloc: Global, made: R<T>, wanted: &[u8]) -> Result<(), Fail>
    ensures { OnOk result (IsOkAnd made (λ value. Built (T.object value) wanted.now)) }
{
    let bytes = bytes_of(alloc, made)?;
    same(&bytes, wanted)
}

/// Fails unless each object writes the bytes in its row.
pub fn all(alloc: Global, rows: &[(&dyn Aml, &[u8])]) -> Result<(), Fail>
    ensures { OnOk result (All (λ row. Built (object row.0.now) row.1.now) rows.now) }
{
    for (aml, wanted) in rows {
        writes(alloc, *aml, *wanted)?;
    }
    Ok(())
}

/// Fails unless a call returned this error.
pub fn refuses<T: Drop>(made: R<T>, wanted: Error) -> Result<(), Fail>
    ensures { OnOk result (made ≡ Err wanted) }
{
    match made {
        Err(error) if error == wanted => Ok(()),
        Err(error) => Err(Fail::new(format_args!("{error:?}, not {wanted:?}"))),
        Ok(_) => Err(Fail::new("no refusal")),
    }
}
