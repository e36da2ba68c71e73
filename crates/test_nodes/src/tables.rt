//! What the tests of all tables share.

use acpi_base::object::Aml;
use std::alloc::Global;
use std::test::Fail;
use test_support::table::table;
use test_support::writes;

/// Fails unless a table is its header and these parts.
pub(crate) fn is(
    alloc: Global,
    made: &dyn Aml,
    signature: &[u8; 4],
    revision: u8,
    parts: &[&[u8]],
) -> Result<(), Fail> {
    writes(alloc, made, &table(alloc, signature, revision, parts)?)
}
