//! The standard header of a table, and its checksum.

ghost use Rattle.std.specs.Prelude.{◌≡◌, ◌≤◌, ◌%◌, ℕ, List, [], ◌∷◌, length, sum};
ghost use Rattle.acpi_base.specs.Bytes.{put};
ghost use Rattle.acpi_base.specs.Fields.{AreRowsOf};
ghost use Rattle.acpi_base.specs.Header.{header, header_fields};
ghost use Rattle.acpi_base.specs.declared.oem.Oem.{Oem};
ghost use Rattle.acpi_base.specs.Table.{with_checksum};

use crate::oem::Oem;
use crate::patch::write_at;
use crate::row::{Row, Value, record_of};
use crate::sum::Sum;

/// The creator's id in the standard header (ACPI 6.5, 5.2.6, offset 28).
pub const CREATOR_ID: [u8; 4] = *b"RVAT";

/// The creator's revision in the standard header (ACPI 6.5, 5.2.6, offset 32).
pub const CREATOR_REVISION: [u8; 4] = [0, 0, 0, 1];

/// The standard header (ACPI 6.5, 5.2.6) of a table of `size` bytes. It has 36 bytes, and its checksum is zero.
pub fn header(signature: [u8; 4], size: u32, revision: u8, oem: Oem) -> [u8; 36]
    ensures { result ≡ header signature size revision oem }
{
    record_of(
        &HEADER,
        &[
            Value::Bytes(&signature),
            Value::Number(u64::from(size)),
            Value::Number(u64::from(revision)),
            Value::Number(0),
            Value::Bytes(&oem.id),
            Value::Bytes(&oem.table_id),
            Value::Number(u64::from(oem.revision)),
            Value::Bytes(&CREATOR_ID),
            Value::Bytes(&CREATOR_REVISION),
        ],
    )
}

/// The rows of the header.
pub const HEADER: [Row; 9] = [
    Row::Text("Signature", 4),
    Row::Number("Length", 4),
    Row::Number("Revision", 1),
    Row::Hex("Checksum", 1),
    Row::Text("OEM ID", 6),
    Row::Text("OEM Table ID", 8),
    Row::Number("OEM Revision", 4),
    Row::Text("Creator ID", 4),
    Row::Hex("Creator Revision", 4),
];

/// The names and widths of the header's fields, and what their values are, in order.
pub fn header_rows() -> &'static [Row]
    ensures { (signature : List ℕ) (size revision : ℕ) (oem : Oem)
        → AreRowsOf result.now (header_fields signature size revision oem) }
{
    &HEADER
}

/// Sets the checksum at offset 9, so that all bytes sum to zero modulo 256. Returns the sum of all other bytes.
pub fn seal(bytes: &mut [u8]) -> Sum
    requires { 36 ≤ length bytes.old }
    ensures bytes { bytes.new ≡ with_checksum bytes.old }
    ensures sum { result.value ≡ sum (put 9 (0 ∷ []) bytes.new) % 256 }
{
    write_at(bytes, 9, &[0]);
    let mut running = Sum::new();
    running.add(bytes);
    write_at(bytes, 9, &[running.checksum()]);
    running
}
