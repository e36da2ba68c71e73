//! Tables made of a header and a record.

ghost use Rattle.std.specs.Prelude.{◌≡◌, ◌+◌, ◌<◌, ◌≤◌, ◌^◌, ◌++◌, length, OnOk, IfErr};
ghost use Rattle.acpi_base.specs.Fields.{fields_joined};
ghost use Rattle.acpi_base.specs.Object.{whole, Wrote, WriteRefused};
ghost use Rattle.acpi_base.specs.Table.{with_checksum, table_of};
ghost use Rattle.acpi_fixed.specs.Sealed.{padded};

use acpi_base::error::R;
use acpi_base::header::{header, seal};
use acpi_base::oem::Oem;
use acpi_base::patch::write_at;
use acpi_base::row::Record;
use acpi_base::sink::AmlSink;

/// Writes a table of `N` bytes to a sink: the standard header with its checksum, and the fields of a record.
pub fn write_table<const BODY: usize, const N: usize, T: Record<BODY>>(
    signature: [u8; 4],
    revision: u8,
    oem: Oem,
    body: &T,
    sink: &mut dyn AmlSink,
) -> R<()>
    requires size { N ≡ 36 + BODY }
    requires fits { N < 2 ^ 32 }
    ensures ok { let table = whole (table_of signature revision oem (fields_joined (T.fields body.now))) in
        OnOk result (Wrote table (meaning sink.old) (meaning sink.new)) }
    ensures err { let table = whole (table_of signature revision oem (fields_joined (T.fields body.now))) in
        IfErr result (λ e. WriteRefused e table (meaning sink.old) (meaning sink.new)) }
{
    let table = sealed_table::<N>(header(signature, N as u32, revision, oem), &body.bytes());
    sink.vec(&table)
}

/// The bytes of a table: its header with its checksum, and the bytes after it.
pub fn sealed_table<const N: usize>(header: [u8; 36], body: &[u8]) -> [u8; N]
    requires { N ≡ 36 + length body.now }
    ensures { result ≡ with_checksum (header ++ body.now) }
{
    let mut bytes = [0; N];
    write_at(&mut bytes, 0, &header);
    write_at(&mut bytes, 36, body);
    seal(&mut bytes);
    bytes
}

/// Writes a table of `N` bytes to a sink: the standard header with its checksum, these bytes, and zeros after them.
pub fn write_padded<const N: usize>(
    signature: [u8; 4],
    revision: u8,
    oem: Oem,
    first: &[u8],
    sink: &mut dyn AmlSink,
) -> R<()>
    requires size { 36 + length first.now ≤ N }
    requires fits { N < 2 ^ 32 }
    ensures ok { let table = whole (padded N signature revision oem first.now) in
        OnOk result (Wrote table (meaning sink.old) (meaning sink.new)) }
    ensures err { let table = whole (padded N signature revision oem first.now) in
        IfErr result (λ e. WriteRefused e table (meaning sink.old) (meaning sink.new)) }
{
    let mut table = [0; N];
    write_at(&mut table, 0, &header(signature, N as u32, revision, oem));
    write_at(&mut table, 36, first);
    seal(&mut table);
    sink.vec(&table)
}
