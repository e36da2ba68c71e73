//! Structures that end in a list of entries.

ghost use Rattle.std.specs.Prelude.{◌≡◌, ◌<◌, ◌^◌, ◌++◌, OnOk, IfErr};
ghost use Rattle.std.specs.List.{flat_map};
ghost use Rattle.acpi_base.specs.Sink.{Took, Refused};
ghost use Rattle.acpi_nodes.specs.Entries.{entries_of, records_joined};

use acpi_base::error::R;
use acpi_base::parts::write_parts;
use acpi_base::row::Record;
use acpi_base::sink::AmlSink;

/// The entries that were given, or none.
pub(crate) fn entries_of<T>(given: &Option<Vec<T>>) -> &[T]
    ensures { result.now ≡ entries_of given.now }
{
    match given {
        Some(entries) => entries.as_slice(),
        None => &[],
    }
}

/// Writes the bytes before a structure's entries to a sink, and then the entries in order.
pub(crate) fn write_with_entries<const SIZE: usize, T: Record<SIZE>>(
    sink: &mut dyn AmlSink,
    before: &[&[u8]],
    entries: &[T],
) -> R<()>
    requires size { SIZE < 2 ^ 63 }
    ensures ok { OnOk result (Took (meaning sink.old)
        (flat_map (λ part. part.now) before.now ++ records_joined T.fields entries.now) (meaning sink.new)) }
    ensures err { IfErr result (λ e. Refused e (meaning sink.old)
        (flat_map (λ part. part.now) before.now ++ records_joined T.fields entries.now) (meaning sink.new)) }
{
    write_parts(sink, before)?;
    for entry in entries {
        sink.vec(&entry.bytes())?;
    }
    Ok(())
}
