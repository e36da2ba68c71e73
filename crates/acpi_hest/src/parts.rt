//! Writing a fixed part and then the bytes after it.

ghost use Rattle.std.specs.Prelude.{◌<◌, ◌^◌, ◌++◌, OnOk, IfErr};
ghost use Rattle.acpi_base.specs.Fields.{fields_joined};
ghost use Rattle.acpi_base.specs.Sink.{Took, Refused};

use acpi_base::error::R;
use acpi_base::parts::write_parts;
use acpi_base::row::Record;
use acpi_base::sink::AmlSink;

/// Writes one list of bytes to a sink, and then another.
pub fn write_behind(head: &[u8], rest: &[u8], sink: &mut dyn AmlSink) -> R<()>
    ensures ok { OnOk result (Took (meaning sink.old) (head.now ++ rest.now) (meaning sink.new)) }
    ensures err { IfErr result (λ e. Refused e (meaning sink.old) (head.now ++ rest.now) (meaning sink.new)) }
{
    write_parts(sink, &[head, rest])
}

/// Writes a list of bytes to a sink, and then a record.
pub fn write_record_behind<const N: usize, T: Record<N>>(
    head: &[u8],
    value: &T,
    sink: &mut dyn AmlSink,
) -> R<()>
    requires size { N < 2 ^ 63 }
    ensures ok { OnOk result (Took
        (meaning sink.old) (head.now ++ fields_joined (T.fields value.now)) (meaning sink.new)) }
    ensures err { IfErr result (λ e. Refused e
        (meaning sink.old) (head.now ++ fields_joined (T.fields value.now)) (meaning sink.new)) }
{
    write_behind(head, &value.bytes(), sink)
}
