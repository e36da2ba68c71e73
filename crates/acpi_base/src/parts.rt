//! Writing bytes that lie in several places.

ghost use Rattle.std.specs.Prelude.{OnOk, IfErr};
ghost use Rattle.std.specs.List.{flat_map};
ghost use Rattle.acpi_base.specs.Sink.{Took, Refused};

use crate::error::R;
use crate::sink::AmlSink;

/// Writes lists of bytes to a sink, in order.
pub fn write_parts(sink: &mut dyn AmlSink, parts: &[&[u8]]) -> R<()>
    ensures ok { OnOk result (Took (meaning sink.old) (flat_map (λ part. part.now) parts.now) (meaning sink.new)) }
    ensures err { IfErr result (λ e. Refused e (meaning sink.old) (flat_map (λ part. part.now) parts.now) (meaning sink.new)) }
{
    for part in parts {
        sink.vec(*part)?;
    }
    Ok(())
}
