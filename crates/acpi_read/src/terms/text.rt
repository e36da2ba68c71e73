//! Strings (ACPI 6.5, 20.2.3).

ghost use Rattle.std.specs.Prelude.{◌≡◌, string_bytes};
ghost use Rattle.acpi_term.specs.Reading.{text_at};
ghost use Rattle.acpi_read.specs.Cause.{Gives};

use crate::terms::cause::Cause;
use std::alloc::Global;

/// The text up to a zero, and the bytes after the zero.
#[tactic(auto, unfolding(acpi_term::specs::Reading::text_at))]
pub fn text(alloc: Global, bytes: &[u8]) -> Result<(String, &[u8]), Cause>
    ensures { Gives (λ x. (string_bytes x.0, x.1.now)) result (text_at bytes.now) }
{
    let mut text = String::new(alloc);
    let mut rest = bytes;
    'text: while let Some((byte, after)) = rest.split_first() {
        if *byte == 0 {
            return Ok((text, after));
        }
        if *byte >= 0x80 {
            return Err(Cause::Text);
        }
        text.push(*byte as char)?;
        rest = after;
    }
    Err(Cause::Truncated)
}
