//! Tables of texts, and texts to begin with.

ghost use Rattle.acpi_c_calls.specs.Results.{seen, IsOutcome, Gives, GivesAnywhere};
ghost use Rattle.acpi_c_calls.specs.Make.{IsTableOf, IsMakeRefusal, IsTemplate, IsTemplateRefusal};

use crate::fault::Fault;
use crate::give::give;
use crate::refused::Refused;
use acpi_forms::make::{make as made_of, template as template_of};
use std::alloc::Global;

// Returns the table of a text.
fn made(alloc: Global, text: &[u8]) -> Result<Vec<u8>, Refused>
    ensures { IsOutcome (IsTableOf text.now) (IsMakeRefusal text.now) (seen (λ bytes. bytes.items) result) }
{
    match made_of(alloc, text) {
        Ok(made) => Ok(made.bytes),
        Err(error) => Err(Refused::of_text(error, text)),
    }
}

/// Makes a text into a table, whose bytes are written to `out`. `size` is their number. Returns 0, or the number of a fault,
/// whose line is `place`, counted from 1. If `out` has space for fewer bytes, the fault is `Buffer`, and nothing is written to
/// `out`. With any other fault `size` is 0.
pub fn make(alloc: Global, text: &[u8], out: &mut [u8], size: &mut usize, place: &mut u64) -> u32
    ensures { Gives (IsTableOf text.now) (IsMakeRefusal text.now) out.old out.new result place.new size.new }
{
    give(made(alloc, text), out, size, place)
}

// Returns a text to begin a table of a signature with.
fn begun(alloc: Global, signature: &[u8]) -> Result<Vec<u8>, Refused>
    ensures { IsOutcome (IsTemplate signature.now) (IsTemplateRefusal signature.now) (seen (λ bytes. bytes.items) result) }
{
    let Ok(signature) = std::str::from_utf8(signature) else {
        return Err(Refused::anywhere(Fault::Signature));
    };
    if signature.len() != 4 {
        return Err(Refused::anywhere(Fault::Signature));
    }
    match template_of(alloc, signature)? {
        Some(text) => Ok(text.into_bytes()),
        None => Err(Refused::anywhere(Fault::Signature)),
    }
}

/// Writes a text of the table of a signature to `out`, to begin with: a line for each field, and one structure of each kind.
/// `size` is the number of its bytes. Returns 0, or the number of a fault: `Signature` if the signature hasn't four bytes of
/// UTF-8. If `out` has space for fewer bytes, the fault is `Buffer`, and nothing is written to `out`. With any other fault
/// `size` is 0.
pub fn template(alloc: Global, signature: &[u8], out: &mut [u8], size: &mut usize) -> u32
    ensures { GivesAnywhere (IsTemplate signature.now) (IsTemplateRefusal signature.now) out.old out.new result size.new }
{
    let mut place = 0;
    give(begun(alloc, signature), out, size, &mut place)
}
