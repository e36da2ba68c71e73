//! Definition blocks of ASL.

ghost use Rattle.acpi_c_calls.specs.Results.{seen, IsOutcome, Gives};
ghost use Rattle.acpi_c_calls.specs.Compile.{IsBlockOf, IsCompileRefusal};

use crate::give::give;
use crate::refused::Refused;
use acpi_compile::block::compile as block_of;
use std::alloc::Global;

// Returns the definition block of a text.
fn compiled(alloc: Global, text: &[u8]) -> Result<Vec<u8>, Refused>
    ensures { IsOutcome (IsBlockOf text.now) (IsCompileRefusal text.now) (seen (λ bytes. bytes.items) result) }
{
    match block_of(alloc, text) {
        Ok(made) => Ok(made.bytes),
        Err(error) => Err(Refused::of_asl(error, text)),
    }
}

/// Makes a text into the definition block that it is the ASL of (ACPI 6.5, chapter 19), whose bytes are written to `out`. `size`
/// is their number. Returns 0, or the number of a fault, whose line is `place`, counted from 1. If `out` has space for fewer
/// bytes, the fault is `Buffer`, and nothing is written to `out`. With any other fault `size` is 0.
pub fn compile(alloc: Global, text: &[u8], out: &mut [u8], size: &mut usize, place: &mut u64) -> u32
    ensures { Gives (IsBlockOf text.now) (IsCompileRefusal text.now) out.old out.new result place.new size.new }
{
    give(compiled(alloc, text), out, size, place)
}
