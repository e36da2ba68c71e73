//! The bytes of a file.

ghost use Rattle.std.specs.Prelude.{◌≡◌, ◌^◌, take, IfSome, IfOk};

use std::alloc::Global;
use std::io;
use std::io::Read;

/// The most bytes that a table can have: the greatest number in its length field (ACPI 6.5, 5.2.6).
pub const MOST_BYTES: usize = 0xffff_ffff;

/// Returns the bytes of a file. Of a file with more bytes than a table can have, it reads one byte more than that.
pub fn read_input<I: Read + Drop>(alloc: Global, input: I) -> io::Result<Vec<u8>>
    ensures { IfOk result (λ bytes. IfSome (I.remaining input) (λ file. bytes.items ≡ take (2 ^ 32) file)) }
{
    let mut bytes = Vec::new(alloc);
    input.take(MOST_BYTES as u64 + 1).read_to_end(&mut bytes)?;
    Ok(bytes)
}
