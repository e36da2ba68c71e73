//! Reading the table of a file.

ghost use Rattle.std.specs.Prelude.{◌≡◌};
ghost use Rattle.acpiread_program.specs.Input.{after_header};

use std::alloc::Global;
use std::io;
use std::io::Read;

/// The number of bytes of a standard header (ACPI 6.5, 5.2.6).
const HEADER: u64 = 36;

// How many bytes to read after a header. If the length in the header is below 36, one more byte is enough: the check refuses a
// table with such a length.
fn after_header(header: &[u8]) -> u64
    ensures { result ≡ after_header header.now }
{
    if header.len() < 36 {
        return 0;
    }
    let length = u32::from_le_bytes([header[4], header[5], header[6], header[7]]);
    u64::from(length).saturating_sub(HEADER) + 1
}

/// The bytes of a table: its header, the bytes that the length in the header announces, and one more. That byte shows that a file
/// is longer than the table, without reading all of it. Checking these bytes gives the same result as checking the whole file.
pub fn read_table<I: Read + Drop>(alloc: Global, input: I) -> io::Result<Vec<u8>> {
    let mut bytes = Vec::new(alloc);
    let mut input = input.take(HEADER);
    input.read_to_end(&mut bytes)?;
    input.set_limit(after_header(&bytes));
    input.read_to_end(&mut bytes)?;
    Ok(bytes)
}
