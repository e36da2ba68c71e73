//! The Root System Description Pointer in memory.

ghost use Rattle.std.specs.Prelude.{◌≡◌, ◌↔◌, IsTrue};
ghost use Rattle.acpi_c_calls.specs.Find.{IsPointer, Finds};

use crate::fault::Fault;
use acpi_read::bytes::sums_to_zero;

// Returns whether bytes begin with a pointer.
fn is_pointer(bytes: &[u8]) -> bool
    ensures { IsTrue result ↔ IsPointer bytes.now }
{
    if bytes.len() < 20 || bytes[..8] != b"RSD PTR "[..] {
        return false;
    }
    sums_to_zero(&bytes[..20])
}

/// Finds the Root System Description Pointer (ACPI 6.5, 5.2.5.1) in memory: at the first multiple of 16 bytes where its signature
/// is, and 20 bytes that sum to zero. Returns 0, and `offset` is where it begins. Otherwise the fault is `NoPointer`, and
/// `offset` is 0. It takes no memory.
pub fn find_rsdp(bytes: &[u8], offset: &mut usize) -> u32
    ensures { Finds bytes.now offset.new result }
{
    'places: for index in 0..bytes.len() / 16 {
        let at = 16 * index;
        let (_, rest) = bytes.split_at(at);
        if is_pointer(rest) {
            *offset = at;
            return 0;
        }
    }
    *offset = 0;
    Fault::NoPointer.number()
}
