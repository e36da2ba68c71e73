//! Tables whose length and checksum are set.

ghost use Rattle.std.specs.Prelude.{◌≡◌, ◌≤◌, ◌<◌, ◌^◌, length};
ghost use Rattle.acpi_base.specs.Sdt.{sealed};
ghost use Rattle.acpi_base.specs.Table.{IsTrueTable};
ghost use Rattle.acpi_c_calls.specs.Seal.{Seals};

use crate::fault::Fault;
use acpi_base::header::seal as set_checksum;
use acpi_base::patch::write_at;

// Sets the length and the checksum of bytes that are long enough for a header, and not too long for their length.
#[tactic(auto, using(crate::proofs::Seals::sealed_table))]
fn set(bytes: &mut [u8])
    requires header { 36 ≤ length bytes.old }
    requires fits { length bytes.old < 2 ^ 32 }
    ensures bytes { bytes.new ≡ sealed bytes.old }
    ensures table { IsTrueTable bytes.new }
{
    let size = bytes.len() as u32;
    write_at(bytes, 4, &size.to_le_bytes());
    set_checksum(bytes);
}

/// Sets the length and the checksum of a table (ACPI 6.5, 5.2.6): the length at offset 4 is the number of the bytes, and the
/// checksum at offset 9 makes them sum to zero. Returns 0, or the number of a fault, and then nothing is written: `ShortHeader`
/// if there are fewer than 36 bytes, with their number as `place`, and `TableLength` if their number doesn't fit 32 bits. It
/// takes no memory.
pub fn seal(bytes: &mut [u8], place: &mut u64) -> u32
    ensures { Seals bytes.old bytes.new result place.new }
{
    if bytes.len() < 36 {
        *place = bytes.len() as u64;
        return Fault::ShortHeader.number();
    }
    if bytes.len() > 0xffff_ffff {
        *place = 4;
        return Fault::TableLength.number();
    }
    set(bytes);
    *place = 0;
    0
}
