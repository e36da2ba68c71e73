//! Overwriting bytes, and the checksum of a table after it.

ghost use Rattle.std.specs.Prelude.{◌≡◌, ◌+◌, ◌*◌, ◌%◌, ◌<◌, ◌≤◌, [], ◌∷◌, length, sum};
ghost use Rattle.acpi_base.specs.Bytes.{le, put};
ghost use Rattle.acpi_base.specs.Table.{with_checksum};

use crate::sum::Sum;

/// Writes bytes over those that begin at an offset.
pub fn write_at(bytes: &mut [u8], offset: usize, with: &[u8])
    requires { offset + length with.now ≤ length bytes.old }
    ensures { bytes.new ≡ put offset with.now bytes.old }
{
    bytes[offset..offset + with.len()].copy_from_slice(with);
}

/// Writes bytes over those that begin at an offset, and updates the sum of all bytes.
pub fn patch(bytes: &mut [u8], running: &mut Sum, offset: usize, with: &[u8])
    requires { offset + length with.now ≤ length bytes.old }
    ensures bytes { bytes.new ≡ put offset with.now bytes.old }
    ensures sum { (running.new.value + sum bytes.old) % 256 ≡ (running.old.value + sum bytes.new) % 256 }
    ensures range { running.new.value < 256 }
    ensures counted { running.new.summed ≡ running.old.summed + 2 * length with.now }
{
    running.take(&bytes[offset..offset + with.len()]);
    running.add(with);
    write_at(bytes, offset, with);
}

/// Writes a table's length at offset 4 and sets its checksum. `running` is the sum of all bytes except the checksum.
pub fn set_length(bytes: &mut [u8], running: &mut Sum, size: u32)
    requires header { 36 ≤ length bytes.old }
    requires summed { running.old.value ≡ sum (put 9 (0 ∷ []) bytes.old) % 256 }
    ensures bytes { bytes.new ≡ with_checksum (put 4 (le 4 size) bytes.old) }
    ensures sum { running.new.value ≡ sum (put 9 (0 ∷ []) bytes.new) % 256 }
    ensures counted { running.new.summed ≡ running.old.summed + 8 }
{
    write_at(bytes, 9, &[0]);
    patch(bytes, running, 4, &size.to_le_bytes());
    write_at(bytes, 9, &[running.checksum()]);
}

/// Writes bytes over those at an offset of a table, and sets its checksum. `running` is the sum of all bytes except the checksum.
pub fn overwrite(bytes: &mut [u8], running: &mut Sum, offset: usize, with: &[u8])
    requires header { 36 ≤ length bytes.old }
    requires within { offset + length with.now ≤ length bytes.old }
    requires summed { running.old.value ≡ sum (put 9 (0 ∷ []) bytes.old) % 256 }
    ensures bytes { bytes.new ≡ with_checksum (put offset with.now bytes.old) }
    ensures sum { running.new.value ≡ sum (put 9 (0 ∷ []) bytes.new) % 256 }
    ensures counted { running.new.summed ≡ running.old.summed + (2 * length with.now + 1) }
{
    write_at(bytes, 9, &[0]);
    patch(bytes, running, offset, with);
    let over_checksum = bytes[9];
    running.take(&[over_checksum]);
    write_at(bytes, 9, &[running.checksum()]);
}
