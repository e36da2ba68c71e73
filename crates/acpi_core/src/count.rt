//! The number of a table's structures.

ghost use Rattle.std.specs.Prelude.{◌≡◌, ◌+◌, ◌*◌, ◌^◌, ◌%◌, ◌<◌, ◌≤◌, ◌⊎◌, true, false, length, sum, OnOk, IfOk, IfErr};
ghost use Rattle.acpi_base.specs.Bytes.{le, put};
ghost use Rattle.acpi_core.specs.Flat.{has_space, number_up_to, HasWidth, FitsField};

use acpi_base::error::{Error, R};
use acpi_base::patch::patch;
use acpi_base::sum::Sum;

/// The number of a table's structures, or 2^32 - 1 if there are more. `at` is the offset of its field in the table, and `width`
/// the number of bytes of this field: 0 if the table has no such field, 2 or 4.
#[derive(Clone, Copy)]
pub(crate) struct Count {
    pub number: u32,
    pub at: usize,
    pub width: usize,
}

impl Count {
    /// The length of a table of `size` bytes, and the number of its structures, after one more structure of `more` bytes. The
    /// error is `FieldWidth` if the length would reach the limit, or the number doesn't fit its field.
    #[inline(always)]
    pub fn grown(&self, size: usize, more: usize, limit: usize) -> R<(u32, u32)>
        requires size { (size < limit) × (limit ≤ 2 ^ 32) }
        requires width { HasWidth self.now.width }
        ensures size { IfOk result (λ r. r.0 ≡ size + more) }
        ensures fits { IfOk result
            (λ r. (self.now.width ≡ 0) ⊎ ((r.1 ≡ self.now.number + 1) × (r.1 < 2 ^ (8 * self.now.width)))) }
        ensures number { IfOk result (λ r. r.1 ≡ number_up_to (self.now.number + 1)) }
        ensures ok { OnOk result (has_space size more limit self.now.number self.now.width ≡ true) }
        ensures err { IfErr result (λ e. (e ≡ Error.FieldWidth)
            × (has_space size more limit self.now.number self.now.width ≡ false)) }
    {
        if more >= limit - size {
            return Err(Error::FieldWidth);
        }
        let size = (size + more) as u32;
        match self.width {
            0 => Ok((size, self.number.saturating_add(1))),
            2 => {
                if self.number >= 0xffff {
                    return Err(Error::FieldWidth);
                }
                Ok((size, self.number + 1))
            }
            _ => {
                if self.number == u32::MAX {
                    return Err(Error::FieldWidth);
                }
                Ok((size, self.number + 1))
            }
        }
    }

    /// Writes the number into its field, and updates the sum.
    pub fn write(&self, fixed: &mut [u8], running: &mut Sum)
        requires place { self.now.at + self.now.width ≤ length fixed.old }
        requires width { HasWidth self.now.width }
        requires fits { FitsField self.now }
        requires range { running.old.value < 256 }
        ensures bytes { fixed.new ≡ put self.now.at (le self.now.width self.now.number) fixed.old }
        ensures sum { (running.new.value + sum fixed.old) % 256 ≡ (running.old.value + sum fixed.new) % 256 }
        ensures range { running.new.value < 256 }
        ensures counted { running.new.summed ≡ running.old.summed + 2 * self.now.width }
    {
        match self.width {
            0 => {}
            2 => patch(fixed, running, self.at, &(self.number as u16).to_le_bytes()),
            _ => patch(fixed, running, self.at, &self.number.to_le_bytes()),
        }
    }
}
