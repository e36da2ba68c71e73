//! Updating a table's fixed part when a structure is added.

ghost use Rattle.std.specs.Prelude.{◌≡◌, ◌+◌, ◌*◌, ◌<◌, ◌≤◌, length};
ghost use Rattle.acpi_core.specs.Flat.{Settles, HasWidth, FitsField};

use crate::count::Count;
use acpi_base::patch::{patch, write_at};
use acpi_base::sum::Sum;

/// Sets the length, the number of structures and the checksum of a fixed part, for one more structure after it.
#[inline(always)]
pub(crate) fn settle(
    fixed: &mut [u8],
    running: &mut Sum,
    size: u32,
    count: &Count,
    structure: &[u8],
)
    requires place { (36 ≤ count.now.at) × (count.now.at + count.now.width ≤ length fixed.old) }
    requires width { HasWidth count.now.width }
    requires fits { FitsField count.now }
    ensures settles { Settles fixed.old running.old.value count.now.at count.now.width size count.now.number structure.now
        fixed.new running.new.value }
    ensures counted { running.new.summed ≡ running.old.summed + (length structure.now + (8 + 2 * count.now.width)) }
{
    write_at(fixed, 9, &[0]);
    patch(fixed, running, 4, &size.to_le_bytes());
    count.write(fixed, running);
    running.add(structure);
    write_at(fixed, 9, &[running.checksum()]);
}
