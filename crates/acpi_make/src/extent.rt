//! The numbers that a table has of itself, and where they stand.

ghost use Rattle.std.specs.Prelude.{◌≡◌, ◌++◌, OnOk};
ghost use Rattle.acpi_make.specs.Extent.{own_at, size_own};

use crate::draft::Mark;
use acpi_base::walk::{Place, Sizes};
use std::alloc::AllocError;

/// A number that a table has of itself, as its length: the offset of its field, the field's width in bytes, and the number.
#[derive(Clone, Copy, Debug, PartialEq, Eq)]
pub struct Own {
    pub offset: usize,
    pub width: usize,
    pub number: usize,
}

/// Adds a number at a place of a structure of this size, if the structure has the place.
pub fn push_at(
    start: usize,
    size: usize,
    place: Place,
    number: usize,
    owns: &mut Vec<Own>,
) -> Result<(), AllocError>
    ensures { OnOk result (owns.new.items ≡ owns.old.items ++ own_at start size place number) }
{
    let (offset, end) = (place.offset(), place.end());
    if start < 1 << 62 && offset < end && end <= size {
        owns.push(Own {
            offset: start + offset,
            width: end - offset,
            number,
        })?;
    }
    Ok(())
}

/// Adds the length of a structure, if it has a field for it.
pub fn push_size(
    sizes: Sizes,
    start: usize,
    size: usize,
    owns: &mut Vec<Own>,
) -> Result<(), AllocError>
    ensures { OnOk result (owns.new.items ≡ owns.old.items ++ size_own sizes start size) }
{
    match sizes {
        Sizes::ToldAt(place) => push_at(start, size, place, size, owns),
        Sizes::EachOf(_) => Ok(()),
        Sizes::ByType(_, _) => Ok(()),
    }
}

/// Where a structure stands, or the table's own fields: the text, the marks after its heading, the size of the table, the offset
/// of its first byte, and the number of its bytes.
#[derive(Clone, Copy)]
pub struct Extent<'a> {
    pub text: &'a [u8],
    pub marks: &'a [Mark],
    pub total: usize,
    pub start: usize,
    pub size: usize,
}

/// Adds a number at a place of a structure.
pub fn push_within(
    extent: &Extent<'_>,
    place: Place,
    number: usize,
    owns: &mut Vec<Own>,
) -> Result<(), AllocError>
    ensures { OnOk result (owns.new.items ≡ owns.old.items ++ own_at extent.now.start extent.now.size place number) }
{
    push_at(extent.start, extent.size, place, number, owns)
}
