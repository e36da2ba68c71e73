//! What a text consists of.

ghost use Rattle.std.specs.Prelude.{◌≡◌, ◌==◌, not, length};
ghost use Rattle.acpi_make.specs.Item.{cells_of};

/// A byte of a table, as a text has it.
#[derive(Clone, Copy, Debug, PartialEq, Eq)]
pub enum Cell {
    /// A byte that the text states.
    Byte(u8),
    /// A byte that is to be worked out, and the place of what stands for it in the text.
    Left(usize),
}

/// A part of a text. A range is two places, and a place is the number of characters from it to the text's end: the place of its
/// first character, and the place after its last.
#[derive(Clone, Copy, Debug)]
pub enum Item {
    /// A byte.
    Cell(Cell),
    /// A heading: a line that begins with neither white space nor a comment.
    Heading(usize, usize),
    /// What stands before the colon of a line that begins with white space, or all of such a line without a colon.
    Name(usize, usize),
    /// A value that isn't its bytes: a number with a sign or a prefix, names, or a label.
    Value(usize, usize),
}

/// Returns whether a text has bytes.
pub fn has_bytes(items: &[Item]) -> bool
    ensures { result ≡ not (length (cells_of items.now) == 0) }
{
    'items: for item in items {
        match *item {
            Item::Cell(_) => return true,
            Item::Value(_, _) => return true,
            Item::Heading(_, _) => {}
            Item::Name(_, _) => {}
        }
    }
    false
}
