//! The parts of a text.

use acpi_make::read::read_text;
use std::test::Fail;
use test_support::agree;

// Headings, names and values by name have two places: the number of characters from the first to the text's end, and from the
// place after the last to the text's end. A byte that is left out has the first of these places, and a comment has no bytes.
#[test]
fn parts(rt: HostRuntime) -> Result<(), Fail> {
    let text = b"Name\n  4 A: {b} #12 @c ?? 07 // ??\n  d\n/e\n //f\n";
    let items = read_text(rt.alloc(), text)?;
    let found = format!(in rt.alloc(); "{items:?}")?;
    agree(
        &found,
        "[Heading(47, 43), Name(40, 37), Value(35, 32), Value(31, 28), Value(27, 25), Cell(Left(24)), Cell(Byte(7)), \
Name(10, 9), Heading(8, 6)]",
    )
}
