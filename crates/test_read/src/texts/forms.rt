//! Texts by forms that no table has.

use acpi_base::row::{Bits, Row, Word};
use acpi_base::walk::{Place, Sizes, Walk};
use acpi_text::form::{
    Choice, Count, Inner, InnerForm, InnerList, InnerSize, Part, Start, StructureForm, TableForm,
};
use acpi_text::table::show_by;
use std::test::Fail;
use test_support::agree;

const FLAGS: [Bits; 6] = [
    Bits::Flag(0x01, "a\nb"),
    Bits::Flag(0x02, "c:d"),
    Bits::OneOf(0x0c, &[Word(0x04, "Four"), Word(0x08, "Eight")]),
    Bits::Number(0xf0, 0x10, "Count"),
    Bits::Number(0x100, 0, "None"),
    Bits::Flag(0x8000_0000, "Last"),
];

const LETTERS: [Row; 3] = [
    Row::Number("A", 1),
    Row::Number("B", 1),
    Row::Number("C", 1),
];

const FORM: TableForm = TableForm {
    name: "a\nb",
    parts: &[
        Part::Fields(&[Row::Number("a:b", 1), Row::Flags("Flags", 4, &FLAGS)]),
        Part::Between(&LETTERS, 1, 2),
        Part::Between(&LETTERS, 2, 2),
        Part::Between(&LETTERS, 2, 1),
        Part::Between(&LETTERS, 3, 9),
        Part::Between(&LETTERS, 1, 9),
        Part::Until("None", Place::Byte(99)),
        Part::Entries("None", Count::Field(Place::DWord(99)), &LETTERS),
        Part::Bytes("Text", Place::Byte(99)),
        Part::Matrix("Row", 4, Place::Byte(6), Place::Byte(7)),
    ],
    structures: &[],
    further: &[],
    inner: &Inner::Nothing,
};

// Names with the end of a line or a colon are question marks. There are no rows past the last, nor where the first index isn't
// below the second. The number in a field that the bytes haven't is 0. A matrix has numbers of four bytes. A number of bits whose
// lowest bit is 0 is 0. Bits of which nothing is said are at the end.
#[test]
fn names_and_places(rt: HostRuntime) -> Result<(), Fail> {
    let lines = "\
?
  0 ?                                   : 0a  // 10
  1 Flags                               : 8000067b  // ? | ? | Eight | Count 7 | None 0 | Last | 0x0600
  5 B                                   : 01
  6 B                                   : 02
  7 C                                   : 02
  8 Text                                :
  8 Row                                 : 00000001 00000002
  16 Row                                : 80000000 0000000a
";
    let bytes = b"\x0a\x7b\x06\0\x80\x01\x02\x02\
        \x01\0\0\0\x02\0\0\0\
        \0\0\0\x80\x0a\0\0\0";
    agree(&show_by(rt.alloc(), &FORM, None, bytes)?, lines)?;
    agree(&show_by(rt.alloc(), &FORM, None, b"")?, "?\n")
}

const SIZES: [Choice; 2] = [
    Choice {
        number: 3,
        name: "Three",
        rows: &LETTERS,
    },
    Choice {
        number: 0,
        name: "None",
        rows: &[Row::Number("A", 1)],
    },
];

const BY_SIZE: TableForm = TableForm {
    name: "Sizes",
    parts: &[
        Part::Fields(&[Row::Number("From", 1), Row::Number("To", 1)]),
        Part::BySize(Place::Byte(0), Place::Byte(1), &SIZES),
    ],
    structures: &[],
    further: &[],
    inner: &Inner::Nothing,
};

// The size is that between the offsets in both fields, 5 - 2, or that up to the end if the second isn't past the first, 5 - 2,
// too. Without a choice of this size the bytes have no names. The size is 0 if the first is past the end.
#[test]
fn choices_by_size(rt: HostRuntime) -> Result<(), Fail> {
    let between = "\
Sizes
  0 From                                : 02
  1 To                                  : 05
  2 Three
    2 A                                 : 0a  // 10
    3 B                                 : 0b  // 11
    4 C                                 : 0c  // 12
  5 Bytes                               : 0d
";
    let to_end = "\
Sizes
  0 From                                : 02
  1 To                                  : 02
  2 Three
    2 A                                 : 0a  // 10
    3 B                                 : 0b  // 11
    4 C                                 : 0c  // 12
";
    let no_choice = "\
Sizes
  0 From                                : 02
  1 To                                  : 04
  2 Bytes                               : 0a 0b
";
    let past_end = "\
Sizes
  0 From                                : 09
  1 To                                  : 00
  2 None
    2 A                                 : 0a  // 10
";
    agree(
        &show_by(rt.alloc(), &BY_SIZE, None, b"\x02\x05\x0a\x0b\x0c\x0d")?,
        between,
    )?;
    agree(
        &show_by(rt.alloc(), &BY_SIZE, None, b"\x02\x02\x0a\x0b\x0c")?,
        to_end,
    )?;
    agree(
        &show_by(rt.alloc(), &BY_SIZE, None, b"\x02\x04\x0a\x0b")?,
        no_choice,
    )?;
    agree(
        &show_by(rt.alloc(), &BY_SIZE, None, b"\x09\x00\x0a")?,
        past_end,
    )
}

const INNER: TableForm = TableForm {
    name: "Parts",
    parts: &[],
    structures: &[StructureForm {
        number: 0,
        name: "Outer",
        parts: &[],
        inner: &Inner::Lists(
            Start::At(2),
            &[InnerList {
                count: Count::Rest,
                kind: Place::Nowhere,
                forms: &[InnerForm {
                    number: 0,
                    name: "Inner",
                    size: InnerSize::Walked(Sizes::EachOf(9)),
                    parts: &[
                        Part::Fields(&[Row::Number("Offset of End", 1), Row::Number("Columns", 1)]),
                        Part::Until("Before", Place::Byte(0)),
                        Part::Matrix("Row", 1, Place::Byte(1), Place::Byte(1)),
                    ],
                }],
            }],
        ),
    }],
    further: &[],
    inner: &Inner::Nothing,
};

const ENTRIES: Walk = Walk {
    start: 0,
    sizes: Sizes::EachOf(20),
    kind: Place::Nowhere,
    count: Place::Nowhere,
    first: Place::Nowhere,
};

// Parts of inner structures stand a level below their name, and offsets count from the beginning of the inner structure.
#[test]
fn parts_within(rt: HostRuntime) -> Result<(), Fail> {
    let lines = "\
Parts
0 entry size 20 Outer
  0 Bytes                               : 61 0a
  2 Inner
    2 Offset of End                     : 04
    3 Columns                           : 02
    4 Before                            : 00 00
    6 Row                               : 01 02
    8 Row                               : 03 04
  10 Bytes                              : 05
  11 Inner
    11 Offset of End                    : 02
    12 Columns                          : 03
    13 Row                              : 01 02 03
    16 Row                              : 04 05 06
  19 Bytes                              : 07
";
    let bytes = b"\x61\x0a\
        \x04\x02\0\0\x01\x02\x03\x04\x05\
        \x02\x03\x01\x02\x03\x04\x05\x06\x07";
    agree(&show_by(rt.alloc(), &INNER, Some(ENTRIES), bytes)?, lines)
}

// Two lists: as many structures of two kinds as a field says, and one structure of all bytes that are left.
const LISTS: TableForm = TableForm {
    name: "Lists",
    parts: &[Part::Fields(&[Row::Number("Count", 1), Row::Number("Gap", 1)])],
    structures: &[],
    further: &[],
    inner: &Inner::Lists(
        Start::After(2, Place::Byte(1)),
        &[
            InnerList {
                count: Count::Field(Place::Byte(0)),
                kind: Place::Byte(0),
                forms: &[
                    InnerForm {
                        number: 1,
                        name: "One",
                        size: InnerSize::Walked(Sizes::EachOf(3)),
                        parts: &[Part::Fields(&[Row::Number("Type", 1), Row::Number("A", 2)])],
                    },
                    InnerForm {
                        number: 2,
                        name: "Two",
                        size: InnerSize::Counted(2, Place::Byte(1), 2),
                        parts: &[
                            Part::Fields(&[Row::Number("Type", 1), Row::Number("Number", 1)]),
                            Part::Numbers("N", 2, Count::Field(Place::Byte(1))),
                        ],
                    },
                ],
            },
            InnerList {
                count: Count::Once,
                kind: Place::Nowhere,
                forms: &[InnerForm {
                    number: 0,
                    name: "Last",
                    size: InnerSize::Rest,
                    parts: &[Part::Until("All", Place::Byte(0))],
                }],
            },
        ],
    ),
};

// Lists begin after a number of bytes, which have no names, and a structure of each kind is as long as its form says. From a
// structure on that isn't of a kind, or that passes the end, no byte has a name. There may be no bytes for lists.
#[test]
fn lists_within(rt: HostRuntime) -> Result<(), Fail> {
    let whole = "\
Lists
  0 Count                               : 02
  1 Gap                                 : 01
  2 Bytes                               : ff
  3 Two
    3 Type                              : 02
    4 Number                            : 01
    5 N                                 : 1211  // 4625
  7 One
    7 Type                              : 01
    8 A                                 : 2221  // 8737
  10 Last
    10 All                              : 03 aa bb
";
    let strange = "\
Lists
  0 Count                               : 02
  1 Gap                                 : 00
  2 One
    2 Type                              : 01
    3 A                                 : 2221  // 8737
  5 Bytes                               : 03 01 02
";
    let long = "\
Lists
  0 Count                               : 01
  1 Gap                                 : 00
  2 Bytes                               : 02 02 11 12 13
";
    let far = "\
Lists
  0 Count                               : 01
  1 Gap                                 : 04
  2 Bytes                               : 01 02 03
";
    let bytes = b"\x02\x01\xff\x02\x01\x11\x12\x01\x21\x22\x03\xaa\xbb";
    agree(&show_by(rt.alloc(), &LISTS, None, bytes)?, whole)?;
    agree(
        &show_by(rt.alloc(), &LISTS, None, b"\x02\0\x01\x21\x22\x03\x01\x02")?,
        strange,
    )?;
    agree(
        &show_by(rt.alloc(), &LISTS, None, b"\x01\0\x02\x02\x11\x12\x13")?,
        long,
    )?;
    agree(
        &show_by(rt.alloc(), &LISTS, None, b"\x01\x04\x01\x02\x03")?,
        far,
    )
}
