//! Where the reader of a text is, and what a character does there.

use crate::fault::Wanted;
use crate::item::Item;

/// Where the reader of a text is. A number is the place at which a heading, a name or a value begins.
#[derive(Clone, Copy)]
pub enum State {
    /// Where a line begins.
    Start,
    /// After a slash there.
    Slashed(usize),
    /// In a heading.
    Headed(usize),
    /// After white space that a line begins with.
    Indented,
    /// After a slash there.
    NameSlashed(usize),
    /// In what stands before the colon of a line.
    Named(usize),
    /// In a comment.
    Skipped,
    /// After a colon or a value.
    Ended,
    /// After white space there.
    Spaced,
    /// After the first slash of a comment.
    HalfComment,
    /// In a number, after a whole byte.
    Number,
    /// In a number, after the first digit of a byte: its value, and its place if it is the number's first digit, or otherwise 0.
    Half(u8, usize),
    /// In a text between quotation marks.
    Quoted,
    /// After the first question mark of a byte.
    HalfMark(usize),
    /// After the second.
    Marked,
    /// In names between braces.
    Braced(usize),
    /// In a label, or in a number with a sign or a prefix.
    Worded(usize),
}

/// What a character does.
#[derive(Clone, Copy)]
pub enum Step {
    /// It ends nothing.
    Goes(State),
    /// It is the second digit of a byte of this value.
    Adds(u8),
    /// It ends a number.
    Ends(State),
    /// It ends a part of the text.
    Has(Item, State),
    /// Something else has to stand here.
    Wants(Wanted),
}
