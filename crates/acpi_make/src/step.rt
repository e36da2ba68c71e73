//! What each character of a text does.

ghost use Rattle.std.specs.Prelude.{◌≡◌, ◌<◌, ◌≤◌};
ghost use Rattle.acpi_base.specs.Digit.{digit_value};
ghost use Rattle.acpi_make.specs.Step.{is_control, line_end, first_digit, second_digit};
ghost use Rattle.acpi_make.specs.Step.{from_start, from_indent, after_space, after_digit, goes_on, step, IsHalf, GoesToHalf};

use crate::fault::Wanted;
use crate::item::{Cell, Item};
use crate::state::{State, Step};
use crate::text::is_white;
use acpi_base::digit::digit_value;

// Returns whether a character is a control character, and no white space.
#[inline(always)]
fn is_control(byte: u8) -> bool
    ensures { result ≡ is_control byte }
{
    byte < 32 && !is_white(byte) || byte == 127
}

// Returns what the first digit of a byte does. `from` is its place if it is the number's first digit.
#[inline(always)]
fn first_digit(wanted: Wanted, from: usize, byte: u8) -> Step
    ensures does { result ≡ first_digit wanted from (digit_value byte) }
    ensures half { GoesToHalf result }
{
    match digit_value(byte) {
        Some(digit) => Step::Goes(State::Half(digit, from)),
        None => Step::Wants(wanted),
    }
}

// Returns what the second digit of a byte does.
#[inline(always)]
fn second_digit(high: u8, byte: u8) -> Step
    requires { high < 16 }
    ensures does { result ≡ second_digit high (digit_value byte) }
    ensures half { GoesToHalf result }
{
    match digit_value(byte) {
        Some(digit) => Step::Adds(16 * high + digit),
        None => Step::Wants(Wanted::SecondDigit),
    }
}

// Returns what the end of a line does.
#[inline(always)]
pub fn line_end(here: usize, state: State) -> Step
    ensures ends { result ≡ line_end here state }
    ensures half { GoesToHalf result }
{
    match state {
        State::Number => Step::Ends(State::Start),
        State::Half(_, _) => Step::Wants(Wanted::SecondDigit),
        State::Quoted => Step::Wants(Wanted::QuotationMark),
        State::HalfMark(_) => Step::Wants(Wanted::QuestionMark),
        State::HalfComment => Step::Wants(Wanted::Slash),
        State::Braced(_) => Step::Wants(Wanted::Brace),
        State::Slashed(from) => Step::Has(Item::Heading(from, here), State::Start),
        State::Headed(from) => Step::Has(Item::Heading(from, here), State::Start),
        State::NameSlashed(from) => Step::Has(Item::Name(from, here), State::Start),
        State::Named(from) => Step::Has(Item::Name(from, here), State::Start),
        State::Worded(from) => Step::Has(Item::Value(from, here), State::Start),
        State::Start => Step::Goes(State::Start),
        State::Indented => Step::Goes(State::Start),
        State::Skipped => Step::Goes(State::Start),
        State::Ended => Step::Goes(State::Start),
        State::Spaced => Step::Goes(State::Start),
        State::Marked => Step::Goes(State::Start),
    }
}

// Returns what a character does where a line begins.
#[inline(always)]
fn from_start(here: usize, byte: u8) -> Step
    ensures does { result ≡ from_start here byte }
    ensures half { GoesToHalf result }
{
    match byte {
        b'#' => Step::Goes(State::Skipped),
        b'/' => Step::Goes(State::Slashed(here)),
        _ if is_white(byte) => Step::Goes(State::Indented),
        _ => Step::Goes(State::Headed(here)),
    }
}

// Returns what a character does after white space that a line begins with.
#[inline(always)]
fn from_indent(here: usize, byte: u8) -> Step
    ensures does { result ≡ from_indent here byte }
    ensures half { GoesToHalf result }
{
    match byte {
        b'#' => Step::Goes(State::Skipped),
        b':' => Step::Has(Item::Name(here, here), State::Ended),
        b'/' => Step::Goes(State::NameSlashed(here)),
        _ if is_white(byte) => Step::Goes(State::Indented),
        _ => Step::Goes(State::Named(here)),
    }
}

// Returns what a character does after white space that follows a colon or a value.
#[inline(always)]
fn after_space(here: usize, byte: u8) -> Step
    ensures does { result ≡ after_space here byte }
    ensures half { GoesToHalf result }
{
    match byte {
        b'/' => Step::Goes(State::HalfComment),
        b'"' => Step::Goes(State::Quoted),
        b'?' => Step::Goes(State::HalfMark(here)),
        b'{' => Step::Goes(State::Braced(here)),
        b'#' | b'@' => Step::Goes(State::Worded(here)),
        _ if is_white(byte) => Step::Goes(State::Spaced),
        _ => first_digit(Wanted::Value, here, byte),
    }
}

// Returns what a character does after the first digit of a byte. An x after the number's first digit, which is 0, makes the two a
// prefix.
#[inline(always)]
fn after_digit(high: u8, from: usize, byte: u8) -> Step
    requires { high < 16 }
    ensures does { result ≡ after_digit high from byte }
    ensures half { GoesToHalf result }
{
    if (byte == b'x' || byte == b'X') && high == 0 && from > 0 {
        Step::Goes(State::Worded(from))
    } else {
        second_digit(high, byte)
    }
}

// Returns what a character does that prints, or is white space.
#[inline(always)]
fn goes_on(here: usize, state: State, byte: u8) -> Step
    requires half { IsHalf state }
    requires some { 1 ≤ here }
    ensures does { result ≡ goes_on here state byte }
    ensures half { GoesToHalf result }
{
    match state {
        State::Start => from_start(here, byte),
        State::Slashed(from) => match byte {
            b'/' => Step::Goes(State::Skipped),
            _ => Step::Goes(State::Headed(from)),
        },
        State::Headed(from) => Step::Goes(State::Headed(from)),
        State::Indented => from_indent(here, byte),
        State::NameSlashed(from) => match byte {
            b'/' => Step::Goes(State::Skipped),
            b':' => Step::Has(Item::Name(from, here), State::Ended),
            _ => Step::Goes(State::Named(from)),
        },
        State::Named(from) => match byte {
            b':' => Step::Has(Item::Name(from, here), State::Ended),
            _ => Step::Goes(State::Named(from)),
        },
        State::Skipped => Step::Goes(State::Skipped),
        State::Ended => match byte {
            b'/' => Step::Goes(State::HalfComment),
            _ if is_white(byte) => Step::Goes(State::Spaced),
            _ => Step::Wants(Wanted::Space),
        },
        State::Spaced => after_space(here, byte),
        State::HalfComment => match byte {
            b'/' => Step::Goes(State::Skipped),
            _ => Step::Wants(Wanted::Slash),
        },
        State::Number => match byte {
            b'/' => Step::Ends(State::HalfComment),
            _ if is_white(byte) => Step::Ends(State::Spaced),
            _ => first_digit(Wanted::Digit, 0, byte),
        },
        State::Half(high, from) => after_digit(high, from, byte),
        State::Quoted => match byte {
            b'"' => Step::Goes(State::Ended),
            b' '..=126 => Step::Has(Item::Cell(Cell::Byte(byte)), State::Quoted),
            _ => Step::Wants(Wanted::QuotationMark),
        },
        State::HalfMark(from) => match byte {
            b'?' => Step::Has(Item::Cell(Cell::Left(from)), State::Marked),
            _ => Step::Wants(Wanted::QuestionMark),
        },
        State::Marked => match byte {
            b'/' => Step::Goes(State::HalfComment),
            b'?' => Step::Goes(State::HalfMark(here)),
            _ if is_white(byte) => Step::Goes(State::Spaced),
            _ => Step::Wants(Wanted::Space),
        },
        State::Braced(from) => match byte {
            b'}' => Step::Has(Item::Value(from, here - 1), State::Ended),
            _ => Step::Goes(State::Braced(from)),
        },
        State::Worded(from) => match byte {
            b'/' => Step::Has(Item::Value(from, here), State::HalfComment),
            _ if is_white(byte) => Step::Has(Item::Value(from, here), State::Spaced),
            _ => Step::Goes(State::Worded(from)),
        },
    }
}

/// Returns what a character does, with the number of characters from this one to the text's end.
#[inline(always)]
pub fn step(here: usize, state: State, byte: u8) -> Step
    requires half { IsHalf state }
    requires some { 1 ≤ here }
    ensures does { result ≡ step here state byte }
    ensures half { GoesToHalf result }
{
    if byte == b'\n' {
        line_end(here, state)
    } else if is_control(byte) {
        Step::Wants(Wanted::Printing)
    } else {
        goes_on(here, state, byte)
    }
}
