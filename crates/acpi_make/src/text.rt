//! Parts of texts.

ghost use Rattle.std.specs.Prelude.{◌≡◌, ◌≤◌, length, None, Some, MatchOption};
ghost use Rattle.acpi_make.specs.Text.{is_white, part_at, after, are_white, is_decimal, digits_front, more_digits};
ghost use Rattle.acpi_make.specs.Text.{decimal_of, after_offset};
ghost use Rattle.acpi_make.specs.Text.{more_hex, hex_of};

use acpi_base::digit::digit_value;

/// Returns whether a character is white space: a space, a tab, or a carriage return.
#[inline(always)]
pub fn is_white(character: u8) -> bool
    ensures { result ≡ is_white character }
{
    character == b' ' || character == b'\t' || character == b'\r'
}

/// Returns the part of a text between two places.
pub fn part_at(from: usize, to: usize, text: &[u8]) -> &[u8]
    ensures { result.now ≡ part_at from to text.now }
{
    let rest = &text[text.len().saturating_sub(from)..];
    let size = from.saturating_sub(to);
    if size < rest.len() {
        &rest[..size]
    } else {
        rest
    }
}

/// Returns what stands after the text's front, if it has this one.
pub fn after<'a>(front: &[u8], text: &'a [u8]) -> Option<&'a [u8]>
    ensures { MatchOption result (after front.now text.now ≡ None) (λ rest. after front.now text.now ≡ Some rest.now) }
{
    let mut wanted = front;
    let mut rest = text;
    'characters: while let [character, others @ ..] = wanted {
        match rest {
            [other, more @ ..] if character == other => {
                wanted = others;
                rest = more;
            }
            _ => return None,
        }
    }
    Some(rest)
}

/// Returns whether a text has white space alone.
pub fn are_white(text: &[u8]) -> bool
    ensures { result ≡ are_white text.now }
{
    'characters: for character in text {
        if !is_white(*character) {
            return false;
        }
    }
    true
}

fn is_decimal(character: u8) -> bool
    ensures { result ≡ is_decimal character }
{
    (b'0'..=b'9').contains(&character)
}

/// Returns how many digits a text begins with.
pub fn digits_front(text: &[u8]) -> usize
    ensures is { result ≡ digits_front text.now }
    ensures within { result ≤ length text.now }
{
    let mut count = 0;
    'digits: for character in text {
        if !is_decimal(*character) {
            return count;
        }
        count += 1;
    }
    count
}

// Returns a number with a further digit.
fn more_digits(number: u64, character: u8) -> Option<u64>
    ensures { result ≡ more_digits number character }
{
    if !is_decimal(character) {
        return None;
    }
    let tens = number.checked_mul(10)?;
    tens.checked_add(u64::from(character - b'0'))
}

/// Returns the number of a text of decimal digits, if it is below 2^64.
pub fn decimal_of(text: &[u8]) -> Option<u64>
    ensures { result ≡ decimal_of text.now }
{
    if text.is_empty() {
        return None;
    }
    let mut number = 0;
    'digits: for character in text {
        match more_digits(number, *character) {
            Some(more) => number = more,
            None => return None,
        }
    }
    Some(number)
}

/// Returns what stands after an offset and a space, or the text, if it begins with no digit.
pub fn after_offset(text: &[u8]) -> &[u8]
    ensures { result.now ≡ after_offset text.now }
{
    let digits = digits_front(text);
    if digits == 0 {
        text
    } else if digits < text.len() {
        &text[digits + 1..]
    } else {
        &[]
    }
}

// Returns a number with a further hexadecimal digit.
fn more_hex(number: u64, character: u8) -> Option<u64>
    ensures { result ≡ more_hex number character }
{
    let digit = digit_value(character)?;
    let high = number.checked_mul(16)?;
    high.checked_add(u64::from(digit))
}

/// Returns the number of a text of hexadecimal digits, if it is below 2^64.
pub fn hex_of(text: &[u8]) -> Option<u64>
    ensures { result ≡ hex_of text.now }
{
    if text.is_empty() {
        return None;
    }
    let mut number = 0;
    'digits: for character in text {
        match more_hex(number, *character) {
            Some(more) => number = more,
            None => return None,
        }
    }
    Some(number)
}
