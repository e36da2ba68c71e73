//! Numbers and strings of ASL (ACPI 6.5, 19.2.4 and 19.3.2). A function whose name begins with `push` adds to a text.

ghost use Rattle.std.specs.Prelude.{◌≡◌, ◌<◌, ◌++◌, ◌∷◌, [], OnOk, string_bytes, codes};
ghost use Rattle.std.specs.Fmt.{decimal};
ghost use Rattle.acpi_asl.specs.Number.{upper_digit, upper_byte, digits_of, hex, number_text, least_bytes, short_hex};
ghost use Rattle.acpi_asl.specs.Number.{string_byte, string_bytes_text, quoted, string_text, json_string, json_number};

use std::alloc::AllocError;

/// The digit of a value.
pub fn upper_digit(n: u8) -> char
    requires { n < 16 }
    ensures { result ≡ upper_digit n }
{
    let code = if n < 10 { 48 + n } else { 55 + n };
    code as char
}

/// Adds the digits of a byte.
pub fn push_upper_byte(byte: u8, text: &mut String) -> Result<(), AllocError>
    ensures { OnOk result (string_bytes text.new ≡ string_bytes text.old ++ upper_byte byte) }
{
    text.push(upper_digit(byte / 16))?;
    text.push(upper_digit(byte % 16))
}

/// Adds the digits of the lowest bytes of a number.
#[cycle(digits)]
#[tactic(auto, unfolding(crate::specs::Number::digits_of))]
pub fn push_digits(width: u8, value: u64, text: &mut String) -> Result<(), AllocError>
    ensures { OnOk result (string_bytes text.new ≡ string_bytes text.old ++ digits_of width value) }
{
    if width == 0 {
        return Ok(());
    }
    push_digits(width - 1, value / 256, text)?;
    push_upper_byte((value % 256) as u8, text)
}

/// Adds the lowest bytes of a number.
#[tactic(auto, using(acpi_read::proofs::Texts::after_two))]
pub fn push_hex(width: u8, value: u64, text: &mut String) -> Result<(), AllocError>
    ensures { OnOk result (string_bytes text.new ≡ string_bytes text.old ++ hex width value) }
{
    text.push_str("0x")?;
    push_digits(width, value, text)
}

/// Adds a number with this many bytes after its prefix.
pub fn push_number(value: u64, width: u8, text: &mut String) -> Result<(), AllocError>
    ensures { OnOk result (string_bytes text.new ≡ string_bytes text.old ++ number_text value width) }
{
    match (width, value) {
        (0, 0) => text.push_str("Zero"),
        (0, 1) => text.push_str("One"),
        (0, _) => push_hex(8, value, text),
        _ => push_hex(width, value, text),
    }
}

/// The number of bytes of a number that stands alone.
pub fn least_bytes(value: u64) -> u8
    ensures { result ≡ least_bytes value }
{
    if value < 0x100 {
        1
    } else if value < 0x1_0000 {
        2
    } else if value < 0x1_0000_0000 {
        4
    } else {
        8
    }
}

/// Adds a number in as few bytes as it has.
pub fn push_short_hex(value: u64, text: &mut String) -> Result<(), AllocError>
    ensures { OnOk result (string_bytes text.new ≡ string_bytes text.old ++ short_hex value) }
{
    push_hex(least_bytes(value), value, text)
}

/// Adds a decimal number.
#[tactic(auto, using(std::proofs::lemmas::Fmt::decimal_digit))]
pub fn push_decimal(n: u64, text: &mut String) -> Result<(), AllocError>
    ensures { OnOk result (string_bytes text.new ≡ string_bytes text.old ++ decimal n) }
{
    if n < 10 {
        return text.push(upper_digit(n as u8));
    }
    write!(text, "{n}")
}

#[tactic(auto, using(acpi_read::proofs::Texts::after_two))]
fn push_escaped(escape: &str, byte: u8, text: &mut String) -> Result<(), AllocError>
    ensures { OnOk result (string_bytes text.new ≡ string_bytes text.old ++ (escape.now ++ upper_byte byte)) }
{
    text.push_str(escape)?;
    push_upper_byte(byte, text)
}

fn push_string_byte(escape: &str, byte: u8, text: &mut String) -> Result<(), AllocError>
    ensures { OnOk result (string_bytes text.new ≡ string_bytes text.old ++ string_byte escape.now byte) }
{
    match byte {
        b'"' => text.push_str("\\\""),
        b'\\' => text.push_str("\\\\"),
        0x20..=0x7e => text.push(byte as char),
        _ => push_escaped(escape, byte, text),
    }
}

fn push_string_bytes(escape: &str, bytes: &[u8], text: &mut String) -> Result<(), AllocError>
    ensures { OnOk result (string_bytes text.new ≡ string_bytes text.old ++ string_bytes_text escape.now bytes.now) }
{
    for byte in bytes {
        push_string_byte(escape, *byte, text)?;
    }
    Ok(())
}

// Adds a string between quotation marks.
#[tactic(auto, using(acpi_read::proofs::Texts::after_three))]
fn push_quoted(escape: &str, bytes: &[u8], text: &mut String) -> Result<(), AllocError>
    ensures { OnOk result (string_bytes text.new ≡ string_bytes text.old ++ quoted escape.now bytes.now) }
{
    text.push_str("\"")?;
    push_string_bytes(escape, bytes, text)?;
    text.push_str("\"")
}

/// Adds a string of ASL.
pub fn push_string(bytes: &[u8], text: &mut String) -> Result<(), AllocError>
    ensures { OnOk result (string_bytes text.new ≡ string_bytes text.old ++ string_text bytes.now) }
{
    push_quoted("\\x", bytes, text)
}

/// Adds a string of JSON.
#[tactic(auto, unfolding(crate::specs::Number::json_string))]
pub fn push_json_string(bytes: &[u8], text: &mut String) -> Result<(), AllocError>
    ensures { OnOk result (string_bytes text.new ≡ string_bytes text.old ++ json_string bytes.now) }
{
    push_quoted("\\u00", bytes, text)
}

// Adds a number as a string of JSON.
#[tactic(auto, using(acpi_read::proofs::Texts::after_three))]
fn push_json_digits(value: u64, text: &mut String) -> Result<(), AllocError>
    ensures { OnOk result (string_bytes text.new ≡ string_bytes text.old ++ (codes "\"0x" ++ digits_of 8 value ++ codes "\"")) }
{
    text.push_str("\"0x")?;
    push_digits(8, value, text)?;
    text.push_str("\"")
}

/// Adds a number of JSON.
#[tactic(auto, unfolding(crate::specs::Number::json_number))]
pub fn push_json_number(value: u64, text: &mut String) -> Result<(), AllocError>
    ensures { OnOk result (string_bytes text.new ≡ string_bytes text.old ++ json_number value) }
{
    if value <= 0x20_0000_0000_0000 {
        return push_decimal(value, text);
    }
    push_json_digits(value, text)
}
