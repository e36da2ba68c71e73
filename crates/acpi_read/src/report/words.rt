//! Parts of lines. A function whose name begins with `push` adds to a text.

ghost use Rattle.std.specs.Prelude.{◌≡◌, ◌<◌, ◌++◌, OnOk, string_bytes, codes, if◌then◌else◌, false};
ghost use Rattle.std.specs.Fmt.{decimal};
ghost use Rattle.std.specs.Str.{IsAscii};
ghost use Rattle.acpi_base.specs.Digit.{hex_digit, hex_byte};
ghost use Rattle.acpi_read.specs.Lines.{hex_bytes, quoted_byte, quoted_bytes};
ghost use Rattle.acpi_term.specs.Name.{begins_up};
ghost use Rattle.acpi_read.specs.Lines.{IsShown};
ghost use Rattle.acpi_read.specs.Lines.{dotted_segments, segments_of, name_text, indent};

use acpi_term::name_string::NameString;
use acpi_term::segment::{after_up, begins_up};
use std::alloc::AllocError;

fn hex_digit(n: u8) -> char
    requires { n < 16 }
    ensures { result ≡ hex_digit n }
{
    let code = if n < 10 { 48 + n } else { 87 + n };
    code as char
}

fn push_hex_byte(byte: u8, text: &mut String) -> Result<(), AllocError>
    ensures { OnOk result (string_bytes text.new ≡ string_bytes text.old ++ hex_byte byte) }
{
    text.push(hex_digit(byte / 16))?;
    text.push(hex_digit(byte % 16))
}

/// Adds two hexadecimal digits for each byte.
pub fn push_hex(bytes: &[u8], text: &mut String) -> Result<(), AllocError>
    ensures { OnOk result (string_bytes text.new ≡ string_bytes text.old ++ hex_bytes bytes.now) }
{
    for byte in bytes {
        push_hex_byte(*byte, text)?;
    }
    Ok(())
}

// Adds a byte. `"`, `\` and a byte that isn't printable become `\x` and two digits.
fn push_quoted_byte(byte: u8, text: &mut String) -> Result<(), AllocError>
    ensures { OnOk result (string_bytes text.new ≡ string_bytes text.old ++ quoted_byte byte) }
{
    if (0x20..=0x7e).contains(&byte) && byte != b'"' && byte != b'\\' {
        text.push(byte as char)
    } else {
        text.push_str("\\x")?;
        push_hex_byte(byte, text)
    }
}

/// Adds the bytes of a string.
pub fn push_quoted(bytes: &[u8], text: &mut String) -> Result<(), AllocError>
    ensures { OnOk result (string_bytes text.new ≡ string_bytes text.old ++ quoted_bytes bytes.now) }
{
    for byte in bytes {
        push_quoted_byte(*byte, text)?;
    }
    Ok(())
}

fn push_ascii(bytes: &[u8], text: &mut String) -> Result<(), AllocError>
    requires { IsAscii bytes.now }
    ensures { OnOk result (string_bytes text.new ≡ string_bytes text.old ++ bytes.now) }
{
    for byte in bytes {
        text.push(*byte as char)?;
    }
    Ok(())
}

#[tactic(auto, using(crate::proofs::Dotted::dots_last))]
fn push_segments(segments: &[u8], text: &mut String) -> Result<(), AllocError>
    requires { IsAscii segments.now }
    ensures { OnOk result (string_bytes text.new ≡ string_bytes text.old ++ dotted_segments segments.now) }
{
    let mut rest = segments;
    while rest.len() > 4 {
        let (segment, more) = rest.split_at(4);
        push_ascii(segment, text)?;
        text.push('.')?;
        rest = more;
    }
    push_ascii(rest, text)
}

/// The segments of a path, without the prefix that counts them (ACPI 6.5, 20.2.2). A null path has none.
pub fn segments_of(path: &[u8]) -> &[u8]
    ensures { result.now ≡ segments_of path.now }
{
    match path {
        [0x2e | 0x00, segments @ ..] => segments,
        [0x2f, _, segments @ ..] => segments,
        [0x2f] => &[],
        _ => path,
    }
}

// Adds a name after all `^`.
#[tactic(auto, using(crate::proofs::Dotted::rooted_ascii, crate::proofs::Dotted::relative_ascii, crate::proofs::Dotted::name_text_rooted, crate::proofs::Dotted::name_text_relative,))]
fn push_path(bytes: &[u8], text: &mut String) -> Result<(), AllocError>
    requires rest { IsShown bytes.now }
    requires down { begins_up bytes.now ≡ false }
    ensures { OnOk result (string_bytes text.new ≡ string_bytes text.old ++ name_text bytes.now) }
{
    let Some((lead, rest)) = bytes.split_first() else {
        return Ok(());
    };
    if *lead != 0x5c {
        return push_segments(segments_of(bytes), text);
    }
    text.push('\\')?;
    push_segments(segments_of(rest), text)
}

fn push_name(name: &NameString, text: &mut String) -> Result<(), AllocError>
    ensures { OnOk result (string_bytes text.new ≡ string_bytes text.old ++ name_text name.now) }
{
    let mut rest = name.as_bytes();
    'up: while begins_up(rest) {
        text.push('^')?;
        rest = after_up(rest);
    }
    push_path(rest, text)
}

/// Adds a word and a name.
pub fn push_named(word: &str, name: &NameString, text: &mut String) -> Result<(), AllocError>
    ensures { OnOk result (string_bytes text.new ≡ string_bytes text.old ++ (word.now ++ name_text name.now)) }
{
    text.push_str(word)?;
    push_name(name, text)
}

/// Adds a word and a decimal number.
pub fn push_number(word: &str, n: u64, text: &mut String) -> Result<(), AllocError>
    ensures { OnOk result (string_bytes text.new ≡ string_bytes text.old ++ (word.now ++ decimal n)) }
{
    write!(text, "{word}{n}")
}

/// Adds a word, and `1` or `0`.
pub fn push_flag(word: &str, flag: bool, text: &mut String) -> Result<(), AllocError>
    ensures { OnOk result (string_bytes text.new ≡ string_bytes text.old
        ++ (word.now ++ (if flag then codes "1" else codes "0"))) }
{
    text.push_str(word)?;
    text.push(if flag { '1' } else { '0' })
}

/// Adds a word and a name, and another word and a number.
#[tactic(auto, using(crate::proofs::Texts::after_two))]
pub fn push_numbered(
    word: &str,
    name: &NameString,
    label: &str,
    n: u64,
    text: &mut String,
) -> Result<(), AllocError>
    ensures { OnOk result (string_bytes text.new ≡ string_bytes text.old
        ++ (word.now ++ name_text name.now ++ label.now ++ decimal n)) }
{
    push_named(word, name, text)?;
    push_number(label, n, text)
}

/// Adds two spaces for each level, sixteen levels at a time where there are that many.
pub fn push_indent(depth: usize, text: &mut String) -> Result<(), AllocError>
    ensures { OnOk result (string_bytes text.new ≡ string_bytes text.old ++ indent depth) }
{
    'many: for _sixteen in 0..depth / 16 {
        text.push_str("                                ")?;
    }
    'one: for _done in 0..depth % 16 {
        text.push_str("  ")?;
    }
    Ok(())
}
