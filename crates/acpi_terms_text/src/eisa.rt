//! The texts of EISA ids (ACPI 6.5, 19.3.4). A function whose name begins with `push` adds to a text.

ghost use Rattle.std.specs.Prelude.{◌≡◌, ◌<◌, ◌+◌, ◌++◌, true, OnOk, string_bytes};
ghost use Rattle.acpi_terms_text.specs.Eisa.{is_letter, upper_digit, is_id, letters, upper_byte, id_text, eisa_text};

use std::alloc::AllocError;

fn is_letter(n: u32) -> bool
    ensures { result ≡ is_letter n }
{
    (1..=26).contains(&n)
}

/// Returns whether 32 bits are three letters and four digits: the letters are at bits 26, 21 and 16, and bit 31 is clear.
pub fn is_id(id: u32) -> bool
    ensures { result ≡ is_id id }
{
    is_letter(id / 0x400_0000) && is_letter(id / 0x20_0000 % 32) && is_letter(id / 0x1_0000 % 32)
}

fn upper_digit(n: u32) -> char
    requires { n < 16 }
    ensures { result ≡ upper_digit n }
{
    let code = if n < 10 { 48 + n } else { 55 + n };
    code as u8 as char
}

fn letter(n: u32) -> char
    requires { is_letter n ≡ true }
    ensures { result ≡ 64 + n }
{
    (64 + n) as u8 as char
}

/// Adds the three letters of an id.
pub fn push_letters(id: u32, text: &mut String) -> Result<(), AllocError>
    requires { is_id id ≡ true }
    ensures { OnOk result (string_bytes text.new ≡ string_bytes text.old ++ letters id) }
{
    text.push(letter(id / 0x400_0000))?;
    text.push(letter(id / 0x20_0000 % 32))?;
    text.push(letter(id / 0x1_0000 % 32))
}

// Adds the digits of a byte.
fn push_byte(byte: u32, text: &mut String) -> Result<(), AllocError>
    requires { byte < 256 }
    ensures { OnOk result (string_bytes text.new ≡ string_bytes text.old ++ upper_byte byte) }
{
    text.push(upper_digit(byte / 16))?;
    text.push(upper_digit(byte % 16))
}

// Adds three letters and four digits.
fn push_id(id: u32, text: &mut String) -> Result<(), AllocError>
    requires { is_id id ≡ true }
    ensures { OnOk result (string_bytes text.new ≡ string_bytes text.old ++ id_text id) }
{
    push_letters(id, text)?;
    push_byte(id / 0x100 % 256, text)?;
    push_byte(id % 256, text)
}

/// Adds the text of a number that is an id with its bytes in the opposite order.
pub fn push_eisa(value: u32, text: &mut String) -> Result<(), AllocError>
    ensures { OnOk result (string_bytes text.new ≡ string_bytes text.old ++ eisa_text value) }
{
    let id = value.swap_bytes();
    if is_id(id) { push_id(id, text) } else { Ok(()) }
}
