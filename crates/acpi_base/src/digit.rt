//! Hexadecimal digits.

ghost use Rattle.std.specs.Prelude.{◌≡◌, ◌<◌, IfSome};
ghost use Rattle.acpi_base.specs.Digit.{digit_value};

/// The value of a hexadecimal digit in upper or lower case, or `None` if the character isn't one.
#[inline(always)]
pub fn digit_value(character: u8) -> Option<u8>
    ensures value { result ≡ digit_value character }
    ensures small { IfSome result (λ d. d < 16) }
{
    match character {
        b'0'..=b'9' => Some(character - b'0'),
        b'A'..=b'F' => Some(character - b'A' + 10),
        b'a'..=b'f' => Some(character - b'a' + 10),
        _ => None,
    }
}
