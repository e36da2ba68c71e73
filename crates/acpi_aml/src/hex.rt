//! Bytes of hexadecimal digits.

ghost use Rattle.std.specs.Prelude.{◌≡◌, ◌*◌, length};
ghost use Rattle.acpi_aml.specs.Hex.{byte_of_digits, bytes_of_digits};

use acpi_base::digit::digit_value;

/// The byte that two digits stand for.
pub(crate) fn byte_of_digits(high: u8, low: u8) -> Option<u8>
    ensures { result ≡ byte_of_digits high low }
{
    let high = digit_value(high)?;
    let low = digit_value(low)?;
    Some(16 * high + low)
}

/// The `N` bytes that a text of 2 `N` digits stands for.
pub(crate) fn bytes_of_digits<const N: usize>(text: &[u8]) -> Option<[u8; N]>
    requires { length text.now ≡ 2 * N }
    ensures { result ≡ bytes_of_digits text.now }
{
    let mut bytes = [0; N];
    for i in 0..N {
        bytes[i] = byte_of_digits(text[2 * i], text[2 * i + 1])?;
    }
    Some(bytes)
}
