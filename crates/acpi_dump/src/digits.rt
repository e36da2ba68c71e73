//! Hexadecimal digits.

ghost use Rattle.std.specs.Prelude.{◌≡◌, ◌<◌, ◌^◌};
ghost use Rattle.std.specs.Char.{digit_value, is_ascii_hexdigit};
ghost use Rattle.std.specs.Option.{SomeIff};
ghost use Rattle.std.specs.Str.Parse.{digits_value};
ghost use Rattle.std.specs.Bool.{OnTrue};
ghost use Rattle.std.specs.List.{AllPass};

use acpi_base::digit::digit_value;

/// Returns whether a byte is a hexadecimal digit in upper or lower case.
pub fn is_digit(byte: u8) -> bool
    ensures value { result ≡ is_ascii_hexdigit byte }
    ensures small { OnTrue result (digit_value byte < 16) }
{
    byte.is_ascii_hexdigit()
}

/// Returns the number of a digit.
#[tactic(auto, using(crate::proofs::Numbers::one_value))]
pub fn digit(byte: u8) -> u8
    requires { digit_value byte < 16 }
    ensures { result ≡ digit_value byte }
{
    match digit_value(byte) {
        Some(digit) => digit,
        None => 0,
    }
}

/// Returns the number of digits, unless it is 2^64 or more.
pub fn number(digits: &[u8]) -> Option<usize>
    requires { AllPass is_ascii_hexdigit digits.now }
    ensures { SomeIff result (digits_value 16 digits.now < 2 ^ 64) (digits_value 16 digits.now) }
{
    let mut number: usize = 0;
    'digits: for byte in digits {
        number = number
            .checked_mul(16)?
            .checked_add(usize::from(digit(*byte)))?;
    }
    Some(number)
}
