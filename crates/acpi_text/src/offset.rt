//! The offset of a line, in decimal.

ghost use Rattle.std.specs.Prelude.{◌≡◌, ◌<◌, ◌≤◌, ◌+◌, ◌/◌, ◌%◌, ◌++◌, OnOk, string_bytes};
ghost use Rattle.acpi_text.specs.Offset.{before_name};

use itoa::Buffer;
use std::alloc::AllocError;
use std::str;

// The two digits of each number below 100, in order.
const PAIRS: &str = "\
    0001020304050607080910111213141516171819\
    2021222324252627282930313233343536373839\
    4041424344454647484950515253545556575859\
    6061626364656667686970717273747576777879\
    8081828384858687888990919293949596979899";

// Returns the first of the two digits of a number.
#[inline(always)]
fn tens(n: usize) -> u8
    requires { n < 100 }
    ensures { result ≡ 48 + n / 10 }
{
    PAIRS.as_bytes()[2 * n]
}

// Returns the last digit of a number.
#[inline(always)]
fn ones(n: usize) -> u8
    requires { n < 100 }
    ensures { result ≡ 48 + n % 10 }
{
    PAIRS.as_bytes()[2 * n + 1]
}

// Adds what stands before the name of a line with this offset: spaces and digits, which are ASCII, so they are text.
#[inline(always)]
fn push_front(n: usize, front: &[u8], text: &mut String) -> Result<(), AllocError>
    requires { front.now ≡ before_name n }
    ensures { OnOk result (string_bytes text.new ≡ string_bytes text.old ++ before_name n) }
{
    text.push_str(unsafe { str::from_utf8_unchecked(front) })
}

// Adds two spaces, a number of one digit, and a space.
#[rattlefmt::skip]
fn push_one_digit(n: usize, text: &mut String) -> Result<(), AllocError>
    requires { n < 10 }
    ensures { OnOk result (string_bytes text.new ≡ string_bytes text.old ++ before_name n) }
{
    push_front(n, &[b' ', b' ', ones(n), b' '], text)
}

// Adds two spaces, a number of two digits, and a space.
#[rattlefmt::skip]
fn push_two_digits(n: usize, text: &mut String) -> Result<(), AllocError>
    requires { (10 ≤ n) × (n < 100) }
    ensures { OnOk result (string_bytes text.new ≡ string_bytes text.old ++ before_name n) }
{
    push_front(n, &[b' ', b' ', tens(n), ones(n), b' '], text)
}

// Adds two spaces, a number of three digits, and a space.
#[rattlefmt::skip]
fn push_three_digits(n: usize, text: &mut String) -> Result<(), AllocError>
    requires { (100 ≤ n) × (n < 1000) }
    ensures { OnOk result (string_bytes text.new ≡ string_bytes text.old ++ before_name n) }
{
    push_front(n, &[b' ', b' ', ones(n / 100), tens(n % 100), ones(n % 100), b' '], text)
}

// Adds two spaces, a number of four digits, and a space.
#[rattlefmt::skip]
fn push_four_digits(n: usize, text: &mut String) -> Result<(), AllocError>
    requires { (1000 ≤ n) × (n < 10000) }
    ensures { OnOk result (string_bytes text.new ≡ string_bytes text.old ++ before_name n) }
{
    push_front(n, &[b' ', b' ', tens(n / 100), ones(n / 100), tens(n % 100), ones(n % 100), b' '], text)
}

// Adds two spaces, a number of five digits, and a space.
#[rattlefmt::skip]
fn push_five_digits(n: usize, text: &mut String) -> Result<(), AllocError>
    requires { (10000 ≤ n) × (n < 100000) }
    ensures { OnOk result (string_bytes text.new ≡ string_bytes text.old ++ before_name n) }
{
    let low = n % 10_000;
    push_front(n, &[b' ', b' ', ones(n / 10_000), tens(low / 100), ones(low / 100), tens(low % 100), ones(low % 100), b' '], text)
}

// Adds two spaces, a number of six digits, and a space.
#[rattlefmt::skip]
fn push_six_digits(n: usize, text: &mut String) -> Result<(), AllocError>
    requires { (100000 ≤ n) × (n < 1000000) }
    ensures { OnOk result (string_bytes text.new ≡ string_bytes text.old ++ before_name n) }
{
    let low = n % 10_000;
    push_front(
        n,
        &[
            b' ',
            b' ',
            tens(n / 10_000),
            ones(n / 10_000),
            tens(low / 100),
            ones(low / 100),
            tens(low % 100),
            ones(low % 100),
            b' ',
        ],
        text,
    )
}

// Adds two spaces, a number of any length, and a space.
fn push_long(n: usize, text: &mut String) -> Result<(), AllocError>
    ensures { OnOk result (string_bytes text.new ≡ string_bytes text.old ++ before_name n) }
{
    text.push_str("  ")?;
    text.push_str(Buffer::new().format(n))?;
    text.push_str(" ")
}

/// Adds two spaces, a number and a space.
#[inline(always)]
pub fn push_offset(n: usize, text: &mut String) -> Result<(), AllocError>
    ensures { OnOk result (string_bytes text.new ≡ string_bytes text.old ++ before_name n) }
{
    if n < 10 {
        push_one_digit(n, text)
    } else if n < 100 {
        push_two_digits(n, text)
    } else if n < 1000 {
        push_three_digits(n, text)
    } else if n < 10_000 {
        push_four_digits(n, text)
    } else if n < 100_000 {
        push_five_digits(n, text)
    } else if n < 1_000_000 {
        push_six_digits(n, text)
    } else {
        push_long(n, text)
    }
}
