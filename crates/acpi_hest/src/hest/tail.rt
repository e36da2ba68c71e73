//! The fields in which sources of one form differ.

ghost use Rattle.std.specs.Prelude.{◌≡◌, ◌<◌, ◌^◌, ℕ};

use acpi_base::row::Record;

/// The fields after those that all sources of a form have: a record of `N` bytes. Its type also gives the source's type.
pub trait Tail<const N: usize>: Record<N> + Copy {
    ghost KIND: { ℕ };

    ghost zero: { Self };

    /// The source's type.
    const KIND: u16;

    /// The fields with the value zero.
    fn zero() -> Self
        ensures { result ≡ zero };

    ghost is_small: { N < 2 ^ 63 };
}
