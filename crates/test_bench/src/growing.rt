//! Tables that grow by calls.

ghost use Rattle.std.specs.Prelude.{◌≡◌, ◌*◌, IfOk};

use acpi_tables::{Aml, R};
use std::alloc::Global;

/// A table that grows by calls.
pub trait Growing: Aml + Drop + Sized {
    ghost use Rattle.std.specs.Prelude.{ℕ, ◌≡◌, ◌+◌, OnOk};

    /// The number of its structures.
    ghost structures: { Self → ℕ };

    /// How many structures a call adds.
    ghost each: { ℕ };

    /// The table before the first call.
    fn empty(alloc: Global) -> Self
        ensures { structures result ≡ 0 };

    /// Makes the call of this number, counted from 0.
    fn grow(&mut self, alloc: Global, number: u32) -> R<()>
        ensures { OnOk result (structures self.new ≡ structures self.old + each) };
}

/// A table after this many calls.
pub fn grown<T: Growing>(alloc: Global, calls: u32) -> R<T>
    ensures { IfOk result (λ t. T.structures t ≡ T.each * calls) }
{
    let mut table = T::empty(alloc);
    'fill: for number in 0..calls {
        table.grow(alloc, number)?;
    }
    Ok(table)
}
