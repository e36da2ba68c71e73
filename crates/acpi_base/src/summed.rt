//! A count for contracts alone.

ghost use Rattle.std.specs.Prelude.{◌≡◌, ℕ, ◌+◌};
ghost use Rattle.std.specs.Borrow.{ftrue};

use std::marker::Model;

/// The number of bytes that were added to a sum or subtracted from it. It takes no memory at run time.
#[derive(Drop)]
pub struct Summed {
    pub ghost count: { ℕ },
}

impl Model for Summed {
    ghost also_owns = { λ _. ftrue };
}

impl Summed {
    /// A count of zero.
    pub fn new() -> Summed
        ensures { result.count ≡ 0 }
    {
        Summed {}
    }

    /// A count of one byte more.
    pub fn after(_before: &Summed) -> Summed
        ensures { result.count ≡ _before.now.count + 1 }
    {
        Summed {}
    }
}
