//! Handles: the offsets of nodes in their table.

ghost use Rattle.std.specs.Prelude.{◌≡◌};

use std::marker::{Model, PhantomData};

/// The offset of a node of type `K` in its table. In contracts a handle is that offset.
#[derive_where(Clone, Copy, Debug)]
pub struct Handle<K> {
    offset: u32,
    node: PhantomData<K>,
}

impl<K> Model for Handle<K> {
    ghost use Rattle.std.specs.Prelude.{ℕ};

    ghost Value = { ℕ };

    ghost view = { λ h. h.offset };

    ghost inverse = { λ n. record { offset = n; node = record {} } };
}

impl<K> Handle<K> {
    // The handle of the node at an offset.
    pub(crate) fn at(offset: u32) -> Handle<K>
        ensures { result ≡ offset }
    {
        Handle {
            offset,
            node: PhantomData,
        }
    }

    /// The offset in bytes from the first byte of the table.
    pub fn offset(&self) -> u32
        ensures { result ≡ self.now }
    {
        self.offset
    }
}
