//! The constant objects of AML.

ghost use Rattle.std.specs.Prelude.{[], ◌∷◌};
ghost use Rattle.acpi_base.specs.Object.{whole, whole_ends_well};

use crate::error::R;
use crate::object::Aml;
use crate::sink::AmlSink;

/// The number 0 (ACPI 6.5, 20.2.3, ZeroOp).
pub const ZERO: Zero = Zero {};

#[derive(Drop)]
pub struct Zero {}

impl Aml for Zero {
    ghost object = { λ _. whole (0 ∷ []) };

    ghost ends_well = { λ _. whole_ends_well (0 ∷ []) };

    fn to_aml_bytes(&self, sink: &mut dyn AmlSink) -> R<()> {
        sink.byte(0x00)
    }
}

/// The number 1 (ACPI 6.5, 20.2.3, OneOp).
pub const ONE: One = One {};

#[derive(Drop)]
pub struct One {}

impl Aml for One {
    ghost object = { λ _. whole (1 ∷ []) };

    ghost ends_well = { λ _. whole_ends_well (1 ∷ []) };

    fn to_aml_bytes(&self, sink: &mut dyn AmlSink) -> R<()> {
        sink.byte(0x01)
    }
}

/// All bits set, in the width of its context (ACPI 6.5, 20.2.3, OnesOp).
pub const ONES: Ones = Ones {};

#[derive(Drop)]
pub struct Ones {}

impl Aml for Ones {
    ghost object = { λ _. whole (255 ∷ []) };

    ghost ends_well = { λ _. whole_ends_well (255 ∷ []) };

    fn to_aml_bytes(&self, sink: &mut dyn AmlSink) -> R<()> {
        sink.byte(0xff)
    }
}
