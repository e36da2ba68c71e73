//! An object that fails.

ghost use Rattle.std.specs.Prelude.{[], ◌∷◌, Some, false};
ghost use Rattle.acpi_base.specs.declared.error.Error.TheVariants.{Sink};

use acpi_base::error::{Error, R};
use acpi_base::object::Aml;
use acpi_base::sink::AmlSink;

/// Writes four bytes, and then returns an error.
#[derive(Drop)]
pub struct Broken {}

impl Aml for Broken {
    ghost object = { λ _. record { front = 1 ∷ 2 ∷ 3 ∷ 4 ∷ []; end = Some (Sink 9); wants_memory = false } };

    ghost ends_well = { λ _ is. Prim.cc };

    fn to_aml_bytes(&self, sink: &mut dyn AmlSink) -> R<()> {
        sink.vec(&[1, 2, 3, 4])?;
        Err(Error::Sink(9))
    }
}
