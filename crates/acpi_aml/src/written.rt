//! Objects that store their bytes, made by their constructor.

ghost use Rattle.std.specs.Prelude.{◌≡◌, ℕ, List};
ghost use Rattle.acpi_base.specs.Object.{whole, whole_ends_well};

use acpi_base::error::R;
use acpi_base::object::Aml;
use acpi_base::sink::AmlSink;
use std::marker::{Model, PhantomData};

/// The bytes of an object of kind `K`.
#[derive(Drop)]
pub struct Written<K> {
    pub(crate) bytes: Vec<u8>,
    kind: PhantomData<K>,
}

impl<K> Model for Written<K> {
    ghost Value = { List ℕ };

    ghost view = { λ o. o.bytes.items };
}

impl<K> Aml for Written<K> {
    ghost object = { λ o. whole o };

    ghost ends_well = { λ o. whole_ends_well o };

    #[tactic(auto, using(acpi_base::proofs::Objects::refused_by_sink))]
    fn to_aml_bytes(&self, sink: &mut dyn AmlSink) -> R<()> {
        sink.vec(&self.bytes)
    }
}

impl<K> Written<K> {
    pub(crate) fn of(bytes: Vec<u8>) -> Written<K>
        ensures { result ≡ bytes.items }
    {
        Written {
            bytes,
            kind: PhantomData,
        }
    }
}
