//! Bytes that an object wrote, and the bytes of objects.

ghost use Rattle.acpi_base.specs.Object.{whole, whole_ends_well};

use acpi_base::buffer::{append, append_value};
use acpi_base::error::R;
use acpi_base::object::Aml;
use acpi_base::sink::AmlSink;
use acpi_build::error::BuildError;
use acpi_term::apart::Parts;
use acpi_term::spell::spell;
use acpi_term::term::Term;
use std::alloc::Global;
use std::slice::from_ref;

/// Bytes that an object wrote, as an operand of another.
#[derive(Drop)]
pub struct Spelt(pub Vec<u8>);

impl Aml for Spelt {
    ghost object = { λ o. whole o.0.items };

    ghost ends_well = { λ o. whole_ends_well o.0.items };

    #[tactic(auto, using(acpi_base::proofs::Objects::refused_by_sink))]
    fn to_aml_bytes(&self, sink: &mut dyn AmlSink) -> R<()> {
        sink.vec(&self.0)
    }
}

/// Returns the bytes that spell a term.
pub fn spelling_of(alloc: Global, term: &Term) -> Result<Spelt, BuildError> {
    let bytes = spell(alloc, from_ref(term))?;
    Ok(Spelt(bytes))
}

/// Returns the bytes that spell the children of a term.
pub fn children_of(alloc: Global, parts: Parts<'_>) -> R<Vec<u8>> {
    let mut bytes = spell(alloc, parts.first)?;
    let others = spell(alloc, parts.others)?;
    bytes.extend_from_slice(&others)?;
    Ok(bytes)
}

/// Returns what an object writes.
pub fn written(alloc: Global, aml: &dyn Aml) -> Result<Spelt, BuildError> {
    let mut bytes = Vec::new(alloc);
    append(aml, &mut bytes)?;
    Ok(Spelt(bytes))
}

/// Returns what an object writes, if its constructor succeeded.
pub fn made<T: Aml + Drop>(alloc: Global, object: R<T>) -> Result<Spelt, BuildError> {
    let mut bytes = Vec::new(alloc);
    append_value(&object?, &mut bytes)?;
    Ok(Spelt(bytes))
}

// Objects as constructors take them. A function that returned these would hand out objects of any type.
macro_rules! operands {
    ($alloc:expr, $objects:expr) => {{
        let mut operands: Vec<&dyn Aml> = Vec::with_capacity($alloc, $objects.len())?;
        for object in $objects {
            operands.push(object)?;
        }
        operands
    }};
}

pub(crate) use operands;
