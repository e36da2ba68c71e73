//! Resource descriptors of any length.

ghost use Rattle.std.specs.Prelude.{◌≡◌, ◌++◌, ℕ, List, IfOk, IfErr, OnOk};
ghost use Rattle.std.specs.List.{flat_map};
ghost use Rattle.acpi_base.specs.Bytes.{le};
ghost use Rattle.acpi_base.specs.Object.{whole, whole_ends_well, Builds};

use acpi_base::error::{Error, R};
use acpi_base::object::Aml;
use acpi_base::sink::AmlSink;
use std::alloc::Global;
use std::marker::{Model, PhantomData};

/// A resource descriptor whose number of bytes depends on what is in it.
#[derive(Drop)]
pub struct VariableDescriptor<Kind> {
    bytes: Vec<u8>,
    kind: PhantomData<Kind>,
}

impl<Kind> Model for VariableDescriptor<Kind> {
    ghost Value = { List ℕ };

    ghost view = { λ d. d.bytes.items };
}

impl<Kind> Aml for VariableDescriptor<Kind> {
    ghost object = { λ d. whole d };

    ghost ends_well = { λ d. whole_ends_well d };

    #[tactic(auto, using(acpi_base::proofs::Objects::refused_by_sink))]
    fn to_aml_bytes(&self, sink: &mut dyn AmlSink) -> R<()> {
        sink.vec(&self.bytes)
    }
}

impl<Kind> VariableDescriptor<Kind> {
    // A descriptor of these parts, in order.
    pub(crate) fn of(alloc: Global, parts: &[&[u8]]) -> R<VariableDescriptor<Kind>>
        ensures ok { IfOk result (λ d. d ≡ flat_map (λ part. part.now) parts.now) }
        ensures err { IfErr result (λ e. e ≡ Error.Memory) }
    {
        let bytes = joined(alloc, parts)?;
        Ok(VariableDescriptor {
            bytes,
            kind: PhantomData,
        })
    }
}

fn joined(alloc: Global, parts: &[&[u8]]) -> R<Vec<u8>>
    ensures ok { IfOk result (λ bytes. bytes.items ≡ flat_map (λ part. part.now) parts.now) }
    ensures err { IfErr result (λ e. e ≡ Error.Memory) }
{
    let mut bytes = Vec::new(alloc);
    'parts: for part in parts {
        bytes.extend_from_slice(*part)?;
    }
    Ok(bytes)
}
