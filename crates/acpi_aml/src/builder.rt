//! Packages to which elements are added one by one.

ghost use Rattle.std.specs.Prelude.{◌≡◌, ◌++◌, [], ◌∷◌, None, OnOk, OnErr, IfErr};
ghost use Rattle.acpi_base.specs.Object.{whole, IsOwnEnd, Wrote, WriteRefused};
ghost use Rattle.acpi_term.specs.Tree.{def_package};
ghost use Rattle.acpi_term.specs.Row.{around, layout};
ghost use Rattle.acpi_aml.specs.Builder.{Builder, new_builder, element_of, with_element, package_of, builder_of, builder_takes};
ghost use Rattle.acpi_aml.specs.EndsWell.{frame_ends_well};

use acpi_base::buffer::append;
use acpi_base::error::{Error, R};
use acpi_base::object::Aml;
use acpi_base::parts::write_parts;
use acpi_base::sink::AmlSink;
use acpi_term::row::frame_length;
use std::alloc::Global;
use std::marker::Model;

/// A package (ACPI 6.5, 20.2.5.4, DefPackage) to which elements are added one by one. If its content is too large for a
/// PkgLength, writing it returns `PkgLength` and writes nothing.
#[derive(Drop)]
pub struct PackageBuilder {
    bytes: Vec<u8>,
    elements: u8,
}

impl Model for PackageBuilder {
    ghost Value = { Builder };

    ghost view = { λ b. record { bytes = b.bytes.items; elements = b.elements } };
}

/// A builder is a sink, too: it adds all bytes to its content, and counts no element for them.
impl AmlSink for PackageBuilder {
    ghost meaning = { builder_of };

    ghost takes_nothing = { λ b. builder_takes b [] };

    ghost takes_beginning = { λ b a _ _. builder_takes b a };

    #[tactic(auto, unfolding(crate::specs::Builder::builder_of))]
    fn byte(&mut self, byte: u8) -> R<()> {
        self.bytes.push(byte)?;
        Ok(())
    }

    #[tactic(auto, unfolding(crate::specs::Builder::builder_of))]
    fn vec(&mut self, v: &[u8]) -> R<()> {
        self.bytes.extend_from_slice(v)?;
        Ok(())
    }
}

impl Aml for PackageBuilder {
    ghost object = { package_of };

    ghost ends_well = { λ b. frame_ends_well (0x12 ∷ []) ((b.elements ∷ []) ++ (b.bytes ++ [])) };

    fn to_aml_bytes(&self, sink: &mut dyn AmlSink) -> R<()> {
        write_package(sink, self.elements, &self.bytes)
    }
}

impl PackageBuilder {
    /// A package without elements.
    pub fn new(alloc: Global) -> PackageBuilder
        ensures { result ≡ new_builder }
    {
        PackageBuilder {
            bytes: Vec::new(alloc),
            elements: 0,
        }
    }

    /// Adds an element. The error is `PackageElements` at the 256th element, or the element's own. After an error the package is
    /// unchanged.
    pub fn add_element(&mut self, element: &dyn Aml) -> R<()>
        ensures ok { OnOk result (self.new ≡ with_element self.old (object element.now)) }
        ensures whole { OnOk result ((element_of self.old (object element.now)).end ≡ None) }
        ensures unchanged { OnErr result (self.new ≡ self.old) }
        ensures err { IfErr result (λ e. IsOwnEnd e (element_of self.old (object element.now))) }
    {
        if self.elements == 255 {
            return Err(Error::PackageElements);
        }
        let before = self.bytes.len();
        if let Err(refusal) = append(element, &mut self.bytes) {
            self.bytes.truncate(before);
            return Err(refusal);
        }
        self.elements += 1;
        Ok(())
    }
}

// Writes a package with this number of elements, from their bytes.
fn write_package(sink: &mut dyn AmlSink, count: u8, elements: &[u8]) -> R<()>
    ensures ok { OnOk result
        (Wrote (around (layout def_package 0 count) (whole elements.now)) (meaning sink.old) (meaning sink.new)) }
    ensures err { IfErr result
        (λ e. WriteRefused e (around (layout def_package 0 count) (whole elements.now)) (meaning sink.old) (meaning sink.new)) }
{
    let (length, used) = frame_length(elements.len() + 1)?;
    write_parts(sink, &[&[0x12], &length[..used], &[count], elements])
}
