//! A table of structures.

ghost use Rattle.std.specs.Prelude.{◌≡◌, ◌+◌, ◌^◌, ◌<◌, ◌≤◌, ◌⊎◌, length};
ghost use Rattle.acpi_base.specs.Object.{whole, whole_ends_well};
ghost use Rattle.acpi_core.specs.Listing.{IsListing, bytes_of, size_of};
ghost use Rattle.acpi_core.specs.Flat.{new_listing, number_up_to};
ghost use Rattle.acpi_core.specs.Addition.{Adds, AddsAt};

use crate::count::Count;
use crate::form::Form;
use crate::listed::Listed;
use crate::settle::settle;
use crate::structure::Structure;
use acpi_base::error::R;
use acpi_base::header::{header, seal};
use acpi_base::object::Aml;
use acpi_base::parts::write_parts;
use acpi_base::patch::write_at;
use acpi_base::sink::AmlSink;
use acpi_base::sum::Sum;
use std::alloc::Global;
use std::marker::Model;

/// A table (ACPI 6.5, 5.2.6): a header and fixed fields of `N` bytes, and then structures in order. Its length, its number of
/// structures and its checksum are right after every call.
#[derive(Drop)]
pub struct Table<const N: usize> {
    fixed: [u8; N],
    body: Vec<u8>,
    sum: Sum,
    count: Count,
    limit: usize,
    listed: Listed,
}

impl<const N: usize> Model for Table<N> {
    ghost use Rattle.acpi_core.specs.Addition.{Counted};
    ghost use Rattle.acpi_core.specs.Flat.{IsFlat};

    ghost Value = { Counted };

    ghost view = { λ t. record { table = t.listed.table; summed = t.sum.summed } };

    ghost invariant = { λ t. IsFlat t.listed.table t.fixed t.body.items t.sum.value t.count.number t.count.at t.count.width
        t.limit };
}

/// A table writes its fixed part and then its structures.
impl<const N: usize> Aml for Table<N> {
    ghost object = { λ t. whole (bytes_of t.table) };

    ghost ends_well = { λ t. whole_ends_well (bytes_of t.table) };

    fn to_aml_bytes(&self, sink: &mut dyn AmlSink) -> R<()> {
        write_parts(sink, &[&self.fixed, &self.body])
    }
}

impl<const N: usize> Table<N> {
    /// A table without structures. `before` are the fixed fields before the number of structures, and `after` those after it.
    pub fn new(alloc: Global, form: Form, before: &[u8], after: &[u8]) -> Table<N>
        requires size { 36 + length before.now + form.count_width + length after.now ≡ N }
        requires width { (form.count_width ≡ 0) ⊎ ((form.count_width ≡ 2) ⊎ (form.count_width ≡ 4)) }
        requires limit { (N < form.limit) × (form.limit ≤ 2 ^ 32) }
        ensures table { result.table ≡ new_listing form before.now after.now }
        ensures listing { IsListing result.table }
    {
        let mut fixed = [0; N];
        let head = header(form.signature, N as u32, form.revision, form.oem);
        write_at(&mut fixed, 0, &head);
        write_at(&mut fixed, 36, before);
        write_at(&mut fixed, N - after.len(), after);
        let sum = seal(&mut fixed);
        Table {
            fixed,
            body: Vec::new(alloc),
            sum,
            count: Count {
                number: 0,
                at: 36 + before.len(),
                width: form.count_width,
            },
            limit: form.limit,
            listed: Listed::new(&form, before, after),
        }
    }

    /// Adds a structure of these bytes at the end. The error is `FieldWidth` if the length or the number of structures doesn't
    /// fit its field.
    #[inline(always)]
    pub fn add(&mut self, structure: &[u8]) -> R<()>
        ensures { Adds result self.old (whole structure.now) self.new }
    {
        let held = N + self.body.len();
        let (size, number) = self.count.grown(held, structure.len(), self.limit)?;
        self.body.extend_from_slice(structure)?;
        self.count.number = number;
        settle(&mut self.fixed, &mut self.sum, size, &self.count, structure);
        self.listed = Listed::with(&self.listed, structure);
        Ok(())
    }

    /// Adds the bytes of an object as a structure at the end. The error is the object's own, or `FieldWidth` as for `add`.
    pub fn add_object<S: Structure>(&mut self, structure: &S) -> R<()>
        ensures { Adds result self.old (S.writes structure.now) self.new }
    {
        let start = self.body.len();
        if let Err(refusal) = structure.append_to(&mut self.body) {
            self.body.truncate(start);
            return Err(refusal);
        }
        let added = self.body.len() - start;
        match self.count.grown(N + start, added, self.limit) {
            Err(refusal) => {
                self.body.truncate(start);
                Err(refusal)
            }
            Ok((size, number)) => {
                self.count.number = number;
                settle(
                    &mut self.fixed,
                    &mut self.sum,
                    size,
                    &self.count,
                    &self.body[start..],
                );
                self.listed = Listed::with(&self.listed, &self.body[start..]);
                Ok(())
            }
        }
    }

    /// Adds a structure as `add` does, and returns the offset at which it begins.
    pub fn add_at(&mut self, structure: &[u8]) -> R<u32>
        ensures { AddsAt result self.old (whole structure.now) self.new }
    {
        let at = self.len();
        self.add(structure)?;
        Ok(at)
    }

    /// Adds a structure as `add_object` does, and returns the offset at which it begins.
    pub fn add_object_at<S: Structure>(&mut self, structure: &S) -> R<u32>
        ensures { AddsAt result self.old (S.writes structure.now) self.new }
    {
        let at = self.len();
        self.add_object(structure)?;
        Ok(at)
    }

    /// The number of bytes of the table.
    pub fn len(&self) -> u32
        ensures { result ≡ size_of self.now.table }
    {
        (N + self.body.len()) as u32
    }

    /// The number of structures, or 2^32 - 1 if there are more. Only structures without bytes can be so numerous.
    pub fn count(&self) -> u32
        ensures { result ≡ number_up_to (length self.now.table.structures) }
    {
        self.count.number
    }
}
