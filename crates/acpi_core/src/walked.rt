//! Tables whose structures are found by the walk of their kind.

ghost use Rattle.std.specs.Prelude.{◌≡◌, ◌<◌, ◌≤◌, ◌^◌, [], length, None, IsTrue, IfOk};
ghost use Rattle.acpi_base.specs.Fields.{fields_joined};
ghost use Rattle.acpi_base.specs.Object.{whole, whole_ends_well};
ghost use Rattle.acpi_base.specs.Table.{IsTrueTable};
ghost use Rattle.acpi_base.specs.Walk.{IsPiece, ArePieces, place_width};
ghost use Rattle.acpi_core.specs.Addition.{Adds, AddsAt};
ghost use Rattle.acpi_core.specs.Calls.{HoldsNodes, IsAfterItsCalls};
ghost use Rattle.acpi_core.specs.Flat.{number_up_to};
ghost use Rattle.acpi_core.specs.Listing.{Listing, bytes_of};
ghost use Rattle.acpi_core.specs.Walk.{IsWalkOf, IsWalked, Keeps};

use crate::kind::Kind;
use crate::structure::Known;
use crate::table::Table;
use acpi_base::error::R;
use acpi_base::object::Aml;
use acpi_base::row::Record;
use acpi_base::sink::AmlSink;
use std::marker::{Model, PhantomData};

/// A table of a kind.
#[derive(Drop)]
pub struct Walked<K: Kind, const N: usize> {
    table: Table<N>,
    kind: PhantomData<K>,
}

impl<K: Kind, const N: usize> Model for Walked<K, N> {
    ghost use Rattle.acpi_core.specs.Addition.{Counted};
    ghost use Rattle.acpi_core.specs.Walk.{Keeps};

    ghost Value = { Counted };

    ghost view = { λ t. t.table };

    ghost invariant = { λ t. Keeps K.ported K.walk K.limit K.closed t.table.table };
}

impl<K: Kind, const N: usize> Aml for Walked<K, N> {
    ghost object = { λ t. whole (bytes_of t.table) };

    ghost ends_well = { λ t. whole_ends_well (bytes_of t.table) };

    fn to_aml_bytes(&self, sink: &mut dyn AmlSink) -> R<()> {
        self.table.to_aml_bytes(sink)
    }
}

impl<K: Kind, const N: usize> Walked<K, N> {
    /// A table without structures, from its fixed fields.
    pub fn of(table: Table<N>) -> Walked<K, N>
        requires walk { IsWalkOf K.ported K.walk table.table }
        requires limit { table.table.limit ≡ K.limit }
        requires none { table.table.structures ≡ [] }
        ensures { result ≡ table.entry }
    {
        Walked {
            table,
            kind: PhantomData,
        }
    }

    /// Adds a record. The error is `FieldWidth` if the length or the number of structures doesn't fit its field.
    pub fn add_record<const M: usize, T: Record<M>>(&mut self, structure: &T) -> R<()>
        requires size { M < 2 ^ 63 }
        requires piece { IsTrue K.closed → length (fields_joined (T.fields structure.now)) ≡ M
            → IsPiece K.walk.sizes (fields_joined (T.fields structure.now)) }
        ensures { Adds result self.old (whole (fields_joined (T.fields structure.now))) self.new }
    {
        self.table.add(&structure.bytes())
    }

    /// Adds a record as `add_record` does, and returns the offset at which it begins.
    pub fn add_record_at<const M: usize, T: Record<M>>(&mut self, structure: &T) -> R<u32>
        requires size { M < 2 ^ 63 }
        requires piece { IsTrue K.closed → length (fields_joined (T.fields structure.now)) ≡ M
            → IsPiece K.walk.sizes (fields_joined (T.fields structure.now)) }
        ensures adds { AddsAt result self.old (whole (fields_joined (T.fields structure.now))) self.new }
        ensures below { IfOk result (λ at. at < K.limit) }
    {
        self.table.add_at(&structure.bytes())
    }

    /// Adds the bytes of an object as a structure. The error is the object's own, or `FieldWidth` as for `add_record`.
    pub fn add_object<T: Aml>(&mut self, structure: &T) -> R<()>
        requires { IsTrue K.closed → (T.object structure.now).end ≡ None → IsPiece K.walk.sizes (T.object structure.now).front }
        ensures { Adds result self.old (T.object structure.now) self.new }
    {
        self.table.add_object(&Known(structure))
    }

    /// Adds a structure as `add_object` does, from a borrowed object of any type.
    pub fn add_borrowed(&mut self, structure: &dyn Aml) -> R<()>
        requires { IsTrue K.closed → (object structure.now).end ≡ None → IsPiece K.walk.sizes (object structure.now).front }
        ensures { Adds result self.old (object structure.now) self.new }
    {
        self.table.add_object(&structure)
    }

    /// Adds a structure as `add_object` does, and returns the offset at which it begins.
    pub fn add_object_at<T: Aml>(&mut self, structure: &T) -> R<u32>
        requires { IsTrue K.closed → (T.object structure.now).end ≡ None → IsPiece K.walk.sizes (T.object structure.now).front }
        ensures adds { AddsAt result self.old (T.object structure.now) self.new }
        ensures below { IfOk result (λ at. at < K.limit) }
    {
        self.table.add_object_at(&Known(structure))
    }

    /// The number of bytes of the table.
    pub fn len(&self) -> usize
        ensures { result ≡ length (bytes_of self.now.table) }
    {
        self.table.len() as usize
    }

    /// The number of structures. It is 2^32 - 1 if there are more, which takes structures without bytes in a table that doesn't
    /// contain their number.
    pub fn count(&self) -> u32
        ensures number { result ≡ number_up_to (length self.now.table.structures) }
        ensures closed { IsTrue K.closed → result ≡ length self.now.table.structures }
        ensures counted { 1 ≤ place_width K.walk.count → result ≡ length self.now.table.structures }
    {
        self.table.count()
    }
}

/// A law: after any calls the table is correct. If each structure has the length that the walk expects, as in a table of a
/// closed kind, the structures, in order, are the one list that the walk finds.
pub fn is_walked<K: Kind, const N: usize>(table: &Walked<K, N>)
    ensures keeps { Keeps K.ported K.walk K.limit K.closed table.now.table }
    ensures is_true { IsTrueTable (bytes_of table.now.table) }
    ensures closed { IsTrue K.closed → ArePieces K.walk.sizes table.now.table.structures }
    ensures walked { ArePieces K.walk.sizes table.now.table.structures → IsWalked K.ported K.walk table.now.table }
    ensures calls { ArePieces K.walk.sizes table.now.table.structures → (first : Listing) → first.structures ≡ []
        → IsAfterItsCalls K.ported K.walk first table.now }
    ensures nodes { HoldsNodes table.now.table }
{
    let _ = &table.table;
}
