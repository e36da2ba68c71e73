//! Laws about the definitions that the contracts use. Each function is a law: it does nothing, and its `ensures` states the law.

ghost use Rattle.std.specs.Prelude.{◌≡◌, ℕ};
ghost use Rattle.acpi_base.specs.Laws.{WritesJoin, NothingChangesNothing, FrontsAreSummed, WholeObjectsAreSummed, DeleteRestores};
ghost use Rattle.acpi_base.specs.Laws.{ValueMakesZero, WordsAreBytes, TablesAreTrue, AddedIsTrue, OverwrittenSumsToZero};
ghost use Rattle.acpi_base.specs.Laws.{AddedAtOnce, AddedEnds, SdtsAreTheirCalls};
ghost use Rattle.acpi_base.specs.Walk.{OneWalk, OneListOfPieces};
ghost use Rattle.acpi_base.specs.FurtherWalk.{OneListOfStructures, StructuresArePieces, SourcesArePieces};

pub use crate::derived::{defaults_are_these, equal_values_are_the_same};
use crate::object::Aml;

/// A sink that takes two lists of bytes in turn ends as one that takes both joined.
pub fn writes_join()
    ensures { WritesJoin }
{}

/// Writing no bytes changes no sink.
pub fn nothing_changes_nothing()
    ensures { NothingChangesNothing }
{}

/// A number of two, four or eight bytes is its bytes, lowest first, whether it is written at once or byte by byte.
pub fn words_are_bytes()
    ensures { WordsAreBytes }
{}

/// A new checksum to which an object was written contains the sum of the object's bytes.
pub fn fronts_are_summed()
    ensures { FrontsAreSummed }
{}

/// A checksum takes an object without an error if the object is whole and takes no memory.
pub fn whole_objects_are_summed()
    ensures { WholeObjectsAreSummed }
{}

/// Subtracting the bytes that were just added restores a checksum.
pub fn delete_restores()
    ensures { DeleteRestores }
{}

/// A checksum's sum and its `value` add up to zero modulo 256.
pub fn value_makes_zero()
    ensures { ValueMakesZero }
{}

/// A number has the same AML bytes in every number type.
pub fn numbers_have_one_front()
    ensures byte { (n : ℕ) → ⟦<u8 as Aml>⟧.object n ≡ ⟦<u64 as Aml>⟧.object n }
    ensures word { (n : ℕ) → ⟦<u16 as Aml>⟧.object n ≡ ⟦<u64 as Aml>⟧.object n }
    ensures dword { (n : ℕ) → ⟦<u32 as Aml>⟧.object n ≡ ⟦<u64 as Aml>⟧.object n }
    ensures size { (n : ℕ) → ⟦<usize as Aml>⟧.object n ≡ ⟦<u64 as Aml>⟧.object n }
{}

/// A table has its length at offset 4 and sums to zero, for all contents whose length fits 32 bits.
pub fn tables_are_true()
    ensures { TablesAreTrue }
{}

/// The same holds after bytes were added to a table.
pub fn added_is_true()
    ensures { AddedIsTrue }
{}

/// A table sums to zero after some of its bytes were overwritten.
pub fn overwritten_sums_to_zero()
    ensures { OverwrittenSumsToZero }
{}

/// Adding bytes in two parts makes the same table as adding them at once.
pub fn added_at_once()
    ensures { AddedAtOnce }
{}

/// Added bytes are the last bytes of a table.
pub fn added_ends()
    ensures { AddedEnds }
{}

/// After any list of calls, successful or not, an `Sdt` has the bytes that these calls make. A call that fails adds nothing,
/// except that `append_object` has added what the object wrote before its error. If no call overwrites bytes, it is the first
/// table with all added bytes, as if they were added at once.
pub fn sdts_are_their_calls()
    ensures { SdtsAreTheirCalls }
{}

/// At most one list of structures is the walk of a table.
pub fn at_most_one_walk()
    ensures { OneWalk }
{}

/// A table's bytes have at most one list of structures, found by the walk of its signature.
pub fn at_most_one_list_of_pieces()
    ensures { OneListOfPieces }
{}

/// The bytes of any table, of the Rust crate or a further one, have at most one list of structures.
pub fn at_most_one_list_of_structures()
    ensures { OneListOfStructures }
{}

/// The structures of a table of the Rust crate are its pieces. In a HEST this holds if the crate writes each of its error
/// sources.
pub fn structures_are_pieces()
    ensures others { StructuresArePieces }
    ensures sources { SourcesArePieces }
{}
