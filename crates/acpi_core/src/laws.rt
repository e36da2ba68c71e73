//! Laws about the definitions that the contracts use. Each function is a law: it does nothing, and its `ensures` states the law.

ghost use Rattle.acpi_core.specs.Laws.{ListingsAreTrue, ListingsGrow, StructuresStandAtOffsets, StructuresAreAddedAtTheEnd};
ghost use Rattle.acpi_core.specs.Laws.{StructuresStay, StructuresAreTheWalk, OffsetsDiffer, AdditionsAreLater, HandlesStand};
ghost use Rattle.acpi_core.specs.Laws.{HandlesDiffer};

/// A table of any structures contains its length at offset 4, and sums to zero.
pub fn listings_are_true()
    ensures { ListingsAreTrue }
{}

/// Adding a structure to a table makes the table with one structure more.
pub fn listings_grow()
    ensures { ListingsGrow }
{}

/// The bytes of a structure stand at its offset.
pub fn structures_stand_at_offsets()
    ensures { StructuresStandAtOffsets }
{}

/// A new structure begins where the table ended.
pub fn structures_are_added_at_the_end()
    ensures { StructuresAreAddedAtTheEnd }
{}

/// Structures keep their offsets and bytes when others are added.
pub fn structures_stay()
    ensures { StructuresStay }
{}

/// The structures of a table, in order, are the one list that its walk finds.
pub fn structures_are_the_walk()
    ensures { StructuresAreTheWalk }
{}

/// No two structures that have bytes have the same offset.
pub fn offsets_differ()
    ensures { OffsetsDiffer }
{}

/// Adding structures makes a later table.
pub fn additions_are_later()
    ensures { AdditionsAreLater }
{}

/// The structure of a handle stands at the handle's offset, in this table and after every later call.
pub fn handles_stand()
    ensures { HandlesStand }
{}

/// All handles of a table are different.
pub fn handles_differ()
    ensures { HandlesDiffer }
{}
