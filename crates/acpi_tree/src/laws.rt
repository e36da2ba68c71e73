//! Laws of trees, which cost nothing when they run.

ghost use Rattle.acpi_tree.specs.Laws.{TreesAreWhole};

/// A law: each structure of a graph is in its tree exactly once in full.
pub fn trees_are_whole()
    ensures { TreesAreWhole }
{}
