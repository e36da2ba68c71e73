//! Laws about the definitions that the contracts use. Each function is a law: it does nothing, and its `ensures` states the law.

ghost use Rattle.std.specs.Prelude.{List, [], ◌∷◌};
ghost use Rattle.acpi_base.specs.Object.{Object};
ghost use Rattle.acpi_ops.specs.Laws.{OperatorMeans, NegationMeans, SplitsInOneWay};
ghost use Rattle.acpi_ops.specs.Laws.{SearchesMean, FatalMeans, FieldsMean};
ghost use Rattle.acpi_ops.specs.Laws.{RoomyPackagesMean, LeveledMethodsMean, AllFieldListsMean};
ghost use Rattle.acpi_ops.specs.Laws.{DescriptorsAreItems, TemplatesSplit, DescriptorsAreBytes};
ghost use Rattle.acpi_term.specs.declared.op.Op.TheVariants as ops;

use crate::operator::Operator;

// ---- operators: if each operand spells a term, the operator spells its own term over these, in the order of its shape

pub use crate::derived::equal_values_are_the_same;

/// One operand: `Increment`, `Return` and the like.
#[tactic(auto, using(crate::proofs::Meanings::operator_means))]
pub fn single_means<O: Operator<1>>()
    ensures { (a : Object) → OperatorMeans O.OPERATOR (a ∷ []) }
{}

/// Two operands: the comparisons, `LAnd`, `LOr` and `Notify`.
#[tactic(auto, using(crate::proofs::Meanings::operator_means))]
pub fn pair_means<O: Operator<2>>()
    ensures { (left right : Object) → OperatorMeans O.OPERATOR (left ∷ right ∷ []) }
{}

/// An operand and a target: `Store`, `ToBuffer` and `ToInteger`.
#[tactic(auto, using(crate::proofs::Meanings::operator_means))]
pub fn put_means<O: Operator<2>>()
    ensures { (target a : Object) → OperatorMeans O.OPERATOR (a ∷ target ∷ []) }
{}

/// Two operands and a target: `Add` and the like.
#[tactic(auto, using(crate::proofs::Meanings::operator_means))]
pub fn targeted_means<O: Operator<3>>()
    ensures { (target a b : Object) → OperatorMeans O.OPERATOR (a ∷ b ∷ target ∷ []) }
{}

/// `Mid`.
#[tactic(auto, using(crate::proofs::Meanings::operator_means))]
pub fn part_means<O: Operator<4>>()
    ensures { (source index size result_to : Object) → OperatorMeans O.OPERATOR (source ∷ index ∷ size ∷ result_to ∷ []) }
{}

/// `CreateField`.
#[tactic(auto, using(crate::proofs::Meanings::operator_means))]
pub fn bits_mean<O: Operator<4>>()
    ensures { (name source bit_index bit_num : Object) → OperatorMeans O.OPERATOR (source ∷ bit_index ∷ bit_num ∷ name ∷ []) }
{}

/// `Break`, which has no operands.
#[tactic(auto, using(crate::proofs::Meanings::operator_means))]
pub fn break_means()
    ensures { OperatorMeans ops.Break [] }
{}

/// The negated comparisons: the negation of the comparison's term.
#[tactic(auto, using(crate::proofs::Meanings::negation_means))]
pub fn negation_means<O: Operator<2>>()
    ensures { (left right : Object) → NegationMeans O.OPERATOR (left ∷ right ∷ []) }
{}

// ---- what the language `Standard` alone has: if each child spells a term of its place, the object spells its own term over them

/// `Match` and `MatchTest`.
#[tactic(auto, using(crate::proofs::Standard::searches_mean))]
pub fn searches_mean()
    ensures { SearchesMean }
{}

/// `Fatal`.
#[tactic(auto, using(crate::proofs::Standard::fatal_means))]
pub fn fatal_means()
    ensures { FatalMeans }
{}

/// `IndexField` and `BankField`.
#[tactic(auto, using(crate::proofs::Standard::fields_mean))]
pub fn fields_mean()
    ensures { FieldsMean }
{}

/// `RoomyPackage`.
pub fn roomy_packages_mean()
    ensures { RoomyPackagesMean }
{}

/// `LeveledMethod`.
pub fn leveled_methods_mean()
    ensures { LeveledMethodsMean }
{}

/// `FieldList`, `IndexFieldList` and `BankFieldList`.
#[tactic(auto, using(crate::proofs::FieldLists::field_lists_mean))]
pub fn field_lists_mean()
    ensures { AllFieldListsMean }
{}

// ---- resource descriptors

/// Bytes split into resource items by their tags in at most one way.
#[tactic(auto, using(crate::proofs::Items::splits_in_one_way))]
pub fn items_split_in_one_way()
    ensures { SplitsInOneWay }
{}

/// Each descriptor that is written is one resource item.
#[tactic(auto, using(crate::proofs::Items::descriptors_are_items))]
pub fn descriptors_are_items()
    ensures { DescriptorsAreItems }
{}

/// The content of a resource template splits into its descriptors, each of them one item, and the end tag (ACPI 6.5, 6.4).
#[tactic(auto, using(crate::proofs::Templates::templates_split))]
pub fn templates_split()
    ensures { TemplatesSplit }
{}

/// Each descriptor is a list of bytes.
#[tactic(auto, using(crate::proofs::Bytes::descriptors_are_bytes))]
pub fn descriptors_are_bytes()
    ensures { DescriptorsAreBytes }
{}
