//! Laws about the definitions that the contracts use. Each function is a law: it does nothing, and its `ensures` states the law.

ghost use Rattle.acpi_read.specs.Laws.{SpelledTermsAreRead, DefinitionBlocksAreRead, BlocksMeanTheirParts};

/// If bytes spell terms that are nested at most `MAX_DEPTH` deep, `terms` returns these terms.
pub fn spelled_terms_are_read()
    ensures { SpelledTermsAreRead }
{}

/// For the content of a definition block, `terms` returns the terms of the objects that were added to it.
pub fn definition_blocks_are_read()
    ensures { DefinitionBlocksAreRead }
{}

/// AML of well-formed parts spells one list of terms. If whole rows over children that spell terms are added to a table of any
/// length, `terms` returns the terms of these rows for the bytes after it, and no other bytes give these terms.
pub fn blocks_mean_their_parts()
    ensures { BlocksMeanTheirParts }
{}
