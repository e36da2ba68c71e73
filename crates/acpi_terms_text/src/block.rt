//! The terms of a definition block (ACPI 6.5, 5.2.11 and 5.3).

ghost use Rattle.std.specs.Prelude.{◌≤◌, length, map, IfOk, IfErr, IfSome};
ghost use Rattle.acpi_term.specs.ReadError.{offset_of};
ghost use Rattle.acpi_term.specs.View.{views};
ghost use Rattle.acpi_terms_text.specs.Block.{AreBlockTerms, AreBlockTermsInPart, AreNoTerms};
ghost use Rattle.acpi_terms_text.specs.Objects.{callee_by};

use crate::objects::{Object, all_callees, first_numbers, own_numbers};
use crate::scoped::{Sought, any, in_scopes};
use acpi_read::terms::in_part::terms_in_part;
use acpi_read::terms::standard_terms;
use acpi_term::name_string::Arities;
use acpi_term::read_error::ReadError;
use acpi_term::term::Term;
use std::alloc::{AllocError, Global};

/// Returns the terms of a definition block in the language of the standard. `bytes` are its terms, without the header. Names take
/// the stated numbers of arguments, or else those of the objects of the block and of further blocks: in a method those of the
/// nearest ones. The errors are those of `standard_terms`.
pub fn block_terms(
    alloc: Global,
    bytes: &[u8],
    stated: &Arities,
    further: &[Object],
) -> Result<Vec<Term>, ReadError>
    ensures ok { IfOk result (λ v. AreBlockTerms stated.now (map callee_by further.now) bytes.now (views v.items)) }
    ensures err { IfErr result (AreNoTerms stated.now (map callee_by further.now) bytes.now) }
    ensures place { IfErr result (λ e. IfSome (offset_of e) (λ offset. offset ≤ length bytes.now)) }
{
    let objects = {
        let first = first_numbers(alloc, stated)?;
        let terms = terms_in_part(bytes, &first)?;
        let objects = all_callees(alloc, &terms, further)?;
        // No method takes arguments, so these are the numbers of the whole block.
        if objects.is_empty() && !any(Sought::Unread, &terms) {
            return Ok(terms);
        }
        objects
    };
    let own = own_numbers(alloc, stated, &objects)?;
    let whole = standard_terms(bytes, &own)?;
    Ok(in_scopes(alloc, stated, further, &own, whole)?)
}

/// The same, as far as the terms can be read.
pub fn block_terms_in_part(
    alloc: Global,
    bytes: &[u8],
    stated: &Arities,
    further: &[Object],
) -> Result<Vec<Term>, AllocError>
    ensures { IfOk result (λ v. AreBlockTermsInPart stated.now (map callee_by further.now) bytes.now (views v.items)) }
{
    let objects = {
        let first = first_numbers(alloc, stated)?;
        let terms = terms_in_part(bytes, &first)?;
        let objects = all_callees(alloc, &terms, further)?;
        if objects.is_empty() {
            return Ok(terms);
        }
        objects
    };
    let own = own_numbers(alloc, stated, &objects)?;
    let whole = terms_in_part(bytes, &own)?;
    in_scopes(alloc, stated, further, &own, whole)
}
