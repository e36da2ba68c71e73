//! Definition blocks, and what is shown of one.

ghost use Rattle.std.specs.Prelude.{◌≡◌, ◌+◌, ◌≤◌, length, drop, map, string_bytes, IfOk, IfErr, IfSome};
ghost use Rattle.acpi_term.specs.ReadError.{offset_of};
ghost use Rattle.acpi_term.specs.View.{views};
ghost use Rattle.acpi_terms_text.specs.Block.{AreNoTerms};
ghost use Rattle.acpi_terms_text.specs.Objects.{callee_by};
ghost use Rattle.acpi_asl.specs.Block.{begins_block, has_terms, block_text, IsBlockText, IsTextInPart};

use crate::asl::asl_of;
use crate::namespace::namespace_of;
use crate::objects::objects_of;
use acpi_term::name_string::Arities;
use acpi_term::read_error::ReadError;
use acpi_term::term::Term;
use acpi_terms_text::block::{block_terms, block_terms_in_part};
use acpi_terms_text::objects::Object;
use std::alloc::{AllocError, Global};

/// The offset of the terms of a definition block: they follow its header (ACPI 6.5, 5.2.11.1).
pub const BODY: usize = 36;

/// What is shown of a definition block.
#[derive(Clone, Copy, Debug)]
pub enum BlockText {
    /// Its ASL.
    Asl,
    /// The objects that it makes when it is loaded.
    Names,
    /// The same as JSON.
    Objects,
}

// Returns whether bytes begin with the signature of a definition block.
fn begins_block(bytes: &[u8]) -> bool
    ensures { result ≡ begins_block bytes.now }
{
    bytes.starts_with(b"DSDT")
        || bytes.starts_with(b"SSDT")
        || bytes.starts_with(b"PSDT")
        || bytes.starts_with(b"OSDT")
}

/// Returns whether terms follow the header of a table: its signature is DSDT, SSDT, PSDT or OSDT.
pub fn has_terms(bytes: &[u8]) -> bool
    ensures { result ≡ has_terms bytes.now }
{
    bytes.len() >= BODY && begins_block(bytes)
}

// Returns the text of a header and terms.
fn text_of_terms(
    alloc: Global,
    block: BlockText,
    header: &[u8],
    terms: &[Term],
) -> Result<String, AllocError>
    requires { 36 ≤ length header.now }
    ensures { IfOk result (λ text. string_bytes text ≡ block_text block header.now (views terms.now)) }
{
    match block {
        BlockText::Asl => asl_of(alloc, header, terms),
        BlockText::Names => namespace_of(alloc, terms),
        BlockText::Objects => objects_of(alloc, header, terms),
    }
}

// Returns the text of a header and the terms that follow it.
fn text_of_body(
    alloc: Global,
    block: BlockText,
    stated: &Arities,
    further: &[Object],
    header: &[u8],
    body: &[u8],
) -> Result<String, ReadError>
    requires size { 36 ≤ length header.now }
    requires terms { body.now ≡ drop 36 header.now }
    ensures ok { IfOk result (λ text. IsBlockText block stated.now (map callee_by further.now) header.now (string_bytes text)) }
    ensures err { IfErr result (AreNoTerms stated.now (map callee_by further.now) body.now) }
    ensures place { IfErr result (λ e. IfSome (offset_of e) (λ offset. offset ≤ length body.now)) }
{
    let terms = block_terms(alloc, body, stated, further)?;
    let text = text_of_terms(alloc, block, header, &terms)?;
    Ok(text)
}

/// Returns the text of a definition block. Its terms are read in the language of the standard. Names take the stated numbers of
/// arguments, or else those of the objects of the block and of further blocks: in a method those of the nearest ones (ACPI 6.5,
/// 5.3). The errors are those of `block_terms`, with offsets from the first byte after the header.
pub fn text_of_block(
    alloc: Global,
    block: BlockText,
    stated: &Arities,
    further: &[Object],
    bytes: &[u8],
) -> Result<String, ReadError>
    requires { 36 ≤ length bytes.now }
    ensures ok { IfOk result (λ text. IsBlockText block stated.now (map callee_by further.now) bytes.now (string_bytes text)) }
    ensures err { IfErr result (AreNoTerms stated.now (map callee_by further.now) (drop 36 bytes.now)) }
    ensures place { IfErr result (λ e. IfSome (offset_of e) (λ offset. 36 + offset ≤ length bytes.now)) }
{
    let (_, body) = bytes.split_at(BODY);
    text_of_body(alloc, block, stated, further, bytes, body)
}

/// Returns the text of a definition block of which not all can be read. A term that can't be read is shown as a comment, with its
/// bytes and all that follow them in their list, and with the cause; the other terms are shown as in `text_of_block`.
pub fn text_in_part(
    alloc: Global,
    block: BlockText,
    stated: &Arities,
    further: &[Object],
    bytes: &[u8],
) -> Result<String, AllocError>
    requires { 36 ≤ length bytes.now }
    ensures { IfOk result (λ text. IsTextInPart block stated.now (map callee_by further.now) bytes.now (string_bytes text)) }
{
    let (_, body) = bytes.split_at(BODY);
    let terms = block_terms_in_part(alloc, body, stated, further)?;
    text_of_terms(alloc, block, bytes, &terms)
}
