//! Terms that are read as far as they can be.

ghost use Rattle.std.specs.Prelude.{◌≡◌, ◌≤◌, ◌<◌, ◌-◌, [], length, true, false, IfOk, IfSome, None};
ghost use Rattle.acpi_term.specs.Arity.{grammar_by};
ghost use Rattle.acpi_term.specs.declared.language.Language.TheVariants.{Standard};
ghost use Rattle.acpi_term.specs.Tree.{end, unread};
ghost use Rattle.acpi_term.specs.View.{view, views};
ghost use Rattle.acpi_read.specs.InPart.{first_and_terms, content, BeginNoFrame, BeginNoList, IsFrameOf, IsFrameAt, IsBranch};
ghost use Rattle.acpi_read.specs.InPart.{IsOneInPart, IsListInPart, AreReadInPart};
ghost use Rattle.acpi_read.specs.TermReader.{grammar};
ghost use Rattle.acpi_read.specs.TermStart.{seen, first_head, first_width};

use crate::terms::cause::Cause;
use crate::terms::open::{Block, FirstAndBlock, TermStart, open};
use crate::terms::{TermReader, term};
use acpi_term::language::Language;
use acpi_term::mode::Mode;
use acpi_term::name_string::Arities;
use acpi_term::read_error::ReadError;
use acpi_term::term::Term;
use std::alloc::{AllocError, Global};

// The bytes of a list from a term on that can't be read, and the bytes after them: none.
fn hole<'a>(
    alloc: Global,
    error: ReadError,
    bytes: &'a [u8],
) -> Result<(Term, &'a [u8]), AllocError>
    ensures term { IfOk result (λ x. view x.0 ≡ (unread error bytes.now, 0, end)) }
    ensures after { IfOk result (λ x. x.1.now ≡ []) }
{
    let after = &bytes[bytes.len()..];
    let bytes = Vec::from_slice(alloc, bytes)?;
    Ok((Term::Unread { error, bytes }, after))
}

/// The head of a frame with a list of terms, the bytes inside and the bytes after it.
#[derive(Drop)]
enum ListFrame<'a> {
    Terms(Block, &'a [u8], &'a [u8]),
    /// A frame with a first term before the list.
    FirstAndTerms(FirstAndBlock, &'a [u8], &'a [u8]),
    /// Another head.
    Other,
}

// Returns the frame of a head that was opened.
fn frame_of(opened: TermStart<'_>) -> ListFrame<'_>
    ensures { IsFrameOf (seen opened.entry) result }
{
    match opened {
        TermStart::Block(head, inside, after) => ListFrame::Terms(head, inside, after),
        TermStart::FirstAndBlock(FirstAndBlock::VarPackage(_), _, _) => ListFrame::Other,
        TermStart::FirstAndBlock(start, inside, after) => {
            ListFrame::FirstAndTerms(start, inside, after)
        }
        TermStart::Leaf(_, _) => ListFrame::Other,
        TermStart::Call(_, _, _) => ListFrame::Other,
        TermStart::Operator(_, _) => ListFrame::Other,
        TermStart::Region(_, _, _) => ListFrame::Other,
        TermStart::Define(_, _) => ListFrame::Other,
        TermStart::Fatal(_, _, _) => ListFrame::Other,
        TermStart::Test(_, _) => ListFrame::Other,
        TermStart::Package(_, _, _, _) => ListFrame::Other,
        TermStart::Rooms(_, _, _, _) => ListFrame::Other,
        TermStart::Buffer(_, _, _) => ListFrame::Other,
        TermStart::Bank(_, _, _) => ListFrame::Other,
    }
}

// Returns the frame with a list of terms that begins the bytes.
fn frame_at<'a>(reader: &TermReader, bytes: &'a [u8]) -> Result<ListFrame<'a>, AllocError>
    ensures { IfOk result (IsFrameAt (grammar reader.now) reader.now.depth bytes.now) }
{
    match open(reader.language, reader.arities, Mode::Term, bytes) {
        Ok(opened) => Ok(frame_of(opened)),
        Err(Cause::Memory) => Err(AllocError),
        Err(_) => Ok(ListFrame::Other),
    }
}

/// Reads a term with a list after a first child, if that child is read.
#[cycle(part)]
fn branch(
    reader: &TermReader,
    start: FirstAndBlock,
    inside: &[u8],
    end: usize,
) -> Result<Option<Term>, AllocError>
    requires within { length inside.now ≤ end }
    requires first { content (first_head start) ≡ first_and_terms }
    ensures some { IfOk result (λ x. IfSome x (λ t. IsBranch (grammar reader.now) reader.now.depth end (first_head start)
        (first_width start) inside.now (view t).0 (view t).1 (view t).2)) }
    ensures none { IfOk result (λ x. x ≡ None → BeginNoList (grammar reader.now) reader.now.depth (first_head start) inside.now) }
{
    let (first, rest) = match term(reader, Mode::Term, inside, end) {
        Ok(found) => found,
        Err(ReadError::Memory) => return Err(AllocError),
        Err(_) => return Ok(None),
    };
    let others = list(reader, rest, end)?;
    let first = Box::new(reader.arities.allocator(), first)?;
    Ok(Some(start.with(first, others)))
}

/// Reads a frame with a list of terms, if one begins the bytes, and returns the bytes after it.
#[cycle(part)]
fn frame<'a>(
    reader: &TermReader,
    bytes: &'a [u8],
    end: usize,
) -> Result<Option<(Term, &'a [u8])>, AllocError>
    requires { length bytes.now ≤ end }
    ensures some { IfOk result (λ x. IfSome x (λ f. IsOneInPart (grammar reader.now) reader.now.depth end bytes.now (view f.0).0
        (view f.0).1 (view f.0).2 f.1.now)) }
    ensures none { IfOk result (λ x. x ≡ None → BeginNoFrame (grammar reader.now) reader.now.depth bytes.now) }
{
    if reader.depth == 0 {
        return Ok(None);
    }
    match frame_at(reader, bytes)? {
        ListFrame::Terms(head, inside, after) => {
            let children = list(&reader.within(), inside, end - after.len())?;
            Ok(Some((head.with(children), after)))
        }
        ListFrame::FirstAndTerms(start, inside, after) => {
            match branch(&reader.within(), start, inside, end - after.len())? {
                Some(term) => Ok(Some((term, after))),
                None => Ok(None),
            }
        }
        ListFrame::Other => Ok(None),
    }
}

/// Reads one term as far as it can be, and returns the bytes after it. The bytes are the end of a list, which ends `end` bytes
/// after the first byte of all.
#[cycle(part)]
fn one<'a>(reader: &TermReader, bytes: &'a [u8], end: usize) -> Result<(Term, &'a [u8]), AllocError>
    requires some { 0 < length bytes.now }
    requires within { length bytes.now ≤ end }
    ensures { IfOk result (λ x. IsOneInPart (grammar reader.now) reader.now.depth end bytes.now (view x.0).0 (view x.0).1
        (view x.0).2 x.1.now) }
{
    let error = match term(reader, Mode::Term, bytes, end) {
        Ok(found) => return Ok(found),
        Err(ReadError::Memory) => return Err(AllocError),
        Err(error) => error,
    };
    match frame(reader, bytes, end)? {
        Some(found) => Ok(found),
        None => hole(reader.arities.allocator(), error, bytes),
    }
}

/// Reads all of the bytes as terms, each as far as it can be.
#[cycle(part)]
fn list(reader: &TermReader, bytes: &[u8], end: usize) -> Result<Vec<Term>, AllocError>
    requires { length bytes.now ≤ end }
    ensures { IfOk result (λ v. IsListInPart (grammar reader.now) reader.now.depth end false bytes.now (views v.items)) }
{
    let mut terms = Vec::new(reader.arities.allocator());
    let mut rest = bytes;
    'list: while !rest.is_empty() {
        let (term, after) = one(reader, rest, end)?;
        terms.push(term)?;
        rest = after;
    }
    Ok(terms)
}

/// The terms that the bytes spell in the language of the standard (ACPI 6.5, 20.2), as far as they can be read. A term that can't
/// be read is left as bytes, with all that is after it in its list: that is the end of the scope, the device, the method or the
/// like that it is in. The terms before it and after the list are read. Names take these numbers of arguments. Offsets count from
/// the first byte. Memory is taken from the allocator of `arities`.
pub fn terms_in_part(bytes: &[u8], arities: &Arities) -> Result<Vec<Term>, AllocError>
    ensures { IfOk result (λ v. AreReadInPart (grammar_by Standard arities.now) bytes.now (views v.items)) }
{
    let reader = TermReader::new(Language::Standard, arities);
    list(&reader, bytes, bytes.len())
}
