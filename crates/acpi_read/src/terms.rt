//! Reading terms of AML (ACPI 6.5, 20.2).

mod cause;
mod field;
mod frame;
pub mod in_part;
mod name;
mod open;
mod text;

ghost use Rattle.std.specs.Prelude.{◌≡◌, ◌+◌, ◌-◌, ◌<◌, ◌≤◌, ◌++◌, ◌∷◌, [], length, IfOk, OnOk, IfErr, Some, None};
ghost use Rattle.acpi_base.specs.Object.{IsOwnEnd};
ghost use Rattle.acpi_term.specs.Arity.{arity, grammar_by};
ghost use Rattle.acpi_term.specs.declared.language.Language.TheVariants.{Standard};
ghost use Rattle.acpi_term.specs.Operator.{operands};
ghost use Rattle.acpi_term.specs.Reading.{Bad, follows, fills, packs, rooms, roomed, begins, banks, banked};
ghost use Rattle.acpi_term.specs.Reading.{counted, all_of, close, term_at};
ghost use Rattle.acpi_term.specs.Tree.{call, def_op_region, def_name, def_package, def_roomy_package, op};
ghost use Rattle.acpi_term.specs.Tree.{def_fatal, match_test};
ghost use Rattle.acpi_term.specs.View.{view, views, single};
ghost use Rattle.acpi_read.specs.Cause.{Answers, Gives, IsPlaced, error_kind};
ghost use Rattle.acpi_read.specs.TermReader.{grammar, reads};
ghost use Rattle.acpi_read.specs.TermStart.{seen, block_head, block_width, first_head, first_width, LiesWithin, IsAlone};
ghost use Rattle.acpi_read.specs.Terms.{AreRead, IsUnread, AreReadIn, IsUnreadIn};

use crate::terms::cause::Cause;
use crate::terms::field::entries;
use crate::terms::open::{BankStart, Block, FirstAndBlock, TermStart, open};
use acpi_base::buffer::append;
use acpi_base::error::R;
use acpi_base::object::Aml;
use acpi_term::language::Language;
use acpi_term::mode::Mode;
use acpi_term::name_string::{Arities, NameString};
use acpi_term::op::Op;
use acpi_term::read_error::ReadError;
use acpi_term::term::{FieldNames, MAX_DEPTH, Term};
use std::alloc::Global;

/// How terms are read.
#[derive(Clone, Copy)]
struct TermReader<'a> {
    language: Language,
    /// How many arguments names take.
    arities: &'a Arities,
    /// How deep a term may be.
    depth: usize,
}

impl<'a> TermReader<'a> {
    // The reader of a list of terms.
    fn new(language: Language, arities: &'a Arities) -> TermReader<'a>
        ensures reads { reads result ≡ term_at (grammar_by language arities.now) MAX_DEPTH }
        ensures grammar { grammar result ≡ grammar_by language arities.now }
        ensures depth { result.depth ≡ MAX_DEPTH }
    {
        TermReader {
            language,
            arities,
            depth: MAX_DEPTH,
        }
    }

    // The reader of the terms within a term.
    fn within(&self) -> TermReader<'a>
        requires { 0 < self.now.depth }
        ensures { result ≡ record self.now { depth = self.now.depth - 1 } }
    {
        TermReader {
            language: self.language,
            arities: self.arities,
            depth: self.depth - 1,
        }
    }
}

/// Reads one term, and returns the bytes after it. The bytes end `end` bytes after the first byte of all.
#[cycle(read)]
#[tactic(auto, unfolding(acpi_term::specs::Reading::term_at))]
fn term<'a>(
    reader: &TermReader,
    mode: Mode,
    bytes: &'a [u8],
    end: usize,
) -> Result<(Term, &'a [u8]), ReadError>
    requires { length bytes.now ≤ end }
    ensures gives { Answers (λ x. ((view x.0).0, (view x.0).1, (view x.0).2, x.1.now)) result
        (reads reader.now mode bytes.now) }
    ensures shorter { IfOk result (λ x. length x.1.now < length bytes.now) }
    ensures placed { IfErr result (IsPlaced end) }
{
    let offset = end - bytes.len();
    if reader.depth == 0 {
        return Err(ReadError::TooDeep(offset));
    }
    match open(reader.language, reader.arities, mode, bytes) {
        Ok(opened) => close(&reader.within(), opened, offset, end),
        Err(cause) => Err(cause.at(offset)),
    }
}

/// Reads the children of a head that was opened at an offset, and returns the term. Each kind of term with
/// children has a separate function: Rattle clears all locals of a function on entry, so one large function would be slow.
#[cycle(read)]
#[tactic(auto, unfolding(acpi_term::specs::Reading::close, acpi_term::specs::Reading::counted))]
fn close<'a>(
    reader: &TermReader,
    opened: TermStart<'a>,
    offset: usize,
    end: usize,
) -> Result<(Term, &'a [u8]), ReadError>
    requires within { LiesWithin end (seen opened) }
    requires alone { IsAlone opened }
    requires place { offset ≤ end }
    ensures gives { Answers (λ x. ((view x.0).0, (view x.0).1, (view x.0).2, x.1.now)) result
        (close (reads reader.now) reader.now.language (seen opened.entry)) }
    ensures placed { IfErr result (IsPlaced end) }
{
    match opened {
        TermStart::Leaf(leaf, rest) => Ok((leaf, rest)),
        TermStart::Call(name, count, rest) => call(reader, name, count, rest, end),
        TermStart::Operator(op, rest) => operator(reader, op, rest, end),
        TermStart::Region(name, space, rest) => region(reader, name, space, rest, end),
        TermStart::Define(name, rest) => define(reader, name, rest, end),
        TermStart::Fatal(kind, code, rest) => fatal(reader, kind, code, rest, end),
        TermStart::Test(code, rest) => test(reader, code, rest, end),
        TermStart::Block(head, inside, after) => block(reader, head, inside, after, end),
        TermStart::FirstAndBlock(start, inside, after) => {
            if inside.is_empty() {
                return Err(ReadError::Truncated(offset));
            }
            first_and_block(reader, start, inside, after, end)
        }
        TermStart::Package(width, count, inside, after) => {
            package(reader, width, count, inside, after, offset, end)
        }
        TermStart::Rooms(width, room, inside, after) => roomy(
            reader, width, room, inside, after, offset, end,
        ),
        TermStart::Buffer(width, content, after) => { buffer(reader, width, content, after, end) }
        TermStart::Bank(start, inside, after) => {
            bank_field(reader, start, inside, after, offset, end)
        }
    }
}

/// Reads the arguments of a name.
#[cycle(read)]
#[tactic(auto, unfolding(acpi_term::specs::Reading::close, acpi_term::specs::Reading::counted))]
fn call<'a>(
    reader: &TermReader,
    name: NameString,
    count: u8,
    rest: &'a [u8],
    end: usize,
) -> Result<(Term, &'a [u8]), ReadError>
    requires within { length rest.now ≤ end }
    ensures gives { Answers (λ x. ((view x.0).0, (view x.0).1, (view x.0).2, x.1.now)) result
        (close (reads reader.now) reader.now.language (follows (call name) 0 count rest.now)) }
    ensures placed { IfErr result (IsPlaced end) }
{
    let (args, rest) = several(reader, Mode::Term, count, rest, end)?;
    Ok((Term::Call { name, args }, rest))
}

/// Reads the operands of an operator.
#[cycle(read)]
#[tactic(auto, unfolding(acpi_term::specs::Reading::close, acpi_term::specs::Reading::counted))]
fn operator<'a>(
    reader: &TermReader,
    code: Op,
    rest: &'a [u8],
    end: usize,
) -> Result<(Term, &'a [u8]), ReadError>
    requires within { length rest.now ≤ end }
    ensures gives { Answers (λ x. ((view x.0).0, (view x.0).1, (view x.0).2, x.1.now)) result
        (close (reads reader.now) reader.now.language (follows (op code) 0 (operands code) rest.now)) }
    ensures placed { IfErr result (IsPlaced end) }
{
    let (operands, rest) = several(
        reader,
        code.place(reader.language),
        code.operands(),
        rest,
        end,
    )?;
    Ok((Term::Op { op: code, operands }, rest))
}

/// Reads the offset and the length of a region.
#[cycle(read)]
#[tactic(auto, unfolding(acpi_term::specs::Reading::close, acpi_term::specs::Reading::counted))]
fn region<'a>(
    reader: &TermReader,
    name: NameString,
    space: u8,
    rest: &'a [u8],
    end: usize,
) -> Result<(Term, &'a [u8]), ReadError>
    requires within { length rest.now ≤ end }
    ensures gives { Answers (λ x. ((view x.0).0, (view x.0).1, (view x.0).2, x.1.now)) result
        (close (reads reader.now) reader.now.language (follows (def_op_region name space) 0 2 rest.now)) }
    ensures placed { IfErr result (IsPlaced end) }
{
    let alloc = reader.arities.allocator();
    let (offset, rest) = term(reader, Mode::Term, rest, end)?;
    let (length, rest) = term(reader, Mode::Term, rest, end)?;
    let offset = Box::new(alloc, offset)?;
    let length = Box::new(alloc, length)?;
    let region = Term::OpRegion {
        name,
        space,
        offset,
        length,
    };
    Ok((region, rest))
}

/// Reads the value of a name.
#[cycle(read)]
#[tactic(auto, unfolding(acpi_term::specs::Reading::close, acpi_term::specs::Reading::counted))]
fn define<'a>(
    reader: &TermReader,
    name: NameString,
    rest: &'a [u8],
    end: usize,
) -> Result<(Term, &'a [u8]), ReadError>
    requires within { length rest.now ≤ end }
    ensures gives { Answers (λ x. ((view x.0).0, (view x.0).1, (view x.0).2, x.1.now)) result
        (close (reads reader.now) reader.now.language (follows (def_name name) 0 1 rest.now)) }
    ensures placed { IfErr result (IsPlaced end) }
{
    let (value, rest) = term(reader, Mode::Term, rest, end)?;
    let value = Box::new(reader.arities.allocator(), value)?;
    Ok((Term::Name { name, value }, rest))
}

/// Reads the argument of a Fatal.
#[cycle(read)]
#[tactic(auto, unfolding(acpi_term::specs::Reading::close, acpi_term::specs::Reading::counted))]
fn fatal<'a>(
    reader: &TermReader,
    kind: u8,
    code: u32,
    rest: &'a [u8],
    end: usize,
) -> Result<(Term, &'a [u8]), ReadError>
    requires within { length rest.now ≤ end }
    ensures gives { Answers (λ x. ((view x.0).0, (view x.0).1, (view x.0).2, x.1.now)) result
        (close (reads reader.now) reader.now.language (follows (def_fatal kind code) 0 1 rest.now)) }
    ensures placed { IfErr result (IsPlaced end) }
{
    let (argument, rest) = term(reader, Mode::Term, rest, end)?;
    let argument = Box::new(reader.arities.allocator(), argument)?;
    Ok((
        Term::Fatal {
            kind,
            code,
            argument,
        },
        rest,
    ))
}

/// Reads the operand of a test of a Match.
#[cycle(read)]
#[tactic(auto, unfolding(acpi_term::specs::Reading::close, acpi_term::specs::Reading::counted))]
fn test<'a>(
    reader: &TermReader,
    code: u8,
    rest: &'a [u8],
    end: usize,
) -> Result<(Term, &'a [u8]), ReadError>
    requires within { length rest.now ≤ end }
    ensures gives { Answers (λ x. ((view x.0).0, (view x.0).1, (view x.0).2, x.1.now)) result
        (close (reads reader.now) reader.now.language (follows (match_test code) 0 1 rest.now)) }
    ensures placed { IfErr result (IsPlaced end) }
{
    let (operand, rest) = term(reader, Mode::Term, rest, end)?;
    let operand = Box::new(reader.arities.allocator(), operand)?;
    Ok((Term::MatchTest { code, operand }, rest))
}

/// Reads the children of a frame.
#[cycle(read)]
#[tactic(auto, unfolding(acpi_term::specs::Reading::close, acpi_term::specs::Reading::counted))]
fn block<'a>(
    reader: &TermReader,
    head: Block,
    inside: &[u8],
    after: &'a [u8],
    end: usize,
) -> Result<(Term, &'a [u8]), ReadError>
    requires within { length inside.now + length after.now ≤ end }
    ensures gives { Answers (λ x. ((view x.0).0, (view x.0).1, (view x.0).2, x.1.now)) result
        (close (reads reader.now) reader.now.language
        (fills (block_head head) (block_width head) inside.now after.now)) }
    ensures placed { IfErr result (IsPlaced end) }
{
    let children = all(reader, Mode::Term, inside, end - after.len())?;
    Ok((head.with(children), after))
}

/// Reads the first child of a frame, which is kept apart, and the others.
#[cycle(read)]
#[tactic(auto, unfolding(acpi_term::specs::Reading::close, acpi_term::specs::Reading::counted))]
fn first_and_block<'a>(
    reader: &TermReader,
    start: FirstAndBlock,
    inside: &[u8],
    after: &'a [u8],
    end: usize,
) -> Result<(Term, &'a [u8]), ReadError>
    requires within { length inside.now + length after.now ≤ end }
    requires some { 0 < length inside.now }
    ensures gives { Answers (λ x. ((view x.0).0, (view x.0).1, (view x.0).2, x.1.now)) result
        (close (reads reader.now) reader.now.language
        (fills (first_head start) (first_width start) inside.now after.now)) }
    ensures placed { IfErr result (IsPlaced end) }
{
    let end = end - after.len();
    let mode = start.mode();
    let (first, rest) = term(reader, mode, inside, end)?;
    let others = all(reader, mode.next(), rest, end)?;
    let first = Box::new(reader.arities.allocator(), first)?;
    Ok((start.with(first, others), after))
}

/// Reads the elements of a package.
#[cycle(read)]
#[tactic(auto, unfolding(acpi_term::specs::Reading::close, acpi_term::specs::Reading::counted))]
fn package<'a>(
    reader: &TermReader,
    width: u8,
    count: u8,
    inside: &[u8],
    after: &'a [u8],
    offset: usize,
    end: usize,
) -> Result<(Term, &'a [u8]), ReadError>
    requires within { length inside.now + length after.now ≤ end }
    requires place { offset ≤ end }
    ensures gives { Answers (λ x. ((view x.0).0, (view x.0).1, (view x.0).2, x.1.now)) result
        (close (reads reader.now) reader.now.language (packs width count inside.now after.now)) }
    ensures placed { IfErr result (IsPlaced end) }
{
    let end = end - after.len();
    let (elements, rest) = several(reader, Mode::Element, count, inside, end)?;
    if !rest.is_empty() {
        return Err(ReadError::Count(offset));
    }
    Ok((Term::Package { width, elements }, after))
}

fn exact(width: u8, elements: Vec<Term>) -> Term
    ensures { view result ≡ (def_package, width, views elements.items) }
{
    Term::Package { width, elements }
}

fn with_room(width: u8, room: u8, elements: Vec<Term>) -> Term
    ensures { view result ≡ (def_roomy_package room, width, views elements.items) }
{
    Term::RoomyPackage {
        width,
        room,
        elements,
    }
}

// A package with room for this many elements.
#[tactic(auto, using(crate::proofs::Closings::roomed_full, crate::proofs::Closings::roomed_less, crate::proofs::Closings::roomed_more,))]
fn roomed<'a>(
    width: u8,
    room: u8,
    elements: Vec<Term>,
    after: &'a [u8],
    offset: usize,
) -> Result<(Term, &'a [u8]), ReadError>
    ensures gives { Answers (λ x. ((view x.0).0, (view x.0).1, (view x.0).2, x.1.now)) result
        (roomed width room (views elements.items) after.now) }
    ensures placed { IfErr result (IsPlaced offset) }
{
    let count = elements.len();
    if count == usize::from(room) {
        return Ok((exact(width, elements), after));
    }
    if count > usize::from(room) {
        return Err(ReadError::Count(offset));
    }
    Ok((with_room(width, room, elements), after))
}

/// Reads all elements of a package that may have room for more.
#[cycle(read)]
#[tactic(auto, unfolding(acpi_term::specs::Reading::close, acpi_term::specs::Reading::counted))]
fn roomy<'a>(
    reader: &TermReader,
    width: u8,
    room: u8,
    inside: &[u8],
    after: &'a [u8],
    offset: usize,
    end: usize,
) -> Result<(Term, &'a [u8]), ReadError>
    requires within { length inside.now + length after.now ≤ end }
    requires place { offset ≤ end }
    ensures gives { Answers (λ x. ((view x.0).0, (view x.0).1, (view x.0).2, x.1.now)) result
        (close (reads reader.now) reader.now.language (rooms width room inside.now after.now)) }
    ensures placed { IfErr result (IsPlaced end) }
{
    let elements = all(reader, Mode::Element, inside, end - after.len())?;
    roomed(width, room, elements, after, offset)
}

/// Reads a buffer's size and its bytes.
#[cycle(read)]
#[tactic(auto, unfolding(acpi_term::specs::Reading::close, acpi_term::specs::Reading::counted))]
fn buffer<'a>(
    reader: &TermReader,
    width: u8,
    content: &[u8],
    after: &'a [u8],
    end: usize,
) -> Result<(Term, &'a [u8]), ReadError>
    requires within { length content.now + length after.now ≤ end }
    ensures gives { Answers (λ x. ((view x.0).0, (view x.0).1, (view x.0).2, x.1.now)) result
        (close (reads reader.now) reader.now.language (begins width content.now after.now)) }
    ensures placed { IfErr result (IsPlaced end) }
{
    let alloc = reader.arities.allocator();
    let (size, bytes) = term(reader, Mode::Term, content, end - after.len())?;
    let bytes = Vec::from_slice(alloc, bytes)?;
    let size = Box::new(alloc, size)?;
    Ok((Term::Buffer { width, size, bytes }, after))
}

// A BankField over its value, from the bytes after the value.
#[tactic(auto, unfolding(acpi_term::specs::Reading::banked))]
fn banked<'a>(
    alloc: Global,
    start: BankStart,
    value: Box<Term>,
    bytes: &[u8],
    after: &'a [u8],
) -> Result<(Term, &'a [u8]), Cause>
    ensures { Gives (λ x. ((view x.0).0, (view x.0).1, (view x.0).2, x.1.now)) result
        (banked start.width start.name start.bank (single (view value.value)) bytes.now after.now) }
{
    let Some((flags, rest)) = bytes.split_first() else {
        return Err(Cause::Truncated);
    };
    let flags = *flags;
    if flags % 16 >= 6 {
        return Err(Cause::Flags);
    }
    if flags >= 96 {
        return Err(Cause::Flags);
    }
    let entries = entries(Language::Standard, alloc, rest)?;
    let names = FieldNames {
        name: start.name,
        selector: start.bank,
    };
    Ok((
        Term::BankField {
            width: start.width,
            access: flags % 16,
            lock: flags / 16 % 2,
            update: flags / 32,
            names: Box::new(alloc, names)?,
            value,
            entries,
        },
        after,
    ))
}

/// Reads the value and the entries of a BankField.
#[cycle(read)]
#[tactic(auto, unfolding(acpi_term::specs::Reading::close, acpi_term::specs::Reading::counted))]
fn bank_field<'a>(
    reader: &TermReader,
    start: BankStart,
    inside: &[u8],
    after: &'a [u8],
    offset: usize,
    end: usize,
) -> Result<(Term, &'a [u8]), ReadError>
    requires within { length inside.now + length after.now ≤ end }
    requires place { offset ≤ end }
    ensures gives { Answers (λ x. ((view x.0).0, (view x.0).1, (view x.0).2, x.1.now)) result
        (close (reads reader.now) reader.now.language (banks start.width start.name start.bank inside.now after.now)) }
    ensures placed { IfErr result (IsPlaced end) }
{
    let alloc = reader.arities.allocator();
    let (value, rest) = term(reader, Mode::Term, inside, end - after.len())?;
    let value = Box::new(alloc, value)?;
    match banked(alloc, start, value, rest, after) {
        Ok(field) => Ok(field),
        Err(cause) => Err(cause.at(offset)),
    }
}

/// The error for bytes that end before a counted term: `Count` for an element of a package, `Truncated` otherwise.
fn missing(mode: Mode, end: usize) -> ReadError
    ensures kind { error_kind result ≡ Some Bad }
    ensures placed { IsPlaced end result }
{
    match mode {
        Mode::Element => ReadError::Count(end),
        _ => ReadError::Truncated(end),
    }
}

/// Reads this many terms, and returns the bytes after them.
#[cycle(read)]
fn several<'a>(
    reader: &TermReader,
    mode: Mode,
    count: u8,
    bytes: &'a [u8],
    end: usize,
) -> Result<(Vec<Term>, &'a [u8]), ReadError>
    requires { length bytes.now ≤ end }
    ensures gives { Answers (λ x. (views x.0.items, x.1.now)) result
        (counted (reads reader.now) count mode bytes.now) }
    ensures placed { IfErr result (IsPlaced end) }
{
    let room = bytes.len().min(usize::from(count));
    let mut terms = Vec::with_capacity(reader.arities.allocator(), room)?;
    let mut rest = bytes;
    let mut at = mode;
    'several: for _ in 0..count {
        if rest.is_empty() && reader.depth > 0 {
            return Err(missing(mode, end));
        }
        let (term, after) = term(reader, at, rest, end)?;
        terms.push(term)?;
        rest = after;
        at = at.next();
    }
    Ok((terms, rest))
}

// Adds a term. The last one asks for room for itself only: most lists of terms are short.
fn keep(terms: &mut Vec<Term>, term: Term, is_last: bool) -> Result<(), ReadError>
    ensures items { OnOk result (terms.new.items ≡ terms.old.items ++ term ∷ []) }
    ensures err { IfErr result (λ e. e ≡ ReadError.Memory) }
{
    if is_last {
        terms.reserve_exact(1)?;
    }
    terms.push(term)?;
    Ok(())
}

/// Reads all of the bytes as terms.
#[cycle(read)]
fn all(reader: &TermReader, mode: Mode, bytes: &[u8], end: usize) -> Result<Vec<Term>, ReadError>
    requires { length bytes.now ≤ end }
    ensures gives { Answers (λ v. views v.items) result
        (all_of (reads reader.now) (length bytes.now) mode bytes.now) }
    ensures placed { IfErr result (IsPlaced end) }
{
    let mut terms = Vec::new(reader.arities.allocator());
    let mut rest = bytes;
    let mut at = mode;
    'all: while !rest.is_empty() {
        let (term, after) = term(reader, at, rest, end)?;
        keep(&mut terms, term, after.is_empty())?;
        rest = after;
        at = at.next();
    }
    terms.shrink_to_fit();
    Ok(terms)
}

/// The list of terms that the bytes spell (ACPI 6.5, 20.2), if names take these numbers of arguments. There is at most one such
/// list. The error is `TooDeep` if the terms are nested deeper than `MAX_DEPTH`, and another if the bytes spell no terms. Offsets
/// count from the first byte; a fault inside a term has the offset of this term. Memory is taken from the allocator of `arities`.
pub fn terms(bytes: &[u8], arities: &Arities) -> Result<Vec<Term>, ReadError>
    ensures ok { IfOk result (λ v. AreRead (arity arities.now) bytes.now (views v.items)) }
    ensures err { IfErr result (IsUnread (arity arities.now) bytes.now) }
{
    let reader = TermReader::new(Language::Written, arities);
    all(&reader, Mode::Term, bytes, bytes.len())
}

/// The same in the language of the standard, with all terms and names that these definitions have.
pub fn standard_terms(bytes: &[u8], arities: &Arities) -> Result<Vec<Term>, ReadError>
    ensures ok { IfOk result (λ v. AreReadIn (grammar_by Standard arities.now) bytes.now (views v.items)) }
    ensures err { IfErr result (IsUnreadIn (grammar_by Standard arities.now) bytes.now) }
{
    let reader = TermReader::new(Language::Standard, arities);
    all(&reader, Mode::Term, bytes, bytes.len())
}

/// The list of terms that an object writes. The error is the object's own, or that of `terms`.
pub fn terms_of(aml: &dyn Aml, arities: &Arities) -> R<Result<Vec<Term>, ReadError>>
    ensures whole { OnOk result ((object aml.now).end ≡ None) }
    ensures read { IfOk result (λ answer. IfOk answer (λ v. AreRead (arity arities.now) (object aml.now).front (views v.items))) }
    ensures unread { IfOk result (λ answer. IfErr answer (IsUnread (arity arities.now) (object aml.now).front)) }
    ensures err { IfErr result (λ e. IsOwnEnd e (object aml.now)) }
{
    let mut bytes = Vec::new(arities.allocator());
    append(aml, &mut bytes)?;
    Ok(terms(&bytes, arities))
}
