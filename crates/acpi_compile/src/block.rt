//! Definition blocks.

ghost use Rattle.std.specs.Prelude.{◌≡◌, ◌≤◌, true, length, OnOk, IfOk};
ghost use Rattle.acpi_base.specs.Table.{IsTrueTable};
ghost use Rattle.acpi_asl.specs.Block.{has_terms};
ghost use Rattle.acpi_compile.specs.Alike.{alike};
ghost use Rattle.acpi_compile.specs.Compiled.{IsKeptOf, after_note, IsShownAs, IsCompiled, is_asl};

use crate::alike::alike;
use crate::argument::{dword_at, string_at};
use crate::builder::{MAX_LISTS, nodes_of};
use crate::called::fault_or_call;
use crate::doubt::doubts;
use crate::fault::{AslError, AslFault, Why, fault, unwritten};
use crate::node::{Node, list_of, word_node};
use crate::note::after;
use crate::number::decimal;
use crate::squeeze::{begins_note, ends_in_comment, has_block, squeezed, word_at, word_len};
use crate::start::Context;
use crate::stated::{first_use, last, stated};
use crate::term::statements;
use crate::word::is_among;
use acpi_asl::block::{BlockText, has_terms, text_in_part, text_of_block};
use acpi_base::sdt::Sdt;
use acpi_base::slice::from_offset;
use acpi_read::table::Table;
use acpi_term::name_string::Arities;
use acpi_term::read_error::ReadError;
use acpi_term::spell::spell;
use std::alloc::{AllocError, Global};

// The bytes of a string, and zeros after them.
fn padded<const N: usize>(alloc: Global, node: &Node<'_>) -> Result<[u8; N], AslError> {
    let bytes = string_at(alloc, node)?;
    if bytes.len() > N {
        return Err(fault(node.at, Why::Text));
    }
    let mut padded = [0; N];
    'bytes: for (place, byte) in padded.iter_mut().zip(bytes.iter()) {
        *place = *byte;
    }
    Ok(padded)
}

// The characters of a note between its front and its end.
fn inside<'a>(note: &'a [u8], front: &[u8], end: &[u8]) -> Option<&'a [u8]> {
    if !note.starts_with(front) || !note.ends_with(end) {
        return None;
    }
    note.get(front.len()..note.len().saturating_sub(end.len()))
}

// The id and the revision of the program that made the table, by the note before a DefinitionBlock.
fn creator(alloc: Global, node: &Node<'_>) -> Result<Option<[u8; 8]>, AslError> {
    if node.note.is_empty() {
        return Ok(None);
    }
    let at = node.start();
    let Some(inside) = inside(node.note, b"/*= Creator ", b" */") else {
        return Err(fault(at, Why::Note));
    };
    let [id @ .., b',', b' ', _, _, _, _, _, _, _, _, _, _] = inside else {
        return Err(fault(at, Why::Note));
    };
    let [a, b, c, d] = padded::<4>(alloc, &word_node(at, &[], id))?;
    let Some(revision) = inside.get(id.len() + 2..) else {
        return Err(fault(at, Why::Note));
    };
    let revision = dword_at(&word_node(at, &[], revision))?;
    let [e, f, g, h] = revision.to_le_bytes();
    Ok(Some([a, b, c, d, e, f, g, h]))
}

// The signature of a definition block.
fn signature_of(alloc: Global, node: &Node<'_>) -> Result<[u8; 4], AslError> {
    let signature = padded(alloc, node)?;
    if is_among(&signature, &[b"DSDT", b"SSDT", b"PSDT", b"OSDT"]) {
        Ok(signature)
    } else {
        Err(fault(node.at, Why::Signature))
    }
}

// The table of a DefinitionBlock's arguments, without its terms.
fn header(alloc: Global, node: &Node<'_>) -> Result<Sdt, AslError> {
    let [file, signature, revision, oem, table, oem_revision] = list_of(&node.arguments) else {
        return Err(fault(node.at, Why::Arguments));
    };
    if file.word.starts_with(b"\"") && file.word != b"\"\"".as_slice() {
        return Err(fault(file.at, Why::FileName));
    }
    let Some(number) = decimal(revision.word) else {
        return Err(fault(revision.at, Why::Count));
    };
    let Ok(number) = u8::try_from(number) else {
        return Err(fault(revision.at, Why::Count));
    };
    let oem_number = dword_at(oem_revision)?;
    let signature = signature_of(alloc, signature)?;
    let oem = padded(alloc, oem)?;
    let table = padded(alloc, table)?;
    match Sdt::new(alloc, signature, 36, number, oem, table, oem_number) {
        Ok(table) => Ok(table),
        Err(error) => Err(unwritten(node.at, error)),
    }
}

// The definition block of a node, whose terms are made after its header.
fn block_of(alloc: Global, node: &Node<'_>) -> Result<Sdt, AslError> {
    let mut table = header(alloc, node)?;
    if let Some(creator) = creator(alloc, node)? {
        set_creator(&mut table, creator);
    }
    let list = statements(&Context::new(alloc)?, MAX_LISTS, list_of(&node.body))?;
    let bytes = match spell(alloc, &list.terms) {
        Ok(bytes) => bytes,
        Err(error) => return Err(unwritten(node.at, error)),
    };
    match table.append_slice(&bytes) {
        Ok(()) => Ok(table),
        Err(error) => Err(unwritten(node.at, error)),
    }
}

// Sets the program that made a table, and its revision.
fn set_creator(table: &mut Sdt, creator: [u8; 8]) {
    if table.len() >= 36 {
        table.write_bytes(28, &creator);
    }
}

// The number of bytes at the front that are the same.
fn same(a: &[u8], b: &[u8]) -> usize {
    a.iter().zip(b.iter()).take_while(|(x, y)| x == y).count()
}

// What follows the note on the program that made the table.
#[cycle(note)]
fn after_note(kept: &[u8]) -> &[u8]
    ensures { result.now ≡ after_note kept.now }
{
    match kept {
        [b'*', b'/', rest @ ..] => rest,
        [_, rest @ ..] => after_note(rest),
        [] => &[],
    }
}

// The ASL of a block, in which names take these numbers of arguments, without what a compiler skips.
fn shown(
    alloc: Global,
    kept: &[u8],
    node: &Node<'_>,
    called: &Arities,
    block: &[u8],
) -> Result<Vec<u8>, AslError>
    requires { 36 ≤ length block.now }
    ensures { IfOk result (λ text. IsKeptOf called.now block.now text.items) }
{
    match text_of_block(alloc, BlockText::Asl, called, &[], block) {
        Ok(text) => Ok(squeezed(alloc, text.as_bytes())?),
        Err(ReadError::Memory) => Err(AslError::Memory),
        Err(error) => Err(unreadable(alloc, kept, node, called, block, error)?),
    }
}

// The fault of a block of which not all can be read: its first difference from the text. There the ASL of what can be read may
// have the note on bytes that can't.
fn unreadable(
    alloc: Global,
    kept: &[u8],
    node: &Node<'_>,
    called: &Arities,
    block: &[u8],
    error: ReadError,
) -> Result<AslError, AslError>
    requires { 36 ≤ length block.now }
{
    let text = text_in_part(alloc, BlockText::Asl, called, &[], block)?;
    let squeezed = squeezed(alloc, text.as_bytes())?;
    let shown = noted_as(&squeezed, kept);
    let difference = difference(alloc, shown, kept)?;
    if !from_offset(difference.shown, shown).starts_with(b"/*= not read") {
        return unlike(alloc, shown, kept, node);
    }
    let at = past_space(kept, difference.kept);
    match error {
        ReadError::TooDeep(_) => Ok(fault(at, Why::TooDeep)),
        _ => Ok(fault(at, Why::Unreadable)),
    }
}

// The ASL of a block, with the note on the program that made it only if the text has one.
fn noted_as<'a>(shown: &'a [u8], kept: &[u8]) -> &'a [u8] {
    if begins_note(kept) {
        shown
    } else {
        after_note(shown)
    }
}

// The place of the word, the string or the note in which a character is.
fn word_start(kept: &[u8], at: usize) -> usize {
    let mut start: usize = 0;
    'words: for _ in 0..kept.len() {
        let next = start.saturating_add(word_len(from_offset(start, kept)));
        if next > at {
            break;
        }
        start = next;
    }
    start
}

// The place of the last word, string or note of a text. After it stands a comment without an end.
fn last_word(kept: &[u8]) -> usize {
    word_start(kept, kept.len().saturating_sub(1))
}

// The place of the first word, string or note that isn't the same.
fn place_of(shown: &[u8], kept: &[u8]) -> usize {
    let at = same(shown, kept);
    word_start(shown, at).min(word_start(kept, at))
}

// The place of a character in a text, by its place in what counts of the text.
fn place_in(text: &[u8], counted: &[u8], place: usize) -> usize {
    let mut next: usize = 0;
    'characters: for (at, c) in text.iter().enumerate() {
        match counted.get(next) {
            Some(d) if d.to_ascii_lowercase() == c.to_ascii_lowercase() && next == place => {
                return at;
            }
            Some(d) if d.to_ascii_lowercase() == c.to_ascii_lowercase() => {
                next = next.saturating_add(1);
            }
            // A space in place of parentheses.
            Some(b' ') if *c == b')' => next = next.saturating_add(1),
            _ => {}
        }
    }
    text.len()
}

// Where the ASL of a block and a text begin to differ in what counts.
#[derive(Clone, Copy)]
struct Places {
    shown: usize,
    kept: usize,
}

fn difference(alloc: Global, shown: &[u8], kept: &[u8]) -> Result<Places, AllocError> {
    let (one, other) = (alike(alloc, shown)?, alike(alloc, kept)?);
    let place = place_of(&one, &other);
    Ok(Places {
        shown: place_in(shown, &one, place),
        kept: place_in(kept, &other, place),
    })
}

// The place after a space, if one stands there.
fn past_space(kept: &[u8], at: usize) -> usize {
    match kept.get(at) {
        Some(b' ') => at.saturating_add(1),
        _ => at,
    }
}

// The statement for a name of which the block has no object, up to this name.
const ABSENT: &[u8] = b"/*= Absent */External(";

// The name in the last of these statements that begins at a place or before it, if the place is within this statement.
fn absent_at(shown: &[u8], at: usize) -> &[u8] {
    let mut name: &[u8] = &[];
    'characters: for start in 0..shown.len() {
        if start > at {
            break;
        }
        let rest = from_offset(start, shown);
        if let Some(rest) = after(rest, ABSENT) {
            name = word_at(0, rest);
        } else if rest.starts_with(b")") {
            name = &[];
        }
    }
    name
}

// Whether a text has this statement for a name.
fn has_absent(kept: &[u8], name: &[u8]) -> bool {
    'characters: for start in 0..kept.len() {
        if let Some(rest) = after(from_offset(start, kept), ABSENT) {
            if word_at(0, rest) == name {
                return true;
            }
        }
    }
    false
}

// The fault of a text at its first word that the ASL of the block doesn't have. A name that the text doesn't declare is reported
// where the text uses it.
fn unlike(alloc: Global, shown: &[u8], kept: &[u8], node: &Node<'_>) -> Result<AslError, AslError> {
    let difference = difference(alloc, shown, kept)?;
    let at = difference.kept;
    let name = absent_at(shown, difference.shown);
    if !name.is_empty() && !has_absent(kept, name) {
        let used = first_use(MAX_LISTS, at, last(name), list_of(&node.body));
        let why = Why::Undeclared(Vec::from_slice(alloc, name)?);
        return Ok(fault(used.unwrap_or(at), why));
    }
    let word = Vec::from_slice(alloc, word_at(past_space(shown, difference.shown), shown))?;
    Ok(fault(past_space(kept, at), Why::Otherwise(word)))
}

// Whether two texts differ in nothing that counts.
fn are_alike(alloc: Global, one: &[u8], other: &[u8]) -> Result<bool, AllocError>
    ensures { IfOk result (λ same. same ≡ true → alike one.now ≡ alike other.now) }
{
    if one == other {
        return Ok(true);
    }
    Ok(alike(alloc, one)? == alike(alloc, other)?)
}

// Refuses a block whose ASL is another text, at the first word that differs.
fn check(
    alloc: Global,
    kept: &[u8],
    node: &Node<'_>,
    called: &Arities,
    block: &[u8],
) -> Result<(), AslError>
    requires { 36 ≤ length block.now }
    ensures table { OnOk result (IsTrueTable block.now) }
    ensures terms { OnOk result (has_terms block.now ≡ true) }
    ensures shown { OnOk result (IsShownAs called.now block.now kept.now) }
{
    if !has_terms(block) || Table::check(block).is_err() {
        return Err(fault(node.at, Why::Block));
    }
    let shown = shown(alloc, kept, node, called, block)?;
    if are_alike(alloc, kept, &shown)? {
        return Ok(());
    }
    if are_alike(alloc, kept, after_note(&shown))? {
        return Ok(());
    }
    Err(unlike(alloc, noted_as(&shown, kept), kept, node)?)
}

// The same. If a call before that word has another number of arguments than its method takes, it is the fault.
fn check_text(
    alloc: Global,
    kept: &[u8],
    node: &Node<'_>,
    called: &Arities,
    block: &[u8],
) -> Result<(), AslError>
    requires { 36 ≤ length block.now }
    ensures table { OnOk result (IsTrueTable block.now) }
    ensures terms { OnOk result (has_terms block.now ≡ true) }
    ensures shown { OnOk result (IsShownAs called.now block.now kept.now) }
{
    match check(alloc, kept, node, called, block) {
        Ok(()) => Ok(()),
        Err(error) => Err(fault_or_call(alloc, called, error, list_of(&node.body))),
    }
}

/// A definition block that a text was made into.
#[derive(Debug, Drop)]
pub struct Made {
    /// The bytes of the block.
    pub bytes: Vec<u8>,
    /// What compilers refuse in the text, statement by statement: such a text probably has a mistake.
    pub doubts: Vec<AslFault>,
}

/// Makes a text into the definition block that it is the ASL of. The error `Fault` is the first place where the text isn't the
/// ASL of a block, and what is wrong there. The error `Memory` is that memory ran out.
pub fn compile(alloc: Global, text: &[u8]) -> Result<Made, AslError>
    ensures { IfOk result (λ made. IsCompiled text.now made.bytes.items) }
{
    let kept = squeezed(alloc, text)?;
    if ends_in_comment(text) {
        return Err(fault(last_word(&kept), Why::Comment));
    }
    if !begins_note(&kept) && word_at(0, &kept) != b"DefinitionBlock".as_slice() {
        return Err(fault(0, Why::Block));
    }
    let nodes = nodes_of(alloc, &kept)?;
    let [node, rest @ ..] = nodes.as_slice() else {
        return Err(fault(0, Why::Block));
    };
    if !node.is(b"DefinitionBlock") {
        return Err(fault(node.at, Why::Block));
    }
    if let [next, ..] = rest {
        return Err(fault(next.at, Why::Block));
    }
    let body = list_of(&node.body);
    let table = block_of(alloc, node)?;
    let called = stated(alloc, body)?;
    check_text(alloc, &kept, node, &called, table.as_slice())?;
    Ok(Made {
        bytes: Vec::from_slice(alloc, table.as_slice())?,
        doubts: doubts(alloc, table.as_slice().starts_with(b"DSDT"), body)?,
    })
}

/// Returns whether a text is ASL: it begins with a DefinitionBlock or with the note before one, or one of its lines begins with a
/// DefinitionBlock. In the last case `compile` reports what stands before.
pub fn is_asl(alloc: Global, text: &[u8]) -> Result<bool, AllocError>
    ensures { IfOk result (λ is. is ≡ is_asl text.now) }
{
    let kept = squeezed(alloc, text)?;
    Ok(kept.starts_with(b"DefinitionBlock(") || kept.starts_with(b"/*=") || has_block(text))
}
