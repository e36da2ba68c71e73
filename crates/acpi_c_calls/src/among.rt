//! Texts of definition blocks that have one namespace with further blocks.

ghost use Rattle.std.specs.Prelude.{◌≡◌, ◌≤◌, ◌+◌, ◌<◌, ◌^◌, ◌↔◌, ℕ, true, length, take, drop, map};
ghost use Rattle.std.specs.Prelude.{IfOk, IfErr, IfSome, IfNone, OnOk};
ghost use Rattle.acpi_asl.specs.declared.block.BlockText.TheVariants as blocks;
ghost use Rattle.acpi_base.specs.Table.{IsTrueTable};
ghost use Rattle.acpi_term.specs.ReadError.{offset_of};
ghost use Rattle.acpi_terms_text.specs.Objects.{callee_by, AddObjectsIn};
ghost use Rattle.acpi_c_calls.specs.Among.{IsFurther, AreFurther, AreNotFurther, IsTextBy, IsAmong, IsAmongRefusal};
ghost use Rattle.acpi_c_calls.specs.Refused.{by_memory, or_zero};
ghost use Rattle.acpi_c_calls.specs.Results.{IsOutcome, Gives};

use crate::block::stated_in;
use crate::fault::Fault;
use crate::give::{put, refuse};
use crate::lay::first_table;
use crate::refused::Refused;
use acpi_asl::block::{BODY, BlockText, has_terms, text_in_part, text_of_block};
use acpi_read::table::Table;
use acpi_term::name_string::Arities;
use acpi_term::read_error::ReadError;
use acpi_terms_text::objects::{Object, add_objects_in};
use std::alloc::{AllocError, Global};

// Returns whether bytes are a definition block.
fn is_block(bytes: &[u8]) -> bool
    ensures { (result ≡ true) ↔ IsFurther bytes.now }
{
    if Table::check(bytes).is_err() {
        return false;
    }
    has_terms(bytes)
}

// Returns the size of the definition block at the front of bytes, by its length.
fn first_block(bytes: &[u8]) -> Option<usize>
    ensures block { IfSome result (λ size. IsFurther (take size bytes.now)) }
    ensures within { IfSome result (λ size. size ≤ length bytes.now) }
    ensures none { IfNone result ((size : ℕ) → ¬ IsFurther (take size bytes.now)) }
{
    let Some(size) = first_table(bytes) else {
        return None;
    };
    if !is_block(&bytes[..size]) {
        return None;
    }
    Some(size)
}

// Adds the objects of a definition block.
fn add_block(
    alloc: Global,
    block: &[u8],
    stated: &Arities,
    all: &mut Vec<Object>,
) -> Result<(), AllocError>
    requires { IsFurther block.now }
    ensures { OnOk result (AddObjectsIn stated.now (drop 36 block.now) (map callee_by all.old.items)
        (map callee_by all.new.items)) }
{
    let (_, body) = block.split_at(BODY);
    add_objects_in(alloc, body, stated, all)
}

// Returns the objects of definition blocks that lie one after another.
fn further_objects(alloc: Global, bytes: &[u8], stated: &Arities) -> Result<Vec<Object>, Refused>
    ensures ok { IfOk result (λ objects. AreFurther stated.now bytes.now (map callee_by objects.items)) }
    ensures err { IfErr result (AreNotFurther bytes.now) }
{
    let mut all = Vec::new(alloc);
    let mut rest = bytes;
    'tables: while !rest.is_empty() {
        let Some(size) = first_block(rest) else {
            return Err(Refused {
                fault: Fault::FurtherBlock,
                place: (bytes.len() - rest.len()) as u64,
            });
        };
        let (block, more) = rest.split_at(size);
        add_block(alloc, block, stated, &mut all)?;
        rest = more;
    }
    Ok(all)
}

// The text of a block, and the offset of the first term that isn't read, or 0.
#[derive(Drop)]
struct Among {
    text: Vec<u8>,
    unread: usize,
}

// Returns the offset of an error in a table, whose own offset is that after the header.
fn unread_at(error: ReadError) -> usize
    requires { IfSome (offset_of error) (λ offset. 36 + offset < 2 ^ 64) }
    ensures { result ≡ 36 + or_zero (offset_of error) }
{
    match error.offset() {
        Some(offset) => BODY + offset,
        None => BODY,
    }
}

// Returns the text of a table with terms, if names take these numbers of arguments.
fn text_among(
    alloc: Global,
    block: BlockText,
    stated: &Arities,
    further: &[Object],
    bytes: &[u8],
) -> Result<Among, AllocError>
    requires { 36 ≤ length bytes.now }
    ensures { IfOk result (λ among. IsTextBy block stated.now
        (map callee_by further.now) bytes.now among.text.items among.unread) }
{
    match text_of_block(alloc, block, stated, further, bytes) {
        Ok(text) => Ok(Among {
            text: text.into_bytes(),
            unread: 0,
        }),
        Err(ReadError::Memory) => Err(AllocError),
        Err(error) => {
            let text = text_in_part(alloc, block, stated, further, bytes)?;
            Ok(Among {
                text: text.into_bytes(),
                unread: unread_at(error),
            })
        }
    }
}

// Returns the text of the definition block that bytes are.
fn shown(
    alloc: Global,
    block: BlockText,
    bytes: &[u8],
    further: &[u8],
    arities: &[u8],
) -> Result<Among, Refused>
    ensures ok { IfOk result (λ among. IsAmong block arities.now further.now bytes.now among.unread among.text.items) }
    ensures err { IfErr result (IsAmongRefusal arities.now further.now bytes.now 0) }
{
    let numbers = stated_in(alloc, bytes, arities)?;
    let objects = further_objects(alloc, further, &numbers)?;
    let among = text_among(alloc, block, &numbers, &objects, bytes)?;
    Ok(among)
}

// Gives the text of a definition block among further ones.
fn give_among(
    alloc: Global,
    block: BlockText,
    bytes: &[u8],
    further: &[u8],
    arities: &[u8],
    out: &mut [u8],
    size: &mut usize,
    unread: &mut usize,
    place: &mut u64,
) -> u32
    ensures { Gives (IsAmong block arities.now further.now bytes.now unread.new)
        (IsAmongRefusal arities.now further.now bytes.now unread.new) out.old out.new result place.new size.new }
{
    match shown(alloc, block, bytes, further, arities) {
        Ok(among) => {
            *unread = among.unread;
            put(&among.text, out, size, place)
        }
        Err(refused) => {
            *unread = 0;
            refuse(refused, out, size, place)
        }
    }
}

/// Writes the ASL of a definition block to `out`, as `disassemble`, but among the blocks in `further`, which have the same
/// namespace (ACPI 6.5, 5.3): a name takes the stated number of arguments, or else that of the objects of all blocks. They lie
/// one after another, each as long as the number at its offset 4 says (5.2.6).
///
/// A block of which not all terms can be read has a text, too: what can't be read is a comment in it. `unread` is then the offset
/// in the table at which a term can't be read, and 0 if all are read.
///
/// Returns 0, or the number of a fault, whose offset in the table is `place`. With `FurtherBlock` it is the offset in `further`,
/// where no whole definition block begins. If `out` has space for fewer bytes, the fault is `Buffer`, and nothing is written to
/// `out`. With any other fault `size` and `unread` are 0.
pub fn disassemble_among(
    alloc: Global,
    bytes: &[u8],
    further: &[u8],
    arities: &[u8],
    out: &mut [u8],
    size: &mut usize,
    unread: &mut usize,
    place: &mut u64,
) -> u32
    ensures { Gives (IsAmong blocks.Asl arities.now further.now bytes.now unread.new)
        (IsAmongRefusal arities.now further.now bytes.now unread.new) out.old out.new result place.new size.new }
{
    give_among(
        alloc,
        BlockText::Asl,
        bytes,
        further,
        arities,
        out,
        size,
        unread,
        place,
    )
}

/// Writes the objects that a definition block makes when it is loaded, among further blocks. Everything else is as for
/// `disassemble_among`.
pub fn names_among(
    alloc: Global,
    bytes: &[u8],
    further: &[u8],
    arities: &[u8],
    out: &mut [u8],
    size: &mut usize,
    unread: &mut usize,
    place: &mut u64,
) -> u32
    ensures { Gives (IsAmong blocks.Names arities.now further.now bytes.now unread.new)
        (IsAmongRefusal arities.now further.now bytes.now unread.new) out.old out.new result place.new size.new }
{
    give_among(
        alloc,
        BlockText::Names,
        bytes,
        further,
        arities,
        out,
        size,
        unread,
        place,
    )
}
