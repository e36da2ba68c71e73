//! Texts of definition blocks.

ghost use Rattle.std.specs.Prelude.{◌≡◌, ◌≤◌, ◌+◌, ◌<◌, ◌^◌, [], true, length, drop, IfOk, IfErr, IfSome, string_bytes};
ghost use Rattle.acpi_asl.specs.Block.{has_terms, IsBlockText};
ghost use Rattle.acpi_terms_text.specs.Block.{AreNoTerms};
ghost use Rattle.acpi_asl.specs.declared.block.BlockText.TheVariants as blocks;
ghost use Rattle.acpi_base.specs.Table.{IsTrueTable};
ghost use Rattle.acpi_term.specs.ReadError.{offset_of};
ghost use Rattle.acpi_c_calls.specs.Block.{by_terms, IsStatedIn, IsNotStatedIn, IsBlock, IsBlockRefusal};
ghost use Rattle.acpi_c_calls.specs.Results.{seen, IsOutcome, Gives};

use crate::aml::stated;
use crate::fault::Fault;
use crate::give::give;
use crate::refused::Refused;
use acpi_asl::block::{BODY, BlockText, has_terms, text_of_block};
use acpi_read::table::Table;
use acpi_term::name_string::Arities;
use acpi_term::read_error::ReadError;
use std::alloc::Global;

// Returns the refusal of an error of terms, whose offset is that in the table.
fn of_terms(error: ReadError) -> Refused
    requires { IfSome (offset_of error) (λ offset. 36 + offset < 2 ^ 64) }
    ensures { result ≡ by_terms error }
{
    let mut refused = Refused::from(error);
    if error.offset().is_some() {
        refused.place += BODY as u64;
    }
    refused
}

// Returns the text of a table with terms, if names take these numbers of arguments.
fn text_of(
    alloc: Global,
    block: BlockText,
    bytes: &[u8],
    numbers: &Arities,
) -> Result<Vec<u8>, Refused>
    requires { 36 ≤ length bytes.now }
    ensures ok { IfOk result (λ text. IsBlockText block numbers.now [] bytes.now text.items) }
    ensures err { IfErr result (λ refused. (error : ReadError) × (refused ≡ by_terms error)
        × AreNoTerms numbers.now [] (drop 36 bytes.now) error) }
{
    match text_of_block(alloc, block, numbers, &[], bytes) {
        Ok(text) => Ok(text.into_bytes()),
        Err(error) => Err(of_terms(error)),
    }
}

// Returns how many arguments names take by a text, if bytes are a definition block.
pub(crate) fn stated_in(alloc: Global, bytes: &[u8], arities: &[u8]) -> Result<Arities, Refused>
    ensures ok { IfOk result (IsStatedIn arities.now bytes.now) }
    ensures err { IfErr result (IsNotStatedIn arities.now bytes.now) }
{
    Table::check(bytes)?;
    if !has_terms(bytes) {
        return Err(Refused::anywhere(Fault::NoBlock));
    }
    stated(alloc, arities)
}

// Returns the text of the definition block that bytes are.
fn shown(alloc: Global, block: BlockText, bytes: &[u8], arities: &[u8]) -> Result<Vec<u8>, Refused>
    ensures { IsOutcome (IsBlock block arities.now bytes.now) (IsBlockRefusal arities.now bytes.now)
        (seen (λ text. text.items) result) }
{
    let numbers = stated_in(alloc, bytes, arities)?;
    text_of(alloc, block, bytes, &numbers)
}

/// Writes the ASL of a definition block (ACPI 6.5, chapter 19) to `out`: what its bytes are in the language that compilers read.
/// Calls of methods have the numbers of arguments of the text `arities`, as `check_aml` reads it, or else those that the block
/// itself states. `size` is the number of the text's bytes. Returns 0, or the number of a fault, whose offset in the table is
/// `place`. If `out` has space for fewer bytes, the fault is `Buffer`, and nothing is written to `out`. With any other fault
/// `size` is 0.
pub fn disassemble(
    alloc: Global,
    bytes: &[u8],
    arities: &[u8],
    out: &mut [u8],
    size: &mut usize,
    place: &mut u64,
) -> u32
    ensures { Gives (IsBlock blocks.Asl arities.now bytes.now) (IsBlockRefusal arities.now bytes.now) out.old out.new result
        place.new size.new }
{
    give(
        shown(alloc, BlockText::Asl, bytes, arities),
        out,
        size,
        place,
    )
}

/// Writes the objects that a definition block makes when it is loaded (5.3) to `out`, as a tree of names. Everything else is as
/// for `disassemble`.
pub fn names(
    alloc: Global,
    bytes: &[u8],
    arities: &[u8],
    out: &mut [u8],
    size: &mut usize,
    place: &mut u64,
) -> u32
    ensures { Gives (IsBlock blocks.Names arities.now bytes.now) (IsBlockRefusal arities.now bytes.now) out.old out.new result
        place.new size.new }
{
    give(
        shown(alloc, BlockText::Names, bytes, arities),
        out,
        size,
        place,
    )
}
