//! Definition blocks that are made of their own ASL.

use crate::block::{Outcome, difference};
use acpi_asl::block::{BlockText, has_terms, text_of_block};
use acpi_compile::block::compile;
use acpi_compile::fault::AslError;
use acpi_read::table::Table;
use acpi_term::name_string::Arities;
use acpi_term::read_error::ReadError;
use std::alloc::Global;

// Returns the ASL of a block. Calls take the numbers of arguments that the block states.
fn asl_of(alloc: Global, bytes: &[u8]) -> Result<String, ReadError> {
    Table::check(bytes)?;
    if !has_terms(bytes) {
        return Err(ReadError::Opcode(0));
    }
    let stated = Arities::new(Vec::new(alloc))?;
    text_of_block(alloc, BlockText::Asl, &stated, &[], bytes)
}

// Returns why a text isn't made into a block.
fn refused(alloc: Global, error: &AslError, text: &[u8]) -> Outcome {
    match error {
        AslError::Memory => Outcome::Unread(ReadError::Memory),
        AslError::Fault(wrong) => match wrong.explain(alloc, text) {
            Ok(why) => Outcome::Refused(why),
            Err(_) => Outcome::Unread(ReadError::Memory),
        },
    }
}

/// Makes the ASL of a block into a block, and compares it with the block.
pub fn compiled(alloc: Global, bytes: &[u8]) -> Outcome {
    let text = match asl_of(alloc, bytes) {
        Ok(text) => text,
        Err(error) => return Outcome::Unread(error),
    };
    match compile(alloc, text.as_bytes()) {
        Ok(made) => match difference(&made.bytes, bytes) {
            Some(at) => Outcome::Differs(at),
            None => Outcome::Compiled,
        },
        Err(error) => refused(alloc, &error, text.as_bytes()),
    }
}
