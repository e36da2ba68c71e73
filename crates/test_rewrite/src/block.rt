//! Definition blocks: read, and written anew in two ways.

use crate::calls::add_all;
use crate::descriptors::all_descriptors;
use crate::found::Found;
use crate::objects::push_objects;
use acpi_base::error::R;
use acpi_base::sdt::Sdt;
use acpi_build::block::Block;
use acpi_build::error::BuildError;
use acpi_read::table::Table;
use acpi_term::name_string::Arities;
use acpi_term::read_error::ReadError;
use acpi_term::term::Term;
use acpi_terms_text::block::block_terms;
use std::alloc::Global;

/// The length of a header (ACPI 6.5, 5.2.6).
const HEADER: usize = 36;

/// What came of writing a block anew.
#[derive(Drop)]
pub enum Outcome {
    /// Its terms can't be read.
    Unread(ReadError),
    /// A constructor returned an error.
    Failed(BuildError),
    /// The bytes differ, first at this offset.
    Differs(usize),
    /// The bytes are the same.
    Same,
    /// The bytes are those of the constructors of descriptors.
    Described,
    /// The ASL of the block isn't made into a block, and why.
    Refused(String),
    /// The bytes are those of the ASL of the block.
    Compiled,
}

// Returns the terms of a block. Calls take the numbers of arguments that the block states.
fn read(alloc: Global, body: &[u8]) -> Result<Vec<Term>, ReadError> {
    let stated = Arities::new(Vec::new(alloc))?;
    block_terms(alloc, body, &stated, &[])
}

// Returns the bytes of terms as objects.
fn by_objects(alloc: Global, terms: &[Term], found: &mut Found) -> Result<Vec<u8>, BuildError> {
    let mut objects = Vec::new(alloc);
    push_objects(alloc, terms, &mut objects, found)?;
    let mut bytes = Vec::new(alloc);
    for object in &objects {
        bytes.extend_from_slice(&object.0)?;
    }
    Ok(bytes)
}

// Returns the bytes of terms by calls.
fn by_calls(alloc: Global, terms: &[Term]) -> Result<Vec<u8>, BuildError> {
    let mut block = Block::new(alloc);
    add_all(alloc, &mut block, terms)?;
    block.finish()
}

// Returns the table of a header and terms.
fn table_of(alloc: Global, header: &[u8; HEADER], body: &[u8]) -> R<Vec<u8>> {
    let h = header;
    let mut table = Sdt::new(
        alloc,
        [h[0], h[1], h[2], h[3]],
        36,
        h[8],
        [h[10], h[11], h[12], h[13], h[14], h[15]],
        [h[16], h[17], h[18], h[19], h[20], h[21], h[22], h[23]],
        u32::from_le_bytes([h[24], h[25], h[26], h[27]]),
    )?;
    table.append_slice(body)?;
    // The maker is that of the block.
    table.write_bytes(
        28,
        &[h[28], h[29], h[30], h[31], h[32], h[33], h[34], h[35]],
    );
    Ok(Vec::from_slice(alloc, table.as_slice())?)
}

/// Returns the offset of the first byte that differs, if there is one.
pub fn difference(bytes: &[u8], wanted: &[u8]) -> Option<usize> {
    for (at, byte) in bytes.iter().enumerate() {
        if wanted.get(at) != Some(byte) {
            return Some(at);
        }
    }
    if bytes.len() == wanted.len() {
        None
    } else {
        Some(bytes.len())
    }
}

// Returns whether a table of these terms is the block.
fn compare(
    alloc: Global,
    header: &[u8; HEADER],
    body: &[u8],
    wanted: &[u8],
) -> Result<Outcome, BuildError> {
    let table = table_of(alloc, header, body)?;
    match difference(&table, wanted) {
        Some(at) => Ok(Outcome::Differs(at)),
        None => Ok(Outcome::Same),
    }
}

// Writes the terms of a block anew.
fn write(
    alloc: Global,
    header: &[u8; HEADER],
    terms: &[Term],
    wanted: &[u8],
    found: &mut Found,
) -> Result<Outcome, BuildError> {
    let objects = by_objects(alloc, terms, found)?;
    match compare(alloc, header, &objects, wanted)? {
        Outcome::Same => {}
        other => return Ok(other),
    }
    let calls = by_calls(alloc, terms)?;
    compare(alloc, header, &calls, wanted)
}

/// Compares the block of all descriptors with one that a compiler made.
pub fn describe(alloc: Global, bytes: &[u8]) -> Outcome {
    let Some((header, _)) = bytes.split_first_chunk::<HEADER>() else {
        return Outcome::Unread(ReadError::ShortHeader(bytes.len()));
    };
    let compared = match all_descriptors(alloc) {
        Ok(body) => compare(alloc, header, &body, bytes),
        Err(error) => Err(error),
    };
    match compared {
        Ok(Outcome::Same) => Outcome::Described,
        Ok(outcome) => outcome,
        Err(error) => Outcome::Failed(error),
    }
}

/// Reads a definition block and writes it anew: its terms as objects, and by the calls of a block. What is found is added to
/// `found`.
pub fn rewrite(alloc: Global, bytes: &[u8], found: &mut Found) -> Outcome {
    let Some((header, body)) = bytes.split_first_chunk::<HEADER>() else {
        return Outcome::Unread(ReadError::ShortHeader(bytes.len()));
    };
    if let Err(error) = Table::check(bytes) {
        return Outcome::Unread(error);
    }
    let terms = match read(alloc, body) {
        Ok(terms) => terms,
        Err(error) => return Outcome::Unread(error),
    };
    match write(alloc, header, &terms, bytes, found) {
        Ok(outcome) => outcome,
        Err(error) => Outcome::Failed(error),
    }
}
