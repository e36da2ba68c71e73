//! What is wrong with the structures of a table.

ghost use Rattle.std.specs.Prelude.{◌≡◌, ◌+◌, ◌<◌, ◌^◌, length, IfOk};
ghost use Rattle.acpi_forms.specs.Kind.{kind_of};
ghost use Rattle.acpitool_program.specs.Structures.{broken_at, HasBroken, HasOrBroken, HasFault, IsSoundOr};
ghost use Rattle.acpitool_program.specs.Text.{IsKind};

use crate::fault::Fault;
use crate::text::check_kind;
use acpi_base::slice::from_offset;
use acpi_base::walk::{Sizes, Walk};
use acpi_forms::further::cdat::cdat_walk;
use acpi_forms::further::s3pt::s3pt_walk;
use acpi_forms::kind::kind_of;
use acpi_make::file_kind::FileKind;
use acpi_read::table::Table;
use acpi_term::read_error::ReadError;
use acpi_text::size::front_size;
use std::alloc::{AllocError, Global};

/// Returns what is wrong with the structures of a table with the standard header, or none. The error is that memory ran out.
pub fn table_fault(alloc: Global, table: &Table) -> Result<Option<Fault>, AllocError>
    ensures { IfOk result (HasOrBroken table.now) }
{
    match table.structures(alloc) {
        Ok(_) => Ok(None),
        Err(ReadError::Memory) => Err(AllocError),
        Err(error) => Ok(Some(Fault::of(FileKind::Table, error))),
    }
}

// Returns where the first structure is that isn't as long as it says, of those that stand one after another from `start` on.
fn broken_at(sizes: Sizes, start: usize, bytes: &[u8]) -> Option<usize>
    requires { start + length bytes.now < 2 ^ 64 }
    ensures { result ≡ broken_at (length bytes.now) sizes start bytes.now }
{
    let mut left = bytes.len();
    let mut at = start;
    let mut rest = bytes;
    'structures: while left > 0 {
        if rest.is_empty() {
            return None;
        }
        let Some(size) = front_size(sizes, rest) else {
            return Some(at);
        };
        let (_, more) = rest.split_at(size);
        at += size;
        rest = more;
        left -= 1;
    }
    None
}

// Returns the fault of the first structure that isn't as long as it says, of a table without a standard header.
fn broken(kind: FileKind, walk: Walk, bytes: &[u8]) -> Option<Fault>
    ensures { HasBroken kind walk bytes.now result }
{
    match broken_at(walk.sizes, walk.start, from_offset(walk.start, bytes)) {
        Some(at) => Some(Fault::of(kind, ReadError::Structure(at))),
        None => None,
    }
}

/// Returns what is wrong with the structures of a table, or none. A pointer and a control structure have no structures. The error
/// is that memory ran out.
pub fn structures_fault(alloc: Global, bytes: &[u8]) -> Result<Option<Fault>, AllocError>
    requires { IsKind (kind_of bytes.now) bytes.now }
    ensures { IfOk result (HasFault (kind_of bytes.now) bytes.now) }
{
    match kind_of(bytes) {
        FileKind::Rsdp => Ok(None),
        FileKind::Facs => Ok(None),
        FileKind::Cdat => Ok(broken(FileKind::Cdat, cdat_walk(), bytes)),
        FileKind::S3pt => Ok(broken(FileKind::S3pt, s3pt_walk(), bytes)),
        FileKind::Table => match Table::check(bytes) {
            Ok(table) => table_fault(alloc, &table),
            Err(_) => Ok(None),
        },
    }
}

/// Returns what is wrong with bytes that were made, or none: they aren't what their signature says, or are a table whose
/// structures can't be found. The error is that memory ran out.
pub fn wrong_with(alloc: Global, bytes: &[u8]) -> Result<Option<Fault>, AllocError>
    ensures { IfOk result (IsSoundOr bytes.now) }
{
    match check_kind(bytes) {
        Ok(()) => structures_fault(alloc, bytes),
        Err(fault) => Ok(Some(fault)),
    }
}
