//! The form and the walk of what a file contains: a table, or one of the tables without a standard header.

ghost use Rattle.std.specs.Prelude.{◌≡◌};
ghost use Rattle.acpi_base.specs.declared.walk.Place.TheVariants.{DWord};
ghost use Rattle.acpi_text.specs.Form.{number_at};
ghost use Rattle.acpi_forms.specs.File.{names_by, walk_by, file_names, file_walk};
ghost use Rattle.acpi_forms.specs.Named.{Named, IsNamed};

use crate::form::{facs_form, rsdp_form};
use crate::further::cdat::{cdat_form, cdat_walk};
use crate::further::s3pt::{s3pt_form, s3pt_walk};
use crate::kind::kind_of;
use crate::layout::{form_in, walk_in};
use acpi_base::walk::Walk;
use acpi_make::file_kind::FileKind;
use acpi_read::bytes::dword_at;
use acpi_text::form::TableForm;

/// Returns the form of a kind. That of a table with a standard header is `of_table`.
pub(crate) fn form_by(file_kind: FileKind, of_table: TableForm) -> TableForm
    ensures { (names : Named) → IsNamed of_table names → IsNamed result (names_by file_kind names) }
{
    match file_kind {
        FileKind::Table => of_table,
        FileKind::Rsdp => rsdp_form(),
        FileKind::Facs => facs_form(),
        FileKind::Cdat => cdat_form(),
        FileKind::S3pt => s3pt_form(),
    }
}

/// Returns the walk of a kind. That of a table with a standard header is `of_table`.
pub(crate) fn walk_by(file_kind: FileKind, of_table: Option<Walk>) -> Option<Walk>
    ensures { result ≡ walk_by file_kind of_table }
{
    match file_kind {
        FileKind::Table => of_table,
        FileKind::Rsdp => None,
        FileKind::Facs => None,
        FileKind::Cdat => Some(cdat_walk()),
        FileKind::S3pt => Some(s3pt_walk()),
    }
}

// Returns the first four bytes as a number, or 0 if there are fewer.
fn signature_in(bytes: &[u8]) -> u32
    ensures { result ≡ number_at (DWord 0) bytes.now }
{
    if bytes.len() < 4 {
        return 0;
    }
    dword_at(bytes, 0)
}

/// Returns the form of bytes, by what they are: that of their signature, and of their layout if the signature has two.
#[tactic(auto, unfolding(crate::specs::File::file_names))]
pub fn file_form(bytes: &[u8]) -> TableForm
    ensures { IsNamed result (file_names bytes.now) }
{
    form_by(kind_of(bytes), form_in(signature_in(bytes), bytes))
}

/// Returns where the structures of bytes stand, by what they are, or none if they have no structures.
#[tactic(auto, unfolding(crate::specs::File::file_walk))]
pub fn file_walk(bytes: &[u8]) -> Option<Walk>
    ensures { result ≡ file_walk bytes.now }
{
    walk_by(kind_of(bytes), walk_in(signature_in(bytes), bytes))
}
