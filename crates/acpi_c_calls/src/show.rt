//! Texts of tables.

ghost use Rattle.std.specs.Prelude.{IfErr, OnOk};
ghost use Rattle.acpi_c_calls.specs.Results.{seen, IsOutcome, Gives};
ghost use Rattle.acpi_c_calls.specs.Show.{IsShowable, IsText, IsTextRefusal};
ghost use Rattle.acpi_forms.specs.Kind.{kind_of};

use crate::give::give;
use crate::refused::Refused;
use acpi_forms::kind::kind_of;
use acpi_forms::show::show_file;
use acpi_make::file_kind::FileKind;
use acpi_read::table::Table;
use std::alloc::Global;

// Returns Ok if a table is right. Bytes without a standard header aren't checked.
pub fn check_showable(bytes: &[u8]) -> Result<(), Refused>
    ensures ok { OnOk result (IsShowable (kind_of bytes.now) bytes.now) }
    ensures err { IfErr result (IsTextRefusal bytes.now) }
{
    match kind_of(bytes) {
        FileKind::Table => {
            Table::check(bytes)?;
            Ok(())
        }
        FileKind::Rsdp | FileKind::Facs | FileKind::Cdat | FileKind::S3pt => Ok(()),
    }
}

// Returns the text of bytes.
fn shown(alloc: Global, bytes: &[u8]) -> Result<Vec<u8>, Refused>
    ensures { IsOutcome (IsText bytes.now) (IsTextRefusal bytes.now) (seen (λ text. text.items) result) }
{
    check_showable(bytes)?;
    let text = show_file(alloc, bytes)?;
    Ok(text.into_bytes())
}

/// Writes the text of a table to `out`, from which `make` makes the table again. `size` is the number of its bytes. A table has
/// to be right. An RSDP (ACPI 6.5, 5.2.5.3), a FACS (5.2.10) and an S3PT (5.2.24), by their signatures, and a CDAT are shown with
/// any bytes that they have. Returns 0, or the number of a fault, whose offset is `place`. If `out` has space for fewer bytes,
/// the fault is `Buffer`, and nothing is written to `out`. With any other fault `size` is 0.
pub fn show(alloc: Global, bytes: &[u8], out: &mut [u8], size: &mut usize, place: &mut u64) -> u32
    ensures { Gives (IsText bytes.now) (IsTextRefusal bytes.now) out.old out.new result place.new size.new }
{
    give(shown(alloc, bytes), out, size, place)
}
