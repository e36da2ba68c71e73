//! Checks of tables.

ghost use Rattle.acpi_base.specs.Table.{IsTrueTable};
ghost use Rattle.acpi_c_calls.specs.Results.{IsOutcome, Checks};
ghost use Rattle.acpi_c_calls.specs.Table.{IsTableRefusal};

use crate::give::result_of;
use crate::refused::Refused;
use acpi_read::table::Table;

// Checks that bytes are a table.
fn checked(bytes: &[u8]) -> Result<(), Refused>
    ensures { IsOutcome (λ done. IsTrueTable bytes.now) (IsTableRefusal bytes.now) result }
{
    match Table::check(bytes) {
        Ok(_) => Ok(()),
        Err(error) => Err(Refused::from(error)),
    }
}

/// Checks that bytes are a table (ACPI 6.5, 5.2.6): a header, its length, and a sum of zero. Returns 0, or the number of a fault,
/// whose offset is `place`. It takes no memory.
pub fn check_table(bytes: &[u8], place: &mut u64) -> u32
    ensures { Checks (IsTrueTable bytes.now) (IsTableRefusal bytes.now) result place.new }
{
    result_of(checked(bytes), place)
}
