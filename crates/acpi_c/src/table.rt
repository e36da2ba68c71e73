//! Tables of a writer, and images of tables.

ghost use Rattle.acpi_c_calls.specs.Begin.{begins_table, Ends};
ghost use Rattle.acpi_c_calls.specs.Finish.{Finishes};
ghost use Rattle.acpi_c_calls.specs.Results.{Gives};
ghost use Rattle.acpi_c_calls.specs.Lay.{IsImageFor, IsLayRefusal};
ghost use Rattle.acpi_c_calls.specs.Writer.{Writes};

use acpi_c_calls::begin::{finish_table, table};
use acpi_c_calls::finish::finish;
use acpi_c_calls::lay::lay;
use acpi_c_calls::state::State;
use std::alloc::Global;

/// Begins a table in an empty writer with its header.
#[unsafe(no_mangle)]
pub extern "C" fn hyssop_export_table(
    bytes: &mut [u8],
    state: &mut State,
    signature: &[u8],
    revision: u8,
    oem_id: &[u8],
    oem_table_id: &[u8],
    oem_revision: u32,
) -> u32
    ensures { Writes (begins_table signature.now revision oem_id.now oem_table_id.now oem_revision)
        bytes.old state.old bytes.new state.new result }
{
    table(
        bytes,
        state,
        signature,
        revision,
        oem_id,
        oem_table_id,
        oem_revision,
    )
}

/// Ends a writer.
#[unsafe(no_mangle)]
pub extern "C" fn hyssop_export_finish(state: &State, size: &mut usize, place: &mut u64) -> u32
    ensures { Finishes state.now result size.new place.new }
{
    finish(state, size, place)
}

/// Ends a writer of a table.
#[unsafe(no_mangle)]
pub extern "C" fn hyssop_export_finish_table(
    bytes: &mut [u8],
    state: &State,
    size: &mut usize,
    place: &mut u64,
) -> u32
    ensures { Ends state.now bytes.old bytes.new result size.new place.new }
{
    finish_table(bytes, state, size, place)
}

/// Lays tables into an image.
#[unsafe(no_mangle)]
pub extern "C" fn hyssop_export_lay(
    alloc: Global,
    tables: &[u8],
    base: u64,
    out: &mut [u8],
    size: &mut usize,
    rsdp: &mut u64,
    place: &mut u64,
) -> u32
    ensures { Gives (IsImageFor tables.now base rsdp.new) (IsLayRefusal tables.now base rsdp.new)
        out.old out.new result place.new size.new }
{
    lay(alloc, tables, base, out, size, rsdp, place)
}
