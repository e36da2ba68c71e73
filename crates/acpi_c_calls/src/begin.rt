//! Tables that are written by a writer (ACPI 6.5, 5.2.6).

ghost use Rattle.std.specs.Prelude.{◌≡◌, ◌≢◌, length, IfSome, IfNone};
ghost use Rattle.acpi_base.specs.Header.{header};
ghost use Rattle.acpi_base.specs.declared.oem.Oem.{Oem};
ghost use Rattle.acpi_c_calls.specs.Begin.{begins_table, Ends};
ghost use Rattle.acpi_c_calls.specs.Writer.{Writes};

use crate::fault::Fault;
use crate::finish::finish;
use crate::put::{fail, put};
use crate::seal::seal;
use crate::state::State;
use acpi_base::header::header;
use acpi_base::oem::Oem;

// These bytes as an array, if they are as many.
fn exactly<const N: usize>(text: &[u8]) -> Option<[u8; N]>
    ensures some { IfSome result (λ array. array ≡ text.now) }
    ensures none { IfNone result (length text.now ≢ N) }
{
    if text.len() != N {
        return None;
    }
    let mut array = [0; N];
    array.copy_from_slice(text);
    Some(array)
}

/// Begins a table in an empty writer: the 36 bytes of its header, whose length and checksum `finish_table` sets. The fault is
/// `NotEmpty` if bytes are written or an object is open, `Signature` if the signature hasn't four bytes, and `OemText` if the
/// OEM ID hasn't six bytes or the OEM Table ID eight.
pub fn table(
    bytes: &mut [u8],
    state: &mut State,
    signature: &[u8],
    revision: u8,
    oem_id: &[u8],
    oem_table_id: &[u8],
    oem_revision: u32,
) -> u32
    ensures { Writes (begins_table signature.now revision oem_id.now oem_table_id.now oem_revision)
        bytes.old state.old bytes.new state.new result }
{
    if state.fault != 0 {
        return state.fault;
    }
    if state.size != 0 || state.depth != 0 {
        return fail(bytes, state, Fault::NotEmpty);
    }
    let Some(signature) = exactly::<4>(signature) else {
        return fail(bytes, state, Fault::Signature);
    };
    let Some(id) = exactly::<6>(oem_id) else {
        return fail(bytes, state, Fault::OemText);
    };
    let Some(table_id) = exactly::<8>(oem_table_id) else {
        return fail(bytes, state, Fault::OemText);
    };
    let header = header(
        signature,
        36,
        revision,
        Oem::new(id, table_id, oem_revision),
    );
    put(bytes, state, &header, &[], &[])
}

/// Ends a table that `table` began: its length is the number of the bytes that are written, and its checksum makes them sum to
/// zero. Returns 0, and `size` is that number. Otherwise it returns the first fault, `StillOpen`, `ShortHeader` or
/// `TableLength`. Then `size` is 0, nothing is written, and `place` is how many bytes were written before the fault, or 4 with
/// `TableLength`.
pub fn finish_table(bytes: &mut [u8], state: &State, size: &mut usize, place: &mut u64) -> u32
    ensures { Ends state.now bytes.old bytes.new result size.new place.new }
{
    let number = finish(state, size, place);
    if number != 0 {
        return number;
    }
    if state.size > bytes.len() {
        *size = 0;
        *place = state.size as u64;
        return Fault::WriterState.number();
    }
    let number = seal(&mut bytes[..state.size], place);
    if number != 0 {
        *size = 0;
    }
    number
}
