//! The parts of a text.

ghost use Rattle.std.specs.Prelude.{◌≡◌, ◌++◌, [], reverse, OnOk, IfOk};
ghost use Rattle.acpi_make.specs.Gives.{Gives};
ghost use Rattle.acpi_make.specs.Item.{byte_items};
ghost use Rattle.acpi_make.specs.Meaning.{parts_of, Acts};
ghost use Rattle.acpi_make.specs.Step.{IsHalf, GoesToHalf};

use crate::fault::{Fault, MakeError};
use crate::item::{Cell, Item};
use crate::run::after_run;
use crate::state::{State, Step};
use crate::step::{line_end, step};
use std::alloc::{AllocError, Global};

// Adds the bytes of a number to the parts of the text, lowest first, and leaves none in the number.
fn end_number(number: &mut Vec<u8>, items: &mut Vec<Item>) -> Result<(), AllocError>
    ensures added { OnOk result (items.new.items ≡ items.old.items ++ byte_items (reverse number.old.items)) }
    ensures emptied { OnOk result (number.new.items ≡ []) }
{
    'bytes: while let Some(byte) = number.pop() {
        items.push(Item::Cell(Cell::Byte(byte)))?;
    }
    Ok(())
}

// Does a step at a place, and returns the next state. The number has its lowest byte last.
#[inline(always)]
fn act(
    done: Step,
    here: usize,
    number: &mut Vec<u8>,
    items: &mut Vec<Item>,
) -> Result<State, MakeError>
    requires { GoesToHalf done }
    ensures acts { Acts result here done number.old.items number.new.items items.old.items items.new.items }
    ensures half { IfOk result IsHalf }
{
    match done {
        Step::Goes(state) => Ok(state),
        Step::Adds(byte) => {
            number.push(byte)?;
            Ok(State::Number)
        }
        Step::Ends(state) => {
            end_number(number, items)?;
            Ok(state)
        }
        Step::Has(item, state) => {
            items.push(item)?;
            Ok(state)
        }
        Step::Wants(wanted) => {
            let fault = Fault::new(here, here.saturating_sub(1), wanted);
            Err(MakeError::Fault(fault))
        }
    }
}

// Returns the parts of a text. LLVM simplifies a function before it puts it into its caller, and then once more there, and only
// then are no states copied by way of memory. So this isn't the body of `read_text`: a step would take twice the instructions.
fn read_parts(alloc: Global, text: &[u8]) -> Result<Vec<Item>, MakeError>
    ensures { Gives (λ items. items.items) result (parts_of text.now) }
{
    let mut state = State::Start;
    let mut number = Vec::new(alloc);
    let mut items = Vec::new(alloc);
    let mut rest = text;
    'bytes: while let [byte, more @ ..] = rest {
        let here = rest.len();
        let done = step(here, state, *byte);
        state = act(done, here, &mut number, &mut items)?;
        rest = after_run(state, more);
    }
    act(line_end(0, state), 0, &mut number, &mut items)?;
    Ok(items)
}

/// Returns the parts of a text: its bytes, its headings, the names of its lines, and values by name. The error is that memory ran
/// out, or what is wrong, and where.
pub fn read_text(alloc: Global, text: &[u8]) -> Result<Vec<Item>, MakeError>
    ensures { Gives (λ items. items.items) result (parts_of text.now) }
{
    read_parts(alloc, text)
}
