//! Several interrupts in one resource descriptor.

ghost use Rattle.std.specs.Prelude.{◌≡◌, ◌++◌, ◌<◌, ℕ, true, IfOk, IfErr};
ghost use Rattle.acpi_base.specs.Fields.{AreRowsOf, fields_joined};
ghost use Rattle.acpi_base.specs.Object.{Builds};
ghost use Rattle.acpi_ops.specs.Descriptor.{vector_flags};
ghost use Rattle.acpi_ops.specs.Interrupts.{interrupts_head_fields, numbers_bytes, interrupts};
ghost use Rattle.acpi_ops.specs.Interrupts.{from_fits, from_head_fields, interrupts_from};

use crate::descriptor::{InterruptFlags, VECTOR_BITS};
use crate::variable::VariableDescriptor;
use acpi_base::error::{Error, R};
use acpi_base::row::{Row, record_of_numbers};
use std::alloc::Global;

/// From 1 to 255 interrupts with the same flags (ACPI 6.5, 6.4.3.6, Extended Interrupt Descriptor).
pub type Interrupts = VariableDescriptor<InterruptsKind>;

/// The kind of `Interrupts`.
pub struct InterruptsKind;

impl VariableDescriptor<InterruptsKind> {
    /// The flags are at offset 3 of the descriptor, the number of interrupts at 4, and their numbers from 5 on, four bytes each.
    /// The error is `FieldWidth` if there are no interrupts, or more than 255.
    #[tactic(auto, using(crate::proofs::Built::built))]
    pub fn new(
        alloc: Global,
        flags: InterruptFlags,
        numbers: &[u32],
    ) -> R<VariableDescriptor<InterruptsKind>>
        ensures { Builds result (interrupts flags numbers.now) }
    {
        if numbers.is_empty() || numbers.len() > 255 {
            return Err(Error::FieldWidth);
        }
        let list = numbers_bytes(alloc, numbers)?;
        VariableDescriptor::of(alloc, &[&head(flags, numbers.len() as u64), &list])
    }
}

/// From 1 to 255 interrupts that another device provides (ACPI 6.5, 6.4.3.6, Extended Interrupt Descriptor).
pub type InterruptsFrom = VariableDescriptor<InterruptsFromKind>;

/// The kind of `InterruptsFrom`.
pub struct InterruptsFromKind;

impl VariableDescriptor<InterruptsFromKind> {
    /// The offsets are those of `Interrupts`. The index of the interrupts at their provider follows the numbers, and then the
    /// provider's name `source` and a zero. The error is `FieldWidth` if there are no interrupts, or more than 255, or if the
    /// length exceeds 65,535.
    #[tactic(auto, using(crate::proofs::Built::built))]
    pub fn new(
        alloc: Global,
        flags: InterruptFlags,
        numbers: &[u32],
        index: u8,
        source: &str,
    ) -> R<VariableDescriptor<InterruptsFromKind>>
        ensures { Builds result (interrupts_from flags numbers.now index source.now) }
    {
        let (count, size) = (numbers.len(), source.len());
        if !from_fits(count, size) {
            return Err(Error::FieldWidth);
        }
        let list = numbers_bytes(alloc, numbers)?;
        let head = from_head(flags, count as u64, size as u64);
        VariableDescriptor::of(alloc, &[&head, &list, &[index], source.as_bytes(), &[0]])
    }
}

// Whether the number of interrupts and the length fit their fields.
fn from_fits(count: usize, source: usize) -> bool
    ensures { result ≡ from_fits count source }
{
    count >= 1 && count <= 255 && source <= 65_531 - 4 * count
}

// The descriptor before the numbers of its interrupts, if a source follows them.
fn from_head(flags: InterruptFlags, count: u64, source: u64) -> [u8; 5]
    requires { from_fits count source ≡ true }
    ensures { result ≡ fields_joined (from_head_fields (vector_flags flags) count source) }
{
    record_of_numbers(
        &INTERRUPTS_HEAD,
        &[
            0x89,
            2 + 4 * count + (2 + source),
            u64::from(flags.byte()),
            count,
        ],
    )
}

// The descriptor before the numbers of its interrupts.
fn head(flags: InterruptFlags, count: u64) -> [u8; 5]
    requires { count < 256 }
    ensures { result ≡ fields_joined (interrupts_head_fields (vector_flags flags) count) }
{
    record_of_numbers(
        &INTERRUPTS_HEAD,
        &[0x89, 2 + 4 * count, u64::from(flags.byte()), count],
    )
}

// The numbers in order, four bytes each.
fn numbers_bytes(alloc: Global, numbers: &[u32]) -> R<Vec<u8>>
    ensures ok { IfOk result (λ bytes. bytes.items ≡ numbers_bytes numbers.now) }
    ensures err { IfErr result (λ e. e ≡ Error.Memory) }
{
    let mut bytes = Vec::new(alloc);
    'numbers: for number in numbers {
        bytes.extend_from_slice(&number.to_le_bytes())?;
    }
    Ok(bytes)
}

const INTERRUPTS_HEAD: [Row; 4] = [
    Row::Preset("Extended Interrupt Descriptor", 1, 0x89),
    Row::Number("Length", 2),
    Row::Flags("Interrupt Vector Flags", 1, &VECTOR_BITS),
    Row::Number("Interrupt Table Length", 1),
];

/// The rows of the fields of a descriptor of interrupts before their numbers, in order.
pub fn interrupts_head_rows() -> &'static [Row]
    ensures { (flags count : ℕ) → AreRowsOf result.now (interrupts_head_fields flags count) }
{
    &INTERRUPTS_HEAD
}
