//! Error status blocks: what a source reports.

ghost use Rattle.std.specs.Prelude.{◌≡◌};
ghost use Rattle.acpi_base.specs.Object.{whole, whole_ends_well};
ghost use Rattle.acpi_hest.specs.Status.{status_of, error_status, error_status_bytes};
ghost use Rattle.acpi_hest.specs.Status.{error_status_fields};

use acpi_base::error::R;
use acpi_base::object::Aml;
use acpi_base::row::{Bits, Record, Row, Word, record_of_numbers, write_record};
use acpi_base::sink::AmlSink;

/// The severity of an error (ACPI 6.5, 18.3.2.7.1, Error Severity).
#[derive(Copy, Clone, Debug, Default)]
pub enum ErrorSeverity {
    Recoverable = 0,
    Fatal = 1,
    Correctable = 2,
    #[default]
    None = 3,
}

/// A Generic Error Status Block without its entries (ACPI 6.5, 18.3.2.7.1): 20 bytes.
#[derive(Drop)]
pub struct GenericErrorStatus {
    status: u32,
    severity: ErrorSeverity,
}

impl GenericErrorStatus {
    /// The block for these numbers of uncorrectable and correctable errors. The status has 1 for one uncorrectable error and 4
    /// for several; 2 for one correctable error and 8 for several.
    pub fn new(
        correctable_count: u32,
        uncorrectable_count: u32,
        severity: ErrorSeverity,
    ) -> GenericErrorStatus
        ensures { result ≡ error_status correctable_count uncorrectable_count severity }
    {
        GenericErrorStatus {
            status: status_of(correctable_count, 2, 8) + status_of(uncorrectable_count, 1, 4),
            severity,
        }
    }
}

// The words of Error Severity.
pub(crate) const SEVERITIES: [Word; 4] = [
    Word(0, "Recoverable"),
    Word(1, "Fatal"),
    Word(2, "Corrected"),
    Word(3, "None"),
];

/// The rows of a Generic Error Status Block before its data.
pub const ERROR_STATUS: [Row; 5] = [
    Row::Flags(
        "Block Status",
        4,
        &[
            Bits::Flag(0x1, "Uncorrectable Error Valid"),
            Bits::Flag(0x2, "Correctable Error Valid"),
            Bits::Flag(0x4, "Multiple Uncorrectable Errors"),
            Bits::Flag(0x8, "Multiple Correctable Errors"),
            Bits::Number(0x3ff0, 0x10, "Error Data Entry Count"),
        ],
    ),
    Row::Number("Raw Data Offset", 4),
    Row::Number("Raw Data Length", 4),
    Row::Number("Data Length", 4),
    Row::OneOf("Error Severity", 4, &SEVERITIES),
];

impl Record<20> for GenericErrorStatus {
    ghost fields = { error_status_fields };

    fn rows() -> &'static [Row] {
        &ERROR_STATUS
    }

    fn bytes(&self) -> [u8; 20] {
        record_of_numbers(
            &ERROR_STATUS,
            &[u64::from(self.status), 0, 0, 0, self.severity as u64],
        )
    }
}

// The status bit for a number of errors: none for 0, `one` for exactly one error, and `several` for more.
fn status_of(count: u32, one: u32, several: u32) -> u32
    ensures { result ≡ status_of count one several }
{
    match count {
        0 => 0,
        1 => one,
        _ => several,
    }
}

impl Aml for GenericErrorStatus {
    ghost object = { λ s. whole (error_status_bytes s) };

    ghost ends_well = { λ s. whole_ends_well (error_status_bytes s) };

    fn to_aml_bytes(&self, sink: &mut dyn AmlSink) -> R<()> {
        write_record(self, sink)
    }
}
