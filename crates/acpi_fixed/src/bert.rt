//! BERT: the memory with the errors of the last boot.

ghost use Rattle.std.specs.Prelude.{◌≡◌};
ghost use Rattle.acpi_base.specs.Object.{whole, whole_ends_well};
ghost use Rattle.acpi_fixed.specs.Bert.{bert_for, bert_fields, bert_bytes};
ghost use Rattle.acpi_fixed.specs.Oem.{oem_of};

use crate::sealed::write_table;
use acpi_base::error::R;
use acpi_base::object::Aml;
use acpi_base::oem::Oem;
use acpi_base::row::{Record, Row, record_of_numbers};
use acpi_base::sink::AmlSink;

/// The Boot Error Record Table (ACPI 6.5, 18.3.1): 48 bytes. It gives the memory in which firmware stores errors that weren't
/// handled before this boot.
#[derive(Clone, Copy, Debug)]
pub struct BERT {
    oem: Oem,
    error_region_length: u32,
    error_region_base: u64,
}

impl BERT {
    /// A table for a region of `error_region_length` bytes at a physical address.
    pub fn new(
        oem_id: [u8; 6],
        oem_table_id: [u8; 8],
        oem_revision: u32,
        error_region_length: u32,
        error_region_base: u64,
    ) -> BERT
        ensures { result ≡ bert_for (oem_of oem_id oem_table_id oem_revision) error_region_length error_region_base }
    {
        BERT {
            oem: Oem::new(oem_id, oem_table_id, oem_revision),
            error_region_length,
            error_region_base,
        }
    }
}

/// The rows of a BERT after its header.
pub const BERT_ROWS: [Row; 2] = [
    Row::Number("Boot Error Region Length", 4),
    Row::Hex("Boot Error Region", 8),
];

/// The fields after the header.
impl Record<12> for BERT {
    ghost fields = { bert_fields };

    fn rows() -> &'static [Row] {
        &BERT_ROWS
    }

    fn bytes(&self) -> [u8; 12] {
        record_of_numbers(
            &BERT_ROWS,
            &[u64::from(self.error_region_length), self.error_region_base],
        )
    }
}

impl Aml for BERT {
    ghost object = { λ t. whole (bert_bytes t) };

    ghost ends_well = { λ t. whole_ends_well (bert_bytes t) };

    fn to_aml_bytes(&self, sink: &mut dyn AmlSink) -> R<()> {
        write_table::<12, 48, BERT>(*b"BERT", 1, self.oem, self, sink)
    }
}
