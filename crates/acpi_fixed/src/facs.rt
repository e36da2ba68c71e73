//! FACS: the memory that firmware and the operating system share.

ghost use Rattle.std.specs.Prelude.{◌≡◌};
ghost use Rattle.acpi_base.specs.Object.{whole, whole_ends_well};
ghost use Rattle.acpi_fixed.specs.Facs.{facs_at_first, facs_fields, facs_bytes};

use acpi_base::error::R;
use acpi_base::object::Aml;
use acpi_base::row::{Bits, Record, Row, Value, record_of, write_record};
use acpi_base::sink::AmlSink;

/// The Firmware ACPI Control Structure (ACPI 6.5, 5.2.10): 64 bytes, without a checksum. Its fields are public, and are written
/// with the values that they have.
#[derive(Clone, Copy)]
pub struct FACS {
    /// `FACS`.
    pub signature: [u8; 4],
    /// The size in bytes.
    pub length: u32,
    pub hardware_signature: u32,
    /// The firmware waking vector: a physical address, for real mode.
    pub waking: u32,
    /// The global lock.
    pub lock: u32,
    pub flags: u32,
    /// The firmware waking vector of 64 bits.
    pub x_waking: u64,
    pub version: u8,
    pub ospm_flags: u32,
}

impl FACS {
    /// A structure with its signature, its length of 64 bytes and version 1. Every other field is zero.
    pub fn new() -> FACS
        ensures { result ≡ facs_at_first }
    {
        FACS {
            signature: *b"FACS",
            length: 64,
            hardware_signature: 0,
            waking: 0,
            lock: 0,
            flags: 0,
            x_waking: 0,
            version: 1,
            ospm_flags: 0,
        }
    }

    /// The size in bytes.
    pub fn len() -> usize
        ensures { result ≡ 64 }
    {
        64
    }
}

/// The rows of a FACS.
pub const FACS_ROWS: [Row; 11] = [
    Row::Text("Signature", 4),
    Row::Number("Length", 4),
    Row::Hex("Hardware Signature", 4),
    Row::Hex("Firmware Waking Vector", 4),
    Row::Flags(
        "Global Lock",
        4,
        &[Bits::Flag(0x1, "Pending"), Bits::Flag(0x2, "Owned")],
    ),
    Row::Flags(
        "Flags",
        4,
        &[
            Bits::Flag(0x1, "S4BIOS_F"),
            Bits::Flag(0x2, "64BIT_WAKE_SUPPORTED_F"),
        ],
    ),
    Row::Hex("X Firmware Waking Vector", 8),
    Row::Number("Version", 1),
    Row::Reserved(3),
    Row::Flags("OSPM Flags", 4, &[Bits::Flag(0x1, "64BIT_WAKE_F")]),
    Row::Reserved(24),
];

impl Record<64> for FACS {
    ghost fields = { facs_fields };

    fn rows() -> &'static [Row] {
        &FACS_ROWS
    }

    fn bytes(&self) -> [u8; 64] {
        record_of(
            &FACS_ROWS,
            &[
                Value::Bytes(&self.signature),
                Value::Number(u64::from(self.length)),
                Value::Number(u64::from(self.hardware_signature)),
                Value::Number(u64::from(self.waking)),
                Value::Number(u64::from(self.lock)),
                Value::Number(u64::from(self.flags)),
                Value::Number(self.x_waking),
                Value::Number(u64::from(self.version)),
                Value::Number(0),
                Value::Number(u64::from(self.ospm_flags)),
                Value::Bytes(&[0; 24]),
            ],
        )
    }
}

impl Aml for FACS {
    ghost object = { λ f. whole (facs_bytes f) };

    ghost ends_well = { λ f. whole_ends_well (facs_bytes f) };

    fn to_aml_bytes(&self, sink: &mut dyn AmlSink) -> R<()> {
        write_record(self, sink)
    }
}
