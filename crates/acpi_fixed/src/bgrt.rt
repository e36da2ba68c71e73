//! BGRT: the picture that firmware shows at boot.

ghost use Rattle.std.specs.Prelude.{◌≡◌, bit_or};
ghost use Rattle.acpi_base.specs.Object.{whole, whole_ends_well};
ghost use Rattle.acpi_fixed.specs.Bgrt.{orientation_bits, bgrt_for, bgrt_fields, bgrt_bytes};
ghost use Rattle.acpi_fixed.specs.Oem.{oem_of};

use crate::sealed::write_table;
use acpi_base::error::R;
use acpi_base::object::Aml;
use acpi_base::oem::Oem;
use acpi_base::row::{Bits, Record, Row, Word, record_of_numbers};
use acpi_base::sink::AmlSink;

// Status flags (offset 38).
const DISPLAYED: u8 = 0x1;

/// How far a picture is turned clockwise on its way to the screen, as bits 1 and 2 of Status (ACPI 6.5, 5.2.23.2, offset 38).
#[derive(Clone, Copy, Debug, PartialEq)]
pub enum Orientation {
    Upright = 0x0,
    Degrees90 = 0x2,
    Degrees180 = 0x4,
    Degrees270 = 0x6,
}

impl Orientation {
    fn bits(self) -> u8
        ensures { result ≡ orientation_bits self }
    {
        self as u8
    }
}

/// The Boot Graphics Resource Table (ACPI 6.5, 5.2.23): 56 bytes. Its version is 1, and its image a bitmap.
#[derive(Clone, Copy, Debug)]
pub struct BGRT {
    oem: Oem,
    flags: u8,
    orientation: Orientation,
    image_address: u64,
    offset_x: u32,
    offset_y: u32,
}

impl BGRT {
    /// A table for a bitmap at a physical address (offset 40), whose upper left corner is at this pixel of the screen (offsets 48
    /// and 52). The bitmap isn't displayed, and it is upright.
    pub fn new(
        oem_id: [u8; 6],
        oem_table_id: [u8; 8],
        oem_revision: u32,
        image_address: u64,
        offset_x: u32,
        offset_y: u32,
    ) -> BGRT
        ensures { result ≡ bgrt_for (oem_of oem_id oem_table_id oem_revision) image_address offset_x offset_y }
    {
        BGRT {
            oem: Oem::new(oem_id, oem_table_id, oem_revision),
            flags: 0,
            orientation: Orientation::Upright,
            image_address,
            offset_x,
            offset_y,
        }
    }

    /// Sets bit 0 of Status (offset 38): the bitmap is on the screen when the operating system starts.
    pub fn displayed(mut self) -> BGRT
        ensures { result ≡ record self { flags = bit_or self.flags 1 } }
    {
        self.flags |= DISPLAYED;
        self
    }

    /// Sets the orientation offset (bits 1 and 2 of Status, offset 38).
    pub fn orientation(mut self, orientation: Orientation) -> BGRT
        ensures { result ≡ record self { orientation = orientation } }
    {
        self.orientation = orientation;
        self
    }
}

/// The rows of a BGRT after its header.
pub const BGRT_ROWS: [Row; 6] = [
    Row::Preset("Version", 2, 1),
    Row::Flags(
        "Status",
        1,
        &[
            Bits::Flag(0x1, "Displayed"),
            Bits::OneOf(
                0x6,
                &[
                    Word(0x0, "No Orientation Offset"),
                    Word(0x2, "90 Degrees"),
                    Word(0x4, "180 Degrees"),
                    Word(0x6, "270 Degrees"),
                ],
            ),
        ],
    ),
    Row::OneOf("Image Type", 1, &[Word(0, "Bitmap")]),
    Row::Hex("Image Address", 8),
    Row::Number("Image Offset X", 4),
    Row::Number("Image Offset Y", 4),
];

/// The fields after the header.
impl Record<20> for BGRT {
    ghost fields = { bgrt_fields };

    fn rows() -> &'static [Row] {
        &BGRT_ROWS
    }

    fn bytes(&self) -> [u8; 20] {
        record_of_numbers(
            &BGRT_ROWS,
            &[
                1,
                u64::from(self.flags | self.orientation.bits()),
                0,
                self.image_address,
                u64::from(self.offset_x),
                u64::from(self.offset_y),
            ],
        )
    }
}

impl Aml for BGRT {
    ghost object = { λ t. whole (bgrt_bytes t) };

    ghost ends_well = { λ t. whole_ends_well (bgrt_bytes t) };

    fn to_aml_bytes(&self, sink: &mut dyn AmlSink) -> R<()> {
        write_table::<20, 56, BGRT>(*b"BGRT", 1, self.oem, self, sink)
    }
}
