//! RSDP: the pointer to the tables.

ghost use Rattle.std.specs.Prelude.{◌≡◌, sum};
ghost use Rattle.acpi_base.specs.Bytes.{complement};
ghost use Rattle.acpi_base.specs.Object.{whole, whole_ends_well};
ghost use Rattle.acpi_fixed.specs.Rsdp.{rsdp_for, rsdp_fields, rsdp_bytes, rsdp0_for, rsdp0_fields, rsdp0_bytes};

use acpi_base::error::R;
use acpi_base::object::Aml;
use acpi_base::row::{Record, Row, Value, record_of, write_record};
use acpi_base::sink::AmlSink;
use acpi_base::sum::Sum;

/// The Root System Description Pointer (ACPI 6.5, 5.2.5.3): 36 bytes. Its address of an RSDT and its last three bytes are zero.
/// Its fields are public, and are written with the values that they have.
#[derive(Clone, Copy)]
pub struct Rsdp {
    /// `RSD PTR `, with a space at its end.
    pub signature: [u8; 8],
    /// The byte that makes the sum of the first 20 bytes zero.
    pub checksum: u8,
    pub oem_id: [u8; 6],
    pub revision: u8,
    /// The size in bytes.
    pub length: u32,
    /// The physical address of the XSDT.
    pub xsdt_addr: u64,
    /// The byte that makes the sum of all bytes zero.
    pub extended_checksum: u8,
}

// The byte that makes the sum of bytes zero.
fn complement_of(bytes: &[u8]) -> u8
    ensures { result ≡ complement (sum bytes.now) }
{
    let mut sum = Sum::new();
    sum.add(bytes);
    sum.checksum()
}

impl Rsdp {
    /// The pointer to an XSDT at a physical address. It has revision 2 and both checksums.
    pub fn new(oem_id: [u8; 6], xsdt_addr: u64) -> Rsdp
        ensures { result ≡ rsdp_for oem_id xsdt_addr }
    {
        let mut rsdp = Rsdp {
            signature: *b"RSD PTR ",
            checksum: 0,
            oem_id,
            revision: 2,
            length: 36,
            xsdt_addr,
            extended_checksum: 0,
        };
        let unsummed = rsdp.bytes();
        rsdp.checksum = complement_of(&unsummed[..20]);
        rsdp.extended_checksum = complement_of(&rsdp.bytes());
        rsdp
    }

    /// The size in bytes.
    pub fn len() -> usize
        ensures { result ≡ 36 }
    {
        36
    }
}

/// The rows of an RSDP.
pub const RSDP_ROWS: [Row; 9] = [
    Row::Text("Signature", 8),
    Row::Hex("Checksum", 1),
    Row::Text("OEMID", 6),
    Row::Number("Revision", 1),
    Row::Hex("RsdtAddress", 4),
    Row::Number("Length", 4),
    Row::Hex("XsdtAddress", 8),
    Row::Hex("Extended Checksum", 1),
    Row::Reserved(3),
];

impl Record<36> for Rsdp {
    ghost fields = { rsdp_fields };

    fn rows() -> &'static [Row] {
        &RSDP_ROWS
    }

    fn bytes(&self) -> [u8; 36] {
        record_of(
            &RSDP_ROWS,
            &[
                Value::Bytes(&self.signature),
                Value::Number(u64::from(self.checksum)),
                Value::Bytes(&self.oem_id),
                Value::Number(u64::from(self.revision)),
                Value::Number(0),
                Value::Number(u64::from(self.length)),
                Value::Number(self.xsdt_addr),
                Value::Number(u64::from(self.extended_checksum)),
                Value::Number(0),
            ],
        )
    }
}

impl Aml for Rsdp {
    ghost object = { λ r. whole (rsdp_bytes r) };

    ghost ends_well = { λ r. whole_ends_well (rsdp_bytes r) };

    fn to_aml_bytes(&self, sink: &mut dyn AmlSink) -> R<()> {
        write_record(self, sink)
    }
}

/// The Root System Description Pointer of revision 0 (ACPI 6.5, 5.2.5.3): 20 bytes, as ACPI 1.0 has it. It points to an RSDT.
#[derive(Clone, Copy)]
pub struct Rsdp0 {
    oem_id: [u8; 6],
    checksum: u8,
    rsdt_addr: u32,
}

impl Rsdp0 {
    /// The pointer to an RSDT at a physical address below 4 GiB, with its checksum.
    pub fn new(oem_id: [u8; 6], rsdt_addr: u32) -> Rsdp0
        ensures { result ≡ rsdp0_for oem_id rsdt_addr }
    {
        let mut rsdp = Rsdp0 {
            oem_id,
            checksum: 0,
            rsdt_addr,
        };
        rsdp.checksum = complement_of(&rsdp.bytes());
        rsdp
    }

    /// The size in bytes.
    pub fn len() -> usize
        ensures { result ≡ 20 }
    {
        20
    }
}

impl Record<20> for Rsdp0 {
    ghost fields = { rsdp0_fields };

    fn rows() -> &'static [Row] {
        &RSDP_ROWS[..5]
    }

    fn bytes(&self) -> [u8; 20] {
        record_of(
            &RSDP_ROWS[..5],
            &[
                Value::Bytes(b"RSD PTR "),
                Value::Number(u64::from(self.checksum)),
                Value::Bytes(&self.oem_id),
                Value::Number(0),
                Value::Number(u64::from(self.rsdt_addr)),
            ],
        )
    }
}

impl Aml for Rsdp0 {
    ghost object = { λ r. whole (rsdp0_bytes r) };

    ghost ends_well = { λ r. whole_ends_well (rsdp0_bytes r) };

    fn to_aml_bytes(&self, sink: &mut dyn AmlSink) -> R<()> {
        write_record(self, sink)
    }
}
