//! Ranges of physical addresses.

ghost use Rattle.std.specs.Prelude.{◌≡◌, bit_or};
ghost use Rattle.acpi_base.specs.Fields.{AreRowsOf, fields_joined};
ghost use Rattle.acpi_base.specs.Object.{whole, whole_ends_well};
ghost use Rattle.acpi_pc.specs.Nfit.{range_guid, spa_range, spa_fields, spa_size, spa_bytes};
ghost use Rattle.acpi_pc.specs.declared.nfit.ranges.SpaRange.{SpaRange};

use acpi_base::error::R;
use acpi_base::object::Aml;
use acpi_base::row::{Bits, Row, Value, record_of};
use acpi_base::sink::AmlSink;

// Flags of a range.
const HOT_ADD_ONLY: u16 = 1;

const DOMAIN_VALID: u16 = 1 << 1;

const COOKIE_VALID: u16 = 1 << 2;

/// What is in a range, by its GUID (ACPI 6.5, 5.2.26.2, Address Range Type GUID).
#[derive(Clone, Copy, Debug)]
pub enum RangeType {
    /// Volatile memory.
    Volatile,
    /// Byte-addressable persistent memory.
    Persistent,
    /// An NVDIMM control region.
    ControlRegion,
    /// An NVDIMM block data window region.
    DataWindow,
    /// A RAM disk with a virtual disk, in volatile memory.
    VolatileDisk,
    /// A RAM disk with a virtual CD, in volatile memory.
    VolatileCd,
    /// A RAM disk with a virtual disk, in persistent memory.
    PersistentDisk,
    /// A RAM disk with a virtual CD, in persistent memory.
    PersistentCd,
    /// What the vendor of this GUID defines, with the GUID's bytes in the order of the table.
    Vendor([u8; 16]),
}

impl RangeType {
    // The bytes of the GUID.
    fn guid(self) -> [u8; 16]
        ensures { result ≡ range_guid self }
    {
        match self {
            RangeType::Volatile =>
                *b"\x4f\x94\x05\x73\xda\xfd\xe3\x44\xb1\x6c\x3f\x22\xd2\x52\xe5\xd0",
            RangeType::Persistent =>
                *b"\x79\xd3\xf0\x66\xf3\xb4\x74\x40\xac\x43\x0d\x33\x18\xb7\x8c\xdb",
            RangeType::ControlRegion =>
                *b"\xf6\x01\xf7\x92\xb4\x13\x5d\x40\x91\x0b\x29\x93\x67\xe8\x23\x4c",
            RangeType::DataWindow =>
                *b"\x30\x05\xaf\x91\x86\x5d\x0e\x47\xa6\xb0\x0a\x2d\xb9\x40\x82\x49",
            RangeType::VolatileDisk =>
                *b"\x5a\x53\xab\x77\xfc\x45\x4b\x62\x55\x60\xf7\xb2\x81\xd1\xf9\x6e",
            RangeType::VolatileCd =>
                *b"\x30\xbd\x5a\x3d\x75\x41\xce\x87\x6d\x64\xd2\xad\xe5\x23\xc4\xbb",
            RangeType::PersistentDisk =>
                *b"\xc9\x02\xea\x5c\x07\x4d\xd3\x69\x26\x9f\x44\x96\xfb\xe0\x96\xf9",
            RangeType::PersistentCd =>
                *b"\x88\x81\x01\x08\xcd\x42\x48\xbb\x10\x0f\x53\x87\xd5\x3d\xed\x3d",
            RangeType::Vendor(guid) => guid,
        }
    }
}

/// A range of physical addresses: 56 bytes, or 64 with a location cookie (ACPI 6.5, 5.2.26.2, System Physical Address Range
/// Structure).
#[derive(Clone, Copy, Debug)]
pub struct SpaRange {
    index: u16,
    flags: u16,
    domain: u32,
    kind: RangeType,
    base: u64,
    size: u64,
    attribute: u64,
    cookie: Option<u64>,
}

impl SpaRange {
    /// The range with this index (offset 4; not 0, unless it is of virtual media) and type (offset 16), of `size` bytes (offset
    /// 40) from a physical address on (offset 32). `attribute` is how the memory is mapped (offset 48), by the bits of UEFI. It
    /// has no flag.
    pub fn new(index: u16, kind: RangeType, base: u64, size: u64, attribute: u64) -> SpaRange
        ensures { result ≡ spa_range index kind base size attribute }
    {
        SpaRange {
            index,
            flags: 0,
            domain: 0,
            kind,
            base,
            size,
            attribute,
            cookie: None,
        }
    }

    /// Sets flag 1 (offset 6): the control region is only for modules that are added while the machine runs.
    pub fn hot_add_only(mut self) -> SpaRange
        ensures { result ≡ record self { flags = bit_or self.flags 1 } }
    {
        self.flags |= HOT_ADD_ONLY;
        self
    }

    /// Sets the proximity domain (offset 12), and flag 2 (offset 6), which says that it is valid.
    pub fn proximity_domain(mut self, domain: u32) -> SpaRange
        ensures { result ≡ record self { flags = bit_or self.flags 2; domain = domain } }
    {
        self.flags |= DOMAIN_VALID;
        self.domain = domain;
        self
    }

    /// Sets the location cookie (offset 56), and flag 4 (offset 6), which says that it is valid. The range then has 64 bytes.
    pub fn location_cookie(mut self, cookie: u64) -> SpaRange
        ensures { result ≡ record self { flags = bit_or self.flags 4; cookie = Some cookie } }
    {
        self.flags |= COOKIE_VALID;
        self.cookie = Some(cookie);
        self
    }

    // The number of bytes of the range.
    fn size(&self) -> usize
        ensures { result ≡ spa_size self.now.cookie }
    {
        match self.cookie {
            Some(_) => 64,
            None => 56,
        }
    }

    // The bytes of a range with a cookie. If it has none, these are 0.
    fn bytes(&self) -> [u8; 64]
        ensures { result ≡ fields_joined (spa_fields self.now) }
    {
        record_of(
            &SPA_RANGE,
            &[
                Value::Number(0),
                Value::Number(self.size() as u64),
                Value::Number(u64::from(self.index)),
                Value::Number(u64::from(self.flags)),
                Value::Number(0),
                Value::Number(u64::from(self.domain)),
                Value::Bytes(&self.kind.guid()),
                Value::Number(self.base),
                Value::Number(self.size),
                Value::Number(self.attribute),
                Value::Number(self.cookie.unwrap_or(0)),
            ],
        )
    }
}

/// The rows of a range. One without a cookie doesn't have the last.
pub const SPA_RANGE: [Row; 11] = [
    Row::Preset("Type", 2, 0),
    Row::Number("Length", 2),
    Row::Number("SPA Range Structure Index", 2),
    Row::Flags(
        "Flags",
        2,
        &[
            Bits::Flag(0x1, "Control Region Only for Hot Add"),
            Bits::Flag(0x2, "Proximity Domain Valid"),
            Bits::Flag(0x4, "SPALocationCookie Valid"),
        ],
    ),
    Row::Reserved(4),
    Row::Hex("Proximity Domain", 4),
    Row::Uuid("Address Range Type GUID"),
    Row::Hex("System Physical Address Range Base", 8),
    Row::Number("System Physical Address Range Length", 8),
    Row::Hex("Address Range Memory Mapping Attribute", 8),
    Row::Hex("SPALocationCookie", 8),
];

/// The rows of the fields of a range, in order.
pub fn spa_range_rows() -> &'static [Row]
    ensures { (r : SpaRange) → AreRowsOf result.now (spa_fields r) }
{
    &SPA_RANGE
}

impl Aml for SpaRange {
    ghost object = { λ r. whole (spa_bytes r) };

    ghost ends_well = { λ r. whole_ends_well (spa_bytes r) };

    fn to_aml_bytes(&self, sink: &mut dyn AmlSink) -> R<()> {
        sink.vec(&self.bytes()[..self.size()])
    }
}
