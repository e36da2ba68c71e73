//! IOMMUs.

ghost use Rattle.std.specs.Prelude.{◌≡◌, ◌+◌, ◌++◌, length};
ghost use Rattle.acpi_base.specs.Fields.{AreRowsOf};
ghost use Rattle.acpi_base.specs.Object.{whole, whole_ends_well};
ghost use Rattle.acpi_pc.specs.Grown.{Grows};
ghost use Rattle.acpi_pc.specs.Ivrs.{ivhd, ivhd_head_fields, ivhd_head, ivhd_bytes, extended_number, extended_ivhd};
ghost use Rattle.acpi_pc.specs.Ivrs.{extended_ivhd_head_fields, extended_ivhd_head, extended_ivhd_bytes};
ghost use Rattle.acpi_pc.specs.IvrsEntries.{entry_bytes, acpi_device_bytes};
ghost use Rattle.acpi_pc.specs.declared.ivrs.units.ExtendedIvhd.{ExtendedIvhd};
ghost use Rattle.acpi_pc.specs.declared.ivrs.units.Ivhd.{Ivhd};

use crate::ivrs::acpi_device::AcpiDevice;
use crate::ivrs::entries::DeviceEntry;
use crate::tail::Tail;
use acpi_base::error::R;
use acpi_base::object::Aml;
use acpi_base::parts::write_parts;
use acpi_base::row::{Bits, Row, Word, record_of_numbers};
use acpi_base::sink::AmlSink;
use std::alloc::Global;

/// The fields of an IOMMU that a block of each type has.
#[derive(Clone, Copy, Debug)]
pub struct Iommu {
    /// The flags (offset 1): HtTunEn 0x1, PassPW 0x2, ResPassPW 0x4, Isoc 0x8, IotlbSup 0x10, Coherent 0x20, PreFSup 0x40, PPRSup
    /// 0x80. The last two are reserved in blocks of the types 11h and 40h.
    pub flags: u8,
    /// The id of the IOMMU as a PCI function (offset 4), as in a `DeviceEntry`.
    pub device: u16,
    /// The offset of its capability block in the configuration space (offset 6).
    pub capability: u16,
    /// The physical address of its registers (offset 8).
    pub base: u64,
    /// The PCI segment (offset 16).
    pub segment: u16,
    /// The field IOMMU Info (offset 18): the number of its message in bits 0 to 4, and its unit id in bits 8 to 12.
    pub info: u16,
}

/// What the extended block of an IOMMU is, by its type (offset 0).
#[derive(Clone, Copy, Debug)]
pub enum ExtendedType {
    /// Type 11h, whose devices are PCI functions and special devices.
    Functions = 17,
    /// Type 40h, which may have devices of the namespace, too.
    AcpiDevices = 64,
}

// The flags of an IOMMU.
const IVHD_FLAGS: [Bits; 8] = [
    Bits::Flag(0x1, "HtTunEn"),
    Bits::Flag(0x2, "PassPW"),
    Bits::Flag(0x4, "ResPassPW"),
    Bits::Flag(0x8, "Isoc"),
    Bits::Flag(0x10, "IotlbSup"),
    Bits::Flag(0x20, "Coherent"),
    Bits::Flag(0x40, "PreFSup"),
    Bits::Flag(0x80, "PPRSup"),
];

/// An IOMMU: 24 bytes, and its device entries (AMD 48882, 5.2.2.1, I/O Virtualization Hardware Definition of type 10h).
#[derive(Drop)]
pub struct Ivhd {
    iommu: Iommu,
    features: u32,
    entries: Tail<65511>,
}

impl Ivhd {
    /// The IOMMU with these features (IOMMU Feature Reporting, offset 20), without entries.
    pub fn new(alloc: Global, iommu: Iommu, features: u32) -> Ivhd
        ensures { result ≡ ivhd iommu features }
    {
        Ivhd {
            iommu,
            features,
            entries: Tail::new(alloc),
        }
    }

    /// Adds a device entry. The error is `FieldWidth` if the block would have more than 65,535 bytes. After an error it is
    /// unchanged.
    pub fn add_entry(&mut self, entry: DeviceEntry) -> R<()>
        ensures { Grows result self.old (record self.old { entries = self.old.entries ++ entry_bytes entry }) self.new
            (length self.old.entries + length (entry_bytes entry)) 65511 }
    {
        entry.add_to(&mut self.entries)
    }

    /// Adds the entry of a device of the namespace. The errors are those of `add_entry`.
    pub fn add_acpi_device(&mut self, device: &AcpiDevice) -> R<()>
        ensures { Grows result self.old (record self.old { entries = self.old.entries ++ acpi_device_bytes device.now }) self.new
            (length self.old.entries + length (acpi_device_bytes device.now)) 65511 }
    {
        device.add_to(&mut self.entries)
    }

    // The bytes of the block before its entries.
    fn head(&self) -> [u8; 24]
        ensures { result ≡ ivhd_head self.now }
    {
        record_of_numbers(
            &IVHD,
            &[
                16,
                u64::from(self.iommu.flags),
                24 + self.entries.as_slice().len() as u64,
                u64::from(self.iommu.device),
                u64::from(self.iommu.capability),
                self.iommu.base,
                u64::from(self.iommu.segment),
                u64::from(self.iommu.info),
                u64::from(self.features),
            ],
        )
    }
}

/// The rows of an IVHD of type 10h before its entries.
pub const IVHD: [Row; 9] = [
    Row::Preset("Type", 1, 16),
    Row::Flags("Flags", 1, &IVHD_FLAGS),
    Row::Number("Length", 2),
    Row::Hex("DeviceID", 2),
    Row::Hex("Capability Offset", 2),
    Row::Hex("IOMMU Base Address", 8),
    Row::Hex("PCI Segment Group", 2),
    Row::Hex("IOMMU Info", 2),
    Row::Hex("IOMMU Feature Reporting", 4),
];

/// The rows of the fields of an IVHD of type 10h before its entries, in order.
pub fn ivhd_rows() -> &'static [Row]
    ensures { (u : Ivhd) → AreRowsOf result.now (ivhd_head_fields u) }
{
    &IVHD
}

impl Aml for Ivhd {
    ghost object = { λ u. whole (ivhd_bytes u) };

    ghost ends_well = { λ u. whole_ends_well (ivhd_bytes u) };

    fn to_aml_bytes(&self, sink: &mut dyn AmlSink) -> R<()> {
        write_parts(sink, &[&self.head(), self.entries.as_slice()])
    }
}

/// An IOMMU: 40 bytes, and its device entries (AMD 48882, 5.2.2.1, I/O Virtualization Hardware Definition of the types 11h and
/// 40h).
#[derive(Drop)]
pub struct ExtendedIvhd {
    kind: ExtendedType,
    iommu: Iommu,
    attributes: u32,
    features: u64,
    more_features: u64,
    entries: Tail<65495>,
}

impl ExtendedIvhd {
    /// The IOMMU with these attributes (offset 20), and the values of its extended feature registers (offsets 24 and 32), without
    /// entries.
    pub fn new(
        alloc: Global,
        kind: ExtendedType,
        iommu: Iommu,
        attributes: u32,
        features: u64,
        more_features: u64,
    ) -> ExtendedIvhd
        ensures { result ≡ extended_ivhd kind iommu attributes features more_features }
    {
        ExtendedIvhd {
            kind,
            iommu,
            attributes,
            features,
            more_features,
            entries: Tail::new(alloc),
        }
    }

    /// Adds a device entry. The error is `FieldWidth` if the block would have more than 65,535 bytes. After an error it is
    /// unchanged.
    pub fn add_entry(&mut self, entry: DeviceEntry) -> R<()>
        ensures { Grows result self.old (record self.old { entries = self.old.entries ++ entry_bytes entry }) self.new
            (length self.old.entries + length (entry_bytes entry)) 65495 }
    {
        entry.add_to(&mut self.entries)
    }

    /// Adds the entry of a device of the namespace. The errors are those of `add_entry`.
    pub fn add_acpi_device(&mut self, device: &AcpiDevice) -> R<()>
        ensures { Grows result self.old (record self.old { entries = self.old.entries ++ acpi_device_bytes device.now }) self.new
            (length self.old.entries + length (acpi_device_bytes device.now)) 65495 }
    {
        device.add_to(&mut self.entries)
    }

    // The bytes of the block before its entries.
    fn head(&self) -> [u8; 40]
        ensures { result ≡ extended_ivhd_head self.now }
    {
        record_of_numbers(
            &EXTENDED_IVHD,
            &[
                self.kind as u64,
                u64::from(self.iommu.flags),
                40 + self.entries.as_slice().len() as u64,
                u64::from(self.iommu.device),
                u64::from(self.iommu.capability),
                self.iommu.base,
                u64::from(self.iommu.segment),
                u64::from(self.iommu.info),
                u64::from(self.attributes),
                self.features,
                self.more_features,
            ],
        )
    }
}

/// The rows of an IVHD of type 11h or 40h before its entries.
pub const EXTENDED_IVHD: [Row; 11] = [
    Row::OneOf("Type", 1, &[Word(17, "Type 11h"), Word(64, "Type 40h")]),
    Row::Flags("Flags", 1, &IVHD_FLAGS),
    Row::Number("Length", 2),
    Row::Hex("DeviceID", 2),
    Row::Hex("Capability Offset", 2),
    Row::Hex("IOMMU Base Address", 8),
    Row::Hex("PCI Segment Group", 2),
    Row::Hex("IOMMU Info", 2),
    Row::Hex("IOMMU Attributes", 4),
    Row::Hex("EFR Register Image", 8),
    Row::Hex("EFR Register Image 2", 8),
];

/// The rows of the fields of an IVHD of type 11h or 40h before its entries, in order.
pub fn extended_ivhd_rows() -> &'static [Row]
    ensures { (u : ExtendedIvhd) → AreRowsOf result.now (extended_ivhd_head_fields u) }
{
    &EXTENDED_IVHD
}

impl Aml for ExtendedIvhd {
    ghost object = { λ u. whole (extended_ivhd_bytes u) };

    ghost ends_well = { λ u. whole_ends_well (extended_ivhd_bytes u) };

    fn to_aml_bytes(&self, sink: &mut dyn AmlSink) -> R<()> {
        write_parts(sink, &[&self.head(), self.entries.as_slice()])
    }
}
