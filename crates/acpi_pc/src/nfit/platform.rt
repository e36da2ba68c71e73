//! SMBIOS structures, and what the platform can do.

ghost use Rattle.std.specs.Prelude.{◌≡◌, ◌≢◌, ◌<◌, ◌≤◌, bit_or, length, IfOk, IfErr, OnOk};
ghost use Rattle.acpi_base.specs.Fields.{AreRowsOf};
ghost use Rattle.acpi_base.specs.Object.{whole, whole_ends_well};
ghost use Rattle.acpi_pc.specs.NfitLists.{smbios, smbios_head_fields, smbios_head, smbios_bytes};
ghost use Rattle.acpi_pc.specs.NfitLists.{capabilities, capabilities_fields, capabilities_bytes};
ghost use Rattle.acpi_pc.specs.declared.nfit.platform.SmbiosInformation.{SmbiosInformation};

use crate::tail::Tail;
use acpi_base::error::{Error, R};
use acpi_base::object::Aml;
use acpi_base::parts::write_parts;
use acpi_base::row::{Bits, Record, Row, record_of_numbers, write_record};
use acpi_base::sink::AmlSink;
use std::alloc::Global;

// Capabilities of a platform.
const CACHE_FLUSH: u32 = 1;

const CONTROLLER_FLUSH: u32 = 1 << 1;

const MIRRORING: u32 = 1 << 2;

/// SMBIOS structures of modules: 8 bytes, and those of the structures (ACPI 6.5, 5.2.26.5, SMBIOS Management Information
/// Structure).
#[derive(Drop)]
pub struct SmbiosInformation {
    structures: Tail<65527>,
}

impl SmbiosInformation {
    /// The structures with these bytes (offset 8). The error is `FieldWidth` if there are more than 65,527.
    pub fn new(alloc: Global, structures: &[u8]) -> R<SmbiosInformation>
        ensures ok { IfOk result (λ s. s ≡ smbios structures.now) }
        ensures room { OnOk result (length structures.now ≤ 65527) }
        ensures err { IfErr result (λ e. e ≢ Error.Memory → (e ≡ Error.FieldWidth) × (65527 < length structures.now)) }
    {
        let mut bytes = Tail::new(alloc);
        bytes.push(structures, &[])?;
        Ok(SmbiosInformation { structures: bytes })
    }

    // The bytes before the structures.
    fn head(&self) -> [u8; 8]
        ensures { result ≡ smbios_head self.now }
    {
        record_of_numbers(
            &SMBIOS_INFORMATION,
            &[3, 8 + self.structures.as_slice().len() as u64, 0],
        )
    }
}

/// The rows of an SMBIOS Management Information Structure before its data.
pub const SMBIOS_INFORMATION: [Row; 3] = [
    Row::Preset("Type", 2, 3),
    Row::Number("Length", 2),
    Row::Reserved(4),
];

/// The rows of the fields before the data, in order.
pub fn smbios_rows() -> &'static [Row]
    ensures { (s : SmbiosInformation) → AreRowsOf result.now (smbios_head_fields s) }
{
    &SMBIOS_INFORMATION
}

impl Aml for SmbiosInformation {
    ghost object = { λ s. whole (smbios_bytes s) };

    ghost ends_well = { λ s. whole_ends_well (smbios_bytes s) };

    fn to_aml_bytes(&self, sink: &mut dyn AmlSink) -> R<()> {
        write_parts(sink, &[&self.head(), self.structures.as_slice()])
    }
}

/// What the platform can do: 16 bytes (ACPI 6.5, 5.2.26.9, Platform Capabilities Structure).
#[derive(Clone, Copy, Debug)]
pub struct Capabilities {
    highest: u8,
    flags: u32,
}

impl Capabilities {
    /// No capability. The bits of the capabilities up to `highest` (offset 4) are valid.
    pub fn new(highest: u8) -> Capabilities
        ensures { result ≡ capabilities highest }
    {
        Capabilities { highest, flags: 0 }
    }

    /// Sets capability 1 (offset 8): caches of processors are flushed to the modules at a loss of power.
    pub fn cache_flush(mut self) -> Capabilities
        ensures { result ≡ record self { flags = bit_or self.flags 1 } }
    {
        self.flags |= CACHE_FLUSH;
        self
    }

    /// Sets capability 2 (offset 8): buffers of memory controllers are flushed to the modules at a loss of power.
    pub fn controller_flush(mut self) -> Capabilities
        ensures { result ≡ record self { flags = bit_or self.flags 2 } }
    {
        self.flags |= CONTROLLER_FLUSH;
        self
    }

    /// Sets capability 4 (offset 8): byte-addressable persistent memory is mirrored.
    pub fn mirroring(mut self) -> Capabilities
        ensures { result ≡ record self { flags = bit_or self.flags 4 } }
    {
        self.flags |= MIRRORING;
        self
    }
}

/// The rows of a Platform Capabilities Structure.
pub const CAPABILITIES: [Row; 6] = [
    Row::Preset("Type", 2, 7),
    Row::Preset("Length", 2, 16),
    Row::Number("Highest Valid Capability", 1),
    Row::Reserved(3),
    Row::Flags(
        "Capabilities",
        4,
        &[
            Bits::Flag(
                0x1,
                "CPU Cache Flush to NVDIMM Durability on Power Loss Capable",
            ),
            Bits::Flag(
                0x2,
                "Memory Controller Flush to NVDIMM Durability on Power Loss Capable",
            ),
            Bits::Flag(
                0x4,
                "Byte Addressable Persistent Memory Hardware Mirroring Capable",
            ),
        ],
    ),
    Row::Reserved(4),
];

impl Record<16> for Capabilities {
    ghost fields = { capabilities_fields };

    fn rows() -> &'static [Row] {
        &CAPABILITIES
    }

    fn bytes(&self) -> [u8; 16] {
        record_of_numbers(
            &CAPABILITIES,
            &[7, 16, u64::from(self.highest), 0, u64::from(self.flags), 0],
        )
    }
}

impl Aml for Capabilities {
    ghost object = { λ c. whole (capabilities_bytes c) };

    ghost ends_well = { λ c. whole_ends_well (capabilities_bytes c) };

    fn to_aml_bytes(&self, sink: &mut dyn AmlSink) -> R<()> {
        write_record(self, sink)
    }
}
