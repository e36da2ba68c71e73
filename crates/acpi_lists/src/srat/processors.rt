//! The proximity domains of processors of x86 and Arm, and of interrupt translation services.

ghost use Rattle.std.specs.Prelude.{◌≡◌, bit_or};
ghost use Rattle.acpi_base.specs.Object.{whole, whole_ends_well};
ghost use Rattle.acpi_lists.specs.SratProcessors.{apic_affinity, apic_affinity_bytes, apic_affinity_fields};
ghost use Rattle.acpi_lists.specs.SratProcessors.{x2apic_affinity, x2apic_affinity_bytes, x2apic_affinity_fields};
ghost use Rattle.acpi_lists.specs.SratProcessors.{gicc_affinity, gicc_affinity_bytes, gicc_affinity_fields};
ghost use Rattle.acpi_lists.specs.SratProcessors.{its_affinity, its_affinity_bytes, its_affinity_fields};

use acpi_base::error::R;
use acpi_base::object::Aml;
use acpi_base::row::{Bits, Record, Row, record_of_numbers, write_record};
use acpi_base::sink::AmlSink;

/// A flag of a processor, which all of these structures have.
const ENABLED: u32 = 1;

/// A processor with a local APIC or a local SAPIC, and its proximity domain: 16 bytes (ACPI 6.5, 5.2.16.1). Since the revision of
/// the table is 1, Linux uses the low 8 bits of the proximity domain only.
#[derive(Clone, Copy, Debug)]
pub struct ProcessorLocalApicAffinity {
    domain: u32,
    apic_id: u8,
    flags: u32,
    local_sapic_eid: u8,
    clock_domain: u32,
}

impl ProcessorLocalApicAffinity {
    /// The processor with this id of its local APIC or local SAPIC (offset 3), without flags. Bits 7 to 0 of the proximity domain
    /// are at offset 2, and bits 31 to 8 at offset 9. Its clock domain is 0.
    pub fn new(proximity_domain: u32, apic_id: u8) -> ProcessorLocalApicAffinity
        ensures { result ≡ apic_affinity proximity_domain apic_id }
    {
        ProcessorLocalApicAffinity {
            domain: proximity_domain,
            apic_id,
            flags: 0,
            local_sapic_eid: 0,
            clock_domain: 0,
        }
    }

    /// Sets flag 1 (offset 4): the processor is enabled.
    pub fn enabled(mut self) -> ProcessorLocalApicAffinity
        ensures { result ≡ record self { flags = bit_or self.flags 1 } }
    {
        self.flags |= ENABLED;
        self
    }

    /// Sets the extended id (EID) of a local SAPIC (offset 8).
    pub fn local_sapic_eid(mut self, local_sapic_eid: u8) -> ProcessorLocalApicAffinity
        ensures { result ≡ record self { local_sapic_eid = local_sapic_eid } }
    {
        self.local_sapic_eid = local_sapic_eid;
        self
    }

    /// Sets the clock domain (offset 12).
    pub fn clock_domain(mut self, clock_domain: u32) -> ProcessorLocalApicAffinity
        ensures { result ≡ record self { clock_domain = clock_domain } }
    {
        self.clock_domain = clock_domain;
        self
    }
}

/// The rows of a Processor Local APIC/SAPIC Affinity Structure.
pub const PROCESSOR_LOCAL_APIC_AFFINITY: [Row; 8] = [
    Row::Preset("Type", 1, 0),
    Row::Preset("Length", 1, 16),
    Row::Number("Proximity Domain [7-0]", 1),
    Row::Hex("APIC ID", 1),
    Row::Flags("Flags", 4, &[Bits::Flag(0x1, "Enabled")]),
    Row::Hex("Local SAPIC EID", 1),
    Row::Number("Proximity Domain [31-8]", 3),
    Row::Number("Clock Domain", 4),
];

impl Record<16> for ProcessorLocalApicAffinity {
    ghost fields = { apic_affinity_fields };

    fn rows() -> &'static [Row] {
        &PROCESSOR_LOCAL_APIC_AFFINITY
    }

    fn bytes(&self) -> [u8; 16] {
        record_of_numbers(
            &PROCESSOR_LOCAL_APIC_AFFINITY,
            &[
                0,
                16,
                u64::from(self.domain % 256),
                u64::from(self.apic_id),
                u64::from(self.flags),
                u64::from(self.local_sapic_eid),
                u64::from(self.domain / 256),
                u64::from(self.clock_domain),
            ],
        )
    }
}

impl Aml for ProcessorLocalApicAffinity {
    ghost object = { λ s. whole (apic_affinity_bytes s) };

    ghost ends_well = { λ s. whole_ends_well (apic_affinity_bytes s) };

    fn to_aml_bytes(&self, sink: &mut dyn AmlSink) -> R<()> {
        write_record(self, sink)
    }
}

/// A processor with a local x2APIC, and its proximity domain: 24 bytes (ACPI 6.5, 5.2.16.3). Linux uses all 32 bits of the
/// proximity domain, but only the low 8 of one of memory, since the revision of the table is 1.
#[derive(Clone, Copy, Debug)]
pub struct ProcessorLocalX2ApicAffinity {
    domain: u32,
    x2apic_id: u32,
    flags: u32,
    clock_domain: u32,
}

impl ProcessorLocalX2ApicAffinity {
    /// The processor in this proximity domain (offset 4) with this local x2APIC id (offset 8), without flags. Its clock domain is
    /// 0.
    pub fn new(proximity_domain: u32, x2apic_id: u32) -> ProcessorLocalX2ApicAffinity
        ensures { result ≡ x2apic_affinity proximity_domain x2apic_id }
    {
        ProcessorLocalX2ApicAffinity {
            domain: proximity_domain,
            x2apic_id,
            flags: 0,
            clock_domain: 0,
        }
    }

    /// Sets flag 1 (offset 12): the processor is enabled.
    pub fn enabled(mut self) -> ProcessorLocalX2ApicAffinity
        ensures { result ≡ record self { flags = bit_or self.flags 1 } }
    {
        self.flags |= ENABLED;
        self
    }

    /// Sets the clock domain (offset 16).
    pub fn clock_domain(mut self, clock_domain: u32) -> ProcessorLocalX2ApicAffinity
        ensures { result ≡ record self { clock_domain = clock_domain } }
    {
        self.clock_domain = clock_domain;
        self
    }
}

/// The rows of a Processor Local x2APIC Affinity Structure.
pub const PROCESSOR_LOCAL_X2APIC_AFFINITY: [Row; 8] = [
    Row::Preset("Type", 1, 2),
    Row::Preset("Length", 1, 24),
    Row::Reserved(2),
    Row::Number("Proximity Domain", 4),
    Row::Hex("X2APIC ID", 4),
    Row::Flags("Flags", 4, &[Bits::Flag(0x1, "Enabled")]),
    Row::Number("Clock Domain", 4),
    Row::Reserved(4),
];

impl Record<24> for ProcessorLocalX2ApicAffinity {
    ghost fields = { x2apic_affinity_fields };

    fn rows() -> &'static [Row] {
        &PROCESSOR_LOCAL_X2APIC_AFFINITY
    }

    fn bytes(&self) -> [u8; 24] {
        record_of_numbers(
            &PROCESSOR_LOCAL_X2APIC_AFFINITY,
            &[
                2,
                24,
                0,
                u64::from(self.domain),
                u64::from(self.x2apic_id),
                u64::from(self.flags),
                u64::from(self.clock_domain),
                0,
            ],
        )
    }
}

impl Aml for ProcessorLocalX2ApicAffinity {
    ghost object = { λ s. whole (x2apic_affinity_bytes s) };

    ghost ends_well = { λ s. whole_ends_well (x2apic_affinity_bytes s) };

    fn to_aml_bytes(&self, sink: &mut dyn AmlSink) -> R<()> {
        write_record(self, sink)
    }
}

/// A processor with a CPU interface of a GIC, and its proximity domain: 18 bytes (ACPI 6.5, 5.2.16.4). Linux uses all 32 bits of
/// the proximity domain, but only the low 8 of one of memory, since the revision of the table is 1.
#[derive(Clone, Copy, Debug)]
pub struct GiccAffinity {
    domain: u32,
    processor_uid: u32,
    flags: u32,
    clock_domain: u32,
}

impl GiccAffinity {
    /// The processor in this proximity domain (offset 2) with this unique id in the namespace (offset 6), without flags. Its
    /// clock domain is 0.
    pub fn new(proximity_domain: u32, uid: u32) -> GiccAffinity
        ensures { result ≡ gicc_affinity proximity_domain uid }
    {
        GiccAffinity {
            domain: proximity_domain,
            processor_uid: uid,
            flags: 0,
            clock_domain: 0,
        }
    }

    /// Sets flag 1 (offset 10): the processor is enabled.
    pub fn enabled(mut self) -> GiccAffinity
        ensures { result ≡ record self { flags = bit_or self.flags 1 } }
    {
        self.flags |= ENABLED;
        self
    }

    /// Sets the clock domain (offset 14).
    pub fn clock_domain(mut self, clock_domain: u32) -> GiccAffinity
        ensures { result ≡ record self { clock_domain = clock_domain } }
    {
        self.clock_domain = clock_domain;
        self
    }
}

/// The rows of a GICC Affinity Structure.
pub const GICC_AFFINITY: [Row; 6] = [
    Row::Preset("Type", 1, 3),
    Row::Preset("Length", 1, 18),
    Row::Number("Proximity Domain", 4),
    Row::Hex("ACPI Processor UID", 4),
    Row::Flags("Flags", 4, &[Bits::Flag(0x1, "Enabled")]),
    Row::Number("Clock Domain", 4),
];

impl Record<18> for GiccAffinity {
    ghost fields = { gicc_affinity_fields };

    fn rows() -> &'static [Row] {
        &GICC_AFFINITY
    }

    fn bytes(&self) -> [u8; 18] {
        record_of_numbers(
            &GICC_AFFINITY,
            &[
                3,
                18,
                u64::from(self.domain),
                u64::from(self.processor_uid),
                u64::from(self.flags),
                u64::from(self.clock_domain),
            ],
        )
    }
}

impl Aml for GiccAffinity {
    ghost object = { λ s. whole (gicc_affinity_bytes s) };

    ghost ends_well = { λ s. whole_ends_well (gicc_affinity_bytes s) };

    fn to_aml_bytes(&self, sink: &mut dyn AmlSink) -> R<()> {
        write_record(self, sink)
    }
}

/// An interrupt translation service of a GIC (ITS), and its proximity domain: 12 bytes (ACPI 6.5, 5.2.16.5).
#[derive(Clone, Copy, Debug)]
pub struct GicItsAffinity {
    domain: u32,
    its_id: u32,
}

impl GicItsAffinity {
    /// The service in this proximity domain (offset 2) with this id (offset 8), which is that of its `GicIts` in the MADT.
    pub fn new(proximity_domain: u32, its_id: u32) -> GicItsAffinity
        ensures { result ≡ its_affinity proximity_domain its_id }
    {
        GicItsAffinity {
            domain: proximity_domain,
            its_id,
        }
    }
}

/// The rows of a GIC Interrupt Translation Service (ITS) Affinity Structure.
pub const GIC_ITS_AFFINITY: [Row; 5] = [
    Row::Preset("Type", 1, 4),
    Row::Preset("Length", 1, 12),
    Row::Number("Proximity Domain", 4),
    Row::Reserved(2),
    Row::Hex("ITS ID", 4),
];

impl Record<12> for GicItsAffinity {
    ghost fields = { its_affinity_fields };

    fn rows() -> &'static [Row] {
        &GIC_ITS_AFFINITY
    }

    fn bytes(&self) -> [u8; 12] {
        record_of_numbers(
            &GIC_ITS_AFFINITY,
            &[4, 12, u64::from(self.domain), 0, u64::from(self.its_id)],
        )
    }
}

impl Aml for GicItsAffinity {
    ghost object = { λ s. whole (its_affinity_bytes s) };

    ghost ends_well = { λ s. whole_ends_well (its_affinity_bytes s) };

    fn to_aml_bytes(&self, sink: &mut dyn AmlSink) -> R<()> {
        write_record(self, sink)
    }
}
