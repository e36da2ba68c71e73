//! SMMUs of versions 1, 2 and 3.

ghost use Rattle.std.specs.Prelude.{◌≡◌, bit_or};
ghost use Rattle.acpi_base.specs.Fields.{AreRowsOf};
ghost use Rattle.acpi_base.specs.Object.{whole, whole_ends_well};
ghost use Rattle.acpi_core.specs.Entries.{with_entry};
ghost use Rattle.acpi_core.specs.Structure.{structure_of, structure_ends_well};
ghost use Rattle.acpi_arm.specs.Iort.{Pushes, mapping_bytes};
ghost use Rattle.acpi_arm.specs.IortSmmus.{model_number, smmu_interrupt, smmu_interrupt_fields, smmu_interrupt_bytes, smmu};
ghost use Rattle.acpi_arm.specs.IortSmmus.{monitors_at, smmu_mappings_at, smmu_size, smmu_head_fields, smmu_head, smmu_bytes};
ghost use Rattle.acpi_arm.specs.IortSmmus.{model_3_number, httu_flags, smmu_v3, smmu_v3_head_fields, smmu_v3_head, smmu_v3_bytes};
ghost use Rattle.acpi_arm.specs.declared.iort.smmus.Smmu.{Smmu};
ghost use Rattle.acpi_arm.specs.declared.iort.smmus.SmmuV3.{SmmuV3};

use crate::iort::mapping::IdMapping;
use crate::offsets::offset_if;
use acpi_base::error::R;
use acpi_base::object::Aml;
use acpi_base::parts::write_parts;
use acpi_base::row::{Bits, Record, Row, Word, record_of_numbers, write_record};
use acpi_base::sink::AmlSink;
use acpi_core::entries::Entries;
use acpi_core::told::told_size;
use std::alloc::Global;

/// The model of an SMMUv1 or SMMUv2 (offset 32).
#[derive(Clone, Copy, Debug)]
pub enum SmmuModel {
    GenericV1 = 0,
    GenericV2 = 1,
    CoreLinkMmu400 = 2,
    CoreLinkMmu500 = 3,
    CoreLinkMmu401 = 4,
    CaviumThunderX = 5,
}

impl SmmuModel {
    fn number(self) -> u64
        ensures { result ≡ model_number self }
    {
        self as u64
    }
}

// A flag of an interrupt of an SMMU.
const EDGE_TRIGGERED: u32 = 1;

/// An interrupt of an SMMUv1 or SMMUv2: 8 bytes.
#[derive(Clone, Copy, Debug)]
pub struct SmmuInterrupt {
    gsiv: u32,
    flags: u32,
}

impl SmmuInterrupt {
    /// The interrupt with this global system interrupt vector (offset 0), level triggered.
    pub fn new(gsiv: u32) -> SmmuInterrupt
        ensures { result ≡ smmu_interrupt gsiv }
    {
        SmmuInterrupt { gsiv, flags: 0 }
    }

    /// Sets flag 1 (offset 4): the interrupt is edge triggered.
    pub fn edge_triggered(mut self) -> SmmuInterrupt
        ensures { result ≡ record self { flags = bit_or self.flags 1 } }
    {
        self.flags |= EDGE_TRIGGERED;
        self
    }
}

const INTERRUPT_FLAGS: [Bits; 1] = [Bits::OneOf(
    0x1,
    &[Word(0x0, "Level Triggered"), Word(0x1, "Edge Triggered")],
)];

/// The rows of a context interrupt, and of a PMU interrupt.
pub const SMMU_INTERRUPT: [Row; 2] = [
    Row::Number("GSIV", 4),
    Row::Flags("Interrupt Flags", 4, &INTERRUPT_FLAGS),
];

impl Record<8> for SmmuInterrupt {
    ghost fields = { smmu_interrupt_fields };

    fn rows() -> &'static [Row] {
        &SMMU_INTERRUPT
    }

    fn bytes(&self) -> [u8; 8] {
        record_of_numbers(
            &SMMU_INTERRUPT,
            &[u64::from(self.gsiv), u64::from(self.flags)],
        )
    }
}

impl Aml for SmmuInterrupt {
    ghost object = { λ i. whole (smmu_interrupt_bytes i) };

    ghost ends_well = { λ i. whole_ends_well (smmu_interrupt_bytes i) };

    fn to_aml_bytes(&self, sink: &mut dyn AmlSink) -> R<()> {
        write_record(self, sink)
    }
}

// Flags of an SMMUv1 or SMMUv2.
const DVM_SUPPORTED: u32 = 1;

const COHERENT_WALK: u32 = 1 << 1;

/// An SMMUv1 or SMMUv2: 76 bytes, 8 for each context interrupt and each PMU interrupt, and 20 for each mapping. Writing it
/// returns `FieldWidth` if it would have more than 65,535 bytes.
#[derive(Drop)]
pub struct Smmu {
    pub(crate) identifier: u32,
    base: u64,
    span: u64,
    model: SmmuModel,
    flags: u32,
    fault: SmmuInterrupt,
    configuration_fault: SmmuInterrupt,
    contexts: Entries<8, 8182>,
    monitors: Entries<8, 8182>,
    mappings: Entries<20, 3272>,
}

impl Smmu {
    /// The SMMU of a model (offset 32), whose registers begin at a physical address (offset 16) and have `span` bytes (offset
    /// 24). `fault` is the non-secure global fault interrupt SMMU_NSgIrpt (offset 60). The SMMU has no other interrupts. Its
    /// identifier is 0 until it is added to a table.
    pub fn new(alloc: Global, model: SmmuModel, base: u64, span: u64, fault: SmmuInterrupt) -> Smmu
        ensures { result ≡ smmu model base span fault }
    {
        Smmu {
            identifier: 0,
            base,
            span,
            model,
            flags: 0,
            fault,
            configuration_fault: SmmuInterrupt::new(0),
            contexts: Entries::new(alloc),
            monitors: Entries::new(alloc),
            mappings: Entries::new(alloc),
        }
    }

    /// Sets flag 1 (offset 36): the SMMU supports DVM messages.
    pub fn dvm_supported(mut self) -> Smmu
        ensures { result ≡ record self { flags = bit_or self.flags 1 } }
    {
        self.flags |= DVM_SUPPORTED;
        self
    }

    /// Sets flag 2 (offset 36): its page table walks are coherent.
    pub fn coherent_walk(mut self) -> Smmu
        ensures { result ≡ record self { flags = bit_or self.flags 2 } }
    {
        self.flags |= COHERENT_WALK;
        self
    }

    /// Sets the non-secure configuration fault interrupt SMMU_NSgCfgIrpt (offset 68).
    pub fn configuration_fault(mut self, interrupt: SmmuInterrupt) -> Smmu
        ensures { result ≡ record self { configuration_fault = interrupt } }
    {
        self.configuration_fault = interrupt;
        self
    }

    /// The number of context interrupts (offset 44): at most 8,182.
    pub fn context_interrupt_count(&self) -> usize
        ensures { result ≡ self.now.contexts.count }
    {
        self.contexts.len()
    }

    /// Adds a context interrupt. The error is `FieldWidth` at interrupt number 8,183. After an error the SMMU is unchanged.
    pub fn add_context_interrupt(&mut self, interrupt: SmmuInterrupt) -> R<()>
        ensures { Pushes result self.old
            (record self.old { contexts = with_entry self.old.contexts (smmu_interrupt_bytes interrupt) }) self.new
            self.old.contexts.count 8182 }
    {
        self.contexts.push(interrupt.bytes())
    }

    /// The number of PMU interrupts (offset 52): at most 8,182.
    pub fn pmu_interrupt_count(&self) -> usize
        ensures { result ≡ self.now.monitors.count }
    {
        self.monitors.len()
    }

    /// Adds an interrupt of the performance monitor. The error is `FieldWidth` at interrupt number 8,183. After an error the SMMU
    /// is unchanged.
    pub fn add_pmu_interrupt(&mut self, interrupt: SmmuInterrupt) -> R<()>
        ensures { Pushes result self.old
            (record self.old { monitors = with_entry self.old.monitors (smmu_interrupt_bytes interrupt) }) self.new
            self.old.monitors.count 8182 }
    {
        self.monitors.push(interrupt.bytes())
    }

    /// The number of mappings (offset 8): at most 3,272.
    pub fn mapping_count(&self) -> usize
        ensures { result ≡ self.now.mappings.count }
    {
        self.mappings.len()
    }

    /// Adds a mapping of stream ids. The error is `FieldWidth` at mapping number 3,273. After an error the SMMU is unchanged.
    pub fn add_mapping(&mut self, mapping: IdMapping) -> R<()>
        ensures { Pushes result self.old
            (record self.old { mappings = with_entry self.old.mappings (mapping_bytes mapping) }) self.new
            self.old.mappings.count 3272 }
    {
        self.mappings.push(mapping.bytes())
    }

    // The bytes of the node before its context interrupts.
    fn head(&self, monitors_start: u16, mappings_start: u16, size: u16) -> [u8; 76]
        requires monitors { monitors_start ≡ monitors_at self.now }
        requires mappings { mappings_start ≡ smmu_mappings_at self.now }
        requires size { size ≡ smmu_size self.now }
        ensures { result ≡ smmu_head self.now }
    {
        let (contexts, monitors) = (self.contexts.len(), self.monitors.len());
        let mappings = self.mappings.len();
        record_of_numbers(
            &SMMU,
            &[
                3,
                u64::from(size),
                3,
                u64::from(self.identifier),
                mappings as u64,
                u64::from(offset_if(mappings, mappings_start)),
                self.base,
                self.span,
                self.model.number(),
                u64::from(self.flags),
                60,
                contexts as u64,
                u64::from(offset_if(contexts, 76)),
                monitors as u64,
                u64::from(offset_if(monitors, monitors_start)),
                u64::from(self.fault.gsiv),
                u64::from(self.fault.flags),
                u64::from(self.configuration_fault.gsiv),
                u64::from(self.configuration_fault.flags),
            ],
        )
    }
}

/// The rows of an SMMUv1 or SMMUv2 node before its context interrupts.
pub const SMMU: [Row; 19] = [
    Row::Preset("Type", 1, 3),
    Row::Number("Length", 2),
    Row::Preset("Revision", 1, 3),
    Row::Hex("Identifier", 4),
    Row::Number("Number of ID Mappings", 4),
    Row::Number("Reference to ID Array", 4),
    Row::Hex("Base Address", 8),
    Row::Number("Span", 8),
    Row::OneOf(
        "Model",
        4,
        &[
            Word(0, "Generic SMMUv1"),
            Word(1, "Generic SMMUv2"),
            Word(2, "Arm CoreLink MMU-400"),
            Word(3, "Arm CoreLink MMU-500"),
            Word(4, "Arm CoreLink MMU-401"),
            Word(5, "Cavium ThunderX SMMUv2"),
        ],
    ),
    Row::Flags(
        "Flags",
        4,
        &[
            Bits::Flag(0x1, "DVM Supported"),
            Bits::Flag(0x2, "Coherent Page Table Walk"),
        ],
    ),
    Row::Preset("Reference to Global Interrupt Array", 4, 60),
    Row::Number("Number of Context Interrupts", 4),
    Row::Number("Reference to Context Interrupt Array", 4),
    Row::Number("Number of PMU Interrupts", 4),
    Row::Number("Reference to PMU Interrupt Array", 4),
    Row::Number("SMMU_NSgIrpt GSIV", 4),
    Row::Flags("SMMU_NSgIrpt Interrupt Flags", 4, &INTERRUPT_FLAGS),
    Row::Number("SMMU_NSgCfgIrpt GSIV", 4),
    Row::Flags("SMMU_NSgCfgIrpt Interrupt Flags", 4, &INTERRUPT_FLAGS),
];

/// The rows of the fields before an SMMU's context interrupts, in order.
pub fn smmu_rows() -> &'static [Row]
    ensures { (s : Smmu) → AreRowsOf result.now (smmu_head_fields s) }
{
    &SMMU
}

impl Aml for Smmu {
    ghost object = { λ s. structure_of (smmu_bytes s) };

    ghost ends_well = { λ s. structure_ends_well (smmu_bytes s) };

    fn to_aml_bytes(&self, sink: &mut dyn AmlSink) -> R<()> {
        let contexts = self.contexts.as_slice();
        let monitors = self.monitors.as_slice();
        let mappings = self.mappings.as_slice();
        let monitors_start = 76 + contexts.len();
        let mappings_start = monitors_start + monitors.len();
        let size = told_size(mappings_start + mappings.len())?;
        let head = self.head(monitors_start as u16, mappings_start as u16, size);
        write_parts(sink, &[&head, contexts, monitors, mappings])
    }
}

/// The model of an SMMUv3 (offset 40).
#[derive(Clone, Copy, Debug)]
pub enum SmmuV3Model {
    Generic = 0,
    HiSiliconHi161x = 1,
    CaviumCn99xx = 2,
}

impl SmmuV3Model {
    fn number(self) -> u64
        ensures { result ≡ model_3_number self }
    {
        self as u64
    }
}

/// What an SMMUv3 updates in page tables: HTTU Override (bits 1 and 2 at offset 24).
#[derive(Clone, Copy, Debug)]
pub enum Httu {
    AccessFlag = 2,
    AccessFlagAndDirty = 4,
}

// Flags of an SMMUv3.
const COHACC_OVERRIDE: u32 = 1;

const PROXIMITY_DOMAIN_VALID: u32 = 1 << 3;

/// An SMMUv3: 68 bytes, and 20 for each mapping. Unless all four of its interrupts have a GSIV, it sends messages for them, and a
/// reader takes one mapping as that of the SMMU's own device id, and not as one of stream ids: the one that `device_id_mapping`
/// names, or the first.
#[derive(Drop)]
pub struct SmmuV3 {
    pub(crate) identifier: u32,
    base: u64,
    flags: u32,
    httu: u32,
    vatos_address: u64,
    model: SmmuV3Model,
    event_gsiv: u32,
    pri_gsiv: u32,
    gerr_gsiv: u32,
    sync_gsiv: u32,
    domain: u32,
    device_id_mapping: u32,
    mappings: Entries<20, 3273>,
}

impl SmmuV3 {
    /// The SMMU of a model (offset 40), whose registers begin at a physical address (offset 16). Its identifier is 0 until it is
    /// added to a table, and so are its other fields.
    pub fn new(alloc: Global, model: SmmuV3Model, base: u64) -> SmmuV3
        ensures { result ≡ smmu_v3 model base }
    {
        SmmuV3 {
            identifier: 0,
            base,
            flags: 0,
            httu: 0,
            vatos_address: 0,
            model,
            event_gsiv: 0,
            pri_gsiv: 0,
            gerr_gsiv: 0,
            sync_gsiv: 0,
            domain: 0,
            device_id_mapping: 0,
            mappings: Entries::new(alloc),
        }
    }

    /// Sets flag 1 (offset 24): the SMMU's accesses are coherent. Its register is ignored.
    pub fn cohacc_override(mut self) -> SmmuV3
        ensures { result ≡ record self { flags = bit_or self.flags 1 } }
    {
        self.flags |= COHACC_OVERRIDE;
        self
    }

    /// Sets HTTU Override (bits 1 and 2 at offset 24): what the SMMU updates. Its register is ignored.
    pub fn httu_override(mut self, httu: Httu) -> SmmuV3
        ensures { result ≡ record self { httu = httu_flags httu } }
    {
        self.httu = httu as u32;
        self
    }

    /// Sets the physical address of the registers of VATOS (offset 32).
    pub fn vatos_address(mut self, address: u64) -> SmmuV3
        ensures { result ≡ record self { vatos_address = address } }
    {
        self.vatos_address = address;
        self
    }

    /// Sets the interrupt of events (offset 44).
    pub fn event_gsiv(mut self, gsiv: u32) -> SmmuV3
        ensures { result ≡ record self { event_gsiv = gsiv } }
    {
        self.event_gsiv = gsiv;
        self
    }

    /// Sets the interrupt of page requests (offset 48).
    pub fn pri_gsiv(mut self, gsiv: u32) -> SmmuV3
        ensures { result ≡ record self { pri_gsiv = gsiv } }
    {
        self.pri_gsiv = gsiv;
        self
    }

    /// Sets the interrupt of global errors (offset 52).
    pub fn gerr_gsiv(mut self, gsiv: u32) -> SmmuV3
        ensures { result ≡ record self { gerr_gsiv = gsiv } }
    {
        self.gerr_gsiv = gsiv;
        self
    }

    /// Sets the interrupt of synchronization (offset 56).
    pub fn sync_gsiv(mut self, gsiv: u32) -> SmmuV3
        ensures { result ≡ record self { sync_gsiv = gsiv } }
    {
        self.sync_gsiv = gsiv;
        self
    }

    /// Sets the proximity domain (offset 60), and flag 8.
    pub fn proximity_domain(mut self, domain: u32) -> SmmuV3
        ensures { result ≡ record self { domain = domain; flags = bit_or self.flags 8 } }
    {
        self.domain = domain;
        self.flags |= PROXIMITY_DOMAIN_VALID;
        self
    }

    /// Sets the index of the mapping of the SMMU's own device id (offset 64). A reader ignores it if all four interrupts have a
    /// GSIV.
    pub fn device_id_mapping(mut self, index: u32) -> SmmuV3
        ensures { result ≡ record self { device_id_mapping = index } }
    {
        self.device_id_mapping = index;
        self
    }

    /// The number of mappings (offset 8): at most 3,273.
    pub fn mapping_count(&self) -> usize
        ensures { result ≡ self.now.mappings.count }
    {
        self.mappings.len()
    }

    /// Adds a mapping of stream ids. The error is `FieldWidth` at mapping number 3,274. After an error the SMMU is unchanged.
    pub fn add_mapping(&mut self, mapping: IdMapping) -> R<()>
        ensures { Pushes result self.old
            (record self.old { mappings = with_entry self.old.mappings (mapping_bytes mapping) }) self.new
            self.old.mappings.count 3273 }
    {
        self.mappings.push(mapping.bytes())
    }

    // The bytes of the node before its mappings.
    fn head(&self) -> [u8; 68]
        ensures { result ≡ smmu_v3_head self.now }
    {
        let mappings = self.mappings.len();
        record_of_numbers(
            &SMMU_V3,
            &[
                4,
                68 + self.mappings.as_slice().len() as u64,
                4,
                u64::from(self.identifier),
                mappings as u64,
                u64::from(offset_if(mappings, 68)),
                self.base,
                u64::from(self.flags | self.httu),
                0,
                self.vatos_address,
                self.model.number(),
                u64::from(self.event_gsiv),
                u64::from(self.pri_gsiv),
                u64::from(self.gerr_gsiv),
                u64::from(self.sync_gsiv),
                u64::from(self.domain),
                u64::from(self.device_id_mapping),
            ],
        )
    }
}

/// The rows of an SMMUv3 node before its mappings.
pub const SMMU_V3: [Row; 17] = [
    Row::Preset("Type", 1, 4),
    Row::Number("Length", 2),
    Row::Preset("Revision", 1, 4),
    Row::Hex("Identifier", 4),
    Row::Number("Number of ID Mappings", 4),
    Row::Number("Reference to ID Array", 4),
    Row::Hex("Base Address", 8),
    Row::Flags(
        "Flags",
        4,
        &[
            Bits::Flag(0x1, "COHACC Override"),
            Bits::OneOf(
                0x6,
                &[
                    Word(0x2, "HTTU Override of the Access Flag"),
                    Word(0x4, "HTTU Override of the Access Flag and Dirty State"),
                ],
            ),
            Bits::Flag(0x8, "Proximity Domain Valid"),
            Bits::Flag(0x10, "DeviceID Mapping Index Valid"),
        ],
    ),
    Row::Reserved(4),
    Row::Hex("VATOS Address", 8),
    Row::OneOf(
        "Model",
        4,
        &[
            Word(0, "Generic SMMUv3"),
            Word(1, "HiSilicon Hi161x"),
            Word(2, "Cavium CN99xx"),
        ],
    ),
    Row::Number("Event GSIV", 4),
    Row::Number("PRI GSIV", 4),
    Row::Number("GERR GSIV", 4),
    Row::Number("Sync GSIV", 4),
    Row::Number("Proximity Domain", 4),
    Row::Number("DeviceID Mapping Index", 4),
];

/// The rows of the fields before an SMMU's mappings, in order.
pub fn smmu_v3_rows() -> &'static [Row]
    ensures { (s : SmmuV3) → AreRowsOf result.now (smmu_v3_head_fields s) }
{
    &SMMU_V3
}

impl Aml for SmmuV3 {
    ghost object = { λ s. whole (smmu_v3_bytes s) };

    ghost ends_well = { λ s. whole_ends_well (smmu_v3_bytes s) };

    fn to_aml_bytes(&self, sink: &mut dyn AmlSink) -> R<()> {
        write_parts(sink, &[&self.head(), self.mappings.as_slice()])
    }
}
