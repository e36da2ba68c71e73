//! Interrupts of x86 that come to another input than their number says, and those that can't be masked.

ghost use Rattle.std.specs.Prelude.{◌≡◌};
ghost use Rattle.acpi_base.specs.Object.{whole, whole_ends_well};
ghost use Rattle.acpi_lists.specs.MadtInterrupts.{inti_flags, source_override, source_override_bytes};
ghost use Rattle.acpi_lists.specs.MadtInterrupts.{source_override_fields, nmi_source, nmi_source_bytes, nmi_source_fields};
ghost use Rattle.acpi_lists.specs.MadtInterrupts.{local_apic_nmi, local_apic_nmi_bytes, local_apic_nmi_fields};
ghost use Rattle.acpi_lists.specs.MadtInterrupts.{local_x2apic_nmi, local_x2apic_nmi_bytes, local_x2apic_nmi_fields};

use acpi_base::error::R;
use acpi_base::object::Aml;
use acpi_base::row::{Bits, Record, Row, Word, record_of_numbers, write_record};
use acpi_base::sink::AmlSink;

/// At which level an interrupt is active (ACPI 6.5, 5.2.12.5, MPS INTI flags, bits 0 and 1).
#[derive(Clone, Copy, Debug, PartialEq)]
pub enum Polarity {
    /// As the bus of the interrupt has it.
    OfBus = 0,
    ActiveHigh = 1,
    ActiveLow = 3,
}

/// How an interrupt is triggered (ACPI 6.5, 5.2.12.5, MPS INTI flags, bits 2 and 3).
#[derive(Clone, Copy, Debug, PartialEq)]
pub enum TriggerMode {
    /// As the bus of the interrupt has it.
    OfBus = 0,
    Edge = 1,
    Level = 3,
}

// MPS INTI flags.
fn inti_flags(polarity: Polarity, trigger_mode: TriggerMode) -> u64
    ensures { result ≡ inti_flags polarity trigger_mode }
{
    polarity as u64 + 4 * (trigger_mode as u64)
}

// The names of all MPS INTI flags without reserved values.
const INTI_FLAGS: [Bits; 2] = [
    Bits::OneOf(
        0x3,
        &[
            Word(0x0, "Conforms to Bus Polarity"),
            Word(0x1, "Active High"),
            Word(0x3, "Active Low"),
        ],
    ),
    Bits::OneOf(
        0xc,
        &[
            Word(0x0, "Conforms to Bus Trigger Mode"),
            Word(0x4, "Edge Triggered"),
            Word(0xc, "Level Triggered"),
        ],
    ),
];

/// An interrupt of the ISA bus whose global system interrupt isn't its number on the bus, or whose polarity or trigger mode isn't
/// that of the bus: 10 bytes (ACPI 6.5, 5.2.12.5).
#[derive(Clone, Copy, Debug)]
pub struct InterruptSourceOverride {
    source: u8,
    global_system_interrupt: u32,
    polarity: Polarity,
    trigger_mode: TriggerMode,
}

impl InterruptSourceOverride {
    /// The interrupt with this number on the bus (offset 3) is this global system interrupt (offset 4). Its polarity and its
    /// trigger mode are those of the bus.
    pub fn new(source: u8, global_system_interrupt: u32) -> InterruptSourceOverride
        ensures { result ≡ source_override source global_system_interrupt }
    {
        InterruptSourceOverride {
            source,
            global_system_interrupt,
            polarity: Polarity::OfBus,
            trigger_mode: TriggerMode::OfBus,
        }
    }

    /// Sets the polarity (offset 8, bits 0 and 1).
    pub fn polarity(mut self, polarity: Polarity) -> InterruptSourceOverride
        ensures { result ≡ record self { polarity = polarity } }
    {
        self.polarity = polarity;
        self
    }

    /// Sets the trigger mode (offset 8, bits 2 and 3).
    pub fn trigger_mode(mut self, trigger_mode: TriggerMode) -> InterruptSourceOverride
        ensures { result ≡ record self { trigger_mode = trigger_mode } }
    {
        self.trigger_mode = trigger_mode;
        self
    }
}

/// The rows of an Interrupt Source Override Structure.
pub const INTERRUPT_SOURCE_OVERRIDE: [Row; 6] = [
    Row::Preset("Type", 1, 0x02),
    Row::Preset("Length", 1, 10),
    Row::OneOf("Bus", 1, &[Word(0, "ISA")]),
    Row::Number("Source", 1),
    Row::Number("Global System Interrupt", 4),
    Row::Flags("Flags", 2, &INTI_FLAGS),
];

impl Record<10> for InterruptSourceOverride {
    ghost fields = { source_override_fields };

    fn rows() -> &'static [Row] {
        &INTERRUPT_SOURCE_OVERRIDE
    }

    fn bytes(&self) -> [u8; 10] {
        record_of_numbers(
            &INTERRUPT_SOURCE_OVERRIDE,
            &[
                0x02,
                10,
                0,
                u64::from(self.source),
                u64::from(self.global_system_interrupt),
                inti_flags(self.polarity, self.trigger_mode),
            ],
        )
    }
}

impl Aml for InterruptSourceOverride {
    ghost object = { λ s. whole (source_override_bytes s) };

    ghost ends_well = { λ s. whole_ends_well (source_override_bytes s) };

    fn to_aml_bytes(&self, sink: &mut dyn AmlSink) -> R<()> {
        write_record(self, sink)
    }
}

/// A global system interrupt that can't be masked: 8 bytes (ACPI 6.5, 5.2.12.6).
#[derive(Clone, Copy, Debug)]
pub struct NmiSource {
    polarity: Polarity,
    trigger_mode: TriggerMode,
    global_system_interrupt: u32,
}

impl NmiSource {
    /// The global system interrupt (offset 4). Its polarity and its trigger mode are those of the bus.
    pub fn new(global_system_interrupt: u32) -> NmiSource
        ensures { result ≡ nmi_source global_system_interrupt }
    {
        NmiSource {
            polarity: Polarity::OfBus,
            trigger_mode: TriggerMode::OfBus,
            global_system_interrupt,
        }
    }

    /// Sets the polarity (offset 2, bits 0 and 1).
    pub fn polarity(mut self, polarity: Polarity) -> NmiSource
        ensures { result ≡ record self { polarity = polarity } }
    {
        self.polarity = polarity;
        self
    }

    /// Sets the trigger mode (offset 2, bits 2 and 3).
    pub fn trigger_mode(mut self, trigger_mode: TriggerMode) -> NmiSource
        ensures { result ≡ record self { trigger_mode = trigger_mode } }
    {
        self.trigger_mode = trigger_mode;
        self
    }
}

/// The rows of a Non-Maskable Interrupt (NMI) Source Structure.
pub const NMI_SOURCE: [Row; 4] = [
    Row::Preset("Type", 1, 0x03),
    Row::Preset("Length", 1, 8),
    Row::Flags("Flags", 2, &INTI_FLAGS),
    Row::Number("Global System Interrupt", 4),
];

impl Record<8> for NmiSource {
    ghost fields = { nmi_source_fields };

    fn rows() -> &'static [Row] {
        &NMI_SOURCE
    }

    fn bytes(&self) -> [u8; 8] {
        record_of_numbers(
            &NMI_SOURCE,
            &[
                0x03,
                8,
                inti_flags(self.polarity, self.trigger_mode),
                u64::from(self.global_system_interrupt),
            ],
        )
    }
}

impl Aml for NmiSource {
    ghost object = { λ s. whole (nmi_source_bytes s) };

    ghost ends_well = { λ s. whole_ends_well (nmi_source_bytes s) };

    fn to_aml_bytes(&self, sink: &mut dyn AmlSink) -> R<()> {
        write_record(self, sink)
    }
}

/// The input of a processor's local APIC to which NMIs come: 6 bytes (ACPI 6.5, 5.2.12.7).
#[derive(Clone, Copy, Debug)]
pub struct LocalApicNmi {
    processor_uid: u8,
    polarity: Polarity,
    trigger_mode: TriggerMode,
    local_apic_lint: u8,
}

impl LocalApicNmi {
    /// NMIs come to this local interrupt input, LINTn (offset 5), of the processor with this unique id in the namespace (offset
    /// 2). The unique id 0xff is every processor. Polarity and trigger mode are those of the bus.
    pub fn new(processor_uid: u8, local_apic_lint: u8) -> LocalApicNmi
        ensures { result ≡ local_apic_nmi processor_uid local_apic_lint }
    {
        LocalApicNmi {
            processor_uid,
            polarity: Polarity::OfBus,
            trigger_mode: TriggerMode::OfBus,
            local_apic_lint,
        }
    }

    /// NMIs come to this local interrupt input of every processor.
    pub fn of_all_processors(local_apic_lint: u8) -> LocalApicNmi
        ensures { result ≡ local_apic_nmi 0xff local_apic_lint }
    {
        LocalApicNmi::new(0xff, local_apic_lint)
    }

    /// Sets the polarity (offset 3, bits 0 and 1).
    pub fn polarity(mut self, polarity: Polarity) -> LocalApicNmi
        ensures { result ≡ record self { polarity = polarity } }
    {
        self.polarity = polarity;
        self
    }

    /// Sets the trigger mode (offset 3, bits 2 and 3).
    pub fn trigger_mode(mut self, trigger_mode: TriggerMode) -> LocalApicNmi
        ensures { result ≡ record self { trigger_mode = trigger_mode } }
    {
        self.trigger_mode = trigger_mode;
        self
    }
}

/// The rows of a Local APIC NMI Structure.
pub const LOCAL_APIC_NMI: [Row; 5] = [
    Row::Preset("Type", 1, 0x04),
    Row::Preset("Length", 1, 6),
    Row::Hex("ACPI Processor UID", 1),
    Row::Flags("Flags", 2, &INTI_FLAGS),
    Row::Number("Local APIC LINT#", 1),
];

impl Record<6> for LocalApicNmi {
    ghost fields = { local_apic_nmi_fields };

    fn rows() -> &'static [Row] {
        &LOCAL_APIC_NMI
    }

    fn bytes(&self) -> [u8; 6] {
        record_of_numbers(
            &LOCAL_APIC_NMI,
            &[
                0x04,
                6,
                u64::from(self.processor_uid),
                inti_flags(self.polarity, self.trigger_mode),
                u64::from(self.local_apic_lint),
            ],
        )
    }
}

impl Aml for LocalApicNmi {
    ghost object = { λ s. whole (local_apic_nmi_bytes s) };

    ghost ends_well = { λ s. whole_ends_well (local_apic_nmi_bytes s) };

    fn to_aml_bytes(&self, sink: &mut dyn AmlSink) -> R<()> {
        write_record(self, sink)
    }
}

/// The input of a processor's local x2APIC to which NMIs come: 12 bytes (ACPI 6.5, 5.2.12.13).
#[derive(Clone, Copy, Debug)]
pub struct LocalX2ApicNmi {
    polarity: Polarity,
    trigger_mode: TriggerMode,
    processor_uid: u32,
    local_x2apic_lint: u8,
}

impl LocalX2ApicNmi {
    /// NMIs come to this local interrupt input, LINTn (offset 8), of the processor with this unique id in the namespace (offset
    /// 4). The unique id 0xffffffff is every processor. Polarity and trigger mode are those of the bus.
    pub fn new(processor_uid: u32, local_x2apic_lint: u8) -> LocalX2ApicNmi
        ensures { result ≡ local_x2apic_nmi processor_uid local_x2apic_lint }
    {
        LocalX2ApicNmi {
            polarity: Polarity::OfBus,
            trigger_mode: TriggerMode::OfBus,
            processor_uid,
            local_x2apic_lint,
        }
    }

    /// NMIs come to this local interrupt input of every processor.
    pub fn of_all_processors(local_x2apic_lint: u8) -> LocalX2ApicNmi
        ensures { result ≡ local_x2apic_nmi 0xffff_ffff local_x2apic_lint }
    {
        LocalX2ApicNmi::new(0xffff_ffff, local_x2apic_lint)
    }

    /// Sets the polarity (offset 2, bits 0 and 1).
    pub fn polarity(mut self, polarity: Polarity) -> LocalX2ApicNmi
        ensures { result ≡ record self { polarity = polarity } }
    {
        self.polarity = polarity;
        self
    }

    /// Sets the trigger mode (offset 2, bits 2 and 3).
    pub fn trigger_mode(mut self, trigger_mode: TriggerMode) -> LocalX2ApicNmi
        ensures { result ≡ record self { trigger_mode = trigger_mode } }
    {
        self.trigger_mode = trigger_mode;
        self
    }
}

/// The rows of a Local x2APIC NMI Structure.
pub const LOCAL_X2APIC_NMI: [Row; 6] = [
    Row::Preset("Type", 1, 0x0a),
    Row::Preset("Length", 1, 12),
    Row::Flags("Flags", 2, &INTI_FLAGS),
    Row::Hex("ACPI Processor UID", 4),
    Row::Number("Local x2APIC LINT#", 1),
    Row::Reserved(3),
];

impl Record<12> for LocalX2ApicNmi {
    ghost fields = { local_x2apic_nmi_fields };

    fn rows() -> &'static [Row] {
        &LOCAL_X2APIC_NMI
    }

    fn bytes(&self) -> [u8; 12] {
        record_of_numbers(
            &LOCAL_X2APIC_NMI,
            &[
                0x0a,
                12,
                inti_flags(self.polarity, self.trigger_mode),
                u64::from(self.processor_uid),
                u64::from(self.local_x2apic_lint),
                0,
            ],
        )
    }
}

impl Aml for LocalX2ApicNmi {
    ghost object = { λ s. whole (local_x2apic_nmi_bytes s) };

    ghost ends_well = { λ s. whole_ends_well (local_x2apic_nmi_bytes s) };

    fn to_aml_bytes(&self, sink: &mut dyn AmlSink) -> R<()> {
        write_record(self, sink)
    }
}
