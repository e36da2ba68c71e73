//! SRAT: the proximity domains of processors, memory and devices.

ghost use Rattle.std.specs.Prelude.{◌≡◌, ◌<◌, ℕ, List, true, false, bit_or, IfOk, IfErr, length};
ghost use Rattle.acpi_base.specs.Fields.{AreRowsOf};
ghost use Rattle.acpi_base.specs.Object.{Built, whole, whole_ends_well};
ghost use Rattle.acpi_base.specs.Walk.{srat_walk};
ghost use Rattle.acpi_base.specs.declared.oem.Oem.{Oem};
ghost use Rattle.acpi_core.specs.Addition.{Adds};
ghost use Rattle.acpi_core.specs.Calls.{IsAfterItsCalls};
ghost use Rattle.acpi_core.specs.Listing.{bytes_of, length_limit};
ghost use Rattle.acpi_core.specs.Walk.{IsWalked, Keeps};
ghost use Rattle.acpi_lists.specs.Srat.{srat, srat_of, memory_affinity, memory_affinity_bytes, memory_affinity_fields};
ghost use Rattle.acpi_lists.specs.Srat.{acpi_handle_fields, pci_handle_fields, handle_bytes, handle_object, handle_ends_well};
ghost use Rattle.acpi_lists.specs.Srat.{handle_type, is_address};
ghost use Rattle.acpi_lists.specs.Srat.{generic_initiator, generic_initiator_fields, generic_initiator_object};
ghost use Rattle.acpi_lists.specs.Srat.{generic_initiator_ends_well};
ghost use Rattle.acpi_lists.specs.Srat.{rintc_affinity, rintc_affinity_bytes, rintc_affinity_fields};
ghost use Rattle.acpi_lists.specs.SratProcessors.{apic_affinity_bytes, x2apic_affinity_bytes};
ghost use Rattle.acpi_lists.specs.SratProcessors.{gicc_affinity_bytes, its_affinity_bytes};
ghost use Rattle.acpi_lists.specs.declared.srat.GenericInitiator.{GenericInitiator};

mod processors;

use acpi_base::error::{Error, R};
use acpi_base::object::Aml;
use acpi_base::oem::Oem;
use acpi_base::row::{Bits, Record, Row, Value, Word, record_of, record_of_numbers, write_record};
use acpi_base::sink::AmlSink;
use acpi_core::form::Form;
use acpi_core::kind::Kind;
use acpi_core::table::Table;
use acpi_core::walked::{Walked, is_walked};
pub use processors::{
    GIC_ITS_AFFINITY, GICC_AFFINITY, GicItsAffinity, GiccAffinity, PROCESSOR_LOCAL_APIC_AFFINITY,
    PROCESSOR_LOCAL_X2APIC_AFFINITY, ProcessorLocalApicAffinity, ProcessorLocalX2ApicAffinity,
};
use std::alloc::Global;

/// The System Resource Affinity Table (ACPI 6.5, 5.2.16). Its structures begin at offset 48. Its revision is 1, with which Linux
/// uses only the low 8 bits of the proximity domains of memory and of local APICs.
#[derive(Drop)]
pub struct SRAT {
    table: Walked<SratKind, 48>,
}

/// The kind of SRAT.
pub struct SratKind;

impl Kind for SratKind {
    ghost walk = { srat_walk };

    ghost ported = { true };

    ghost limit = { length_limit };

    ghost closed = { true };
}

impl Aml for SRAT {
    ghost object = { λ t. whole (bytes_of t.table.table) };

    ghost ends_well = { λ t. whole_ends_well (bytes_of t.table.table) };

    fn to_aml_bytes(&self, sink: &mut dyn AmlSink) -> R<()> {
        self.table.to_aml_bytes(sink)
    }
}

impl SRAT {
    /// A table without structures.
    pub fn new(alloc: Global, oem_id: [u8; 6], oem_table_id: [u8; 8], oem_revision: u32) -> SRAT
        ensures { result.table.table ≡ srat (record { id = oem_id; table_id = oem_table_id; revision = oem_revision }) }
    {
        SRAT::of_revision(alloc, 1, oem_id, oem_table_id, oem_revision)
    }

    /// A table of a revision without structures. From revision 2 on the proximity domain of a processor has 32 bits; revision 3
    /// is that of ACPI 6.5.
    pub fn of_revision(
        alloc: Global,
        revision: u8,
        oem_id: [u8; 6],
        oem_table_id: [u8; 8],
        oem_revision: u32,
    ) -> SRAT
        ensures { result.table.table
            ≡ srat_of revision (record { id = oem_id; table_id = oem_table_id; revision = oem_revision }) }
    {
        let oem = Oem::new(oem_id, oem_table_id, oem_revision);
        let form = Form::new(*b"SRAT", revision, oem, 0);
        SRAT {
            table: Walked::of(Table::new(alloc, form, &[1, 0, 0, 0, 0, 0, 0, 0, 0, 0, 0, 0], &[])),
        }
    }

    /// Adds a range of memory. The error is `FieldWidth` if the length would reach 2^32.
    pub fn add_memory_affinity(&mut self, memory: MemoryAffinity) -> R<()>
        ensures { Adds result self.old.table (whole (memory_affinity_bytes memory)) self.new.table }
    {
        self.table.add_record(&memory)
    }

    /// Adds a generic initiator. The error is `PciAddress` if its handle's device or function is out of range, or `FieldWidth` if
    /// the length would reach 2^32.
    pub fn add_generic_initiator(&mut self, initiator: GenericInitiator) -> R<()>
        ensures { Adds result self.old.table (generic_initiator_object initiator) self.new.table }
    {
        self.table.add_object(&initiator)
    }

    /// Adds a processor's interrupt controller. The error is `FieldWidth` if the length would reach 2^32.
    pub fn add_rintc_affinity(&mut self, rintc: RintcAffinity) -> R<()>
        ensures { Adds result self.old.table (whole (rintc_affinity_bytes rintc)) self.new.table }
    {
        self.table.add_record(&rintc)
    }

    /// Adds a processor with a local APIC. The error is `FieldWidth` if the length would reach 2^32.
    pub fn add_processor_local_apic_affinity(
        &mut self,
        processor: ProcessorLocalApicAffinity,
    ) -> R<()>
        ensures { Adds result self.old.table (whole (apic_affinity_bytes processor)) self.new.table }
    {
        self.table.add_record(&processor)
    }

    /// Adds a processor with a local x2APIC. The error is `FieldWidth` if the length would reach 2^32.
    pub fn add_processor_local_x2apic_affinity(
        &mut self,
        processor: ProcessorLocalX2ApicAffinity,
    ) -> R<()>
        ensures { Adds result self.old.table (whole (x2apic_affinity_bytes processor)) self.new.table }
    {
        self.table.add_record(&processor)
    }

    /// Adds a processor with a CPU interface of a GIC. The error is `FieldWidth` if the length would reach 2^32.
    pub fn add_gicc_affinity(&mut self, processor: GiccAffinity) -> R<()>
        ensures { Adds result self.old.table (whole (gicc_affinity_bytes processor)) self.new.table }
    {
        self.table.add_record(&processor)
    }

    /// Adds an interrupt translation service of a GIC. The error is `FieldWidth` if the length would reach 2^32.
    pub fn add_gic_its_affinity(&mut self, service: GicItsAffinity) -> R<()>
        ensures { Adds result self.old.table (whole (its_affinity_bytes service)) self.new.table }
    {
        self.table.add_record(&service)
    }

    /// The number of bytes of the table.
    pub fn len(&self) -> usize
        ensures { result ≡ length (bytes_of self.now.table.table) }
    {
        self.table.len()
    }

    /// The number of structures.
    pub fn count(&self) -> u32
        ensures { result ≡ length self.now.table.table.structures }
    {
        self.table.count()
    }
}

/// A law: after any calls the table is correct. Its structures, in order, are the one list that the walk finds.
pub fn srat_is_walked(table: &SRAT)
    ensures keeps { Keeps true srat_walk length_limit true table.now.table.table }
    ensures walked { IsWalked true srat_walk table.now.table.table }
    ensures calls { (revision : ℕ) (oem : Oem) → IsAfterItsCalls true srat_walk (srat_of revision oem) table.now.table }
{
    is_walked(&table.table)
}

/// Flags of a range of memory (offset 28).
const ENABLED: u32 = 1;

const HOT_PLUGGABLE: u32 = 2;

const NON_VOLATILE: u32 = 4;

/// A range of memory and its proximity domain (ACPI 6.5, 5.2.16.2): 40 bytes.
#[derive(Drop)]
pub struct MemoryAffinity {
    domain: u32,
    base: u64,
    size: u64,
    flags: u32,
}

impl MemoryAffinity {
    /// A range of `length` bytes from the physical address `base_address` on, without flags.
    pub fn new(proximity_domain: u32, base_address: u64, length: u64) -> MemoryAffinity
        ensures { result ≡ memory_affinity proximity_domain base_address length }
    {
        MemoryAffinity {
            domain: proximity_domain,
            base: base_address,
            size: length,
            flags: 0,
        }
    }

    /// Sets flag 1: the range is enabled.
    pub fn enabled(mut self) -> MemoryAffinity
        ensures { result ≡ record self { flags = bit_or self.flags 1 } }
    {
        self.flags |= ENABLED;
        self
    }

    /// Sets flag 2: the range may be added and removed while the system runs.
    pub fn hotpluggable(mut self) -> MemoryAffinity
        ensures { result ≡ record self { flags = bit_or self.flags 2 } }
    {
        self.flags |= HOT_PLUGGABLE;
        self
    }

    /// Sets flag 4: the range keeps its contents without power.
    pub fn nonvolatile(mut self) -> MemoryAffinity
        ensures { result ≡ record self { flags = bit_or self.flags 4 } }
    {
        self.flags |= NON_VOLATILE;
        self
    }
}

/// The rows of a Memory Affinity Structure.
pub const MEMORY_AFFINITY: [Row; 9] = [
    Row::Preset("Type", 1, 1),
    Row::Preset("Length", 1, 40),
    Row::Number("Proximity Domain", 4),
    Row::Reserved(2),
    Row::Hex("Base Address", 8),
    Row::Number("Length", 8),
    Row::Reserved(4),
    Row::Flags(
        "Flags",
        4,
        &[
            Bits::Flag(0x1, "Enabled"),
            Bits::Flag(0x2, "Hot Pluggable"),
            Bits::Flag(0x4, "NonVolatile"),
        ],
    ),
    Row::Reserved(8),
];

impl Record<40> for MemoryAffinity {
    ghost fields = { memory_affinity_fields };

    fn rows() -> &'static [Row] {
        &MEMORY_AFFINITY
    }

    fn bytes(&self) -> [u8; 40] {
        record_of_numbers(
            &MEMORY_AFFINITY,
            &[
                1,
                40,
                u64::from(self.domain),
                0,
                self.base,
                self.size,
                0,
                u64::from(self.flags),
                0,
            ],
        )
    }
}

impl Aml for MemoryAffinity {
    ghost object = { λ m. whole (memory_affinity_bytes m) };

    ghost ends_well = { λ m. whole_ends_well (memory_affinity_bytes m) };

    fn to_aml_bytes(&self, sink: &mut dyn AmlSink) -> R<()> {
        write_record(self, sink)
    }
}

/// The device of an initiator (ACPI 6.5, 5.2.16.6), by its ids in the namespace or by its PCI address. Writing a PCI address
/// whose device or function is out of range returns `PciAddress`.
#[derive(Clone, Copy, Debug, PartialEq)]
pub enum Handle {
    Acpi {
        hid: [u8; 8],
        uid: [u8; 4],
    },
    Pci {
        segment: u16,
        bus: u8,
        device: u8,
        function: u8,
    },
}

impl Handle {
    /// The device with this `_HID` and `_UID`.
    pub fn new_acpi(hid: [u8; 8], uid: [u8; 4]) -> Handle
        ensures { result ≡ Handle.Acpi hid uid }
    {
        Handle::Acpi { hid, uid }
    }

    /// A PCI function. The caller proves that `device` is below 32 and `function` below 8. The segment is 0 in a system with one
    /// segment.
    pub fn new_pci(segment: u16, bus: u8, device: u8, function: u8) -> Handle
        requires device { device < 32 }
        requires function { function < 8 }
        ensures { result ≡ Handle.Pci segment bus device function }
    {
        Handle::Pci {
            segment,
            bus,
            device,
            function,
        }
    }

    // Device Handle Type.
    fn kind(&self) -> u8
        ensures { result ≡ handle_type self.now }
    {
        match self {
            Handle::Acpi { .. } => 0,
            Handle::Pci { .. } => 1,
        }
    }

    // The bytes of the handle.
    fn bytes(&self) -> R<[u8; 16]>
        ensures ok { IfOk result (λ bytes. Built (handle_object self.now) bytes) }
        ensures err { IfErr result (λ e. (e ≡ Error.PciAddress) × (is_address self.now ≡ false)) }
    {
        match *self {
            Handle::Acpi { hid, uid } => Ok(acpi_handle(hid, uid)),
            Handle::Pci {
                segment,
                bus,
                device,
                function,
            } => {
                if device >= 32 || function >= 8 {
                    return Err(Error::PciAddress);
                }
                Ok(record_of(
                    &PCI_HANDLE,
                    &[
                        Value::Number(u64::from(segment)),
                        Value::Number(u64::from(bus)),
                        Value::Number(u64::from(device * 8 + function)),
                        Value::Bytes(&[0; 12]),
                    ],
                ))
            }
        }
    }
}

fn acpi_handle(hid: [u8; 8], uid: [u8; 4]) -> [u8; 16]
    ensures { result ≡ handle_bytes (Handle.Acpi hid uid) }
{
    record_of(
        &ACPI_HANDLE,
        &[Value::Bytes(&hid), Value::Bytes(&uid), Value::Number(0)],
    )
}

/// The rows of the handle of an ACPI device.
pub const ACPI_HANDLE: [Row; 3] = [
    Row::Text("ACPI _HID", 8),
    Row::Hex("ACPI _UID", 4),
    Row::Reserved(4),
];

/// The rows of the handle of a PCI device.
pub const PCI_HANDLE: [Row; 4] = [
    Row::Number("PCI Segment", 2),
    Row::Number("PCI Bus Number", 1),
    Row::Flags(
        "PCI Device and Function Number",
        1,
        &[
            Bits::Number(0xf8, 0x8, "Device"),
            Bits::Number(0x7, 0x1, "Function"),
        ],
    ),
    Row::Reserved(12),
];

/// The rows of an ACPI device handle's fields, in order.
pub fn acpi_handle_rows() -> &'static [Row]
    ensures { (hid uid : List ℕ) → AreRowsOf result.now (acpi_handle_fields hid uid) }
{
    &ACPI_HANDLE
}

/// The rows of a PCI device handle's fields, in order.
pub fn pci_handle_rows() -> &'static [Row]
    ensures { (segment bus device function : ℕ) → AreRowsOf result.now (pci_handle_fields segment bus device function) }
{
    &PCI_HANDLE
}

impl Aml for Handle {
    ghost object = { handle_object };

    ghost ends_well = { λ h. handle_ends_well h };

    fn to_aml_bytes(&self, sink: &mut dyn AmlSink) -> R<()> {
        let bytes = self.bytes()?;
        sink.vec(&bytes)
    }
}

/// Flags of an initiator (offset 24).
const INITIATOR_ENABLED: u32 = 1;

const ARCHITECTURAL_TRANSACTIONS: u32 = 2;

/// A generic initiator, which is a device that accesses memory itself, and its proximity domain (ACPI 6.5, 5.2.16.6): 32 bytes.
/// Writing it returns `PciAddress` if its handle's device or function is out of range.
#[derive(Drop)]
pub struct GenericInitiator {
    domain: u32,
    handle: Handle,
    flags: u32,
}

impl GenericInitiator {
    /// An initiator without flags.
    pub fn new(proximity_domain: u32, handle: Handle) -> GenericInitiator
        ensures { result ≡ generic_initiator proximity_domain handle }
    {
        GenericInitiator {
            domain: proximity_domain,
            handle,
            flags: 0,
        }
    }

    /// Sets flag 1: the initiator is enabled.
    pub fn enabled(mut self) -> GenericInitiator
        ensures { result ≡ record self { flags = bit_or self.flags 1 } }
    {
        self.flags |= INITIATOR_ENABLED;
        self
    }

    /// Sets flag 2: the initiator supports all transactions of the architecture.
    pub fn architectural(mut self) -> GenericInitiator
        ensures { result ≡ record self { flags = bit_or self.flags 2 } }
    {
        self.flags |= ARCHITECTURAL_TRANSACTIONS;
        self
    }

    // The bytes of the structure.
    fn bytes(&self) -> R<[u8; 32]>
        ensures ok { IfOk result (λ bytes. Built (generic_initiator_object self.now) bytes) }
        ensures err { IfErr result (λ e. (e ≡ Error.PciAddress) × (is_address self.now.handle ≡ false)) }
    {
        let handle = self.handle.bytes()?;
        Ok(record_of(
            &GENERIC_INITIATOR,
            &[
                Value::Number(5),
                Value::Number(32),
                Value::Number(0),
                Value::Number(u64::from(self.handle.kind())),
                Value::Number(u64::from(self.domain)),
                Value::Bytes(&handle),
                Value::Number(u64::from(self.flags)),
                Value::Number(0),
            ],
        ))
    }
}

/// The rows of a Generic Initiator Affinity Structure.
pub const GENERIC_INITIATOR: [Row; 8] = [
    Row::Preset("Type", 1, 5),
    Row::Preset("Length", 1, 32),
    Row::Reserved(1),
    Row::OneOf("Device Handle Type", 1, &[Word(0, "ACPI"), Word(1, "PCI")]),
    Row::Number("Proximity Domain", 4),
    Row::Bytes("Device Handle", 16),
    Row::Flags(
        "Flags",
        4,
        &[
            Bits::Flag(0x1, "Enabled"),
            Bits::Flag(0x2, "Architectural Transactions"),
        ],
    ),
    Row::Reserved(4),
];

/// The rows of an initiator's fields, in order.
pub fn generic_initiator_rows() -> &'static [Row]
    ensures { (initiator : GenericInitiator) → AreRowsOf result.now (generic_initiator_fields initiator) }
{
    &GENERIC_INITIATOR
}

impl Aml for GenericInitiator {
    ghost object = { generic_initiator_object };

    ghost ends_well = { λ g. generic_initiator_ends_well g };

    fn to_aml_bytes(&self, sink: &mut dyn AmlSink) -> R<()> {
        let bytes = self.bytes()?;
        sink.vec(&bytes)
    }
}

/// Flags of a processor's interrupt controller (offset 12).
const RINTC_ENABLED: u32 = 1;

/// The interrupt controller of a RISC-V processor, its proximity domain and its clock domain (this project's profile): 20 bytes.
#[derive(Clone, Copy, Debug)]
pub struct RintcAffinity {
    domain: u32,
    uid: [u8; 4],
    flags: u32,
    clock_domain: u32,
}

impl RintcAffinity {
    /// The processor with this `_UID`, in proximity domain 0, without flags.
    pub fn new(acpi_processor_uid: [u8; 4], clock_domain: u32) -> RintcAffinity
        ensures { result ≡ rintc_affinity acpi_processor_uid clock_domain }
    {
        RintcAffinity {
            domain: 0,
            uid: acpi_processor_uid,
            flags: 0,
            clock_domain,
        }
    }

    /// Sets flag 1: the processor is enabled.
    pub fn enabled(mut self) -> RintcAffinity
        ensures { result ≡ record self { flags = bit_or self.flags 1 } }
    {
        self.flags |= RINTC_ENABLED;
        self
    }

    /// Sets the proximity domain (offset 4).
    pub fn proximity_domain(mut self, proximity_domain: u32) -> RintcAffinity
        ensures { result ≡ record self { domain = proximity_domain } }
    {
        self.domain = proximity_domain;
        self
    }
}

/// The rows of an RINTC Affinity Structure.
pub const RINTC_AFFINITY: [Row; 7] = [
    Row::Preset("Type", 1, 7),
    Row::Preset("Length", 1, 20),
    Row::Reserved(2),
    Row::Number("Proximity Domain", 4),
    Row::Hex("ACPI Processor UID", 4),
    Row::Flags("Flags", 4, &[Bits::Flag(0x1, "Enabled")]),
    Row::Number("Clock Domain", 4),
];

impl Record<20> for RintcAffinity {
    ghost fields = { rintc_affinity_fields };

    fn rows() -> &'static [Row] {
        &RINTC_AFFINITY
    }

    fn bytes(&self) -> [u8; 20] {
        record_of(
            &RINTC_AFFINITY,
            &[
                Value::Number(7),
                Value::Number(20),
                Value::Number(0),
                Value::Number(u64::from(self.domain)),
                Value::Bytes(&self.uid),
                Value::Number(u64::from(self.flags)),
                Value::Number(u64::from(self.clock_domain)),
            ],
        )
    }
}

impl Aml for RintcAffinity {
    ghost object = { λ r. whole (rintc_affinity_bytes r) };

    ghost ends_well = { λ r. whole_ends_well (rintc_affinity_bytes r) };

    fn to_aml_bytes(&self, sink: &mut dyn AmlSink) -> R<()> {
        write_record(self, sink)
    }
}
