//! CEDT: CXL host bridges and memory windows.

ghost use Rattle.std.specs.Prelude.{◌≡◌, ◌≢◌, ◌+◌, ◌/◌, ◌<◌, ◌++◌, true, bit_or, length, OnOk, OnErr, IfErr};
ghost use Rattle.acpi_base.specs.Bytes.{le};
ghost use Rattle.acpi_base.specs.Fields.{AreRowsOf};
ghost use Rattle.acpi_base.specs.Object.{whole, whole_ends_well};
ghost use Rattle.acpi_base.specs.Walk.{cedt_walk};
ghost use Rattle.acpi_base.specs.declared.oem.Oem.{Oem};
ghost use Rattle.acpi_core.specs.Addition.{Adds};
ghost use Rattle.acpi_core.specs.Calls.{IsAfterItsCalls};
ghost use Rattle.acpi_core.specs.Listing.{bytes_of, length_limit};
ghost use Rattle.acpi_core.specs.Walk.{IsWalked, Keeps};
ghost use Rattle.acpi_lists.specs.Cedt.{cedt, registers_of, host_bridge, host_bridge_bytes, ways_count, host_bridge_fields};
ghost use Rattle.acpi_lists.specs.Cedt.{Window, window, window_head_fields, window_head, window_object, window_ends_well};
ghost use Rattle.acpi_lists.specs.Cedt.{XorMaps, no_maps, maps_head_fields, maps_head, maps_bytes};
ghost use Rattle.acpi_lists.specs.Cedt.{port_association, port_association_bytes, port_association_fields};

use acpi_base::error::{Error, R};
use acpi_base::object::Aml;
use acpi_base::oem::Oem;
use acpi_base::parts::write_parts;
use acpi_base::pci::BDF;
use acpi_base::row::{Bits, Record, Row, Word, record_of_numbers, write_record};
use acpi_base::sink::AmlSink;
use acpi_core::entries::Entries;
use acpi_core::form::Form;
use acpi_core::kind::Kind;
use acpi_core::table::Table;
use acpi_core::walked::{Walked, is_walked};
use std::alloc::Global;
use std::marker::Model;

/// The CXL Early Discovery Table (this project's profile). Its structures begin at offset 36.
#[derive(Drop)]
pub struct CEDT {
    table: Walked<CedtKind, 36>,
}

/// The kind of CEDT.
pub struct CedtKind;

impl Kind for CedtKind {
    ghost walk = { cedt_walk };

    ghost ported = { true };

    ghost limit = { length_limit };

    ghost closed = { true };
}

impl Aml for CEDT {
    ghost object = { λ t. whole (bytes_of t.table.table) };

    ghost ends_well = { λ t. whole_ends_well (bytes_of t.table.table) };

    fn to_aml_bytes(&self, sink: &mut dyn AmlSink) -> R<()> {
        self.table.to_aml_bytes(sink)
    }
}

impl CEDT {
    /// A table without structures.
    pub fn new(alloc: Global, oem_id: [u8; 6], oem_table_id: [u8; 8], oem_revision: u32) -> CEDT
        ensures { result.table.table ≡ cedt (record { id = oem_id; table_id = oem_table_id; revision = oem_revision }) }
    {
        let oem = Oem::new(oem_id, oem_table_id, oem_revision);
        let form = Form::new(*b"CEDT", 1, oem, 0);
        CEDT {
            table: Walked::of(Table::new(alloc, form, &[], &[])),
        }
    }

    /// Adds a host bridge. The error is `FieldWidth` if the length would reach 2^32.
    pub fn add_host_bridge(&mut self, bridge: CxlHostBridge) -> R<()>
        ensures { Adds result self.old.table (whole (host_bridge_bytes bridge)) self.new.table }
    {
        self.table.add_record(&bridge)
    }

    /// Adds a memory window. The error is `Targets` if the number of its targets isn't its number of ways, or `FieldWidth` if the
    /// length would reach 2^32.
    pub fn add_fixed_memory(&mut self, memory: CxlFixedMemory) -> R<()>
        ensures { Adds result self.old.table (window_object memory) self.new.table }
    {
        self.table.add_object(&memory)
    }

    /// Adds the XOR maps of interleaving. The error is `FieldWidth` if the length would reach 2^32.
    pub fn add_xor_interleave_math(&mut self, math: XorInterleaveMath) -> R<()>
        ensures { Adds result self.old.table (whole (maps_bytes math)) self.new.table }
    {
        self.table.add_object(&math)
    }

    /// Adds a port below a root complex event collector. The error is `FieldWidth` if the length would reach 2^32.
    pub fn add_port_association(&mut self, port: PortAssociation) -> R<()>
        ensures { Adds result self.old.table (whole (port_association_bytes port)) self.new.table }
    {
        self.table.add_record(&port)
    }

    /// The number of bytes of the table.
    pub fn len(&self) -> usize
        ensures { result ≡ length (bytes_of self.now.table.table) }
    {
        self.table.len()
    }

    /// The number of structures.
    pub fn count(&self) -> u32
        ensures { result ≡ length self.now.table.table.structures }
    {
        self.table.count()
    }
}

/// A law: after any calls the table is correct. Its structures, in order, are the one list that the walk finds.
pub fn cedt_is_walked(table: &CEDT)
    ensures keeps { Keeps true cedt_walk length_limit true table.now.table.table }
    ensures walked { IsWalked true cedt_walk table.now.table.table }
    ensures calls { (oem : Oem) → IsAfterItsCalls true cedt_walk (cedt oem) table.now.table }
{
    is_walked(&table.table)
}

/// The CXL version of a host bridge (offset 8).
#[derive(Copy, Clone, Debug, PartialEq)]
pub enum CxlVersion {
    Cxl1_1 = 0,
    Cxl2 = 1,
}

impl CxlVersion {
    fn registers(self) -> u64
        ensures { result ≡ registers_of self }
    {
        match self {
            CxlVersion::Cxl1_1 => 0x2000,
            CxlVersion::Cxl2 => 0x1_0000,
        }
    }
}

/// A CXL host bridge and its registers (CXL Host Bridge Structure): 32 bytes.
#[derive(Drop)]
pub struct CxlHostBridge {
    uid: u32,
    version: CxlVersion,
    base: u64,
}

impl CxlHostBridge {
    /// The bridge with this `_UID`, whose registers are at a physical address.
    pub fn new(host_bridge_uid: u32, cxl_version: CxlVersion, port_base: u64) -> CxlHostBridge
        ensures { result ≡ host_bridge host_bridge_uid cxl_version port_base }
    {
        CxlHostBridge {
            uid: host_bridge_uid,
            version: cxl_version,
            base: port_base,
        }
    }
}

/// The rows of a CXL Host Bridge Structure.
pub const CXL_HOST_BRIDGE: [Row; 8] = [
    Row::Preset("Type", 1, 0),
    Row::Reserved(1),
    Row::Preset("Record Length", 2, 32),
    Row::Hex("UID", 4),
    Row::OneOf("CXL Version", 4, &[Word(0, "CXL 1.1"), Word(1, "CXL 2.0")]),
    Row::Reserved(4),
    Row::Hex("Base", 8),
    Row::Number("Length", 8),
];

impl Record<32> for CxlHostBridge {
    ghost fields = { host_bridge_fields };

    fn rows() -> &'static [Row] {
        &CXL_HOST_BRIDGE
    }

    fn bytes(&self) -> [u8; 32] {
        record_of_numbers(
            &CXL_HOST_BRIDGE,
            &[
                0,
                0,
                32,
                u64::from(self.uid),
                self.version as u64,
                0,
                self.base,
                self.version.registers(),
            ],
        )
    }
}

impl Aml for CxlHostBridge {
    ghost object = { λ b. whole (host_bridge_bytes b) };

    ghost ends_well = { λ b. whole_ends_well (host_bridge_bytes b) };

    fn to_aml_bytes(&self, sink: &mut dyn AmlSink) -> R<()> {
        write_record(self, sink)
    }
}

/// How the addresses of a window are distributed over its targets (offset 25).
#[derive(Copy, Clone, Debug, PartialEq)]
pub enum InterleaveArithmetic {
    Modulo = 0,
    ModuloXor = 1,
}

/// The number of consecutive bytes that go to one target.
#[derive(Copy, Clone, Debug, PartialEq)]
pub enum InterleaveGranularity {
    Granularity256b = 0,
    Granularity512b = 1,
    Granularity1kb = 2,
    Granularity2kb = 3,
    Granularity4kb = 4,
    Granularity8kb = 5,
    Granularity16kb = 6,
}

/// The number of targets of a window (offset 24).
#[derive(Copy, Clone, Debug, PartialEq)]
pub enum InterleaveWays {
    Ways1 = 0,
    Ways2 = 1,
    Ways4 = 2,
    Ways8 = 3,
    Ways16 = 4,
    Ways3 = 8,
    Ways6 = 9,
    Ways12 = 10,
}

impl InterleaveWays {
    fn count(self) -> usize
        ensures { result ≡ ways_count self }
    {
        match self {
            InterleaveWays::Ways1 => 1,
            InterleaveWays::Ways2 => 2,
            InterleaveWays::Ways4 => 4,
            InterleaveWays::Ways8 => 8,
            InterleaveWays::Ways16 => 16,
            InterleaveWays::Ways3 => 3,
            InterleaveWays::Ways6 => 6,
            InterleaveWays::Ways12 => 12,
        }
    }
}

/// The permitted uses of a window (offset 32).
#[derive(Copy, Clone, Debug, PartialEq)]
pub enum WindowRestrictions {
    CxlType2Memory = 1,
    CxlType3Memory = 2,
    Volatile = 4,
    Persistent = 8,
    FixedConfiguration = 16,
}

/// A memory window of CXL host bridges (CXL Fixed Memory Window Structure): 36 bytes, and 4 for each target. Writing it returns
/// `Targets` unless it has as many targets as ways.
#[derive(Drop)]
pub struct CxlFixedMemory {
    base: u64,
    size: u64,
    arithmetic: InterleaveArithmetic,
    granularity: InterleaveGranularity,
    ways: InterleaveWays,
    restrictions: u16,
    qtg_id: u16,
    targets: Vec<u8>,
}

impl Model for CxlFixedMemory {
    ghost use Rattle.acpi_lists.specs.Cedt.{Window};

    ghost Value = { Window };

    ghost view = { λ w. record {
      base = w.base;
      size = w.size;
      arithmetic = w.arithmetic;
      granularity = w.granularity;
      ways = w.ways;
      restrictions = w.restrictions;
      qtg_id = w.qtg_id;
      targets = w.targets.items;
    } };
}

impl CxlFixedMemory {
    /// A window of `size` bytes from a physical address on, without restrictions and targets. `qtg_id` is its QoS throttling
    /// group.
    pub fn new(
        alloc: Global,
        base_addr: u64,
        size: u64,
        arithmetic: InterleaveArithmetic,
        granularity: InterleaveGranularity,
        ways: InterleaveWays,
        qtg_id: u16,
    ) -> CxlFixedMemory
        ensures { result ≡ window base_addr size arithmetic granularity ways qtg_id }
    {
        CxlFixedMemory {
            base: base_addr,
            size,
            arithmetic,
            granularity,
            ways,
            restrictions: 0,
            qtg_id,
            targets: Vec::new(alloc),
        }
    }

    /// The number of targets.
    pub fn target_count(&self) -> usize
        ensures { result ≡ length self.now.targets / 4 }
    {
        self.targets.len() / 4
    }

    /// Sets restriction 1: memory of type 2 devices is allowed.
    pub fn cxl_type_2_memory(mut self) -> CxlFixedMemory
        ensures { result ≡ record self { restrictions = bit_or self.restrictions 1 } }
    {
        self.restrictions |= WindowRestrictions::CxlType2Memory as u16;
        self
    }

    /// Sets restriction 2: memory of type 3 devices is allowed.
    pub fn cxl_type_3_memory(mut self) -> CxlFixedMemory
        ensures { result ≡ record self { restrictions = bit_or self.restrictions 2 } }
    {
        self.restrictions |= WindowRestrictions::CxlType3Memory as u16;
        self
    }

    /// Sets restriction 4: volatile memory is allowed.
    pub fn volatile(mut self) -> CxlFixedMemory
        ensures { result ≡ record self { restrictions = bit_or self.restrictions 4 } }
    {
        self.restrictions |= WindowRestrictions::Volatile as u16;
        self
    }

    /// Sets restriction 8: persistent memory is allowed.
    pub fn persistent(mut self) -> CxlFixedMemory
        ensures { result ≡ record self { restrictions = bit_or self.restrictions 8 } }
    {
        self.restrictions |= WindowRestrictions::Persistent as u16;
        self
    }

    /// Sets restriction 16: the configuration of the window is fixed.
    pub fn fixed_configuration(mut self) -> CxlFixedMemory
        ensures { result ≡ record self { restrictions = bit_or self.restrictions 16 } }
    {
        self.restrictions |= WindowRestrictions::FixedConfiguration as u16;
        self
    }

    /// Adds the id of a target, which is a host bridge's `_UID`. The only error is `Memory`; the window is unchanged then.
    pub fn add_target(&mut self, uid: [u8; 4]) -> R<()>
        ensures ok { OnOk result (self.new ≡ record self.old { targets = self.old.targets ++ uid }) }
        ensures err { OnErr result (self.new ≡ self.old) }
        ensures cause { IfErr result (λ e. e ≡ Error.Memory) }
    {
        self.targets.extend_from_slice(&uid)?;
        Ok(())
    }

    // The bytes of the structure before its targets.
    fn head(&self, size: u16) -> [u8; 36]
        requires { size ≡ 36 + length self.now.targets }
        ensures { result ≡ window_head self.now }
    {
        record_of_numbers(
            &FIXED_MEMORY,
            &[
                1,
                0,
                u64::from(size),
                0,
                self.base,
                self.size,
                self.ways as u64,
                self.arithmetic as u64,
                0,
                self.granularity as u64,
                u64::from(self.restrictions),
                u64::from(self.qtg_id),
            ],
        )
    }
}

// The words of Host Bridge Interleave Granularity.
const GRANULARITIES: [Word; 7] = [
    Word(0, "256 Bytes"),
    Word(1, "512 Bytes"),
    Word(2, "1 KiB"),
    Word(3, "2 KiB"),
    Word(4, "4 KiB"),
    Word(5, "8 KiB"),
    Word(6, "16 KiB"),
];

/// The rows of a CXL Fixed Memory Window Structure before its targets.
pub const FIXED_MEMORY: [Row; 12] = [
    Row::Preset("Type", 1, 1),
    Row::Reserved(1),
    Row::Number("Record Length", 2),
    Row::Reserved(4),
    Row::Hex("Base HPA", 8),
    Row::Number("Window Size", 8),
    Row::OneOf(
        "Encoded Number of Interleave Ways",
        1,
        &[
            Word(0, "1 Way"),
            Word(1, "2 Ways"),
            Word(2, "4 Ways"),
            Word(3, "8 Ways"),
            Word(4, "16 Ways"),
            Word(8, "3 Ways"),
            Word(9, "6 Ways"),
            Word(10, "12 Ways"),
        ],
    ),
    Row::OneOf(
        "Interleave Arithmetic",
        1,
        &[Word(0, "Standard Modulo"), Word(1, "Modulo with XOR")],
    ),
    Row::Reserved(2),
    Row::OneOf("Host Bridge Interleave Granularity", 4, &GRANULARITIES),
    Row::Flags(
        "Window Restrictions",
        2,
        &[
            Bits::Flag(0x1, "CXL Type 2 Memory"),
            Bits::Flag(0x2, "CXL Type 3 Memory"),
            Bits::Flag(0x4, "Volatile"),
            Bits::Flag(0x8, "Persistent"),
            Bits::Flag(0x10, "Fixed Device Configuration"),
        ],
    ),
    Row::Hex("QTG ID", 2),
];

/// The rows of a window's fields before its targets, in order.
pub fn fixed_memory_rows() -> &'static [Row]
    ensures { (w : Window) → AreRowsOf result.now (window_head_fields w) }
{
    &FIXED_MEMORY
}

impl Aml for CxlFixedMemory {
    ghost object = { window_object };

    ghost ends_well = { λ w. window_ends_well w };

    fn to_aml_bytes(&self, sink: &mut dyn AmlSink) -> R<()> {
        if self.targets.len() != 4 * self.ways.count() {
            return Err(Error::Targets);
        }
        let head = self.head(36 + self.targets.len() as u16);
        write_parts(sink, &[&head, &self.targets])
    }
}

/// The XOR maps of interleaving (CXL XOR Interleave Math Structure): 8 bytes, and 8 for each map.
#[derive(Drop)]
pub struct XorInterleaveMath {
    granularity: InterleaveGranularity,
    maps: Entries<8, 255>,
}

impl Model for XorInterleaveMath {
    ghost use Rattle.acpi_lists.specs.Cedt.{XorMaps};

    ghost Value = { XorMaps };

    ghost view = { λ x. record { granularity = x.granularity; count = x.maps.count; maps = x.maps.bytes } };
}

impl XorInterleaveMath {
    /// A structure without maps.
    pub fn new(alloc: Global, granularity: InterleaveGranularity) -> XorInterleaveMath
        ensures { result ≡ no_maps granularity }
    {
        XorInterleaveMath {
            granularity,
            maps: Entries::new(alloc),
        }
    }

    /// The number of maps: at most 255.
    pub fn map_count(&self) -> usize
        ensures { result ≡ self.now.count }
    {
        self.maps.len()
    }

    /// Adds a map. The error is `FieldWidth` at the 256th map. After an error the structure is unchanged.
    pub fn add_xormap(&mut self, xormap: u64) -> R<()>
        ensures ok { OnOk result (self.new
            ≡ record self.old { count = self.old.count + 1; maps = self.old.maps ++ le 8 xormap }) }
        ensures room { OnOk result (self.old.count < 255) }
        ensures err { OnErr result (self.new ≡ self.old) }
        ensures cause { IfErr result (λ e. e ≢ Error.Memory → (e ≡ Error.FieldWidth) × (self.old.count ≡ 255)) }
    {
        self.maps.push(xormap.to_le_bytes())
    }

    // The bytes of the structure before its maps.
    fn head(&self) -> [u8; 8]
        ensures { result ≡ maps_head self.now }
    {
        record_of_numbers(
            &XOR_MAPS,
            &[
                2,
                0,
                8 + self.maps.as_slice().len() as u64,
                0,
                self.granularity as u64,
                self.maps.len() as u64,
            ],
        )
    }
}

/// The rows of a CXL XOR Interleave Math Structure before its maps.
pub const XOR_MAPS: [Row; 6] = [
    Row::Preset("Type", 1, 2),
    Row::Reserved(1),
    Row::Number("Record Length", 2),
    Row::Reserved(2),
    Row::OneOf("Host Bridge Interleave Granularity", 1, &GRANULARITIES),
    Row::Number("Number of Bitmap Entries", 1),
];

/// The rows of the fields before the maps, in order.
pub fn xor_maps_rows() -> &'static [Row]
    ensures { (x : XorMaps) → AreRowsOf result.now (maps_head_fields x) }
{
    &XOR_MAPS
}

impl Aml for XorInterleaveMath {
    ghost object = { λ x. whole (maps_bytes x) };

    ghost ends_well = { λ x. whole_ends_well (maps_bytes x) };

    fn to_aml_bytes(&self, sink: &mut dyn AmlSink) -> R<()> {
        write_parts(sink, &[&self.head(), self.maps.as_slice()])
    }
}

/// The protocol of a port (offset 8).
#[derive(Copy, Clone, Debug, PartialEq)]
pub enum ProtocolType {
    CxlIo = 0,
    CxlMem = 1,
}

/// A port below a root complex event collector (RCEC Downstream Port Association Structure): 17 bytes.
#[derive(Drop)]
pub struct PortAssociation {
    segment: u16,
    bdf: u16,
    protocol: ProtocolType,
    base: u64,
}

impl PortAssociation {
    /// The port of a collector, given by the collector's PCI function and the port's base address. The caller proves that
    /// `device` is below 32 and `function` below 8.
    pub fn new(
        segment: u16,
        bus: u8,
        device: u8,
        function: u8,
        protocol: ProtocolType,
        base_addr: u64,
    ) -> PortAssociation
        requires device { device < 32 }
        requires function { function < 8 }
        ensures { result ≡ port_association segment bus device function protocol base_addr }
    {
        PortAssociation {
            segment,
            bdf: u16::from(bus) * 256 + u16::from(device) * 8 + u16::from(function),
            protocol,
            base: base_addr,
        }
    }
}

/// The rows of an RCEC Downstream Port Association Structure.
pub const PORT_ASSOCIATION: [Row; 7] = [
    Row::Preset("Type", 1, 3),
    Row::Reserved(1),
    Row::Preset("Record Length", 2, 17),
    Row::Number("RCEC Segment Number", 2),
    Row::Flags("RCEC BDF", 2, &BDF),
    Row::OneOf(
        "Protocol Type",
        1,
        &[Word(0, "CXL.io"), Word(1, "CXL.cachemem")],
    ),
    Row::Hex("Base Address", 8),
];

impl Record<17> for PortAssociation {
    ghost fields = { port_association_fields };

    fn rows() -> &'static [Row] {
        &PORT_ASSOCIATION
    }

    fn bytes(&self) -> [u8; 17] {
        record_of_numbers(
            &PORT_ASSOCIATION,
            &[
                3,
                0,
                17,
                u64::from(self.segment),
                u64::from(self.bdf),
                self.protocol as u64,
                self.base,
            ],
        )
    }
}

impl Aml for PortAssociation {
    ghost object = { λ p. whole (port_association_bytes p) };

    ghost ends_well = { λ p. whole_ends_well (port_association_bytes p) };

    fn to_aml_bytes(&self, sink: &mut dyn AmlSink) -> R<()> {
        write_record(self, sink)
    }
}
