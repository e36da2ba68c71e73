//! Parts of modules, and their control and data windows.

ghost use Rattle.std.specs.Prelude.{◌≡◌, bit_or};
ghost use Rattle.acpi_base.specs.Object.{whole, whole_ends_well};
ghost use Rattle.acpi_pc.specs.Nfit.{region_mapping, mapping_fields, mapping_bytes, no_windows, control_region, control_fields};
ghost use Rattle.acpi_pc.specs.Nfit.{control_bytes, data_window, window_fields, window_bytes};

use acpi_base::error::R;
use acpi_base::object::Aml;
use acpi_base::row::{Bits, Record, Row, record_of_numbers, write_record};
use acpi_base::sink::AmlSink;

// Flags of a control region.
const MANUFACTURING_VALID: u8 = 1;

const WINDOWS_BUFFERED: u16 = 1;

/// A part of a module, which is in a range of physical addresses: 48 bytes (ACPI 6.5, 5.2.26.3, NVDIMM Region Mapping Structure).
#[derive(Clone, Copy, Debug)]
pub struct RegionMapping {
    handle: u32,
    physical_id: u16,
    region_id: u16,
    range: u16,
    control_region: u16,
    size: u64,
    offset: u64,
    base: u64,
    interleave: u16,
    ways: u16,
    state: u16,
}

impl RegionMapping {
    /// The part of `size` bytes (offset 16) of the module with this handle (offset 4) in the range with this index (offset 12; 0
    /// if in none), with the index of its control region (offset 14). It is in one module alone. Its other fields are zeros.
    pub fn new(handle: u32, range: u16, control_region: u16, size: u64) -> RegionMapping
        ensures { result ≡ region_mapping handle range control_region size }
    {
        RegionMapping {
            handle,
            physical_id: 0,
            region_id: 0,
            range,
            control_region,
            size,
            offset: 0,
            base: 0,
            interleave: 0,
            ways: 1,
            state: 0,
        }
    }

    /// Sets the handle of the module in SMBIOS (offset 8), and the part's id in the module (offset 10).
    pub fn ids(mut self, physical_id: u16, region_id: u16) -> RegionMapping
        ensures { result ≡ record self { physical_id = physical_id; region_id = region_id } }
    {
        self.physical_id = physical_id;
        self.region_id = region_id;
        self
    }

    /// Sets where the part begins, in bytes after the start of the range (offset 24), and in the module (offset 32).
    pub fn place(mut self, offset: u64, base: u64) -> RegionMapping
        ensures { result ≡ record self { offset = offset; base = base } }
    {
        self.offset = offset;
        self.base = base;
        self
    }

    /// Sets the index of the pattern by which modules are interleaved (offset 40), and their number (offset 42).
    pub fn interleaved(mut self, interleave: u16, ways: u16) -> RegionMapping
        ensures { result ≡ record self { interleave = interleave; ways = ways } }
    {
        self.interleave = interleave;
        self.ways = ways;
        self
    }

    /// Sets the flags of the module's state (offset 44).
    pub fn state(mut self, flags: u16) -> RegionMapping
        ensures { result ≡ record self { state = flags } }
    {
        self.state = flags;
        self
    }
}

/// The rows of a region mapping.
pub const REGION_MAPPING: [Row; 14] = [
    Row::Preset("Type", 2, 1),
    Row::Preset("Length", 2, 48),
    Row::Hex("NFIT Device Handle", 4),
    Row::Hex("NVDIMM Physical ID", 2),
    Row::Hex("NVDIMM Region ID", 2),
    Row::Number("SPA Range Structure Index", 2),
    Row::Number("NVDIMM Control Region Structure Index", 2),
    Row::Number("NVDIMM Region Size", 8),
    Row::Number("Region Offset", 8),
    Row::Hex("NVDIMM Physical Address Region Base", 8),
    Row::Number("Interleave Structure Index", 2),
    Row::Number("Interleave Ways", 2),
    Row::Flags(
        "NVDIMM State Flags",
        2,
        &[
            Bits::Flag(0x1, "SAVE Failed"),
            Bits::Flag(0x2, "RESTORE Failed"),
            Bits::Flag(0x4, "Platform Flush Failed"),
            Bits::Flag(0x8, "Not Armed"),
            Bits::Flag(0x10, "SMART Health Events Observed"),
            Bits::Flag(0x20, "Health Events Notified"),
            Bits::Flag(0x40, "Not Mapped"),
        ],
    ),
    Row::Reserved(2),
];

impl Record<48> for RegionMapping {
    ghost fields = { mapping_fields };

    fn rows() -> &'static [Row] {
        &REGION_MAPPING
    }

    fn bytes(&self) -> [u8; 48] {
        record_of_numbers(
            &REGION_MAPPING,
            &[
                1,
                48,
                u64::from(self.handle),
                u64::from(self.physical_id),
                u64::from(self.region_id),
                u64::from(self.range),
                u64::from(self.control_region),
                self.size,
                self.offset,
                self.base,
                u64::from(self.interleave),
                u64::from(self.ways),
                u64::from(self.state),
                0,
            ],
        )
    }
}

impl Aml for RegionMapping {
    ghost object = { λ m. whole (mapping_bytes m) };

    ghost ends_well = { λ m. whole_ends_well (mapping_bytes m) };

    fn to_aml_bytes(&self, sink: &mut dyn AmlSink) -> R<()> {
        write_record(self, sink)
    }
}

/// The block control windows of a module, and the registers of each. Sizes and offsets are in bytes; offsets are from the start
/// of a window.
#[derive(Clone, Copy, Debug)]
pub struct BlockWindows {
    /// The number of windows (offset 30).
    pub count: u16,
    /// The size of a window (offset 32).
    pub size: u64,
    /// The offset of the command register (offset 40), and its size (offset 48).
    pub command: (u64, u64),
    /// The offset of the status registers (offset 56), and their size (offset 64).
    pub status: (u64, u64),
}

/// The identity of modules, and their block control windows: 80 bytes (ACPI 6.5, 5.2.26.6, NVDIMM Control Region Structure).
#[derive(Clone, Copy, Debug)]
pub struct ControlRegion {
    index: u16,
    vendor: u16,
    device: u16,
    revision: u16,
    subsystem_vendor: u16,
    subsystem_device: u16,
    subsystem_revision: u16,
    valid: u8,
    location: u8,
    date: u16,
    serial_number: u32,
    interface_code: u16,
    windows: BlockWindows,
    flags: u16,
}

impl ControlRegion {
    /// The control region with this index (offset 4; not 0), of a module with these ids of its vendor (offset 6), its device
    /// (offset 8) and its revision (offset 10), its serial number (offset 24), and the code of its interface (offset 28). It has
    /// no windows and no flag.
    pub fn new(
        index: u16,
        vendor: u16,
        device: u16,
        revision: u16,
        serial_number: u32,
        interface_code: u16,
    ) -> ControlRegion
        ensures { result ≡ control_region index vendor device revision serial_number interface_code }
    {
        ControlRegion {
            index,
            vendor,
            device,
            revision,
            subsystem_vendor: 0,
            subsystem_device: 0,
            subsystem_revision: 0,
            valid: 0,
            location: 0,
            date: 0,
            serial_number,
            interface_code,
            windows: BlockWindows {
                count: 0,
                size: 0,
                command: (0, 0),
                status: (0, 0),
            },
            flags: 0,
        }
    }

    /// Sets the ids of the controller: its vendor (offset 12), its device (offset 14) and its revision (offset 16).
    pub fn subsystem(mut self, vendor: u16, device: u16, revision: u16) -> ControlRegion
        ensures { result ≡ record self {
          subsystem_vendor = vendor;
          subsystem_device = device;
          subsystem_revision = revision;
        } }
    {
        self.subsystem_vendor = vendor;
        self.subsystem_device = device;
        self.subsystem_revision = revision;
        self
    }

    /// Sets where the module was made (offset 19) and when (offset 20: the year in its low byte and the week in its high byte, in
    /// decimal digits of 4 bits), and valid field 1 (offset 18), which says that both are valid.
    pub fn manufactured(mut self, location: u8, date: u16) -> ControlRegion
        ensures { result ≡ record self { valid = bit_or self.valid 1; location = location; date = date } }
    {
        self.valid |= MANUFACTURING_VALID;
        self.location = location;
        self.date = date;
        self
    }

    /// Sets the block control windows.
    pub fn windows(mut self, windows: BlockWindows) -> ControlRegion
        ensures { result ≡ record self { windows = windows } }
    {
        self.windows = windows;
        self
    }

    /// Sets flag 1 (offset 72): the block data windows are buffered.
    pub fn buffered(mut self) -> ControlRegion
        ensures { result ≡ record self { flags = bit_or self.flags 1 } }
    {
        self.flags |= WINDOWS_BUFFERED;
        self
    }
}

/// The rows of a control region.
pub const CONTROL_REGION: [Row; 23] = [
    Row::Preset("Type", 2, 4),
    Row::Number("Length", 2),
    Row::Number("NVDIMM Control Region Structure Index", 2),
    Row::Hex("Vendor ID", 2),
    Row::Hex("Device ID", 2),
    Row::Hex("Revision ID", 2),
    Row::Hex("Subsystem Vendor ID", 2),
    Row::Hex("Subsystem Device ID", 2),
    Row::Hex("Subsystem Revision ID", 2),
    Row::Flags(
        "Valid Fields",
        1,
        &[Bits::Flag(0x1, "Manufacturing Fields Valid")],
    ),
    Row::Hex("Manufacturing Location", 1),
    Row::Hex("Manufacturing Date", 2),
    Row::Reserved(2),
    Row::Hex("Serial Number", 4),
    Row::Hex("Region Format Interface Code", 2),
    Row::Number("Number of Block Control Windows", 2),
    Row::Number("Size of Block Control Window", 8),
    Row::Number("Command Register Offset in Block Control Window", 8),
    Row::Number("Size of Command Register in Block Control Windows", 8),
    Row::Number("Status Register Offset in Block Control Window", 8),
    Row::Number("Size of Status Register in Block Control Windows", 8),
    Row::Flags(
        "NVDIMM Control Region Flag",
        2,
        &[Bits::Flag(0x1, "Block Data Windows Buffered")],
    ),
    Row::Reserved(6),
];

impl Record<80> for ControlRegion {
    ghost fields = { control_fields };

    fn rows() -> &'static [Row] {
        &CONTROL_REGION
    }

    fn bytes(&self) -> [u8; 80] {
        record_of_numbers(
            &CONTROL_REGION,
            &[
                4,
                80,
                u64::from(self.index),
                u64::from(self.vendor),
                u64::from(self.device),
                u64::from(self.revision),
                u64::from(self.subsystem_vendor),
                u64::from(self.subsystem_device),
                u64::from(self.subsystem_revision),
                u64::from(self.valid),
                u64::from(self.location),
                u64::from(self.date),
                0,
                u64::from(self.serial_number),
                u64::from(self.interface_code),
                u64::from(self.windows.count),
                self.windows.size,
                self.windows.command.0,
                self.windows.command.1,
                self.windows.status.0,
                self.windows.status.1,
                u64::from(self.flags),
                0,
            ],
        )
    }
}

impl Aml for ControlRegion {
    ghost object = { λ c. whole (control_bytes c) };

    ghost ends_well = { λ c. whole_ends_well (control_bytes c) };

    fn to_aml_bytes(&self, sink: &mut dyn AmlSink) -> R<()> {
        write_record(self, sink)
    }
}

/// The block data windows of modules: 40 bytes (ACPI 6.5, 5.2.26.7, NVDIMM Block Data Window Region Structure).
#[derive(Clone, Copy, Debug)]
pub struct DataWindow {
    control_region: u16,
    count: u16,
    start: u64,
    size: u64,
    capacity: u64,
    first_block: u64,
}

impl DataWindow {
    /// The windows of the control region with this index (offset 4; not 0): `count` windows (offset 6) of `size` bytes (offset
    /// 16), the first at an offset (offset 8) in its region, for a memory of `capacity` bytes (offset 24) whose first block is at
    /// an address of the module (offset 32).
    pub fn new(
        control_region: u16,
        count: u16,
        start: u64,
        size: u64,
        capacity: u64,
        first_block: u64,
    ) -> DataWindow
        ensures { result ≡ data_window control_region count start size capacity first_block }
    {
        DataWindow {
            control_region,
            count,
            start,
            size,
            capacity,
            first_block,
        }
    }
}

/// The rows of block data windows.
pub const DATA_WINDOW: [Row; 8] = [
    Row::Preset("Type", 2, 5),
    Row::Preset("Length", 2, 40),
    Row::Number("NVDIMM Control Region Structure Index", 2),
    Row::Number("Number of Block Data Windows", 2),
    Row::Number("Block Data Window Start Offset", 8),
    Row::Number("Size of Block Data Window", 8),
    Row::Number("Block Accessible Memory Capacity", 8),
    Row::Hex("Beginning Address of First Block", 8),
];

impl Record<40> for DataWindow {
    ghost fields = { window_fields };

    fn rows() -> &'static [Row] {
        &DATA_WINDOW
    }

    fn bytes(&self) -> [u8; 40] {
        record_of_numbers(
            &DATA_WINDOW,
            &[
                5,
                40,
                u64::from(self.control_region),
                u64::from(self.count),
                self.start,
                self.size,
                self.capacity,
                self.first_block,
            ],
        )
    }
}

impl Aml for DataWindow {
    ghost object = { λ w. whole (window_bytes w) };

    ghost ends_well = { λ w. whole_ends_well (window_bytes w) };

    fn to_aml_bytes(&self, sink: &mut dyn AmlSink) -> R<()> {
        write_record(self, sink)
    }
}
