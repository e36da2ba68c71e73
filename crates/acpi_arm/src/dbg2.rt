//! DBG2: the ports of a machine on which a kernel is debugged.

ghost use Rattle.std.specs.Prelude.{◌≡◌, ◌≢◌, ◌<◌, false, length, string_bytes, IfOk, IfErr, OnOk};
ghost use Rattle.acpi_base.specs.Fields.{AreRowsOf};
ghost use Rattle.acpi_base.specs.Object.{whole, whole_ends_well};
ghost use Rattle.acpi_base.specs.FurtherWalk.{dbg2_walk};
ghost use Rattle.acpi_base.specs.declared.oem.Oem.{Oem};
ghost use Rattle.acpi_core.specs.Addition.{Adds};
ghost use Rattle.acpi_core.specs.Calls.{IsAfterItsCalls};
ghost use Rattle.acpi_core.specs.Listing.{bytes_of};
ghost use Rattle.acpi_core.specs.Structure.{structure_of, structure_ends_well};
ghost use Rattle.acpi_core.specs.Walk.{IsWalked};
ghost use Rattle.acpi_fixed.specs.Spcr.{interface_number};
ghost use Rattle.acpi_arm.specs.Dbg2.{dbg2, KeepsDevices, port_type, port_subtype, Device, debug_device, with_register};
ghost use Rattle.acpi_arm.specs.Dbg2.{name_at, oem_data_at, device_size, device_head_fields, device_head, device_bytes};
ghost use Rattle.acpi_arm.specs.Lists.{DevicesAreRead};

use crate::offsets::offset_if;
use acpi_base::error::{Error, R};
use acpi_base::gas::GAS;
use acpi_base::object::Aml;
use acpi_base::oem::Oem;
use acpi_base::parts::write_parts;
use acpi_base::row::{Row, Word, record_of_numbers};
use acpi_base::sink::AmlSink;
use acpi_core::entries::Entries;
use acpi_core::form::Form;
use acpi_core::structure::Known;
use acpi_core::table::Table;
use acpi_core::told::told_size;
use acpi_fixed::spcr::InterfaceType;
use std::alloc::Global;
use std::marker::Model;

/// The Debug Port Table 2 (Microsoft), revision 0. The number of devices is at offset 40. They begin at offset 44, which the
/// field at offset 36 contains.
#[derive(Drop)]
pub struct DBG2 {
    table: Table<44>,
}

impl Model for DBG2 {
    ghost use Rattle.acpi_core.specs.Addition.{Counted};
    ghost use Rattle.acpi_arm.specs.Dbg2.{KeepsDevices};

    ghost Value = { Counted };

    ghost view = { λ t. t.table };

    ghost invariant = { λ t. KeepsDevices t.table.table };
}

impl Aml for DBG2 {
    ghost object = { λ t. whole (bytes_of t.table) };

    ghost ends_well = { λ t. whole_ends_well (bytes_of t.table) };

    fn to_aml_bytes(&self, sink: &mut dyn AmlSink) -> R<()> {
        self.table.to_aml_bytes(sink)
    }
}

impl DBG2 {
    /// A table without devices.
    pub fn new(alloc: Global, oem_id: [u8; 6], oem_table_id: [u8; 8], oem_revision: u32) -> DBG2
        ensures { result.table ≡ dbg2 (record { id = oem_id; table_id = oem_table_id; revision = oem_revision }) }
    {
        let oem = Oem::new(oem_id, oem_table_id, oem_revision);
        let form = Form::new(*b"DBG2", 0, oem, 4);
        DBG2 {
            table: Table::new(alloc, form, &[44, 0, 0, 0], &[]),
        }
    }

    /// Adds a device. The error is `FieldWidth` if the device would have more than 65,535 bytes, or the table's length would
    /// reach 2^32.
    pub fn add_device(&mut self, device: DebugDevice) -> R<()>
        ensures { Adds result self.old (structure_of (device_bytes device)) self.new }
    {
        self.table.add_object(&Known(&device))
    }

    /// The number of bytes of the table.
    pub fn len(&self) -> usize
        ensures { result ≡ length (bytes_of self.now.table) }
    {
        self.table.len() as usize
    }

    /// The number of devices.
    pub fn count(&self) -> u32
        ensures { result ≡ length self.now.table.structures }
    {
        self.table.count()
    }
}

/// A law: after any calls the table is correct. Its devices, in order, are the one list that the walk finds.
pub fn dbg2_is_walked(table: &DBG2)
    ensures keeps { KeepsDevices table.now.table }
    ensures walked { IsWalked false dbg2_walk table.now.table }
    ensures calls { (oem : Oem) → IsAfterItsCalls false dbg2_walk (dbg2 oem) table.now }
{
    let _ = &table.table;
}

/// A law: the bytes of a device contain the lengths and the offsets of its registers, of its name and of its OEM data, and have
/// them there.
pub fn dbg2_devices_are_read()
    ensures { DevicesAreRead }
{}

/// A port: its type (offset 12 of a device) and subtype (offset 14).
#[derive(Clone, Copy, Debug)]
pub enum DebugPort {
    /// A serial port with these registers, which are its subtype: type 0x8000.
    Serial(InterfaceType),
    /// A standard host controller of IEEE 1394: type 0x8001.
    Ieee1394,
    /// A USB controller that is compatible with xHCI and has a debug interface: type 0x8002, subtype 0.
    UsbXhci,
    /// A USB controller that is compatible with EHCI and has a debug interface: type 0x8002, subtype 1.
    UsbEhci,
    /// A network adapter of the vendor with this PCI vendor id, which is its subtype: type 0x8003.
    Net(u16),
}

impl DebugPort {
    // The number of the port's type.
    fn kind(self) -> u16
        ensures { result ≡ port_type self }
    {
        match self {
            DebugPort::Serial(_) => 0x8000,
            DebugPort::Ieee1394 => 0x8001,
            DebugPort::UsbXhci | DebugPort::UsbEhci => 0x8002,
            DebugPort::Net(_) => 0x8003,
        }
    }

    // The number of its subtype.
    fn subtype(self) -> u16
        ensures { result ≡ port_subtype self }
    {
        match self {
            DebugPort::Serial(registers) => interface_number(registers),
            DebugPort::Ieee1394 | DebugPort::UsbXhci => 0,
            DebugPort::UsbEhci => 1,
            DebugPort::Net(vendor) => vendor,
        }
    }
}

// The number of a serial port's registers.
fn interface_number(registers: InterfaceType) -> u16
    ensures { result ≡ interface_number registers }
{
    registers as u16
}

/// A device with a debug port: 22 bytes, 16 for each register, its name and a zero, and its OEM data. Writing it returns
/// `FieldWidth` if it would have more than 65,535 bytes.
#[derive(Drop)]
pub struct DebugDevice {
    port: DebugPort,
    addresses: Entries<12, 255>,
    sizes: Vec<u8>,
    name: Option<String>,
    oem_data: Vec<u8>,
}

impl Model for DebugDevice {
    ghost use Rattle.acpi_arm.specs.Dbg2.{Device, name_of};

    ghost Value = { Device };

    ghost view = { λ d. record {
      port = d.port;
      count = d.addresses.count;
      addresses = d.addresses.bytes;
      sizes = d.sizes.items;
      name = name_of d.name;
      oem_data = d.oem_data.items;
    } };
}

impl DebugDevice {
    /// A device with this port, without registers and OEM data. It has no device in the namespace, so its name is `.`.
    pub fn new(alloc: Global, port: DebugPort) -> DebugDevice
        ensures { result ≡ debug_device port }
    {
        DebugDevice {
            port,
            addresses: Entries::new(alloc),
            sizes: Vec::new(alloc),
            name: None,
            oem_data: Vec::new(alloc),
        }
    }

    /// The number of registers: at most 255.
    pub fn register_count(&self) -> usize
        ensures { result ≡ self.now.count }
    {
        self.addresses.len()
    }

    /// Adds a block of registers at an address, with its number of bytes, after the earlier ones. The number of registers is at
    /// offset 3. The error is `FieldWidth` at register number 256, and drops the device: check `register_count` before the call.
    pub fn register(mut self, address: GAS, size: u32) -> R<DebugDevice>
        ensures ok { IfOk result (λ d. d ≡ with_register self address size) }
        ensures room { OnOk result (self.count < 255) }
        ensures err { IfErr result (λ e. e ≢ Error.Memory → (e ≡ Error.FieldWidth) × (self.count ≡ 255)) }
    {
        self.addresses.push(address.bytes())?;
        self.sizes.extend_from_slice(&size.to_le_bytes())?;
        Ok(self)
    }

    /// Sets the full name of the device in the namespace, which is written with a zero after it.
    pub fn namespace_string(mut self, name: String) -> DebugDevice
        ensures { result ≡ record self { name = string_bytes name } }
    {
        self.name = Some(name);
        self
    }

    /// Sets the data of the manufacturer.
    pub fn oem_data(mut self, oem_data: Vec<u8>) -> DebugDevice
        ensures { result ≡ record self { oem_data = oem_data.items } }
    {
        self.oem_data = oem_data;
        self
    }

    // The name in the namespace, without its zero.
    fn name(&self) -> &[u8]
        ensures { result.now ≡ self.now.name }
    {
        match &self.name {
            Some(name) => name.as_bytes(),
            None => b".",
        }
    }

    // The bytes of the device before its registers.
    fn head(&self, name_start: u16, oem_start: u16, size: u16) -> [u8; 22]
        requires name { name_start ≡ name_at self.now }
        requires oem { oem_start ≡ oem_data_at self.now }
        requires size { size ≡ device_size self.now }
        ensures { result ≡ device_head self.now }
    {
        let addresses = self.addresses.as_slice().len() as u64;
        let oem_data = self.oem_data.len();
        record_of_numbers(
            &DEBUG_DEVICE,
            &[
                0,
                u64::from(size),
                self.addresses.len() as u64,
                self.name().len() as u64 + 1,
                u64::from(name_start),
                oem_data as u64,
                u64::from(offset_if(oem_data, oem_start)),
                u64::from(self.port.kind()),
                u64::from(self.port.subtype()),
                0,
                22,
                22 + addresses,
            ],
        )
    }
}

/// The rows of a Debug Device Information structure before its registers.
pub const DEBUG_DEVICE: [Row; 12] = [
    Row::Preset("Revision", 1, 0),
    Row::Number("Length", 2),
    Row::Number("NumberofGenericAddressRegisters", 1),
    Row::Number("NamespaceStringLength", 2),
    Row::Number("NamespaceStringOffset", 2),
    Row::Number("OemDataLength", 2),
    Row::Number("OemDataOffset", 2),
    Row::OneOf(
        "Port Type",
        2,
        &[
            Word(0x8000, "Serial"),
            Word(0x8001, "1394"),
            Word(0x8002, "USB"),
            Word(0x8003, "Net"),
        ],
    ),
    Row::Hex("Port Subtype", 2),
    Row::Reserved(2),
    Row::Preset("BaseAddressRegisterOffset", 2, 22),
    Row::Number("AddressSizeOffset", 2),
];

/// The rows of the fields before a device's registers, in order.
pub fn debug_device_rows() -> &'static [Row]
    ensures { (d : Device) → AreRowsOf result.now (device_head_fields d) }
{
    &DEBUG_DEVICE
}

impl Aml for DebugDevice {
    ghost object = { λ d. structure_of (device_bytes d) };

    ghost ends_well = { λ d. structure_ends_well (device_bytes d) };

    fn to_aml_bytes(&self, sink: &mut dyn AmlSink) -> R<()> {
        let addresses = self.addresses.as_slice();
        let name = self.name();
        let name_start = told_size(22 + addresses.len() + self.sizes.len())?;
        let oem_start = told_size(usize::from(name_start) + name.len() + 1)?;
        let size = told_size(usize::from(oem_start) + self.oem_data.len())?;
        let head = self.head(name_start, oem_start, size);
        write_parts(
            sink,
            &[&head, addresses, &self.sizes, name, &[0], &self.oem_data],
        )
    }
}
