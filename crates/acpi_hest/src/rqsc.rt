//! RQSC: controllers that allocate caches and memory bandwidth.

ghost use Rattle.std.specs.Prelude.{◌≡◌, ◌≢◌, length, true, false, IfOk, OnOk, OnErr, IfErr};
ghost use Rattle.acpi_base.specs.Fields.{AreRowsOf};
ghost use Rattle.acpi_base.specs.Object.{whole, whole_ends_well};
ghost use Rattle.acpi_base.specs.Walk.{rqsc_walk};
ghost use Rattle.acpi_base.specs.declared.oem.Oem.{Oem};
ghost use Rattle.acpi_core.specs.Addition.{Adds};
ghost use Rattle.acpi_core.specs.Calls.{IsAfterItsCalls};
ghost use Rattle.acpi_core.specs.Listing.{bytes_of, length_limit};
ghost use Rattle.acpi_core.specs.Walk.{IsWalked, Keeps};
ghost use Rattle.acpi_hest.specs.Rqsc.{rqsc, Controller, controller, controller_head_fields, controller_head};
ghost use Rattle.acpi_hest.specs.Rqsc.{controller_bytes, with_resource, has_room_for};

mod resource;

use crate::parts::write_behind;
use acpi_base::buffer::append_value;
use acpi_base::error::{Error, R};
use acpi_base::gas::GAS;
use acpi_base::object::Aml;
use acpi_base::oem::Oem;
use acpi_base::row::{Row, Value, Word, record_of};
use acpi_base::sink::AmlSink;
use acpi_core::form::Form;
use acpi_core::kind::Kind;
use acpi_core::table::Table;
use acpi_core::walked::{Walked, is_walked};
pub use resource::{
    ACPI_DEVICE_RESOURCE, ACPIDeviceResource, CACHE_RESOURCE, CacheResource, MEMORY_RESOURCE,
    MemoryAffinityStructureResource, PCI_DEVICE_RESOURCE, PCIDeviceResource, RESOURCE, ResourceID,
    ResourceStructure, ResourceType, resource_rows,
};
use std::alloc::Global;
use std::marker::Model;

/// The RISC-V Quality of Service Controller table (this project's profile). The number of controllers is at offset 36, and they
/// begin at offset 40.
#[derive(Drop)]
pub struct RQSC {
    table: Walked<RqscKind, 40>,
}

/// The kind of RQSC.
pub struct RqscKind;

impl Kind for RqscKind {
    ghost walk = { rqsc_walk };

    ghost ported = { true };

    ghost limit = { length_limit };

    ghost closed = { true };
}

impl Aml for RQSC {
    ghost object = { λ t. whole (bytes_of t.table.table) };

    ghost ends_well = { λ t. whole_ends_well (bytes_of t.table.table) };

    fn to_aml_bytes(&self, sink: &mut dyn AmlSink) -> R<()> {
        self.table.to_aml_bytes(sink)
    }
}

impl RQSC {
    /// A table without controllers.
    pub fn new(alloc: Global, oem_id: [u8; 6], oem_table_id: [u8; 8], oem_revision: u32) -> RQSC
        ensures { result.table.table ≡ rqsc (record { id = oem_id; table_id = oem_table_id; revision = oem_revision }) }
    {
        let oem = Oem::new(oem_id, oem_table_id, oem_revision);
        let form = Form::new(*b"RQSC", 1, oem, 4);
        RQSC {
            table: Walked::of(Table::new(alloc, form, &[], &[])),
        }
    }

    /// Adds a controller. The error is `FieldWidth` if the length would reach 2^32.
    pub fn add_controller(&mut self, controller: QoSController) -> R<()>
        ensures { Adds result self.old.table (whole (controller_bytes controller)) self.new.table }
    {
        self.table.add_object(&controller)
    }

    /// The number of bytes of the table.
    pub fn len(&self) -> usize
        ensures { result ≡ length (bytes_of self.now.table.table) }
    {
        self.table.len()
    }

    /// The number of controllers.
    pub fn count(&self) -> u32
        ensures { result ≡ length self.now.table.table.structures }
    {
        self.table.count()
    }
}

/// A law: after any calls the table is correct. Its controllers, in order, are the one list that the walk finds.
pub fn rqsc_is_walked(table: &RQSC)
    ensures keeps { Keeps true rqsc_walk length_limit true table.now.table.table }
    ensures walked { IsWalked true rqsc_walk table.now.table.table }
    ensures calls { (oem : Oem) → IsAfterItsCalls true rqsc_walk (rqsc oem) table.now.table }
{
    is_walked(&table.table)
}

/// The type of a controller (offset 0).
#[derive(Clone, Copy, Debug, PartialEq)]
pub enum ControllerType {
    Capacity = 0,
    Bandwidth = 1,
}

/// A controller and its resources: 28 bytes, and the bytes of the resources.
#[derive(Drop, Debug)]
pub struct QoSController {
    kind: u8,
    register: GAS,
    rcid_count: u32,
    mcid_count: u32,
    flags: u16,
    count: u16,
    resources: Vec<u8>,
}

impl Model for QoSController {
    ghost use Rattle.acpi_hest.specs.Rqsc.{Controller, IsController};

    ghost Value = { Controller };

    ghost view = { λ q. record {
      kind = q.kind;
      register = q.register;
      rcid_count = q.rcid_count;
      mcid_count = q.mcid_count;
      flags = q.flags;
      count = q.count;
      resources = q.resources.items;
    } };

    ghost invariant = { λ q. IsController q.count q.resources.items };
}

impl QoSController {
    /// A controller without resources, whose registers begin at an address. The two counts are its numbers of resource control
    /// ids and of monitoring counter ids; 0 means that it has none. Flag 1 allows a reservation of zero.
    pub fn new(
        alloc: Global,
        controller_type: ControllerType,
        register_interface_address: GAS,
        rcid_count: u32,
        mcid_count: u32,
        controller_flags: u16,
    ) -> QoSController
        ensures { result ≡ controller controller_type register_interface_address rcid_count mcid_count controller_flags }
    {
        QoSController {
            kind: controller_type as u8,
            register: register_interface_address,
            rcid_count,
            mcid_count,
            flags: controller_flags,
            count: 0,
            resources: Vec::new(alloc),
        }
    }

    /// The number of bytes of the controller with its resources: at most 65,535.
    pub fn len(&self) -> usize
        ensures { result ≡ length (controller_bytes self.now) }
    {
        28 + self.resources.len()
    }

    /// The number of resources.
    pub fn resource_count(&self) -> u16
        ensures { result ≡ self.now.count }
    {
        self.count
    }

    /// Adds a resource. The error is `FieldWidth` if the length would exceed 65,535. After an error the controller is unchanged.
    pub fn add_resource(&mut self, resource: ResourceStructure) -> R<()>
        ensures ok { OnOk result (self.new ≡ with_resource self.old resource) }
        ensures room { OnOk result (has_room_for self.old resource ≡ true) }
        ensures err { OnErr result (self.new ≡ self.old) }
        ensures cause { IfErr result (λ e. e ≢ Error.Memory → (e ≡ Error.FieldWidth) × (has_room_for self.old resource ≡ false)) }
    {
        let start = self.resources.len();
        if resource.len() > 0xffff - 28 - start {
            return Err(Error::FieldWidth);
        }
        self.resources.reserve(resource.len())?;
        if let Err(refusal) = append_value(&resource, &mut self.resources) {
            self.resources.truncate(start);
            return Err(refusal);
        }
        self.count += 1;
        Ok(())
    }

    /// A controller with the same value. Its memory is from the same allocator. The only error is `Memory`.
    pub fn clone(&self) -> R<QoSController>
        ensures ok { IfOk result (λ q. q ≡ self.now) }
        ensures err { IfErr result (λ e. e ≡ Error.Memory) }
    {
        Ok(QoSController {
            kind: self.kind,
            register: self.register,
            rcid_count: self.rcid_count,
            mcid_count: self.mcid_count,
            flags: self.flags,
            count: self.count,
            resources: self.resources.to_vec(*self.resources.allocator())?,
        })
    }

    // The bytes of the resources.
    fn resources(&self) -> &[u8]
        ensures { result.now ≡ self.now.resources }
    {
        &self.resources
    }

    // The bytes of the controller before its resources.
    fn head(&self) -> [u8; 28]
        ensures { result ≡ controller_head self.now }
    {
        record_of(
            &CONTROLLER,
            &[
                Value::Number(u64::from(self.kind)),
                Value::Number(0),
                Value::Number(28 + self.resources.len() as u64),
                Value::Bytes(&self.register.bytes()),
                Value::Number(u64::from(self.rcid_count)),
                Value::Number(u64::from(self.mcid_count)),
                Value::Number(u64::from(self.flags)),
                Value::Number(u64::from(self.count)),
            ],
        )
    }
}

/// The rows of a QoS controller before its resources.
pub const CONTROLLER: [Row; 8] = [
    Row::OneOf(
        "Controller Type",
        1,
        &[Word(0, "Capacity"), Word(1, "Bandwidth")],
    ),
    Row::Reserved(1),
    Row::Number("Length", 2),
    Row::Register("Register Interface Address"),
    Row::Number("RCID Count", 4),
    Row::Number("MCID Count", 4),
    Row::Hex("Controller Flags", 2),
    Row::Number("Number of Resources", 2),
];

/// The rows of a controller's fields before its resources, in order.
pub fn controller_rows() -> &'static [Row]
    ensures { (q : Controller) → AreRowsOf result.now (controller_head_fields q) }
{
    &CONTROLLER
}

impl Aml for QoSController {
    ghost object = { λ q. whole (controller_bytes q) };

    ghost ends_well = { λ q. whole_ends_well (controller_bytes q) };

    fn to_aml_bytes(&self, sink: &mut dyn AmlSink) -> R<()> {
        write_behind(&self.head(), self.resources(), sink)
    }
}
