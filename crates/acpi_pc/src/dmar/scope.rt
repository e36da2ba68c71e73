//! Device scopes: the devices for which a remapping structure is.

ghost use Rattle.std.specs.Prelude.{◌≡◌, ◌+◌, IfOk, IfErr};
ghost use Rattle.acpi_base.specs.Fields.{AreRowsOf};
ghost use Rattle.acpi_core.specs.Entries.{with_entry};
ghost use Rattle.acpi_pc.specs.DmarScopes.{step_fields, step_bytes, device_scope, scope_head_fields, scope_head};
ghost use Rattle.acpi_pc.specs.Grown.{Grows};
ghost use Rattle.acpi_pc.specs.declared.dmar.scope.DeviceScope.{DeviceScope};

use acpi_base::error::{Error, R};
use acpi_base::row::{Record, Row, Word, record_of_numbers};
use acpi_core::entries::Entries;
use std::alloc::Global;

/// What a device scope is (offset 0).
#[derive(Clone, Copy, Debug)]
pub enum ScopeType {
    /// A PCI device that isn't a bridge.
    PciEndpoint = 1,
    /// A PCI bridge, and all devices below it.
    PciSubHierarchy = 2,
    /// An I/O APIC. Its enumeration id is its I/O APIC id in MADT.
    IoApic = 3,
    /// A timer block of HPET that sends messages. Its enumeration id is its number in HPET.
    MsiCapableHpet = 4,
    /// A device of the namespace. Its enumeration id is its number in an `Andd`.
    AcpiNamespaceDevice = 5,
}

/// A device: 6 bytes, and 2 for each step of the path to it (VT-d 4.1, 8.3.1, Device Scope Structure).
#[derive(Drop)]
pub struct DeviceScope {
    kind: ScopeType,
    flags: u8,
    enumeration_id: u8,
    start_bus: u8,
    path: Entries<2, 124>,
}

impl DeviceScope {
    /// The device with this enumeration id (offset 4; 0 if its type has none). The path to it begins on a bus (offset 5) with a
    /// device and a function. The only error is `Memory`.
    pub fn new(
        alloc: Global,
        kind: ScopeType,
        enumeration_id: u8,
        start_bus: u8,
        device: u8,
        function: u8,
    ) -> R<DeviceScope>
        ensures ok { IfOk result (λ s. s ≡ device_scope kind enumeration_id start_bus device function) }
        ensures err { IfErr result (λ e. e ≡ Error.Memory) }
    {
        let mut path = Entries::new(alloc);
        path.push(Step { device, function }.bytes())?;
        Ok(DeviceScope {
            kind,
            flags: 0,
            enumeration_id,
            start_bus,
            path,
        })
    }

    /// Sets the flags (offset 2).
    pub fn flags(mut self, flags: u8) -> DeviceScope
        ensures { result ≡ record self { flags = flags } }
    {
        self.flags = flags;
        self
    }

    /// The number of steps of the path: at most 124.
    pub fn step_count(&self) -> usize
        ensures { result ≡ self.now.path.count }
    {
        self.path.len()
    }

    /// Adds a step to the path: a device and a function on the bus behind the bridge of the step before. The error is
    /// `FieldWidth` at step number 125. After an error the scope is unchanged.
    pub fn add_step(&mut self, device: u8, function: u8) -> R<()>
        ensures { Grows result self.old
            (record self.old { path = with_entry self.old.path (step_bytes device function) }) self.new
            (self.old.path.count + 1) 124 }
    {
        self.path.push(Step { device, function }.bytes())
    }

    // The bytes of the scope before its path.
    pub(crate) fn head(&self) -> [u8; 6]
        ensures { result ≡ scope_head self.now }
    {
        record_of_numbers(
            &DEVICE_SCOPE,
            &[
                self.kind as u64,
                6 + self.path.as_slice().len() as u64,
                u64::from(self.flags),
                0,
                u64::from(self.enumeration_id),
                u64::from(self.start_bus),
            ],
        )
    }

    // The bytes of its path.
    pub(crate) fn path(&self) -> &[u8]
        ensures { result.now ≡ self.now.path.bytes }
    {
        self.path.as_slice()
    }
}

/// The rows of a device scope before its path.
pub const DEVICE_SCOPE: [Row; 6] = [
    Row::OneOf(
        "Type",
        1,
        &[
            Word(1, "PCI Endpoint Device"),
            Word(2, "PCI Sub-hierarchy"),
            Word(3, "IOAPIC"),
            Word(4, "MSI_CAPABLE_HPET"),
            Word(5, "ACPI_NAMESPACE_DEVICE"),
        ],
    ),
    Row::Number("Length", 1),
    Row::Hex("Flags", 1),
    Row::Reserved(1),
    Row::Hex("Enumeration ID", 1),
    Row::Hex("Start Bus Number", 1),
];

/// The rows of the fields before a scope's path, in order.
pub fn scope_rows() -> &'static [Row]
    ensures { (s : DeviceScope) → AreRowsOf result.now (scope_head_fields s) }
{
    &DEVICE_SCOPE
}

/// A step of a path.
#[derive(Drop)]
pub struct Step {
    device: u8,
    function: u8,
}

/// The rows of a step of a path.
pub const SCOPE_PATH: [Row; 2] = [Row::Hex("Device", 1), Row::Hex("Function", 1)];

impl Record<2> for Step {
    ghost fields = { step_fields };

    fn rows() -> &'static [Row] {
        &SCOPE_PATH
    }

    fn bytes(&self) -> [u8; 2] {
        record_of_numbers(
            &SCOPE_PATH,
            &[u64::from(self.device), u64::from(self.function)],
        )
    }
}
