//! Device entries of devices of the namespace.

ghost use Rattle.std.specs.Prelude.{◌≡◌, ◌≢◌, ◌+◌, ◌<◌, ◌≤◌, ◌++◌, length, IfOk, IfErr, OnOk};
ghost use Rattle.acpi_base.specs.Bytes.{le};
ghost use Rattle.acpi_base.specs.Fields.{AreRowsOf};
ghost use Rattle.acpi_pc.specs.Grown.{Grows};
ghost use Rattle.acpi_pc.specs.IvrsEntries.{acpi_device, acpi_device_of, acpi_device_head_fields, acpi_device_head};
ghost use Rattle.acpi_pc.specs.IvrsEntries.{acpi_device_bytes};
ghost use Rattle.acpi_pc.specs.declared.ivrs.acpi_device.AcpiDevice.{AcpiDevice};

use crate::ivrs::entries::DTE_SETTING;
use crate::tail::Tail;
use acpi_base::error::{Error, R};
use acpi_base::row::{Row, Value, Word, record_of};
use std::alloc::Global;

/// A device of the namespace that isn't a PCI function: 22 bytes, and its unique id (AMD 48882, 5.2.2, type 240).
#[derive(Drop)]
pub struct AcpiDevice {
    device: u16,
    setting: u8,
    hardware_id: [u8; 8],
    compatible_id: [u8; 8],
    format: u8,
    uid: Tail<255>,
}

impl AcpiDevice {
    /// The device with this id (offset 1), a setting as in a `DeviceEntry` (offset 3), a hardware id (offset 4) and a compatible
    /// id (offset 12), each with zeros after it. It has no unique id.
    pub fn new(
        alloc: Global,
        device: u16,
        setting: u8,
        hardware_id: [u8; 8],
        compatible_id: [u8; 8],
    ) -> AcpiDevice
        ensures { result ≡ acpi_device device setting hardware_id compatible_id }
    {
        AcpiDevice {
            device,
            setting,
            hardware_id,
            compatible_id,
            format: 0,
            uid: Tail::new(alloc),
        }
    }

    /// The same with a number as its unique id (offset 22, of 8 bytes). The only error is `Memory`.
    pub fn of_number(
        alloc: Global,
        device: u16,
        setting: u8,
        hardware_id: [u8; 8],
        compatible_id: [u8; 8],
        uid: u64,
    ) -> R<AcpiDevice>
        ensures ok { IfOk result (λ d. d ≡ acpi_device_of device setting hardware_id compatible_id 1 (le 8 uid)) }
        ensures err { IfErr result (λ e. e ≡ Error.Memory) }
    {
        let mut bytes = Tail::new(alloc);
        bytes.push(&uid.to_le_bytes(), &[])?;
        Ok(AcpiDevice {
            device,
            setting,
            hardware_id,
            compatible_id,
            format: 1,
            uid: bytes,
        })
    }

    /// The same with a text as its unique id (offset 22). The error is `FieldWidth` if it has more than 255 bytes.
    pub fn of_text(
        alloc: Global,
        device: u16,
        setting: u8,
        hardware_id: [u8; 8],
        compatible_id: [u8; 8],
        uid: &str,
    ) -> R<AcpiDevice>
        ensures ok { IfOk result (λ d. d ≡ acpi_device_of device setting hardware_id compatible_id 2 uid.now) }
        ensures room { OnOk result (length uid.now ≤ 255) }
        ensures err { IfErr result (λ e. e ≢ Error.Memory → (e ≡ Error.FieldWidth) × (255 < length uid.now)) }
    {
        let mut bytes = Tail::new(alloc);
        bytes.push(uid.as_bytes(), &[])?;
        Ok(AcpiDevice {
            device,
            setting,
            hardware_id,
            compatible_id,
            format: 2,
            uid: bytes,
        })
    }

    // The bytes of the entry before its unique id.
    fn head(&self) -> [u8; 22]
        ensures { result ≡ acpi_device_head self.now }
    {
        record_of(
            &ACPI_DEVICE,
            &[
                Value::Number(240),
                Value::Number(u64::from(self.device)),
                Value::Number(u64::from(self.setting)),
                Value::Bytes(&self.hardware_id),
                Value::Bytes(&self.compatible_id),
                Value::Number(u64::from(self.format)),
                Value::Number(self.uid.as_slice().len() as u64),
            ],
        )
    }

    /// Adds the bytes of the entry to a list. The error is `FieldWidth` if they don't fit.
    pub(crate) fn add_to<const MOST: usize>(&self, entries: &mut Tail<MOST>) -> R<()>
        ensures { Grows result entries.old (entries.old ++ acpi_device_bytes self.now) entries.new
            (length entries.old + length (acpi_device_bytes self.now)) MOST }
    {
        entries.push(&self.head(), self.uid.as_slice())
    }
}

/// The rows of the entry of a device of the namespace before its unique id.
pub const ACPI_DEVICE: [Row; 7] = [
    Row::Preset("Type", 1, 240),
    Row::Hex("DeviceID", 2),
    Row::Flags("DTE Setting", 1, &DTE_SETTING),
    Row::Text("Hardware ID", 8),
    Row::Text("Compatible ID", 8),
    Row::OneOf(
        "UID Format",
        1,
        &[Word(0, "None"), Word(1, "Integer"), Word(2, "String")],
    ),
    Row::Number("UID Length", 1),
];

/// The rows of the fields before a device's unique id, in order.
pub fn acpi_device_rows() -> &'static [Row]
    ensures { (d : AcpiDevice) → AreRowsOf result.now (acpi_device_head_fields d) }
{
    &ACPI_DEVICE
}
