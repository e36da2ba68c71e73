//! Device entries: the devices whose memory accesses an IOMMU translates.

ghost use Rattle.std.specs.Prelude.{◌≡◌, ℕ, ◌+◌, ◌++◌, length};
ghost use Rattle.acpi_base.specs.Fields.{AreRowsOf, fields_joined};
ghost use Rattle.acpi_pc.specs.Grown.{Grows};
ghost use Rattle.acpi_pc.specs.IvrsEntries.{variety_number, device_fields, alias_fields, extended_fields, special_fields};
ghost use Rattle.acpi_pc.specs.IvrsEntries.{entry_bytes};

use crate::tail::Tail;
use acpi_base::error::R;
use acpi_base::row::{Bits, Row, Word, record_of_numbers};

/// What a special device is (offset 7).
#[derive(Clone, Copy, Debug)]
pub enum SpecialDevice {
    /// An I/O APIC. Its handle is its I/O APIC id in MADT.
    IoApic = 1,
    /// A timer block of HPET. Its handle is its number in HPET.
    Hpet = 2,
}

/// A device entry (AMD 48882, 5.2.2). A device is the id of a PCI function: its bus in bits 8 to 15, its device in bits 3 to 7,
/// its function in bits 0 to 2. A setting is the DTE setting: INITPass 0x1, EIntPass 0x2, NMIPass 0x4, SysMgt 0x30, Lint0Pass
/// 0x40, Lint1Pass 0x80.
#[derive(Clone, Copy, Debug)]
pub enum DeviceEntry {
    /// All devices, with a setting (type 1).
    All(u8),
    /// A device, with a setting (type 2).
    Select(u16, u8),
    /// The first device of a range, with the setting of all of its devices (type 3).
    RangeStart(u16, u8),
    /// The last device of a range (type 4).
    RangeEnd(u16),
    /// A device, with a setting, and the device whose id its accesses have (type 66).
    Alias(u16, u8, u16),
    /// The first device of a range, with the setting of all of its devices, and the device whose id their accesses have (type
    /// 67).
    AliasRangeStart(u16, u8, u16),
    /// A device, with a setting, and an extended setting: AtsDisabled 0x80000000 (type 70).
    Extended(u16, u8, u32),
    /// The first device of a range, with the setting and the extended setting of all of its devices (type 71).
    ExtendedRangeStart(u16, u8, u32),
    /// A device that isn't a PCI function: its setting, its handle, the device whose id its accesses have, and what it is (type
    /// 72).
    Special(u8, u8, u16, SpecialDevice),
}

/// The parts of a DTE setting.
pub(crate) const DTE_SETTING: [Bits; 6] = [
    Bits::Flag(0x1, "INITPass"),
    Bits::Flag(0x2, "EIntPass"),
    Bits::Flag(0x4, "NMIPass"),
    Bits::Number(0x30, 0x10, "SysMgt"),
    Bits::Flag(0x40, "Lint0Pass"),
    Bits::Flag(0x80, "Lint1Pass"),
];

/// The rows of an entry of 4 bytes.
pub const OF_DEVICE: [Row; 3] = [
    Row::Hex("Type", 1),
    Row::Hex("DeviceID", 2),
    Row::Flags("DTE Setting", 1, &DTE_SETTING),
];

/// The rows of an entry with the id of another device.
pub const OF_ALIAS: [Row; 6] = [
    Row::Hex("Type", 1),
    Row::Hex("DeviceID", 2),
    Row::Flags("DTE Setting", 1, &DTE_SETTING),
    Row::Reserved(1),
    Row::Hex("Source DeviceID", 2),
    Row::Reserved(1),
];

/// The rows of an entry with an extended setting.
pub const EXTENDED: [Row; 4] = [
    Row::Hex("Type", 1),
    Row::Hex("DeviceID", 2),
    Row::Flags("DTE Setting", 1, &DTE_SETTING),
    Row::Flags(
        "Extended DTE Setting",
        4,
        &[Bits::Flag(0x8000_0000, "AtsDisabled")],
    ),
];

/// The rows of the entry of a special device.
pub const SPECIAL_DEVICE: [Row; 6] = [
    Row::Preset("Type", 1, 72),
    Row::Reserved(2),
    Row::Flags("DTE Setting", 1, &DTE_SETTING),
    Row::Hex("Handle", 1),
    Row::Hex("Source DeviceID", 2),
    Row::OneOf("Variety", 1, &[Word(1, "IOAPIC"), Word(2, "HPET")]),
];

/// The rows of the fields of an entry of 4 bytes, in order.
pub fn device_rows() -> &'static [Row]
    ensures { (kind device setting : ℕ) → AreRowsOf result.now (device_fields kind device setting) }
{
    &OF_DEVICE
}

/// The rows of the fields of an entry with the id of another device, in order.
pub fn alias_rows() -> &'static [Row]
    ensures { (kind device setting source : ℕ) → AreRowsOf result.now (alias_fields kind device setting source) }
{
    &OF_ALIAS
}

/// The rows of the fields of an entry with an extended setting, in order.
pub fn extended_rows() -> &'static [Row]
    ensures { (kind device setting extended : ℕ) → AreRowsOf result.now (extended_fields kind device setting extended) }
{
    &EXTENDED
}

/// The rows of the fields of the entry of a special device, in order.
pub fn special_rows() -> &'static [Row]
    ensures { (setting handle source variety : ℕ) → AreRowsOf result.now (special_fields setting handle source variety) }
{
    &SPECIAL_DEVICE
}

fn device(kind: u8, device: u16, setting: u8) -> [u8; 4]
    ensures { result ≡ fields_joined (device_fields kind device setting) }
{
    record_of_numbers(
        &OF_DEVICE,
        &[u64::from(kind), u64::from(device), u64::from(setting)],
    )
}

fn alias(kind: u8, device: u16, setting: u8, source: u16) -> [u8; 8]
    ensures { result ≡ fields_joined (alias_fields kind device setting source) }
{
    record_of_numbers(
        &OF_ALIAS,
        &[
            u64::from(kind),
            u64::from(device),
            u64::from(setting),
            0,
            u64::from(source),
            0,
        ],
    )
}

fn extended(kind: u8, device: u16, setting: u8, extended: u32) -> [u8; 8]
    ensures { result ≡ fields_joined (extended_fields kind device setting extended) }
{
    record_of_numbers(
        &EXTENDED,
        &[
            u64::from(kind),
            u64::from(device),
            u64::from(setting),
            u64::from(extended),
        ],
    )
}

fn special(setting: u8, handle: u8, source: u16, device: SpecialDevice) -> [u8; 8]
    ensures { result ≡ fields_joined (special_fields setting handle source (variety_number device)) }
{
    record_of_numbers(
        &SPECIAL_DEVICE,
        &[
            72,
            0,
            u64::from(setting),
            u64::from(handle),
            u64::from(source),
            device as u64,
        ],
    )
}

impl DeviceEntry {
    /// Adds the bytes of the entry to a list. The error is `FieldWidth` if they don't fit.
    pub(crate) fn add_to<const MOST: usize>(self, entries: &mut Tail<MOST>) -> R<()>
        ensures { Grows result entries.old (entries.old ++ entry_bytes self) entries.new
            (length entries.old + length (entry_bytes self)) MOST }
    {
        match self {
            DeviceEntry::All(setting) => entries.push(&device(1, 0, setting), &[]),
            DeviceEntry::Select(id, setting) => entries.push(&device(2, id, setting), &[]),
            DeviceEntry::RangeStart(id, setting) => entries.push(&device(3, id, setting), &[]),
            DeviceEntry::RangeEnd(id) => entries.push(&device(4, id, 0), &[]),
            DeviceEntry::Alias(id, setting, source) => {
                entries.push(&alias(66, id, setting, source), &[])
            }
            DeviceEntry::AliasRangeStart(id, setting, source) => {
                entries.push(&alias(67, id, setting, source), &[])
            }
            DeviceEntry::Extended(id, setting, more) => {
                entries.push(&extended(70, id, setting, more), &[])
            }
            DeviceEntry::ExtendedRangeStart(id, setting, more) => {
                entries.push(&extended(71, id, setting, more), &[])
            }
            DeviceEntry::Special(setting, handle, source, device) => {
                entries.push(&special(setting, handle, source, device), &[])
            }
        }
    }
}
