//! Remapping structures without device scopes.

ghost use Rattle.std.specs.Prelude.{◌≡◌, ◌≢◌, ◌+◌, ◌<◌, ◌≤◌, length, IfOk, IfErr, OnOk};
ghost use Rattle.acpi_base.specs.Fields.{AreRowsOf};
ghost use Rattle.acpi_base.specs.Object.{whole, whole_ends_well};
ghost use Rattle.acpi_pc.specs.Dmar.{rhsa, rhsa_fields, rhsa_bytes, andd, andd_head_fields, andd_head, andd_bytes};
ghost use Rattle.acpi_pc.specs.declared.dmar.devices.Andd.{Andd};

use crate::tail::Tail;
use acpi_base::error::{Error, R};
use acpi_base::object::Aml;
use acpi_base::parts::write_parts;
use acpi_base::row::{Record, Row, record_of_numbers, write_record};
use acpi_base::sink::AmlSink;
use std::alloc::Global;

/// The proximity domain of a remapping unit: 20 bytes (VT-d 4.1, 8.6, Remapping Hardware Static Affinity).
#[derive(Clone, Copy, Debug)]
pub struct Rhsa {
    base: u64,
    domain: u32,
}

impl Rhsa {
    /// The unit whose registers begin at a physical address (offset 8) is in a proximity domain (offset 16).
    pub fn new(base: u64, domain: u32) -> Rhsa
        ensures { result ≡ rhsa base domain }
    {
        Rhsa { base, domain }
    }
}

/// The rows of an RHSA.
pub const RHSA: [Row; 5] = [
    Row::Preset("Type", 2, 3),
    Row::Preset("Length", 2, 20),
    Row::Reserved(4),
    Row::Hex("Register Base Address", 8),
    Row::Hex("Proximity Domain", 4),
];

impl Record<20> for Rhsa {
    ghost fields = { rhsa_fields };

    fn rows() -> &'static [Row] {
        &RHSA
    }

    fn bytes(&self) -> [u8; 20] {
        record_of_numbers(&RHSA, &[3, 20, 0, self.base, u64::from(self.domain)])
    }
}

impl Aml for Rhsa {
    ghost object = { λ r. whole (rhsa_bytes r) };

    ghost ends_well = { λ r. whole_ends_well (rhsa_bytes r) };

    fn to_aml_bytes(&self, sink: &mut dyn AmlSink) -> R<()> {
        write_record(self, sink)
    }
}

/// A device of the namespace that makes DMA: 8 bytes, its name and a zero (VT-d 4.1, 8.7, ACPI Name-space Device Declaration).
#[derive(Drop)]
pub struct Andd {
    device_number: u8,
    name: Tail<65527>,
}

impl Andd {
    /// The device with this number (offset 7), which scopes have as their enumeration id, and this full name in the namespace
    /// (offset 8). The error is `FieldWidth` if the structure would have more than 65,535 bytes.
    pub fn new(alloc: Global, device_number: u8, name: &str) -> R<Andd>
        ensures ok { IfOk result (λ d. d ≡ andd device_number name.now) }
        ensures room { OnOk result (length name.now + 1 ≤ 65527) }
        ensures err { IfErr result (λ e. e ≢ Error.Memory → (e ≡ Error.FieldWidth) × (65527 < length name.now + 1)) }
    {
        let mut bytes = Tail::new(alloc);
        bytes.push(name.as_bytes(), &[0])?;
        Ok(Andd {
            device_number,
            name: bytes,
        })
    }

    // The bytes of the structure before its name.
    fn head(&self) -> [u8; 8]
        ensures { result ≡ andd_head self.now }
    {
        record_of_numbers(
            &ANDD,
            &[
                4,
                8 + self.name.as_slice().len() as u64,
                0,
                u64::from(self.device_number),
            ],
        )
    }
}

/// The rows of an ANDD before its name.
pub const ANDD: [Row; 4] = [
    Row::Preset("Type", 2, 4),
    Row::Number("Length", 2),
    Row::Reserved(3),
    Row::Number("ACPI Device Number", 1),
];

/// The rows of the fields before a device's name, in order.
pub fn andd_rows() -> &'static [Row]
    ensures { (d : Andd) → AreRowsOf result.now (andd_head_fields d) }
{
    &ANDD
}

impl Aml for Andd {
    ghost object = { λ d. whole (andd_bytes d) };

    ghost ends_well = { λ d. whole_ends_well (andd_bytes d) };

    fn to_aml_bytes(&self, sink: &mut dyn AmlSink) -> R<()> {
        write_parts(sink, &[&self.head(), self.name.as_slice()])
    }
}
