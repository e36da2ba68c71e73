//! Connections to CSI-2 buses.

ghost use Rattle.std.specs.Prelude.{◌≡◌, ℕ, true};
ghost use Rattle.acpi_base.specs.Fields.{AreRowsOf, fields_joined};
ghost use Rattle.acpi_base.specs.Object.{Builds};
ghost use Rattle.acpi_ops.specs.Csi2.{csi2_head_fields, csi2_fits, csi2};
ghost use Rattle.acpi_ops.specs.declared.csi2.Csi2Settings.{Csi2Settings as SomeSettings};

use crate::descriptor::bit;
use crate::variable::VariableDescriptor;
use acpi_base::error::{Error, R};
use acpi_base::row::{Bits, Row, Word, record_of_numbers};
use std::alloc::Global;

/// The physical layer of a CSI-2 bus (ACPI 6.5, 6.4.3.8.2.4, PHY Type).
#[derive(Copy, Clone, Debug, PartialEq)]
pub enum Csi2Phy {
    CPhy = 0,
    DPhy = 1,
}

/// What a connection to a CSI-2 bus states (ACPI 6.5, 6.4.3.8.2.4).
#[derive(Copy, Clone, Debug, PartialEq)]
pub struct Csi2Settings {
    /// The device begins transfers, and not the controller (Slave Mode).
    pub device_initiated: bool,
    /// The device uses the connection, and doesn't provide it for others.
    pub consumer: bool,
    pub phy: Csi2Phy,
    /// The number of the device's port (Local Port Instance), at most 63.
    pub local_port: u8,
    /// The number of the controller's port (Resource Source Index).
    pub remote_port: u8,
}

/// A connection to a CSI-2 bus (ACPI 6.5, 6.4.3.8.2.4, CSI-2 Connection Resource Descriptor).
pub type Csi2Bus = VariableDescriptor<Csi2Kind>;

/// The kind of `Csi2Bus`.
pub struct Csi2Kind;

impl VariableDescriptor<Csi2Kind> {
    /// The remote port is at offset 4 of the descriptor, the flags at 6, and the physical layer with the local port at 7. The
    /// data of the vendor is at 12. The name of the controller `source` and a zero follow. The error is `FieldWidth` if the
    /// local port exceeds 63, or the length 65,535.
    #[tactic(auto, using(crate::proofs::Built::built))]
    pub fn new(
        alloc: Global,
        settings: Csi2Settings,
        source: &str,
        vendor: &[u8],
    ) -> R<VariableDescriptor<Csi2Kind>>
        ensures { Builds result (csi2 settings vendor.now source.now) }
    {
        if !fits(settings.local_port, vendor.len(), source.len()) {
            return Err(Error::FieldWidth);
        }
        let head = head(settings, vendor.len(), source.len());
        VariableDescriptor::of(alloc, &[&head, vendor, source.as_bytes(), &[0]])
    }
}

// Whether the port and the length fit their fields.
fn fits(local_port: u8, vendor: usize, source: usize) -> bool
    ensures { result ≡ csi2_fits local_port vendor source }
{
    local_port < 64 && vendor <= 0xffff && source <= 0xffff && 10 + vendor + source <= 0xffff
}

// The descriptor before the data of the vendor.
fn head(settings: Csi2Settings, vendor: usize, source: usize) -> [u8; 12]
    requires { csi2_fits settings.local_port vendor source ≡ true }
    ensures { result ≡ fields_joined (csi2_head_fields settings vendor source) }
{
    record_of_numbers(
        &CSI2_HEAD,
        &[
            0x8e,
            10 + vendor as u64 + source as u64,
            1,
            u64::from(settings.remote_port),
            4,
            u64::from(bit(settings.device_initiated, 0x01) + bit(settings.consumer, 0x02)),
            settings.phy as u64 + 4 * u64::from(settings.local_port),
            1,
            vendor as u64,
        ],
    )
}

const CSI2_HEAD: [Row; 9] = [
    Row::Preset("Serial Bus Connection Descriptor", 1, 0x8e),
    Row::Number("Length", 2),
    Row::Preset("Revision ID", 1, 1),
    Row::Number("Resource Source Index", 1),
    Row::Preset("Serial Bus Type", 1, 4),
    Row::Flags(
        "General Flags",
        1,
        &[
            Bits::OneOf(
                0x01,
                &[
                    Word(0x00, "Controller Initiated"),
                    Word(0x01, "Device Initiated"),
                ],
            ),
            Bits::OneOf(0x02, &[Word(0x00, "Producer"), Word(0x02, "Consumer")]),
        ],
    ),
    Row::Hex("Type Specific Flags", 2),
    Row::Preset("Type Specific Revision ID", 1, 1),
    Row::Number("Type Data Length", 2),
];

/// The rows of the fields of a descriptor of a connection to a CSI-2 bus, before the data of the vendor, in order.
pub fn csi2_head_rows() -> &'static [Row]
    ensures { (settings : SomeSettings) (vendor source : ℕ) → AreRowsOf result.now (csi2_head_fields settings vendor source) }
{
    &CSI2_HEAD
}
