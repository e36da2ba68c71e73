//! Addresses of PCI functions.

ghost use Rattle.std.specs.Prelude.{◌≡◌, ◌<◌};
ghost use Rattle.acpi_nodes.specs.Pci.{pci_device};

/// The address of a PCI function: its segment, and its bus, device and function in one number.
#[derive(Drop)]
pub struct PciDevice {
    pub(crate) segment: u16,
    pub(crate) bdf: u16,
}

impl PciDevice {
    /// A function. The caller proves that `device` is below 32 and `function` below 8.
    pub fn new(segment: u16, bus: u8, device: u8, function: u8) -> PciDevice
        requires device { device < 32 }
        requires function { function < 8 }
        ensures { result ≡ pci_device segment bus device function }
    {
        PciDevice {
            segment,
            bdf: u16::from(bus) * 256 + u16::from(device) * 8 + u16::from(function),
        }
    }
}
