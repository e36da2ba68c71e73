//! Addresses of registers.

ghost use Rattle.std.specs.Prelude.{◌≡◌};
ghost use Rattle.acpi_base.specs.Object.{whole, whole_ends_well};
ghost use Rattle.acpi_base.specs.Gas.{gas, pci_config_gas, gas_bytes, gas_fields};

use crate::error::R;
use crate::object::Aml;
use crate::row::{Record, Row, Word, record_of_numbers, write_record};
use crate::sink::AmlSink;

/// The address space of a register (ACPI 6.5, 5.2.3.2, offset 0).
#[derive(Clone, Copy, Debug, Default)]
pub enum AddressSpace {
    #[default]
    SystemMemory = 0x00,
    SystemIo = 0x01,
    PciConfigSpace = 0x02,
    EmbeddedController = 0x03,
    Smbus = 0x04,
    SystemCmos = 0x05,
    PciBarTarget = 0x06,
    Ipmi = 0x07,
    GeneralPursposeIo = 0x08,
    GenericSerialBus = 0x09,
    PlatformCommunicationsChannel = 0x0a,
    PlatformRuntimeMechanism = 0x0b,
    FunctionalFixedHardware = 0x7f,
}

/// The width of an access to a register (ACPI 6.5, 5.2.3.2, offset 3).
#[derive(Clone, Copy, Debug, Default)]
pub enum AccessSize {
    #[default]
    Undefined,
    ByteAccess,
    WordAccess,
    DwordAccess,
    QwordAccess,
}

/// The address of a register: 12 bytes (ACPI 6.5, 5.2.3.2, Generic Address Structure). Widths and offsets are in bits.
#[derive(Clone, Copy, Debug, Default)]
pub struct GAS {
    pub address_space_id: AddressSpace,
    pub register_bit_width: u8,
    pub register_bit_offset: u8,
    pub access_size: AccessSize,
    pub address: u64,
}

impl GAS {
    /// A register of `register_bit_width` bits, which begins at bit `register_bit_offset` of the bytes at an address.
    pub fn new(
        address_space_id: AddressSpace,
        register_bit_width: u8,
        register_bit_offset: u8,
        access_size: AccessSize,
        address: u64,
    ) -> GAS
        ensures { result ≡ gas address_space_id register_bit_width register_bit_offset access_size address }
    {
        GAS {
            address_space_id,
            register_bit_width,
            register_bit_offset,
            access_size,
            address,
        }
    }

    /// A register in the configuration space of a PCI function of segment 0 and bus 0. The address has the device's number at bit
    /// 32, the function's at bit 16, and the register's offset in bytes in its low bits.
    pub fn new_pci_config(
        register_bit_width: u8,
        access_size: AccessSize,
        device: u8,
        function: u8,
        register: u16,
    ) -> GAS
        ensures { result ≡ pci_config_gas register_bit_width access_size device function register }
    {
        let address = u64::from(device) * 0x1_0000_0000
            + u64::from(function) * 0x1_0000
            + u64::from(register);
        GAS::new(
            AddressSpace::PciConfigSpace,
            register_bit_width,
            0,
            access_size,
            address,
        )
    }

    /// The size of an address in bytes.
    pub fn len() -> usize
        ensures { result ≡ 12 }
    {
        12
    }

    /// The bytes of the address, for records that contain one.
    pub fn bytes(&self) -> [u8; 12]
        ensures { result ≡ gas_bytes self.now }
    {
        record_of_numbers(
            &GENERIC_ADDRESS,
            &[
                self.address_space_id as u64,
                u64::from(self.register_bit_width),
                u64::from(self.register_bit_offset),
                self.access_size as u64,
                self.address,
            ],
        )
    }
}

/// The words of address spaces.
pub const ADDRESS_SPACES: [Word; 13] = [
    Word(0, "SystemMemory"),
    Word(1, "SystemIO"),
    Word(2, "PCI_Config"),
    Word(3, "EmbeddedControl"),
    Word(4, "SMBus"),
    Word(5, "SystemCMOS"),
    Word(6, "PciBarTarget"),
    Word(7, "IPMI"),
    Word(8, "GeneralPurposeIO"),
    Word(9, "GenericSerialBus"),
    Word(10, "PCC"),
    Word(11, "PlatformRtMechanism"),
    Word(127, "FFixedHW"),
];

/// The words of access sizes.
pub const ACCESS_SIZES: [Word; 5] = [
    Word(0, "Undefined"),
    Word(1, "Byte Access"),
    Word(2, "Word Access"),
    Word(3, "DWord Access"),
    Word(4, "QWord Access"),
];

/// The rows of an address.
pub const GENERIC_ADDRESS: [Row; 5] = [
    Row::OneOf("Address Space ID", 1, &ADDRESS_SPACES),
    Row::Number("Register Bit Width", 1),
    Row::Number("Register Bit Offset", 1),
    Row::OneOf("Access Size", 1, &ACCESS_SIZES),
    Row::Hex("Address", 8),
];

impl Record<12> for GAS {
    ghost fields = { gas_fields };

    fn rows() -> &'static [Row] {
        &GENERIC_ADDRESS
    }

    fn bytes(&self) -> [u8; 12] {
        GAS::bytes(self)
    }
}

impl Aml for GAS {
    ghost object = { λ g. whole (gas_bytes g) };

    ghost ends_well = { λ g. whole_ends_well (gas_bytes g) };

    fn to_aml_bytes(&self, sink: &mut dyn AmlSink) -> R<()> {
        write_record(self, sink)
    }
}
