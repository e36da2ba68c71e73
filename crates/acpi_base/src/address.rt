//! Addresses of registers as plain fields, for the content of an `Sdt`.

ghost use Rattle.std.specs.Prelude.{◌≡◌, ℕ};
ghost use Rattle.acpi_base.specs.Address.{address_bytes, address_at};
ghost use Rattle.acpi_base.specs.Address.{address_fields};

use crate::error::R;
use crate::gas::GENERIC_ADDRESS;
use crate::row::{Record, Row, record_of_numbers};
use crate::sdt::Sdt;
use crate::value::SdtValue;

/// How wide a register is, by a number type of that width (ACPI 6.5, 5.2.3.2).
pub trait AccessWidth {
    ghost WIDTH: { ℕ };

    ghost SIZE: { ℕ };

    /// The register's width in bits.
    const WIDTH: u8;

    /// The access size that reaches all of it.
    const SIZE: u8;
}

impl AccessWidth for u8 {
    ghost WIDTH = { 8 };

    ghost SIZE = { 1 };

    const WIDTH: u8 = 8;

    const SIZE: u8 = 1;
}

impl AccessWidth for u16 {
    ghost WIDTH = { 16 };

    ghost SIZE = { 2 };

    const WIDTH: u8 = 16;

    const SIZE: u8 = 2;
}

impl AccessWidth for u32 {
    ghost WIDTH = { 32 };

    ghost SIZE = { 3 };

    const WIDTH: u8 = 32;

    const SIZE: u8 = 3;
}

impl AccessWidth for u64 {
    ghost WIDTH = { 64 };

    ghost SIZE = { 4 };

    const WIDTH: u8 = 64;

    const SIZE: u8 = 4;
}

/// The address of a register: 12 bytes (ACPI 6.5, 5.2.3.2, Generic Address Structure). Widths and offsets are in bits.
#[derive(Clone, Copy)]
pub struct GenericAddress {
    pub address_space_id: u8,
    pub register_bit_width: u8,
    pub register_bit_offset: u8,
    pub access_size: u8,
    pub address: u64,
}

impl GenericAddress {
    /// A register at a port, as wide as `T`.
    pub fn io_port_address<T: AccessWidth>(address: u16) -> GenericAddress
        ensures { result ≡ address_at 1 T.WIDTH T.SIZE address }
    {
        GenericAddress {
            address_space_id: 1,
            register_bit_width: T::WIDTH,
            register_bit_offset: 0,
            access_size: T::SIZE,
            address: u64::from(address),
        }
    }

    /// A register in memory, as wide as `T`.
    pub fn mmio_address<T: AccessWidth>(address: u64) -> GenericAddress
        ensures { result ≡ address_at 0 T.WIDTH T.SIZE address }
    {
        GenericAddress {
            address_space_id: 0,
            register_bit_width: T::WIDTH,
            register_bit_offset: 0,
            access_size: T::SIZE,
            address,
        }
    }
}

impl Record<12> for GenericAddress {
    ghost fields = { address_fields };

    fn rows() -> &'static [Row] {
        &GENERIC_ADDRESS
    }

    fn bytes(&self) -> [u8; 12] {
        record_of_numbers(
            &GENERIC_ADDRESS,
            &[
                u64::from(self.address_space_id),
                u64::from(self.register_bit_width),
                u64::from(self.register_bit_offset),
                u64::from(self.access_size),
                self.address,
            ],
        )
    }
}

impl SdtValue for GenericAddress {
    ghost value_bytes = { address_bytes };

    fn append_to(&self, table: &mut Sdt) -> R<()> {
        table.append_slice(&self.bytes())
    }

    fn write_to(&self, table: &mut Sdt, offset: usize) {
        table.write_bytes(offset, &self.bytes());
    }
}
