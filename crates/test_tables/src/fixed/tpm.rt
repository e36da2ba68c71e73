//! TCPA and TPM2: their bytes, and what each setter sets.

use super::sums;
use acpi_base::error::Error;
use acpi_base::gas::{AccessSize, AddressSpace, GAS};
use acpi_tables::tpm2::{PlatformClass, StartMethod, Tpm2, TpmClient1_2, TpmServer1_2};
use std::alloc::Global;
use std::test::Fail;
use test_support::table::{patched, stands};
use test_support::{OEM, OEM_REVISION, OEM_TABLE, equal, refuses, sized, writes};

// A server's table before any setter.
const SERVER: [u8; 100] = *b"TCPA\x64\0\0\0\x02\x22FOOBARCAFEDEAD\xef\xbe\xad\xdeRVAT\0\0\0\x01\
        \x01\0\0\0\0\0\0\0\0\0\0\0\0\0\0\0\
        \0\0\0\0\x01\x02\0\0\0\0\0\0\0\0\0\0\
        \0\0\0\0\0\0\0\0\0\0\0\0\0\0\0\0\
        \0\0\0\0\0\0\0\0\0\0\0\0\0\0\0\0";

#[test]
fn tcpa(rt: HostRuntime) -> Result<(), Fail> {
    let server = TpmServer1_2::new(OEM, OEM_TABLE, OEM_REVISION);
    equal(&TpmServer1_2::len(), &100)?;
    writes(rt.alloc(), &server, &SERVER)?;
    let area = (0x0403_0201, 0x0c0b_0a09_0807_0605);
    let client = TpmClient1_2::new(OEM, OEM_TABLE, OEM_REVISION, area.0, area.1);
    let wanted =
        b"TCPA\x32\0\0\0\x02\x0aFOOBARCAFEDEAD\xef\xbe\xad\xdeRVAT\0\0\0\x01\0\0\x01\x02\x03\x04\x05\x06\x07\x08\x09\x0a\x0b\x0c";
    writes(rt.alloc(), &client, wanted)
}

const REGISTER: GAS = GAS {
    address_space_id: AddressSpace::SystemIo,
    register_bit_width: 8,
    register_bit_offset: 3,
    access_size: AccessSize::WordAccess,
    address: 0x0807_0605_0403_0201,
};

// Each setter changes its own bytes and flags, and the checksum.
#[test]
fn tcpa_setters(rt: HostRuntime) -> Result<(), Fail> {
    let server = TpmServer1_2::new(OEM, OEM_TABLE, OEM_REVISION);
    let area = b"\x01\x02\x03\x04\x05\x06\x07\x08\x09\x0a\x0b\x0c\x0d\x0e\x0f\x10";
    let register = [1, 8, 3, 2, 1, 2, 3, 4, 5, 6, 7, 8];
    let rows: [(TpmServer1_2, &[(usize, &[u8])]); 9] = [
        (
            server.log_area(0x0807_0605_0403_0201, 0x100f_0e0d_0c0b_0a09),
            &[(40, area)],
        ),
        (server.active_low(), &[(59, &[2])]),
        (server.edge_triggered(), &[(59, &[1])]),
        (server.sci_gpe(7), &[(59, &[4, 7])]),
        (server.gsi(0x0403_0201), &[(59, &[8]), (64, &[1, 2, 3, 4])]),
        (server.bus_is_pnp(), &[(58, &[2])]),
        (
            server.pci_sbdf(1, 2, 31, 7),
            &[(58, &[1]), (96, &[1, 2, 31, 7])],
        ),
        (server.base_addr(REGISTER), &[(68, &register)]),
        (server.config_addr(REGISTER), &[(58, &[4]), (84, &register)]),
    ];
    for (table, parts) in rows {
        patched(rt.alloc(), &table, &SERVER, parts)?;
    }
    Ok(())
}

// The flags of the device and of its interrupt after several setters, and after one that is called twice.
#[test]
fn joined_setters(rt: HostRuntime) -> Result<(), Fail> {
    let server = TpmServer1_2::new(OEM, OEM_TABLE, OEM_REVISION);
    let port = GAS::default();
    let together = server
        .active_low()
        .edge_triggered()
        .sci_gpe(1)
        .gsi(2)
        .bus_is_pnp()
        .pci_sbdf(0, 0, 0, 0)
        .config_addr(REGISTER);
    let rows: [(TpmServer1_2, &[u8]); 20] = [
        (server.edge_triggered().active_low(), b"\0\x03"),
        (server.active_low().edge_triggered(), b"\0\x03"),
        (server.active_low().active_low(), b"\0\x02"),
        (server.edge_triggered().edge_triggered(), b"\0\x01"),
        (server.sci_gpe(7).sci_gpe(7), b"\0\x04"),
        (server.gsi(5).gsi(5), b"\0\x08"),
        (server.sci_gpe(7).gsi(5), b"\0\x0c"),
        (server.gsi(5).sci_gpe(7), b"\0\x0c"),
        (server.active_low().sci_gpe(7), b"\0\x06"),
        (server.sci_gpe(7).active_low(), b"\0\x06"),
        (server.gsi(5).edge_triggered(), b"\0\x09"),
        (server.bus_is_pnp().bus_is_pnp(), b"\x02\0"),
        (server.pci_sbdf(1, 2, 3, 4).bus_is_pnp(), b"\x03\0"),
        (server.bus_is_pnp().pci_sbdf(1, 2, 3, 4), b"\x03\0"),
        (server.pci_sbdf(1, 2, 3, 4).pci_sbdf(1, 2, 3, 4), b"\x01\0"),
        (server.config_addr(port).config_addr(port), b"\x04\0"),
        (server.config_addr(port).pci_sbdf(1, 2, 3, 4), b"\x05\0"),
        (server.config_addr(port).bus_is_pnp(), b"\x06\0"),
        (server.bus_is_pnp().config_addr(port), b"\x06\0"),
        (together, b"\x07\x0f\x01"),
    ];
    for (table, flags) in rows {
        stands(rt.alloc(), &table, 58, flags)?;
    }
    Ok(())
}

// Fails unless a table takes one log area.
fn takes_a_log_area(alloc: Global, tpm2: &mut Tpm2) -> Result<(), Fail> {
    let short =
        b"TPM2\x34\0\0\0\x01\x92FOOBARCAFEDEAD\xef\xbe\xad\xdeRVAT\0\0\0\x01\x01\0\0\0\x45\x23\x01\x89\x67\x45\x23\x01\x07\0\0\0";
    sums(alloc, tpm2, short)?;
    tpm2.set_log_area(0x8070_6050, 0x4030_2010_f0e0_d0c0)?;
    let long = b"TPM2\x4c\0\0\0\x01\xdaFOOBARCAFEDEAD\xef\xbe\xad\xdeRVAT\0\0\0\x01\
            \x01\0\0\0\x45\x23\x01\x89\x67\x45\x23\x01\x07\0\0\0\
            \0\0\0\0\0\0\0\0\0\0\0\0\x50\x60\x70\x80\xc0\xd0\xe0\xf0\x10\x20\x30\x40";
    writes(alloc, tpm2, long)?;
    refuses(tpm2.set_log_area(1, 2), Error::LogAreaSet)?;
    sums(alloc, tpm2, long)
}

#[test]
fn tpm2(rt: HostRuntime) -> Result<(), Fail> {
    let mut tpm2 = Tpm2::new(
        OEM,
        OEM_TABLE,
        OEM_REVISION,
        PlatformClass::Server,
        0x0123_4567_8901_2345,
        StartMethod::Crb,
    );
    takes_a_log_area(rt.alloc(), &mut tpm2)
}

#[test]
fn defaults() -> Result<(), Fail> {
    equal(&PlatformClass::default(), &PlatformClass::Client)?;
    equal(&StartMethod::default(), &StartMethod::LegacyUse)
}

fn has_class(alloc: Global, table: &mut Tpm2, number: &[u8; 2]) -> Result<(), Fail> {
    stands(alloc, table, 36, number)?;
    table.set_log_area(0x0403_0201, 5)?;
    stands(alloc, table, 36, number)
}

#[test]
fn classes(rt: HostRuntime) -> Result<(), Fail> {
    for (class, number) in [
        (PlatformClass::Client, b"\0\0"),
        (PlatformClass::Server, b"\x01\0"),
    ] {
        equal(&(class as u16).to_le_bytes(), number)?;
        let mut table = Tpm2::new(OEM, OEM_TABLE, OEM_REVISION, class, 0, StartMethod::Mmio);
        has_class(rt.alloc(), &mut table, number)?;
    }
    Ok(())
}

fn has_method(alloc: Global, table: &Tpm2, number: u8) -> Result<(), Fail> {
    stands(alloc, table, 48, &[number, 0, 0, 0])?;
    sized(alloc, table, 52)
}

#[test]
fn start_methods(rt: HostRuntime) -> Result<(), Fail> {
    for (method, number) in [
        (StartMethod::LegacyUse, 1),
        (StartMethod::AcpiStart, 2),
        (StartMethod::Mmio, 6),
        (StartMethod::Crb, 7),
        (StartMethod::CrbAndAcpiStart, 8),
        (StartMethod::CrbAndSmcHvc, 11),
        (StartMethod::I2cFifo, 12),
    ] {
        equal(&(method as u8), &number)?;
        let class = PlatformClass::Client;
        let table = Tpm2::new(OEM, OEM_TABLE, OEM_REVISION, class, 0, method);
        has_method(rt.alloc(), &table, number)?;
    }
    Ok(())
}
