//! SPCR: a serial port with each of its fields.

use acpi_tables::gas::{AccessSize, AddressSpace, GAS};
use acpi_tables::spcr::{
    BaudRate, FlowControl, InterfaceType, InterruptController, SPCR, TerminalType,
};
use std::alloc::Global;
use std::test::Fail;
use test_support::table::patched;
use test_support::{OEM, OEM_REVISION, OEM_TABLE, equal, writes};

fn of_type(interface: InterfaceType) -> SPCR<'static> {
    SPCR::new(OEM, OEM_TABLE, OEM_REVISION, interface, GAS::default())
}

// A port without registers: one stop bit, no PCI device, and a namespace string of 2 bytes at offset 88.
const PORT: [u8; 90] = *b"SPCR\x5a\0\0\0\x04\x99FOOBARCAFEDEAD\xef\xbe\xad\xdeRVAT\0\0\0\x01\
        \0\0\0\0\0\0\0\0\0\0\0\0\0\0\0\0\
        \0\0\0\0\0\0\0\0\x01\0\0\0\xff\xff\xff\xff\
        \0\0\0\0\0\0\0\0\0\0\0\0\0\0\0\0\x02\0\x58\0.\0";

#[test]
fn registers(rt: HostRuntime) -> Result<(), Fail> {
    let alloc = rt.alloc();
    writes(alloc, &of_type(InterfaceType::Uart16550), &PORT)?;
    let registers = GAS::new(
        AddressSpace::SystemMemory,
        32,
        1,
        AccessSize::DwordAccess,
        0x1817_1615_1413_1211,
    );
    let arm = InterfaceType::ArmPl011;
    let arm = SPCR::new(OEM, OEM_TABLE, OEM_REVISION, arm, registers);
    let wanted = b"SPCR\x5a\0\0\0\x04\xceFOOBARCAFEDEAD\xef\xbe\xad\xdeRVAT\0\0\0\x01\
            \x03\0\0\0\0\x20\x01\x03\x11\x12\x13\x14\x15\x16\x17\x18\
            \0\0\0\0\0\0\0\0\x01\0\0\0\xff\xff\xff\xff\
            \0\0\0\0\0\0\0\0\0\0\0\0\0\0\0\0\x02\0\x58\0.\0";
    writes(alloc, &arm, wanted)
}

#[test]
fn interface_types(rt: HostRuntime) -> Result<(), Fail> {
    for (interface, number) in [
        (InterfaceType::Uart16550, 0x00),
        (InterfaceType::Uart16550Subset, 0x01),
        (InterfaceType::Max311xe, 0x02),
        (InterfaceType::ArmPl011, 0x03),
        (InterfaceType::Msm8x60, 0x04),
        (InterfaceType::Nvidia16550, 0x05),
        (InterfaceType::TiOmap, 0x06),
        (InterfaceType::Apm88xxxx, 0x08),
        (InterfaceType::Msm8974, 0x09),
        (InterfaceType::Sam5250, 0x0a),
        (InterfaceType::IntelUsif, 0x0b),
        (InterfaceType::Imx6, 0x0c),
        (InterfaceType::ArmSbsa32Bit, 0x0d),
        (InterfaceType::ArmSbsa, 0x0e),
        (InterfaceType::ArmDcc, 0x0f),
        (InterfaceType::Bcm2835, 0x10),
        (InterfaceType::Sdm845Slow, 0x11),
        (InterfaceType::Uart16550WithGas, 0x12),
        (InterfaceType::Sdm845Fast, 0x13),
        (InterfaceType::IntelLpss, 0x14),
        (InterfaceType::RiscvSbi, 0x15),
    ] {
        equal(&(interface as u8), &number)?;
        patched(rt.alloc(), &of_type(interface), &PORT, &[(36, &[number])])?;
    }
    Ok(())
}

// A call of a port's builder. The numbers of a PCI function are limited, so two functions are calls of their own.
#[derive(Clone, Copy)]
enum Call {
    Irq(u8),
    Gsi(InterruptController, u32),
    BaudRate(BaudRate),
    Parity(u8),
    StopBits(u8),
    FlowControl(FlowControl),
    Terminal(TerminalType),
    Language(u8),
    PciIds(u16, u16),
    FirstFunction,
    LastFunction,
    KeepsPnp,
    Clock(u32),
    PreciseRate(u32),
}

fn with_call(port: SPCR<'static>, call: Call) -> SPCR<'static> {
    match call {
        Call::Irq(irq) => port.irq(irq),
        Call::Gsi(controller, gsi) => port.gsi(controller, gsi),
        Call::BaudRate(rate) => port.baud_rate(rate),
        Call::Parity(parity) => port.parity(parity),
        Call::StopBits(bits) => port.stop_bits(bits),
        Call::FlowControl(flow) => port.flow_control(flow),
        Call::Terminal(terminal) => port.terminal_type(terminal),
        Call::Language(language) => port.language(language),
        Call::PciIds(device, vendor) => port.pci_ids(device, vendor),
        Call::FirstFunction => port.pci_sbdf(5, 6, 7, 0),
        Call::LastFunction => port.pci_sbdf(0xfe, 0xff, 31, 7),
        Call::KeepsPnp => port.keeps_pnp(),
        Call::Clock(frequency) => port.clock_frequency(frequency),
        Call::PreciseRate(rate) => port.precise_baud_rate(rate),
    }
}

// Calls, and the bytes that they set at an offset.
#[rattlefmt::skip]
const SETTINGS: [(&[Call], usize, &[u8]); 32] = [
    (&[Call::Gsi(InterruptController::IoApic, 0x0403_0201)], 52, &[2, 0, 1, 2, 3, 4]),
    (&[
        Call::Gsi(InterruptController::IoApic, 0x0403_0201), Call::Irq(0xff),
        Call::Gsi(InterruptController::IoApic, u32::MAX), Call::Irq(9),
    ], 52, &[3, 9, 0xff, 0xff, 0xff, 0xff]),
    (&[Call::Gsi(InterruptController::IoSapic, 0x0403_0201)], 52, &[4, 0, 1, 2, 3, 4]),
    (&[
        Call::Gsi(InterruptController::IoSapic, 0x0403_0201), Call::Irq(0xff),
        Call::Gsi(InterruptController::IoSapic, u32::MAX), Call::Irq(9),
    ], 52, &[5, 9, 0xff, 0xff, 0xff, 0xff]),
    (&[Call::Gsi(InterruptController::ArmGic, 0x0403_0201)], 52, &[8, 0, 1, 2, 3, 4]),
    (&[
        Call::Gsi(InterruptController::ArmGic, 0x0403_0201), Call::Irq(0xff),
        Call::Gsi(InterruptController::ArmGic, u32::MAX), Call::Irq(9),
    ], 52, &[9, 9, 0xff, 0xff, 0xff, 0xff]),
    (&[Call::Gsi(InterruptController::RiscvPlic, 0x0403_0201)], 52, &[16, 0, 1, 2, 3, 4]),
    (&[
        Call::Gsi(InterruptController::RiscvPlic, 0x0403_0201), Call::Irq(0xff),
        Call::Gsi(InterruptController::RiscvPlic, u32::MAX), Call::Irq(9),
    ], 52, &[17, 9, 0xff, 0xff, 0xff, 0xff]),
    (&[Call::Irq(4)], 52, &[1, 4]),
    (&[
        Call::Gsi(InterruptController::IoApic, 1), Call::Gsi(InterruptController::IoSapic, 2),
        Call::Gsi(InterruptController::ArmGic, 3), Call::Gsi(InterruptController::RiscvPlic, 4), Call::Irq(5),
    ], 52, &[0x1f, 5, 4]),
    (&[Call::BaudRate(BaudRate::Baud9600), Call::BaudRate(BaudRate::AsIs)], 58, &[0]),
    (&[Call::BaudRate(BaudRate::Baud9600), Call::BaudRate(BaudRate::Baud9600)], 58, &[3]),
    (&[Call::BaudRate(BaudRate::Baud9600), Call::BaudRate(BaudRate::Baud19200)], 58, &[4]),
    (&[Call::BaudRate(BaudRate::Baud9600), Call::BaudRate(BaudRate::Baud57600)], 58, &[6]),
    (&[Call::BaudRate(BaudRate::Baud9600), Call::BaudRate(BaudRate::Baud115200)], 58, &[7]),
    (&[Call::Parity(0xa1)], 59, &[0xa1]),
    (&[Call::StopBits(0xa2)], 60, &[0xa2]),
    (&[Call::Language(0xa3)], 63, &[0xa3]),
    (&[Call::FlowControl(FlowControl::Dcd)], 61, &[1]),
    (&[Call::FlowControl(FlowControl::RtsCts)], 61, &[2]),
    (&[Call::FlowControl(FlowControl::XonXoff)], 61, &[4]),
    (&[
        Call::FlowControl(FlowControl::XonXoff), Call::FlowControl(FlowControl::Dcd),
        Call::FlowControl(FlowControl::Dcd), Call::FlowControl(FlowControl::RtsCts),
    ], 61, &[7]),
    (&[Call::Terminal(TerminalType::Vt100)], 62, &[0]),
    (&[Call::Terminal(TerminalType::ExtendedVt100)], 62, &[1]),
    (&[Call::Terminal(TerminalType::VtUtf8)], 62, &[2]),
    (&[Call::Terminal(TerminalType::Ansi)], 62, &[3]),
    (&[Call::PciIds(0x0201, 0x0403)], 64, &[1, 2, 3, 4]),
    (&[Call::PciIds(0x0201, 0x0403), Call::FirstFunction, Call::KeepsPnp, Call::KeepsPnp],
        64, &[1, 2, 3, 4, 6, 7, 0, 1, 0, 0, 0, 5]),
    (&[Call::LastFunction], 68, &[0xff, 31, 7, 0, 0, 0, 0, 0xfe]),
    (&[Call::Clock(0x0403_0201)], 76, &[1, 2, 3, 4]),
    (&[Call::PreciseRate(0x0403_0201)], 80, &[1, 2, 3, 4]),
    (&[Call::Clock(0x0403_0201), Call::PreciseRate(u32::MAX), Call::Clock(u32::MAX)], 76, &[0xff; 8]),
];

// Fails unless a port is `PORT` with this part at this offset after these calls, and has the right checksum.
fn sets(alloc: Global, calls: &[Call], offset: usize, part: &[u8]) -> Result<(), Fail> {
    let mut made = of_type(InterfaceType::Uart16550);
    for call in calls {
        made = with_call(made, *call);
    }
    patched(alloc, &made, &PORT, &[(offset, part)])
}

#[test]
fn settings(rt: HostRuntime) -> Result<(), Fail> {
    for (calls, offset, part) in SETTINGS {
        sets(rt.alloc(), calls, offset, part)?;
    }
    Ok(())
}
