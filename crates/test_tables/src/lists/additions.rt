//! A MADT with one structure of each kind, after each addition.

use acpi_tables::Aml;
use acpi_tables::madt::{
    APLIC, EnabledStatus, GicIts, GicMsi, GicVersion, Gicc, Gicd, Gicr, HartStatus, IMSIC, IoApic,
    LocalInterruptController, MADT, PLIC, ProcessorLocalApic, RINTC,
};
use std::alloc::Global;
use std::test::Fail;
use test_support::table::many;
use test_support::{OEM, OEM_REVISION, OEM_TABLE};

fn table(alloc: Global) -> MADT {
    let local = LocalInterruptController::Address(0x0403_0201);
    MADT::new(alloc, OEM, OEM_TABLE, OEM_REVISION, local)
}

// Adds a structure, and fails unless the table is its header, its fixed fields and the bytes of all structures so far.
fn adds<T: Aml + Drop>(
    alloc: Global,
    madt: &mut MADT,
    structure: T,
    bytes: &[u8],
    all: &mut Vec<u8>,
) -> Result<(), Fail> {
    madt.add_structure(structure)?;
    all.extend_from_slice(bytes)?;
    many(alloc, madt, b"APIC", 1, &[1, 2, 3, 4, 0, 0, 0, 0], all, 1)
}

// Adds structures of the interrupt controllers of Arm.
fn adds_those_of_arm(alloc: Global, madt: &mut MADT, all: &mut Vec<u8>) -> Result<(), Fail> {
    let mut gicc = [0; 82];
    gicc[0] = 0x0b;
    gicc[1] = 0x52;
    gicc[12] = 8;
    let later = Gicc::new(EnabledStatus::DisabledOnlineCapable);
    adds(alloc, madt, later, &gicc, all)?;
    let bytes = b"\x0c\x18\0\0\x01\x02\x03\x04\x11\x12\0\0\0\0\0\0\0\0\0\0\x03\0\0\0";
    let gicd = Gicd::new(0x0403_0201, 0x1211, GicVersion::GICv3);
    adds(alloc, madt, gicd, bytes, all)?;
    let bytes = b"\x0d\x18\0\0\0\0\0\0\0\0\0\0\0\0\0\0\x01\0\0\0\x01\x02\x03\x04";
    let frame = GicMsi::new().spi_count_and_base(0x0201, 0x0403);
    adds(alloc, madt, frame, bytes, all)?;
    let bytes = b"\x0e\x10\0\0\x11\x12\0\0\0\0\0\0\x01\x02\x03\x04";
    adds(alloc, madt, Gicr::new(0x1211, 0x0403_0201), bytes, all)?;
    let bytes = b"\x0f\x14\0\0\x01\x02\x03\x04\x11\x12\0\0\0\0\0\0\0\0\0\0";
    adds(alloc, madt, GicIts::new(0x0403_0201, 0x1211), bytes, all)
}

// Adds structures of the interrupt controllers of RISC-V.
fn adds_those_of_riscv(alloc: Global, madt: &mut MADT, all: &mut Vec<u8>) -> Result<(), Fail> {
    let bytes = b"\x18\x24\x01\0\x01\0\0\0\x11\x12\0\0\0\0\0\0\
        \x21\x22\x23\x24\x31\0\0\0\x41\0\0\0\0\0\0\0\x51\0\0\0";
    let hart = RINTC::new(HartStatus::Enabled, 0x1211, 0x2423_2221, 0x31, 0x41, 0x51);
    adds(alloc, madt, hart, bytes, all)?;
    let bytes = b"\x1a\x24\x01\x07\0\0\0\0RSCV0002\
        \x11\x12\x51\x52\x21\x22\x23\x24\x31\0\0\0\0\0\0\0\x41\x42\x43\x44";
    let (id, base, size) = (*b"RSCV0002", 0x31, 0x4443_4241);
    let aplic = APLIC::new(7, id, 0x1211, 0x2423_2221, base, size, 0x5251);
    adds(alloc, madt, aplic, bytes, all)?;
    let bytes = b"\x1b\x24\x01\x02RSCV0001\x11\x12\x13\x14\
        \0\0\0\0\x21\x22\x23\x24\x31\0\0\0\0\0\0\0\x41\x42\x43\x44";
    let plic = PLIC::new(2, *b"RSCV0001", 0x1211, 0x1413, 0x2423_2221, base, size);
    adds(alloc, madt, plic, bytes, all)?;
    let bytes = b"\x19\x10\x01\0\0\0\0\0\x01\x02\x03\x04\x05\x06\x07\x08";
    let imsic = IMSIC::new(0x0201, 0x0403, 5, 6, 7, 8);
    adds(alloc, madt, imsic, bytes, all)
}

// Adds structures of the interrupt controllers of x86.
fn adds_those_of_x86(alloc: Global, madt: &mut MADT, all: &mut Vec<u8>) -> Result<(), Fail> {
    let bytes = b"\x01\x0c\x01\0\x02\x03\x04\x05\x06\x07\x08\x09";
    let io = IoApic::new(1, 0x0504_0302, 0x0908_0706);
    adds(alloc, madt, io, bytes, all)?;
    for (status, number) in [
        (EnabledStatus::Disabled, 0),
        (EnabledStatus::Enabled, 1),
        (EnabledStatus::DisabledOnlineCapable, 2),
    ] {
        let local = ProcessorLocalApic::new(4, 5, status);
        let bytes = [0, 8, 4, 5, number, 0, 0, 0];
        adds(alloc, madt, local, &bytes, all)?;
    }
    Ok(())
}

fn adds_each_kind(alloc: Global, madt: &mut MADT, all: &mut Vec<u8>) -> Result<(), Fail> {
    adds_those_of_arm(alloc, madt, all)?;
    adds_those_of_riscv(alloc, madt, all)?;
    adds_those_of_x86(alloc, madt, all)
}

#[test]
fn each_kind(rt: HostRuntime) -> Result<(), Fail> {
    let mut madt = table(rt.alloc());
    adds_each_kind(rt.alloc(), &mut madt, &mut Vec::new(rt.alloc()))
}
