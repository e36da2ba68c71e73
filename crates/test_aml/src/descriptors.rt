//! Resource descriptors of fixed size, byte for byte: each flag alone, and each field at its extremes.

use acpi_tables::aml::{
    Dma, DmaSpeed, DmaTransfer, DmaWidth, EndDependentFn, FixedDma, FixedIo, IO, Interrupt,
    InterruptFlags, Irq, IrqNoFlags, Memory24, Memory32, Priority, StartDependentFn,
    StartDependentFnNoPri,
};
use std::test::Fail;
use test_support::{all, equal};

#[test]
fn interrupts_and_channels(rt: HostRuntime) -> Result<(), Fail> {
    all(
        rt.alloc(),
        &[
            (
                &Irq::new(0, false, false, false, false),
                &[0x23, 0x00, 0x00, 0x00],
            ),
            (
                &Irq::new(0x0001, true, false, false, false),
                &[0x23, 0x01, 0x00, 0x01],
            ),
            (
                &Irq::new(0x8000, false, true, false, false),
                &[0x23, 0x00, 0x80, 0x08],
            ),
            (
                &Irq::new(0x0102, false, false, true, false),
                &[0x23, 0x02, 0x01, 0x10],
            ),
            (
                &Irq::new(0x0010, false, false, false, true),
                &[0x23, 0x10, 0x00, 0x20],
            ),
            (
                &Irq::new(0xffff, true, true, true, true),
                &[0x23, 0xff, 0xff, 0x39],
            ),
            (&IrqNoFlags::new(0), &[0x22, 0x00, 0x00]),
            (&IrqNoFlags::new(0x0102), &[0x22, 0x02, 0x01]),
            (&IrqNoFlags::new(0xffff), &[0x22, 0xff, 0xff]),
            (
                &Dma::new(DmaSpeed::Compatibility, false, DmaTransfer::Transfer8, 0),
                &[0x2a, 0x00, 0x00],
            ),
            (
                &Dma::new(DmaSpeed::TypeA, false, DmaTransfer::Transfer8, 0x01),
                &[0x2a, 0x01, 0x20],
            ),
            (
                &Dma::new(DmaSpeed::TypeB, false, DmaTransfer::Transfer8, 0x80),
                &[0x2a, 0x80, 0x40],
            ),
            (
                &Dma::new(DmaSpeed::TypeF, false, DmaTransfer::Transfer8, 0x04),
                &[0x2a, 0x04, 0x60],
            ),
            (
                &Dma::new(DmaSpeed::Compatibility, true, DmaTransfer::Transfer8, 0x04),
                &[0x2a, 0x04, 0x04],
            ),
            (
                &Dma::new(
                    DmaSpeed::Compatibility,
                    false,
                    DmaTransfer::Transfer8And16,
                    0x04,
                ),
                &[0x2a, 0x04, 0x01],
            ),
            (
                &Dma::new(DmaSpeed::TypeF, true, DmaTransfer::Transfer16, 0xff),
                &[0x2a, 0xff, 0x66],
            ),
            (
                &FixedDma::new(0, 0, DmaWidth::Width8),
                &[0x55, 0x00, 0x00, 0x00, 0x00, 0x00],
            ),
            (
                &FixedDma::new(0x0102, 0x0304, DmaWidth::Width16),
                &[0x55, 0x02, 0x01, 0x04, 0x03, 0x01],
            ),
            (
                &FixedDma::new(0xffff, 0, DmaWidth::Width32),
                &[0x55, 0xff, 0xff, 0x00, 0x00, 0x02],
            ),
            (
                &FixedDma::new(0, 0xffff, DmaWidth::Width64),
                &[0x55, 0x00, 0x00, 0xff, 0xff, 0x03],
            ),
            (
                &FixedDma::new(1, 2, DmaWidth::Width128),
                &[0x55, 0x01, 0x00, 0x02, 0x00, 0x04],
            ),
            (
                &FixedDma::new(3, 4, DmaWidth::Width256),
                &[0x55, 0x03, 0x00, 0x04, 0x00, 0x05],
            ),
        ],
    )
}

#[test]
fn alternatives(rt: HostRuntime) -> Result<(), Fail> {
    all(
        rt.alloc(),
        &[
            (
                &StartDependentFn::new(Priority::Good, Priority::Good),
                &[0x31, 0x00],
            ),
            (
                &StartDependentFn::new(Priority::Acceptable, Priority::Good),
                &[0x31, 0x01],
            ),
            (
                &StartDependentFn::new(Priority::SubOptimal, Priority::Good),
                &[0x31, 0x02],
            ),
            (
                &StartDependentFn::new(Priority::Good, Priority::Acceptable),
                &[0x31, 0x04],
            ),
            (
                &StartDependentFn::new(Priority::SubOptimal, Priority::SubOptimal),
                &[0x31, 0x0a],
            ),
            (&StartDependentFnNoPri::new(), &[0x30]),
            (&EndDependentFn::new(), &[0x38]),
        ],
    )
}

#[test]
fn ports_and_memory(rt: HostRuntime) -> Result<(), Fail> {
    all(
        rt.alloc(),
        &[
            (
                &IO::new_decode_10(0x3f0, 0x4f8, 4, 8),
                &[0x47, 0x00, 0xf0, 0x03, 0xf8, 0x04, 0x04, 0x08],
            ),
            (
                &IO::new_decode_10(0, 0xffff, 0, 0xff),
                &[0x47, 0x00, 0x00, 0x00, 0xff, 0xff, 0x00, 0xff],
            ),
            (&FixedIo::new(0, 0), &[0x4b, 0x00, 0x00, 0x00]),
            (&FixedIo::new(0x03f8, 8), &[0x4b, 0xf8, 0x03, 0x08]),
            (&FixedIo::new(0xffff, 0xff), &[0x4b, 0xff, 0xff, 0xff]),
            (
                &Memory24::new(false, 0, 0xffff, 0, 0xffff),
                &[
                    0x81, 0x09, 0x00, 0x00, 0x00, 0x00, 0xff, 0xff, 0x00, 0x00, 0xff, 0xff,
                ],
            ),
            (
                &Memory24::new(true, 0x0102, 0x0304, 0x0506, 0x0708),
                &[
                    0x81, 0x09, 0x00, 0x01, 0x02, 0x01, 0x04, 0x03, 0x06, 0x05, 0x08, 0x07,
                ],
            ),
            (
                &Memory24::new(false, 0xffff, 0, 0xffff, 0),
                &[
                    0x81, 0x09, 0x00, 0x00, 0xff, 0xff, 0x00, 0x00, 0xff, 0xff, 0x00, 0x00,
                ],
            ),
            (
                &Memory32::new(false, 0, u32::MAX, 0, u32::MAX),
                &[
                    0x85, 0x11, 0x00, 0x00, 0x00, 0x00, 0x00, 0x00, 0xff, 0xff, 0xff, 0xff, 0x00,
                    0x00, 0x00, 0x00, 0xff, 0xff, 0xff, 0xff,
                ],
            ),
            (
                &Memory32::new(true, 0x0403_0201, 0x0807_0605, 0x0c0b_0a09, 0x100f_0e0d),
                &[
                    0x85, 0x11, 0x00, 0x01, 0x01, 0x02, 0x03, 0x04, 0x05, 0x06, 0x07, 0x08, 0x09,
                    0x0a, 0x0b, 0x0c, 0x0d, 0x0e, 0x0f, 0x10,
                ],
            ),
            (
                &Memory32::new(false, u32::MAX, 0, u32::MAX, 0),
                &[
                    0x85, 0x11, 0x00, 0x00, 0xff, 0xff, 0xff, 0xff, 0x00, 0x00, 0x00, 0x00, 0xff,
                    0xff, 0xff, 0xff, 0x00, 0x00, 0x00, 0x00,
                ],
            ),
        ],
    )
}

pub const NO_FLAGS: InterruptFlags = InterruptFlags {
    consumer: false,
    edge_triggered: false,
    active_low: false,
    shared: false,
    wake: false,
};

pub const ALL_FLAGS: InterruptFlags = InterruptFlags {
    consumer: true,
    edge_triggered: true,
    active_low: true,
    shared: true,
    wake: true,
};

#[test]
fn flags_of_interrupts(rt: HostRuntime) -> Result<(), Fail> {
    let consumer = InterruptFlags {
        consumer: true,
        ..NO_FLAGS
    };
    let edge_triggered = InterruptFlags {
        edge_triggered: true,
        ..NO_FLAGS
    };
    let active_low = InterruptFlags {
        active_low: true,
        ..NO_FLAGS
    };
    let shared = InterruptFlags {
        shared: true,
        ..NO_FLAGS
    };
    let wake = InterruptFlags {
        wake: true,
        ..NO_FLAGS
    };
    all(
        rt.alloc(),
        &[
            (
                &Interrupt::of_flags(NO_FLAGS, 0),
                &[0x89, 0x06, 0x00, 0x00, 0x01, 0x00, 0x00, 0x00, 0x00],
            ),
            (
                &Interrupt::of_flags(consumer, 1),
                &[0x89, 0x06, 0x00, 0x01, 0x01, 0x01, 0x00, 0x00, 0x00],
            ),
            (
                &Interrupt::of_flags(edge_triggered, 2),
                &[0x89, 0x06, 0x00, 0x02, 0x01, 0x02, 0x00, 0x00, 0x00],
            ),
            (
                &Interrupt::of_flags(active_low, 3),
                &[0x89, 0x06, 0x00, 0x04, 0x01, 0x03, 0x00, 0x00, 0x00],
            ),
            (
                &Interrupt::of_flags(shared, 4),
                &[0x89, 0x06, 0x00, 0x08, 0x01, 0x04, 0x00, 0x00, 0x00],
            ),
            (
                &Interrupt::of_flags(wake, 0x0403_0201),
                &[0x89, 0x06, 0x00, 0x10, 0x01, 0x01, 0x02, 0x03, 0x04],
            ),
            (
                &Interrupt::of_flags(ALL_FLAGS, u32::MAX),
                &[0x89, 0x06, 0x00, 0x1f, 0x01, 0xff, 0xff, 0xff, 0xff],
            ),
        ],
    )
}

#[test]
fn numbers_of_words(_: HostRuntime) -> Result<(), Fail> {
    for (number, wanted) in [
        (DmaSpeed::Compatibility as u8, 0),
        (DmaSpeed::TypeA as u8, 1),
        (DmaSpeed::TypeB as u8, 2),
        (DmaSpeed::TypeF as u8, 3),
        (DmaTransfer::Transfer8 as u8, 0),
        (DmaTransfer::Transfer8And16 as u8, 1),
        (DmaTransfer::Transfer16 as u8, 2),
        (DmaWidth::Width8 as u8, 0),
        (DmaWidth::Width16 as u8, 1),
        (DmaWidth::Width32 as u8, 2),
        (DmaWidth::Width64 as u8, 3),
        (DmaWidth::Width128 as u8, 4),
        (DmaWidth::Width256 as u8, 5),
        (Priority::Good as u8, 0),
        (Priority::Acceptable as u8, 1),
        (Priority::SubOptimal as u8, 2),
    ] {
        equal(&number, &wanted)?;
    }
    Ok(())
}
