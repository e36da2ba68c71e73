//! MADT and SRAT of the machines of QEMU 7.2, but for the maker in their headers.

use acpi_base::error::R;
use acpi_tables::madt::{
    EnabledStatus, GicMsi, GicVersion, Gicc, Gicd, InterruptSourceOverride, IoApic, LocalApicNmi,
    LocalInterruptController, MADT, PCAT_COMPAT, Polarity, ProcessorLocalApic, Trigger,
    TriggerMode,
};
use acpi_tables::srat::{GiccAffinity, MemoryAffinity, ProcessorLocalApicAffinity, SRAT};
use std::alloc::Global;
use std::test::Fail;
use test_support::table::table;
use test_support::{OEM, OEM_REVISION, OEM_TABLE, writes};

// The processors of a PC: the id and the APIC id of each, and whether it is there from the start.
type Processors<'a> = &'a [(u8, u8, bool)];

// Adds the processors and the I/O APICs of a PC.
fn add_controllers(madt: &mut MADT, processors: Processors<'_>, io: &[(u8, u32, u32)]) -> R<()> {
    for (uid, apic, there) in processors {
        let status = if *there {
            EnabledStatus::Enabled
        } else {
            EnabledStatus::Disabled
        };
        madt.add_structure(ProcessorLocalApic::new(*uid, *apic, status))?;
    }
    for (number, address, first) in io {
        madt.add_structure(IoApic::new(*number, *address, *first))?;
    }
    Ok(())
}

// Adds interrupts that are active high and triggered by level. The timer's comes to input 2, if there is a timer.
fn add_interrupts(madt: &mut MADT, timer: bool, levels: &[u8]) -> R<()> {
    if timer {
        madt.add_structure(InterruptSourceOverride::new(0, 2))?;
    }
    for number in levels {
        let source = InterruptSourceOverride::new(*number, u32::from(*number));
        let high = source
            .polarity(Polarity::ActiveHigh)
            .trigger_mode(TriggerMode::Level);
        madt.add_structure(high)?;
    }
    madt.add_structure(LocalApicNmi::of_all_processors(1))
}

// A row of a PC: its processors, its I/O APICs with address and first interrupt, whether it has a timer, its interrupts that are
// triggered by level, and the bytes of the structures.
type Row<'a> = (
    Processors<'a>,
    &'a [(u8, u32, u32)],
    bool,
    &'a [u8],
    &'a [u8],
);

const CONTROLLERS: [Row<'static>; 7] = [
    // a PC
    (
        &[(0, 0, true)],
        &[(0, 0xfec0_0000, 0)],
        true,
        &[5, 9, 10, 11],
        b"\0\x08\0\0\x01\0\0\0\
            \x01\x0c\0\0\0\0\xc0\xfe\0\0\0\0\
            \x02\x0a\0\0\x02\0\0\0\0\0\
            \x02\x0a\0\x05\x05\0\0\0\x0d\0\
            \x02\x0a\0\x09\x09\0\0\0\x0d\0\
            \x02\x0a\0\x0a\x0a\0\0\0\x0d\0\
            \x02\x0a\0\x0b\x0b\0\0\0\x0d\0\
            \x04\x06\xff\0\0\x01",
    ),
    // a PC with two processors
    (
        &[(0, 0, true), (1, 1, true)],
        &[(0, 0xfec0_0000, 0)],
        true,
        &[5, 9, 10, 11],
        b"\0\x08\0\0\x01\0\0\0\
            \0\x08\x01\x01\x01\0\0\0\
            \x01\x0c\0\0\0\0\xc0\xfe\0\0\0\0\
            \x02\x0a\0\0\x02\0\0\0\0\0\
            \x02\x0a\0\x05\x05\0\0\0\x0d\0\
            \x02\x0a\0\x09\x09\0\0\0\x0d\0\
            \x02\x0a\0\x0a\x0a\0\0\0\x0d\0\
            \x02\x0a\0\x0b\x0b\0\0\0\x0d\0\
            \x04\x06\xff\0\0\x01",
    ),
    // a PC with four
    (
        &[(0, 0, true), (1, 1, true), (2, 2, true), (3, 3, true)],
        &[(0, 0xfec0_0000, 0)],
        true,
        &[5, 9, 10, 11],
        b"\0\x08\0\0\x01\0\0\0\
            \0\x08\x01\x01\x01\0\0\0\
            \0\x08\x02\x02\x01\0\0\0\
            \0\x08\x03\x03\x01\0\0\0\
            \x01\x0c\0\0\0\0\xc0\xfe\0\0\0\0\
            \x02\x0a\0\0\x02\0\0\0\0\0\
            \x02\x0a\0\x05\x05\0\0\0\x0d\0\
            \x02\x0a\0\x09\x09\0\0\0\x0d\0\
            \x02\x0a\0\x0a\x0a\0\0\0\x0d\0\
            \x02\x0a\0\x0b\x0b\0\0\0\x0d\0\
            \x04\x06\xff\0\0\x01",
    ),
    // a PC to which processors are added
    (
        &[
            (0, 0, true),
            (1, 1, true),
            (2, 2, false),
            (3, 4, false),
            (4, 5, false),
            (5, 6, false),
        ],
        &[(0, 0xfec0_0000, 0)],
        true,
        &[5, 9, 10, 11],
        b"\0\x08\0\0\x01\0\0\0\
            \0\x08\x01\x01\x01\0\0\0\
            \0\x08\x02\x02\0\0\0\0\
            \0\x08\x03\x04\0\0\0\0\
            \0\x08\x04\x05\0\0\0\0\
            \0\x08\x05\x06\0\0\0\0\
            \x01\x0c\0\0\0\0\xc0\xfe\0\0\0\0\
            \x02\x0a\0\0\x02\0\0\0\0\0\
            \x02\x0a\0\x05\x05\0\0\0\x0d\0\
            \x02\x0a\0\x09\x09\0\0\0\x0d\0\
            \x02\x0a\0\x0a\x0a\0\0\0\x0d\0\
            \x02\x0a\0\x0b\x0b\0\0\0\x0d\0\
            \x04\x06\xff\0\0\x01",
    ),
    // a microvm
    (
        &[(0, 0, true)],
        &[(0, 0xfec0_0000, 0)],
        false,
        &[],
        b"\0\x08\0\0\x01\0\0\0\
            \x01\x0c\0\0\0\0\xc0\xfe\0\0\0\0\
            \x04\x06\xff\0\0\x01",
    ),
    // a microvm with two I/O APICs
    (
        &[(0, 0, true)],
        &[(0, 0xfec0_0000, 0), (1, 0xfec1_0000, 0x18)],
        false,
        &[],
        b"\0\x08\0\0\x01\0\0\0\
            \x01\x0c\0\0\0\0\xc0\xfe\0\0\0\0\
            \x01\x0c\x01\0\0\0\xc1\xfe\x18\0\0\0\
            \x04\x06\xff\0\0\x01",
    ),
    // a microvm with PCI Express
    (
        &[(0, 0, true)],
        &[(0, 0xfec0_0000, 0)],
        false,
        &[12, 13, 14, 15],
        b"\0\x08\0\0\x01\0\0\0\
            \x01\x0c\0\0\0\0\xc0\xfe\0\0\0\0\
            \x02\x0a\0\x0c\x0c\0\0\0\x0d\0\
            \x02\x0a\0\x0d\x0d\0\0\0\x0d\0\
            \x02\x0a\0\x0e\x0e\0\0\0\x0d\0\
            \x02\x0a\0\x0f\x0f\0\0\0\x0d\0\
            \x04\x06\xff\0\0\x01",
    ),
];

#[test]
fn interrupt_controllers(rt: HostRuntime) -> Result<(), Fail> {
    let alloc = rt.alloc();
    let local = LocalInterruptController::Address(0xfee0_0000);
    for (processors, io, timer, levels, wanted) in CONTROLLERS {
        let mut madt = MADT::of_revision(
            alloc,
            1,
            OEM,
            OEM_TABLE,
            OEM_REVISION,
            local,
            PCAT_COMPAT,
        );
        add_controllers(&mut madt, processors, io)?;
        add_interrupts(&mut madt, timer, levels)?;
        let fixed: &[u8] = b"\0\0\xe0\xfe\x01\0\0\0";
        writes(alloc, &madt, &table(alloc, b"APIC", 1, &[fixed, wanted])?)?;
    }
    Ok(())
}

// The first part of the bytes of `virt`, the bytes of each of its processors, and the last part.
const DISTRIBUTOR: &[u8] = b"\x0c\x18\0\0\0\0\0\0\0\0\0\x08\0\0\0\0\0\0\0\0\
        \x02\0\0\0";

const INTERFACES: [&[u8]; 4] = [
    b"\x0b\x50\0\0\0\0\0\0\0\0\0\0\x01\0\0\0\0\0\0\0\
        \x17\0\0\0\0\0\0\0\0\0\0\0\0\0\x01\x08\0\0\0\0\
        \0\0\x04\x08\0\0\0\0\0\0\x03\x08\0\0\0\0\0\0\0\0\
        \0\0\0\0\0\0\0\0\0\0\0\0\0\0\0\0\0\0\0\0",
    b"\x0b\x50\0\0\x01\0\0\0\x01\0\0\0\x01\0\0\0\0\0\0\0\
        \x17\0\0\0\0\0\0\0\0\0\0\0\0\0\x01\x08\0\0\0\0\
        \0\0\x04\x08\0\0\0\0\0\0\x03\x08\0\0\0\0\0\0\0\0\
        \0\0\0\0\0\0\0\0\x01\0\0\0\0\0\0\0\0\0\0\0",
    b"\x0b\x50\0\0\x02\0\0\0\x02\0\0\0\x01\0\0\0\0\0\0\0\
        \x17\0\0\0\0\0\0\0\0\0\0\0\0\0\x01\x08\0\0\0\0\
        \0\0\x04\x08\0\0\0\0\0\0\x03\x08\0\0\0\0\0\0\0\0\
        \0\0\0\0\0\0\0\0\x02\0\0\0\0\0\0\0\0\0\0\0",
    b"\x0b\x50\0\0\x03\0\0\0\x03\0\0\0\x01\0\0\0\0\0\0\0\
        \x17\0\0\0\0\0\0\0\0\0\0\0\0\0\x01\x08\0\0\0\0\
        \0\0\x04\x08\0\0\0\0\0\0\x03\x08\0\0\0\0\0\0\0\0\
        \0\0\0\0\0\0\0\0\x03\0\0\0\0\0\0\0\0\0\0\0",
];

const MESSAGES: &[u8] = b"\x0d\x18\0\0\0\0\0\0\0\0\x02\x08\0\0\0\0\x01\0\0\0\
        \x40\0\x50\0";

// The interface of a processor of `virt`.
fn interface(number: u32) -> Gicc {
    Gicc::new(EnabledStatus::Enabled)
        .cpu_interface_number(number)
        .acpi_processor_uid(number)
        .performance_interrupt(0x17, Trigger::Level)
        .base_address(0x801_0000)
        .virtual_registers(0x804_0000)
        .control_block_registers(0x803_0000)
        .mpidr(u64::from(number))
}

// Adds the GIC of `virt` with this many processors.
fn add_gic(madt: &mut MADT, processors: u32) -> R<()> {
    madt.add_structure(Gicd::new(0, 0x800_0000, GicVersion::GICv2))?;
    for number in 0..processors {
        madt.add_structure(interface(number).earlier())?;
    }
    let frame = GicMsi::new().base_addr(0x802_0000);
    madt.add_structure(frame.spi_count_and_base(0x40, 0x50))
}

// `virt` with one processor, and with four.
#[test]
fn interrupt_controllers_of_virt(rt: HostRuntime) -> Result<(), Fail> {
    let alloc = rt.alloc();
    let [first, second, third, fourth] = INTERFACES;
    let rows: [(u32, &[&[u8]]); 2] = [
        (1, &[&[0; 8], DISTRIBUTOR, first, MESSAGES]),
        (
            4,
            &[&[0; 8], DISTRIBUTOR, first, second, third, fourth, MESSAGES],
        ),
    ];
    for (processors, wanted) in rows {
        let local = LocalInterruptController::Address(0);
        let mut madt = MADT::of_revision(alloc, 4, OEM, OEM_TABLE, OEM_REVISION, local, 0);
        add_gic(&mut madt, processors)?;
        writes(alloc, &madt, &table(alloc, b"APIC", 4, wanted)?)?;
    }
    Ok(())
}

// A row of a PC: the domain and the APIC id of each processor; the domain, the address, the size and the flags of each range of
// memory; and the bytes of the structures.
type Domains<'a> = (&'a [(u32, u8)], &'a [(u32, u64, u64, u32)], &'a [u8]);

const DOMAINS: [Domains<'static>; 7] = [
    // a PC with a HMAT
    (
        &[(0, 0), (0, 1)],
        &[
            (0, 0, 0xa_0000, 1),
            (0, 0x10_0000, 0x3f0_0000, 1),
            (1, 0x400_0000, 0x400_0000, 1),
            (0, 0, 0, 0),
            (1, 0x1_0000_0000, 0xb800_0000, 3),
        ],
        b"\0\x10\0\0\x01\0\0\0\0\0\0\0\0\0\0\0\
            \0\x10\0\x01\x01\0\0\0\0\0\0\0\0\0\0\0\
            \x01(\0\0\0\0\0\0\0\0\0\0\0\0\0\0\0\0\x0a\0\0\0\0\0\0\0\0\0\x01\0\0\0\0\0\0\0\0\0\0\0\
            \x01(\0\0\0\0\0\0\0\0\x10\0\0\0\0\0\0\0\xf0\x03\0\0\0\0\0\0\0\0\x01\0\0\0\0\0\0\0\0\0\0\0\
            \x01(\x01\0\0\0\0\0\0\0\0\x04\0\0\0\0\0\0\0\x04\0\0\0\0\0\0\0\0\x01\0\0\0\0\0\0\0\0\0\0\0\
            \x01(\0\0\0\0\0\0\0\0\0\0\0\0\0\0\0\0\0\0\0\0\0\0\0\0\0\0\0\0\0\0\0\0\0\0\0\0\0\0\
            \x01(\x01\0\0\0\0\0\0\0\0\0\x01\0\0\0\0\0\0\xb8\0\0\0\0\0\0\0\0\x03\0\0\0\0\0\0\0\0\0\0\0",
    ),
    // a PC to which processors are added
    (
        &[(0, 0), (0, 1), (0, 2), (1, 4), (1, 5), (1, 6)],
        &[
            (0, 0, 0xa_0000, 1),
            (0, 0x10_0000, 0x3f0_0000, 1),
            (1, 0x400_0000, 0x400_0000, 1),
            (0, 0, 0, 0),
        ],
        b"\0\x10\0\0\x01\0\0\0\0\0\0\0\0\0\0\0\
            \0\x10\0\x01\x01\0\0\0\0\0\0\0\0\0\0\0\
            \0\x10\0\x02\x01\0\0\0\0\0\0\0\0\0\0\0\
            \0\x10\x01\x04\x01\0\0\0\0\0\0\0\0\0\0\0\
            \0\x10\x01\x05\x01\0\0\0\0\0\0\0\0\0\0\0\
            \0\x10\x01\x06\x01\0\0\0\0\0\0\0\0\0\0\0\
            \x01(\0\0\0\0\0\0\0\0\0\0\0\0\0\0\0\0\x0a\0\0\0\0\0\0\0\0\0\x01\0\0\0\0\0\0\0\0\0\0\0\
            \x01(\0\0\0\0\0\0\0\0\x10\0\0\0\0\0\0\0\xf0\x03\0\0\0\0\0\0\0\0\x01\0\0\0\0\0\0\0\0\0\0\0\
            \x01(\x01\0\0\0\0\0\0\0\0\x04\0\0\0\0\0\0\0\x04\0\0\0\0\0\0\0\0\x01\0\0\0\0\0\0\0\0\0\0\0\
            \x01(\0\0\0\0\0\0\0\0\0\0\0\0\0\0\0\0\0\0\0\0\0\0\0\0\0\0\0\0\0\0\0\0\0\0\0\0\0\0",
    ),
    // a PC with a module of persistent memory
    (
        &[(0, 0), (1, 1), (2, 2), (3, 3)],
        &[
            (0, 0, 0xa_0000, 1),
            (0, 0x10_0000, 0x1f0_0000, 1),
            (1, 0x200_0000, 0x200_0000, 1),
            (2, 0x400_0000, 0x200_0000, 1),
            (3, 0x600_0000, 0x200_0000, 1),
            (2, 0x1_0800_0000, 0x800_0000, 5),
            (3, 0x1_0000_0000, 0xf800_0000, 3),
        ],
        b"\0\x10\0\0\x01\0\0\0\0\0\0\0\0\0\0\0\
            \0\x10\x01\x01\x01\0\0\0\0\0\0\0\0\0\0\0\
            \0\x10\x02\x02\x01\0\0\0\0\0\0\0\0\0\0\0\
            \0\x10\x03\x03\x01\0\0\0\0\0\0\0\0\0\0\0\
            \x01(\0\0\0\0\0\0\0\0\0\0\0\0\0\0\0\0\x0a\0\0\0\0\0\0\0\0\0\x01\0\0\0\0\0\0\0\0\0\0\0\
            \x01(\0\0\0\0\0\0\0\0\x10\0\0\0\0\0\0\0\xf0\x01\0\0\0\0\0\0\0\0\x01\0\0\0\0\0\0\0\0\0\0\0\
            \x01(\x01\0\0\0\0\0\0\0\0\x02\0\0\0\0\0\0\0\x02\0\0\0\0\0\0\0\0\x01\0\0\0\0\0\0\0\0\0\0\0\
            \x01(\x02\0\0\0\0\0\0\0\0\x04\0\0\0\0\0\0\0\x02\0\0\0\0\0\0\0\0\x01\0\0\0\0\0\0\0\0\0\0\0\
            \x01(\x03\0\0\0\0\0\0\0\0\x06\0\0\0\0\0\0\0\x02\0\0\0\0\0\0\0\0\x01\0\0\0\0\0\0\0\0\0\0\0\
            \x01(\x02\0\0\0\0\0\0\0\0\x08\x01\0\0\0\0\0\0\x08\0\0\0\0\0\0\0\0\x05\0\0\0\0\0\0\0\0\0\0\0\
            \x01(\x03\0\0\0\0\0\0\0\0\0\x01\0\0\0\0\0\0\xf8\0\0\0\0\0\0\0\0\x03\0\0\0\0\0\0\0\0\0\0\0",
    ),
    // a PC to which memory is added
    (
        &[(0, 0)],
        &[
            (0, 0, 0xa_0000, 1),
            (0, 0x10_0000, 0x3f0_0000, 1),
            (1, 0x400_0000, 0x400_0000, 1),
            (0, 0, 0, 0),
            (1, 0x1_0000_0000, 0xf800_0000, 3),
        ],
        b"\0\x10\0\0\x01\0\0\0\0\0\0\0\0\0\0\0\
            \x01(\0\0\0\0\0\0\0\0\0\0\0\0\0\0\0\0\x0a\0\0\0\0\0\0\0\0\0\x01\0\0\0\0\0\0\0\0\0\0\0\
            \x01(\0\0\0\0\0\0\0\0\x10\0\0\0\0\0\0\0\xf0\x03\0\0\0\0\0\0\0\0\x01\0\0\0\0\0\0\0\0\0\0\0\
            \x01(\x01\0\0\0\0\0\0\0\0\x04\0\0\0\0\0\0\0\x04\0\0\0\0\0\0\0\0\x01\0\0\0\0\0\0\0\0\0\0\0\
            \x01(\0\0\0\0\0\0\0\0\0\0\0\0\0\0\0\0\0\0\0\0\0\0\0\0\0\0\0\0\0\0\0\0\0\0\0\0\0\0\
            \x01(\x01\0\0\0\0\0\0\0\0\0\x01\0\0\0\0\0\0\xf8\0\0\0\0\0\0\0\0\x03\0\0\0\0\0\0\0\0\0\0\0",
    ),
    // a PC whose memory is in another domain than its processor
    (
        &[(0, 0)],
        &[
            (1, 0, 0xa_0000, 1),
            (1, 0x10_0000, 0x7f0_0000, 1),
            (0, 0, 0, 0),
            (0, 0, 0, 0),
        ],
        b"\0\x10\0\0\x01\0\0\0\0\0\0\0\0\0\0\0\
            \x01(\x01\0\0\0\0\0\0\0\0\0\0\0\0\0\0\0\x0a\0\0\0\0\0\0\0\0\0\x01\0\0\0\0\0\0\0\0\0\0\0\
            \x01(\x01\0\0\0\0\0\0\0\x10\0\0\0\0\0\0\0\xf0\x07\0\0\0\0\0\0\0\0\x01\0\0\0\0\0\0\0\0\0\0\0\
            \x01(\0\0\0\0\0\0\0\0\0\0\0\0\0\0\0\0\0\0\0\0\0\0\0\0\0\0\0\0\0\0\0\0\0\0\0\0\0\0\
            \x01(\0\0\0\0\0\0\0\0\0\0\0\0\0\0\0\0\0\0\0\0\0\0\0\0\0\0\0\0\0\0\0\0\0\0\0\0\0\0",
    ),
    // a Q35 with a domain without processors
    (
        &[(0, 0), (0, 1), (1, 2), (1, 3)],
        &[
            (0, 0, 0xa_0000, 1),
            (0, 0x10_0000, 0x1f0_0000, 1),
            (1, 0x200_0000, 0x200_0000, 1),
            (2, 0x400_0000, 0x400_0000, 1),
            (0, 0, 0, 0),
        ],
        b"\0\x10\0\0\x01\0\0\0\0\0\0\0\0\0\0\0\
            \0\x10\0\x01\x01\0\0\0\0\0\0\0\0\0\0\0\
            \0\x10\x01\x02\x01\0\0\0\0\0\0\0\0\0\0\0\
            \0\x10\x01\x03\x01\0\0\0\0\0\0\0\0\0\0\0\
            \x01(\0\0\0\0\0\0\0\0\0\0\0\0\0\0\0\0\x0a\0\0\0\0\0\0\0\0\0\x01\0\0\0\0\0\0\0\0\0\0\0\
            \x01(\0\0\0\0\0\0\0\0\x10\0\0\0\0\0\0\0\xf0\x01\0\0\0\0\0\0\0\0\x01\0\0\0\0\0\0\0\0\0\0\0\
            \x01(\x01\0\0\0\0\0\0\0\0\x02\0\0\0\0\0\0\0\x02\0\0\0\0\0\0\0\0\x01\0\0\0\0\0\0\0\0\0\0\0\
            \x01(\x02\0\0\0\0\0\0\0\0\x04\0\0\0\0\0\0\0\x04\0\0\0\0\0\0\0\0\x01\0\0\0\0\0\0\0\0\0\0\0\
            \x01(\0\0\0\0\0\0\0\0\0\0\0\0\0\0\0\0\0\0\0\0\0\0\0\0\0\0\0\0\0\0\0\0\0\0\0\0\0\0",
    ),
    // a Q35 with space for devices above 4 GiB
    (
        &[(0, 0)],
        &[
            (0, 0, 0xa_0000, 1),
            (0, 0x10_0000, 0x7f0_0000, 1),
            (0, 0, 0, 0),
            (0, 0x1_0000_0000, 0xb800_0000, 3),
        ],
        b"\0\x10\0\0\x01\0\0\0\0\0\0\0\0\0\0\0\
            \x01(\0\0\0\0\0\0\0\0\0\0\0\0\0\0\0\0\x0a\0\0\0\0\0\0\0\0\0\x01\0\0\0\0\0\0\0\0\0\0\0\
            \x01(\0\0\0\0\0\0\0\0\x10\0\0\0\0\0\0\0\xf0\x07\0\0\0\0\0\0\0\0\x01\0\0\0\0\0\0\0\0\0\0\0\
            \x01(\0\0\0\0\0\0\0\0\0\0\0\0\0\0\0\0\0\0\0\0\0\0\0\0\0\0\0\0\0\0\0\0\0\0\0\0\0\0\
            \x01(\0\0\0\0\0\0\0\0\0\0\x01\0\0\0\0\0\0\xb8\0\0\0\0\0\0\0\0\x03\0\0\0\0\0\0\0\0\0\0\0",
    ),
];

// Adds a range of memory with flags: 1 for enabled, 2 for hot pluggable, 4 for nonvolatile.
fn add_memory(srat: &mut SRAT, row: (u32, u64, u64, u32)) -> R<()> {
    let (domain, base, size, flags) = row;
    let mut memory = MemoryAffinity::new(domain, base, size);
    if flags & 1 != 0 {
        memory = memory.enabled();
    }
    if flags & 2 != 0 {
        memory = memory.hotpluggable();
    }
    if flags & 4 != 0 {
        memory = memory.nonvolatile();
    }
    srat.add_memory_affinity(memory)
}

const FIXED: &[u8] = b"\x01\0\0\0\0\0\0\0\0\0\0\0";

#[test]
fn domains(rt: HostRuntime) -> Result<(), Fail> {
    let alloc = rt.alloc();
    for (processors, memory, wanted) in DOMAINS {
        let mut srat = SRAT::new(alloc, OEM, OEM_TABLE, OEM_REVISION);
        for (domain, apic) in processors {
            let processor = ProcessorLocalApicAffinity::new(*domain, *apic);
            srat.add_processor_local_apic_affinity(processor.enabled())?;
        }
        for row in memory {
            add_memory(&mut srat, *row)?;
        }
        writes(alloc, &srat, &table(alloc, b"SRAT", 1, &[FIXED, wanted])?)?;
    }
    Ok(())
}

// A row of `virt`: the domain of each processor, the ranges of memory, and the bytes of the structures.
type VirtDomains<'a> = (&'a [u32], &'a [(u32, u64, u64, u32)], &'a [u8]);

const VIRT_DOMAINS: [VirtDomains<'static>; 3] = [
    // with four processors in two domains
    (
        &[0, 0, 1, 1],
        &[
            (0, 0x4000_0000, 0x400_0000, 1),
            (1, 0x4400_0000, 0x400_0000, 1),
            (2, 0x4800_0000, 0x800_0000, 1),
        ],
        b"\x03\x12\0\0\0\0\0\0\0\0\x01\0\0\0\0\0\0\0\
            \x03\x12\0\0\0\0\x01\0\0\0\x01\0\0\0\0\0\0\0\
            \x03\x12\x01\0\0\0\x02\0\0\0\x01\0\0\0\0\0\0\0\
            \x03\x12\x01\0\0\0\x03\0\0\0\x01\0\0\0\0\0\0\0\
            \x01(\0\0\0\0\0\0\0\0\0@\0\0\0\0\0\0\0\x04\0\0\0\0\0\0\0\0\x01\0\0\0\0\0\0\0\0\0\0\0\
            \x01(\x01\0\0\0\0\0\0\0\0D\0\0\0\0\0\0\0\x04\0\0\0\0\0\0\0\0\x01\0\0\0\0\0\0\0\0\0\0\0\
            \x01(\x02\0\0\0\0\0\0\0\0H\0\0\0\0\0\0\0\x08\0\0\0\0\0\0\0\0\x01\0\0\0\0\0\0\0\0\0\0\0",
    ),
    // to which memory is added
    (
        &[0],
        &[
            (0, 0x4000_0000, 0x800_0000, 1),
            (1, 0x4800_0000, 0x800_0000, 1),
            (1, 0x8800_0000, 0x800_0000, 5),
            (1, 0x8000_0000, 0xf000_0000, 3),
        ],
        b"\x03\x12\0\0\0\0\0\0\0\0\x01\0\0\0\0\0\0\0\
            \x01(\0\0\0\0\0\0\0\0\0@\0\0\0\0\0\0\0\x08\0\0\0\0\0\0\0\0\x01\0\0\0\0\0\0\0\0\0\0\0\
            \x01(\x01\0\0\0\0\0\0\0\0H\0\0\0\0\0\0\0\x08\0\0\0\0\0\0\0\0\x01\0\0\0\0\0\0\0\0\0\0\0\
            \x01(\x01\0\0\0\0\0\0\0\0\x88\0\0\0\0\0\0\0\x08\0\0\0\0\0\0\0\0\x05\0\0\0\0\0\0\0\0\0\0\0\
            \x01(\x01\0\0\0\0\0\0\0\0\x80\0\0\0\0\0\0\0\xf0\0\0\0\0\0\0\0\0\x03\0\0\0\0\0\0\0\0\0\0\0",
    ),
    // with one domain
    (
        &[0],
        &[(0, 0x4000_0000, 0x800_0000, 1)],
        b"\x03\x12\0\0\0\0\0\0\0\0\x01\0\0\0\0\0\0\0\
            \x01(\0\0\0\0\0\0\0\0\0@\0\0\0\0\0\0\0\x08\0\0\0\0\0\0\0\0\x01\0\0\0\0\0\0\0\0\0\0\0",
    ),
];

#[test]
fn domains_of_virt(rt: HostRuntime) -> Result<(), Fail> {
    let alloc = rt.alloc();
    for (processors, memory, wanted) in VIRT_DOMAINS {
        let mut srat = SRAT::of_revision(alloc, 3, OEM, OEM_TABLE, OEM_REVISION);
        let mut number = 0u32;
        for domain in processors {
            srat.add_gicc_affinity(GiccAffinity::new(*domain, number).enabled())?;
            number = number.wrapping_add(1);
        }
        for row in memory {
            add_memory(&mut srat, *row)?;
        }
        writes(alloc, &srat, &table(alloc, b"SRAT", 3, &[FIXED, wanted])?)?;
    }
    Ok(())
}
