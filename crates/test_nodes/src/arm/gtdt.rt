//! GTDT, its timers, its blocks of timers and its watchdogs.

use acpi_base::error::{Error, R};
use acpi_tables::gtdt::{GTDT, GenericWatchdog, GtBlock, GtBlockTimer, Interrupt, Timer, Timers};
use std::alloc::Global;
use std::test::Fail;
use test_support::table::all_stand;
use test_support::{OEM, OEM_REVISION, OEM_TABLE, all, equal, refuses, writes};

// Flags that are set again stay as they are.
#[test]
fn block_timers_and_watchdogs(rt: HostRuntime) -> Result<(), Fail> {
    let timer = GtBlockTimer::new(7, 0x0807_0605_0403_0201);
    let interrupt = Interrupt::new(0x2423_2221);
    let both = interrupt.edge_triggered().active_low();
    let common = timer.secure().always_on();
    let watchdog = GenericWatchdog::new(0x0807_0605_0403_0201, 0x1817_1615_1413_1211, 0x2423_2221);
    let all_flags = watchdog.secure().active_low().edge_triggered();
    all(
        rt.alloc(),
        &[
            (
                &timer,
                b"\x07\0\0\0\x01\x02\x03\x04\x05\x06\x07\x08\xff\xff\xff\xff\xff\xff\xff\xff\
                    \0\0\0\0\0\0\0\0\0\0\0\0\0\0\0\0\0\0\0\0",
            ),
            (
                &timer.el0_base(0x1817_1615_1413_1211).secure(),
                b"\x07\0\0\0\x01\x02\x03\x04\x05\x06\x07\x08\x11\x12\x13\x14\x15\x16\x17\x18\
                    \0\0\0\0\0\0\0\0\0\0\0\0\0\0\0\0\x01\0\0\0",
            ),
            (
                &timer.physical(interrupt.edge_triggered()).always_on(),
                b"\x07\0\0\0\x01\x02\x03\x04\x05\x06\x07\x08\xff\xff\xff\xff\xff\xff\xff\xff\
                    \x21\x22\x23\x24\x01\0\0\0\0\0\0\0\0\0\0\0\x02\0\0\0",
            ),
            (
                &timer.virtual_timer(interrupt.active_low()),
                b"\x07\0\0\0\x01\x02\x03\x04\x05\x06\x07\x08\xff\xff\xff\xff\xff\xff\xff\xff\
                    \0\0\0\0\0\0\0\0\x21\x22\x23\x24\x02\0\0\0\0\0\0\0",
            ),
            (
                &common.physical(both).virtual_timer(interrupt),
                b"\x07\0\0\0\x01\x02\x03\x04\x05\x06\x07\x08\xff\xff\xff\xff\xff\xff\xff\xff\
                    \x21\x22\x23\x24\x03\0\0\0\x21\x22\x23\x24\0\0\0\0\x03\0\0\0",
            ),
            (
                &common
                    .physical(both.active_low().edge_triggered())
                    .virtual_timer(interrupt)
                    .always_on()
                    .secure(),
                b"\x07\0\0\0\x01\x02\x03\x04\x05\x06\x07\x08\xff\xff\xff\xff\xff\xff\xff\xff\
                    \x21\x22\x23\x24\x03\0\0\0\x21\x22\x23\x24\0\0\0\0\x03\0\0\0",
            ),
            (
                &watchdog,
                b"\x01\x1c\0\0\x01\x02\x03\x04\x05\x06\x07\x08\x11\x12\x13\x14\x15\x16\x17\x18\x21\x22\x23\x24\0\0\0\0",
            ),
            (
                &watchdog.edge_triggered(),
                b"\x01\x1c\0\0\x01\x02\x03\x04\x05\x06\x07\x08\x11\x12\x13\x14\x15\x16\x17\x18\x21\x22\x23\x24\x01\0\0\0",
            ),
            (
                &watchdog.active_low(),
                b"\x01\x1c\0\0\x01\x02\x03\x04\x05\x06\x07\x08\x11\x12\x13\x14\x15\x16\x17\x18\x21\x22\x23\x24\x02\0\0\0",
            ),
            (
                &watchdog.secure(),
                b"\x01\x1c\0\0\x01\x02\x03\x04\x05\x06\x07\x08\x11\x12\x13\x14\x15\x16\x17\x18\x21\x22\x23\x24\x04\0\0\0",
            ),
            (
                &all_flags,
                b"\x01\x1c\0\0\x01\x02\x03\x04\x05\x06\x07\x08\x11\x12\x13\x14\x15\x16\x17\x18\x21\x22\x23\x24\x07\0\0\0",
            ),
            (
                &all_flags.active_low().edge_triggered().secure(),
                b"\x01\x1c\0\0\x01\x02\x03\x04\x05\x06\x07\x08\x11\x12\x13\x14\x15\x16\x17\x18\x21\x22\x23\x24\x07\0\0\0",
            ),
        ],
    )
}

// The fields of a table after its header, for these timers.
#[test]
fn timers_of_processors(rt: HostRuntime) -> Result<(), Fail> {
    let alloc = rt.alloc();
    let full = Timer::new(0x4443_4241)
        .edge_triggered()
        .active_low()
        .always_on();
    let again = full.active_low().always_on().edge_triggered();
    let least = Timers::new(Timer::new(30), Timer::new(27));
    let most = Timers::new(
        Timer::new(0x0403_0201).edge_triggered(),
        Timer::new(0x1413_1211).active_low(),
    )
    .counter_control_base(0x2827_2625_2423_2221)
    .secure_el1(Timer::new(0x3433_3231).always_on())
    .el2(full)
    .counter_read_base(0x5857_5655_5453_5251)
    .virtual_el2(again);
    let rows: [(Timers, &[u8]); 2] = [
        (
            least,
            b"\xff\xff\xff\xff\xff\xff\xff\xff\0\0\0\0\0\0\0\0\0\0\0\0\x1e\0\0\0\0\0\0\0\x1b\0\0\0\0\0\0\0\
                \0\0\0\0\0\0\0\0\xff\xff\xff\xff\xff\xff\xff\xff\0\0\0\0\x68\0\0\0\0\0\0\0\0\0\0\0",
        ),
        (
            most,
            b"\x21\x22\x23\x24\x25\x26\x27\x28\0\0\0\0\x31\x32\x33\x34\x04\0\0\0\x01\x02\x03\x04\x01\0\0\0\
                \x11\x12\x13\x14\x02\0\0\0\x41\x42\x43\x44\x07\0\0\0\x51\x52\x53\x54\x55\x56\x57\x58\0\0\0\0\
                \x68\0\0\0\x41\x42\x43\x44\x07\0\0\0",
        ),
    ];
    for (timers, wanted) in &rows {
        has_timers(alloc, *timers, *wanted)?;
    }
    Ok(())
}

fn has_timers(alloc: Global, timers: Timers, wanted: &[u8]) -> Result<(), Fail> {
    let table = GTDT::new(alloc, OEM, OEM_TABLE, OEM_REVISION, timers);
    all_stand(alloc, &table, &[(0, b"GTDT\x68\0\0\0\x03"), (36, wanted)])
}

const BASE: u64 = 0x0807_0605_0403_0201;

#[test]
fn a_block_of_a_timer(rt: HostRuntime) -> Result<(), Fail> {
    let block = GtBlock::new(rt.alloc(), BASE, GtBlockTimer::new(0, 1))?;
    writes(
        rt.alloc(),
        &block,
        b"\0\x3c\0\0\x01\x02\x03\x04\x05\x06\x07\x08\x01\0\0\0\x14\0\0\0\
            \0\0\0\0\x01\0\0\0\0\0\0\0\xff\xff\xff\xff\xff\xff\xff\xff\0\0\0\0\0\0\0\0\0\0\0\0\0\0\0\0\0\0\0\0",
    )
}

// Adds seven timers.
fn fill(block: &mut GtBlock, timer: GtBlockTimer) -> R<()> {
    for _ in 1..8u8 {
        block.add_timer(timer)?;
    }
    Ok(())
}

// A block of eight timers, the most that it can have.
fn full_block(alloc: Global) -> R<GtBlock> {
    let timer = GtBlockTimer::new(0, 1);
    let mut block = GtBlock::new(alloc, BASE, timer)?;
    fill(&mut block, timer)?;
    Ok(block)
}

fn is_full(block: &mut GtBlock) -> Result<(), Fail> {
    refuses(block.add_timer(GtBlockTimer::new(0, 1)), Error::FieldWidth)?;
    equal(&block.timer_count(), &8)
}

#[test]
fn a_ninth_timer(rt: HostRuntime) -> Result<(), Fail> {
    is_full(&mut full_block(rt.alloc())?)
}

// Fails unless a table takes a watchdog and such a block.
fn takes_both(alloc: Global, table: &mut GTDT) -> Result<(), Fail> {
    table.add_generic_watchdog(GenericWatchdog::new(0, 0, 0))?;
    table.add_gt_block(full_block(alloc)?)?;
    equal(&(table.len(), table.count()), &(472, 2))?;
    all_stand(
        alloc,
        table,
        &[
            (88, b"\x02\0\0\0\x68\0\0\0"),
            (
                132,
                b"\0\x54\x01\0\x01\x02\x03\x04\x05\x06\x07\x08\x08\0\0\0\x14\0\0\0\0\0\0\0\x01",
            ),
        ],
    )
}

#[test]
fn platform_timers(rt: HostRuntime) -> Result<(), Fail> {
    let timers = Timers::new(Timer::new(30), Timer::new(27));
    let mut table = GTDT::new(rt.alloc(), OEM, OEM_TABLE, OEM_REVISION, timers);
    takes_both(rt.alloc(), &mut table)
}
