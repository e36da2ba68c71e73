//! GTDT: the timers of an Arm machine.

ghost use Rattle.std.specs.Prelude.{◌≡◌, ◌≢◌, ◌<◌, false, true, bit_or, length, OnOk, OnErr, IfOk, IfErr};
ghost use Rattle.acpi_base.specs.Fields.{AreRowsOf, fields_joined};
ghost use Rattle.acpi_base.specs.Object.{whole, whole_ends_well};
ghost use Rattle.acpi_base.specs.FurtherWalk.{gtdt_walk};
ghost use Rattle.acpi_base.specs.declared.oem.Oem.{Oem};
ghost use Rattle.acpi_core.specs.Addition.{Adds};
ghost use Rattle.acpi_core.specs.Calls.{IsAfterItsCalls};
ghost use Rattle.acpi_core.specs.Listing.{bytes_of, length_limit};
ghost use Rattle.acpi_core.specs.Walk.{IsWalked, Keeps};
ghost use Rattle.acpi_arm.specs.Lists.{TimersAreRead};
ghost use Rattle.acpi_arm.specs.declared.gtdt.GtBlock.{GtBlock};
ghost use Rattle.acpi_arm.specs.declared.gtdt.Timers.{Timers};
ghost use Rattle.acpi_arm.specs.Gtdt.{earlier_gtdt, earlier_gtdt_bytes, EarlierGtdtsAreTrue};
ghost use Rattle.acpi_arm.specs.Gtdt.{gtdt, timer, timers, timers_fields, last_fields, interrupt};
ghost use Rattle.acpi_arm.specs.Gtdt.{gt_block_timer, gt_block_timer_fields, gt_block_timer_bytes};
ghost use Rattle.acpi_arm.specs.Gtdt.{gt_block, with_timer, gt_block_head_fields, gt_block_head, gt_block_bytes};
ghost use Rattle.acpi_arm.specs.Gtdt.{generic_watchdog, generic_watchdog_fields, generic_watchdog_bytes};

use acpi_base::error::{Error, R};
use acpi_base::object::Aml;
use acpi_base::oem::Oem;
use acpi_base::parts::write_parts;
use acpi_base::row::{Bits, Record, Row, Word, record_of_numbers, write_record};
use acpi_base::sink::AmlSink;
use acpi_core::entries::Entries;
use acpi_core::form::Form;
use acpi_core::kind::Kind;
use acpi_core::table::Table;
use acpi_core::walked::{Walked, is_walked};
use acpi_fixed::sealed::write_padded;
use std::alloc::Global;

/// The Generic Timer Description Table (ACPI 6.5, 5.2.25), revision 3: the timers of each processor, and platform timers. Their
/// number is at offset 88, and they begin at offset 104, which the field at offset 92 contains.
#[derive(Drop)]
pub struct GTDT {
    table: Walked<GtdtKind, 104>,
}

/// The kind of GTDT.
pub struct GtdtKind;

impl Kind for GtdtKind {
    ghost walk = { gtdt_walk };

    ghost ported = { false };

    ghost limit = { length_limit };

    ghost closed = { true };
}

impl Aml for GTDT {
    ghost object = { λ t. whole (bytes_of t.table.table) };

    ghost ends_well = { λ t. whole_ends_well (bytes_of t.table.table) };

    fn to_aml_bytes(&self, sink: &mut dyn AmlSink) -> R<()> {
        self.table.to_aml_bytes(sink)
    }
}

impl GTDT {
    /// A table of these timers, without platform timers.
    pub fn new(
        alloc: Global,
        oem_id: [u8; 6],
        oem_table_id: [u8; 8],
        oem_revision: u32,
        timers: Timers,
    ) -> GTDT
        ensures { result.table.table ≡
            gtdt (record { id = oem_id; table_id = oem_table_id; revision = oem_revision }) timers }
    {
        let oem = Oem::new(oem_id, oem_table_id, oem_revision);
        let form = Form::new(*b"GTDT", 3, oem, 4);
        GTDT {
            table: Walked::of(Table::new(alloc, form, &timers.first(), &timers.last())),
        }
    }

    /// Adds a block of timers. The error is `FieldWidth` if the table's length would reach 2^32.
    pub fn add_gt_block(&mut self, block: GtBlock) -> R<()>
        ensures { Adds result self.old.table (whole (gt_block_bytes block)) self.new.table }
    {
        self.table.add_object(&block)
    }

    /// Adds a watchdog. The error is `FieldWidth` if the table's length would reach 2^32.
    pub fn add_generic_watchdog(&mut self, watchdog: GenericWatchdog) -> R<()>
        ensures { Adds result self.old.table (whole (generic_watchdog_bytes watchdog)) self.new.table }
    {
        self.table.add_record(&watchdog)
    }

    /// The number of bytes of the table.
    pub fn len(&self) -> usize
        ensures { result ≡ length (bytes_of self.now.table.table) }
    {
        self.table.len()
    }

    /// The number of platform timers.
    pub fn count(&self) -> u32
        ensures { result ≡ length self.now.table.table.structures }
    {
        self.table.count()
    }
}

/// A law: after any calls the table is correct. Its platform timers, in order, are the one list that the walk finds.
pub fn gtdt_is_walked(table: &GTDT)
    ensures keeps { Keeps false gtdt_walk length_limit true table.now.table.table }
    ensures walked { IsWalked false gtdt_walk table.now.table.table }
    ensures calls { (oem : Oem) (timers : Timers) → IsAfterItsCalls false gtdt_walk (gtdt oem timers) table.now.table }
{
    is_walked(&table.table)
}

/// The Generic Timer Description Table of revision 2 (ACPI 5.1 to 6.2), without platform timers: 96 bytes. Their number and the
/// offset of the first (offsets 88 and 92) are 0.
#[derive(Drop)]
pub struct EarlierGTDT {
    oem: Oem,
    timers: Timers,
}

impl EarlierGTDT {
    /// A table of these timers but the virtual timer of EL2, which revision 2 doesn't have.
    pub fn new(
        oem_id: [u8; 6],
        oem_table_id: [u8; 8],
        oem_revision: u32,
        timers: Timers,
    ) -> EarlierGTDT
        ensures { result ≡ earlier_gtdt (record { id = oem_id; table_id = oem_table_id; revision = oem_revision }) timers }
    {
        EarlierGTDT {
            oem: Oem::new(oem_id, oem_table_id, oem_revision),
            timers,
        }
    }
}

impl Aml for EarlierGTDT {
    ghost object = { λ t. whole (earlier_gtdt_bytes t) };

    ghost ends_well = { λ t. whole_ends_well (earlier_gtdt_bytes t) };

    fn to_aml_bytes(&self, sink: &mut dyn AmlSink) -> R<()> {
        write_padded::<96>(*b"GTDT", 2, self.oem, &self.timers.first(), sink)
    }
}

/// A law: a table of revision 2 of this maker contains its length, sums to zero, and has no platform timers, for all timers.
pub fn earlier_gtdts_are_true(oem: Oem)
    ensures { EarlierGtdtsAreTrue oem }
{}

/// A law: the bytes of a block of timers contain their number and their offset, and have them there.
pub fn gtdt_timers_are_read()
    ensures { TimersAreRead }
{}

// Flags of a timer and of a watchdog (ACPI 6.5, tables 5.118, 5.122 and 5.125).
const EDGE_TRIGGERED: u32 = 1;

const ACTIVE_LOW: u32 = 1 << 1;

const ALWAYS_ON: u32 = 1 << 2;

const WATCHDOG_SECURE: u32 = 1 << 2;

// Common flags of a timer in a block (ACPI 6.5, table 5.123).
const SECURE: u32 = 1;

const COMMON_ALWAYS_ON: u32 = 1 << 1;

/// The address of a block of registers that a machine doesn't have.
const NO_ADDRESS: u64 = u64::MAX;

/// A timer's interrupt and its flags (ACPI 6.5, table 5.118).
#[derive(Clone, Copy, Debug)]
pub struct Timer {
    gsiv: u32,
    flags: u32,
}

impl Timer {
    /// The timer with this global system interrupt vector. Without flags the interrupt is level triggered and active high.
    pub fn new(gsiv: u32) -> Timer
        ensures { result ≡ timer gsiv }
    {
        Timer { gsiv, flags: 0 }
    }

    /// Sets flag 1: the interrupt is edge triggered.
    pub fn edge_triggered(mut self) -> Timer
        ensures { result ≡ record self { flags = bit_or self.flags 1 } }
    {
        self.flags |= EDGE_TRIGGERED;
        self
    }

    /// Sets flag 2: the interrupt is active low.
    pub fn active_low(mut self) -> Timer
        ensures { result ≡ record self { flags = bit_or self.flags 2 } }
    {
        self.flags |= ACTIVE_LOW;
        self
    }

    /// Sets flag 4: the timer keeps its context and can raise its interrupt in all low power states of the processor.
    pub fn always_on(mut self) -> Timer
        ensures { result ≡ record self { flags = bit_or self.flags 4 } }
    {
        self.flags |= ALWAYS_ON;
        self
    }
}

/// The timers that each processor has, and the registers of the system counter (ACPI 6.5, table 5.117).
#[derive(Clone, Copy, Debug)]
pub struct Timers {
    counter_control_base: u64,
    secure_el1: Timer,
    non_secure_el1: Timer,
    virtual_el1: Timer,
    el2: Timer,
    counter_read_base: u64,
    virtual_el2: Timer,
}

impl Timers {
    /// The non-secure timer of EL1 (its interrupt at offset 56, its flags at 60) and the virtual timer of EL1 (64 and 68). The
    /// other timers are zeros, and the addresses of the counter's registers are 2^64 - 1: a machine doesn't have them.
    pub fn new(non_secure_el1: Timer, virtual_el1: Timer) -> Timers
        ensures { result ≡ timers non_secure_el1 virtual_el1 }
    {
        Timers {
            counter_control_base: NO_ADDRESS,
            secure_el1: Timer::new(0),
            non_secure_el1,
            virtual_el1,
            el2: Timer::new(0),
            counter_read_base: NO_ADDRESS,
            virtual_el2: Timer::new(0),
        }
    }

    /// Sets the physical address of the counter's control registers, CntControlBase (offset 36).
    pub fn counter_control_base(mut self, address: u64) -> Timers
        ensures { result ≡ record self { counter_control_base = address } }
    {
        self.counter_control_base = address;
        self
    }

    /// Sets the secure timer of EL1 (its interrupt at offset 48, its flags at 52).
    pub fn secure_el1(mut self, timer: Timer) -> Timers
        ensures { result ≡ record self { secure_el1 = timer } }
    {
        self.secure_el1 = timer;
        self
    }

    /// Sets the physical timer of EL2 (its interrupt at offset 72, its flags at 76).
    pub fn el2(mut self, timer: Timer) -> Timers
        ensures { result ≡ record self { el2 = timer } }
    {
        self.el2 = timer;
        self
    }

    /// Sets the physical address of the counter's registers for reading, CntReadBase (offset 80).
    pub fn counter_read_base(mut self, address: u64) -> Timers
        ensures { result ≡ record self { counter_read_base = address } }
    {
        self.counter_read_base = address;
        self
    }

    /// Sets the virtual timer of EL2 (its interrupt at offset 96, its flags at 100).
    pub fn virtual_el2(mut self, timer: Timer) -> Timers
        ensures { result ≡ record self { virtual_el2 = timer } }
    {
        self.virtual_el2 = timer;
        self
    }

    // The fields between the header and the number of platform timers.
    fn first(&self) -> [u8; 52]
        ensures { result ≡ fields_joined (timers_fields self.now) }
    {
        record_of_numbers(
            &GTDT_FIXED,
            &[
                self.counter_control_base,
                0,
                u64::from(self.secure_el1.gsiv),
                u64::from(self.secure_el1.flags),
                u64::from(self.non_secure_el1.gsiv),
                u64::from(self.non_secure_el1.flags),
                u64::from(self.virtual_el1.gsiv),
                u64::from(self.virtual_el1.flags),
                u64::from(self.el2.gsiv),
                u64::from(self.el2.flags),
                self.counter_read_base,
            ],
        )
    }

    // The fields after that number.
    fn last(&self) -> [u8; 12]
        ensures { result ≡ fields_joined (last_fields self.now) }
    {
        record_of_numbers(
            &GTDT_LAST,
            &[
                104,
                u64::from(self.virtual_el2.gsiv),
                u64::from(self.virtual_el2.flags),
            ],
        )
    }
}

const TIMER_FLAGS: [Bits; 3] = [
    Bits::OneOf(
        0x1,
        &[Word(0x0, "Level Triggered"), Word(0x1, "Edge Triggered")],
    ),
    Bits::OneOf(0x2, &[Word(0x0, "Active High"), Word(0x2, "Active Low")]),
    Bits::Flag(0x4, "Always-on"),
];

/// The rows of a GTDT between its header and the number of its platform timers.
pub const GTDT_FIXED: [Row; 11] = [
    Row::Hex("CntControlBase Physical Address", 8),
    Row::Reserved(4),
    Row::Number("Secure EL1 Timer GSIV", 4),
    Row::Flags("Secure EL1 Timer Flags", 4, &TIMER_FLAGS),
    Row::Number("Non-Secure EL1 Timer GSIV", 4),
    Row::Flags("Non-Secure EL1 Timer Flags", 4, &TIMER_FLAGS),
    Row::Number("Virtual EL1 Timer GSIV", 4),
    Row::Flags("Virtual EL1 Timer Flags", 4, &TIMER_FLAGS),
    Row::Number("EL2 Timer GSIV", 4),
    Row::Flags("EL2 Timer Flags", 4, &TIMER_FLAGS),
    Row::Hex("CntReadBase Physical Address", 8),
];

/// The rows of a GTDT after the number of its platform timers.
pub const GTDT_LAST: [Row; 3] = [
    Row::Preset("Platform Timer Offset", 4, 104),
    Row::Number("Virtual EL2 Timer GSIV", 4),
    Row::Flags("Virtual EL2 Timer Flags", 4, &TIMER_FLAGS),
];

/// The rows of the fields between the header and the number of platform timers, in order.
pub fn gtdt_rows() -> &'static [Row]
    ensures { (t : Timers) → AreRowsOf result.now (timers_fields t) }
{
    &GTDT_FIXED
}

/// The rows of the fields after that number, in order.
pub fn gtdt_last_rows() -> &'static [Row]
    ensures { (t : Timers) → AreRowsOf result.now (last_fields t) }
{
    &GTDT_LAST
}

/// The interrupt of a timer in a block, and its flags (ACPI 6.5, table 5.122).
#[derive(Clone, Copy, Debug)]
pub struct Interrupt {
    gsiv: u32,
    flags: u32,
}

impl Interrupt {
    /// The interrupt with this global system interrupt vector. Without flags it is level triggered and active high.
    pub fn new(gsiv: u32) -> Interrupt
        ensures { result ≡ interrupt gsiv }
    {
        Interrupt { gsiv, flags: 0 }
    }

    /// Sets flag 1: the interrupt is edge triggered.
    pub fn edge_triggered(mut self) -> Interrupt
        ensures { result ≡ record self { flags = bit_or self.flags 1 } }
    {
        self.flags |= EDGE_TRIGGERED;
        self
    }

    /// Sets flag 2: the interrupt is active low.
    pub fn active_low(mut self) -> Interrupt
        ensures { result ≡ record self { flags = bit_or self.flags 2 } }
    {
        self.flags |= ACTIVE_LOW;
        self
    }
}

/// A timer of a block: 40 bytes (ACPI 6.5, table 5.121).
#[derive(Clone, Copy, Debug)]
pub struct GtBlockTimer {
    frame: u8,
    base: u64,
    el0_base: u64,
    physical: Interrupt,
    virtual_timer: Interrupt,
    common_flags: u32,
}

impl GtBlockTimer {
    /// The timer of a frame (offset 0) whose registers, CntBaseX, begin at a physical address (offset 4). Its second view,
    /// CntEL0BaseX, is at 2^64 - 1: the timer doesn't have it. Its interrupts and flags are zeros. The caller proves that `frame`
    /// is below 8.
    pub fn new(frame: u8, base: u64) -> GtBlockTimer
        requires frame { frame < 8 }
        ensures { result ≡ gt_block_timer frame base }
    {
        GtBlockTimer {
            frame,
            base,
            el0_base: NO_ADDRESS,
            physical: Interrupt::new(0),
            virtual_timer: Interrupt::new(0),
            common_flags: 0,
        }
    }

    /// Sets the physical address of the timer's second view, CntEL0BaseX (offset 12).
    pub fn el0_base(mut self, address: u64) -> GtBlockTimer
        ensures { result ≡ record self { el0_base = address } }
    {
        self.el0_base = address;
        self
    }

    /// Sets the interrupt of the physical timer (offset 20) and its flags (offset 24).
    pub fn physical(mut self, interrupt: Interrupt) -> GtBlockTimer
        ensures { result ≡ record self { physical = interrupt } }
    {
        self.physical = interrupt;
        self
    }

    /// Sets the interrupt of the virtual timer (offset 28) and its flags (offset 32).
    pub fn virtual_timer(mut self, interrupt: Interrupt) -> GtBlockTimer
        ensures { result ≡ record self { virtual_timer = interrupt } }
    {
        self.virtual_timer = interrupt;
        self
    }

    /// Sets common flag 1 (offset 36): the timer is secure.
    pub fn secure(mut self) -> GtBlockTimer
        ensures { result ≡ record self { common_flags = bit_or self.common_flags 1 } }
    {
        self.common_flags |= SECURE;
        self
    }

    /// Sets common flag 2 (offset 36): the timer keeps its context in all low power states.
    pub fn always_on(mut self) -> GtBlockTimer
        ensures { result ≡ record self { common_flags = bit_or self.common_flags 2 } }
    {
        self.common_flags |= COMMON_ALWAYS_ON;
        self
    }
}

const BLOCK_TIMER_FLAGS: [Bits; 2] = [
    Bits::OneOf(
        0x1,
        &[Word(0x0, "Level Triggered"), Word(0x1, "Edge Triggered")],
    ),
    Bits::OneOf(0x2, &[Word(0x0, "Active High"), Word(0x2, "Active Low")]),
];

/// The rows of a GT Block Timer Structure.
pub const GT_BLOCK_TIMER: [Row; 9] = [
    Row::Number("GT Frame Number", 1),
    Row::Reserved(3),
    Row::Hex("GTx Physical Address (CntBaseX)", 8),
    Row::Hex("GTx Physical Address (CntEL0BaseX)", 8),
    Row::Number("GTx Physical Timer GSIV", 4),
    Row::Flags("GTx Physical Timer Flags", 4, &BLOCK_TIMER_FLAGS),
    Row::Number("GTx Virtual Timer GSIV", 4),
    Row::Flags("GTx Virtual Timer Flags", 4, &BLOCK_TIMER_FLAGS),
    Row::Flags(
        "GTx Common Flags",
        4,
        &[Bits::Flag(0x1, "Secure"), Bits::Flag(0x2, "Always-on")],
    ),
];

impl Record<40> for GtBlockTimer {
    ghost fields = { gt_block_timer_fields };

    fn rows() -> &'static [Row] {
        &GT_BLOCK_TIMER
    }

    fn bytes(&self) -> [u8; 40] {
        record_of_numbers(
            &GT_BLOCK_TIMER,
            &[
                u64::from(self.frame),
                0,
                self.base,
                self.el0_base,
                u64::from(self.physical.gsiv),
                u64::from(self.physical.flags),
                u64::from(self.virtual_timer.gsiv),
                u64::from(self.virtual_timer.flags),
                u64::from(self.common_flags),
            ],
        )
    }
}

impl Aml for GtBlockTimer {
    ghost object = { λ t. whole (gt_block_timer_bytes t) };

    ghost ends_well = { λ t. whole_ends_well (gt_block_timer_bytes t) };

    fn to_aml_bytes(&self, sink: &mut dyn AmlSink) -> R<()> {
        write_record(self, sink)
    }
}

/// A block of one to eight memory-mapped timers (ACPI 6.5, 5.2.25.1): 20 bytes, and 40 for each timer.
#[derive(Drop)]
pub struct GtBlock {
    address: u64,
    timers: Entries<40, 8>,
}

impl GtBlock {
    /// The block whose control registers, CntCtlBase, begin at a physical address (offset 4), with its first timer. The number
    /// of timers is at offset 12. The only error is `Memory`.
    pub fn new(alloc: Global, address: u64, timer: GtBlockTimer) -> R<GtBlock>
        ensures ok { IfOk result (λ b. b ≡ gt_block address timer) }
        ensures err { IfErr result (λ e. e ≡ Error.Memory) }
    {
        let mut timers = Entries::new(alloc);
        timers.push(timer.bytes())?;
        Ok(GtBlock { address, timers })
    }

    /// The number of timers: at most 8.
    pub fn timer_count(&self) -> usize
        ensures { result ≡ self.now.timers.count }
    {
        self.timers.len()
    }

    /// Adds a timer. The error is `FieldWidth` at the ninth timer. After an error the block is unchanged.
    pub fn add_timer(&mut self, timer: GtBlockTimer) -> R<()>
        ensures ok { OnOk result (self.new ≡ with_timer self.old timer) }
        ensures room { OnOk result (self.old.timers.count < 8) }
        ensures err { OnErr result (self.new ≡ self.old) }
        ensures cause { IfErr result (λ e. e ≢ Error.Memory → (e ≡ Error.FieldWidth) × (self.old.timers.count ≡ 8)) }
    {
        self.timers.push(timer.bytes())
    }

    // The bytes of the block before its timers.
    fn head(&self) -> [u8; 20]
        ensures { result ≡ gt_block_head self.now }
    {
        record_of_numbers(
            &GT_BLOCK,
            &[
                0,
                20 + self.timers.as_slice().len() as u64,
                0,
                self.address,
                self.timers.len() as u64,
                20,
            ],
        )
    }
}

/// The rows of a GT Block Structure before its timers.
pub const GT_BLOCK: [Row; 6] = [
    Row::Preset("Type", 1, 0),
    Row::Number("Length", 2),
    Row::Reserved(1),
    Row::Hex("GT Block Physical Address (CntCtlBase)", 8),
    Row::Number("GT Block Timer Count", 4),
    Row::Preset("GT Block Timer Offset", 4, 20),
];

/// The rows of the fields before a block's timers, in order.
pub fn gt_block_rows() -> &'static [Row]
    ensures { (b : GtBlock) → AreRowsOf result.now (gt_block_head_fields b) }
{
    &GT_BLOCK
}

impl Aml for GtBlock {
    ghost object = { λ b. whole (gt_block_bytes b) };

    ghost ends_well = { λ b. whole_ends_well (gt_block_bytes b) };

    fn to_aml_bytes(&self, sink: &mut dyn AmlSink) -> R<()> {
        write_parts(sink, &[&self.head(), self.timers.as_slice()])
    }
}

/// A watchdog of Arm's server architecture: 28 bytes (ACPI 6.5, 5.2.25.2).
#[derive(Clone, Copy, Debug)]
pub struct GenericWatchdog {
    refresh_frame: u64,
    control_frame: u64,
    gsiv: u32,
    flags: u32,
}

impl GenericWatchdog {
    /// The watchdog with the physical addresses of its refresh frame (offset 4) and its control frame (offset 12), and the global
    /// system interrupt vector of its first signal (offset 20). Without flags the interrupt is level triggered and active high.
    pub fn new(refresh_frame: u64, control_frame: u64, gsiv: u32) -> GenericWatchdog
        ensures { result ≡ generic_watchdog refresh_frame control_frame gsiv }
    {
        GenericWatchdog {
            refresh_frame,
            control_frame,
            gsiv,
            flags: 0,
        }
    }

    /// Sets flag 1 (offset 24): the interrupt is edge triggered.
    pub fn edge_triggered(mut self) -> GenericWatchdog
        ensures { result ≡ record self { flags = bit_or self.flags 1 } }
    {
        self.flags |= EDGE_TRIGGERED;
        self
    }

    /// Sets flag 2 (offset 24): the interrupt is active low.
    pub fn active_low(mut self) -> GenericWatchdog
        ensures { result ≡ record self { flags = bit_or self.flags 2 } }
    {
        self.flags |= ACTIVE_LOW;
        self
    }

    /// Sets flag 4 (offset 24): the watchdog is secure.
    pub fn secure(mut self) -> GenericWatchdog
        ensures { result ≡ record self { flags = bit_or self.flags 4 } }
    {
        self.flags |= WATCHDOG_SECURE;
        self
    }
}

/// The rows of an Arm Generic Watchdog Structure.
pub const GENERIC_WATCHDOG: [Row; 7] = [
    Row::Preset("Type", 1, 1),
    Row::Preset("Length", 2, 28),
    Row::Reserved(1),
    Row::Hex("RefreshFrame Physical Address", 8),
    Row::Hex("WatchdogControlFrame Physical Address", 8),
    Row::Number("Watchdog Timer GSIV", 4),
    Row::Flags(
        "Watchdog Timer Flags",
        4,
        &[
            Bits::OneOf(
                0x1,
                &[Word(0x0, "Level Triggered"), Word(0x1, "Edge Triggered")],
            ),
            Bits::OneOf(0x2, &[Word(0x0, "Active High"), Word(0x2, "Active Low")]),
            Bits::Flag(0x4, "Secure"),
        ],
    ),
];

impl Record<28> for GenericWatchdog {
    ghost fields = { generic_watchdog_fields };

    fn rows() -> &'static [Row] {
        &GENERIC_WATCHDOG
    }

    fn bytes(&self) -> [u8; 28] {
        record_of_numbers(
            &GENERIC_WATCHDOG,
            &[
                1,
                28,
                0,
                self.refresh_frame,
                self.control_frame,
                u64::from(self.gsiv),
                u64::from(self.flags),
            ],
        )
    }
}

impl Aml for GenericWatchdog {
    ghost object = { λ w. whole (generic_watchdog_bytes w) };

    ghost ends_well = { λ w. whole_ends_well (generic_watchdog_bytes w) };

    fn to_aml_bytes(&self, sink: &mut dyn AmlSink) -> R<()> {
        write_record(self, sink)
    }
}
