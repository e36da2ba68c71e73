//! PCCT and its subspaces.

use crate::tables::is;
use acpi_base::error::R;
use acpi_tables::gas::{AccessSize, AddressSpace, GAS};
use acpi_tables::pcct::{
    AcknowledgedSubspace, Channel, Doorbell, ExtendedChannel, ExtendedSubspace, GenericSubspace,
    Interrupt, Masked, PCCT, PLATFORM_INTERRUPT, ReducedSubspace, RegisterChannel,
    RegistersSubspace, Role,
};
use std::alloc::Global;
use std::test::Fail;
use test_support::table::joined;
use test_support::{OEM, OEM_REVISION, OEM_TABLE, equal};

const BASE: u64 = 0x1817_1615_1413_1211;

// A register of 32 bits in memory.
fn register(address: u64) -> GAS {
    GAS::new(
        AddressSpace::SystemMemory,
        32,
        0,
        AccessSize::DwordAccess,
        address,
    )
}

fn doorbell(address: u64) -> Doorbell {
    Doorbell {
        register: register(address),
        preserve: 0x2827_2625_2423_2221,
        write: 0x3837_3635_3433_3231,
    }
}

fn masked(address: u64) -> Masked {
    Masked {
        register: register(address),
        mask: 0x4847_4645_4443_4241,
    }
}

fn channel() -> Channel {
    Channel {
        base: BASE,
        size: 0x5857_5655_5453_5251,
        doorbell: doorbell(1),
        latency: 0x0403_0201,
        access_rate: 0x0807_0605,
        turnaround: 0x0a09,
    }
}

fn extended_channel() -> ExtendedChannel {
    ExtendedChannel {
        base: BASE,
        size: 0x5453_5251,
        doorbell: doorbell(1),
        latency: 0x0403_0201,
        access_rate: 0x0807_0605,
        turnaround: 0x0c0b_0a09,
        acknowledge: doorbell(2),
        complete: masked(3),
        update: doorbell(4),
        error: masked(5),
    }
}

fn register_channel() -> RegisterChannel {
    RegisterChannel {
        version: 0x0e0d,
        base: BASE,
        size: 0x5857_5655_5453_5251,
        doorbell: doorbell(1),
        complete: masked(3),
        error: masked(5),
        latency: 0x0403_0201,
        turnaround: 0x0c0b_0a09,
    }
}

fn add_each(pcct: &mut PCCT) -> R<()> {
    let interrupt = Interrupt::new(0x6463_6261);
    let channel = channel();
    pcct.add_generic(GenericSubspace::new(channel))?;
    pcct.add_reduced(ReducedSubspace::new(interrupt.active_low(), channel))?;
    let edge = interrupt.edge_triggered();
    pcct.add_acknowledged(AcknowledgedSubspace::new(edge, channel, doorbell(2)))?;
    pcct.add_extended(ExtendedSubspace::new(Role::Initiator, interrupt, extended_channel()))?;
    let both = edge.active_low().edge_triggered();
    pcct.add_extended(ExtendedSubspace::new(Role::Responder, both, extended_channel()))?;
    pcct.add_registers(RegistersSubspace::new(register_channel()))
}

const MEMORY: &[u8] = b"\x11\x12\x13\x14\x15\x16\x17\x18\x51\x52\x53\x54\x55\x56\x57\x58";

// The bits of a doorbell that are kept, and those that are set.
const BITS: &[u8] = b"\x21\x22\x23\x24\x25\x26\x27\x28\x31\x32\x33\x34\x35\x36\x37\x38";

const MASK: &[u8] = b"\x41\x42\x43\x44\x45\x46\x47\x48";

// The registers at 1 to 5.
const DOORBELL: &[u8] = b"\0\x20\0\x03\x01\0\0\0\0\0\0\0";

const ACKNOWLEDGE: &[u8] = b"\0\x20\0\x03\x02\0\0\0\0\0\0\0";

const CHECK: &[u8] = b"\0\x20\0\x03\x03\0\0\0\0\0\0\0";

const UPDATE: &[u8] = b"\0\x20\0\x03\x04\0\0\0\0\0\0\0";

const ERROR: &[u8] = b"\0\x20\0\x03\x05\0\0\0\0\0\0\0";

const TIMES: &[u8] = b"\x01\x02\x03\x04\x05\x06\x07\x08\x09\x0a";

// The fields of an extended channel from its memory on.
const EXTENDED: [&[u8]; 14] = [
    b"\x11\x12\x13\x14\x15\x16\x17\x18\x51\x52\x53\x54",
    DOORBELL,
    BITS,
    TIMES,
    b"\x0b\x0c",
    ACKNOWLEDGE,
    BITS,
    &[0; 8],
    CHECK,
    MASK,
    UPDATE,
    BITS,
    ERROR,
    MASK,
];

// The bytes after the header, for a subspace of each type and of each role.
fn body(alloc: Global) -> R<Vec<u8>> {
    let channel = joined(alloc, &[MEMORY, DOORBELL, BITS, TIMES])?;
    let extended = joined(alloc, &EXTENDED)?;
    let parts: [&[u8]; 23] = [
        b"\x01\0\0\0\0\0\0\0\0\0\0\0",
        b"\0\x3e\0\0\0\0\0\0",
        &channel,
        b"\x01\x3e\x61\x62\x63\x64\x01\0",
        &channel,
        b"\x02\x5a\x61\x62\x63\x64\x02\0",
        &channel,
        ACKNOWLEDGE,
        BITS,
        b"\x03\xa4\x61\x62\x63\x64\0\0",
        &extended,
        b"\x04\xa4\x61\x62\x63\x64\x03\0",
        &extended,
        b"\x05\x60\x0d\x0e",
        MEMORY,
        DOORBELL,
        BITS,
        CHECK,
        MASK,
        ERROR,
        MASK,
        b"\x01\x02\x03\x04",
        b"\x09\x0a\x0b\x0c",
    ];
    joined(alloc, &parts)
}

fn takes_each(alloc: Global, pcct: &mut PCCT) -> Result<(), Fail> {
    add_each(pcct)?;
    equal(&(pcct.len(), pcct.count()), &(686, 6))?;
    is(alloc, pcct, b"PCCT", 2, &[&body(alloc)?])
}

#[test]
fn pcct(rt: HostRuntime) -> Result<(), Fail> {
    let mut pcct = PCCT::new(rt.alloc(), OEM, OEM_TABLE, OEM_REVISION, PLATFORM_INTERRUPT);
    takes_each(rt.alloc(), &mut pcct)
}
