//! ERST and its entries.

use crate::tables::is;
use acpi_base::error::R;
use acpi_tables::erst::{Action, ERST, Instruction, SerializationEntry};
use acpi_tables::gas::{AccessSize, AddressSpace, GAS};
use std::alloc::Global;
use std::test::Fail;
use test_support::{OEM, OEM_REVISION, OEM_TABLE, equal, writes};

fn step(action: Action, instruction: Instruction) -> SerializationEntry {
    let register = GAS::new(
        AddressSpace::SystemIo,
        8,
        3,
        AccessSize::WordAccess,
        0x0807_0605_0403_0201,
    );
    let (value, mask) = (0x1817_1615_1413_1211, 0x2827_2625_2423_2221);
    SerializationEntry::new(action, instruction, register, value, mask)
}

// Fails unless an entry has these first three bytes, and the values of `step` after them.
fn begins(alloc: Global, entry: SerializationEntry, first: [u8; 3]) -> Result<(), Fail> {
    let mut wanted = *b"\0\0\0\0\x01\x08\x03\x02\x01\x02\x03\x04\x05\x06\x07\x08\
        \x11\x12\x13\x14\x15\x16\x17\x18\x21\x22\x23\x24\x25\x26\x27\x28";
    wanted[..3].copy_from_slice(&first);
    writes(alloc, &entry, &wanted)
}

#[test]
fn actions(rt: HostRuntime) -> Result<(), Fail> {
    for (action, number) in [
        (Action::BeginWrite, 0),
        (Action::BeginRead, 1),
        (Action::BeginClear, 2),
        (Action::End, 3),
        (Action::SetRecordOffset, 4),
        (Action::Execute, 5),
        (Action::CheckBusyStatus, 6),
        (Action::GetCommandStatus, 7),
        (Action::GetRecordIdentifier, 8),
        (Action::SetRecordIdentifier, 9),
        (Action::GetRecordCount, 10),
        (Action::BeginDummyWrite, 11),
        (Action::GetErrorLogAddressRange, 13),
        (Action::GetErrorLogAddressRangeLength, 14),
        (Action::GetErrorLogAddressRangeAttributes, 15),
        (Action::GetExecuteTimings, 16),
    ] {
        begins(rt.alloc(), step(action, Instruction::Noop), [number, 4, 0])?;
    }
    Ok(())
}

#[test]
fn instructions(rt: HostRuntime) -> Result<(), Fail> {
    for (instruction, number) in [
        (Instruction::ReadRegister, 0),
        (Instruction::ReadRegisterValue, 1),
        (Instruction::WriteRegister, 2),
        (Instruction::WriteRegisterValue, 3),
        (Instruction::Noop, 4),
        (Instruction::LoadVar1, 5),
        (Instruction::LoadVar2, 6),
        (Instruction::StoreVar1, 7),
        (Instruction::Add, 8),
        (Instruction::Subtract, 9),
        (Instruction::AddValue, 10),
        (Instruction::SubtractValue, 11),
        (Instruction::Stall, 12),
        (Instruction::StallWhileTrue, 13),
        (Instruction::SkipNextInstructionIfTrue, 14),
        (Instruction::Goto, 15),
        (Instruction::SetSourceAddressBase, 16),
        (Instruction::SetDestinationAddressBase, 17),
        (Instruction::MoveData, 18),
    ] {
        let entry = step(Action::End, instruction).preserve_register();
        begins(rt.alloc(), entry, [3, number, 1])?;
        begins(rt.alloc(), entry.preserve_register(), [3, number, 1])?;
    }
    Ok(())
}

// A register of QEMU's device for error records, in memory.
fn register(bits: u8, size: AccessSize, address: u64) -> GAS {
    GAS::new(AddressSpace::SystemMemory, bits, 0, size, address)
}

const LOW: u64 = 0xffff_ffff;

const ALL: u64 = 0xffff_ffff_ffff_ffff;

// The entries of the table that QEMU 7.2 writes for this device, whose registers of the action and of the value are at addresses.
#[rattlefmt::skip]
fn add_entries(erst: &mut ERST, action: u64, value: u64) -> R<()> {
    let action = register(32, AccessSize::DwordAccess, action);
    let wide = register(64, AccessSize::QwordAccess, value);
    let value = register(32, AccessSize::DwordAccess, value);
    for (operation, instruction, register, number, mask) in &[
        (Action::BeginWrite, Instruction::WriteRegisterValue, action, 0, LOW),
        (Action::BeginRead, Instruction::WriteRegisterValue, action, 1, LOW),
        (Action::BeginClear, Instruction::WriteRegisterValue, action, 2, LOW),
        (Action::End, Instruction::WriteRegisterValue, action, 3, LOW),
        (Action::SetRecordOffset, Instruction::WriteRegister, value, 0, LOW),
        (Action::SetRecordOffset, Instruction::WriteRegisterValue, action, 4, LOW),
        (Action::Execute, Instruction::WriteRegisterValue, value, 0x9c, LOW),
        (Action::Execute, Instruction::WriteRegisterValue, action, 5, LOW),
        (Action::CheckBusyStatus, Instruction::WriteRegisterValue, action, 6, LOW),
        (Action::CheckBusyStatus, Instruction::ReadRegisterValue, value, 1, LOW),
        (Action::GetCommandStatus, Instruction::WriteRegisterValue, action, 7, LOW),
        (Action::GetCommandStatus, Instruction::ReadRegister, value, 0, LOW),
        (Action::GetRecordIdentifier, Instruction::WriteRegisterValue, action, 8, LOW),
        (Action::GetRecordIdentifier, Instruction::ReadRegister, wide, 0, ALL),
        (Action::SetRecordIdentifier, Instruction::WriteRegister, wide, 0, ALL),
        (Action::SetRecordIdentifier, Instruction::WriteRegisterValue, action, 9, LOW),
        (Action::GetRecordCount, Instruction::WriteRegisterValue, action, 10, LOW),
        (Action::GetRecordCount, Instruction::ReadRegister, value, 0, LOW),
        (Action::BeginDummyWrite, Instruction::WriteRegisterValue, action, 11, LOW),
        (Action::GetErrorLogAddressRange, Instruction::WriteRegisterValue, action, 13, LOW),
        (Action::GetErrorLogAddressRange, Instruction::ReadRegister, wide, 0, ALL),
        (Action::GetErrorLogAddressRangeLength, Instruction::WriteRegisterValue, action, 14, LOW),
        (Action::GetErrorLogAddressRangeLength, Instruction::ReadRegister, wide, 0, ALL),
        (Action::GetErrorLogAddressRangeAttributes, Instruction::WriteRegisterValue, action, 15, LOW),
        (Action::GetErrorLogAddressRangeAttributes, Instruction::ReadRegister, value, 0, LOW),
        (Action::GetExecuteTimings, Instruction::WriteRegisterValue, action, 16, LOW),
        (Action::GetExecuteTimings, Instruction::ReadRegister, wide, 0, ALL),
    ] {
        erst.add_entry(SerializationEntry::new(*operation, *instruction, *register, *number, *mask))?;
    }
    Ok(())
}

// That of a PC at 0xfebf3000.
const ENTRIES: &[u8] = b"\x30\0\0\0\0\0\0\0\x1b\0\0\0\
    \0\x03\0\0\0\x20\0\x03\0\x30\xbf\xfe\0\0\0\0\0\0\0\0\0\0\0\0\xff\xff\xff\xff\0\0\0\0\
    \x01\x03\0\0\0\x20\0\x03\0\x30\xbf\xfe\0\0\0\0\x01\0\0\0\0\0\0\0\xff\xff\xff\xff\0\0\0\0\
    \x02\x03\0\0\0\x20\0\x03\0\x30\xbf\xfe\0\0\0\0\x02\0\0\0\0\0\0\0\xff\xff\xff\xff\0\0\0\0\
    \x03\x03\0\0\0\x20\0\x03\0\x30\xbf\xfe\0\0\0\0\x03\0\0\0\0\0\0\0\xff\xff\xff\xff\0\0\0\0\
    \x04\x02\0\0\0\x20\0\x03\x08\x30\xbf\xfe\0\0\0\0\0\0\0\0\0\0\0\0\xff\xff\xff\xff\0\0\0\0\
    \x04\x03\0\0\0\x20\0\x03\0\x30\xbf\xfe\0\0\0\0\x04\0\0\0\0\0\0\0\xff\xff\xff\xff\0\0\0\0\
    \x05\x03\0\0\0\x20\0\x03\x08\x30\xbf\xfe\0\0\0\0\x9c\0\0\0\0\0\0\0\xff\xff\xff\xff\0\0\0\0\
    \x05\x03\0\0\0\x20\0\x03\0\x30\xbf\xfe\0\0\0\0\x05\0\0\0\0\0\0\0\xff\xff\xff\xff\0\0\0\0\
    \x06\x03\0\0\0\x20\0\x03\0\x30\xbf\xfe\0\0\0\0\x06\0\0\0\0\0\0\0\xff\xff\xff\xff\0\0\0\0\
    \x06\x01\0\0\0\x20\0\x03\x08\x30\xbf\xfe\0\0\0\0\x01\0\0\0\0\0\0\0\xff\xff\xff\xff\0\0\0\0\
    \x07\x03\0\0\0\x20\0\x03\0\x30\xbf\xfe\0\0\0\0\x07\0\0\0\0\0\0\0\xff\xff\xff\xff\0\0\0\0\
    \x07\0\0\0\0\x20\0\x03\x08\x30\xbf\xfe\0\0\0\0\0\0\0\0\0\0\0\0\xff\xff\xff\xff\0\0\0\0\
    \x08\x03\0\0\0\x20\0\x03\0\x30\xbf\xfe\0\0\0\0\x08\0\0\0\0\0\0\0\xff\xff\xff\xff\0\0\0\0\
    \x08\0\0\0\0\x40\0\x04\x08\x30\xbf\xfe\0\0\0\0\0\0\0\0\0\0\0\0\xff\xff\xff\xff\xff\xff\xff\xff\
    \x09\x02\0\0\0\x40\0\x04\x08\x30\xbf\xfe\0\0\0\0\0\0\0\0\0\0\0\0\xff\xff\xff\xff\xff\xff\xff\xff\
    \x09\x03\0\0\0\x20\0\x03\0\x30\xbf\xfe\0\0\0\0\x09\0\0\0\0\0\0\0\xff\xff\xff\xff\0\0\0\0\
    \x0a\x03\0\0\0\x20\0\x03\0\x30\xbf\xfe\0\0\0\0\x0a\0\0\0\0\0\0\0\xff\xff\xff\xff\0\0\0\0\
    \x0a\0\0\0\0\x20\0\x03\x08\x30\xbf\xfe\0\0\0\0\0\0\0\0\0\0\0\0\xff\xff\xff\xff\0\0\0\0\
    \x0b\x03\0\0\0\x20\0\x03\0\x30\xbf\xfe\0\0\0\0\x0b\0\0\0\0\0\0\0\xff\xff\xff\xff\0\0\0\0\
    \x0d\x03\0\0\0\x20\0\x03\0\x30\xbf\xfe\0\0\0\0\x0d\0\0\0\0\0\0\0\xff\xff\xff\xff\0\0\0\0\
    \x0d\0\0\0\0\x40\0\x04\x08\x30\xbf\xfe\0\0\0\0\0\0\0\0\0\0\0\0\xff\xff\xff\xff\xff\xff\xff\xff\
    \x0e\x03\0\0\0\x20\0\x03\0\x30\xbf\xfe\0\0\0\0\x0e\0\0\0\0\0\0\0\xff\xff\xff\xff\0\0\0\0\
    \x0e\0\0\0\0\x40\0\x04\x08\x30\xbf\xfe\0\0\0\0\0\0\0\0\0\0\0\0\xff\xff\xff\xff\xff\xff\xff\xff\
    \x0f\x03\0\0\0\x20\0\x03\0\x30\xbf\xfe\0\0\0\0\x0f\0\0\0\0\0\0\0\xff\xff\xff\xff\0\0\0\0\
    \x0f\0\0\0\0\x20\0\x03\x08\x30\xbf\xfe\0\0\0\0\0\0\0\0\0\0\0\0\xff\xff\xff\xff\0\0\0\0\
    \x10\x03\0\0\0\x20\0\x03\0\x30\xbf\xfe\0\0\0\0\x10\0\0\0\0\0\0\0\xff\xff\xff\xff\0\0\0\0\
    \x10\0\0\0\0\x40\0\x04\x08\x30\xbf\xfe\0\0\0\0\0\0\0\0\0\0\0\0\xff\xff\xff\xff\xff\xff\xff\xff";

// On a microvm this device has no address when the table is written: the address is 2^64 - 1.
const ENTRIES_OF_MICROVM: &[u8] = b"\x30\0\0\0\0\0\0\0\x1b\0\0\0\
    \0\x03\0\0\0\x20\0\x03\xff\xff\xff\xff\xff\xff\xff\xff\0\0\0\0\0\0\0\0\xff\xff\xff\xff\0\0\0\0\
    \x01\x03\0\0\0\x20\0\x03\xff\xff\xff\xff\xff\xff\xff\xff\x01\0\0\0\0\0\0\0\xff\xff\xff\xff\0\0\0\0\
    \x02\x03\0\0\0\x20\0\x03\xff\xff\xff\xff\xff\xff\xff\xff\x02\0\0\0\0\0\0\0\xff\xff\xff\xff\0\0\0\0\
    \x03\x03\0\0\0\x20\0\x03\xff\xff\xff\xff\xff\xff\xff\xff\x03\0\0\0\0\0\0\0\xff\xff\xff\xff\0\0\0\0\
    \x04\x02\0\0\0\x20\0\x03\x07\0\0\0\0\0\0\0\0\0\0\0\0\0\0\0\xff\xff\xff\xff\0\0\0\0\
    \x04\x03\0\0\0\x20\0\x03\xff\xff\xff\xff\xff\xff\xff\xff\x04\0\0\0\0\0\0\0\xff\xff\xff\xff\0\0\0\0\
    \x05\x03\0\0\0\x20\0\x03\x07\0\0\0\0\0\0\0\x9c\0\0\0\0\0\0\0\xff\xff\xff\xff\0\0\0\0\
    \x05\x03\0\0\0\x20\0\x03\xff\xff\xff\xff\xff\xff\xff\xff\x05\0\0\0\0\0\0\0\xff\xff\xff\xff\0\0\0\0\
    \x06\x03\0\0\0\x20\0\x03\xff\xff\xff\xff\xff\xff\xff\xff\x06\0\0\0\0\0\0\0\xff\xff\xff\xff\0\0\0\0\
    \x06\x01\0\0\0\x20\0\x03\x07\0\0\0\0\0\0\0\x01\0\0\0\0\0\0\0\xff\xff\xff\xff\0\0\0\0\
    \x07\x03\0\0\0\x20\0\x03\xff\xff\xff\xff\xff\xff\xff\xff\x07\0\0\0\0\0\0\0\xff\xff\xff\xff\0\0\0\0\
    \x07\0\0\0\0\x20\0\x03\x07\0\0\0\0\0\0\0\0\0\0\0\0\0\0\0\xff\xff\xff\xff\0\0\0\0\
    \x08\x03\0\0\0\x20\0\x03\xff\xff\xff\xff\xff\xff\xff\xff\x08\0\0\0\0\0\0\0\xff\xff\xff\xff\0\0\0\0\
    \x08\0\0\0\0\x40\0\x04\x07\0\0\0\0\0\0\0\0\0\0\0\0\0\0\0\xff\xff\xff\xff\xff\xff\xff\xff\
    \x09\x02\0\0\0\x40\0\x04\x07\0\0\0\0\0\0\0\0\0\0\0\0\0\0\0\xff\xff\xff\xff\xff\xff\xff\xff\
    \x09\x03\0\0\0\x20\0\x03\xff\xff\xff\xff\xff\xff\xff\xff\x09\0\0\0\0\0\0\0\xff\xff\xff\xff\0\0\0\0\
    \x0a\x03\0\0\0\x20\0\x03\xff\xff\xff\xff\xff\xff\xff\xff\x0a\0\0\0\0\0\0\0\xff\xff\xff\xff\0\0\0\0\
    \x0a\0\0\0\0\x20\0\x03\x07\0\0\0\0\0\0\0\0\0\0\0\0\0\0\0\xff\xff\xff\xff\0\0\0\0\
    \x0b\x03\0\0\0\x20\0\x03\xff\xff\xff\xff\xff\xff\xff\xff\x0b\0\0\0\0\0\0\0\xff\xff\xff\xff\0\0\0\0\
    \x0d\x03\0\0\0\x20\0\x03\xff\xff\xff\xff\xff\xff\xff\xff\x0d\0\0\0\0\0\0\0\xff\xff\xff\xff\0\0\0\0\
    \x0d\0\0\0\0\x40\0\x04\x07\0\0\0\0\0\0\0\0\0\0\0\0\0\0\0\xff\xff\xff\xff\xff\xff\xff\xff\
    \x0e\x03\0\0\0\x20\0\x03\xff\xff\xff\xff\xff\xff\xff\xff\x0e\0\0\0\0\0\0\0\xff\xff\xff\xff\0\0\0\0\
    \x0e\0\0\0\0\x40\0\x04\x07\0\0\0\0\0\0\0\0\0\0\0\0\0\0\0\xff\xff\xff\xff\xff\xff\xff\xff\
    \x0f\x03\0\0\0\x20\0\x03\xff\xff\xff\xff\xff\xff\xff\xff\x0f\0\0\0\0\0\0\0\xff\xff\xff\xff\0\0\0\0\
    \x0f\0\0\0\0\x20\0\x03\x07\0\0\0\0\0\0\0\0\0\0\0\0\0\0\0\xff\xff\xff\xff\0\0\0\0\
    \x10\x03\0\0\0\x20\0\x03\xff\xff\xff\xff\xff\xff\xff\xff\x10\0\0\0\0\0\0\0\xff\xff\xff\xff\0\0\0\0\
    \x10\0\0\0\0\x40\0\x04\x07\0\0\0\0\0\0\0\0\0\0\0\0\0\0\0\xff\xff\xff\xff\xff\xff\xff\xff";

fn becomes_qemus(
    alloc: Global,
    erst: &mut ERST,
    action: u64,
    value: u64,
    wanted: &[u8],
) -> Result<(), Fail> {
    add_entries(erst, action, value)?;
    equal(&(erst.len(), erst.count()), &(912, 27))?;
    is(alloc, erst, b"ERST", 1, &[wanted])
}

fn table(alloc: Global) -> ERST {
    ERST::new(alloc, OEM, OEM_TABLE, OEM_REVISION)
}

#[test]
fn erst(rt: HostRuntime) -> Result<(), Fail> {
    let alloc = rt.alloc();
    is(
        alloc,
        &table(alloc),
        b"ERST",
        1,
        &[b"\x30\0\0\0\0\0\0\0\0\0\0\0"],
    )?;
    becomes_qemus(alloc, &mut table(alloc), 0xfebf_3000, 0xfebf_3008, ENTRIES)?;
    becomes_qemus(alloc, &mut table(alloc), u64::MAX, 7, ENTRIES_OF_MICROVM)
}
