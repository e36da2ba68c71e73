//! The bytes of commands.

ghost use Rattle.std.specs.Prelude.{◌≡◌, ◌+◌, ◌*◌, ◌^◌, ◌<◌, ◌≤◌, [], ◌∷◌, ◌++◌, OnOk, IfOk};
ghost use Rattle.acpi_base.specs.Bytes.{le, zeros};
ghost use Rattle.acpi_loader.specs.Command.{name_of, zone_of, command_bytes, script_of};
ghost use Rattle.acpi_loader.specs.Places.{facs_commands, fadt_commands, entry_commands, xsdt_commands, rsdp_commands};
ghost use Rattle.acpi_loader.specs.Places.{allocations, commands_of};

use crate::command::{Command, File, Zone};
use crate::places::Places;
use std::alloc::{AllocError, Global};

// Returns the name of a file in its 56 bytes.
fn name_of(file: File) -> &'static [u8]
    ensures { result.now ≡ name_of file }
{
    match file {
        File::Tables =>
            b"etc/acpi/tables\0\0\0\0\0\0\0\0\0\0\0\0\0\0\0\0\0\0\0\0\0\0\0\0\0\0\0\0\0\0\0\0\0\0\0\0\0\0\0\0\0",
        File::Rsdp =>
            b"etc/acpi/rsdp\0\0\0\0\0\0\0\0\0\0\0\0\0\0\0\0\0\0\0\0\0\0\0\0\0\0\0\0\0\0\0\0\0\0\0\0\0\0\0\0\0\0\0",
    }
}

// Returns the number of a zone.
fn zone_of(zone: Zone) -> u8
    ensures { result ≡ zone_of zone }
{
    match zone {
        Zone::High => 1,
        Zone::FSeg => 2,
    }
}

// Adds the number of a command, and the name of its file.
fn push_front(number: u32, file: File, script: &mut Vec<u8>) -> Result<(), AllocError>
    ensures { OnOk result (script.new.items ≡ script.old.items ++ (le 4 number ++ name_of file)) }
{
    script.extend_from_slice(&number.to_le_bytes())?;
    script.extend_from_slice(name_of(file))?;
    Ok(())
}

// Adds a number.
fn push_number(number: u32, script: &mut Vec<u8>) -> Result<(), AllocError>
    ensures { OnOk result (script.new.items ≡ script.old.items ++ le 4 number) }
{
    script.extend_from_slice(&number.to_le_bytes())
}

// Adds zeros.
fn push_zeros(count: usize, script: &mut Vec<u8>) -> Result<(), AllocError>
    requires { count ≤ 128 }
    ensures { OnOk result (script.new.items ≡ script.old.items ++ zeros count) }
{
    script.resize(script.len() + count, 0)
}

// Adds a byte, and zeros after it.
fn push_last(byte: u8, count: usize, script: &mut Vec<u8>) -> Result<(), AllocError>
    requires { count ≤ 128 }
    ensures { OnOk result (script.new.items ≡ script.old.items ++ byte ∷ zeros count) }
{
    script.push(byte)?;
    push_zeros(count, script)
}

// Adds the command that takes memory for a file.
fn push_allocate(file: File, unit: u32, zone: Zone, script: &mut Vec<u8>) -> Result<(), AllocError>
    ensures { OnOk result (script.new.items ≡ script.old.items ++ command_bytes (Command.Allocate file unit zone)) }
{
    push_front(1, file, script)?;
    push_number(unit, script)?;
    push_last(zone_of(zone), 63, script)
}

// Adds the command that adds the address of a file to a pointer.
fn push_pointer(
    file: File,
    target: File,
    offset: u32,
    script: &mut Vec<u8>,
) -> Result<(), AllocError>
    ensures { OnOk result (script.new.items ≡ script.old.items ++ command_bytes (Command.AddPointer file target offset)) }
{
    push_front(2, file, script)?;
    script.extend_from_slice(name_of(target))?;
    push_number(offset, script)?;
    push_last(8, 7, script)
}

// Adds the command that sets a checksum.
fn push_checksum(
    file: File,
    offset: u32,
    start: u32,
    size: u32,
    script: &mut Vec<u8>,
) -> Result<(), AllocError>
    ensures { OnOk result (script.new.items ≡ script.old.items ++ command_bytes (Command.AddChecksum file offset start size)) }
{
    push_front(3, file, script)?;
    push_number(offset, script)?;
    push_number(start, script)?;
    push_number(size, script)?;
    push_zeros(56, script)
}

// Adds a command.
fn push_command(command: Command, script: &mut Vec<u8>) -> Result<(), AllocError>
    ensures { OnOk result (script.new.items ≡ script.old.items ++ command_bytes command) }
{
    match command {
        Command::Allocate(file, unit, zone) => push_allocate(file, unit, zone, script),
        Command::AddPointer(file, target, offset) => push_pointer(file, target, offset, script),
        Command::AddChecksum(file, offset, start, size) => {
            push_checksum(file, offset, start, size, script)
        }
    }
}

// Adds commands.
fn push_commands(commands: &[Command], script: &mut Vec<u8>) -> Result<(), AllocError>
    ensures { OnOk result (script.new.items ≡ script.old.items ++ script_of commands.now) }
{
    'commands: for command in commands {
        push_command(*command, script)?;
    }
    Ok(())
}

// Adds the command for X_FIRMWARE_CTRL of the FADT at an offset, if there is a FACS.
fn push_facs(has_facs: bool, fadt: u32, script: &mut Vec<u8>) -> Result<(), AllocError>
    requires { fadt + 148 < 2 ^ 32 }
    ensures { OnOk result (script.new.items ≡ script.old.items ++ script_of (facs_commands has_facs fadt)) }
{
    if has_facs {
        let pointer = Command::AddPointer(File::Tables, File::Tables, fadt + 132);
        return push_commands(&[pointer], script);
    }
    Ok(())
}

// Adds the commands for X_DSDT of the FADT at an offset, and for its checksum.
fn push_fadt(fadt: u32, size: u32, script: &mut Vec<u8>) -> Result<(), AllocError>
    requires { fadt + 148 < 2 ^ 32 }
    ensures { OnOk result (script.new.items ≡ script.old.items ++ script_of (fadt_commands fadt size)) }
{
    let pointer = Command::AddPointer(File::Tables, File::Tables, fadt + 140);
    let checksum = Command::AddChecksum(File::Tables, fadt + 9, fadt, size);
    push_commands(&[pointer, checksum], script)
}

// Adds the commands for entries of the XSDT, the first of which is at an offset.
fn push_entries(offset: u32, count: u32, script: &mut Vec<u8>) -> Result<(), AllocError>
    requires { offset + 8 * count < 2 ^ 32 }
    ensures { OnOk result (script.new.items ≡ script.old.items ++ script_of (entry_commands offset count)) }
{
    'entries: for i in 0..count {
        let pointer = Command::AddPointer(File::Tables, File::Tables, offset + 8 * i);
        push_command(pointer, script)?;
    }
    Ok(())
}

// Adds the commands for the XSDT at an offset, which has this many entries.
fn push_xsdt(xsdt: u32, count: u32, script: &mut Vec<u8>) -> Result<(), AllocError>
    requires { xsdt + 36 + 8 * count < 2 ^ 32 }
    ensures { OnOk result (script.new.items ≡ script.old.items ++ script_of (xsdt_commands xsdt count)) }
{
    push_entries(xsdt + 36, count, script)?;
    let checksum = Command::AddChecksum(File::Tables, xsdt + 9, xsdt, 36 + 8 * count);
    push_command(checksum, script)?;
    Ok(())
}

// Adds the commands that take memory.
fn push_allocations(script: &mut Vec<u8>) -> Result<(), AllocError>
    ensures { OnOk result (script.new.items ≡ script.old.items ++ script_of allocations) }
{
    let tables = Command::Allocate(File::Tables, 64, Zone::High);
    let rsdp = Command::Allocate(File::Rsdp, 16, Zone::FSeg);
    push_commands(&[tables, rsdp], script)
}

// Adds the commands for the RSDP.
fn push_rsdp(script: &mut Vec<u8>) -> Result<(), AllocError>
    ensures { OnOk result (script.new.items ≡ script.old.items ++ script_of rsdp_commands) }
{
    let pointer = Command::AddPointer(File::Rsdp, File::Tables, 24);
    let checksum = Command::AddChecksum(File::Rsdp, 8, 0, 20);
    let extended = Command::AddChecksum(File::Rsdp, 32, 0, 36);
    push_commands(&[pointer, checksum, extended], script)
}

/// Returns the bytes of the commands for these places.
pub fn script_of(alloc: Global, places: &Places) -> Result<Vec<u8>, AllocError>
    requires fadt { places.now.fadt + 148 < 2 ^ 32 }
    requires xsdt { places.now.xsdt + 36 + 8 * places.now.count < 2 ^ 32 }
    ensures { IfOk result (λ script. script.items ≡ script_of (commands_of places.now)) }
{
    let mut script = Vec::new(alloc);
    push_allocations(&mut script)?;
    push_facs(places.has_facs, places.fadt, &mut script)?;
    push_fadt(places.fadt, places.fadt_size, &mut script)?;
    push_xsdt(places.xsdt, places.count, &mut script)?;
    push_rsdp(&mut script)?;
    Ok(script)
}
