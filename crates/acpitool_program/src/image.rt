//! The tables of an image, found from its pointer on.

ghost use Rattle.std.specs.Prelude.{◌≡◌, ◌≢◌, ◌↔◌, ◌^◌, ◌<◌, ℕ, List, IfErr, ◌+◌, ◌-◌, ◌%◌, ◌≤◌, take, drop, IsTrue, IfOk};
ghost use Rattle.std.specs.Prelude.{OnOk, string_bytes, codes, false, ◌++◌, MatchOption, length};
ghost use Rattle.std.specs.Fmt.{digits};
ghost use Rattle.acpi_json.specs.Array.{array};
ghost use Rattle.std.specs.Io.KnownBytes.{Appends};
ghost use Rattle.acpi_layout.specs.Found.{contents, IsImageOf};
ghost use Rattle.acpi_layout.specs.Addresses.{image_at};
ghost use Rattle.acpi_layout.specs.FaultText.{text_of};
ghost use Rattle.acpi_layout.specs.declared.fault.ImageFault.TheVariants.{Memory, Outside};
ghost use Rattle.acpi_layout.specs.declared.located.Located.{Located};
ghost use Rattle.acpitool_program.specs.Image.{IsPointerAt, IsFirstPointer, HasNoPointer, IsFirstPointerTo, root_address};
ghost use Rattle.acpitool_program.specs.Image.{IsFoundImage};
ghost use Rattle.acpitool_program.specs.Listing.{IsWhyNone, IsNoImage, is_base_right, why};
ghost use Rattle.acpitool_program.specs.Image.{revision_offset, revision_of, table_line, table_lines};
ghost use Rattle.acpitool_program.specs.Image.{address_member, signature_member, length_member, revision_member};
ghost use Rattle.acpitool_program.specs.Image.{table_object, table_objects, tables_text};

use crate::check::check_pointer;
use acpi_json::array::array_of;
use acpi_json::finding::push_member;
use acpi_json::number::push_decimal;
use acpi_json::string::push_string;
use acpi_layout::check::check_image_of;
use acpi_layout::fault::ImageFault;
use acpi_layout::located::Located;
use acpi_layout::root::Root;
use acpi_read::bytes::{dword_at, qword_at};
use acpi_read::report::{push_number, push_shown};
use std::alloc::{AllocError, Global};
use std::io;
use std::io::Write;

// Returns the bytes that a pointer of a size at an offset has.
fn pointer_at(bytes: &[u8], at: usize, size: usize) -> &[u8]
    requires { at + size ≤ length bytes.now }
    ensures { result.now ≡ take size (drop at bytes.now) }
{
    &bytes[at..at + size]
}

// Returns whether a pointer of a size is at an offset, which is a multiple of 16.
fn is_pointer_at(bytes: &[u8], at: usize, size: usize) -> bool
    requires whole { at + size ≤ length bytes.now }
    requires aligned { at % 16 ≡ 0 }
    ensures { IsTrue result ↔ IsPointerAt size bytes.now at }
{
    let pointer = pointer_at(bytes, at, size);
    pointer.starts_with(b"RSD PTR ") && check_pointer(pointer).is_ok()
}

/// Why the tables of an image can't be listed.
#[derive(Clone, Copy)]
pub enum NoImage {
    /// There is no Root System Description Pointer.
    NoPointer,
    /// The pointer has this address of the XSDT or the RSDT, which isn't in the image.
    Away(u64),
    /// What the pointer leads to is wrong.
    Wrong(ImageFault),
}

/// Returns the offset of the first Root System Description Pointer of a size, at multiples of 16 (ACPI 6.5, 5.2.5.1).
pub fn find_pointer(bytes: &[u8], size: usize) -> Option<usize>
    requires { 0 < size }
    ensures { MatchOption result (HasNoPointer size bytes.now) (IsFirstPointer size bytes.now) }
{
    let mut at = 0;
    'steps: while at < bytes.len() && size <= bytes.len() - at {
        if is_pointer_at(bytes, at, size) {
            return Some(at);
        }
        at += 16;
    }
    None
}

// Returns the offset of a table's revision.
fn revision_offset(signature: [u8; 4]) -> usize
    ensures { result ≡ revision_offset signature }
{
    match &signature {
        b"RSD " => 15,
        b"FACS" => 32,
        _ => 8,
    }
}

// Returns the bytes from an address on, or none if it is after them.
fn bytes_from(base: u64, bytes: &[u8], address: u64) -> &[u8]
    ensures { result.now ≡ drop (address - base) bytes.now }
{
    let start = address.saturating_sub(base);
    if start < bytes.len() as u64 {
        &bytes[start as usize..]
    } else {
        &bytes[bytes.len()..]
    }
}

// Returns the revision of a table, or 0 if the bytes end before it.
fn revision_of(base: u64, bytes: &[u8], table: &Located) -> u8
    ensures { result ≡ revision_of base bytes.now table.now }
{
    let bytes = bytes_from(base, bytes, table.address);
    match bytes.get(revision_offset(table.signature)) {
        Some(revision) => *revision,
        None => 0,
    }
}

// Returns an address in hexadecimal.
fn address_text(alloc: Global, address: u64) -> Result<String, AllocError>
    ensures { IfOk result (λ text. string_bytes text ≡ codes "0x" ++ digits 16 false address) }
{
    format!(in alloc; "0x{address:x}")
}

// Returns the line of a table: its address, signature, length and revision.
fn line(alloc: Global, base: u64, bytes: &[u8], table: &Located) -> Result<String, AllocError>
    ensures { IfOk result (λ text. string_bytes text ≡ table_line base bytes.now table.now) }
{
    let mut text = address_text(alloc, table.address)?;
    text.push_str(" ")?;
    push_shown(&table.signature, &mut text)?;
    push_number(" length ", u64::from(table.length), &mut text)?;
    let revision = revision_of(base, bytes, table);
    push_number(" revision ", u64::from(revision), &mut text)?;
    text.push_str("\n")?;
    Ok(text)
}

// Prints the line of a table.
fn print_table<O: Write>(
    alloc: Global,
    base: u64,
    bytes: &[u8],
    table: &Located,
    out: &mut O,
) -> io::Result<()>
    ensures { OnOk result (Appends (O.contents out.old) (O.contents out.new) (table_line base bytes.now table.now)) }
{
    let text = line(alloc, base, bytes, table)?;
    out.write_all(text.as_bytes())
}

// Prints a line for each table: its address, signature, length and revision.
fn print_lines<O: Write>(
    alloc: Global,
    base: u64,
    bytes: &[u8],
    tables: &[Located],
    out: &mut O,
) -> io::Result<()>
    ensures { OnOk result (Appends (O.contents out.old) (O.contents out.new) (table_lines base bytes.now tables.now)) }
{
    'tables: for table in tables {
        print_table(alloc, base, bytes, table, out)?;
    }
    Ok(())
}

// Adds the member with the address of a table.
#[tactic(auto, unfolding(crate::specs::Image::address_member))]
fn push_address(address: u64, text: &mut Vec<u8>) -> Result<(), AllocError>
    ensures { OnOk result (text.new.items ≡ text.old.items ++ address_member address) }
{
    push_member(b"{\"address\":", address, text)
}

// Adds the member with the signature of a table.
#[tactic(auto, unfolding(crate::specs::Image::signature_member))]
fn push_signature(signature: &[u8], text: &mut Vec<u8>) -> Result<(), AllocError>
    ensures { OnOk result (text.new.items ≡ text.old.items ++ signature_member signature.now) }
{
    text.extend_from_slice(b",\"signature\":")?;
    push_string(signature, text)
}

// Adds the member with the length of a table.
#[tactic(auto, unfolding(crate::specs::Image::length_member))]
fn push_length(length: u32, text: &mut Vec<u8>) -> Result<(), AllocError>
    ensures { OnOk result (text.new.items ≡ text.old.items ++ length_member length) }
{
    text.extend_from_slice(b",\"length\":")?;
    push_decimal(u64::from(length), text)
}

// Adds the member with the revision of a table.
#[tactic(auto, unfolding(crate::specs::Image::revision_member))]
fn push_revision(revision: u8, text: &mut Vec<u8>) -> Result<(), AllocError>
    ensures { OnOk result (text.new.items ≡ text.old.items ++ revision_member revision) }
{
    text.extend_from_slice(b",\"revision\":")?;
    push_decimal(u64::from(revision), text)
}

// Adds the object of a table, in a line: its address, signature, length and revision.
#[tactic(auto, unfolding(crate::specs::Image::table_object))]
fn push_object(
    base: u64,
    bytes: &[u8],
    table: &Located,
    text: &mut Vec<u8>,
) -> Result<(), AllocError>
    ensures { OnOk result (text.new.items ≡ text.old.items ++ table_object base bytes.now table.now) }
{
    push_address(table.address, text)?;
    push_signature(&table.signature, text)?;
    push_length(table.length, text)?;
    push_revision(revision_of(base, bytes, table), text)?;
    text.extend_from_slice(b"}\n")
}

// Returns the objects of tables, each in a line.
fn objects_of(
    alloc: Global,
    base: u64,
    bytes: &[u8],
    tables: &[Located],
) -> Result<Vec<u8>, AllocError>
    ensures { IfOk result (λ text. text.items ≡ table_objects base bytes.now tables.now) }
{
    let mut text = Vec::new(alloc);
    'tables: for table in tables {
        push_object(base, bytes, table, &mut text)?;
    }
    Ok(text)
}

// Prints the array of the objects of tables.
fn print_array<O: Write>(
    alloc: Global,
    base: u64,
    bytes: &[u8],
    tables: &[Located],
    out: &mut O,
) -> io::Result<()>
    ensures { OnOk result (Appends (O.contents out.old) (O.contents out.new) (array (table_objects base bytes.now tables.now))) }
{
    let objects = objects_of(alloc, base, bytes, tables)?;
    let array = array_of(alloc, &objects)?;
    out.write_all(&array)
}

/// Prints the address, the signature, the length and the revision of each table: an array of JSON, or a line for each.
pub fn print_tables<O: Write>(
    alloc: Global,
    json: bool,
    base: u64,
    bytes: &[u8],
    tables: &[Located],
    out: &mut O,
) -> io::Result<()>
    ensures { OnOk result (Appends (O.contents out.old) (O.contents out.new) (tables_text json base bytes.now tables.now)) }
{
    if json {
        return print_array(alloc, base, bytes, tables, out);
    }
    print_lines(alloc, base, bytes, tables, out)
}

// The first pointer of an image.
#[derive(Clone, Copy)]
struct Pointer {
    // What it points to.
    root: Root,
    // Its offset.
    at: usize,
}

// Returns the first pointer to an XSDT, or if there is none, the first pointer to an RSDT.
fn first_pointer(bytes: &[u8]) -> Option<Pointer>
    ensures { MatchOption result (HasNoPointer 36 bytes.now × HasNoPointer 20 bytes.now)
        (λ pointer. IsFirstPointerTo pointer.root bytes.now pointer.at) }
{
    if let Some(at) = find_pointer(bytes, 36) {
        return Some(Pointer {
            root: Root::Xsdt,
            at,
        });
    }
    match find_pointer(bytes, 20) {
        Some(at) => Some(Pointer {
            root: Root::Rsdt,
            at,
        }),
        None => None,
    }
}

// Returns the tables that a pointer leads to.
fn tables_from(
    alloc: Global,
    base: u64,
    bytes: &[u8],
    pointer: Pointer,
) -> Result<Vec<Located>, ImageFault>
    ensures ok { IfOk result (λ tables. (base + pointer.at < 2 ^ 64)
        × IsImageOf pointer.root bytes.now base (base + pointer.at) tables.items) }
    ensures err { IfErr result (λ e. e ≢ Memory → (tables : List Located) → base + pointer.at < 2 ^ 64
        → ¬ IsImageOf pointer.root bytes.now base (base + pointer.at) tables) }
{
    match base.checked_add(pointer.at as u64) {
        Some(address) => match check_image_of(alloc, pointer.root, bytes, base, address) {
            Ok(tables) => Ok(tables),
            Err(fault) => Err(fault),
        },
        None => Err(ImageFault::Outside(base)),
    }
}

// Returns the address of the XSDT or the RSDT in a pointer.
fn root_address(bytes: &[u8], pointer: Pointer) -> u64
    requires { IsFirstPointerTo pointer.root bytes.now pointer.at }
    ensures { result ≡ root_address pointer.root pointer.at bytes.now }
{
    match pointer.root {
        Root::Xsdt => qword_at(bytes, pointer.at + 24),
        Root::Rsdt => u64::from(dword_at(bytes, pointer.at + 16)),
    }
}

// Returns why a pointer leads to no tables.
fn why_none(bytes: &[u8], pointer: Pointer, fault: ImageFault) -> NoImage
    requires { IsFirstPointerTo pointer.root bytes.now pointer.at }
    ensures { IsWhyNone pointer.root bytes.now pointer.at fault result }
{
    match fault {
        ImageFault::Outside(address) => {
            if address == root_address(bytes, pointer) {
                NoImage::Away(address)
            } else {
                NoImage::Wrong(fault)
            }
        }
        fault => NoImage::Wrong(fault),
    }
}

/// Returns the tables of an image that begins at the physical address `base`, from its first pointer on, or why there are none. A
/// pointer to an RSDT counts only if there is none to an XSDT.
pub fn find_tables(alloc: Global, base: u64, bytes: &[u8]) -> Result<Vec<Located>, NoImage>
    ensures ok { IfOk result (λ tables. IsFoundImage base bytes.now tables.items) }
    ensures err { IfErr result (IsNoImage base bytes.now) }
{
    let Some(pointer) = first_pointer(bytes) else {
        return Err(NoImage::NoPointer);
    };
    match tables_from(alloc, base, bytes, pointer) {
        Ok(tables) => Ok(tables),
        Err(fault) => Err(why_none(bytes, pointer, fault)),
    }
}

/// Returns the bytes of a table of an image that begins at the physical address `base`.
pub fn contents<'a>(base: u64, bytes: &'a [u8], table: &Located) -> &'a [u8]
    ensures { result.now ≡ contents (image_at base bytes.now) table.now }
{
    let start = table.address.saturating_sub(base);
    if start >= bytes.len() as u64 {
        return &bytes[bytes.len()..];
    }
    let rest = &bytes[start as usize..];
    let size = table.length as usize;
    if size < rest.len() {
        &rest[..size]
    } else {
        rest
    }
}

// Returns what is asked if the XSDT or the RSDT isn't in the image.
fn is_base_right(alloc: Global, base: u64, address: u64) -> Result<String, AllocError>
    ensures { IfOk result (λ text. string_bytes text ≡ is_base_right base address) }
{
    if base == 0 {
        format!(in alloc; " (is BASE right? the RSDP points to 0x{address:x})")
    } else {
        Ok(String::new(alloc))
    }
}

// Returns that the XSDT or the RSDT isn't in the image, as text.
fn why_away(alloc: Global, base: u64, address: u64) -> Result<String, AllocError>
    ensures { IfOk result (λ text. string_bytes text ≡ text_of (Outside address) ++ is_base_right base address) }
{
    let fault = ImageFault::Outside(address);
    let mut text = format!(in alloc; "{fault}")?;
    let more = is_base_right(alloc, base, address)?;
    text.push_str(more.as_str())?;
    Ok(text)
}

/// Returns why there is no image that begins at the physical address `base`, as text.
pub fn why(alloc: Global, base: u64, fault: &NoImage) -> Result<String, AllocError>
    ensures { IfOk result (λ text. string_bytes text ≡ why base fault.now) }
{
    match fault {
        NoImage::NoPointer => format!(in alloc; "no valid RSDP at a multiple of 16 bytes"),
        NoImage::Away(address) => why_away(alloc, base, *address),
        NoImage::Wrong(fault) => format!(in alloc; "{fault}"),
    }
}
