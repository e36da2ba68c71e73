//! The image of the tables of a folder, with the RSDP at an address of its own.

ghost use Rattle.std.specs.Prelude.{false, ◌≡◌, ◌≢◌, ◌≤◌, ℕ, List, length, map, string_bytes, IfOk, IfErr, OnOk, MatchResult};
ghost use Rattle.std.specs.Io.KnownBytes.{Keeps, Appends};
ghost use Rattle.acpi_layout.specs.declared.fault.ImageFault.TheVariants.{Memory};
ghost use Rattle.acpitool_program.specs.Apart.{pointer_at, tables_of, pointer_of, pointer_file, is_apart};
ghost use Rattle.acpitool_program.specs.Apart.{IsPlacedApart, IsMisplaced};
ghost use Rattle.acpitool_program.specs.Apart.{AreFoundApart, AreNotFoundApart, IsSoundApart, IsNoApart, HaveNoneApart};
ghost use Rattle.acpitool_program.specs.Apart.{IsApartOf, IsNotLaidApart, HasNoneApart, AreSaved, one_file_line, LaysApart};
ghost use Rattle.acpi_layout.specs.Files.{IsLaid};
ghost use Rattle.acpitool_program.specs.Replaced.{is_path_among};

use crate::complaint::complain;
use crate::fault::Fault;
use crate::files::{files_in, is_among};
use crate::laying::{blamed, read_files, tell_rsdp};
use crate::making::save;
use crate::outcome::{tell_replaced, tell_unread};
use acpi_layout::check::check_memory;
use acpi_layout::fault::ImageFault;
use acpi_layout::files::lay_files;
use acpi_layout::lay_fault::LayFault;
use acpi_layout::layout::Image;
use acpi_layout::located::Located;
use acpi_layout::range::Range;
use std::alloc::{AllocError, Global};
use std::io;
use std::io::Write;
use std::rt::Files;

// What is wrong with the address of an RSDP: a guest without EFI looks for it at multiples of 16 (ACPI 6.5, 5.2.5.1).
const UNALIGNED: Fault = Fault {
    place: None,
    words: "the address of an RSDP has to be a multiple of 0x10",
};

// What is wrong with an RSDP that shares addresses with the tables.
const OVERLAPS: Fault = Fault {
    place: None,
    words: "the RSDP overlaps the tables",
};

// Returns where the RSDP of an image begins: it is the last 36 bytes.
fn pointer_at(bytes: &[u8]) -> usize
    ensures is { result ≡ pointer_at bytes.now }
    ensures within { result ≤ length bytes.now }
{
    bytes.len().saturating_sub(36)
}

// Returns whether an RSDP is apart from this many bytes from base on.
fn is_apart(base: u64, rsdp: u64, size: usize) -> bool
    ensures { result ≡ is_apart base rsdp size }
{
    u128::from(rsdp) + 36 <= u128::from(base) || u128::from(base) + size as u128 <= u128::from(rsdp)
}

// Returns Ok if an RSDP has a place apart from this many bytes from base on. An error says what is wrong with its address.
fn check_place(base: u64, rsdp: u64, size: usize) -> Result<(), Fault>
    ensures ok { OnOk result (IsPlacedApart base rsdp size) }
    ensures err { IfErr result (IsMisplaced base rsdp size) }
{
    if rsdp % 16 != 0 {
        return Err(UNALIGNED);
    }
    if !is_apart(base, rsdp, size) {
        return Err(OVERLAPS);
    }
    Ok(())
}

// Returns the tables of an image, as they are found from the RSDP on at its own address.
fn find_apart(alloc: Global, base: u64, rsdp: u64, bytes: &[u8]) -> Result<Vec<Located>, ImageFault>
    ensures ok { IfOk result (λ tables. AreFoundApart base rsdp bytes.now tables.items) }
    ensures err { IfErr result (λ e. e ≢ Memory → AreNotFoundApart base rsdp bytes.now e) }
{
    let (tables, pointer) = bytes.split_at(pointer_at(bytes));
    let ranges = [
        Range {
            address: base,
            bytes: tables,
        },
        Range {
            address: rsdp,
            bytes: pointer,
        },
    ];
    check_memory(alloc, &ranges, rsdp)
}

// Returns an image whose tables are found from the RSDP on at its own address, or prints why they aren't, and returns the status.
fn sound_apart<E: Write>(
    alloc: Global,
    file: &str,
    base: u64,
    rsdp: u64,
    image: Image,
    err: &mut E,
) -> io::Result<Result<Image, u8>>
    ensures { IfOk result (λ found. MatchResult found
        (λ same. (same ≡ image) × IsSoundApart base rsdp image.bytes.items × Keeps (E.contents err.old) (E.contents err.new))
        (λ status. IsNoApart file.now base rsdp image.bytes.items (E.contents err.old) (E.contents err.new) status)) }
{
    if let Err(fault) = check_place(base, rsdp, pointer_at(&image.bytes)) {
        complain(alloc, file, &fault, err)?;
        return Ok(Err(1));
    }
    match find_apart(alloc, base, rsdp, &image.bytes) {
        Ok(_) => Ok(Ok(image)),
        Err(ImageFault::Memory) => Err(io::Error::from(AllocError)),
        Err(fault) => {
            complain(alloc, file, &fault, err)?;
            Ok(Err(1))
        }
    }
}

// Returns the image of files, or prints why they have none, and returns the status.
fn apart_of_files<E: Write>(
    alloc: Global,
    folder: &str,
    file: &str,
    base: u64,
    rsdp: u64,
    paths: &[String],
    files: &[Vec<u8>],
    err: &mut E,
) -> io::Result<Result<Image, u8>>
    ensures { IfOk result (λ image. MatchResult image
        (λ image. IsLaid base (map (λ file. file.items) files.now) image × IsSoundApart base rsdp image.bytes.items
        × Keeps (E.contents err.old) (E.contents err.new))
        (λ status. HaveNoneApart folder.now file.now base rsdp (map (λ path. string_bytes path) paths.now)
        (map (λ file. file.items) files.now) (E.contents err.old) (E.contents err.new) status)) }
{
    match lay_files(alloc, base, files) {
        Ok(image) => Ok(sound_apart(alloc, file, base, rsdp, image, err)?),
        Err(LayFault::Memory) => Err(io::Error::from(AllocError)),
        Err(fault) => {
            complain(alloc, blamed(folder, paths, fault), &fault, err)?;
            Ok(Err(1))
        }
    }
}

// Returns the image of the files of paths, or prints why they have none, and returns the status. Neither the image nor the RSDP
// is to replace one of the files.
fn apart_of_paths<R: Files, E: Write>(
    rt: &R,
    alloc: Global,
    folder: &str,
    file: &str,
    pointer: &str,
    base: u64,
    rsdp: u64,
    paths: &[String],
    err: &mut E,
) -> io::Result<Result<Image, u8>>
    ensures image { IfOk result (λ image. MatchResult image
        (λ image. IsApartOf base rsdp (map (λ path. string_bytes path) paths.now) image
        × Keeps (E.contents err.old) (E.contents err.new))
        (λ status. IsNotLaidApart folder.now file.now pointer.now base rsdp (map (λ path. string_bytes path) paths.now)
        (E.contents err.old) (E.contents err.new) status)) }
    ensures kept { IfOk result (λ image. MatchResult image
        (λ image. (is_path_among file.now (map (λ path. string_bytes path) paths.now) ≡ false)
        × (is_path_among pointer.now (map (λ path. string_bytes path) paths.now) ≡ false)) (λ status. Unit {0})) }
{
    if is_among(rt, file, paths) {
        return Ok(Err(tell_replaced("image", file, err)?));
    }
    if is_among(rt, pointer, paths) {
        return Ok(Err(tell_replaced("RSDP", pointer, err)?));
    }
    match read_files(rt, alloc, paths, err)? {
        Ok(files) => Ok(apart_of_files(alloc, folder, file, base, rsdp, paths, &files, err)?),
        Err(status) => Ok(Err(status)),
    }
}

// Returns the image of a folder, or prints why it has none, and returns the status.
fn apart_of_folder<R: Files + AllocGlobal + Clone + Drop, E: Write>(
    rt: &R,
    alloc: Global,
    folder: &str,
    file: &str,
    pointer: &str,
    base: u64,
    rsdp: u64,
    err: &mut E,
) -> io::Result<Result<Image, u8>>
    ensures { IfOk result (λ image. MatchResult image
        (λ image. ((paths : List (List ℕ)) × IsApartOf base rsdp paths image) × Keeps (E.contents err.old) (E.contents err.new))
        (λ status. HasNoneApart folder.now file.now pointer.now base rsdp
        (E.contents err.old) (E.contents err.new) status)) }
{
    match files_in(rt, alloc, folder) {
        Ok(paths) => Ok(apart_of_paths(rt, alloc, folder, file, pointer, base, rsdp, &paths, err)?),
        Err(error) => Ok(Err(tell_unread(alloc, folder, &error, err)?)),
    }
}

// Writes the tables of an image to a file, and its RSDP to another. Prints the address of the RSDP.
fn save_apart<R: Files, O: Write, E: Write>(
    rt: &R,
    alloc: Global,
    bytes: &[u8],
    file: &str,
    pointer: &str,
    rsdp: u64,
    out: &mut O,
    err: &mut E,
) -> io::Result<u8>
    ensures { IfOk result (λ status. AreSaved file.now (tables_of bytes.now) pointer.now (pointer_of bytes.now) rsdp
        (O.contents out.old) (O.contents out.new) (E.contents err.old) (E.contents err.new) status) }
{
    let (tables, end) = bytes.split_at(pointer_at(bytes));
    let status = save(rt, alloc, tables, file, err)?;
    if status != 0 {
        return Ok(status);
    }
    let status = save(rt, alloc, end, pointer, err)?;
    if status != 0 {
        return Ok(status);
    }
    tell_rsdp(rsdp, out)?;
    Ok(0)
}

// Returns the path of the file of an RSDP.
fn pointer_file(alloc: Global, file: &str) -> Result<String, AllocError>
    ensures { IfOk result (λ path. string_bytes path ≡ pointer_file file.now) }
{
    format!(in alloc; "{file}.rsdp")
}

// Prints that an image and an RSDP don't go to one file, and returns 1.
fn tell_one_file<E: Write>(err: &mut E) -> io::Result<u8>
    ensures { IfOk result (λ status. (status ≡ 1) × Appends (E.contents err.old) (E.contents err.new) one_file_line) }
{
    err.write_all(b"-: the tables and the RSDP go to two files\n")?;
    Ok(1)
}

/// Writes the tables of a folder to a file, and an RSDP for the physical address `rsdp` to the file whose name has `.rsdp` after
/// it. Both together have the bytes of the image that `lay_folder` writes: its last 36 bytes are the RSDP, which points to the
/// XSDT and doesn't have its own address. The address is a multiple of 16, at which an RSDP has to be (ACPI 6.5, 5.2.5.1): a
/// guest without EFI looks for it from 0xe0000 to 0xfffff and in the first KiB of the EBDA, and others are told where it is. A
/// line on `out` has the address.
///
/// The lines on `err` and the status are as those of `lay_folder`. In place of an image that isn't found again, the RSDP overlaps
/// the tables, its address isn't a multiple of 16, or the tables aren't found from it on. `-` is refused with a line and 1. The
/// tables are written first: if the RSDP can't be written then, the file has the new tables already, and the status is 1.
pub fn lay_apart<R: Files + AllocGlobal + Clone + Drop, O: Write, E: Write>(
    rt: &R,
    alloc: Global,
    folder: &str,
    file: &str,
    base: u64,
    rsdp: u64,
    out: &mut O,
    err: &mut E,
) -> io::Result<u8>
    ensures { IfOk result (λ status. LaysApart folder.now file.now base rsdp (O.contents out.old) (O.contents out.new)
        (E.contents err.old) (E.contents err.new) status) }
{
    if file == "-" {
        return tell_one_file(err);
    }
    let path = pointer_file(alloc, file)?;
    let pointer = path.as_str();
    match apart_of_folder(rt, alloc, folder, file, pointer, base, rsdp, err)? {
        Ok(image) => Ok(save_apart(rt, alloc, &image.bytes, file, pointer, rsdp, out, err)?),
        Err(status) => Ok(status),
    }
}
