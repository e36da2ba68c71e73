//! The image of the tables of a folder.

ghost use Rattle.std.specs.Prelude.{false, ◌≡◌, ◌⊎◌, ℕ, List, map, string_bytes, IfOk, IfErr, OnOk, MatchResult};
ghost use Rattle.std.specs.Io.KnownBytes.{Keeps, Appends};
ghost use Rattle.std.specs.Option.{option_map};
ghost use Rattle.acpi_compile.specs.Compiled.{is_asl};
ghost use Rattle.acpi_layout.specs.declared.located.Located.{Located};
ghost use Rattle.acpitool_program.specs.Image.{IsFoundImage};
ghost use Rattle.acpitool_program.specs.Laying.{is_text, IsTableOf, OfTextOrNot, IsUnmade, MayBeLaid, IsFile, AreFiles};
ghost use Rattle.acpitool_program.specs.Laying.{IsFileFault};
ghost use Rattle.acpitool_program.specs.Laying.{IsNoFile, IsRefused, IsMisread};
ghost use Rattle.acpitool_program.specs.Laying.{blamed};
ghost use Rattle.acpitool_program.specs.Laying.{IsNotFound, HaveNoneLaid, IsNotLaid, IsFoundOf, IsImageOf, rsdp_line};
ghost use Rattle.acpitool_program.specs.Laying.{IsSavedTo, IsSaved, HasNoImage, LaysFolder};
ghost use Rattle.acpitool_program.specs.Replaced.{is_path_among};

use crate::compiling::compile_text;
use crate::complaint::complain;
use crate::fault::Fault;
use crate::files::{files_in, is_among, read_file};
use crate::image::find_tables;
use crate::listing::tell_no_image;
use crate::making::{make_text, save};
use crate::outcome::{tell_replaced, tell_unread};
use crate::text::check_kind;
use acpi_compile::block::is_asl;
use acpi_forms::kind::kind_of;
use acpi_layout::files::lay_files;
use acpi_layout::lay_fault::LayFault;
use acpi_layout::layout::Image;
use acpi_make::file_kind::FileKind;
use std::alloc::{AllocError, Global};
use std::io;
use std::io::Write;
use std::rt::Files;

// What is wrong with a table that has no place in an image.
const NOT_LISTED: Fault = Fault {
    place: Some(0),
    words: "no XSDT lists a CDAT or an S3PT",
};

// Returns Ok if bytes are a table, a pointer or a control structure. An error says what is wrong with the bytes, and where.
fn check_file(bytes: &[u8]) -> Result<(), Fault>
    ensures ok { OnOk result (MayBeLaid bytes.now) }
    ensures err { IfErr result (IsFileFault bytes.now) }
{
    match kind_of(bytes) {
        FileKind::Cdat | FileKind::S3pt => Err(NOT_LISTED),
        FileKind::Table | FileKind::Rsdp | FileKind::Facs => check_kind(bytes),
    }
}

// Returns the bytes of a file that was read, or prints why they have no place in an image, and returns the status.
fn sound<E: Write>(
    alloc: Global,
    path: &str,
    bytes: Vec<u8>,
    err: &mut E,
) -> io::Result<Result<Vec<u8>, u8>>
    ensures { IfOk result (λ file. MatchResult file
        (λ file. (file ≡ bytes) × MayBeLaid file.items × Keeps (E.contents err.old) (E.contents err.new))
        (λ status. IsNoFile path.now bytes.items (E.contents err.old) (E.contents err.new) status)) }
{
    if let Err(fault) = check_file(&bytes) {
        complain(alloc, path, &fault, err)?;
        return Ok(Err(1));
    }
    Ok(Ok(bytes))
}

// Returns whether a file is a text by its name.
fn is_text(path: &str) -> bool
    ensures { result ≡ is_text path.now }
{
    let name = path.as_bytes();
    name.ends_with(b".txt") || name.ends_with(b".asl") || name.ends_with(b".dsl")
}

// Returns the table of a text of fields, or the definition block of a text of ASL, or prints why there is none.
fn made_of<E: Write>(
    alloc: Global,
    path: &str,
    text: &[u8],
    err: &mut E,
) -> io::Result<Option<Vec<u8>>>
    ensures { IfOk result (λ table. OfTextOrNot (is_asl text.now) path.now text.now (option_map (λ bytes. bytes.items) table)
        (E.contents err.old) (E.contents err.new)) }
{
    if is_asl(alloc, text)? {
        compile_text(alloc, false, path, text, err)
    } else {
        make_text(alloc, false, path, text, err)
    }
}

// Returns the table of a text, or prints why it has none, and returns 1.
fn table_of<E: Write>(
    alloc: Global,
    path: &str,
    text: &[u8],
    err: &mut E,
) -> io::Result<Result<Vec<u8>, u8>>
    ensures { IfOk result (λ file. MatchResult file
        (λ file. IsTableOf text.now file.items × Keeps (E.contents err.old) (E.contents err.new))
        (λ status. IsUnmade path.now (E.contents err.old) (E.contents err.new) status)) }
{
    match made_of(alloc, path, text, err)? {
        Some(bytes) => Ok(Ok(bytes)),
        None => Ok(Err(1)),
    }
}

// Returns the bytes of a file that was read: a text becomes its table. Or prints why they are refused, and returns the status.
fn file_of<E: Write>(
    alloc: Global,
    path: &str,
    bytes: Vec<u8>,
    err: &mut E,
) -> io::Result<Result<Vec<u8>, u8>>
    ensures { IfOk result (λ file. MatchResult file
        (λ file. IsFile path.now file.items × Keeps (E.contents err.old) (E.contents err.new))
        (λ status. IsRefused path.now (E.contents err.old) (E.contents err.new) status)) }
{
    if !is_text(path) {
        return Ok(sound(alloc, path, bytes, err)?);
    }
    match table_of(alloc, path, &bytes, err)? {
        Ok(table) => Ok(sound(alloc, path, table, err)?),
        Err(status) => Ok(Err(status)),
    }
}

// Returns the bytes of a file, or prints why it is refused, and returns the status.
fn read_one<R: Files, E: Write>(
    rt: &R,
    alloc: Global,
    path: &str,
    err: &mut E,
) -> io::Result<Result<Vec<u8>, u8>>
    ensures { IfOk result (λ file. MatchResult file
        (λ file. IsFile path.now file.items × Keeps (E.contents err.old) (E.contents err.new))
        (λ status. IsRefused path.now (E.contents err.old) (E.contents err.new) status)) }
{
    match read_file(rt, alloc, path) {
        Ok(bytes) => file_of(alloc, path, bytes, err),
        Err(error) => Ok(Err(tell_unread(alloc, path, &error, err)?)),
    }
}

// Returns the bytes of files, or prints why one of them is refused, and returns the status. Files after it aren't read.
pub(crate) fn read_files<R: Files, E: Write>(
    rt: &R,
    alloc: Global,
    paths: &[String],
    err: &mut E,
) -> io::Result<Result<Vec<Vec<u8>>, u8>>
    ensures { IfOk result (λ all. MatchResult all
        (λ files. AreFiles (map (λ path. string_bytes path) paths.now) (map (λ file. file.items) files.items)
        × Keeps (E.contents err.old) (E.contents err.new))
        (λ status. IsMisread (map (λ path. string_bytes path) paths.now) (E.contents err.old) (E.contents err.new) status)) }
{
    let mut files = Vec::new(alloc);
    'paths: for path in paths {
        match read_one(rt, alloc, path.as_str(), err)? {
            Ok(file) => files.push(file)?,
            Err(status) => return Ok(Err(status)),
        }
    }
    Ok(Ok(files))
}

// Returns what a fault is said of: the file that is a second one of its signature, or else the folder.
pub(crate) fn blamed<'a>(folder: &'a str, paths: &'a [String], fault: LayFault) -> &'a str
    ensures { result.now ≡ blamed folder.now (map (λ path. string_bytes path) paths.now) fault }
{
    match fault {
        LayFault::Second(index) => match paths.get(index) {
            Some(path) => path.as_str(),
            None => folder,
        },
        _ => folder,
    }
}

// Returns an image if its tables are found, or prints why they aren't, and returns the status.
fn found_image<E: Write>(
    alloc: Global,
    file: &str,
    base: u64,
    image: Image,
    err: &mut E,
) -> io::Result<Result<Image, u8>>
    ensures { IfOk result (λ found. MatchResult found
        (λ same. (same ≡ image) × ((tables : List Located) × IsFoundImage base image.bytes.items tables)
        × Keeps (E.contents err.old) (E.contents err.new))
        (λ status. IsNotFound file.now base image.bytes.items (E.contents err.old) (E.contents err.new) status)) }
{
    match find_tables(alloc, base, &image.bytes) {
        Ok(_) => Ok(Ok(image)),
        Err(fault) => Ok(Err(tell_no_image(alloc, file, base, &fault, err)?)),
    }
}

// Returns the image of files, or prints why they have none, and returns the status.
fn image_of_files<E: Write>(
    alloc: Global,
    folder: &str,
    file: &str,
    base: u64,
    paths: &[String],
    files: &[Vec<u8>],
    err: &mut E,
) -> io::Result<Result<Image, u8>>
    ensures { IfOk result (λ image. MatchResult image
        (λ image. IsFoundOf base (map (λ file. file.items) files.now) image × Keeps (E.contents err.old) (E.contents err.new))
        (λ status. HaveNoneLaid folder.now file.now base (map (λ path. string_bytes path) paths.now)
        (map (λ file. file.items) files.now) (E.contents err.old) (E.contents err.new) status)) }
{
    match lay_files(alloc, base, files) {
        Ok(image) => Ok(found_image(alloc, file, base, image, err)?),
        Err(LayFault::Memory) => Err(io::Error::from(AllocError)),
        Err(fault) => {
            complain(alloc, blamed(folder, paths, fault), &fault, err)?;
            Ok(Err(1))
        }
    }
}

// Returns the image of the files of paths, or prints why they have none, and returns the status. The image isn't to replace one
// of the files.
fn image_of_paths<R: Files, E: Write>(
    rt: &R,
    alloc: Global,
    folder: &str,
    file: &str,
    base: u64,
    paths: &[String],
    err: &mut E,
) -> io::Result<Result<Image, u8>>
    ensures image { IfOk result (λ image. MatchResult image
        (λ image. IsImageOf base (map (λ path. string_bytes path) paths.now) image
        × Keeps (E.contents err.old) (E.contents err.new))
        (λ status. IsNotLaid folder.now file.now base (map (λ path. string_bytes path) paths.now)
        (E.contents err.old) (E.contents err.new) status)) }
    ensures kept { IfOk result (λ image. MatchResult image
        (λ image. is_path_among file.now (map (λ path. string_bytes path) paths.now) ≡ false) (λ status. Unit {0})) }
{
    if is_among(rt, file, paths) {
        return Ok(Err(tell_replaced("image", file, err)?));
    }
    match read_files(rt, alloc, paths, err)? {
        Ok(files) => Ok(image_of_files(alloc, folder, file, base, paths, &files, err)?),
        Err(status) => Ok(Err(status)),
    }
}

// Returns the image of a folder, or prints why it has none, and returns the status.
fn image_of_folder<R: Files + AllocGlobal + Clone + Drop, E: Write>(
    rt: &R,
    alloc: Global,
    folder: &str,
    file: &str,
    base: u64,
    err: &mut E,
) -> io::Result<Result<Image, u8>>
    ensures { IfOk result (λ image. MatchResult image
        (λ image. ((paths : List (List ℕ)) × IsImageOf base paths image) × Keeps (E.contents err.old) (E.contents err.new))
        (λ status. HasNoImage folder.now file.now base (E.contents err.old) (E.contents err.new) status)) }
{
    match files_in(rt, alloc, folder) {
        Ok(paths) => Ok(image_of_paths(rt, alloc, folder, file, base, &paths, err)?),
        Err(error) => Ok(Err(tell_unread(alloc, folder, &error, err)?)),
    }
}

// Prints the address of an image's RSDP.
pub(crate) fn tell_rsdp<W: Write>(address: u64, out: &mut W) -> io::Result<()>
    ensures { OnOk result (Appends (W.contents out.old) (W.contents out.new) (rsdp_line address)) }
{
    writeln!(out, "RSDP at 0x{address:x}")
}

// Writes an image to a file, and prints the address of its RSDP.
fn save_to<R: Files, O: Write, E: Write>(
    rt: &R,
    alloc: Global,
    image: &Image,
    file: &str,
    out: &mut O,
    err: &mut E,
) -> io::Result<u8>
    ensures { IfOk result (λ status. IsSavedTo image.now file.now (O.contents out.old) (O.contents out.new)
        (E.contents err.old) (E.contents err.new) status) }
{
    let status = save(rt, alloc, &image.bytes, file, err)?;
    if status != 0 {
        return Ok(status);
    }
    tell_rsdp(image.rsdp, out)?;
    Ok(0)
}

// Writes an image to standard output if the file is `-`, and otherwise to the file. Prints the address of its RSDP.
fn save_image<R: Files, O: Write, E: Write>(
    rt: &R,
    alloc: Global,
    image: &Image,
    file: &str,
    out: &mut O,
    err: &mut E,
) -> io::Result<u8>
    ensures { IfOk result (λ status. IsSaved image.now file.now (O.contents out.old) (O.contents out.new)
        (E.contents err.old) (E.contents err.new) status) }
{
    match file {
        "-" => {
            out.write_all(&image.bytes)?;
            tell_rsdp(image.rsdp, err)?;
            Ok(0)
        }
        file => save_to(rt, alloc, image, file, out, err),
    }
}

/// Writes the image of the tables of a folder, which is for the physical address `base`, to a file, or to standard output if it
/// is `-`. The tables are laid as `lay_files` does it, in the order of the files' names. Each file has to be a table, an RSDP or
/// a FACS by its signature, or a text whose name ends in `.txt`, `.asl` or `.dsl`: it becomes its table. A line on `out` has the
/// address of the image's RSDP, or on `err` if the image goes to `out`.
///
/// If the files have no image, nothing is written, and lines on `err` say why: a file can't be read or isn't what its signature
/// says, no XSDT lists it, a text isn't made into a table or numbers of its table are wrong, the file with the image would be one
/// of them, they can't be laid, or the tables of the image aren't found again. The status is 1 then or if the image can't be
/// written, and 2 if a file or the folder can't be read.
pub fn lay_folder<R: Files + AllocGlobal + Clone + Drop, O: Write, E: Write>(
    rt: &R,
    alloc: Global,
    folder: &str,
    file: &str,
    base: u64,
    out: &mut O,
    err: &mut E,
) -> io::Result<u8>
    ensures { IfOk result (λ status. LaysFolder folder.now file.now base (O.contents out.old) (O.contents out.new)
        (E.contents err.old) (E.contents err.new) status) }
{
    match image_of_folder(rt, alloc, folder, file, base, err)? {
        Ok(image) => Ok(save_image(rt, alloc, &image, file, out, err)?),
        Err(status) => Ok(status),
    }
}
