//! Images of the tables of a folder.

use crate::acpitool::files::WRONG;
use crate::acpitool::program::{TABLE, ends, write};
use crate::words::owned;
use acpitool_program::program::run;
use std::alloc::AllocError;
use std::fs;
use std::test::Fail;
use test_support::{equal, same};

/// A DSDT without terms.
pub const DSDT: [u8; 36] =
    *b"DSDT\x24\x00\x00\x00\x02\x96FOOBARCAFEDEAD\x01\x00\x00\x00RVAT\x00\x00\x00\x01";

/// The first bytes of a FADT of 148 bytes. The others are 0, and all of them sum to 0.
pub const FADT: [u8; 36] =
    *b"FACP\x94\x00\x00\x00\x06\x37FOOBARCAFEDEAD\x01\x00\x00\x00RVAT\x00\x00\x00\x01";

/// The first bytes of a FACS of 64 bytes, up to its version. The others are 0.
pub const FACS: [u8; 33] =
    *b"FACS\x40\x00\x00\x00\x00\x00\x00\x00\x00\x00\x00\x00\x00\x00\x00\x00\x00\x00\x00\x00\x00\x00\x00\x00\x00\x00\x00\x00\x02";

// The XSDT of the image of the folder `laid`, which lists the FADT and the table, and its RSDP.
const XSDT: [u8; 52] =
    *b"XSDT\x34\x00\x00\x00\x01\xd2FOOBARCAFEDEAD\x01\x00\x00\x00RVAT\x00\x00\x00\x01\
\x68\x00\x00\x1c\x00\x00\x00\x00\x00\x01\x00\x1c\x00\x00\x00\x00";

const RSDP: [u8; 36] =
    *b"RSD PTR \x26FOOBAR\x02\x00\x00\x00\x00\x24\x00\x00\x00\x28\x01\x00\x1c\x00\x00\x00\x00\x97\x00\x00\x00";

// Its bytes, each group at its offset; the others are 0. The FADT has another checksum, X_FIRMWARE_CTRL and X_DSDT.
const LAID: [(usize, &[u8]); 8] = [
    (0, &FACS),
    (0x40, &DSDT),
    (
        0x68,
        b"FACP\x94\x00\x00\x00\x06\xbfFOOBARCAFEDEAD\x01\x00\x00\x00RVAT\x00\x00\x00\x01",
    ),
    (
        0xec,
        b"\x00\x00\x00\x1c\x00\x00\x00\x00\x40\x00\x00\x1c\x00\x00\x00\x00",
    ),
    (0x100, &TABLE),
    (0x128, &XSDT),
    (0x160, &RSDP),
    (0x184, &[]),
];

/// Adds groups of bytes, each at its offset.
pub fn joined(rt: &HostRuntime, groups: &[(usize, &[u8])]) -> Result<Vec<u8>, AllocError> {
    let mut bytes = Vec::new(rt.alloc());
    for (offset, group) in groups {
        bytes.resize(*offset, 0)?;
        bytes.extend_from_slice(*group)?;
    }
    Ok(bytes)
}

/// Writes a file with these first bytes, and zeros after them.
pub fn write_padded(rt: &HostRuntime, name: &str, front: &[u8], size: usize) -> Result<(), Fail> {
    let bytes = joined(rt, &[(0, front), (size, &[])])?;
    write(rt, name, &bytes)
}

// Makes the folder `laid`, whose files also have an RSDP and an XSDT.
fn make_laid(rt: &HostRuntime) -> Result<(), Fail> {
    fs::create_dir(rt, "laid")?;
    write(rt, "laid/dsdt", &DSDT)?;
    write_padded(rt, "laid/fadt", &FADT, 148)?;
    write_padded(rt, "laid/facs", &FACS, 64)?;
    write(rt, "laid/table", &TABLE)?;
    write(rt, "laid/rsdp", &RSDP)?;
    write(rt, "laid/xsdt", &XSDT)
}

// Writes a file of a folder with these first bytes, and zeros after them.
fn write_in(
    rt: &HostRuntime,
    folder: &str,
    name: &str,
    front: &[u8],
    size: usize,
) -> Result<(), Fail> {
    let path = format!(in rt.alloc(); "{folder}/{name}")?;
    write_padded(rt, path.as_str(), front, size)
}

// Makes a folder with the tables alone.
fn make_tables(rt: &HostRuntime, folder: &str) -> Result<(), Fail> {
    fs::create_dir(rt, folder)?;
    write_in(rt, folder, "dsdt", &DSDT, 36)?;
    write_in(rt, folder, "fadt", &FADT, 148)?;
    write_in(rt, folder, "facs", &FACS, 64)?;
    write_in(rt, folder, "table", &TABLE, 36)
}

// The tables of the image.
const LISTED: &str = "\
0x1c000160 RSD  length 36 revision 2
0x1c000128 XSDT length 52 revision 1
0x1c000068 FACP length 148 revision 6
0x1c000100 OEMX length 36 revision 1
0x1c000000 FACS length 64 revision 2
0x1c000040 DSDT length 36 revision 2
";

// The image of a folder has its tables but for the RSDP and the XSDT, and is read back.
#[test]
fn laid(rt: HostRuntime) -> Result<(), Fail> {
    make_laid(&rt)?;
    let line = "RSDP at 0x1c000160\n";
    ends(
        &rt,
        &["lay", "laid", "laid_image", "0x1c000000"],
        0,
        &[line],
        &[],
    )?;
    let wanted = joined(&rt, &LAID)?;
    same(&fs::read(&rt, "laid_image")?, &wanted)?;
    ends(&rt, &["image", "laid_image", "1c000000"], 0, &[LISTED], &[])
}

// The tables of the image of the folder `apart`, and its RSDP, are in two files. An RSDP doesn't have its own address, so it is
// the one of the image.
#[test]
fn laid_apart(rt: HostRuntime) -> Result<(), Fail> {
    make_tables(&rt, "apart")?;
    let words = ["lay", "--rsdp", "e0000", "apart", "apart_image", "1c000000"];
    ends(&rt, &words, 0, &["RSDP at 0xe0000\n"], &[])?;
    let wanted = joined(&rt, &LAID)?;
    let tables = wanted.get(..0x160).unwrap_or(&[]);
    same(&fs::read(&rt, "apart_image")?, tables)?;
    same(&fs::read(&rt, "apart_image.rsdp")?, &RSDP)
}

// Fails unless a run that lays the folder `beside` for the address 1c000000, with an RSDP at an address, has this status and
// these texts.
fn lays_beside(
    rt: &HostRuntime,
    rsdp: &str,
    status: u8,
    out: &[&str],
    err: &[&str],
) -> Result<(), Fail> {
    let words = ["lay", "--rsdp", rsdp, "beside", "beside_image", "1c000000"];
    ends(rt, &words, status, out, err)
}

// An RSDP is at a multiple of 16, apart from the tables, which end at 0x1c000160.
#[test]
fn not_apart(rt: HostRuntime) -> Result<(), Fail> {
    make_tables(&rt, "beside")?;
    let line = "beside_image: the address of an RSDP has to be a multiple of 0x10\n";
    lays_beside(&rt, "e0008", 1, &[], &[line])?;
    let line = "beside_image: the RSDP overlaps the tables\n";
    lays_beside(&rt, "1bffffe0", 1, &[], &[line])?;
    lays_beside(&rt, "1c000000", 1, &[], &[line])?;
    lays_beside(&rt, "1c000150", 1, &[], &[line])?;
    lays_beside(&rt, "1bffffd0", 0, &["RSDP at 0x1bffffd0\n"], &[])?;
    lays_beside(&rt, "1c000160", 0, &["RSDP at 0x1c000160\n"], &[])
}

// Neither the image nor the RSDP replaces a table, and they go to two files.
#[test]
fn not_saved_apart(rt: HostRuntime) -> Result<(), Fail> {
    fs::create_dir(&rt, "two_files")?;
    write(&rt, "two_files/dsdt.rsdp", &DSDT)?;
    let line = "two_files/dsdt.rsdp: the RSDP would replace a table\n";
    let words = ["lay", "--rsdp", "e0000", "two_files", "two_files/dsdt", "0"];
    ends(&rt, &words, 1, &[], &[line])?;
    let line = "two_files/dsdt.rsdp: the image would replace a table\n";
    let words = [
        "lay",
        "--rsdp",
        "e0000",
        "two_files",
        "two_files/dsdt.rsdp",
        "0",
    ];
    ends(&rt, &words, 1, &[], &[line])?;
    let line = "-: the tables and the RSDP go to two files\n";
    let words = ["lay", "--rsdp", "e0000", "two_files", "-", "0"];
    ends(&rt, &words, 1, &[], &[line])?;
    let line = "no_two: No such file or directory (os error 2)\n";
    let words = ["lay", "--rsdp", "e0000", "no_two", "no_image", "0"];
    ends(&rt, &words, 2, &[], &[line])
}

// The text of the DSDT.
const DSDT_TEXT: &str =
    "  : \"DSDT\"\n  Length: ????????\n  : 02 ?? \"FOOBAR\" \"CAFEDEAD\" 00000001 \"RVAT\" 01000000\n";

// The same as ASL.
const DSDT_ASL: &str =
    "DefinitionBlock (\"\", \"DSDT\", 2, \"FOOBAR\", \"CAFEDEAD\", 0x00000001)\n{\n}\n";

// ASL with a name that is twice in a scope.
const TWICE_ASL: &str = "\
    DefinitionBlock (\"\", \"DSDT\", 2, \"FOOBAR\", \"CAFEDEAD\", 0x00000001)\n\
    {\n    Name (AAAA, One)\n    Name (AAAA, One)\n}\n";

// Lays the other tables and the text of a DSDT in a file of a new folder.
fn lays_text(rt: &HostRuntime, paths: [&str; 5], text: &str) -> Result<(), Fail> {
    let [folder, dsdt, fadt, facs, table] = paths;
    fs::create_dir(rt, folder)?;
    write(rt, dsdt, text.as_bytes())?;
    write_padded(rt, fadt, &FADT, 148)?;
    write_padded(rt, facs, &FACS, 64)?;
    write(rt, table, &TABLE)?;
    let line = "RSDP at 0x1c000160\n";
    let words = ["lay", folder, "texts_image", "1c000000"];
    ends(rt, &words, 0, &[line], &[])?;
    let wanted = joined(rt, &LAID)?;
    same(&fs::read(rt, "texts_image")?, &wanted)
}

// A text whose name ends in `.txt`, `.asl` or `.dsl` is laid as its table.
#[test]
fn texts_are_laid(rt: HostRuntime) -> Result<(), Fail> {
    let paths = ["txt", "txt/dsdt.txt", "txt/fadt", "txt/facs", "txt/table"];
    lays_text(&rt, paths, DSDT_TEXT)?;
    let paths = ["asl", "asl/dsdt.asl", "asl/fadt", "asl/facs", "asl/table"];
    lays_text(&rt, paths, DSDT_ASL)?;
    let paths = ["dsl", "dsl/dsdt.dsl", "dsl/fadt", "dsl/facs", "dsl/table"];
    lays_text(&rt, paths, DSDT_ASL)
}

// A text that isn't one of a table, one of ASL with a wrong number, one whose length is wrong, and ASL that compilers refuse.
#[test]
fn texts_without_a_table(rt: HostRuntime) -> Result<(), Fail> {
    fs::create_dir(&rt, "no_texts")?;
    let path = "no_texts/a.txt";
    write(&rt, path, b"  : \"DSDT\"\n\n  Length: 0\n")?;
    let words = ["lay", "no_texts", "no_texts_image", "0"];
    let line =
        "no_texts/a.txt: line 3, column 12: expected the second digit of a byte (#5 and 0x5 are the number 5), found the end \
of the line\n";
    ends(&rt, &words, 1, &[], &[line])?;
    let asl = b"DefinitionBlock (\"\", \"DSDT\", 2, \"FOOBAR\", \"CAFEDEAD\", 1)\n{\n}\n";
    write(&rt, path, asl)?;
    let line =
        "no_texts/a.txt: line 1, at 1: a number of four bytes is expected: 0x and 8 digits\n";
    ends(&rt, &words, 1, &[], &[line])?;
    write(&rt, path, WRONG.as_bytes())?;
    let lines = [
        "no_texts/a.txt: note at 4: Length: 36 would be right\n",
        "no_texts/a.txt: not written (make --force writes it)\n",
    ];
    ends(&rt, &words, 1, &[], &lines)?;
    write(&rt, path, TWICE_ASL.as_bytes())?;
    let lines = [
        "no_texts/a.txt: line 4, at AAAA: its scope already has an object of this name\n",
        "no_texts/a.txt: not written (make --force writes it)\n",
    ];
    ends(&rt, &words, 1, &[], &lines)
}

// What is laid of the tables that an image is unpacked to is the same image.
#[test]
fn laid_again(rt: HostRuntime) -> Result<(), Fail> {
    let wanted = joined(&rt, &LAID)?;
    write(&rt, "first_image", &wanted)?;
    let lines = [
        "tables_again/RSDP.aml length 36\n",
        "tables_again/XSDT.aml length 52\n",
        "tables_again/FACP.aml length 148\n",
        "tables_again/OEMX.aml length 36\n",
        "tables_again/FACS.aml length 64\n",
        "tables_again/DSDT.aml length 36\n",
    ];
    let words = ["unpack", "first_image", "tables_again", "1c000000"];
    ends(&rt, &words, 0, &lines, &[])?;
    let line = "RSDP at 0x1c000160\n";
    let words = ["lay", "tables_again", "second_image", "1c000000"];
    ends(&rt, &words, 0, &[line], &[])?;
    same(&fs::read(&rt, "second_image")?, &wanted)
}

/// A hardware-reduced FADT: its checksum, and its flags at offset 112.
pub const REDUCED: [(usize, &[u8]); 3] = [
    (
        0,
        b"FACP\x94\x00\x00\x00\x06\x27FOOBARCAFEDEAD\x01\x00\x00\x00RVAT\x00\x00\x00\x01",
    ),
    (112, b"\x00\x00\x10\x00"),
    (148, &[]),
];

/// Another table of an unknown signature.
pub const OEM1: [u8; 36] =
    *b"OEM1\x24\x00\x00\x00\x01\xb4FOOBARCAFEDEAD\x01\x00\x00\x00RVAT\x00\x00\x00\x01";

// The tables of its image.
const REDUCED_LISTED: &str = "\
0x190 RSD  length 36 revision 2
0x150 XSDT length 60 revision 1
0x68 FACP length 148 revision 6
0x100 OEM1 length 36 revision 1
0x128 OEMX length 36 revision 1
0x40 DSDT length 36 revision 2
";

// Without a FACS the DSDT is the first table. The others have the order of the names of their files.
#[test]
fn reduced(rt: HostRuntime) -> Result<(), Fail> {
    fs::create_dir(&rt, "reduced")?;
    write(&rt, "reduced/b", &TABLE)?;
    write(&rt, "reduced/a", &OEM1)?;
    write(&rt, "reduced/c", &DSDT)?;
    let fadt = joined(&rt, &REDUCED)?;
    write(&rt, "reduced/d", &fadt)?;
    let line = "RSDP at 0x190\n";
    ends(
        &rt,
        &["lay", "reduced", "reduced_image", "40"],
        0,
        &[line],
        &[],
    )?;
    ends(
        &rt,
        &["image", "reduced_image", "40"],
        0,
        &[REDUCED_LISTED],
        &[],
    )
}

// Fails unless the folder `steps` has no image for an address, with this line.
fn refused(rt: &HostRuntime, base: &str, line: &str) -> Result<(), Fail> {
    ends(rt, &["lay", "steps", "steps_image", base], 1, &[], &[line])
}

// Which tables a folder has to have. The image that is there stays as it is.
#[test]
fn not_laid(rt: HostRuntime) -> Result<(), Fail> {
    fs::create_dir(&rt, "steps")?;
    write(&rt, "steps_image", b"kept")?;
    write(&rt, "steps/table", &TABLE)?;
    refused(&rt, "0", "steps: no DSDT\n")?;
    write(&rt, "steps/dsdt", &DSDT)?;
    refused(&rt, "0", "steps: no FADT\n")?;
    write(
        &rt,
        "steps/fadt",
        b"FACP\x24\x00\x00\x00\x06\xa7FOOBARCAFEDEAD\x01\x00\x00\x00RVAT\x00\x00\x00\x01",
    )?;
    refused(&rt, "0", "steps: the FADT has no field X_DSDT\n")?;
    write_padded(&rt, "steps/fadt", &FADT, 148)?;
    let line = "steps: no FACS, and the FADT doesn't have the flag HW_REDUCED_ACPI\n";
    refused(&rt, "0", line)?;
    same(&fs::read(&rt, "steps_image")?, b"kept")
}

// Fails unless the folder `placed` has no image for an address, with this line.
fn refused_at(rt: &HostRuntime, base: &str, line: &str) -> Result<(), Fail> {
    ends(
        rt,
        &["lay", "placed", "placed_image", base],
        1,
        &[],
        &[line],
    )
}

// An address has to be a multiple of 64 from which on there is space, and there may be no second DSDT. Each file has to be a
// table.
#[test]
fn not_placed(rt: HostRuntime) -> Result<(), Fail> {
    fs::create_dir(&rt, "placed")?;
    write(&rt, "placed/dsdt", &DSDT)?;
    write_padded(&rt, "placed/fadt", &FADT, 148)?;
    write_padded(&rt, "placed/facs", &FACS, 64)?;
    refused_at(
        &rt,
        "20",
        "placed: the address of an image has to be a multiple of 0x40\n",
    )?;
    refused_at(
        &rt,
        "ffffffffffffffc0",
        "placed: the tables end after the last address\n",
    )?;
    write(&rt, "placed/second", &DSDT)?;
    refused_at(
        &rt,
        "0",
        "placed/second: a second table of this signature\n",
    )?;
    write(&rt, "placed/second", &TABLE[..9])?;
    let line = "placed/second: at 9: a table has at least the 36 bytes of the standard header\n";
    refused_at(&rt, "0", line)
}

// A FACS of 68 bytes is one, but not one of an image.
#[test]
fn not_found(rt: HostRuntime) -> Result<(), Fail> {
    fs::create_dir(&rt, "found")?;
    write(&rt, "found/dsdt", &DSDT)?;
    write_padded(&rt, "found/fadt", &FADT, 148)?;
    write_padded(&rt, "found/facs", b"FACS\x44", 68)?;
    let line = "found_image: at 0x80: the length is wrong\n";
    ends(&rt, &["lay", "found", "found_image", "80"], 1, &[], &[line])
}

// Fails unless these words print this line, and the table stays as it is.
fn keeps_table(rt: &HostRuntime, words: &[&str], line: &str) -> Result<(), Fail> {
    ends(rt, words, 1, &[], &[line])?;
    same(&fs::read(rt, "own/dsdt")?, &DSDT)
}

// Neither an image nor an archive replaces one of its files, by whatever path.
#[test]
fn tables_are_kept(rt: HostRuntime) -> Result<(), Fail> {
    fs::create_dir(&rt, "own")?;
    write(&rt, "own/dsdt", &DSDT)?;
    let line = "own/dsdt: the image would replace a table\n";
    keeps_table(&rt, &["lay", "own", "own/dsdt", "0"], line)?;
    let line = "./own/dsdt: the image would replace a table\n";
    keeps_table(&rt, &["lay", "own", "./own/dsdt", "0"], line)?;
    let line = "own/../own/dsdt: the archive would replace a table\n";
    keeps_table(&rt, &["cpio", "own", "own/../own/dsdt"], line)
}

// A folder that is missing, and a file that can't be written.
#[test]
fn not_saved(rt: HostRuntime) -> Result<(), Fail> {
    let line = "no_folder: No such file or directory (os error 2)\n";
    ends(&rt, &["lay", "no_folder", "no_image", "0"], 2, &[], &[line])?;
    fs::create_dir(&rt, "saved")?;
    write(&rt, "saved/c", &DSDT)?;
    let fadt = joined(&rt, &REDUCED)?;
    write(&rt, "saved/d", &fadt)?;
    let line = "saved/c/image: Not a directory (os error 20)\n";
    ends(
        &rt,
        &["lay", "saved", "saved/c/image", "0"],
        1,
        &[],
        &[line],
    )
}

// Where the image goes to standard output, the line of its RSDP goes to standard error.
#[test]
fn laid_on_output(rt: HostRuntime) -> Result<(), Fail> {
    make_tables(&rt, "printed")?;
    let mut printed = Vec::new(rt.alloc());
    let mut told = Vec::new(rt.alloc());
    let words = owned(&rt, &["lay", "printed", "-", "1c000000"])?;
    let status = run(&rt, rt.alloc(), &words, &mut printed, &mut told)?;
    let wanted = joined(&rt, &LAID)?;
    same(&printed, &wanted)?;
    same(&told, b"RSDP at 0x1c000160\n")?;
    equal(&status, &0)
}
