//! Tables that are written to a folder, and archives of a folder.

use crate::acpitool::program::{TABLE, ends, write};
use std::fs;
use std::test::Fail;
use test_support::same;

// A dump of two tables of one signature.
const DUMP: &str = "\
OEMX @ 0x0000000000000000
    0000: 4F 45 4D 58 24 00 00 00 01 8D 46 4F 4F 42 41 52  OEMX$.....FOOBAR
    0010: 43 41 46 45 44 45 41 44 01 00 00 00 52 56 41 54  CAFEDEAD....RVAT
    0020: 00 00 00 01                                      ....

OEMX @ 0x0000000000001000
    0000: 4F 45 4D 58 24 00 00 00 01 8D 46 4F 4F 42 41 52  OEMX$.....FOOBAR
    0010: 43 41 46 45 44 45 41 44 01 00 00 00 52 56 41 54  CAFEDEAD....RVAT
    0020: 00 00 00 01                                      ....

";

// Each table of a dump is a file, the second of a signature with a number. The folder is made. Files that are there stay as they
// are, and the others are written.
#[test]
fn unpacked(rt: HostRuntime) -> Result<(), Fail> {
    write(&rt, "dump", DUMP.as_bytes())?;
    let words = ["unpack", "dump", "unpacked"];
    let lines = [
        "unpacked/OEMX.aml length 36\n",
        "unpacked/OEMX1.aml length 36\n",
    ];
    ends(&rt, &words, 0, &lines, &[])?;
    same(&fs::read(&rt, "unpacked/OEMX.aml")?, &TABLE)?;
    same(&fs::read(&rt, "unpacked/OEMX1.aml")?, &TABLE)?;
    write(&rt, "unpacked/OEMX.aml", b"kept")?;
    fs::remove_file(&rt, "unpacked/OEMX1.aml")?;
    let there = "unpacked/OEMX.aml: the file is there, and stays as it is\n";
    ends(&rt, &words, 1, &[lines[1]], &[there])?;
    same(&fs::read(&rt, "unpacked/OEMX.aml")?, b"kept")?;
    same(&fs::read(&rt, "unpacked/OEMX1.aml")?, &TABLE)
}

// A folder that can't be made has a line, and so have bytes that are neither a dump nor an image.
#[test]
fn not_unpacked(rt: HostRuntime) -> Result<(), Fail> {
    write(&rt, "other", DUMP.as_bytes())?;
    let line = "other/tables: Not a directory (os error 20)\n";
    ends(&rt, &["unpack", "other", "other/tables"], 1, &[], &[line])?;
    write(&rt, "plain", &TABLE)?;
    let line = "plain: no valid RSDP at a multiple of 16 bytes\n";
    ends(&rt, &["unpack", "plain", "nowhere"], 1, &[], &[line])
}

// What GNU cpio makes of the folders and of a file with the bytes of `TABLE`, but for the zeros at the end.
const PARTS: [&[u8]; 11] = [
    b"07070100000000000041ED0000000000000000000000030000000000000000000000000000000000000000000000000000000700000000",
    b"kernel\0\0\0\0",
    b"07070100000001000041ED0000000000000000000000030000000000000000000000000000000000000000000000000000001000000000",
    b"kernel/firmware\0\0\0",
    b"07070100000002000041ED0000000000000000000000020000000000000000000000000000000000000000000000000000001500000000",
    b"kernel/firmware/acpi\0\0",
    b"07070100000003000081A40000000000000000000000010000000000000024000000000000000000000000000000000000001E00000000",
    b"kernel/firmware/acpi/OEMX.aml\0",
    &TABLE,
    b"07070100000000000000000000000000000000000000010000000000000000000000000000000000000000000000000000000B00000000",
    b"TRAILER!!!\0\0\0\0",
];

// Fails unless a file is the archive of a folder with one table.
fn has_archive(rt: &HostRuntime, file: &str) -> Result<(), Fail> {
    let mut wanted = Vec::new(rt.alloc());
    for part in &PARTS {
        wanted.extend_from_slice(*part)?;
    }
    wanted.resize(1024, 0)?;
    same(&fs::read(rt, file)?, &wanted)
}

// The archive of a folder with one table.
#[test]
fn archived(rt: HostRuntime) -> Result<(), Fail> {
    fs::create_dir(&rt, "archived")?;
    write(&rt, "archived/OEMX.aml", &TABLE)?;
    ends(&rt, &["cpio", "archived", "archive"], 0, &[], &[])?;
    has_archive(&rt, "archive")
}

// A FACS and an RSDP aren't in the archive. Each has a line.
#[test]
fn left_out(rt: HostRuntime) -> Result<(), Fail> {
    fs::create_dir(&rt, "taken")?;
    write(&rt, "taken/FACS.aml", b"FACS")?;
    write(&rt, "taken/OEMX.aml", &TABLE)?;
    write(&rt, "taken/RSDP.aml", b"RSD PTR ")?;
    let lines = [
        "taken/FACS.aml: note: left out, as Linux takes no RSDP and no FACS from an initrd\n",
        "taken/RSDP.aml: note: left out, as Linux takes no RSDP and no FACS from an initrd\n",
    ];
    ends(&rt, &["cpio", "taken", "some"], 0, &[], &lines)?;
    has_archive(&rt, "some")
}

// A file that is no table is named, after those that are left out, and no archive is written.
#[test]
fn not_archived(rt: HostRuntime) -> Result<(), Fail> {
    fs::create_dir(&rt, "mixed")?;
    write(&rt, "mixed/FACS.aml", b"FACS")?;
    write(&rt, "mixed/OEMX.aml", &TABLE)?;
    write(&rt, "mixed/short", &TABLE[..9])?;
    write(&rt, "old_archive", b"kept")?;
    let lines = [
        "mixed/FACS.aml: note: left out, as Linux takes no RSDP and no FACS from an initrd\n",
        "mixed/short: at 9: a table has at least the 36 bytes of the standard header\n",
    ];
    ends(&rt, &["cpio", "mixed", "old_archive"], 1, &[], &lines)?;
    same(&fs::read(&rt, "old_archive")?, b"kept")?;
    fs::create_dir(&rt, "headless")?;
    write(&rt, "headless/S3PT.aml", b"S3PT\x08\0\0\0")?;
    let line = "headless/S3PT.aml: at 0: an S3PT has no standard header\n";
    ends(&rt, &["cpio", "headless", "old_archive"], 1, &[], &[line])
}
