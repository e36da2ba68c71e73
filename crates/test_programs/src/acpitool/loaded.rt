//! The files by which QEMU hands the tables of a folder to firmware.

use crate::acpitool::laid::{DSDT, FACS, FADT, OEM1, REDUCED, joined, write_padded};
use crate::acpitool::program::{TABLE, ends, write};
use std::fs;
use std::test::Fail;
use test_support::{equal, same};

// The XSDT of the folder `loaded`: it has offsets of the FADT and of the table, and a checksum of 0. Its RSDP has the offset of
// the XSDT.
const XSDT: [u8; 52] =
    *b"XSDT\x34\x00\x00\x00\x01\x00FOOBARCAFEDEAD\x01\x00\x00\x00RVAT\x00\x00\x00\x01\
\x68\x00\x00\x00\x00\x00\x00\x00\x00\x01\x00\x00\x00\x00\x00\x00";

const RSDP: [u8; 36] =
    *b"RSD PTR \x00FOOBAR\x02\x00\x00\x00\x00\x24\x00\x00\x00\x28\x01\x00\x00\x00\x00\x00\x00\x00\x00\x00\x00";

// Its tables, each at its offset; the other bytes are 0. X_FIRMWARE_CTRL at 0xec is 0, the offset of the FACS.
const TABLES: [(usize, &[u8]); 7] = [
    (0, &FACS),
    (0x40, &DSDT),
    (
        0x68,
        b"FACP\x94\x00\x00\x00\x06\x00FOOBARCAFEDEAD\x01\x00\x00\x00RVAT\x00\x00\x00\x01",
    ),
    (0xf4, b"\x40\x00\x00\x00\x00\x00\x00\x00"),
    (0x100, &TABLE),
    (0x128, &XSDT),
    (0x160, &[]),
];

// Its commands, of 128 bytes each: the files at offsets 4 and 60, and the numbers after them.
const SCRIPT: [(usize, &[u8]); 28] = [
    (0, b"\x01\x00\x00\x00etc/acpi/tables"),
    (60, b"\x40\x00\x00\x00\x01"),
    (128, b"\x01\x00\x00\x00etc/acpi/rsdp"),
    (188, b"\x10\x00\x00\x00\x02"),
    (256, b"\x02\x00\x00\x00etc/acpi/tables"),
    (316, b"etc/acpi/tables"),
    (372, b"\xec\x00\x00\x00\x08"),
    (384, b"\x02\x00\x00\x00etc/acpi/tables"),
    (444, b"etc/acpi/tables"),
    (500, b"\xf4\x00\x00\x00\x08"),
    (512, b"\x03\x00\x00\x00etc/acpi/tables"),
    (572, b"\x71\x00\x00\x00\x68\x00\x00\x00\x94\x00\x00\x00"),
    (640, b"\x02\x00\x00\x00etc/acpi/tables"),
    (700, b"etc/acpi/tables"),
    (756, b"\x4c\x01\x00\x00\x08"),
    (768, b"\x02\x00\x00\x00etc/acpi/tables"),
    (828, b"etc/acpi/tables"),
    (884, b"\x54\x01\x00\x00\x08"),
    (896, b"\x03\x00\x00\x00etc/acpi/tables"),
    (956, b"\x31\x01\x00\x00\x28\x01\x00\x00\x34\x00\x00\x00"),
    (1024, b"\x02\x00\x00\x00etc/acpi/rsdp"),
    (1084, b"etc/acpi/tables"),
    (1140, b"\x18\x00\x00\x00\x08"),
    (1152, b"\x03\x00\x00\x00etc/acpi/rsdp"),
    (1212, b"\x08\x00\x00\x00\x00\x00\x00\x00\x14\x00\x00\x00"),
    (1280, b"\x03\x00\x00\x00etc/acpi/rsdp"),
    (1340, b"\x20\x00\x00\x00\x00\x00\x00\x00\x24\x00\x00\x00"),
    (1408, &[]),
];

// Makes a folder with a FACS, a DSDT, a FADT and another table.
fn make_loaded(rt: &HostRuntime, folder: &str) -> Result<(), Fail> {
    fs::create_dir(rt, folder)?;
    let path = format!(in rt.alloc(); "{folder}/dsdt")?;
    write(rt, path.as_str(), &DSDT)?;
    let path = format!(in rt.alloc(); "{folder}/table")?;
    write(rt, path.as_str(), &TABLE)?;
    let path = format!(in rt.alloc(); "{folder}/fadt")?;
    write_padded(rt, path.as_str(), &FADT, 148)?;
    let path = format!(in rt.alloc(); "{folder}/facs")?;
    write_padded(rt, path.as_str(), &FACS, 64)
}

// The three files of a folder. Their folders are made.
#[test]
fn loaded(rt: HostRuntime) -> Result<(), Fail> {
    make_loaded(&rt, "loaded")?;
    let lines = [
        "made/etc/acpi/tables length 352\n",
        "made/etc/acpi/rsdp length 36\n",
        "made/etc/table-loader length 1408\n",
    ];
    ends(&rt, &["loader", "loaded", "made"], 0, &lines, &[])?;
    let wanted = joined(&rt, &TABLES)?;
    same(&fs::read(&rt, "made/etc/acpi/tables")?, &wanted)?;
    same(&fs::read(&rt, "made/etc/acpi/rsdp")?, &RSDP)?;
    let wanted = joined(&rt, &SCRIPT)?;
    same(&fs::read(&rt, "made/etc/table-loader")?, &wanted)
}

// Fails unless these bytes are at an offset.
fn has(bytes: &[u8], at: usize, wanted: &[u8]) -> Result<(), Fail> {
    let (_, rest) = bytes.split_at(at.min(bytes.len()));
    equal(&rest.starts_with(wanted), &true)
}

// Without a FACS there is no pointer to one. Here the FADT is at 0x28, the other tables at 0xc0 and 0xe8, and the XSDT of three
// entries at 0x110.
#[test]
fn reduced(rt: HostRuntime) -> Result<(), Fail> {
    fs::create_dir(&rt, "small")?;
    write(&rt, "small/a", &OEM1)?;
    write(&rt, "small/b", &TABLE)?;
    write(&rt, "small/c", &DSDT)?;
    let fadt = joined(&rt, &REDUCED)?;
    write(&rt, "small/d", &fadt)?;
    let lines = [
        "small_made/etc/acpi/tables length 336\n",
        "small_made/etc/acpi/rsdp length 36\n",
        "small_made/etc/table-loader length 1408\n",
    ];
    ends(&rt, &["loader", "small", "small_made"], 0, &lines, &[])?;
    let script = fs::read(&rt, "small_made/etc/table-loader")?;
    // X_DSDT of the FADT at 0x28 + 140, its checksum, and the entries of the XSDT at 0x110 + 36
    let parts: [(usize, &[u8]); 6] = [
        (372, b"\xb4\x00\x00\x00\x08"),
        (444, b"\x31\x00\x00\x00\x28\x00\x00\x00\x94\x00\x00\x00"),
        (628, b"\x34\x01\x00\x00\x08"),
        (756, b"\x3c\x01\x00\x00\x08"),
        (884, b"\x44\x01\x00\x00\x08"),
        (956, b"\x19\x01\x00\x00\x10\x01\x00\x00\x3c\x00\x00\x00"),
    ];
    for (at, part) in &parts {
        has(&script, *at, part)?;
    }
    Ok(())
}

// A file that is there stays as it is, and no further file is written.
#[test]
fn files_are_kept(rt: HostRuntime) -> Result<(), Fail> {
    make_loaded(&rt, "again")?;
    fs::create_dir(&rt, "old_made")?;
    fs::create_dir(&rt, "old_made/etc")?;
    fs::create_dir(&rt, "old_made/etc/acpi")?;
    write(&rt, "old_made/etc/acpi/rsdp", b"kept")?;
    let line = "old_made/etc/acpi/tables length 352\n";
    let there = "old_made/etc/acpi/rsdp: the file is there, and stays as it is\n";
    ends(&rt, &["loader", "again", "old_made"], 1, &[line], &[there])?;
    same(&fs::read(&rt, "old_made/etc/acpi/rsdp")?, b"kept")?;
    let there = "old_made/etc/acpi/tables: the file is there, and stays as it is\n";
    ends(&rt, &["loader", "again", "old_made"], 1, &[], &[there])?;
    write(&rt, "no", b"kept")?;
    let line = "no: a file, not a folder\n";
    ends(&rt, &["loader", "again", "no"], 1, &[], &[line])
}

// Which tables a folder has to have is as for `lay`, and so is what is refused.
#[test]
fn not_loaded(rt: HostRuntime) -> Result<(), Fail> {
    let words = ["loader", "few", "few_made"];
    let line = "few: No such file or directory (os error 2)\n";
    ends(&rt, &words, 2, &[], &[line])?;
    fs::create_dir(&rt, "few")?;
    write(&rt, "few/dsdt", &DSDT)?;
    ends(&rt, &words, 1, &[], &["few: no FADT\n"])?;
    write(&rt, "few/second", &DSDT)?;
    let line = "few/second: a second table of this signature\n";
    ends(&rt, &words, 1, &[], &[line])?;
    write(&rt, "few/second", &TABLE[..9])?;
    let line = "few/second: at 9: a table has at least the 36 bytes of the standard header\n";
    ends(&rt, &words, 1, &[], &[line])
}
