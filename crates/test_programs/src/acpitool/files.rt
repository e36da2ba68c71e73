//! Files and folders that are shown, files that can't be read, and files that aren't written.

use crate::acpitool::program::{TABLE, TEXT, ends, have_lines, write};
use crate::words::owned;
use acpitool_program::program::run;
use std::fs;
use std::os::unix::fs::symlink;
use std::test::Fail;
use test_support::{equal, same};

const MISSING: &str = "/=1: No such file or directory (os error 2)\n";

// A file that is missing, for each command. A word with `=` and a slash is a file.
#[test]
fn missing(rt: HostRuntime) -> Result<(), Fail> {
    have_lines(
        &rt,
        "",
        "",
        &[
            (&["show", "/=1"], MISSING),
            (&["image", "/=1"], MISSING),
            (&["make", "/=1", "/=2"], MISSING),
        ],
    )
}

// A file of a folder that isn't a table has a line. In which order files are shown is compared for the folder `data` of
// `acpitool`.
#[test]
fn folder(rt: HostRuntime) -> Result<(), Fail> {
    fs::create_dir(&rt, "folder")?;
    write(&rt, "folder/c", &TABLE[..9])?;
    let line = "folder/c: at 9: a table has at least the 36 bytes of the standard header\n";
    ends(&rt, &["show", "folder"], 1, &[], &[line])
}

// A folder without files has a line, whatever is done with its tables, and nothing is written.
#[test]
fn folder_without_files(rt: HostRuntime) -> Result<(), Fail> {
    fs::create_dir(&rt, "empty")?;
    let line = "empty: no files in this folder\n";
    ends(&rt, &["show", "empty"], 2, &[], &[line])?;
    ends(&rt, &["show", "--json", "empty"], 2, &["[\n]\n"], &[line])?;
    ends(&rt, &["check", "empty"], 2, &[], &[line])?;
    ends(&rt, &["lay", "empty", "empty_image", "0"], 2, &[], &[line])?;
    ends(&rt, &["cpio", "empty", "empty_image"], 2, &[], &[line])?;
    ends(&rt, &["loader", "empty", "empty_image"], 2, &[], &[line])?;
    equal(&fs::metadata(&rt, "empty_image").is_ok(), &false)
}

// A folder in a folder isn't read.
#[test]
fn folder_in_a_folder(rt: HostRuntime) -> Result<(), Fail> {
    fs::create_dir(&rt, "outer")?;
    fs::create_dir(&rt, "outer/a")?;
    let line = "outer: no files in this folder\n";
    ends(&rt, &["show", "outer"], 2, &[], &[line])?;
    write(&rt, "outer/b", &TABLE)?;
    ends(&rt, &["show", "outer"], 0, &["// outer/b\n", TEXT], &[])
}

// A link to nothing is a file that can't be read, and the other files of its folder are shown.
#[test]
fn links_to_nothing(rt: HostRuntime) -> Result<(), Fail> {
    fs::create_dir(&rt, "links")?;
    symlink(&rt, "nothing", "links/a")?;
    write(&rt, "links/b", &TABLE)?;
    let line = "links/a: No such file or directory (os error 2)\n";
    ends(&rt, &["show", "links"], 2, &["// links/b\n", TEXT], &[line])
}

// Several files are shown one after another, each with its name, also if it is named twice. The greatest status counts: that of a
// missing file is 2, and that of a file which isn't a table is 1.
#[test]
fn several(rt: HostRuntime) -> Result<(), Fail> {
    write(&rt, "short", &TABLE[..9])?;
    write(&rt, "shown", &TABLE)?;
    let words = ["show", "/=1", "shown", "short", "shown"];
    let out = ["// shown\n", TEXT, "// shown\n", TEXT];
    let err = [
        MISSING,
        "short: at 9: a table has at least the 36 bytes of the standard header\n",
    ];
    ends(&rt, &words, 2, &out, &err)
}

fn has(rt: &HostRuntime, name: &str, wanted: &[u8]) -> Result<(), Fail> {
    same(&fs::read(rt, name)?, wanted)
}

// A text that isn't one of a table leaves the file as it is.
#[test]
fn not_made(rt: HostRuntime) -> Result<(), Fail> {
    let text = "  Signature: \"OEMX\"\n\n  Length: 0\n";
    write(&rt, "text", text.as_bytes())?;
    write(&rt, "kept", &TABLE)?;
    let line =
        "text: line 3, column 12: expected the second digit of a byte (#5 and 0x5 are the number 5), found the end of the \
line\n";
    ends(&rt, &["make", "text", "kept"], 1, &[], &[line])?;
    has(&rt, "kept", &TABLE)
}

/// A text of a table whose length is wrong.
pub const WRONG: &str =
    "  : \"OEMX\"\n  Length: 0000002c\n  : 01 85 \"FOOBAR\" \"CAFEDEAD\" 00000001 \"RVAT\" 01000000\n";

// What is printed on its number, and that it isn't written.
const NOTE: &str = "wrong: note at 4: Length: 36 would be right\n";

const HELD: &str = "wrong: not written (make --force writes it)\n";

// A table whose numbers are wrong leaves the file as it is.
#[test]
fn held(rt: HostRuntime) -> Result<(), Fail> {
    write(&rt, "wrong", WRONG.as_bytes())?;
    write(&rt, "old", &TABLE)?;
    ends(&rt, &["make", "wrong", "old"], 1, &[], &[NOTE, HELD])?;
    ends(&rt, &["make", "wrong", "-"], 1, &[], &[NOTE, HELD])?;
    has(&rt, "old", &TABLE)
}

// The bytes of this table, as the text states them.
const FORCED: &[u8] = b"OEMX\x2c\0\0\0\x01\x85FOOBARCAFEDEAD\x01\0\0\0RVAT\0\0\0\x01";

// With `--force` it is written, wherever this word is.
#[test]
fn forced(rt: HostRuntime) -> Result<(), Fail> {
    write(&rt, "wrong", WRONG.as_bytes())?;
    ends(&rt, &["make", "--force", "wrong", "first"], 0, &[], &[NOTE])?;
    has(&rt, "first", FORCED)?;
    ends(
        &rt,
        &["make", "wrong", "--force", "second"],
        0,
        &[],
        &[NOTE],
    )?;
    has(&rt, "second", FORCED)?;
    ends(&rt, &["make", "wrong", "third", "--force"], 0, &[], &[NOTE])?;
    has(&rt, "third", FORCED)
}

// A table that can't be written has a line.
#[test]
fn not_written(rt: HostRuntime) -> Result<(), Fail> {
    write(&rt, "whole", TEXT.as_bytes())?;
    let line = "whole/table: Not a directory (os error 20)\n";
    ends(&rt, &["make", "whole", "whole/table"], 1, &[], &[line])
}

// The bytes of a table go to standard output where the file is `-`.
#[test]
fn made_on_output(rt: HostRuntime) -> Result<(), Fail> {
    write(&rt, "source", TEXT.as_bytes())?;
    let mut printed = Vec::new(rt.alloc());
    let mut told = Vec::new(rt.alloc());
    let words = owned(&rt, &["make", "source", "-"])?;
    let status = run(&rt, rt.alloc(), &words, &mut printed, &mut told)?;
    same(&printed, &TABLE)?;
    same(&told, &[])?;
    equal(&status, &0)
}

// A file with the name of the part that is written first stays as it is.
#[test]
fn parts_are_kept(rt: HostRuntime) -> Result<(), Fail> {
    write(&rt, "lines", TEXT.as_bytes())?;
    write(&rt, "table.part", b"part")?;
    let line = "table: table.part exists; remove it if no other run is writing it\n";
    ends(&rt, &["make", "lines", "table"], 1, &[], &[line])?;
    has(&rt, "table.part", b"part")
}

// A table doesn't replace its text, by whatever path, nor by a link.
#[test]
fn texts_are_kept(rt: HostRuntime) -> Result<(), Fail> {
    write(&rt, "same", TEXT.as_bytes())?;
    symlink(&rt, "same", "other")?;
    let line = "same: the table would replace its text\n";
    for file in ["same", "./same", "other"] {
        ends(&rt, &["make", "same", file], 1, &[], &[line])?;
    }
    has(&rt, "same", TEXT.as_bytes())
}

// A link stays a link, and the file that it names takes the table.
#[test]
fn links_are_kept(rt: HostRuntime) -> Result<(), Fail> {
    write(&rt, "form", TEXT.as_bytes())?;
    write(&rt, "target", b"old")?;
    symlink(&rt, "target", "link")?;
    ends(&rt, &["make", "form", "link"], 0, &[], &[])?;
    has(&rt, "target", &TABLE)?;
    let is_link = fs::symlink_metadata(&rt, "link")?.is_symlink();
    equal(&is_link, &true)
}
