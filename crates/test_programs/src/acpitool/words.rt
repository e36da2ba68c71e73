//! Words without a file: those that ask for something, and those that are wrong.

use crate::acpitool::program::{ends, have_lines};
use std::test::Fail;

// What is printed after the line of a wrong word.
const USAGE: &str = "\
usage: acpitool show [--no-offsets|--bytes] FILE .. [NAME=N ..] | show --json FILE .. | check [--json] FILE .. \
| diff FILE FILE | disassemble FILE .. [NAME=N ..] | names [--json] FILE .. [NAME=N ..] | image [--json] FILE [BASE] \
| make [--force] TEXT FILE | repair FILE OUT | template SIGNATURE | unpack FILE FOLDER [BASE] | cpio FOLDER FILE \
| lay [--rsdp ADDRESS] FOLDER FILE BASE | loader FOLDER OUT | tree [--dot] FILE | --help | --version
";

// The template of a definition block.
const TEMPLATE: &str = "\
Secondary System Description Table (SSDT)
  Signature: \"SSDT\"
  Length: ????????
  Revision: 00
  Checksum: ??
  OEM ID: 00 00 00 00 00 00
  OEM Table ID: 00 00 00 00 00 00 00 00
  OEM Revision: 00000000
  Creator ID: 00 00 00 00
  Creator Revision: 00000000
";

#[test]
fn version(rt: HostRuntime) -> Result<(), Fail> {
    ends(&rt, &["--version"], 0, &["acpitool 0.1.0\n"], &[])?;
    ends(&rt, &["--version", "show"], 0, &["acpitool 0.1.0\n"], &[])
}

#[test]
fn template(rt: HostRuntime) -> Result<(), Fail> {
    ends(&rt, &["template", "SSDT"], 0, &[TEMPLATE], &[])?;
    let line = "acpitool: no table has the signature OEMX\n";
    ends(&rt, &["template", "OEMX"], 1, &[], &[line])
}

#[test]
fn wrong_commands(rt: HostRuntime) -> Result<(), Fail> {
    have_lines(
        &rt,
        "acpitool: ",
        USAGE,
        &[
            (&[], "no command\n"),
            (&["shows", "x"], "unknown word shows\n"),
            (&["", "x"], "unknown word \n"),
            (&["-H"], "unknown word -H\n"),
            (&["show"], "no file to show\n"),
            (&["show", "MTHD=2"], "no file to show\n"),
            (&["show", "--json"], "no file to show\n"),
            (&["show", "--no-offsets"], "no file to show\n"),
            (&["show", "--no-offsets", "MTHD=2"], "no file to show\n"),
            (&["show", "--no-offset", "x"], "unknown word --no-offset\n"),
            (&["show", "--bytes"], "no file to show\n"),
            (&["check", "--bytes", "x"], "unknown word --bytes\n"),
            (
                &["check", "--no-offsets", "x"],
                "unknown word --no-offsets\n",
            ),
            (&["check", "--json"], "no file to check\n"),
            (&["diff", "--json", "x"], "unknown word --json\n"),
            (&["check"], "no file to check\n"),
            (&["image"], "no file with an image\n"),
            (&["image", "--json"], "no file with an image\n"),
            (&["disassemble"], "no file with a definition block\n"),
            (&["names"], "no file with a definition block\n"),
            (&["names", "--json"], "no file with a definition block\n"),
            (
                &["disassemble", "FOO_=1", "a"],
                "no file with a definition block\n",
            ),
            (
                &["names", "FOO_=1", "a"],
                "no file with a definition block\n",
            ),
            (&["unpack"], "no file to unpack\n"),
            (&["unpack", "x"], "no folder for the files\n"),
            (
                &["unpack", "x", "y", "z"],
                "not an address in hexadecimal: z\n",
            ),
            (&["unpack", "x", "y", "0", "z"], "unknown word z\n"),
            (&["cpio"], "no folder with tables\n"),
            (&["cpio", "x"], "no file for the archive\n"),
            (&["cpio", "x", "y", "z"], "unknown word z\n"),
            (&["tree"], "no file to draw\n"),
            (&["tree", "--dot"], "no file to draw\n"),
            (&["tree", "x", "y"], "unknown word y\n"),
            (&["loader"], "no folder with tables\n"),
            (&["loader", "x"], "no folder for the files\n"),
            (&["loader", "x", "y", "z"], "unknown word z\n"),
            (
                &["disassemble", "x", "MTHD=1", "y"],
                "not NAME=N with names of four characters and N from 0 to 7: y\n",
            ),
        ],
    )
}

// An option that stands right after its command is the only one.
#[test]
fn wrong_places(rt: HostRuntime) -> Result<(), Fail> {
    have_lines(
        &rt,
        "acpitool: at most one option, right after the command: ",
        USAGE,
        &[
            (&["show", "x", "--json"], "--json\n"),
            (&["show", "x", "--no-offsets"], "--no-offsets\n"),
            (&["show", "--json", "--json"], "--json\n"),
            (&["show", "--json", "--no-offsets", "x"], "--no-offsets\n"),
            (&["show", "--no-offsets", "--json", "x"], "--json\n"),
            (&["show", "--no-offsets", "--bytes", "x"], "--bytes\n"),
            (&["show", "x", "--bytes"], "--bytes\n"),
            (&["check", "x", "--json"], "--json\n"),
            (&["image", "x", "--json"], "--json\n"),
            (&["names", "x", "--json"], "--json\n"),
            (&["tree", "x", "--dot"], "--dot\n"),
            (&["lay", "x", "--rsdp", "e0000", "y", "0"], "--rsdp\n"),
        ],
    )
}

#[test]
fn wrong_images(rt: HostRuntime) -> Result<(), Fail> {
    have_lines(
        &rt,
        "acpitool: ",
        USAGE,
        &[
            (&["lay"], "no folder with tables\n"),
            (&["lay", "x"], "no file for the image\n"),
            (&["lay", "x", "y"], "no address for the image\n"),
            (
                &["lay", "x", "y", "z"],
                "not an address in hexadecimal: z\n",
            ),
            (&["lay", "x", "y", "0", "z"], "unknown word z\n"),
            (&["lay", "--rsdp"], "no address for the RSDP\n"),
            (&["lay", "--rsdp", "e0000"], "no folder with tables\n"),
            (&["lay", "--rsdp", "e0000", "x"], "no file for the image\n"),
            (
                &["lay", "--rsdp", "e0000", "x", "y"],
                "no address for the image\n",
            ),
            (
                &["lay", "--rsdp", "x", "y", "0"],
                "not an address in hexadecimal: x\n",
            ),
            (
                &["lay", "--rsdp", "e0000", "x", "y", "z"],
                "not an address in hexadecimal: z\n",
            ),
            (
                &["lay", "--rsdp", "e0000", "x", "y", "0", "z"],
                "unknown word z\n",
            ),
            (&["diff"], "no files to compare\n"),
            (&["diff", "x"], "no second file to compare\n"),
            (&["diff", "x", "y", "z"], "unknown word z\n"),
        ],
    )
}

#[test]
fn wrong_makes(rt: HostRuntime) -> Result<(), Fail> {
    have_lines(
        &rt,
        "acpitool: ",
        USAGE,
        &[
            (&["make"], "no text to make\n"),
            (&["make", "x"], "no file for the table\n"),
            (&["make", "x", "y", "z"], "unknown word z\n"),
            (&["make", "x", "--all"], "unknown word --all\n"),
            (&["make", "--force"], "no text to make\n"),
            (&["repair"], "no file to repair\n"),
            (&["repair", "x"], "no file for the table\n"),
            (&["repair", "x", "y", "z"], "unknown word z\n"),
            (&["make", "--force", "x"], "no file for the table\n"),
            (&["make", "x", "--force"], "no file for the table\n"),
            (&["make", "x", "--force", "y", "z"], "unknown word z\n"),
            (&["--force", "make"], "unknown word --force\n"),
        ],
    )
}

#[test]
fn wrong_templates(rt: HostRuntime) -> Result<(), Fail> {
    have_lines(
        &rt,
        "acpitool: ",
        USAGE,
        &[
            (&["template"], "no signature\n"),
            (&["template", "APIC", "x"], "unknown word x\n"),
            (
                &["template", "MADT1"],
                "not a signature of four characters: MADT1\n",
            ),
        ],
    )
}
