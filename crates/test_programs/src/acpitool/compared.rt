//! Tables that are compared.

use crate::acpitool::program::{TABLE, ends, write};
use std::test::Fail;

// The table of another revision.
const LATER: [u8; 36] =
    *b"OEMX\x24\x00\x00\x00\x01\x8cFOOBARCAFEDEAD\x02\x00\x00\x00RVAT\x00\x00\x00\x01";

// Of the same table nothing is printed, and of another the fields that differ.
#[test]
fn fields_differ(rt: HostRuntime) -> Result<(), Fail> {
    write(&rt, "one", &TABLE)?;
    write(&rt, "copy", &TABLE)?;
    write(&rt, "later", &LATER)?;
    ends(&rt, &["diff", "one", "copy"], 0, &[], &[])?;
    ends(&rt, &["diff", "one", "one"], 0, &[], &[])?;
    let lines = [
        "at 9: Checksum: 0x8d, 0x8c\n",
        "at 24: OEM Revision: 0x00000001, 0x00000002\n",
    ];
    ends(&rt, &["diff", "one", "later"], 1, &lines, &[])
}

// A MADT with two local APICs, and one with another between them.
const TWO: &[u8] = b"APIC\x3c\x00\x00\x00\x01\x9eFOOBARCAFEDEAD\x01\x00\x00\x00RVAT\x00\x00\x00\x01\
\x00\x00\xe0\xfe\x01\x00\x00\x00\x00\x08\x00\x00\x01\x00\x00\x00\x00\x08\x01\x01\x01\x00\x00\x00";

const THREE: &[u8] =
    b"APIC\x44\x00\x00\x00\x01\x83FOOBARCAFEDEAD\x01\x00\x00\x00RVAT\x00\x00\x00\x01\
\x00\x00\xe0\xfe\x01\x00\x00\x00\x00\x08\x00\x00\x01\x00\x00\x00\x00\x08\x07\x02\x02\x00\x00\x00\
\x00\x08\x01\x01\x01\x00\x00\x00";

// A structure that only one table has doesn't shift those after it.
#[test]
fn structures_differ(rt: HostRuntime) -> Result<(), Fail> {
    write(&rt, "two", TWO)?;
    write(&rt, "three", THREE)?;
    let lines = [
        "at 4: Length: 0x0000003c, 0x00000044\n",
        "at 9: Checksum: 0x9e, 0x83\n",
        "at 52: Type: none, 0x00\n",
        "at 53: Length: none, 0x08\n",
        "at 54: ACPI Processor UID: none, 0x07\n",
        "at 55: APIC ID: none, 0x02\n",
        "at 56: Flags: none, 0x00000002\n",
    ];
    ends(&rt, &["diff", "two", "three"], 1, &lines, &[])?;
    let back = [
        "at 4: Length: 0x00000044, 0x0000003c\n",
        "at 9: Checksum: 0x83, 0x9e\n",
        "at 52: Type: 0x00, none\n",
        "at 53: Length: 0x08, none\n",
        "at 54: ACPI Processor UID: 0x07, none\n",
        "at 55: APIC ID: 0x02, none\n",
        "at 56: Flags: 0x00000002, none\n",
    ];
    ends(&rt, &["diff", "three", "two"], 1, &back, &[])
}

// Tables of a signature that isn't known, whose last four bytes have no name.
const NAMELESS: &[u8] =
    b"OEMX\x28\x00\x00\x00\x01\x7fFOOBARCAFEDEAD\x01\x00\x00\x00RVAT\x00\x00\x00\x01\x01\x02\x03\x04";

const TURNED: &[u8] =
    b"OEMX\x28\x00\x00\x00\x01\x7fFOOBARCAFEDEAD\x01\x00\x00\x00RVAT\x00\x00\x00\x01\x04\x03\x02\x01";

const LARGER: &[u8] =
    b"OEMX\x28\x00\x00\x00\x01\x7eFOOBARCAFEDEAD\x01\x00\x00\x00RVAT\x00\x00\x00\x01\x01\x02\x03\x05";

// Bytes without a name, and tables with different signatures, have a line.
#[test]
fn others_differ(rt: HostRuntime) -> Result<(), Fail> {
    write(&rt, "nameless", NAMELESS)?;
    write(&rt, "turned", TURNED)?;
    write(&rt, "madt", TWO)?;
    let line = "bytes without a name differ\n";
    ends(&rt, &["diff", "nameless", "turned"], 1, &[line], &[])?;
    write(&rt, "larger", LARGER)?;
    let lines = ["at 9: Checksum: 0x7f, 0x7e\n", line];
    ends(&rt, &["diff", "nameless", "larger"], 1, &lines, &[])?;
    let line = "the signatures differ: OEMX, APIC\n";
    ends(&rt, &["diff", "nameless", "madt"], 1, &[line], &[])
}

// A FACS of 64 bytes, up to its hardware signature at offset 8, and one with another.
const FACS: &[u8] = b"FACS\x40\x00\x00\x00\x01\x02\x03\x04";

const OTHER_FACS: &[u8] = b"FACS\x40\x00\x00\x00\x01\x02\x03\x05";

// A FACS has a form, too.
#[test]
fn controls_differ(rt: HostRuntime) -> Result<(), Fail> {
    let mut one = Vec::from_slice(rt.alloc(), FACS)?;
    one.resize(64, 0)?;
    write(&rt, "control", &one)?;
    let mut other = Vec::from_slice(rt.alloc(), OTHER_FACS)?;
    other.resize(64, 0)?;
    write(&rt, "other_control", &other)?;
    let line = "at 8: Hardware Signature: 0x04030201, 0x05030201\n";
    ends(&rt, &["diff", "control", "other_control"], 1, &[line], &[])
}

// A file that is no table has a line, and so has one that can't be read.
#[test]
fn not_compared(rt: HostRuntime) -> Result<(), Fail> {
    write(&rt, "sound", &TABLE)?;
    write(&rt, "cut", &TABLE[..9])?;
    let line = "cut: at 9: a table has at least the 36 bytes of the standard header\n";
    ends(&rt, &["diff", "cut", "sound"], 1, &[], &[line])?;
    ends(&rt, &["diff", "sound", "cut"], 1, &[], &[line])?;
    let line = "nothing: No such file or directory (os error 2)\n";
    ends(&rt, &["diff", "nothing", "cut"], 2, &[], &[line])?;
    ends(&rt, &["diff", "cut", "nothing"], 2, &[], &[line])
}
