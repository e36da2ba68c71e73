//! Tables of several files that are checked as those of one machine.

use crate::acpitool::program::{ends, write};
use std::fs;
use std::test::Fail;

// A MADT with a local APIC, whose APIC ID is 0.
const MADT: &[u8] = b"APIC4\x00\x00\x00\x05\xadFOOBARCAFEDEAD\x01\x00\x00\x00RVAT\x00\x00\x00\x01\
\x00\x00\xe0\xfe\x01\x00\x00\x00\x00\x08\x00\x00\x01\x00\x00\x00";

// A SRAT with an affinity structure for the APIC ID 1.
const SRAT: &[u8] =
    b"SRAT\x40\x00\x00\x00\x03\x5bFOOBARCAFEDEAD\x01\x00\x00\x00RVAT\x00\x00\x00\x01\
\x01\x00\x00\x00\x00\x00\x00\x00\x00\x00\x00\x00\x00\x10\x00\x01\x01\x00\x00\x00\x00\x00\x00\x00\x00\x00\x00\x00";

// The tables of a folder, or of several words, are compared with each other. A table alone breaks no such rule.
#[test]
fn machine_of_files(rt: HostRuntime) -> Result<(), Fail> {
    fs::create_dir(&rt, "machine")?;
    write(&rt, "machine/madt", MADT)?;
    write(&rt, "machine/srat", SRAT)?;
    let line =
        "machine/srat: SRAT: error at 51: APIC ID: 0x01 isn't any APIC ID, Local SAPIC ID, X2APIC ID or Physical Processor ID \
of APIC (ACPI 6.5, 5.2.16.1) [defined]\n";
    ends(&rt, &["check", "machine"], 1, &[line], &[])?;
    ends(
        &rt,
        &["check", "machine/srat", "machine/madt"],
        1,
        &[line],
        &[],
    )?;
    ends(&rt, &["check", "machine/srat"], 0, &[], &[])
}
