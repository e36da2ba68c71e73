//! Runs of the program: the status and the printed texts. Tests run in a new folder, so their files have short names.

use crate::words::owned;
use acpitool_program::program::run;
use std::fs;
use std::test::Fail;
use test_support::{equal, same};

/// A header without structures, of a signature that isn't known.
pub const TABLE: [u8; 36] =
    *b"OEMX\x24\x00\x00\x00\x01\x8dFOOBARCAFEDEAD\x01\x00\x00\x00RVAT\x00\x00\x00\x01";

/// The text of `TABLE`.
pub const TEXT: &str = "\
Unknown table
  0 Signature                           : 4f 45 4d 58  // \"OEMX\"
  4 Length                              : 00000024  // 36
  8 Revision                            : 01
  9 Checksum                            : 8d
  10 OEM ID                             : 46 4f 4f 42 41 52  // \"FOOBAR\"
  16 OEM Table ID                       : 43 41 46 45 44 45 41 44  // \"CAFEDEAD\"
  24 OEM Revision                       : 00000001
  28 Creator ID                         : 52 56 41 54  // \"RVAT\"
  32 Creator Revision                   : 01000000
";

/// Writes a file.
pub fn write(rt: &HostRuntime, name: &str, bytes: &[u8]) -> Result<(), Fail> {
    fs::write(rt, name, bytes)?;
    Ok(())
}

/// Fails unless a run on the words has this status and prints these texts, each in pieces.
pub fn ends(
    rt: &HostRuntime,
    words: &[&str],
    status: u8,
    out: &[&str],
    err: &[&str],
) -> Result<(), Fail> {
    let mut printed = Vec::new(rt.alloc());
    let mut told = Vec::new(rt.alloc());
    let words = owned(rt, words)?;
    let result = run(rt, rt.alloc(), &words, &mut printed, &mut told)?;
    same(&printed, out.concat(rt.alloc())?.as_bytes())?;
    same(&told, err.concat(rt.alloc())?.as_bytes())?;
    equal(&result, &status)
}

/// Fails unless a run on each of these words has status 2, and prints its line between two texts.
pub fn have_lines(
    rt: &HostRuntime,
    before: &str,
    after: &str,
    all: &[(&[&str], &str)],
) -> Result<(), Fail> {
    for (words, line) in all {
        ends(rt, *words, 2, &[], &[before, *line, after])?;
    }
    Ok(())
}
