//! Definition blocks that call the methods of further ones.

use crate::acpitool::program::{TABLE, ends, write};
use std::test::Fail;

// A block whose method CALL returns \_SB.GETX (One, 0x02).
const CALLER: &[u8] = b"SSDT9\x00\x00\x00\x02hFOOBARCAFEDEAD\x01\x00\x00\x00RVAT\x00\x00\x00\x01\
\x14\x14CALL\x00\xa4\x5c._SB_GETX\x01\x0a\x02";

// A block with the method \_SB.GETX of two arguments.
const OWNER: &[u8] = b"DSDT4\x00\x00\x00\x02VFOOBARCAFEDEAD\x01\x00\x00\x00RVAT\x00\x00\x00\x01\
\x10\x0f\x5c_SB_\x14\x08GETX\x02\xa4h";

// The text of the block that calls, around the External statement for GETX and the statements of its method.
const BEFORE: &str = "\
/*= Creator \"RVAT\", 0x01000000 */
DefinitionBlock (\"\", \"SSDT\", 2, \"FOOBAR\", \"CAFEDEAD\", 0x00000001)
{
    /*= Absent */ External (\\_SB.GETX, ";

const BETWEEN: &str = ")
    Method (CALL, 0, NotSerialized)
    {
";

const AFTER: &str = "    }
}
";

// A further block gives the number of arguments. Without it the arguments are statements. A stated number comes first.
#[test]
fn further_blocks(rt: HostRuntime) -> Result<(), Fail> {
    write(&rt, "caller", CALLER)?;
    write(&rt, "owner", OWNER)?;
    write(&rt, "table", &TABLE)?;
    let two = "MethodObj, UnknownObj, {UnknownObj, UnknownObj}";
    let one = "MethodObj, UnknownObj, {UnknownObj}";
    let alone = "        Return (\\_SB.GETX)\n        One\n        0x02\n";
    let called = "        Return (\\_SB.GETX (One, 0x02))\n";
    let stated = "        Return (\\_SB.GETX (One))\n        0x02\n";
    ends(
        &rt,
        &["disassemble", "caller"],
        0,
        &[BEFORE, "UnknownObj", BETWEEN, alone, AFTER],
        &[],
    )?;
    ends(
        &rt,
        &["disassemble", "caller", "owner"],
        0,
        &[BEFORE, two, BETWEEN, called, AFTER],
        &[],
    )?;
    ends(
        &rt,
        &["disassemble", "caller", "owner", "caller"],
        0,
        &[BEFORE, two, BETWEEN, called, AFTER],
        &[],
    )?;
    ends(
        &rt,
        &["disassemble", "caller", "owner", "\\_SB_.GETX=1"],
        0,
        &[BEFORE, one, BETWEEN, stated, AFTER],
        &[],
    )?;
    ends(
        &rt,
        &["names", "caller", "owner"],
        0,
        &["CALL Method, arguments: 0\n"],
        &[],
    )
}

// A further file that has no definition block: nothing is printed but its line.
#[test]
fn further_files_refused(rt: HostRuntime) -> Result<(), Fail> {
    write(&rt, "caller", CALLER)?;
    write(&rt, "table", &TABLE)?;
    ends(
        &rt,
        &["disassemble", "caller", "table"],
        1,
        &[],
        &["table: at 0: not the signature of a definition block\n"],
    )?;
    ends(
        &rt,
        &["disassemble", "caller", "missing", "table"],
        2,
        &[],
        &["missing: No such file or directory (os error 2)\n"],
    )
}
