//! Tables of several files as JSON.

use crate::acpitool::program::{TABLE, ends, write};
use std::test::Fail;

// What follows the name of the file in the object of `TABLE`.
const REST: &str = "\
    \",\"signature\":\"OEMX\",\"length\":36,\"name\":\"Unknown table\",\"fields\":[\
    {\"offset\":0,\"width\":4,\"name\":\"Signature\",\"value\":\"OEMX\"},\
    {\"offset\":4,\"width\":4,\"name\":\"Length\",\"value\":36},\
    {\"offset\":8,\"width\":1,\"name\":\"Revision\",\"value\":1},\
    {\"offset\":9,\"width\":1,\"name\":\"Checksum\",\"value\":141},\
    {\"offset\":10,\"width\":6,\"name\":\"OEM ID\",\"value\":\"FOOBAR\"},\
    {\"offset\":16,\"width\":8,\"name\":\"OEM Table ID\",\"value\":\"CAFEDEAD\"},\
    {\"offset\":24,\"width\":4,\"name\":\"OEM Revision\",\"value\":1},\
    {\"offset\":28,\"width\":4,\"name\":\"Creator ID\",\"value\":\"RVAT\"},\
    {\"offset\":32,\"width\":4,\"name\":\"Creator Revision\",\"value\":16777216}\
    ],\"structures\":[],\"bytes\":\"4f454d5824000000018d464f4f4241524341464544454144010000005256415400000001\"}";

// Each table has an object, also one of a folder, or of a file that is named twice. A name may have characters that aren't ASCII,
// and characters that have a meaning in a string. A file that can't be read has no object, and a line on standard error.
#[test]
fn several(rt: HostRuntime) -> Result<(), Fail> {
    write(&rt, "é\"", &TABLE)?;
    write(&rt, "short", &TABLE[..9])?;
    let words = ["show", "--json", "é\"", "/=1", "short", "é\""];
    let object = "{\"file\":\"é\\\"";
    let out = ["[\n", object, REST, ",\n", object, REST, "\n]\n"];
    let err = [
        "/=1: No such file or directory (os error 2)\n",
        "short: at 9: a table has at least the 36 bytes of the standard header\n",
    ];
    ends(&rt, &words, 2, &out, &err)
}

// Without a table the list is empty.
#[test]
fn none(rt: HostRuntime) -> Result<(), Fail> {
    let line = "/=1: No such file or directory (os error 2)\n";
    ends(&rt, &["show", "--json", "/=1"], 2, &["[\n]\n"], &[line])
}
