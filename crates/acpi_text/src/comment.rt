//! Comments: lines that have no bytes. A function whose name begins with `push` adds to a text.

ghost use Rattle.std.specs.Prelude.{◌≡◌, ◌∷◌, [], ◌++◌, OnOk, string_bytes, codes};
ghost use Rattle.acpi_text.specs.Comment.{comment};

use std::alloc::AllocError;

/// Adds lines as comments: each after two slashes and a space. It ends the last line if it isn't ended.
pub fn push_comment(lines: &str, text: &mut String) -> Result<(), AllocError>
    ensures { OnOk result (string_bytes text.new ≡ string_bytes text.old ++ comment lines.now) }
{
    let mut rest = lines;
    'lines: while let Some((line, more)) = rest.split_once('\n') {
        push_line(line, text)?;
        rest = more;
    }
    if rest.is_empty() {
        return Ok(());
    }
    push_line(rest, text)
}

// Adds one line as a comment.
fn push_line(line: &str, text: &mut String) -> Result<(), AllocError>
    ensures { OnOk result (string_bytes text.new ≡ string_bytes text.old ++ (codes "// " ++ (line.now ++ 10 ∷ []))) }
{
    text.push_str("// ")?;
    text.push_str(line)?;
    text.push_str("\n")
}
