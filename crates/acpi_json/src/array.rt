//! Objects that stand in a line each, as the elements of an array. A function whose name begins with `push` adds to a text.

ghost use Rattle.std.specs.Prelude.{◌≡◌, ◌==◌, ◌++◌, false, IfOk, OnOk};
ghost use Rattle.acpi_json.specs.Array.{between, unended, with_commas, array};

use std::alloc::{AllocError, Global};

// Adds a comma and the end of a line, if a line ended.
fn push_between(ended: bool, text: &mut Vec<u8>) -> Result<(), AllocError>
    ensures { OnOk result (text.new.items ≡ text.old.items ++ between ended) }
{
    if ended {
        return text.extend_from_slice(b",\n");
    }
    Ok(())
}

// Adds a byte, and what stands before it, and returns whether it ends a line, which isn't added.
fn push_byte(ended: bool, byte: u8, text: &mut Vec<u8>) -> Result<bool, AllocError>
    ensures added { OnOk result (text.new.items ≡ text.old.items ++ (between ended ++ unended byte)) }
    ensures ends { IfOk result (λ ends. ends ≡ (byte == 10)) }
{
    push_between(ended, text)?;
    if byte == b'\n' {
        return Ok(true);
    }
    text.push(byte)?;
    Ok(false)
}

// Adds lines, with a comma at the end of each but the last.
fn push_lines(lines: &[u8], text: &mut Vec<u8>) -> Result<(), AllocError>
    ensures { OnOk result (text.new.items ≡ text.old.items ++ with_commas false lines.now) }
{
    let mut ended = false;
    'bytes: for byte in lines {
        ended = push_byte(ended, *byte, text)?;
    }
    if ended {
        return text.extend_from_slice(b"\n");
    }
    Ok(())
}

/// Returns the array whose elements are lines. The only error is that memory ran out.
pub fn array_of(alloc: Global, lines: &[u8]) -> Result<Vec<u8>, AllocError>
    ensures { IfOk result (λ text. text.items ≡ array lines.now) }
{
    let mut text = Vec::new(alloc);
    text.extend_from_slice(b"[\n")?;
    push_lines(lines, &mut text)?;
    text.extend_from_slice(b"]\n")?;
    Ok(text)
}
