//! Texts of ASL that are made into definition blocks.

ghost use Rattle.std.specs.Prelude.{◌≡◌, IfOk, OnOk};
ghost use Rattle.std.specs.Io.KnownBytes.{Appends};
ghost use Rattle.std.specs.Option.{option_map};
ghost use Rattle.acpi_compile.specs.Compiled.{is_asl};
ghost use Rattle.acpitool_program.specs.Compiling.{asl_line, doubt_lines, IsBlockJudged, CompiledOrNot};

use crate::complaint::complain;
use crate::held::tell_held;
use acpi_compile::block::compile;
use acpi_compile::fault::{AslError, AslFault};
use std::alloc::{AllocError, Global};
use std::io;
use std::io::Write;

// Prints what is wrong with a text, and where.
fn tell<E: Write>(
    alloc: Global,
    name: &str,
    text: &[u8],
    fault: &AslFault,
    err: &mut E,
) -> io::Result<()>
    ensures { OnOk result (Appends (E.contents err.old) (E.contents err.new)
        (asl_line name.now text.now fault.now.at fault.now.why)) }
{
    let why = fault.explain(alloc, text)?;
    complain(alloc, name, &why, err)
}

// Prints a line for each doubt about a text.
fn tell_doubts<E: Write>(
    alloc: Global,
    name: &str,
    text: &[u8],
    doubts: &[AslFault],
    err: &mut E,
) -> io::Result<()>
    ensures { OnOk result (Appends (E.contents err.old) (E.contents err.new) (doubt_lines name.now text.now doubts.now)) }
{
    'doubts: for doubt in doubts {
        tell(alloc, name, text, doubt, err)?;
    }
    Ok(())
}

// Prints the doubts about a text, and returns whether its block is to be written: without force only if there are none.
fn judge<E: Write>(
    alloc: Global,
    force: bool,
    name: &str,
    text: &[u8],
    doubts: &[AslFault],
    err: &mut E,
) -> io::Result<bool>
    ensures { IfOk result (IsBlockJudged force name.now text.now (E.contents err.old) (E.contents err.new)) }
{
    if doubts.is_empty() {
        return Ok(true);
    }
    tell_doubts(alloc, name, text, doubts, err)?;
    if force {
        return Ok(true);
    }
    tell_held(name, err)?;
    Ok(false)
}

/// Makes a text of ASL into a definition block, and returns the block's bytes if they are to be written. A line on `err` says of
/// each thing that compilers refuse in the text what it is: such a block is only written by force. Or a line says why the text
/// isn't made into a block. An error is that of `err`, or memory ran out.
pub fn compile_text<E: Write>(
    alloc: Global,
    force: bool,
    name: &str,
    text: &[u8],
    err: &mut E,
) -> io::Result<Option<Vec<u8>>>
    ensures { IfOk result (λ block. CompiledOrNot force name.now text.now (option_map (λ bytes. bytes.items) block)
        (E.contents err.old) (E.contents err.new)) }
{
    match compile(alloc, text) {
        Ok(made) => {
            if judge(alloc, force, name, text, &made.doubts, err)? {
                Ok(Some(made.bytes))
            } else {
                Ok(None)
            }
        }
        Err(AslError::Memory) => Err(io::Error::from(AllocError)),
        Err(AslError::Fault(wrong)) => {
            tell(alloc, name, text, &wrong, err)?;
            Ok(None)
        }
    }
}
