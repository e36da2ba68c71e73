//! Tables that aren't written without force.

ghost use Rattle.std.specs.Prelude.{OnOk};
ghost use Rattle.std.specs.Io.KnownBytes.{Appends};
ghost use Rattle.acpitool_program.specs.Held.{held_line};

use std::io;
use std::io::Write;

/// Prints that a table isn't written.
pub fn tell_held<E: Write>(name: &str, err: &mut E) -> io::Result<()>
    ensures { OnOk result (Appends (E.contents err.old) (E.contents err.new) (held_line name.now)) }
{
    writeln!(err, "{name}: not written (make --force writes it)")
}
