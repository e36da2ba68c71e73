//! Lines on what isn't shown, read or written.

ghost use Rattle.std.specs.Prelude.{◌≡◌, ℕ, List, [], ◌∷◌, ◌++◌, codes, IfSome, OnOk};
ghost use Rattle.std.specs.Io.KnownBytes.{Appends};

use std::alloc::Global;
use std::fmt::Display;
use std::io;
use std::io::Write;

/// Prints a line with a name and a fault.
pub fn complain<F: Display, E: Write>(
    alloc: Global,
    name: &str,
    fault: &F,
    err: &mut E,
) -> io::Result<()>
    ensures { OnOk result ((why : List ℕ) × IfSome (F.output fault.now) (λ text. why ≡ text)
        × Appends (E.contents err.old) (E.contents err.new) (name.now ++ codes ": " ++ why ++ 10 ∷ [])) }
{
    let why = format!(in alloc; "{fault}")?;
    writeln!(err, "{name}: {why}")
}
