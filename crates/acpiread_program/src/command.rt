//! The command line.

ghost use Rattle.std.specs.Prelude.{map, string_bytes, IfOk, IfErr};
ghost use Rattle.acpiread_program.specs.Command.{Asks, IsNoCommand};
ghost use Rattle.acpiread_program.specs.Fault.{IsUsageWhere};

use crate::fault::Fault;
use acpi_input::stated::arities;
use acpi_term::name_string::Arities;
use std::alloc::Global;

/// The command that the user gives.
#[derive(Debug, Drop)]
pub enum Command<'a> {
    /// `table FILE`: the report of the table in a file.
    Table(&'a str),
    /// `aml FILE [NAME=N ..]`: the report of the terms that a file's bytes spell, if names take these numbers of arguments.
    Aml(&'a str, Arities),
    /// `dsdt FILE [NAME=N ..]`: the report of the table in a file, and of the terms after its header.
    Dsdt(&'a str, Arities),
}

/// The command of the words after the program's name. The error is `Usage` if they aren't a command, or the one for memory.
pub fn parse(alloc: Global, words: &[String]) -> Result<Command<'_>, Fault>
    ensures ok { IfOk result (λ command. Asks (map (λ word. string_bytes word) words.now) command) }
    ensures err { IfErr result (IsUsageWhere (IsNoCommand (map (λ word. string_bytes word) words.now))) }
{
    let [word, file, named @ ..] = words else {
        return Err(Fault::Usage);
    };
    let file = file.as_str();
    match word.as_str() {
        "table" if named.is_empty() => Ok(Command::Table(file)),
        "aml" => Ok(Command::Aml(file, arities(alloc, named)?)),
        "dsdt" => Ok(Command::Dsdt(file, arities(alloc, named)?)),
        _ => Err(Fault::Usage),
    }
}
