//! Running the program.

ghost use Rattle.std.specs.Prelude.{◌≡◌, ◌≢◌, ◌∷◌, [], ◌++◌, map, string_bytes, IfOk, IfErr, OnOk, MatchResult};
ghost use Rattle.std.specs.IoError.{error_kind};
ghost use Rattle.std.specs.Io.KnownBytes.{Appends};
ghost use Rattle.acpiread_program.specs.Fault.{unwritten, IsRefusal, IsUsageWhere};
ghost use Rattle.acpiread_program.specs.Program.{IsReportOf, IsFaultOf, IsReport, IsToldFor, Printed, Told, Ended, Started};

use crate::command::{Command, parse};
use crate::fault::Fault;
use crate::input::read_table;
use crate::report::{aml_report, dsdt_report, table_report};
use acpi_input::file::read_input;
use acpi_term::read_error::ReadError;
use std::alloc::Global;
use std::io::{ErrorKind, Write};
use std::rt::{Env, Files};
use std::{env, fs, io};

// Reads the bytes of a command's file, as many as the report needs.
fn read_file<R: Files>(rt: &R, alloc: Global, command: &Command<'_>) -> io::Result<Vec<u8>> {
    match command {
        Command::Table(file) | Command::Dsdt(file, _) => read_table(alloc, fs::open(rt, *file)?),
        Command::Aml(file, _) => read_input(alloc, fs::open(rt, *file)?),
    }
}

// An error of reading the words or the file is `Usage`, unless memory ran out.
fn unread(error: io::Error) -> Fault
    ensures memory { error_kind error ≡ ErrorKind.OutOfMemory → IsRefusal ReadError.Memory result }
    ensures other { error_kind error ≢ ErrorKind.OutOfMemory → result ≡ Fault.Usage }
    ensures told { IsUsageWhere (Unit {0}) result }
{
    match error.kind() {
        ErrorKind::OutOfMemory => Fault::from(ReadError::Memory),
        _ => Fault::Usage,
    }
}

// The report of a command for the bytes of its file.
fn report_of(alloc: Global, command: &Command<'_>, bytes: &[u8]) -> Result<String, Fault>
    ensures { MatchResult result
        (λ text. IsReportOf command.now bytes.now (string_bytes text)) (IsFaultOf command.now bytes.now) }
{
    match command {
        Command::Table(_) => table_report(alloc, bytes),
        Command::Aml(_, arities) => aml_report(alloc, bytes, arities),
        Command::Dsdt(_, arities) => dsdt_report(alloc, bytes, arities),
    }
}

// The report that the words ask for. The file is opened only if the words are a command.
fn report<R: Files>(rt: &R, alloc: Global, words: &[String]) -> Result<String, Fault>
    ensures ok { IfOk result (λ text. IsReport (map (λ word. string_bytes word) words.now) (string_bytes text)) }
    ensures err { IfErr result (IsToldFor (map (λ word. string_bytes word) words.now)) }
{
    let command = parse(alloc, words)?;
    let bytes = read_file(rt, alloc, &command).map_err(unread)?;
    report_of(alloc, &command, &bytes)
}

// Prints a report, or the line of a fault, and returns the exit status.
fn tell<O: Write, E: Write>(
    report: Result<String, Fault>,
    out: &mut O,
    err: &mut E,
) -> io::Result<u8>
    ensures { IfOk result (λ status. MatchResult report
        (λ text. Printed (string_bytes text)
        (O.contents out.old) (O.contents out.new) (E.contents err.old) (E.contents err.new) status)
        (λ fault. Told fault (O.contents out.old) (O.contents out.new) (E.contents err.old) (E.contents err.new) status)) }
{
    match report {
        Ok(text) => {
            out.write_all(text.as_bytes())?;
            out.flush()?;
            Ok(0)
        }
        Err(fault) => {
            let status = fault.status();
            writeln!(err, "{fault}")?;
            err.flush()?;
            Ok(status)
        }
    }
}

/// Runs the program on the words after its name, and returns its exit status:
///
/// - 0: `out` has the report, and `err` nothing.
/// - 1: the file was refused or memory ran out. `err` has a line with the reason, and `out` nothing.
/// - 2: the words are wrong or the file can't be read. `err` has the usage line, and `out` nothing.
///
/// An error of this call is an error of `out` or `err`.
pub fn run<R: Files, O: Write, E: Write>(
    rt: &R,
    alloc: Global,
    words: &[String],
    out: &mut O,
    err: &mut E,
) -> io::Result<u8>
    ensures { IfOk result (λ status. Ended (map (λ word. string_bytes word) words.now)
        (O.contents out.old) (O.contents out.new) (E.contents err.old) (E.contents err.new) status) }
{
    tell(report(rt, alloc, words), out, err)
}

// The words after the program's name.
fn own_words<R: Env + AllocGlobal>(rt: &R) -> Result<Vec<String>, Fault>
    ensures { IfErr result (IsUsageWhere (Unit {0})) }
{
    let words = env::args(rt).map_err(unread)?;
    Ok(words.skip(1).collect(rt.alloc())?)
}

// Prints the line of a run whose output couldn't be written.
fn tell_unwritten<E: Write>(err: &mut E) -> io::Result<()>
    ensures { OnOk result (Appends (E.contents err.old) (E.contents err.new) (unwritten ++ 10 ∷ [])) }
{
    writeln!(err, "the output can't be written")?;
    err.flush()
}

// Runs the program on the words of the process.
fn run_own<R: Env + Files + AllocGlobal, O: Write, E: Write>(
    rt: &R,
    out: &mut O,
    err: &mut E,
) -> io::Result<u8>
    ensures { IfOk result (Started (O.contents out.old) (O.contents out.new) (E.contents err.old) (E.contents err.new)) }
{
    let words = match own_words(rt) {
        Ok(words) => words,
        Err(fault) => return tell(Err(fault), out, err),
    };
    run(rt, rt.alloc(), &words, out, err)
}

/// Runs the program on the words of the process, and returns its exit status. It is that of `run`, or that of a fault if the
/// words can't be read. If output can't be written it is 1, and `err` gets a line about that, unless `err` itself fails.
pub fn start<R: Env + Files + AllocGlobal, O: Write, E: Write>(
    rt: &R,
    out: &mut O,
    err: &mut E,
) -> u8
    ensures { Started (O.contents out.old) (O.contents out.new) (E.contents err.old) (E.contents err.new) result }
{
    let Ok(status) = run_own(rt, out, err) else {
        let _told = tell_unwritten(err);
        return 1;
    };
    status
}
