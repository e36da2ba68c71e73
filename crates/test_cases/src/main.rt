//! Runs `acpiread` and `acpitool` on the cases of all files `*.cases` of the folder in which this program runs, and compares what
//! they print and write, and their status, with what the cases say. It prints each run that differs: its file, its line, and what
//! was found. The last line is how many runs each file has. The status is 1 if a run differs, and otherwise 0.
//!
//! The form of a case. A line at the left margin is a run: the command, the bytes of its file, and after a semicolon further
//! words.
//!
//! ```text
//! aml 5b 80 "PRST" 00 "MTHD" 01 00 ; MTHD=1
//! ```
//!
//! - `table`, `aml` and `dsdt` are commands of `acpiread`. `show`, `check`, `image`, `make`, `repair` and `template` are those of
//!   `acpitool`, as are `help`, `-h`, `--help` and `--version`. `template` and these four have no file. `json` stands for `show
//!   --json`, `bare` for `show --no-offsets`, `bytes` for `show --bytes`, `findings` for `check --json`, `listing` for `image
//!   --json`, `objects` for `names --json`, and `dot` for `tree --dot`. `both` is `disassemble`, and `make` has to make its text
//!   into the file again. `again` is `template`, and `make` has to make its text into a table without a note. `check@1c000000` is
//!   given the file as FILE@1c000000. `structures` is a command of this program: it prints a table's first line and its
//!   structures, also those of tables with a further walk, which `acpiread table` doesn't list.
//! - Bytes are hexadecimal in lower case, or text in quotation marks. `00*16` is 16 of them, and so it is with a text.
//!   `<APIC 1>` is the standard header with this signature and this revision, and with the length and the checksum of all bytes.
//!   Its other fields are those of `test_support`. `@9=07` sets the byte at offset 9 after that.
//! - A line that begins with `+` goes on with the bytes. One that begins with `|` is a line of the file as text. One that begins
//!   with a backslash is text, too, but with the escapes `\n`, `\r`, `\t` and `\x7f`, and without a line feed at its end.
//! - A word in single quotation marks may have spaces, or be empty. `status=2` is no word, but the status that is wanted. Without
//!   it, the status is 1 if there is an error, and otherwise 0.
//!
//! The lines after a run that begin with four spaces are what it has to print, those after `! ` on standard error. After a `make`
//! or a `repair` that writes its file they are the bytes of this file, with comments after `#`. FILE in them is the name of the
//! run's file, and `..` is any lines. `lnot*254` is 254 of these lines, each two spaces further in than the line before, and the
//! lines after them are within the last. Runs right after one another have the same lines. `#` begins a comment at the left
//! margin. An empty line or a comment ends a case.
#![tactic(auto)]

mod cases;
mod content;
mod found;
mod lines;
mod parts;
mod run;
mod structures;
mod wanted;

use crate::cases::run_file;
use crate::run::FILE;
use acpitool_program::files::files_in;
use std::io::Write;
use std::process::ExitCode;
use std::{fs, io};

fn main(rt: HostRuntime) -> io::Result<ExitCode> {
    let well = run_files(&rt, &mut rt.stdout())?;
    Ok(ExitCode::from(if well { 0 } else { 1 }))
}

// Runs the cases of each file of the folder, prints how many runs there are, and returns whether each did what it has to.
fn run_files<O: Write>(rt: &HostRuntime, out: &mut O) -> io::Result<bool> {
    let mut counts = String::new(rt.alloc());
    let mut well = true;
    for path in &files_in(rt, rt.alloc(), ".")? {
        if path.as_str().ends_with(".cases") {
            let name = path.as_str().trim_start_matches("./");
            well = add_file(rt, name, out, &mut counts)? && well;
        }
    }
    let _removed = fs::remove_file(rt, FILE);
    writeln!(out, "{counts}")?;
    Ok(well)
}

// Runs the cases of a file, and adds how many runs it has. Returns whether each did what it has to.
fn add_file<O: Write>(
    rt: &HostRuntime,
    name: &str,
    out: &mut O,
    counts: &mut String,
) -> io::Result<bool> {
    let text = fs::read(rt, name)?;
    let tally = run_file(rt, name, &text, out)?;
    if !counts.is_empty() {
        counts.push_str(", ")?;
    }
    let subject = name.trim_end_matches(".cases");
    write!(counts, "{} {subject}", tally.runs)?;
    Ok(tally.differences == 0)
}
