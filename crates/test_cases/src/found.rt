//! What a run does.

use crate::run::{FILE, MADE, Run, run_of_text};
use crate::structures::print_structures;
use std::io::Write;
use std::{fs, io};

/// The status of a run, what it printed, and the file that it wrote.
#[derive(Drop)]
pub struct Found {
    pub status: u8,
    pub out: Vec<u8>,
    pub err: Vec<u8>,
    pub made: Option<Vec<u8>>,
}

// Calls the program of a run, and returns its status.
fn call(rt: &HostRuntime, run: &Run, out: &mut Vec<u8>, err: &mut Vec<u8>) -> io::Result<u8> {
    match run.command() {
        "structures" => print_structures(rt.alloc(), &run.file, out, err),
        "table" | "aml" | "dsdt" => acpiread_program::program::run(
            rt,
            rt.alloc(),
            &run.words,
            out,
            err,
        ),
        _ => acpitool_program::program::run(rt, rt.alloc(), &run.words, out, err),
    }
}

// Returns the bytes that were written to a file, and removes it.
fn take_made(rt: &HostRuntime) -> io::Result<Option<Vec<u8>>> {
    if !fs::exists(rt, MADE)? {
        return Ok(None);
    }
    let bytes = fs::read(rt, MADE)?;
    fs::remove_file(rt, MADE)?;
    Ok(Some(bytes))
}

// Writes the file of a run, and runs it.
fn perform_once(rt: &HostRuntime, run: &Run) -> io::Result<Found> {
    fs::write(rt, FILE, run.file.as_slice())?;
    let mut out = Vec::new(rt.alloc());
    let mut err = Vec::new(rt.alloc());
    let status = call(rt, run, &mut out, &mut err)?;
    let made = take_made(rt)?;
    Ok(Found {
        status,
        out,
        err,
        made,
    })
}

/// Writes the file of a run, and runs it. If its text has to be made into the file again, and isn't, what is returned is what
/// `make` did. Without a file its text has to be made into some table.
pub fn perform(rt: &HostRuntime, run: &Run) -> io::Result<Found> {
    let found = perform_once(rt, run)?;
    if !run.both || found.status != 0 {
        return Ok(found);
    }
    let text = Vec::from_slice(rt.alloc(), &found.out)?;
    let back = perform_once(rt, &run_of_text(text)?)?;
    match &back.made {
        Some(bytes) if run.file.is_empty() || bytes.as_slice() == run.file.as_slice() => Ok(found),
        _ => Ok(back),
    }
}

// Prints lines, each after some text.
fn print_lines<O: Write>(out: &mut O, before: &[u8], text: &[u8]) -> io::Result<()> {
    let text = text.strip_suffix(b"\n").unwrap_or(text);
    for line in text.split(|byte| *byte == b'\n') {
        out.write_all(before)?;
        out.write_all(line)?;
        out.write_all(b"\n")?;
    }
    Ok(())
}

// Prints bytes as hexadecimal digits.
fn print_bytes<O: Write>(out: &mut O, bytes: &[u8]) -> io::Result<()> {
    write!(out, "   ")?;
    for byte in bytes {
        write!(out, " {byte:02x}")?;
    }
    writeln!(out)
}

impl Found {
    /// Prints what was found, in the form of a case.
    pub fn print<O: Write>(&self, out: &mut O) -> io::Result<()> {
        writeln!(out, "  status {}", self.status)?;
        if !self.out.is_empty() {
            print_lines(out, b"    ", &self.out)?;
        }
        if !self.err.is_empty() {
            print_lines(out, b"    ! ", &self.err)?;
        }
        match &self.made {
            Some(bytes) => print_bytes(out, bytes),
            None => Ok(()),
        }
    }
}
