//! The cases of a file.

use crate::found::{Found, perform};
use crate::lines::{Kind, Line, between, end_of, lines_of};
use crate::run::{Run, read_run};
use crate::wanted::{errors_of, has_parts, made_of, parts_of};
use std::alloc::Global;
use std::io;
use std::io::Write;

/// How many runs there were, and how many were found to differ.
#[derive(Clone, Copy)]
pub struct Tally {
    pub runs: usize,
    pub differences: usize,
}

// Whether a run printed and wrote what it has to.
fn is_output(alloc: Global, found: &Found, wanted: &[Line<'_>]) -> io::Result<bool> {
    if found.made.is_some() {
        let made = made_of(alloc, wanted)?;
        return Ok(found.out.is_empty() && found.made == made);
    }
    let parts = parts_of(alloc, wanted)?;
    Ok(has_parts(&found.out, &parts))
}

// Whether a run did what it has to.
fn is_wanted(alloc: Global, run: &Run, found: &Found, wanted: &[Line<'_>]) -> io::Result<bool> {
    let errors = errors_of(alloc, wanted)?;
    let status = run.status.unwrap_or(if errors.is_empty() { 0 } else { 1 });
    let is_output = is_output(alloc, found, wanted)?;
    Ok(is_output && found.err == errors && found.status == status)
}

// Returns what a run did if it isn't what it has to do.
fn difference(
    rt: &HostRuntime,
    first: &[u8],
    more: &[Line<'_>],
    wanted: &[Line<'_>],
) -> io::Result<Option<Found>> {
    let run = read_run(rt.alloc(), first, more)?;
    let found = perform(rt, &run)?;
    if is_wanted(rt.alloc(), &run, &found, wanted)? {
        return Ok(None);
    }
    Ok(Some(found))
}

// Prints the place of a line and the line.
fn print_place<O: Write>(out: &mut O, name: &str, line: Line<'_>) -> io::Result<()> {
    write!(out, "{name}:{}: ", line.number)?;
    out.write_all(line.text)?;
    writeln!(out)
}

// Prints the difference of a run, if there is one, and returns whether there is.
fn print_difference<O: Write>(
    out: &mut O,
    name: &str,
    first: Line<'_>,
    difference: io::Result<Option<Found>>,
) -> io::Result<bool> {
    match difference {
        Ok(None) => Ok(false),
        Ok(Some(found)) => {
            print_place(out, name, first)?;
            found.print(out)?;
            Ok(true)
        }
        Err(error) => {
            print_place(out, name, first)?;
            writeln!(out, "  {error}")?;
            Ok(true)
        }
    }
}

// Makes a run, and counts it.
fn run_one<O: Write>(
    rt: &HostRuntime,
    name: &str,
    first: Line<'_>,
    more: &[Line<'_>],
    wanted: &[Line<'_>],
    out: &mut O,
    tally: &mut Tally,
) -> io::Result<()> {
    let found = difference(rt, first.text, more, wanted);
    tally.runs = tally.runs.saturating_add(1);
    if print_difference(out, name, first, found)? {
        tally.differences = tally.differences.saturating_add(1);
    }
    Ok(())
}

// Makes the runs of a case, which have the same wanted lines.
fn run_case<O: Write>(
    rt: &HostRuntime,
    name: &str,
    runs: &[Line<'_>],
    wanted: &[Line<'_>],
    out: &mut O,
    tally: &mut Tally,
) -> io::Result<()> {
    let mut at = 0;
    for _ in 0..runs.len() {
        let Some(first) = runs.get(at) else {
            break;
        };
        let start = at.saturating_add(1);
        let end = end_of(runs, start, [Kind::More, Kind::More]);
        run_one(
            rt,
            name,
            *first,
            between(runs, start, end),
            wanted,
            out,
            tally,
        )?;
        at = end;
    }
    Ok(())
}

// Prints the first of these lines, if there is one, and counts it as a difference.
fn refuse_lines<O: Write>(
    name: &str,
    lines: &[Line<'_>],
    out: &mut O,
    tally: &mut Tally,
) -> io::Result<()> {
    let Some(first) = lines.first() else {
        return Ok(());
    };
    tally.differences = tally.differences.saturating_add(1);
    print_place(out, name, *first)?;
    writeln!(out, "  there is no run before this line")
}

/// Makes the runs of a file, and prints each that differs.
pub fn run_file<O: Write>(
    rt: &HostRuntime,
    name: &str,
    text: &[u8],
    out: &mut O,
) -> io::Result<Tally> {
    let mut tally = Tally {
        runs: 0,
        differences: 0,
    };
    let lines = lines_of(rt.alloc(), text)?;
    let mut at = 0;
    for _ in 0..lines.len() {
        let start = end_of(&lines, at, [Kind::Gap, Kind::Gap]);
        let middle = end_of(&lines, start, [Kind::Run, Kind::More]);
        let end = end_of(&lines, middle, [Kind::Wanted, Kind::Wanted]);
        let wanted = between(&lines, middle, end);
        if start == middle {
            refuse_lines(name, wanted, out, &mut tally)?;
        } else {
            run_case(
                rt,
                name,
                between(&lines, start, middle),
                wanted,
                out,
                &mut tally,
            )?;
        }
        at = end;
    }
    Ok(tally)
}
