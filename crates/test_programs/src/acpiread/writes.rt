//! Output that can't be written, words without a file that can be read, and the deepest terms.

use crate::acpiread::DSDT;
use crate::words::owned;
use acpi_read::report::push_number;
use acpiread_program::program::{run, start};
use std::alloc::Global;
use std::io::{Error, ErrorKind, Write};
use std::rt::{Env, Files};
use std::test::Fail;
use std::{env, fs, io, process};
use test_support::{equal, same};

// The line of a run on wrong words.
const USAGE: &str = "usage: acpiread table FILE | aml FILE [NAME=N ..] | dsdt FILE [NAME=N ..]\n";

// Room for more than any line.
const AMPLE: usize = 1_000_000;

// A writer with room for this many bytes, which fails after these.
#[derive(Drop)]
struct Full {
    room: usize,
    taken: Vec<u8>,
}

impl Full {
    fn new(alloc: Global, room: usize) -> Full {
        Full {
            room,
            taken: Vec::new(alloc),
        }
    }
}

impl Write for Full {
    fn write(&mut self, buf: &[u8]) -> io::Result<usize> {
        let count = self.room.min(buf.len());
        if count == 0 {
            return Err(Error::from(ErrorKind::StorageFull));
        }
        self.taken.extend_from_slice(&buf[..count])?;
        self.room -= count;
        Ok(count)
    }

    fn flush(&mut self) -> io::Result<()> {
        match self.room {
            0 => Err(Error::from(ErrorKind::StorageFull)),
            _ => Ok(()),
        }
    }
}

// Fails unless a run whose writers have this much room has this status, and each has taken these bytes.
fn ends(
    rt: &(impl Files + AllocGlobal),
    words: &[String],
    rooms: (usize, usize),
    status: Option<u8>,
    out: &str,
    err: &str,
) -> Result<(), Fail> {
    let mut to_out = Full::new(rt.alloc(), rooms.0);
    let mut to_err = Full::new(rt.alloc(), rooms.1);
    equal(
        &run(rt, rt.alloc(), words, &mut to_out, &mut to_err).ok(),
        &status,
    )?;
    same(&to_out.taken, out.as_bytes())?;
    same(&to_err.taken, err.as_bytes())
}

// Fails unless a run prints these lines: a report for status 0, or else a fault. For each byte of the lines that can't be
// written, and for the flush after them, a run has no status, the bytes before are written, and the other writer gets nothing.
fn prints(
    rt: &(impl Files + AllocGlobal),
    words: &[&str],
    status: u8,
    lines: &str,
) -> Result<(), Fail> {
    let words = owned(rt, words)?;
    for room in 0..=lines.len() + 1 {
        let (written, told) = match lines.get(..room) {
            Some(written) => (written, None),
            None => (lines, Some(status)),
        };
        if status == 0 {
            ends(rt, &words, (room, AMPLE), told, written, "")?;
        } else {
            ends(rt, &words, (AMPLE, room), told, "", written)?;
        }
    }
    Ok(())
}

// A path that no other process uses.
fn path(rt: &(impl Env + AllocGlobal), id: u32) -> io::Result<String> {
    let folder = env::temp_dir(rt)?;
    let mut path = String::from_str(rt.alloc(), folder.as_str())?;
    push_number("/acpiread-", u64::from(id), &mut path)?;
    Ok(path)
}

// A file with a table, and other words than the commands.
fn prints_tables(rt: &(impl Files + AllocGlobal), file: &str) -> Result<(), Fail> {
    fs::write(rt, file, DSDT.as_slice())?;
    prints(rt, &["table", file], 0, "DSDT length 41 revision 2 sum 0\n")?;
    let report = "DSDT length 41 revision 2 sum 0\npackage 2\n  number 0\n  number 1\n";
    prints(rt, &["dsdt", file], 0, report)?;
    for word in ["tables", "Table", "am", "AML", "ssdt", ""] {
        prints(rt, &[word, file], 2, USAGE)?;
    }
    fs::write(rt, file, &DSDT[..40])?;
    prints(rt, &["table", file], 1, "refused at 4: TableLength\n")?;
    fs::remove_file(rt, file)?;
    Ok(())
}

#[test]
fn full_writers(rt: HostRuntime) -> Result<(), Fail> {
    let path = path(&rt, process::id(rt.process()))?;
    prints_tables(&rt, path.as_str())?;
    // A file that isn't there, and a folder.
    let folder = env::temp_dir(&rt)?;
    for file in [path.as_str(), folder.as_str()] {
        prints(&rt, &["table", file], 2, USAGE)?;
        prints(&rt, &["aml", file], 2, USAGE)?;
        prints(&rt, &["dsdt", file], 2, USAGE)?;
    }
    Ok(())
}

#[test]
fn no_file(rt: HostRuntime) -> Result<(), Fail> {
    prints(&rt, &[], 2, USAGE)?;
    prints(&rt, &["table"], 2, USAGE)?;
    prints(&rt, &["aml"], 2, USAGE)?;
    prints(&rt, &["dsdt"], 2, USAGE)
}

// For all words, neither a report nor a fault can be written.
#[test]
fn no_room(rt: HostRuntime) -> Result<(), Fail> {
    let mut out = Full::new(rt.alloc(), 0);
    let mut err = Full::new(rt.alloc(), 0);
    equal(&start(&rt, &mut out, &mut err), &1)
}

// A writer that takes these bytes in turn and no others.
#[derive(Drop)]
struct Only<'a>(&'a [u8]);

impl Write for Only<'_> {
    fn write(&mut self, buf: &[u8]) -> io::Result<usize> {
        if !self.0.starts_with(buf) {
            return Err(Error::from(ErrorKind::StorageFull));
        }
        self.0 = &self.0[buf.len()..];
        Ok(buf.len())
    }

    fn flush(&mut self) -> io::Result<()> {
        Ok(())
    }
}

// For all words, one line says that neither a report nor a fault could be written.
#[test]
fn room_for_a_line(rt: HostRuntime) -> Result<(), Fail> {
    let mut out = Full::new(rt.alloc(), 0);
    let mut err = Only(b"the output can't be written\n");
    equal(&start(&rt, &mut out, &mut err), &1)?;
    same(err.0, b"")
}
