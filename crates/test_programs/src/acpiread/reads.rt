//! Input that comes in parts, input that fails, and input without an end.

use crate::acpiread::DSDT;
use acpi_input::file::read_input;
use acpiread_program::input::read_table;
use std::alloc::Global;
use std::io;
use std::io::{Error, ErrorKind, Read};
use std::test::Fail;
use test_support::{equal, same};

// What comes after the bytes of an input.
#[derive(Clone, Copy)]
enum After {
    End,
    Failure,
    Zeros,
}

// Bytes that come in parts of this size at most, and what comes after them.
#[derive(Drop)]
struct Parts<'a> {
    bytes: &'a [u8],
    most: usize,
    after: After,
}

impl Read for Parts<'_> {
    fn read(&mut self, buf: &mut [u8]) -> io::Result<usize> {
        if self.bytes.is_empty() {
            return match self.after {
                After::End => Ok(0),
                After::Failure => Err(Error::from(ErrorKind::BrokenPipe)),
                After::Zeros => {
                    buf.fill(0);
                    Ok(buf.len())
                }
            };
        }
        let count = self.bytes.len().min(buf.len()).min(self.most);
        let (first, others) = self.bytes.split_at(count);
        buf[..count].copy_from_slice(first);
        self.bytes = others;
        Ok(count)
    }
}

// Fails unless a table, or terms, are read as these bytes for each size of parts. Without them the failure is returned.
fn comes(
    alloc: Global,
    is_table: bool,
    bytes: &[u8],
    after: After,
    wanted: Option<&[u8]>,
) -> Result<(), Fail> {
    for most in [1, 7, 100] {
        let parts = Parts { bytes, most, after };
        let read = if is_table {
            read_table(alloc, parts)
        } else {
            read_input(alloc, parts)
        };
        match (read, wanted) {
            (Ok(read), Some(wanted)) => same(&read, wanted)?,
            (Err(error), None) => equal(&error.kind(), &ErrorKind::BrokenPipe)?,
            _ => return Err(Fail::new(format_args!("{bytes:?} by {most}"))),
        }
    }
    Ok(())
}

// Each prefix of a table and of more, up to its end or a failure. Of a table at most one byte after it is read.
#[test]
fn beginnings(rt: HostRuntime) -> Result<(), Fail> {
    let alloc = rt.alloc();
    let mut more = Vec::from_slice(alloc, DSDT.as_slice())?;
    more.extend_from_slice(&[0x60, 0x61])?;
    for size in 0..=more.len() {
        let bytes = &more[..size];
        let first = &bytes[..size.min(42)];
        comes(alloc, true, bytes, After::End, Some(first))?;
        comes(alloc, false, bytes, After::End, Some(bytes))?;
        comes(alloc, false, bytes, After::Failure, None)?;
        comes(alloc, true, bytes, After::Failure, bytes.get(..42))?;
    }
    Ok(())
}

// Of a file without an end, the table and one byte more are read. The lengths are that of the table, lengths up to that of the
// header, and others in each of the higher bytes. The last file has only zeros.
#[test]
fn endless(rt: HostRuntime) -> Result<(), Fail> {
    for (at, byte, known, count) in [
        (4, 41, 41, 42),
        (4, 36, 37, 37),
        (4, 35, 37, 37),
        (4, 0, 37, 37),
        (5, 1, 41, 298),
        (6, 1, 41, 65_578),
        (7, 1, 41, 16_777_258),
        (0, 0, 0, 37),
    ] {
        let mut table = DSDT;
        table[at] = byte;
        let parts = Parts {
            bytes: &table[..known],
            most: 100,
            after: After::Zeros,
        };
        let read = read_table(rt.alloc(), parts)?;
        equal(&read.len(), &count)?;
        assert!(rt; read.starts_with(&table[..known]));
    }
    Ok(())
}
