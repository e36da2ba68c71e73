//! Output that can't be written.

use crate::acpitool::program::{TABLE, TEXT, write};
use crate::words::owned;
use acpitool_program::program::run;
use std::io;
use std::io::{Error, ErrorKind, Write};
use std::test::Fail;
use test_support::equal;

// A writer with room for this many bytes, which then fails.
#[derive(Drop)]
struct Full(usize);

impl Write for Full {
    fn write(&mut self, buf: &[u8]) -> io::Result<usize> {
        let count = self.0.min(buf.len());
        if count == 0 {
            return Err(Error::from(ErrorKind::StorageFull));
        }
        self.0 -= count;
        Ok(count)
    }

    fn flush(&mut self) -> io::Result<()> {
        Ok(())
    }
}

// Fails unless a run that prints to a writer with this room has this status. 9 stands for none.
fn ends_with(rt: &HostRuntime, words: &[String], room: usize, status: u8) -> Result<(), Fail> {
    let result = run(rt, rt.alloc(), words, &mut Full(room), &mut Full(0));
    equal(&result.unwrap_or(9), &status)
}

// A text is written whole, or a run has no status.
#[test]
fn texts_are_whole(rt: HostRuntime) -> Result<(), Fail> {
    write(&rt, "table", &TABLE)?;
    let words = owned(&rt, &["show", "table"])?;
    for room in 0..TEXT.len() {
        ends_with(&rt, &words, room, 9)?;
    }
    ends_with(&rt, &words, TEXT.len(), 0)
}
