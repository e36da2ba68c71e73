//! What is printed of blocks.

use crate::block::Outcome;
use crate::found::{Count, Found, add_count, sum_of};
use std::alloc::Global;
use std::io;
use std::io::Write;

/// How many blocks there were of each kind, and what was found in all of them.
#[derive(Drop)]
pub struct Totals {
    /// Those that constructors wrote.
    whole: u64,
    /// Those of which constructors wrote a part.
    part: u64,
    unread: u64,
    wrong: u64,
    /// Those whose ASL is made into them.
    compiled: u64,
    found: Found,
}

// Prints words and their counts, each on a line.
fn print_counts<O: Write>(counts: &[Count], lead: &str, out: &mut O) -> io::Result<()> {
    for counted in counts {
        writeln!(out, "{lead}{} {}", counted.number, counted.word)?;
    }
    Ok(())
}

// Prints the line of a block that was written anew.
fn print_same<O: Write>(name: &str, found: &Found, out: &mut O) -> io::Result<()> {
    let terms = sum_of(&found.heads);
    if found.causes.is_empty() {
        return writeln!(out, "{name}: the same by {terms} constructors");
    }
    let other = sum_of(&found.causes);
    writeln!(
        out,
        "{name}: the same by {terms} constructors, and by the bytes of {other} terms:"
    )?;
    print_counts(&found.causes, "  ", out)
}

// Adds counts to others.
fn add_counts(counts: &[Count], all: &mut Vec<Count>) -> io::Result<()> {
    for counted in counts {
        add_count(all, counted.word, counted.number)?;
    }
    Ok(())
}

impl Totals {
    /// No blocks.
    pub fn new(alloc: Global) -> Totals {
        Totals {
            whole: 0,
            part: 0,
            unread: 0,
            wrong: 0,
            compiled: 0,
            found: Found::new(alloc),
        }
    }

    // Counts a block by what came of it.
    fn tally(&mut self, outcome: &Outcome, found: &Found) {
        match outcome {
            Outcome::Unread(_) => self.unread = self.unread.saturating_add(1),
            Outcome::Failed(_) | Outcome::Differs(_) | Outcome::Refused(_) => {
                self.wrong = self.wrong.saturating_add(1)
            }
            Outcome::Same if !found.causes.is_empty() => self.part = self.part.saturating_add(1),
            Outcome::Same | Outcome::Described => self.whole = self.whole.saturating_add(1),
            Outcome::Compiled => self.compiled = self.compiled.saturating_add(1),
        }
    }

    /// Prints what came of a block, and adds it.
    pub fn add<O: Write>(
        &mut self,
        name: &str,
        outcome: Outcome,
        found: &Found,
        out: &mut O,
    ) -> io::Result<()> {
        match &outcome {
            Outcome::Unread(error) => writeln!(out, "{name}: unread: {error}")?,
            Outcome::Failed(error) => writeln!(out, "{name}: failed: {error}")?,
            Outcome::Differs(at) => writeln!(out, "{name}: differs at {at}")?,
            Outcome::Described => writeln!(out, "{name}: the same by constructors of descriptors")?,
            Outcome::Refused(why) => writeln!(out, "{name}: the ASL is refused: {why}")?,
            Outcome::Compiled => writeln!(out, "{name}: the same by its ASL")?,
            Outcome::Same => print_same(name, found, out)?,
        }
        self.tally(&outcome, found);
        add_counts(&found.heads, &mut self.found.heads)?;
        add_counts(&found.causes, &mut self.found.causes)
    }

    /// Prints the sums of all blocks.
    pub fn print<O: Write>(&self, out: &mut O) -> io::Result<()> {
        writeln!(
            out,
            "{} blocks by constructors alone, {} in part, {} by their ASL, {} unread, {} wrong",
            self.whole, self.part, self.compiled, self.unread, self.wrong
        )?;
        writeln!(out, "by constructors:")?;
        print_counts(&self.found.heads, "  ", out)?;
        writeln!(out, "by their bytes:")?;
        print_counts(&self.found.causes, "  ", out)
    }

    /// Returns whether no block is wrong.
    pub fn are_right(&self) -> bool {
        self.wrong == 0
    }
}
