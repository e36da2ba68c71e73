//! What was found in blocks: how many terms of each head, and how many of them no constructor writes.

use acpi_term::apart::Kind;
use std::alloc::{AllocError, Global};

/// A word, and how often it was counted.
#[derive(Clone, Copy)]
pub struct Count {
    pub word: &'static str,
    pub number: u64,
}

/// The heads that constructors wrote, and the causes for which terms weren't written by one.
#[derive(Drop)]
pub struct Found {
    pub heads: Vec<Count>,
    pub causes: Vec<Count>,
}

/// Counts a word this many times more.
pub fn add_count(
    counts: &mut Vec<Count>,
    word: &'static str,
    number: u64,
) -> Result<(), AllocError> {
    for counted in counts.iter_mut() {
        if counted.word == word {
            counted.number = counted.number.saturating_add(number);
            return Ok(());
        }
    }
    counts.push(Count { word, number })?;
    Ok(())
}

/// Returns the sum of all counts.
pub fn sum_of(counts: &[Count]) -> u64 {
    let mut sum = 0u64;
    for counted in counts {
        sum = sum.saturating_add(counted.number);
    }
    sum
}

// Returns the word of a head whose terms have no frame. An operator has a word of its own.
fn bare_word(kind: Kind<'_>) -> &'static str {
    match kind {
        Kind::Number(_) => "number",
        Kind::Ones => "ones",
        Kind::Text(_) => "string",
        Kind::Local(_) => "local",
        Kind::Arg(_) => "arg",
        Kind::Call(_) => "name or call",
        Kind::OpRegion(..) => "region",
        Kind::Name(_) => "define",
        Kind::Mutex(..) => "mutex",
        Kind::Acquire(..) => "acquire",
        Kind::Release(_) => "release",
        Kind::Op(op) => op.word(),
        Kind::External(..) => "external",
        Kind::Fatal(..) => "fatal",
        Kind::MatchTest(_) => "test of a match",
        _ => "unread",
    }
}

// Returns the word of a head.
fn word_of(kind: Kind<'_>) -> &'static str {
    match kind {
        Kind::Scope(_) => "scope",
        Kind::Device(_) => "device",
        Kind::Method(..) => "method",
        Kind::PowerResource(..) => "power resource",
        Kind::Field(..) => "field",
        Kind::Buffer(_) => "buffer",
        Kind::Package => "package",
        Kind::VarPackage => "package of variable size",
        Kind::If => "if",
        Kind::While => "while",
        Kind::Else => "else",
        Kind::LeveledMethod(..) => "method with a level",
        Kind::Processor(..) => "processor",
        Kind::ThermalZone(_) => "thermal zone",
        Kind::RoomyPackage(_) => "package with room",
        Kind::IndexField(..) => "index field",
        Kind::BankField(..) => "bank field",
        _ => bare_word(kind),
    }
}

impl Found {
    /// Nothing.
    pub fn new(alloc: Global) -> Found {
        Found {
            heads: Vec::new(alloc),
            causes: Vec::new(alloc),
        }
    }

    /// Counts a term that its constructor wrote.
    pub fn add_head(&mut self, kind: Kind<'_>) -> Result<(), AllocError> {
        add_count(&mut self.heads, word_of(kind), 1)
    }

    /// Counts a term that no constructor writes.
    pub fn add_cause(&mut self, cause: &'static str) -> Result<(), AllocError> {
        add_count(&mut self.causes, cause, 1)
    }
}
