//! The numbers of a list of names, found by name.

ghost use Rattle.std.specs.Prelude.{◌≡◌, OnOk, IfOk, not, is_some};
ghost use Rattle.acpi_term.specs.ArityIndex.{found, Indexes, Adds};

use crate::name_string::NameString;
use std::alloc::{AllocError, Global};
use std::collections::BTreeMap;

/// The number that a list states first for each of its names. A look-up takes as many comparisons as the logarithm of their
/// count.
#[derive(Debug, Drop)]
pub(crate) struct ArityIndex {
    numbers: BTreeMap<Vec<u8>, u8>,
}

impl ArityIndex {
    /// The index of a list.
    pub fn of(alloc: Global, counts: &[(NameString, u8)]) -> Result<ArityIndex, AllocError>
        ensures { IfOk result (λ index. Indexes index counts.now) }
    {
        let mut index = ArityIndex {
            numbers: BTreeMap::new(alloc),
        };
        'counts: for (name, count) in counts {
            let _ = index.add(alloc, name.as_bytes(), *count)?;
        }
        Ok(index)
    }

    /// The number of a name.
    pub fn find(&self, name: &[u8]) -> Option<u8>
        ensures { result ≡ found self.now name.now }
    {
        self.numbers.get(name).copied()
    }

    /// Adds the number of a name after those of a list, and returns whether it is the name's first.
    pub fn add(&mut self, alloc: Global, name: &[u8], count: u8) -> Result<bool, AllocError>
        ensures added { OnOk result (Adds self.old self.new (name.now, count)) }
        ensures first { IfOk result (λ is_first. is_first ≡ not (is_some (found self.old name.now))) }
    {
        if self.find(name).is_some() {
            return Ok(false);
        }
        let key = Vec::from_slice(alloc, name)?;
        self.numbers.insert(key, count)?;
        Ok(true)
    }
}
