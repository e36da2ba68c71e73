//! Paths of objects (ACPI 6.5, 5.3), found by a key.

ghost use Rattle.std.specs.Prelude.{◌≡◌, ◌++◌, ℕ, List, [], ◌∷◌, map, IfOk, OnOk};
ghost use Rattle.acpi_asl.specs.Paths.{next_key, key_from, path_of, has, IsIndexed};

use acpi_terms_text::path::is_joined;
use std::alloc::{AllocError, Global};
use std::collections::BTreeMap;
use std::marker::Model;
use std::mem::replace;

// A path, and the place of the path before it that has the same key.
#[derive(Drop)]
struct Entry {
    path: Vec<u8>,
    before: Option<usize>,
}

/// Paths of objects, in the order in which they were added. A look-up compares only those with the key of the path.
#[derive(Drop)]
pub(crate) struct Paths {
    all: Vec<Entry>,
    // The place of the last path with a key.
    latest: BTreeMap<u32, usize>,
}

impl Model for Paths {
    ghost Value = { List (List ℕ) };

    ghost view = { λ paths. map path_of paths.all.items };

    ghost invariant = { λ paths. IsIndexed paths.latest paths.all.items };
}

// Returns the key of bytes and a further one.
fn next_key(key: u32, byte: u8) -> u32
    ensures { result ≡ next_key key byte }
{
    ((u64::from(key) * 31 + u64::from(byte)) % 0x1_0000_0000) as u32
}

// Returns the key of a path: this is the key of the bytes before these.
fn key_from(key: u32, path: &[u8]) -> u32
    ensures { result ≡ key_from key path.now }
{
    let mut key = key;
    'bytes: for byte in path {
        key = next_key(key, *byte);
    }
    key
}

impl Paths {
    /// No paths.
    pub fn new(alloc: Global) -> Paths
        ensures { result ≡ [] }
    {
        let all = Vec::new(alloc);
        let latest = BTreeMap::new(alloc);
        Paths { all, latest }
    }

    // These paths and a further one.
    fn with(self, alloc: Global, path: Vec<u8>) -> Result<Paths, AllocError>
        ensures { IfOk result (λ paths. paths ≡ self ++ path.items ∷ []) }
    {
        let Paths {
            mut all,
            mut latest,
        } = self;
        let key = key_from(0, &path);
        let before = latest.get(&key).copied();
        latest.insert(key, all.len())?;
        all.push(Entry { path, before })?;
        Ok(Paths { all, latest })
    }

    /// Adds a path.
    pub fn add(&mut self, alloc: Global, path: Vec<u8>) -> Result<(), AllocError>
        ensures { OnOk result (self.new ≡ self.old ++ path.items ∷ []) }
    {
        let old = replace(self, Paths::new(alloc));
        *self = old.with(alloc, path)?;
        Ok(())
    }

    /// Returns whether one of the paths is this one, which is given in two parts.
    pub fn has(&self, front: &[u8], rest: &[u8]) -> bool
        ensures { result ≡ has self.now (front.now ++ rest.now) }
    {
        let key = key_from(key_from(0, front), rest);
        let mut next = self.latest.get(&key).copied();
        'paths: while let Some(place) = next {
            let entry = &self.all[place];
            if is_joined(front, rest, &entry.path) {
                return true;
            }
            next = entry.before;
        }
        false
    }
}
