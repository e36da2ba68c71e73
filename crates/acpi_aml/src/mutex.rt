//! Mutexes.

ghost use Rattle.std.specs.Prelude.{◌≡◌, ℕ, List, [], ◌∷◌, ◌++◌};
ghost use Rattle.acpi_base.specs.Object.{whole_ends_well};
ghost use Rattle.acpi_term.specs.Tree.{def_mutex, def_acquire, def_release};
ghost use Rattle.acpi_term.specs.Row.{row};

use crate::path::Path;
use acpi_base::error::R;
use acpi_base::object::Aml;
use acpi_base::parts::write_parts;
use acpi_base::sink::AmlSink;

/// A mutex and its sync level (ACPI 6.5, 20.2.5.2, DefMutex).
#[derive(Drop)]
pub struct Mutex {
    path: Path,
    level: u8,
}

impl Aml for Mutex {
    ghost object = { λ o. row (def_mutex o.path o.level) [] };

    ghost ends_well = { λ o. whole_ends_well (0x5b ∷ 0x01 ∷ o.path ++ o.level ∷ []) };

    fn to_aml_bytes(&self, sink: &mut dyn AmlSink) -> R<()> {
        write_parts(sink, &[&[0x5b, 0x01], &self.path.bytes, &[self.level]])
    }
}

impl Mutex {
    pub fn new(path: Path, sync_level: u8) -> Mutex
        ensures path { result.path ≡ path }
        ensures level { result.level ≡ sync_level }
    {
        Mutex {
            path,
            level: sync_level,
        }
    }
}

/// Acquires a mutex, with a timeout in milliseconds; 0xffff waits without a limit (ACPI 6.5, 20.2.5.4, DefAcquire).
#[derive(Drop)]
pub struct Acquire {
    path: Path,
    timeout: u16,
}

impl Aml for Acquire {
    ghost object = { λ o. row (def_acquire o.path o.timeout) [] };

    ghost ends_well = { λ o. whole_ends_well (0x5b ∷ 0x23 ∷ o.path) };

    fn to_aml_bytes(&self, sink: &mut dyn AmlSink) -> R<()> {
        write_parts(
            sink,
            &[&[0x5b, 0x23], &self.path.bytes, &self.timeout.to_le_bytes()],
        )
    }
}

impl Acquire {
    pub fn new(mutex: Path, timeout: u16) -> Acquire
        ensures path { result.path ≡ mutex }
        ensures timeout { result.timeout ≡ timeout }
    {
        Acquire {
            path: mutex,
            timeout,
        }
    }
}

/// Releases a mutex (ACPI 6.5, 20.2.5.3, DefRelease).
#[derive(Drop)]
pub struct Release {
    path: Path,
}

impl Aml for Release {
    ghost object = { λ o. row (def_release o.path) [] };

    ghost ends_well = { λ o. whole_ends_well (0x5b ∷ 0x27 ∷ o.path) };

    fn to_aml_bytes(&self, sink: &mut dyn AmlSink) -> R<()> {
        write_parts(sink, &[&[0x5b, 0x27], &self.path.bytes])
    }
}

impl Release {
    pub fn new(mutex: Path) -> Release
        ensures { result.path ≡ mutex }
    {
        Release { path: mutex }
    }
}
