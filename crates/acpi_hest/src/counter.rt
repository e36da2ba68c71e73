//! Counting the bytes of an object.

ghost use Rattle.std.specs.Prelude.{◌≡◌, ◌+◌, ◌∷◌, [], length, min};
ghost use Rattle.acpi_hest.specs.Counter.{counter_of, counter_takes, most_of_64_bits};

use acpi_base::error::R;
use acpi_base::sink::AmlSink;
use std::marker::Model;

/// A sink that counts bytes, up to 2^64 - 1. It takes no memory and returns no error.
#[derive(Default, Drop)]
pub(crate) struct Counter {
    count: u64,
}

impl Model for Counter {
    ghost use Rattle.std.specs.Prelude.{ℕ};

    ghost Value = { ℕ };

    ghost view = { λ c. c.count };

    ghost inverse = { λ n. record { count = n } };
}

impl AmlSink for Counter {
    ghost meaning = { counter_of };

    ghost takes_nothing = { λ c. counter_takes c [] };

    ghost takes_beginning = { λ c a _ _. counter_takes c a };

    #[tactic(auto, unfolding(crate::specs::Counter::counter_of))]
    fn byte(&mut self, _byte: u8) -> R<()> {
        self.add(1);
        Ok(())
    }

    #[tactic(auto, unfolding(crate::specs::Counter::counter_of))]
    fn vec(&mut self, v: &[u8]) -> R<()> {
        self.add(v.len());
        Ok(())
    }
}

impl Counter {
    // Adds a number of bytes to the count.
    fn add(&mut self, bytes: usize)
        ensures { self.new ≡ min (self.old + bytes) most_of_64_bits }
    {
        self.count = self.count.saturating_add(bytes as u64);
    }

    /// The number of bytes.
    pub(crate) fn count(&self) -> u64
        ensures { result ≡ self.now }
    {
        self.count
    }
}
