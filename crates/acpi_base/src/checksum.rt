//! Running sums of bytes.

ghost use Rattle.std.specs.Prelude.{◌≡◌, ℕ, ◌+◌, ◌-◌, ◌%◌, ◌∷◌, [], sum};
ghost use Rattle.acpi_base.specs.Checksum.{checksum_of, checksum_takes};

use crate::error::R;
use crate::sink::AmlSink;
use std::marker::Model;

/// A running sum of bytes modulo 256. It takes no memory and returns no error.
#[derive(Debug, Default, Drop)]
pub struct Checksum {
    value: u8,
}

impl Model for Checksum {
    ghost Value = { ℕ };

    ghost view = { λ c. c.value };

    ghost inverse = { λ n. record { value = n } };
}

impl AmlSink for Checksum {
    ghost meaning = { checksum_of };

    ghost takes_nothing = { λ c. checksum_takes c [] };

    ghost takes_beginning = { λ c a _ _. checksum_takes c a };

    #[tactic(auto, unfolding(crate::specs::Checksum::checksum_of))]
    fn byte(&mut self, byte: u8) -> R<()> {
        self.add(byte);
        Ok(())
    }

    #[tactic(auto, unfolding(crate::specs::Checksum::checksum_of))]
    fn vec(&mut self, v: &[u8]) -> R<()> {
        self.append(v);
        Ok(())
    }
}

impl Checksum {
    /// Adds bytes to the sum.
    pub fn append(&mut self, bytes: &[u8])
        ensures { self.new ≡ (self.old + sum bytes.now) % 256 }
    {
        let mut value = self.value;
        for byte in bytes {
            value = value.wrapping_add(*byte);
        }
        self.value = value;
    }

    /// Subtracts bytes from the sum.
    pub fn delete(&mut self, bytes: &[u8])
        ensures { (self.new + sum bytes.now) % 256 ≡ self.old }
    {
        let mut value = self.value;
        for byte in bytes {
            value = value.wrapping_sub(*byte);
        }
        self.value = value;
    }

    /// Adds one byte to the sum.
    pub fn add(&mut self, byte: u8)
        ensures { self.new ≡ (self.old + byte) % 256 }
    {
        self.value = self.value.wrapping_add(byte);
    }

    /// Subtracts one byte from the sum.
    pub fn sub(&mut self, byte: u8)
        ensures { (self.new + byte) % 256 ≡ self.old }
    {
        self.value = self.value.wrapping_sub(byte);
    }

    /// The sum.
    pub fn raw_value(&self) -> u8
        ensures { result ≡ self.now }
    {
        self.value
    }

    /// The byte that makes the sum zero.
    pub fn value(&self) -> u8
        ensures zero { (self.now + result) % 256 ≡ 0 }
        ensures complement { result ≡ (256 - self.now) % 256 }
    {
        0u8.wrapping_sub(self.value)
    }
}
