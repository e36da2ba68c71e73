//! The running sum of a table.

ghost use Rattle.std.specs.Prelude.{◌≡◌, ◌+◌, ◌-◌, ◌%◌, ◌<◌, true, false, length, sum};

use crate::summed::Summed;
use std::marker::Model;

/// The sum of a table's bytes modulo 256, and the number of bytes that were summed for it. It stores the byte that makes the sum
/// zero, which is what a table contains. If it stored the sum, the compiler would sum twice to compute that byte.
#[derive(Drop)]
pub struct Sum {
    checksum: u8,
    summed: Summed,
}

impl Model for Sum {
    ghost use Rattle.std.specs.Prelude.{◌-◌, ◌%◌};
    ghost use Rattle.acpi_base.specs.Sum.{Sum};

    ghost Value = { Sum };

    ghost view = { λ s. record { value = (256 - s.checksum) % 256; summed = s.summed.count } };
}

impl Sum {
    /// The sum of no bytes.
    pub fn new() -> Sum
        ensures value { result.value ≡ 0 }
        ensures counted { result.summed ≡ 0 }
    {
        Sum {
            checksum: 0,
            summed: Summed::new(),
        }
    }

    /// The byte that makes the sum zero.
    pub fn checksum(&self) -> u8
        ensures { result ≡ (256 - self.now.value) % 256 }
    {
        self.checksum
    }

    // The only function that sums bytes.
    fn change(&mut self, bytes: &[u8], takes: bool)
        ensures added { takes ≡ false → self.new.value ≡ (self.old.value + sum bytes.now) % 256 }
        ensures taken { takes ≡ true → (self.new.value + sum bytes.now) % 256 ≡ self.old.value }
        ensures range { self.new.value < 256 }
        ensures counted { self.new.summed ≡ self.old.summed + length bytes.now }
    {
        let mut checksum = self.checksum;
        for byte in bytes {
            checksum = if takes {
                checksum.wrapping_add(*byte)
            } else {
                checksum.wrapping_sub(*byte)
            };
            self.summed = Summed::after(&self.summed);
        }
        self.checksum = checksum;
    }

    /// Adds bytes to the sum.
    pub fn add(&mut self, bytes: &[u8])
        ensures value { self.new.value ≡ (self.old.value + sum bytes.now) % 256 }
        ensures counted { self.new.summed ≡ self.old.summed + length bytes.now }
    {
        self.change(bytes, false);
    }

    /// Subtracts bytes from the sum.
    pub fn take(&mut self, bytes: &[u8])
        ensures value { (self.new.value + sum bytes.now) % 256 ≡ self.old.value }
        ensures range { self.new.value < 256 }
        ensures counted { self.new.summed ≡ self.old.summed + length bytes.now }
    {
        self.change(bytes, true);
    }
}
