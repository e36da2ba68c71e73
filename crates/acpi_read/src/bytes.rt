//! Numbers in bytes, and sums of bytes.

ghost use Rattle.std.specs.Prelude.{◌≡◌, ◌+◌, ◌%◌, ◌≤◌, ◌↔◌, length, sum, IsTrue};
ghost use Rattle.acpi_base.specs.Bytes.{field_at};

use acpi_base::checksum::Checksum;

/// The number in the four bytes at an offset, lowest first.
pub fn dword_at(bytes: &[u8], offset: usize) -> u32
    requires { offset + 4 ≤ length bytes.now }
    ensures { result ≡ field_at offset 4 bytes.now }
{
    u32::from_le_bytes([
        bytes[offset],
        bytes[offset + 1],
        bytes[offset + 2],
        bytes[offset + 3],
    ])
}

/// The number in the eight bytes at an offset, lowest first.
pub fn qword_at(bytes: &[u8], offset: usize) -> u64
    requires { offset + 8 ≤ length bytes.now }
    ensures { result ≡ field_at offset 8 bytes.now }
{
    u64::from_le_bytes([
        bytes[offset],
        bytes[offset + 1],
        bytes[offset + 2],
        bytes[offset + 3],
        bytes[offset + 4],
        bytes[offset + 5],
        bytes[offset + 6],
        bytes[offset + 7],
    ])
}

/// Whether bytes sum to zero modulo 256.
pub fn sums_to_zero(bytes: &[u8]) -> bool
    ensures { IsTrue result ↔ (sum bytes.now % 256 ≡ 0) }
{
    let mut checksum = Checksum::default();
    checksum.append(bytes);
    checksum.raw_value() == 0
}
