//! Random changes of bytes, the same in each run.

use std::test::Fail;

/// Pseudorandom numbers: Marsaglia's xorshift, from a seed.
#[derive(Drop)]
pub struct Numbers(pub u64);

impl Numbers {
    /// A number below a bound, or 0 if the bound is 0.
    pub fn below(&mut self, bound: usize) -> usize {
        self.0 ^= self.0 << 13;
        self.0 ^= self.0 >> 7;
        self.0 ^= self.0 << 17;
        match bound {
            0 => 0,
            _ => (self.0 % bound as u64) as usize,
        }
    }
}

// Swaps two adjacent pieces: the one from `first` to `second`, and the one from there to `end`.
fn swap(bytes: &mut [u8], first: usize, second: usize, end: usize) {
    if first <= second && second <= end && end <= bytes.len() {
        bytes[first..end].rotate_left(second - first);
    }
}

// Changes a byte by one near the beginning of a piece, where lengths and counts are.
fn be_off_by_one(numbers: &mut Numbers, bytes: &mut [u8], seams: &[usize]) {
    let seam = seams.get(numbers.below(seams.len())).copied().unwrap_or(0);
    let change = if numbers.below(2) == 0 { 1 } else { 0xff };
    if let Some(byte) = bytes.get_mut(seam.saturating_add(numbers.below(8))) {
        *byte = byte.wrapping_add(change);
    }
}

fn change_once(numbers: &mut Numbers, bytes: &mut Vec<u8>, seams: &[usize]) -> Result<(), Fail> {
    let at = numbers.below(bytes.len());
    if at >= bytes.len() {
        return Ok(());
    }
    match numbers.below(6) {
        0 => bytes[at] ^= 1 << (numbers.below(8) & 7),
        1 => {
            bytes.remove(at);
        }
        2 => bytes.insert(at, bytes[at])?,
        3 => bytes.truncate(at),
        4 => be_off_by_one(numbers, bytes, seams),
        _ => {
            let piece = numbers.below(seams.len().saturating_sub(2));
            if let Some([first, second, end]) = seams.get(piece..piece.saturating_add(3)) {
                swap(bytes, *first, *second, *end);
            }
        }
    }
    Ok(())
}

/// Makes one to four changes: a bit is flipped, a byte is removed or doubled, all bytes from one on are removed, a byte where a
/// length or a count may be is changed by one, or two pieces are swapped. The seams are the offsets of the pieces and the end of
/// the last.
pub fn change(numbers: &mut Numbers, bytes: &mut Vec<u8>, seams: &[usize]) -> Result<(), Fail> {
    for _ in 0..=numbers.below(4) {
        change_once(numbers, bytes, seams)?;
    }
    Ok(())
}
