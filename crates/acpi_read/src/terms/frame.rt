//! Numbers, lengths and frames (ACPI 6.5, 20.2.3 and 20.2.4).

ghost use Rattle.std.specs.Prelude.{◌≡◌, ◌≤◌, ◌<◌, ◌^◌, IfOk};
ghost use Rattle.acpi_term.specs.Reading.{cut_at, high_at, long_at, length_at, sized_at, frame_at};
ghost use Rattle.acpi_read.specs.Cause.{Gives};

use crate::terms::cause::Cause;

fn cut(size: usize, bytes: &[u8]) -> Result<(&[u8], &[u8]), Cause>
    ensures { Gives (λ x. (x.0.now, x.1.now)) result (cut_at size bytes.now) }
{
    if bytes.len() < size {
        return Err(Cause::Length);
    }
    Ok(bytes.split_at(size))
}

/// A number of this many bytes, lowest first, and the bytes after it. Numbers of one, two and four bytes are read at once.
#[tactic(auto, unfolding(acpi_term::specs::Reading::high_at))]
pub fn number(size: u8, bytes: &[u8]) -> Result<(u64, &[u8]), Cause>
    requires { size ≤ 8 }
    ensures gives { Gives (λ x. (x.0, x.1.now)) result (high_at size bytes.now) }
    ensures below { IfOk result (λ x. x.0 < 256 ^ size) }
{
    match (size, bytes) {
        (1, [a, rest @ ..]) => Ok((u64::from(*a), rest)),
        (2, [a, b, rest @ ..]) => Ok((u64::from(*a) + 256 * u64::from(*b), rest)),
        (4, [a, b, c, d, rest @ ..]) => {
            let (low, high) = (
                u64::from(*a) + 256 * u64::from(*b),
                u64::from(*c) + 256 * u64::from(*d),
            );
            Ok((low + 65_536 * high, rest))
        }
        _ => number_by_bytes(size, bytes),
    }
}

// Reads a number byte by byte.
#[tactic(auto, unfolding(acpi_term::specs::Reading::high_at))]
fn number_by_bytes(size: u8, bytes: &[u8]) -> Result<(u64, &[u8]), Cause>
    requires { size ≤ 8 }
    ensures gives { Gives (λ x. (x.0, x.1.now)) result (high_at size bytes.now) }
    ensures below { IfOk result (λ x. x.0 < 256 ^ size) }
{
    if size == 0 {
        return Ok((0, bytes));
    }
    let Some((low, rest)) = bytes.split_first() else {
        return Err(Cause::Truncated);
    };
    let (high, rest) = number_by_bytes(size - 1, rest)?;
    Ok((u64::from(*low) + 256 * high, rest))
}

fn long_length(following: u8, low: u8, bytes: &[u8]) -> Result<(u8, u32, &[u8]), Cause>
    requires lower { 1 ≤ following }
    requires upper { following ≤ 3 }
    ensures { Gives (λ x. (x.0, x.1, x.2.now)) result (long_at following low bytes.now) }
{
    if low >= 16 {
        return Err(Cause::Length);
    }
    let (high, rest) = number(following, bytes)?;
    Ok((following + 1, u32::from(low) + 16 * (high as u32), rest))
}

/// The width of a length, its value, and the bytes after it. The width needn't be the least.
#[tactic(auto, unfolding(acpi_term::specs::Reading::length_at))]
pub fn length(bytes: &[u8]) -> Result<(u8, u32, &[u8]), Cause>
    ensures { Gives (λ x. (x.0, x.1, x.2.now)) result (length_at bytes.now) }
{
    let Some((lead, rest)) = bytes.split_first() else {
        return Err(Cause::Truncated);
    };
    let lead = *lead;
    if lead < 64 {
        return Ok((1, u32::from(lead), rest));
    }
    long_length(lead / 64, lead % 64, rest)
}

fn sized(width: u8, length: u32, bytes: &[u8]) -> Result<(u8, &[u8], &[u8]), Cause>
    ensures { Gives (λ x. (x.0, x.1.now, x.2.now)) result (sized_at width length bytes.now) }
{
    if length < u32::from(width) {
        return Err(Cause::Length);
    }
    let (content, after) = cut((length - u32::from(width)) as usize, bytes)?;
    Ok((width, content, after))
}

/// The width of a frame's length, its content, and the bytes after it.
#[tactic(auto, unfolding(acpi_term::specs::Reading::frame_at))]
pub fn frame(bytes: &[u8]) -> Result<(u8, &[u8], &[u8]), Cause>
    ensures { Gives (λ x. (x.0, x.1.now, x.2.now)) result (frame_at bytes.now) }
{
    let (width, length, rest) = length(bytes)?;
    sized(width, length, rest)
}
