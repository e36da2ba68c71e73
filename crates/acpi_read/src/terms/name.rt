//! Names (ACPI 6.5, 20.2.2).

ghost use Rattle.std.specs.Prelude.{◌≡◌, true, false};
ghost use Rattle.acpi_term.specs.Reading.{names_first, segment_at, segments_at, path_at, name_at};
ghost use Rattle.acpi_term.specs.Reading.{above_at, name_string_at, name_in};
ghost use Rattle.acpi_term.specs.Name.{begins_name, begins_up};
ghost use Rattle.acpi_read.specs.Cause.{Gives};

use crate::terms::cause::Cause;
use acpi_term::language::Language;
use acpi_term::name_string::{NameString, name_of};
use acpi_term::segment::{after_up, begins_up, is_lead, is_segment};
use std::alloc::Global;

/// Whether a name may begin with the byte.
pub fn begins_name(language: Language, byte: u8) -> bool
    ensures { result ≡ begins_name language byte }
{
    is_lead(byte)
        || byte == 0x2e
        || byte == 0x2f
        || byte == 0x5c
        || (byte == 0x5e && language.is_standard())
}

/// Whether a name of the standard may begin with the first of the bytes.
pub fn names_first(bytes: &[u8]) -> bool
    ensures { result ≡ names_first bytes.now }
{
    match bytes {
        [] => false,
        [byte, ..] => begins_name(Language::Standard, *byte),
    }
}

/// A standard segment, and the bytes after it.
pub fn segment(bytes: &[u8]) -> Result<(&[u8], &[u8]), Cause>
    ensures { Gives (λ x. (x.0.now, x.1.now)) result (segment_at bytes.now) }
{
    match bytes {
        [a, b, c, d, ..] => {
            if is_segment(*a, *b, *c, *d) {
                Ok(bytes.split_at(4))
            } else {
                Err(Cause::Opcode)
            }
        }
        _ => Err(Cause::Truncated),
    }
}

fn segments(count: u8, bytes: &[u8]) -> Result<(&[u8], &[u8]), Cause>
    ensures { Gives (λ x. (x.0.now, x.1.now)) result (segments_at count bytes.now) }
{
    let mut rest = bytes;
    'segments: for _ in 0..count {
        let (_, after) = segment(rest)?;
        rest = after;
    }
    Ok(bytes.split_at(bytes.len() - rest.len()))
}

#[tactic(auto, unfolding(acpi_term::specs::Reading::path_at, acpi_term::specs::Reading::several_at))]
fn path(bytes: &[u8]) -> Result<(&[u8], &[u8]), Cause>
    ensures { Gives (λ x. (x.0.now, x.1.now)) result (path_at bytes.now) }
{
    let Some((lead, after)) = bytes.split_first() else {
        return Err(Cause::Truncated);
    };
    if *lead == 0x2f {
        let Some((count, after)) = after.split_first() else {
            return Err(Cause::Truncated);
        };
        if *count < 3 {
            return Err(Cause::Opcode);
        }
        let (text, _) = segments(*count, after)?;
        return Ok(bytes.split_at(2 + text.len()));
    }
    if *lead != 0x2e {
        return segment(bytes);
    }
    let (first, after) = segment(after)?;
    let (second, _) = segment(after)?;
    Ok(bytes.split_at(1 + first.len() + second.len()))
}

#[tactic(auto, unfolding(acpi_term::specs::Reading::name_at))]
fn spelled_name(bytes: &[u8]) -> Result<(&[u8], &[u8]), Cause>
    ensures { Gives (λ x. (x.0.now, x.1.now)) result (name_at bytes.now) }
{
    let Some((lead, after)) = bytes.split_first() else {
        return Err(Cause::Truncated);
    };
    if *lead != 0x5c {
        return path(bytes);
    }
    let (text, _) = path(after)?;
    Ok(bytes.split_at(1 + text.len()))
}

// A path or a zero.
#[tactic(auto, using(crate::proofs::Fronts::no_path, crate::proofs::Fronts::null_here, crate::proofs::Fronts::path_here,))]
fn last(bytes: &[u8]) -> Result<(&[u8], &[u8]), Cause>
    requires { begins_up bytes.now ≡ false }
    ensures { Gives (λ x. (x.0.now, x.1.now)) result (above_at bytes.now) }
{
    match bytes {
        [] => Err(Cause::Truncated),
        [0, ..] => Ok(bytes.split_at(1)),
        _ => path(bytes),
    }
}

// What stands after `^`: `^` any number of times, and a path or a zero.
fn above(bytes: &[u8]) -> Result<(&[u8], &[u8]), Cause>
    ensures { Gives (λ x. (x.0.now, x.1.now)) result (above_at bytes.now) }
{
    let mut rest = bytes;
    'above: while begins_up(rest) {
        rest = after_up(rest);
    }
    let (text, _) = last(rest)?;
    Ok(bytes.split_at(bytes.len() - rest.len() + text.len()))
}

// A name that begins with `^`.
fn upwards(bytes: &[u8]) -> Result<(&[u8], &[u8]), Cause>
    requires { begins_up bytes.now ≡ true }
    ensures { Gives (λ x. (x.0.now, x.1.now)) result (name_string_at bytes.now) }
{
    let (text, _) = above(after_up(bytes))?;
    Ok(bytes.split_at(1 + text.len()))
}

#[tactic(auto, unfolding(acpi_term::specs::Reading::name_string_at, acpi_term::specs::Reading::root_at))]
fn name_string(bytes: &[u8]) -> Result<(&[u8], &[u8]), Cause>
    ensures { Gives (λ x. (x.0.now, x.1.now)) result (name_string_at bytes.now) }
{
    match bytes {
        [] => Err(Cause::Truncated),
        [0x5e, ..] => upwards(bytes),
        [0x5c] => Err(Cause::Truncated),
        [0x5c, 0, ..] => Ok(bytes.split_at(2)),
        _ => spelled_name(bytes),
    }
}

fn name_in(language: Language, bytes: &[u8]) -> Result<(&[u8], &[u8]), Cause>
    ensures { Gives (λ x. (x.0.now, x.1.now)) result (name_in language bytes.now) }
{
    match language {
        Language::Written => spelled_name(bytes),
        Language::Standard => name_string(bytes),
    }
}

/// The name at the front, and the bytes after it.
pub fn name(language: Language, alloc: Global, bytes: &[u8]) -> Result<(NameString, &[u8]), Cause>
    ensures { Gives (λ x. (x.0, x.1.now)) result (name_in language bytes.now) }
{
    let (spelling, rest) = name_in(language, bytes)?;
    let name = name_of(alloc, spelling)?;
    Ok((name, rest))
}
