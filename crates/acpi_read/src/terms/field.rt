//! Field entries (ACPI 6.5, 20.2.5.2).

ghost use Rattle.std.specs.Prelude.{◌≡◌, ◌≤◌, length, map};
ghost use Rattle.acpi_term.specs.View.{entry_view};
ghost use Rattle.acpi_term.specs.Reading.{further, constant_in, constant_at, access_at, extended_access_at, connection_at};
ghost use Rattle.acpi_term.specs.Reading.{entry_at, entries_at};
ghost use Rattle.acpi_read.specs.Cause.{Gives};

use crate::terms::cause::Cause;
use crate::terms::frame::{frame, length, number};
use crate::terms::name::{name, segment};
use acpi_term::language::Language;
use acpi_term::term::TermEntry;
use std::alloc::Global;

fn constant_in(width: u8, bytes: &[u8]) -> Result<(u64, u8, &[u8]), Cause>
    requires { width ≤ 8 }
    ensures { Gives (λ x. (x.0, x.1, x.2.now)) result (constant_in width bytes.now) }
{
    let (value, rest) = number(width, bytes)?;
    Ok((value, width, rest))
}

/// A number in any width: its value, its width, and the bytes after it.
#[tactic(auto, unfolding(acpi_term::specs::Reading::constant_at))]
fn constant(bytes: &[u8]) -> Result<(u64, u8, &[u8]), Cause>
    ensures { Gives (λ x. (x.0, x.1, x.2.now)) result (constant_at bytes.now) }
{
    let Some((byte, rest)) = bytes.split_first() else {
        return Err(Cause::Truncated);
    };
    match *byte {
        0x00 | 0x01 => Ok((u64::from(*byte), 0, rest)),
        0x0a => constant_in(1, rest),
        0x0b => constant_in(2, rest),
        0x0c => constant_in(4, rest),
        0x0e => constant_in(8, rest),
        _ => Err(Cause::Opcode),
    }
}

fn access(language: Language, bytes: &[u8]) -> Result<(TermEntry, &[u8]), Cause>
    ensures { Gives (λ x. (entry_view x.0, x.1.now)) result (further language (access_at bytes.now)) }
{
    if !language.is_standard() {
        return Err(Cause::Text);
    }
    let [access, attribute, rest @ ..] = bytes else {
        return Err(Cause::Truncated);
    };
    Ok((TermEntry::AccessAs(*access, *attribute), rest))
}

fn extended_access(language: Language, bytes: &[u8]) -> Result<(TermEntry, &[u8]), Cause>
    ensures { Gives (λ x. (entry_view x.0, x.1.now)) result (further language (extended_access_at bytes.now)) }
{
    if !language.is_standard() {
        return Err(Cause::Text);
    }
    let [access, attribute, size, rest @ ..] = bytes else {
        return Err(Cause::Truncated);
    };
    Ok((
        TermEntry::ExtendedAccessAs(*access, *attribute, *size),
        rest,
    ))
}

#[tactic(auto, unfolding(acpi_term::specs::Reading::connection_at))]
fn connected(language: Language, alloc: Global, bytes: &[u8]) -> Result<(TermEntry, &[u8]), Cause>
    ensures { Gives (λ x. (entry_view x.0, x.1.now)) result (connection_at language bytes.now) }
{
    match bytes {
        [] => Err(Cause::Truncated),
        [0x11, rest @ ..] => {
            let (width, content, after) = frame(rest)?;
            let (size, size_width, bytes) = constant(content)?;
            let bytes = Vec::from_slice(alloc, bytes)?;
            let entry = TermEntry::ConnectionBuffer {
                width,
                size,
                size_width,
                bytes,
            };
            Ok((entry, after))
        }
        _ => {
            let (name, rest) = name(language, alloc, bytes)?;
            Ok((TermEntry::Connection(name), rest))
        }
    }
}

fn connection(language: Language, alloc: Global, bytes: &[u8]) -> Result<(TermEntry, &[u8]), Cause>
    ensures { Gives (λ x. (entry_view x.0, x.1.now)) result (further language (connection_at language bytes.now)) }
{
    if !language.is_standard() {
        return Err(Cause::Text);
    }
    connected(language, alloc, bytes)
}

#[tactic(auto, unfolding(acpi_term::specs::Reading::entry_at))]
fn entry(language: Language, alloc: Global, bytes: &[u8]) -> Result<(TermEntry, &[u8]), Cause>
    ensures { Gives (λ x. (entry_view x.0, x.1.now)) result (entry_at language bytes.now) }
{
    let Some((byte, rest)) = bytes.split_first() else {
        return Err(Cause::Truncated);
    };
    match *byte {
        0x00 => {
            let (width, bits, rest) = length(rest)?;
            Ok((TermEntry::Reserved(bits, width), rest))
        }
        0x01 => access(language, rest),
        0x02 => connection(language, alloc, rest),
        0x03 => extended_access(language, rest),
        _ => {
            let (name, rest) = segment(bytes)?;
            let (width, bits, rest) = length(rest)?;
            Ok((
                TermEntry::Named([name[0], name[1], name[2], name[3]], bits, width),
                rest,
            ))
        }
    }
}

/// Reads all of the bytes as entries.
pub fn entries(language: Language, alloc: Global, bytes: &[u8]) -> Result<Vec<TermEntry>, Cause>
    ensures { Gives (λ v. map entry_view v.items) result (entries_at language (length bytes.now) bytes.now) }
{
    let mut entries = Vec::new(alloc);
    let mut rest = bytes;
    'entries: while !rest.is_empty() {
        let (entry, after) = entry(language, alloc, rest)?;
        entries.push(entry)?;
        rest = after;
    }
    Ok(entries)
}
