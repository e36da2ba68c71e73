//! The bytes of a list of terms, each at the width that it has.

ghost use Rattle.std.specs.Prelude.{◌≡◌, ◌≢◌, ℕ, ◌<◌, ◌≤◌, ◌^◌, ◌∷◌, ◌++◌, OnOk, IfOk, IfErr, map};
ghost use Rattle.acpi_base.specs.Number.{number_limit, number_bytes};
ghost use Rattle.acpi_term.specs.Length.{limit, length_bytes, with_length, FrameFits, StartsWithLength};
ghost use Rattle.acpi_term.specs.Row.{entry_bytes, entries_bytes, field_flags, leveled_flags, after_of, layout};
ghost use Rattle.acpi_term.specs.Spelling.{spelling, EntryFits, EntriesFit};
ghost use Rattle.acpi_term.specs.View.{view, views, entry_view, single, head_of};
ghost use Rattle.acpi_term.specs.Carried.{IsUnfit, AreCarried, Added, IsUncarried, BareFits, Laid, Unlaid};
ghost use Rattle.acpi_term.specs.Carried.{OwnLaid, OwnUnlaid, FlagsFit, ValuesFit};

use crate::apart::{Kind, frame_code, parts_of};
use crate::row::length_bytes;
use crate::term::{Term, TermEntry};
use acpi_base::error::{Error, R};
use std::alloc::Global;

/// The bytes that spell the terms (ACPI 6.5, 20.2). It is an error if a value or a width doesn't fit its bytes.
pub fn spell(alloc: Global, terms: &[Term]) -> R<Vec<u8>>
    ensures ok { IfOk result (λ v. v.items ≡ spelling (views terms.now)) }
    ensures carried { OnOk result (AreCarried (views terms.now)) }
    ensures err { IfErr result (λ e. e ≢ Error.Memory → AreCarried (views terms.now) → ⊥) }
{
    let mut bytes = Vec::new(alloc);
    spell_all(alloc, terms, &mut bytes)?;
    Ok(bytes)
}

#[cycle(spell)]
fn spell_all(alloc: Global, terms: &[Term], bytes: &mut Vec<u8>) -> R<()>
    ensures ok { OnOk result (Added (views terms.now) bytes.old.items bytes.new.items) }
    ensures err { IfErr result (λ e. IsUncarried e (views terms.now)) }
{
    for term in terms {
        spell_term(alloc, term, bytes)?;
    }
    Ok(())
}

#[cycle(spell)]
fn spell_term(alloc: Global, term: &Term, bytes: &mut Vec<u8>) -> R<()>
    ensures ok { OnOk result (Added (single (view term.now)) bytes.old.items bytes.new.items) }
    ensures err { IfErr result (λ e. IsUncarried e (single (view term.now))) }
{
    let parts = parts_of(term);
    let mut inside = Vec::new(alloc);
    spell_all(alloc, parts.first, &mut inside)?;
    spell_all(alloc, parts.others, &mut inside)?;
    let count = parts.first.len() + parts.others.len();
    let own = lay(alloc, parts.kind, parts.width, count, &inside)?;
    bytes.extend_from_slice(&own)?;
    Ok(())
}

/// The bytes of a term around those of its children.
#[tactic(auto, using(crate::proofs::Spells::bare_laid, crate::proofs::Spells::bare_unlaid, crate::proofs::Spells::frame_laid, crate::proofs::Spells::frame_unlaid, crate::proofs::Spells::own_unlaid, crate::proofs::Spells::after_unlaid,))]
fn lay(alloc: Global, kind: Kind<'_>, width: u8, count: usize, inside: &[u8]) -> R<Vec<u8>>
    ensures ok { IfOk result (λ v. Laid (head_of kind.entry) width count inside.now v.items) }
    ensures err { IfErr result (λ e. Unlaid e (head_of kind.entry) width count inside.now) }
{
    let before = own_bytes(alloc, kind, width, count)?;
    match frame_code(kind) {
        Some(code) => {
            let after = bytes_after(alloc, kind)?;
            frame_in(alloc, code, width, &before, inside, &after)
        }
        None => bare_in(alloc, kind, width, &before, inside),
    }
}

/// The bytes before a term's children, without the opcode and the length of a frame.
fn own_bytes(alloc: Global, kind: Kind<'_>, width: u8, count: usize) -> R<Vec<u8>>
    ensures ok { IfOk result (λ v. OwnLaid (head_of kind.entry) width count v.items) }
    ensures err { IfErr result (λ e. OwnUnlaid e (head_of kind.entry) width count) }
{
    match kind {
        Kind::Number(value) => number_in(alloc, value, width),
        Kind::Ones => joined(alloc, &[0xff], &[], &[]),
        Kind::Text(text) => joined(alloc, &[0x0d], text.as_bytes(), &[0x00]),
        Kind::Local(n) => {
            if n > 7 {
                return Err(Error::LocalNumber);
            }
            joined(alloc, &[0x60 + n], &[], &[])
        }
        Kind::Arg(n) => {
            if n > 6 {
                return Err(Error::ArgNumber);
            }
            joined(alloc, &[0x68 + n], &[], &[])
        }
        Kind::Call(name) | Kind::Scope(name) | Kind::Device(name) => {
            joined(alloc, name.as_bytes(), &[], &[])
        }
        Kind::Method(name, args, serialized) => {
            if args > 7 {
                return Err(Error::MethodArgs);
            }
            let flags = args + if serialized { 8 } else { 0 };
            joined(alloc, name.as_bytes(), &[flags], &[])
        }
        Kind::PowerResource(name, level, order) => {
            joined(alloc, name.as_bytes(), &[level], &order.to_le_bytes())
        }
        Kind::Field(name, access, lock, update, entries) => {
            let flags = field_flags(access, lock, update)?;
            let mut bytes = joined(alloc, name.as_bytes(), &[flags], &[])?;
            spell_entries(alloc, entries, &mut bytes)?;
            Ok(bytes)
        }
        Kind::OpRegion(name, space) => joined(alloc, &[0x5b, 0x80], name.as_bytes(), &[space]),
        Kind::Name(name) => joined(alloc, &[0x08], name.as_bytes(), &[]),
        Kind::Mutex(name, level) => joined(alloc, &[0x5b, 0x01], name.as_bytes(), &[level]),
        Kind::Acquire(name, timeout) => {
            joined(
                alloc,
                &[0x5b, 0x23],
                name.as_bytes(),
                &timeout.to_le_bytes(),
            )
        }
        Kind::Release(name) => joined(alloc, &[0x5b, 0x27], name.as_bytes(), &[]),
        Kind::Package => {
            let Ok(count) = u8::try_from(count) else {
                return Err(Error::PackageElements);
            };
            joined(alloc, &[count], &[], &[])
        }
        Kind::Buffer(_) | Kind::VarPackage | Kind::If | Kind::While | Kind::Else => {
            Ok(Vec::new(alloc))
        }
        Kind::Op(op) => joined(alloc, op.code(), &[], &[]),
        Kind::External(name, kind, args) => joined(alloc, &[0x15], name.as_bytes(), &[kind, args]),
        Kind::LeveledMethod(name, args, serialized, level) => {
            let flags = leveled_flags(args, serialized, level)?;
            joined(alloc, name.as_bytes(), &[flags], &[])
        }
        Kind::Processor(name, id, address, size) => {
            let [a, b, c, d] = address.to_le_bytes();
            joined(alloc, name.as_bytes(), &[id, a, b, c, d, size], &[])
        }
        Kind::ThermalZone(name) => joined(alloc, name.as_bytes(), &[], &[]),
        Kind::RoomyPackage(room) => {
            if count >= usize::from(room) {
                return Err(Error::PackageElements);
            }
            joined(alloc, &[room], &[], &[])
        }
        Kind::IndexField(index, name, access, lock, update, entries) => {
            let flags = field_flags(access, lock, update)?;
            let mut bytes = joined(alloc, index.as_bytes(), name.as_bytes(), &[flags])?;
            spell_entries(alloc, entries, &mut bytes)?;
            Ok(bytes)
        }
        Kind::BankField(name, bank, access, lock, update, entries) => {
            flagged(alloc, access, lock, update, entries)?;
            let names = joined(alloc, name.as_bytes(), bank.as_bytes(), &[])?;
            Ok(names)
        }
        Kind::Fatal(kind, code) => joined(alloc, &[0x5b, 0x32], &[kind], &code.to_le_bytes()),
        Kind::MatchTest(code) => joined(alloc, &[code], &[], &[]),
        Kind::Timeout(milliseconds) => joined(alloc, &milliseconds.to_le_bytes(), &[], &[]),
        Kind::Unread(_, bytes) => joined(alloc, bytes, &[], &[]),
    }
}

/// The bytes after a term's children in a frame: those of a buffer, and the flags and the entries of a BankField.
fn bytes_after(alloc: Global, kind: Kind<'_>) -> R<Vec<u8>>
    ensures ok { IfOk result (λ v. (w n : ℕ) → v.items ≡ after_of (layout (head_of kind.entry) w n)) }
    ensures err { IfErr result (λ e. (w : ℕ) → e ≢ Error.Memory → FlagsFit (head_of kind.entry)
        → ValuesFit (head_of kind.entry) w → ⊥) }
{
    match kind {
        Kind::Buffer(bytes) => joined(alloc, bytes, &[], &[]),
        Kind::BankField(_, _, access, lock, update, entries) => {
            flagged(alloc, access, lock, update, entries)
        }
        _ => Ok(Vec::new(alloc)),
    }
}

/// FieldFlags and FieldList (ACPI 6.5, 20.2.5.2).
fn flagged(alloc: Global, access: u8, lock: u8, update: u8, entries: &[TermEntry]) -> R<Vec<u8>>
    ensures ok { IfOk result (λ v. v.items ≡ field_flags access lock update ∷ entries_bytes (map entry_view entries.now)) }
    ensures flags { OnOk result (field_flags access lock update < 2 ^ 8) }
    ensures fits { OnOk result (EntriesFit (map entry_view entries.now)) }
    ensures err { IfErr result (λ e. e ≢ Error.Memory → field_flags access lock update < 2 ^ 8
        → EntriesFit (map entry_view entries.now) → ⊥) }
{
    let flags = field_flags(access, lock, update)?;
    let mut bytes = joined(alloc, &[flags], &[], &[])?;
    spell_entries(alloc, entries, &mut bytes)?;
    Ok(bytes)
}

/// Three lists of bytes, in order.
fn joined(alloc: Global, a: &[u8], b: &[u8], c: &[u8]) -> R<Vec<u8>>
    ensures ok { IfOk result (λ v. v.items ≡ a.now ++ (b.now ++ c.now)) }
    ensures err { IfErr result (λ e. e ≡ Error.Memory) }
{
    let mut bytes = Vec::from_slice(alloc, a)?;
    bytes.extend_from_slice(b)?;
    bytes.extend_from_slice(c)?;
    Ok(bytes)
}

/// A term without a frame. Only a number has a width.
fn bare_in(alloc: Global, kind: Kind<'_>, width: u8, before: &[u8], inside: &[u8]) -> R<Vec<u8>>
    ensures ok { IfOk result (λ v. v.items ≡ before.now ++ inside.now) }
    ensures fits { OnOk result (BareFits (head_of kind.entry) width) }
    ensures err { IfErr result (λ e. e ≢ Error.Memory → BareFits (head_of kind.entry) width → ⊥) }
{
    match kind {
        Kind::Number(_) => {}
        _ if width == 0 => {}
        _ => return Err(Error::FieldWidth),
    }
    joined(alloc, before, inside, &[])
}

/// An opcode, and a frame of three joined contents whose length has a given width.
fn frame_in(
    alloc: Global,
    code: &[u8],
    width: u8,
    before: &[u8],
    inside: &[u8],
    after: &[u8],
) -> R<Vec<u8>>
    ensures ok { IfOk result (λ v. v.items ≡ code.now ++ with_length width (before.now ++ (inside.now ++ after.now))) }
    ensures fits { OnOk result (FrameFits width (before.now ++ (inside.now ++ after.now))) }
    ensures err { IfErr result (λ e. e ≢ Error.Memory → FrameFits width (before.now ++ (inside.now ++ after.now)) → ⊥) }
{
    let content = joined(alloc, before, inside, after)?;
    if content.len() >= 0x1000_0000 {
        return Err(Error::PkgLength);
    }
    let value = content.len() as u32 + u32::from(width);
    let length = length_in(width, value)?;
    joined(alloc, code, &length[..usize::from(width)], &content)
}

/// A value as a length of a given width.
fn length_in(width: u8, value: u32) -> R<[u8; 4]>
    ensures ok { IfOk result (λ p. StartsWithLength width value p) }
    ensures fits { OnOk result (value < limit width) }
    ensures err { IfErr result (λ e. value < limit width → ⊥) }
{
    let limit = match width {
        1 => 0x40,
        2 => 0x1000,
        3 => 0x10_0000,
        4 => 0x1000_0000,
        _ => 0,
    };
    if value >= limit {
        return Err(Error::PkgLength);
    }
    Ok(length_bytes(width, value))
}

fn number_in(alloc: Global, value: u64, width: u8) -> R<Vec<u8>>
    ensures ok { IfOk result (λ v. v.items ≡ number_bytes value width) }
    ensures fits { OnOk result (value < number_limit width) }
    ensures err { IfErr result (λ e. e ≢ Error.Memory → value < number_limit width → ⊥) }
{
    let [a, b, c, d, e, f, g, h] = value.to_le_bytes();
    match width {
        0 if value < 2 => Ok(Vec::from_slice(alloc, &[a])?),
        1 if value < 0x100 => Ok(Vec::from_slice(alloc, &[0x0a, a])?),
        2 if value < 0x1_0000 => Ok(Vec::from_slice(alloc, &[0x0b, a, b])?),
        4 if value < 0x1_0000_0000 => Ok(Vec::from_slice(alloc, &[0x0c, a, b, c, d])?),
        8 => Ok(Vec::from_slice(alloc, &[0x0e, a, b, c, d, e, f, g, h])?),
        _ => Err(Error::FieldWidth),
    }
}

fn leveled_flags(args: u8, serialized: bool, level: u8) -> R<u8>
    ensures ok { IfOk result (λ flags. flags ≡ leveled_flags args serialized level) }
    ensures few { OnOk result (args ≤ 7) }
    ensures err { IfErr result (λ e. args ≤ 7 → leveled_flags args serialized level < 2 ^ 8 → ⊥) }
{
    if args > 7 {
        return Err(Error::MethodArgs);
    }
    if level > 15 {
        return Err(Error::FieldWidth);
    }
    Ok(args + if serialized { 8 } else { 0 } + 16 * level)
}

fn field_flags(access: u8, lock: u8, update: u8) -> R<u8>
    ensures ok { IfOk result (λ flags. flags ≡ field_flags access lock update) }
    ensures err { IfErr result (λ e. field_flags access lock update < 2 ^ 8 → ⊥) }
{
    let flags = u16::from(access) + 16 * u16::from(lock) + 32 * u16::from(update);
    let Ok(flags) = u8::try_from(flags) else {
        return Err(Error::FieldWidth);
    };
    Ok(flags)
}

fn spell_entries(alloc: Global, entries: &[TermEntry], bytes: &mut Vec<u8>) -> R<()>
    ensures ok { OnOk result (bytes.new.items ≡ bytes.old.items ++ entries_bytes (map entry_view entries.now)) }
    ensures fits { OnOk result (EntriesFit (map entry_view entries.now)) }
    ensures err { IfErr result (λ e. e ≢ Error.Memory → EntriesFit (map entry_view entries.now) → ⊥) }
{
    for entry in entries {
        spell_entry(alloc, entry, bytes)?;
    }
    Ok(())
}

fn spell_entry(alloc: Global, entry: &TermEntry, bytes: &mut Vec<u8>) -> R<()>
    ensures ok { OnOk result (bytes.new.items ≡ bytes.old.items ++ entry_bytes (entry_view entry.now)) }
    ensures fits { OnOk result (EntryFits (entry_view entry.now)) }
    ensures err { IfErr result (λ e. IsUnfit e entry.now) }
{
    let own = entry_in(alloc, entry)?;
    bytes.extend_from_slice(&own)?;
    Ok(())
}

fn entry_in(alloc: Global, entry: &TermEntry) -> R<Vec<u8>>
    ensures ok { IfOk result (λ v. v.items ≡ entry_bytes (entry_view entry.now)) }
    ensures fits { OnOk result (EntryFits (entry_view entry.now)) }
    ensures err { IfErr result (λ e. IsUnfit e entry.now) }
{
    match entry {
        TermEntry::Named(name, bits, width) => bits_in(alloc, name, *bits, *width),
        TermEntry::Reserved(bits, width) => bits_in(alloc, &[0x00], *bits, *width),
        TermEntry::AccessAs(access, attribute) => joined(
            alloc,
            &[0x01, *access, *attribute],
            &[],
            &[],
        ),
        TermEntry::ExtendedAccessAs(access, attribute, size) => {
            joined(alloc, &[0x03, *access, *attribute, *size], &[], &[])
        }
        TermEntry::Connection(name) => joined(alloc, &[0x02], name.as_bytes(), &[]),
        TermEntry::ConnectionBuffer {
            width,
            size,
            size_width,
            bytes,
        } => {
            let number = number_in(alloc, *size, *size_width)?;
            frame_in(alloc, &[0x02, 0x11], *width, &number, bytes, &[])
        }
    }
}

/// These bytes, and a number of bits as a length of a given width.
fn bits_in(alloc: Global, before: &[u8], bits: u32, width: u8) -> R<Vec<u8>>
    ensures ok { IfOk result (λ v. v.items ≡ before.now ++ length_bytes width bits) }
    ensures fits { OnOk result (bits < limit width) }
    ensures err { IfErr result (λ e. e ≢ Error.Memory → bits < limit width → ⊥) }
{
    let length = length_in(width, bits)?;
    joined(alloc, before, &length[..usize::from(width)], &[])
}
