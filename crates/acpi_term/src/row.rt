//! Writing the rows of terms.

ghost use Rattle.std.specs.Prelude.{◌≡◌, ◌≤◌, ◌<◌, ◌+◌, ◌-◌, ◌^◌, [], ◌∷◌, ◌++◌, length};
ghost use Rattle.std.specs.Prelude.{take, drop, map, OnOk, IfOk, IfErr, None, Some};
ghost use Rattle.acpi_base.specs.Object.{all_of};
ghost use Rattle.acpi_term.specs.Made.{Makes};
ghost use Rattle.acpi_term.specs.Length.{limit, least_width, StartsWithLength};
ghost use Rattle.acpi_term.specs.Row.{bare, framed, around, frame_end, frame};

use acpi_base::buffer::{append_all, append_before};
use acpi_base::error::{Error, R};
use acpi_base::object::Aml;
use acpi_base::patch::write_at;
use std::alloc::Global;

/// The number of bytes of a length (ACPI 6.5, 20.2.4): the fewest that can count themselves and `n` more bytes.
pub fn least_width(n: usize) -> u8
    ensures { result ≡ least_width n }
{
    if n < 63 {
        1
    } else if n < 4094 {
        2
    } else if n < 1_048_573 {
        3
    } else {
        4
    }
}

/// A value as a length of `width` bytes (ACPI 6.5, 20.2.4): the first `width` of the four bytes that are returned.
#[tactic(auto, using(crate::proofs::Lengths::starts_one, crate::proofs::Lengths::starts_two, crate::proofs::Lengths::starts_three, crate::proofs::Lengths::starts_four, crate::proofs::Lengths::width_last,))]
pub fn length_bytes(width: u8, value: u32) -> [u8; 4]
    requires { value < limit width }
    ensures { StartsWithLength width value result }
{
    let low = (value % 16) as u8;
    match width {
        1 => [value as u8, 0, 0, 0],
        2 => [64 + low, (value / 16) as u8, 0, 0],
        3 => [128 + low, (value / 16 % 256) as u8, (value / 4096) as u8, 0],
        _ => [
            192 + low,
            (value / 16 % 256) as u8,
            (value / 4096 % 256) as u8,
            (value / 1_048_576) as u8,
        ],
    }
}

/// The PkgLength of a content of `size` bytes (ACPI 6.5, 20.2.4), and its width w: it is the first w of the four bytes. It counts
/// itself. The error is `PkgLength` if its value would reach 2^28.
#[tactic(auto, using(crate::proofs::Lengths::width_carries))]
pub fn frame_length(size: usize) -> R<([u8; 4], usize)>
    ensures width { IfOk result (λ p. p.1 ≡ least_width size) }
    ensures ok { IfOk result (λ p. StartsWithLength p.1 (p.1 + size) p.0) }
    ensures end { OnOk result (frame_end size ≡ None) }
    ensures err { IfErr result (λ e. frame_end size ≡ Some e) }
{
    if size >= 268_435_452 {
        return Err(Error::PkgLength);
    }
    let width = least_width(size);
    Ok((
        length_bytes(width, size as u32 + u32::from(width)),
        usize::from(width),
    ))
}

/// The length of a field entry of `bits` bits (ACPI 6.5, 20.2.5.2), and its width w: it is the first w of the four bytes. It
/// doesn't count itself. The error is `PkgLength` from 2^28 bits on.
#[tactic(auto, using(crate::proofs::Lengths::width_holds))]
pub fn field_length(bits: usize) -> R<([u8; 4], usize)>
    ensures width { IfOk result (λ p. p.1 ≡ least_width bits) }
    ensures ok { IfOk result (λ p. StartsWithLength p.1 bits p.0) }
    ensures end { OnOk result (bits < 2 ^ 28) }
    ensures err { IfErr result (λ e. (e ≡ Error.PkgLength) × (2 ^ 28 ≤ bits)) }
{
    if bits >= 268_435_456 {
        return Err(Error::PkgLength);
    }
    let width = least_width(bits);
    Ok((length_bytes(width, bits as u32), usize::from(width)))
}

// Room for what usually follows, so that the vector rarely grows.
const ROOM: usize = 64;

/// A vector of these bytes, with room for more.
#[inline(always)]
pub fn with_room(alloc: Global, bytes: &[u8]) -> R<Vec<u8>>
    ensures ok { IfOk result (λ v. v.items ≡ bytes.now) }
    ensures err { IfErr result (λ e. e ≡ Error.Memory) }
{
    let mut vector = Vec::with_capacity(alloc, bytes.len() + ROOM)?;
    vector.extend_from_slice(bytes)?;
    Ok(vector)
}

/// Inserts two lists of bytes into a vector at an index.
#[inline(always)]
#[tactic(auto, using(crate::proofs::Inserts::inserted))]
pub fn insert(bytes: &mut Vec<u8>, at: usize, first: &[u8], second: &[u8]) -> R<()>
    requires { at ≤ length bytes.old.items }
    ensures ok { OnOk result (bytes.new.items ≡ take at bytes.old.items
        ++ ((first.now ++ second.now) ++ drop at bytes.old.items)) }
    ensures err { IfErr result (λ e. e ≡ Error.Memory) }
{
    let end = bytes.len();
    let Some(size) = end.checked_add(first.len() + second.len()) else {
        return Err(Error::Memory);
    };
    bytes.resize(size, 0)?;
    fill(bytes, at, end, first, second);
    Ok(())
}

// Moves the bytes between `at` and `end` to the end of the slice, and writes the other bytes in their place.
#[inline(always)]
#[tactic(auto, using(crate::proofs::Inserts::filled))]
fn fill(bytes: &mut [u8], at: usize, end: usize, first: &[u8], second: &[u8])
    requires order { at ≤ end }
    requires room { end + (length first.now + length second.now) ≡ length bytes.old }
    ensures { bytes.new ≡ take at bytes.old ++ ((first.now ++ second.now) ++ take (end - at) (drop at bytes.old)) }
{
    bytes.copy_within(at..end, at + (first.len() + second.len()));
    write_at(bytes, at, first);
    write_at(bytes, at + first.len(), second);
}

/// Bytes that are already in a vector, and then the children.
#[inline(always)]
pub fn bare_on(before: Vec<u8>, children: &[&dyn Aml]) -> R<Vec<u8>>
    ensures { Makes result (around (bare before.items) (all_of (map (λ child. object child.now) children.now))) }
{
    let mut bytes = before;
    append_all(children, &mut bytes)?;
    Ok(bytes)
}

/// Bytes, and then the children.
pub fn bare(alloc: Global, before: &[u8], children: &[&dyn Aml]) -> R<Vec<u8>>
    ensures { Makes result (around (bare before.now) (all_of (map (λ child. object child.now) children.now))) }
{
    let bytes = with_room(alloc, before)?;
    bare_on(bytes, children)
}

/// An opcode, and a frame whose content is already in a vector and is moved up.
#[inline(always)]
pub fn frame(code: &[u8], content: Vec<u8>) -> R<Vec<u8>>
    ensures { Makes result (frame code.now content.items) }
{
    let (length, used) = frame_length(content.len())?;
    let mut bytes = content;
    insert(&mut bytes, 0, code, &length[..used])?;
    Ok(bytes)
}

/// An opcode, and a frame: bytes that are already in a vector, the children, and bytes after them.
#[inline(always)]
pub fn framed(code: &[u8], before: Vec<u8>, children: &[&dyn Aml], after: &[u8]) -> R<Vec<u8>>
    ensures { Makes result
        (around (framed code.now before.items after.now) (all_of (map (λ child. object child.now) children.now))) }
{
    let mut content = before;
    append_all(children, &mut content)?;
    content.extend_from_slice(after)?;
    frame(code, content)
}

/// An opcode, and a frame of one child and the others.
pub fn framed_before(alloc: Global, code: &[u8], first: &dyn Aml, rest: &[&dyn Aml]) -> R<Vec<u8>>
    ensures { Makes result (around (framed code.now [] []) (all_of (object first.now
        ∷ map (λ child. object child.now) rest.now))) }
{
    let mut content = with_room(alloc, &[])?;
    append_before(first, rest, &mut content)?;
    frame(code, content)
}
