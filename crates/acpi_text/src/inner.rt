//! The lines of what a structure contains. A function whose name begins with `push` adds to a text.

ghost use Rattle.std.specs.Prelude.{◌≡◌, ◌+◌, ◌<◌, ◌^◌, ◌++◌, length, take, drop, MatchOption, OnOk, IfOk, string_bytes};
ghost use Rattle.acpi_text.specs.Piece.{PiecesShowed, AllShowed};
ghost use Rattle.acpi_text.specs.Size.{start_in, inner_size};
ghost use Rattle.acpi_text.specs.Slot.{nameless};
ghost use Rattle.acpi_text.specs.Structure.{inner_text, lists_text, content_text};

use crate::form::{Inner, InnerList, Part, Start};
use crate::line::push_title;
use crate::part::{count_of, number_at, push_parts};
use crate::size::{inner_form, next_size};
use crate::slot::push_nameless;
use std::alloc::AllocError;

/// Returns the bytes before an index, and those from there on. There may be fewer bytes.
pub fn split_within(start: usize, bytes: &[u8]) -> (&[u8], &[u8])
    ensures front { result.0.now ≡ take start bytes.now }
    ensures rest { result.1.now ≡ drop start bytes.now }
{
    if start < bytes.len() {
        bytes.split_at(start)
    } else {
        (bytes, &bytes[bytes.len()..])
    }
}

/// Returns the bytes of a structure before those within it, and the bytes from there on.
pub fn split_inner(start: Start, whole: &[u8]) -> (&[u8], &[u8])
    ensures front { result.0.now ≡ take (start_in start whole.now) whole.now }
    ensures rest { result.1.now ≡ drop (start_in start whole.now) whole.now }
{
    match start {
        Start::At(offset) => split_within(offset, whole),
        Start::After(offset, place) => {
            let (front, rest) = split_within(offset, whole);
            let (more, _) = split_within(number_at(place, whole), rest);
            whole.split_at(front.len() + more.len())
        }
    }
}

// Adds a structure within another by its form: its name, and its parts a level below.
fn push_inner(
    list: &InnerList,
    at: usize,
    piece: &[u8],
    text: &mut String,
) -> Result<(), AllocError>
    requires { at + length piece.now < 2 ^ 64 }
    ensures { OnOk result (string_bytes text.new ≡ string_bytes text.old ++ inner_text list.now at piece.now) }
{
    match inner_form(list, piece) {
        Some(form) => {
            push_title(0, at, form.name, text)?;
            push_parts(1, form.parts, at, piece, text)
        }
        None => push_nameless(at, piece, text),
    }
}

// Adds `count` structures of a list, and returns how many bytes their lines show. If there are fewer, it also adds the bytes that
// are left, without names, and returns nothing.
fn push_list(
    list: &InnerList,
    count: usize,
    start: usize,
    bytes: &[u8],
    text: &mut String,
) -> Result<Option<usize>, AllocError>
    requires { start + length bytes.now < 2 ^ 64 }
    ensures { IfOk result (λ shown. MatchOption shown
        (AllShowed count (inner_size list.now) (inner_text list.now) nameless start bytes.now
        (string_bytes text.old) (string_bytes text.new))
        (λ n. PiecesShowed count (inner_size list.now) (inner_text list.now) nameless start bytes.now
        (string_bytes text.old) (string_bytes text.new) n)) }
{
    let mut at = 0;
    let mut left = count;
    let mut rest = bytes;
    'inners: while let Some(size) = next_size(left, list, rest) {
        let (piece, more) = rest.split_at(size);
        push_inner(list, start + at, piece, text)?;
        at += size;
        left -= 1;
        rest = more;
    }
    if left == 0 {
        return Ok(Some(at));
    }
    push_nameless(start + at, rest, text)?;
    Ok(None)
}

// Adds lists of structures within a whole, one after another, and then the bytes that are left, without names.
fn push_lists(
    whole: &[u8],
    lists: &[InnerList],
    start: usize,
    bytes: &[u8],
    text: &mut String,
) -> Result<(), AllocError>
    requires { start + length bytes.now < 2 ^ 64 }
    ensures { OnOk result (string_bytes text.new
        ≡ string_bytes text.old ++ lists_text whole.now lists.now start bytes.now) }
{
    let mut at = 0;
    let mut rest = bytes;
    'lists: for list in lists {
        let Some(shown) = push_list(list, count_of(list.count, whole), start + at, rest, text)?
        else {
            return Ok(());
        };
        let (_, more) = rest.split_at(shown);
        at += shown;
        rest = more;
    }
    push_nameless(start + at, rest, text)
}

/// Adds the parts of a structure, and the structures within it.
pub fn push_content(
    parts: &[Part],
    inner: &Inner,
    at: usize,
    piece: &[u8],
    text: &mut String,
) -> Result<(), AllocError>
    requires { at + length piece.now < 2 ^ 64 }
    ensures { OnOk result (string_bytes text.new ≡ string_bytes text.old
        ++ content_text parts.now inner.now at piece.now) }
{
    match *inner {
        Inner::Nothing => push_parts(0, parts, at, piece, text),
        Inner::Lists(start, lists) => {
            let (front, rest) = split_inner(start, piece);
            push_parts(0, parts, at, front, text)?;
            push_lists(piece, lists, at + front.len(), rest, text)
        }
    }
}
