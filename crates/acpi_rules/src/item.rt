//! The parts of a table of which a rule speaks, each with its field. A function whose name begins with `push` adds to them.

ghost use Rattle.std.specs.Prelude.{◌≡◌, ◌+◌, ◌<◌, ◌^◌, ◌++◌, ◌≤◌, length, map, take, drop, true, OnOk, IfOk};
ghost use Rattle.std.specs.List.{flat_map};
ghost use Rattle.acpi_base.specs.Bytes.{carried};
ghost use Rattle.acpi_rules.specs.Demand.{spot_by};
ghost use Rattle.acpi_rules.specs.Field.{seen, structures_of};
ghost use Rattle.acpi_rules.specs.Item.{has, bytes_in, number_in, field_in, item_by, counts_when};
ghost use Rattle.acpi_rules.specs.Item.{part_items, entries, first_entry};
ghost use Rattle.acpi_rules.specs.Item.{structure_items, structures_by, items};

use crate::demand::{Among, Of, Spot, When};
use crate::field::Field;
use crate::rules::number_in_bytes;
use acpi_base::row::Look;
use acpi_base::walk::{Place, Walk};
use acpi_text::inner::split_within;
use acpi_text::part::{count_of, number_at};
use acpi_text::size::front_size;
use acpi_text::table::start_of;
use std::alloc::{AllocError, Global};

/// A part of a table of which a rule speaks.
#[derive(Clone, Copy)]
pub struct Item<'a> {
    /// The field of which the rule speaks.
    pub field: Field<'a>,
    /// The bytes of the part, which are borrowed.
    pub bytes: &'a [u8],
}

/// Returns whether bytes have a field.
pub fn has(spot: &Spot, bytes: &[u8]) -> bool
    ensures { result ≡ has (spot_by spot.now) bytes.now }
{
    usize::from(spot.offset) + usize::from(spot.width) <= bytes.len()
}

/// Returns the bytes of a field, as far as there are bytes.
pub fn bytes_in<'a>(spot: &Spot, bytes: &'a [u8]) -> &'a [u8]
    ensures { result.now ≡ bytes_in (spot_by spot.now) bytes.now }
{
    let width = usize::from(spot.width);
    let (_, rest) = split_within(usize::from(spot.offset), bytes);
    if width < rest.len() {
        &rest[..width]
    } else {
        rest
    }
}

/// Returns the number in a field, of which it has eight bytes at most.
pub fn number_in(spot: &Spot, bytes: &[u8]) -> u64
    ensures { result ≡ number_in (spot_by spot.now) bytes.now }
{
    number_in_bytes(bytes_in(spot, bytes))
}

// Returns whether a part counts.
fn counts_when(when: When, bytes: &[u8]) -> bool
    ensures { result ≡ counts_when when bytes.now }
{
    match when {
        When::Always => true,
        When::Is(place, mask, number) => number_at(place, bytes) & mask == number,
        When::Not(place, mask, number) => number_at(place, bytes) & mask != number,
    }
}

// Returns the field of a part that begins at an offset.
fn field_in<'a>(spot: &Spot, at: usize, bytes: &'a [u8]) -> Field<'a>
    requires fits { at + length bytes.now < 2 ^ 64 }
    requires has { has (spot_by spot.now) bytes.now ≡ true }
    ensures { seen result ≡ field_in (spot_by spot.now) at bytes.now }
{
    Field {
        offset: at + usize::from(spot.offset),
        name: spot.name,
        look: Look::Number,
        width: usize::from(spot.width),
        bytes: bytes_in(spot, bytes),
    }
}

// Adds a part, if it is one of these, and has the field.
fn push_part<'a>(
    among: &Among,
    spot: &Spot,
    at: usize,
    bytes: &'a [u8],
    items: &mut Vec<Item<'a>>,
) -> Result<(), AllocError>
    requires { at + length bytes.now < 2 ^ 64 }
    ensures { OnOk result (map item_by items.new.items ≡ map item_by items.old.items
        ++ part_items among.now (spot_by spot.now) (record { offset = at; bytes = bytes.now })) }
{
    if counts_when(among.when, bytes) && has(spot, bytes) {
        items.push(Item {
            field: field_in(spot, at, bytes),
            bytes,
        })?;
    }
    Ok(())
}

// Adds parts of a size, as many as are wanted, or as there are bytes for.
fn push_entries<'a>(
    among: &Among,
    spot: &Spot,
    count: usize,
    size: usize,
    start: usize,
    bytes: &'a [u8],
    items: &mut Vec<Item<'a>>,
) -> Result<(), AllocError>
    requires { start + length bytes.now < 2 ^ 64 }
    ensures { OnOk result (map item_by items.new.items ≡ map item_by items.old.items
        ++ flat_map (part_items among.now (spot_by spot.now)) (entries count size start bytes.now)) }
{
    let mut left = count;
    let mut at = start;
    let mut rest = bytes;
    'entries: while left > 0 && size <= rest.len() {
        let (piece, more) = rest.split_at(size);
        push_part(among, spot, at, piece, items)?;
        left -= 1;
        at += size;
        rest = more;
    }
    Ok(())
}

// Returns where the entries of a structure begin.
fn first_entry(first: Place, least: usize, piece: &[u8]) -> usize
    ensures { result ≡ first_entry first least piece.now }
{
    let start = number_at(first, piece);
    if start < least { least } else { start }
}

// Adds the parts of a structure that has a type.
fn push_structure<'a>(
    among: &Among,
    spot: &Spot,
    kind: Place,
    at: usize,
    piece: &'a [u8],
    items: &mut Vec<Item<'a>>,
) -> Result<(), AllocError>
    requires { at + length piece.now < 2 ^ 64 }
    ensures { OnOk result (map item_by items.new.items ≡ map item_by items.old.items
        ++ structure_items among.now.of among.now (spot_by spot.now) kind (record { offset = at; bytes = piece.now })) }
{
    match among.of {
        Of::Whole => Ok(()),
        Of::Each => push_part(among, spot, at, piece, items),
        Of::Kind(number) if number_at(kind, piece) == number => {
            push_part(among, spot, at, piece, items)
        }
        Of::Entries(number, first, start, count, size) if number_at(kind, piece) == number => {
            let (front, rest) = split_within(first_entry(first, usize::from(start), piece), piece);
            push_entries(
                among,
                spot,
                count_of(count, piece),
                usize::from(size),
                at + front.len(),
                rest,
                items,
            )
        }
        Of::Kind(_) | Of::Entries(_, _, _, _, _) => Ok(()),
    }
}

// Adds the parts of structures that stand one after another.
fn push_structures<'a>(
    among: &Among,
    spot: &Spot,
    walk: &Walk,
    start: usize,
    bytes: &'a [u8],
    items: &mut Vec<Item<'a>>,
) -> Result<(), AllocError>
    requires { start + length bytes.now < 2 ^ 64 }
    ensures { OnOk result (map item_by items.new.items ≡ map item_by items.old.items
        ++ flat_map (structure_items among.now.of among.now (spot_by spot.now) walk.now.kind)
        (structures_of walk.now.sizes start bytes.now)) }
{
    let mut at = start;
    let mut rest = bytes;
    'structures: while let Some(size) = front_size(walk.sizes, rest) {
        let (piece, more) = rest.split_at(size);
        push_structure(among, spot, walk.kind, at, piece, items)?;
        at += size;
        rest = more;
    }
    Ok(())
}

// Adds the parts of the structures of a table that has a walk.
fn push_walked<'a>(
    among: &Among,
    spot: &Spot,
    walk: &Walk,
    bytes: &'a [u8],
    items: &mut Vec<Item<'a>>,
) -> Result<(), AllocError>
    ensures { OnOk result (map item_by items.new.items ≡ map item_by items.old.items
        ++ flat_map (structure_items among.now.of among.now (spot_by spot.now) walk.now.kind)
        (structures_by walk.now bytes.now)) }
{
    let (front, rest) = split_within(start_of(walk, bytes), bytes);
    push_structures(among, spot, walk, front.len(), rest, items)
}

/// Returns those parts of a table that have a field, in the order of their offsets. The only error is that memory ran out.
pub fn items_of<'a>(
    alloc: Global,
    among: &Among,
    spot: &Spot,
    walk: Option<Walk>,
    bytes: &'a [u8],
) -> Result<Vec<Item<'a>>, AllocError>
    ensures { IfOk result (λ found. map item_by found.items ≡ items among.now (spot_by spot.now) walk bytes.now) }
{
    let mut items = Vec::new(alloc);
    match (among.of, walk) {
        (Of::Whole, _) => push_part(among, spot, 0, bytes, &mut items)?,
        (_, None) => {}
        (_, Some(walk)) => push_walked(among, spot, &walk, bytes, &mut items)?,
    }
    Ok(items)
}
