//! The fields of a table by its form.

ghost use Rattle.std.specs.Prelude.{◌≡◌, ◌+◌, ◌<◌, ◌^◌, ◌++◌, length, map, OnOk, MatchOption, IfOk, Some};
ghost use Rattle.std.specs.List.{flat_map};
ghost use Rattle.acpi_rules.specs.Field.{seen, no_fields, inner_fields, lists_fields};
ghost use Rattle.acpi_rules.specs.Field.{content_fields, structure_fields, structures_of, table_fields};
ghost use Rattle.acpi_text.specs.Piece.{PiecesShowed, AllShowed};
ghost use Rattle.acpi_text.specs.Size.{inner_size};
ghost use Rattle.acpi_text.specs.Structure.{all_forms};

use crate::field::Field;
use crate::part::push_parts;
use acpi_base::walk::{Place, Walk};
use acpi_text::form::{Inner, InnerList, Part, TableForm};
use acpi_text::inner::{split_inner, split_within};
use acpi_text::part::{count_of, number_at};
use acpi_text::piece::{find_form, inner_of, parts_of};
use acpi_text::size::{front_size, inner_form, next_size};
use acpi_text::table::start_of;
use std::alloc::{AllocError, Global};

// Adds the fields of a structure within another, by its form.
fn push_inner<'a>(
    list: &InnerList,
    at: usize,
    piece: &'a [u8],
    fields: &mut Vec<Field<'a>>,
) -> Result<(), AllocError>
    requires { at + length piece.now < 2 ^ 64 }
    ensures { OnOk result (map seen fields.new.items ≡ map seen fields.old.items ++ inner_fields list.now at piece.now) }
{
    match inner_form(list, piece) {
        Some(form) => push_parts(form.parts, at, piece, fields),
        None => Ok(()),
    }
}

// Adds the fields of `count` structures of a list, and returns how many bytes these have. If there are fewer, it adds the fields
// of these, and returns nothing.
fn push_list<'a>(
    list: &InnerList,
    count: usize,
    start: usize,
    bytes: &'a [u8],
    fields: &mut Vec<Field<'a>>,
) -> Result<Option<usize>, AllocError>
    requires { start + length bytes.now < 2 ^ 64 }
    ensures { IfOk result (λ found. MatchOption found
        (AllShowed count (inner_size list.now) (inner_fields list.now) no_fields start bytes.now
        (map seen fields.old.items) (map seen fields.new.items))
        (λ n. PiecesShowed count (inner_size list.now) (inner_fields list.now) no_fields start bytes.now
        (map seen fields.old.items) (map seen fields.new.items) n)) }
{
    let mut at = 0;
    let mut left = count;
    let mut rest = bytes;
    'inners: while let Some(size) = next_size(left, list, rest) {
        let (piece, more) = rest.split_at(size);
        push_inner(list, start + at, piece, fields)?;
        at += size;
        left -= 1;
        rest = more;
    }
    if left == 0 {
        return Ok(Some(at));
    }
    Ok(None)
}

// Adds the fields of lists of structures within a whole, one after another.
fn push_lists<'a>(
    whole: &[u8],
    lists: &[InnerList],
    start: usize,
    bytes: &'a [u8],
    fields: &mut Vec<Field<'a>>,
) -> Result<(), AllocError>
    requires { start + length bytes.now < 2 ^ 64 }
    ensures { OnOk result (map seen fields.new.items
        ≡ map seen fields.old.items ++ lists_fields whole.now lists.now start bytes.now) }
{
    let mut at = 0;
    let mut rest = bytes;
    'lists: for list in lists {
        let Some(found) = push_list(list, count_of(list.count, whole), start + at, rest, fields)?
        else {
            return Ok(());
        };
        let (_, more) = rest.split_at(found);
        at += found;
        rest = more;
    }
    Ok(())
}

/// Adds the fields of a structure by its parts, and of the structures within it.
pub fn push_content<'a>(
    parts: &[Part],
    inner: &Inner,
    at: usize,
    piece: &'a [u8],
    fields: &mut Vec<Field<'a>>,
) -> Result<(), AllocError>
    requires { at + length piece.now < 2 ^ 64 }
    ensures { OnOk result (map seen fields.new.items
        ≡ map seen fields.old.items ++ content_fields parts.now inner.now at piece.now) }
{
    match *inner {
        Inner::Nothing => push_parts(parts, at, piece, fields),
        Inner::Lists(start, lists) => {
            let (front, rest) = split_inner(start, piece);
            push_parts(parts, at, front, fields)?;
            push_lists(piece, lists, at + front.len(), rest, fields)
        }
    }
}

/// Adds the fields of a structure by the form that has its type, and of the structures within it.
pub fn push_structure<'a>(
    kind: Place,
    table: &TableForm,
    at: usize,
    piece: &'a [u8],
    fields: &mut Vec<Field<'a>>,
) -> Result<(), AllocError>
    requires { at + length piece.now < 2 ^ 64 }
    ensures { OnOk result (map seen fields.new.items ≡ map seen fields.old.items
        ++ structure_fields kind (all_forms table.now) (record { offset = at; bytes = piece.now })) }
{
    let form = find_form(number_at(kind, piece), table);
    push_content(parts_of(form), inner_of(form), at, piece, fields)
}

// Adds the fields of structures that stand one after another, each by the form that has its type.
fn push_structures<'a>(
    walk: &Walk,
    table: &TableForm,
    start: usize,
    bytes: &'a [u8],
    fields: &mut Vec<Field<'a>>,
) -> Result<(), AllocError>
    requires { start + length bytes.now < 2 ^ 64 }
    ensures { OnOk result (map seen fields.new.items ≡ map seen fields.old.items
        ++ flat_map (structure_fields walk.now.kind (all_forms table.now)) (structures_of walk.now.sizes start bytes.now)) }
{
    let mut at = start;
    let mut rest = bytes;
    'structures: while let Some(size) = front_size(walk.sizes, rest) {
        let (piece, more) = rest.split_at(size);
        push_structure(walk.kind, table, at, piece, fields)?;
        at += size;
        rest = more;
    }
    Ok(())
}

// Adds the fields of a table that has a walk.
fn push_walked<'a>(
    form: &TableForm,
    walk: &Walk,
    bytes: &'a [u8],
    fields: &mut Vec<Field<'a>>,
) -> Result<(), AllocError>
    ensures { OnOk result (map seen fields.new.items
        ≡ map seen fields.old.items ++ table_fields form.now (Some walk.now) bytes.now) }
{
    let (front, rest) = split_within(start_of(walk, bytes), bytes);
    push_parts(form.parts, 0, front, fields)?;
    push_structures(walk, form, front.len(), rest, fields)
}

/// Returns the fields of a table by a form, and by a walk if the form has structures, in the order of their offsets. Bytes that
/// the form has no name for aren't in a field. The only error is that memory ran out.
pub fn fields_of<'a>(
    alloc: Global,
    form: &TableForm,
    walk: Option<Walk>,
    bytes: &'a [u8],
) -> Result<Vec<Field<'a>>, AllocError>
    ensures { IfOk result (λ fields. map seen fields.items ≡ table_fields form.now walk bytes.now) }
{
    let mut fields = Vec::new(alloc);
    match walk {
        Some(walk) => push_walked(form, &walk, bytes, &mut fields)?,
        None => push_content(form.parts, form.inner, 0, bytes, &mut fields)?,
    }
    Ok(fields)
}
