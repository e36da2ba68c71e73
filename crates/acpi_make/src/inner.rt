//! The numbers that a structure has of those within it, and that these have of themselves.

ghost use Rattle.std.specs.Prelude.{◌≡◌, ◌≤◌, ◌++◌, OnOk, length};
ghost use Rattle.acpi_make.specs.Inner.{titled_in, titled, next_titled, inner_size_own, titled_own, inners_own};
ghost use Rattle.acpi_make.specs.Inner.{count_titled, list_own, lists_own, inner_own};

use crate::draft::Mark;
use crate::entry::is_line_of;
use crate::extent::{Extent, Own, push_at, push_size, push_within};
use crate::text::{after_offset, part_at};
use acpi_text::form::{Count, Inner, InnerForm, InnerList, InnerSize};
use std::alloc::AllocError;

// Returns the first form whose name a line is.
fn titled_in(line: &[u8], forms: &[InnerForm]) -> Option<InnerForm>
    ensures { result ≡ titled_in line.now forms.now }
{
    'forms: for form in forms {
        if is_line_of(form.name.as_bytes(), line) {
            return Some(*form);
        }
    }
    None
}

/// Returns the first form of lists whose name a line is.
pub fn titled(line: &[u8], lists: &[InnerList]) -> Option<InnerForm>
    ensures { result ≡ titled line.now lists.now }
{
    'lists: for list in lists {
        if let Some(form) = titled_in(line, list.forms) {
            return Some(form);
        }
    }
    None
}

/// Returns the offset of the next structure within, or of the next structure, or that of the table's end.
pub fn next_titled(text: &[u8], lists: &[InnerList], marks: &[Mark], total: usize) -> usize
    ensures { result ≡ next_titled text.now lists.now marks.now total }
{
    'marks: for mark in marks {
        match *mark {
            Mark::Structure { at, .. } => return at,
            Mark::Line { at, from, to } => {
                if let Some(_) = titled(after_offset(part_at(from, to, text)), lists) {
                    return at;
                }
            }
            Mark::Reference { .. } => {}
        }
    }
    total
}

// Adds the length of a structure within another, or the number of its entries.
fn push_inner_size(
    told: InnerSize,
    start: usize,
    size: usize,
    owns: &mut Vec<Own>,
) -> Result<(), AllocError>
    ensures { OnOk result (owns.new.items ≡ owns.old.items ++ inner_size_own told start size) }
{
    match told {
        InnerSize::Walked(sizes) => push_size(sizes, start, size, owns),
        InnerSize::Counted(fixed, count, each) => {
            if each == 0 {
                return Ok(());
            }
            push_at(start, size, count, size.saturating_sub(fixed) / each, owns)
        }
        InnerSize::Rest => Ok(()),
    }
}

// Adds these of a structure that has a form.
fn push_titled(
    form: Option<InnerForm>,
    start: usize,
    size: usize,
    owns: &mut Vec<Own>,
) -> Result<(), AllocError>
    ensures { OnOk result (owns.new.items ≡ owns.old.items ++ titled_own form start size) }
{
    match form {
        Some(form) => push_inner_size(form.size, start, size, owns),
        None => Ok(()),
    }
}

// Adds these of all structures within, up to the next structure.
fn push_inners(
    text: &[u8],
    lists: &[InnerList],
    marks: &[Mark],
    total: usize,
    owns: &mut Vec<Own>,
) -> Result<(), AllocError>
    ensures { OnOk result (owns.new.items ≡ owns.old.items ++ inners_own text.now lists.now marks.now total) }
{
    'marks: for i in 0..marks.len() {
        match marks[i] {
            Mark::Structure { .. } => return Ok(()),
            Mark::Line { at, from, to } => {
                let form = titled(after_offset(part_at(from, to, text)), lists);
                let next = next_titled(text, lists, &marks[i + 1..], total);
                push_titled(form, at, next.saturating_sub(at), owns)?;
            }
            Mark::Reference { .. } => {}
        }
    }
    Ok(())
}

// Returns how many structures of these forms there are, up to the next structure.
fn count_titled(text: &[u8], forms: &[InnerForm], marks: &[Mark]) -> usize
    ensures is { result ≡ count_titled text.now forms.now marks.now }
    ensures within { result ≤ length marks.now }
{
    let mut count = 0;
    'marks: for mark in marks {
        match *mark {
            Mark::Structure { .. } => return count,
            Mark::Line { from, to, .. } => {
                if let Some(_) = titled_in(after_offset(part_at(from, to, text)), forms) {
                    count += 1;
                }
            }
            Mark::Reference { .. } => {}
        }
    }
    count
}

// Adds the number that the outer structure has of those of a list.
fn push_list(extent: &Extent<'_>, list: &InnerList, owns: &mut Vec<Own>) -> Result<(), AllocError>
    ensures { OnOk result (owns.new.items ≡ owns.old.items
        ++ list_own extent.now.text.now extent.now.marks.now extent.now.start extent.now.size list.now.forms.now list.now.count) }
{
    match list.count {
        Count::Field(place) => {
            let number = count_titled(extent.text, list.forms, extent.marks);
            push_within(extent, place, number, owns)
        }
        Count::Rest | Count::Once => Ok(()),
    }
}

// Adds these numbers of lists.
fn push_lists(
    extent: &Extent<'_>,
    lists: &[InnerList],
    owns: &mut Vec<Own>,
) -> Result<(), AllocError>
    ensures { OnOk result (owns.new.items ≡ owns.old.items
        ++ lists_own extent.now.text.now extent.now.marks.now extent.now.start extent.now.size lists.now) }
{
    'lists: for list in lists {
        push_list(extent, list, owns)?;
    }
    Ok(())
}

/// Adds the numbers that a structure has of those within it, and that these have of themselves.
pub fn push_inner(extent: &Extent<'_>, inner: &Inner, owns: &mut Vec<Own>) -> Result<(), AllocError>
    ensures { OnOk result (owns.new.items ≡ owns.old.items
        ++ inner_own extent.now.text.now extent.now.marks.now extent.now.total extent.now.start extent.now.size inner.now) }
{
    match *inner {
        Inner::Nothing => Ok(()),
        Inner::Lists(_, lists) => {
            push_lists(extent, lists, owns)?;
            push_inners(extent.text, lists, extent.marks, extent.total, owns)
        }
    }
}
