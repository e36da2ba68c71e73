//! How long a structure is.

ghost use Rattle.std.specs.Prelude.{◌≡◌, ◌+◌, ◌*◌};
ghost use Rattle.acpi_text.specs.Size.{size_from, front_size, inner_size_of, find_inner, inner_form, inner_size, next_size};

use crate::form::{InnerForm, InnerList, InnerSize};
use crate::part::number_at;
use crate::slot::size_within;
use acpi_base::walk::Sizes;

// Returns a size if it is at least `least`, isn't zero, and there are as many bytes.
fn size_from(least: usize, size: usize, bytes: &[u8]) -> Option<usize>
    ensures { result ≡ size_from least size bytes.now }
{
    if size >= 1 && size >= least && size <= bytes.len() {
        Some(size)
    } else {
        None
    }
}

/// Returns the size of the structure with which bytes begin, or nothing if none can begin there.
pub fn front_size(sizes: Sizes, bytes: &[u8]) -> Option<usize>
    ensures { result ≡ front_size sizes bytes.now }
{
    match sizes {
        Sizes::EachOf(size) => size_from(0, usize::from(size), bytes),
        Sizes::ToldAt(place) => size_from(place.end(), number_at(place, bytes), bytes),
        Sizes::ByType(kind, types) => match types.size(kind, bytes) {
            Some(size) => size_from(0, size, bytes),
            None => None,
        },
    }
}

// Returns a size of `fixed` bytes and of `count` entries of `each` bytes, if it isn't zero, and there are as many bytes.
fn counted_size(fixed: usize, each: usize, count: usize, bytes: &[u8]) -> Option<usize>
    ensures { result ≡ size_from fixed (fixed + each * count) bytes.now }
{
    if fixed > bytes.len() {
        return None;
    }
    match size_within(each, count, bytes.len() - fixed) {
        Some(entries) => size_from(fixed, fixed + entries, bytes),
        None => None,
    }
}

// Returns the size of the structure within another with which bytes begin, or nothing if none can begin there.
fn inner_size_of(size: InnerSize, bytes: &[u8]) -> Option<usize>
    ensures { result ≡ inner_size_of size bytes.now }
{
    match size {
        InnerSize::Walked(sizes) => front_size(sizes, bytes),
        InnerSize::Counted(fixed, count, each) => {
            counted_size(fixed, each, number_at(count, bytes), bytes)
        }
        InnerSize::Rest => size_from(0, bytes.len(), bytes),
    }
}

// Returns the form with a number.
fn find_inner(number: usize, forms: &[InnerForm]) -> Option<InnerForm>
    ensures { result ≡ find_inner number forms.now }
{
    for form in forms {
        if number == form.number {
            return Some(*form);
        }
    }
    None
}

/// Returns the form of the structure within another with which bytes begin.
pub fn inner_form(list: &InnerList, bytes: &[u8]) -> Option<InnerForm>
    ensures { result ≡ inner_form list.now bytes.now }
{
    find_inner(number_at(list.kind, bytes), list.forms)
}

// Returns the size of the structure of a list with which bytes begin, or nothing if none can begin there.
fn inner_size(list: &InnerList, bytes: &[u8]) -> Option<usize>
    ensures { result ≡ inner_size list.now bytes.now }
{
    match inner_form(list, bytes) {
        Some(form) => inner_size_of(form.size, bytes),
        None => None,
    }
}

/// Returns that size if the list has structures left.
pub fn next_size(left: usize, list: &InnerList, bytes: &[u8]) -> Option<usize>
    ensures { result ≡ next_size left (inner_size list.now) bytes.now }
{
    if left == 0 {
        return None;
    }
    inner_size(list, bytes)
}
