//! The objects that a definition block makes when it is loaded (ACPI 6.5, 5.3). A function whose name begins with `push` adds
//! to a text.

ghost use Rattle.std.specs.Prelude.{◌≡◌, ◌+◌, ◌++◌, ◌&&◌, ◌∷◌, [], false, codes, map, true, if◌then◌else◌, OnOk, IfOk};
ghost use Rattle.std.specs.Prelude.{MatchOption, string_bytes};
ghost use Rattle.std.specs.Prelude.{None, Some};
ghost use Rattle.std.specs.Option.{option_map};
ghost use Rattle.std.specs.Fmt.{decimal};
ghost use Rattle.acpi_term.specs.View.{entry_view, head_of, view, views, single};
ghost use Rattle.acpi_asl.specs.Name.{asl_name, segments_text};
ghost use Rattle.acpi_asl.specs.Place.{spaces};
ghost use Rattle.acpi_asl.specs.Eisa.{is_eisa, eisa_text};
ghost use Rattle.acpi_asl.specs.Number.{number_text};
ghost use Rattle.acpi_asl.specs.Namespace.{object_line, fields_lines, value_of, value_text, word_of, named_by, operand_at};
ghost use Rattle.acpi_asl.specs.Namespace.{made_line, lines_of, has_inside, deeper, names};
ghost use Rattle.acpi_terms_text.specs.Comment.{is_id_name};

use crate::eisa::{is_eisa, push_eisa};
use crate::name::{push_name, push_segments};
use crate::number::{push_decimal, push_number, push_string};
use crate::place::push_spaces;
use acpi_term::apart::{Kind, parts_of};
use acpi_term::name_string::NameString;
use acpi_term::op::Op;
use acpi_term::term::{Term, TermEntry};
use acpi_terms_text::id::is_id_name;
use acpi_terms_text::objects::{made_by, name_at};
use std::alloc::{AllocError, Global};

// ---- the line of an object

// Begins a line: a name.
fn push_front(depth: usize, name: &NameString, text: &mut String) -> Result<(), AllocError>
    ensures { OnOk result (string_bytes text.new ≡ string_bytes text.old ++ (spaces depth ++ asl_name name.now)) }
{
    push_spaces(depth, text)?;
    push_name(name, text)
}

// Begins a line: the name of a field.
fn push_field_front(depth: usize, name: &[u8], text: &mut String) -> Result<(), AllocError>
    ensures { OnOk result (string_bytes text.new ≡ string_bytes text.old ++ (spaces depth ++ segments_text false name.now)) }
{
    push_spaces(depth, text)?;
    push_segments(false, name, text)
}

// Adds what an object is, after a space.
fn push_word(word: &str, text: &mut String) -> Result<(), AllocError>
    ensures { OnOk result (string_bytes text.new ≡ string_bytes text.old ++ (codes " " ++ word.now)) }
{
    text.push_str(" ")?;
    text.push_str(word)
}

#[tactic(auto, using(acpi_read::proofs::Texts::after_three))]
fn push_object(
    depth: usize,
    name: &NameString,
    word: &str,
    text: &mut String,
) -> Result<(), AllocError>
    ensures { OnOk result (string_bytes text.new ≡ string_bytes text.old ++ object_line depth (asl_name name.now) word.now) }
{
    push_front(depth, name, text)?;
    push_word(word, text)?;
    text.push_str("\n")
}

#[tactic(auto, using(acpi_read::proofs::Texts::after_three))]
fn push_field(depth: usize, name: &[u8], text: &mut String) -> Result<(), AllocError>
    ensures { OnOk result (string_bytes text.new ≡ string_bytes text.old
        ++ object_line depth (segments_text false name.now) (codes "Field")) }
{
    push_field_front(depth, name, text)?;
    push_word("Field", text)?;
    text.push_str("\n")
}

fn push_entry(depth: usize, entry: &TermEntry, text: &mut String) -> Result<(), AllocError>
    ensures { OnOk result (string_bytes text.new ≡ string_bytes text.old ++ fields_lines depth (entry_view entry.now ∷ [])) }
{
    match entry {
        TermEntry::Named(name, _, _) => push_field(depth, name, text),
        TermEntry::Reserved(..)
        | TermEntry::AccessAs(..)
        | TermEntry::ExtendedAccessAs(..)
        | TermEntry::Connection(_)
        | TermEntry::ConnectionBuffer { .. } => Ok(()),
    }
}

fn push_fields(depth: usize, entries: &[TermEntry], text: &mut String) -> Result<(), AllocError>
    ensures { OnOk result (string_bytes text.new ≡ string_bytes text.old ++ fields_lines depth (map entry_view entries.now)) }
{
    'entries: for entry in entries {
        push_entry(depth, entry, text)?;
    }
    Ok(())
}

// ---- methods

fn push_arguments(args: u8, text: &mut String) -> Result<(), AllocError>
    ensures { OnOk result (string_bytes text.new ≡ string_bytes text.old ++ (codes "Method, arguments: " ++ decimal args)) }
{
    text.push_str("Method, arguments: ")?;
    push_decimal(u64::from(args), text)?;
    Ok(())
}

// Adds these after a space.
fn push_further_arguments(args: u8, text: &mut String) -> Result<(), AllocError>
    ensures { OnOk result (string_bytes text.new ≡ string_bytes text.old
        ++ (codes " " ++ (codes "Method, arguments: " ++ decimal args))) }
{
    text.push_str(" ")?;
    push_arguments(args, text)
}

#[tactic(auto, using(acpi_read::proofs::Texts::after_three))]
fn push_method(
    depth: usize,
    name: &NameString,
    args: u8,
    text: &mut String,
) -> Result<(), AllocError>
    ensures { OnOk result (string_bytes text.new ≡ string_bytes text.old
        ++ object_line depth (asl_name name.now) (codes "Method, arguments: " ++ decimal args)) }
{
    push_front(depth, name, text)?;
    push_further_arguments(args, text)?;
    text.push_str("\n")
}

// ---- the value of a name

fn push_number_or_id(id: bool, value: u64, width: u8, text: &mut String) -> Result<(), AllocError>
    ensures { OnOk result (string_bytes text.new ≡ string_bytes text.old
        ++ (if id && is_eisa width value then eisa_text value else number_text value width)) }
{
    if id && is_eisa(width, value) {
        return push_eisa(width, value, text);
    }
    push_number(value, width, text)
}

fn push_data(id: bool, kind: Kind<'_>, width: u8, text: &mut String) -> Result<(), AllocError>
    ensures { OnOk result (string_bytes text.new ≡ string_bytes text.old ++ value_of id (head_of kind.entry) width) }
{
    match kind {
        Kind::Number(value) => {
            text.push_str(" ")?;
            push_number_or_id(id, value, width, text)
        }
        Kind::Text(string) => {
            text.push_str(" ")?;
            push_string(string.as_bytes(), text)
        }
        Kind::Buffer(_) => text.push_str(" Buffer"),
        Kind::Package | Kind::RoomyPackage(_) | Kind::VarPackage => text.push_str(" Package"),
        _ => Ok(()),
    }
}

fn push_term_data(id: bool, term: &Term, text: &mut String) -> Result<(), AllocError>
    ensures { OnOk result (string_bytes text.new ≡ string_bytes text.old
        ++ value_of id (view term.now).0 (view term.now).1) }
{
    let parts = parts_of(term);
    push_data(id, parts.kind, parts.width, text)
}

// Adds the value of a name whose children are in two lists.
fn push_value(
    id: bool,
    first: &[Term],
    others: &[Term],
    text: &mut String,
) -> Result<(), AllocError>
    ensures { OnOk result (string_bytes text.new ≡ string_bytes text.old
        ++ value_text id (views (first.now ++ others.now))) }
{
    match (first, others) {
        ([value, ..], _) => push_term_data(id, value, text),
        ([], [value, ..]) => push_term_data(id, value, text),
        ([], []) => Ok(()),
    }
}

fn push_name_and_value(
    id: bool,
    first: &[Term],
    others: &[Term],
    text: &mut String,
) -> Result<(), AllocError>
    ensures { OnOk result (string_bytes text.new ≡ string_bytes text.old
        ++ (codes " " ++ (codes "Name" ++ value_text id (views (first.now ++ others.now))))) }
{
    text.push_str(" Name")?;
    push_value(id, first, others, text)
}

#[tactic(auto, using(acpi_read::proofs::Texts::after_three))]
fn push_named_value(
    depth: usize,
    name: &NameString,
    first: &[Term],
    others: &[Term],
    text: &mut String,
) -> Result<(), AllocError>
    ensures { OnOk result (string_bytes text.new ≡ string_bytes text.old ++ object_line depth (asl_name name.now)
        (codes "Name" ++ value_text (is_id_name name.now) (views (first.now ++ others.now)))) }
{
    push_front(depth, name, text)?;
    push_name_and_value(is_id_name(name), first, others, text)?;
    text.push_str("\n")
}

// ---- the object that an operator makes

/// Returns the word of the object that an operator makes.
pub(crate) fn word_of(op: Op) -> Option<&'static str>
    ensures { option_map (λ word. word.now) result ≡ word_of op }
{
    match op {
        Op::Alias => Some("Alias"),
        Op::Event => Some("Event"),
        Op::DataRegion => Some("OperationRegion"),
        Op::CreateBitField
        | Op::CreateByteField
        | Op::CreateWordField
        | Op::CreateDWordField
        | Op::CreateQWordField
        | Op::CreateField => Some("BufferField"),
        _ => None,
    }
}

/// Returns the place of the operand that names the object which an operator makes.
pub(crate) fn named_by(op: Op) -> Option<usize>
    ensures { result ≡ named_by op }
{
    match op {
        Op::Alias => Some(1),
        _ => made_by(op),
    }
}

/// Returns the name of the object that an operator with operands in two lists makes.
pub(crate) fn made_name<'a>(op: Op, first: &'a [Term], others: &'a [Term]) -> Option<&'a NameString>
    ensures { option_map (λ name. name.now) result ≡ operand_at (named_by op) (views (first.now ++ others.now)) }
{
    match named_by(op) {
        Some(place) => name_at(place, first, others),
        None => None,
    }
}

fn push_made(
    depth: usize,
    word: Option<&'static str>,
    name: Option<&NameString>,
    text: &mut String,
) -> Result<(), AllocError>
    ensures { OnOk result (string_bytes text.new ≡ string_bytes text.old
        ++ made_line depth (option_map (λ word. word.now) word.entry) (option_map (λ name. name.now) name.entry)) }
{
    match (word, name) {
        (Some(word), Some(name)) => push_object(depth, name, word, text),
        _ => Ok(()),
    }
}

// ---- terms

// Adds the lines of a term whose children are in two lists.
fn push_lines(
    depth: usize,
    kind: Kind<'_>,
    first: &[Term],
    others: &[Term],
    text: &mut String,
) -> Result<(), AllocError>
    ensures { OnOk result (string_bytes text.new ≡ string_bytes text.old
        ++ lines_of depth (head_of kind.entry) (views (first.now ++ others.now))) }
{
    match kind {
        Kind::Scope(name) => push_object(depth, name, "Scope", text),
        Kind::Device(name) => push_object(depth, name, "Device", text),
        Kind::Processor(name, _, _, _) => push_object(depth, name, "Processor", text),
        Kind::ThermalZone(name) => push_object(depth, name, "ThermalZone", text),
        Kind::PowerResource(name, _, _) => push_object(depth, name, "PowerResource", text),
        Kind::Method(name, args, _) => push_method(depth, name, args, text),
        Kind::LeveledMethod(name, args, _, _) => push_method(depth, name, args, text),
        Kind::Name(name) => push_named_value(depth, name, first, others, text),
        Kind::OpRegion(name, _) => push_object(depth, name, "OperationRegion", text),
        Kind::Field(_, _, _, _, entries) => push_fields(depth, entries, text),
        Kind::IndexField(_, _, _, _, _, entries) | Kind::BankField(_, _, _, _, _, entries) => {
            push_fields(depth, entries, text)
        }
        Kind::Mutex(name, _) => push_object(depth, name, "Mutex", text),
        Kind::External(name, _, _) => push_object(depth, name, "External", text),
        Kind::Op(op) => push_made(depth, word_of(op), made_name(op, first, others), text),
        _ => Ok(()),
    }
}

/// Returns whether terms inside a term make names when the block is loaded.
pub(crate) fn has_inside(kind: Kind<'_>) -> bool
    ensures { result ≡ has_inside (head_of kind.entry) }
{
    match kind {
        Kind::Scope(_)
        | Kind::Device(_)
        | Kind::Processor(_, _, _, _)
        | Kind::ThermalZone(_)
        | Kind::PowerResource(_, _, _)
        | Kind::If
        | Kind::Else
        | Kind::While => true,
        _ => false,
    }
}

// Returns the depth of these names. No memory has room for an indentation of the greatest depth.
fn depth_inside(depth: usize, kind: Kind<'_>) -> Result<usize, AllocError>
    ensures { IfOk result (λ inner. inner ≡ depth + deeper (head_of kind.entry)) }
{
    match kind {
        Kind::If | Kind::Else | Kind::While => Ok(depth),
        _ => depth.checked_add(1).ok_or(AllocError),
    }
}

#[cycle(names)]
fn push_names(depth: usize, terms: &[Term], text: &mut String) -> Result<(), AllocError>
    ensures { OnOk result (string_bytes text.new ≡ string_bytes text.old ++ names depth (views terms.now)) }
{
    'terms: for term in terms {
        push_term(depth, term, text)?;
    }
    Ok(())
}

#[cycle(names)]
fn push_term(depth: usize, term: &Term, text: &mut String) -> Result<(), AllocError>
    ensures { OnOk result (string_bytes text.new ≡ string_bytes text.old ++ names depth (single (view term.now))) }
{
    let parts = parts_of(term);
    push_lines(depth, parts.kind, parts.first, parts.others, text)?;
    if !has_inside(parts.kind) {
        return Ok(());
    }
    let inner = depth_inside(depth, parts.kind)?;
    push_names(inner, parts.first, text)?;
    push_names(inner, parts.others, text)?;
    Ok(())
}

/// Returns a line for each object that a definition block of these terms makes when it is loaded (ACPI 6.5, 5.3): its name, what
/// it is, and the value of data that one line can have. Objects inside another follow it, with four more spaces before them.
pub fn namespace_of(alloc: Global, terms: &[Term]) -> Result<String, AllocError>
    ensures { IfOk result (λ text. string_bytes text ≡ names 0 (views terms.now)) }
{
    let mut text = String::new(alloc);
    push_names(0, terms, &mut text)?;
    Ok(text)
}
