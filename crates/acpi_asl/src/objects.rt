//! The objects that a definition block makes when it is loaded, as JSON (ACPI 6.5, 5.3; RFC 8259). A function whose name begins
//! with `push` adds to a text.

ghost use Rattle.std.specs.Prelude.{◌≡◌, ◌≤◌, ◌++◌, ◌∷◌, [], codes, map, length, OnOk, IfOk, string_bytes};
ghost use Rattle.std.specs.Option.{option_map};
ghost use Rattle.acpi_term.specs.View.{entry_view, head_of, view, views, single};
ghost use Rattle.acpi_terms_text.specs.Path.{path_in};
ghost use Rattle.acpi_terms_text.specs.Comment.{is_id_name};
ghost use Rattle.acpi_asl.specs.Objects.{path_member, kind_member, plain_object, arguments_member};
ghost use Rattle.acpi_asl.specs.Objects.{method_object, number_or_id, value_of, value_member, name_object, field_objects};
ghost use Rattle.acpi_asl.specs.Objects.{made_object, objects_of, scope_in, objects, without_comma, signature_member};
ghost use Rattle.acpi_asl.specs.Objects.{length_member, table_front, table_end, objects_text};

use crate::eisa::{is_eisa, push_json_eisa};
use crate::name::push_segments;
use crate::namespace::{has_inside, made_name, word_of};
use crate::number::{push_decimal, push_json_number, push_json_string};
use acpi_term::apart::{Kind, parts_of};
use acpi_term::name_string::NameString;
use acpi_term::term::{Term, TermEntry};
use acpi_terms_text::id::is_id_name;
use acpi_terms_text::path::{joined, path_in};
use std::alloc::{AllocError, Global};

// ---- the object of a name

fn push_path(path: &[u8], text: &mut String) -> Result<(), AllocError>
    ensures { OnOk result (string_bytes text.new ≡ string_bytes text.old ++ path_member path.now) }
{
    text.push_str(",{\"path\":\"\\\\")?;
    push_segments(false, path, text)?;
    Ok(())
}

#[tactic(auto, using(acpi_read::proofs::Texts::after_three), unfolding(crate::specs::Objects::kind_member))]
fn push_kind(word: &str, text: &mut String) -> Result<(), AllocError>
    ensures { OnOk result (string_bytes text.new ≡ string_bytes text.old ++ kind_member word.now) }
{
    text.push_str("\",\"kind\":\"")?;
    text.push_str(word)?;
    text.push_str("\"")
}

#[tactic(auto, using(acpi_read::proofs::Texts::after_three), unfolding(crate::specs::Objects::plain_object))]
fn push_plain(path: &[u8], word: &str, text: &mut String) -> Result<(), AllocError>
    ensures { OnOk result (string_bytes text.new ≡ string_bytes text.old ++ plain_object path.now word.now) }
{
    push_path(path, text)?;
    push_kind(word, text)?;
    text.push_str("}")
}

fn push_object(
    alloc: Global,
    scope: &[u8],
    name: &NameString,
    word: &str,
    text: &mut String,
) -> Result<(), AllocError>
    ensures { OnOk result (string_bytes text.new ≡ string_bytes text.old
        ++ plain_object (path_in scope.now name.now) word.now) }
{
    let path = path_in(alloc, scope, name)?;
    push_plain(&path, word, text)
}

// ---- fields

fn push_field(alloc: Global, scope: &[u8], name: &[u8], text: &mut String) -> Result<(), AllocError>
    ensures { OnOk result (string_bytes text.new ≡ string_bytes text.old
        ++ plain_object (scope.now ++ name.now) (codes "Field")) }
{
    let path = joined(alloc, scope, name)?;
    push_plain(&path, "Field", text)
}

fn push_entry(
    alloc: Global,
    scope: &[u8],
    entry: &TermEntry,
    text: &mut String,
) -> Result<(), AllocError>
    ensures { OnOk result (string_bytes text.new ≡ string_bytes text.old
        ++ field_objects scope.now (entry_view entry.now ∷ [])) }
{
    match entry {
        TermEntry::Named(name, _, _) => push_field(alloc, scope, name, text),
        TermEntry::Reserved(..)
        | TermEntry::AccessAs(..)
        | TermEntry::ExtendedAccessAs(..)
        | TermEntry::Connection(_)
        | TermEntry::ConnectionBuffer { .. } => Ok(()),
    }
}

fn push_fields(
    alloc: Global,
    scope: &[u8],
    entries: &[TermEntry],
    text: &mut String,
) -> Result<(), AllocError>
    ensures { OnOk result (string_bytes text.new ≡ string_bytes text.old
        ++ field_objects scope.now (map entry_view entries.now)) }
{
    'entries: for entry in entries {
        push_entry(alloc, scope, entry, text)?;
    }
    Ok(())
}

// ---- methods

fn push_arguments(args: u8, text: &mut String) -> Result<(), AllocError>
    ensures { OnOk result (string_bytes text.new ≡ string_bytes text.old ++ arguments_member args) }
{
    text.push_str(",\"arguments\":")?;
    push_decimal(u64::from(args), text)?;
    Ok(())
}

#[tactic(auto, using(acpi_read::proofs::Texts::after_four), unfolding(crate::specs::Objects::method_object))]
fn push_method_at(path: &[u8], args: u8, text: &mut String) -> Result<(), AllocError>
    ensures { OnOk result (string_bytes text.new ≡ string_bytes text.old ++ method_object path.now args) }
{
    push_path(path, text)?;
    push_kind("Method", text)?;
    push_arguments(args, text)?;
    text.push_str("}")
}

fn push_method(
    alloc: Global,
    scope: &[u8],
    name: &NameString,
    args: u8,
    text: &mut String,
) -> Result<(), AllocError>
    ensures { OnOk result (string_bytes text.new ≡ string_bytes text.old
        ++ method_object (path_in scope.now name.now) args) }
{
    let path = path_in(alloc, scope, name)?;
    push_method_at(&path, args, text)
}

// ---- the value of a name

fn push_number_or_id(id: bool, value: u64, width: u8, text: &mut String) -> Result<(), AllocError>
    ensures { OnOk result (string_bytes text.new ≡ string_bytes text.old ++ number_or_id id value width) }
{
    if id && is_eisa(width, value) {
        return push_json_eisa(width, value, text);
    }
    push_json_number(value, text)
}

fn push_data(id: bool, kind: Kind<'_>, width: u8, text: &mut String) -> Result<(), AllocError>
    ensures { OnOk result (string_bytes text.new ≡ string_bytes text.old ++ value_of id (head_of kind.entry) width) }
{
    match kind {
        Kind::Number(value) => {
            text.push_str(",\"value\":")?;
            push_number_or_id(id, value, width, text)
        }
        Kind::Text(string) => {
            text.push_str(",\"value\":")?;
            push_json_string(string.as_bytes(), text)
        }
        _ => Ok(()),
    }
}

fn push_term_data(id: bool, term: &Term, text: &mut String) -> Result<(), AllocError>
    ensures { OnOk result (string_bytes text.new ≡ string_bytes text.old
        ++ value_of id (view term.now).0 (view term.now).1) }
{
    let parts = parts_of(term);
    push_data(id, parts.kind, parts.width, text)
}

// Adds the value of a name whose children are in two lists.
fn push_value(
    id: bool,
    first: &[Term],
    others: &[Term],
    text: &mut String,
) -> Result<(), AllocError>
    ensures { OnOk result (string_bytes text.new ≡ string_bytes text.old
        ++ value_member id (views (first.now ++ others.now))) }
{
    match (first, others) {
        ([value, ..], _) => push_term_data(id, value, text),
        ([], [value, ..]) => push_term_data(id, value, text),
        ([], []) => Ok(()),
    }
}

// Adds the kind of a name, and its value.
#[tactic(auto, using(acpi_read::proofs::Texts::after_two))]
fn push_kind_and_value(
    id: bool,
    first: &[Term],
    others: &[Term],
    text: &mut String,
) -> Result<(), AllocError>
    ensures { OnOk result (string_bytes text.new ≡ string_bytes text.old
        ++ (kind_member (codes "Name") ++ value_member id (views (first.now ++ others.now)))) }
{
    push_kind("Name", text)?;
    push_value(id, first, others, text)
}

#[tactic(auto, using(acpi_read::proofs::Texts::after_three), unfolding(crate::specs::Objects::name_object))]
fn push_name_at(
    path: &[u8],
    id: bool,
    first: &[Term],
    others: &[Term],
    text: &mut String,
) -> Result<(), AllocError>
    ensures { OnOk result (string_bytes text.new ≡ string_bytes text.old
        ++ name_object path.now (value_member id (views (first.now ++ others.now)))) }
{
    push_path(path, text)?;
    push_kind_and_value(id, first, others, text)?;
    text.push_str("}")
}

fn push_name(
    alloc: Global,
    scope: &[u8],
    name: &NameString,
    first: &[Term],
    others: &[Term],
    text: &mut String,
) -> Result<(), AllocError>
    ensures { OnOk result (string_bytes text.new ≡ string_bytes text.old ++ name_object (path_in scope.now name.now)
        (value_member (is_id_name name.now) (views (first.now ++ others.now)))) }
{
    let path = path_in(alloc, scope, name)?;
    push_name_at(&path, is_id_name(name), first, others, text)
}

// ---- terms

fn push_made(
    alloc: Global,
    scope: &[u8],
    word: Option<&'static str>,
    name: Option<&NameString>,
    text: &mut String,
) -> Result<(), AllocError>
    ensures { OnOk result (string_bytes text.new ≡ string_bytes text.old
        ++ made_object scope.now (option_map (λ word. word.now) word.entry) (option_map (λ name. name.now) name.entry)) }
{
    match (word, name) {
        (Some(word), Some(name)) => push_object(alloc, scope, name, word, text),
        _ => Ok(()),
    }
}

// Adds the objects of a term whose children are in two lists.
fn push_own(
    alloc: Global,
    scope: &[u8],
    kind: Kind<'_>,
    first: &[Term],
    others: &[Term],
    text: &mut String,
) -> Result<(), AllocError>
    ensures { OnOk result (string_bytes text.new ≡ string_bytes text.old
        ++ objects_of scope.now (head_of kind.entry) (views (first.now ++ others.now))) }
{
    match kind {
        Kind::Scope(name) => push_object(alloc, scope, name, "Scope", text),
        Kind::Device(name) => push_object(alloc, scope, name, "Device", text),
        Kind::Processor(name, _, _, _) => push_object(alloc, scope, name, "Processor", text),
        Kind::ThermalZone(name) => push_object(alloc, scope, name, "ThermalZone", text),
        Kind::PowerResource(name, _, _) => push_object(alloc, scope, name, "PowerResource", text),
        Kind::Method(name, args, _) => push_method(alloc, scope, name, args, text),
        Kind::LeveledMethod(name, args, _, _) => push_method(alloc, scope, name, args, text),
        Kind::Name(name) => push_name(alloc, scope, name, first, others, text),
        Kind::OpRegion(name, _) => push_object(alloc, scope, name, "OperationRegion", text),
        Kind::Field(_, _, _, _, entries) => push_fields(alloc, scope, entries, text),
        Kind::IndexField(_, _, _, _, _, entries) | Kind::BankField(_, _, _, _, _, entries) => {
            push_fields(alloc, scope, entries, text)
        }
        Kind::Mutex(name, _) => push_object(alloc, scope, name, "Mutex", text),
        Kind::External(name, _, _) => push_object(alloc, scope, name, "External", text),
        Kind::Op(op) => push_made(
            alloc,
            scope,
            word_of(op),
            made_name(op, first, others),
            text,
        ),
        _ => Ok(()),
    }
}

// Returns the scope of the terms inside a term.
fn scope_in(alloc: Global, scope: &[u8], kind: Kind<'_>) -> Result<Vec<u8>, AllocError>
    ensures { IfOk result (λ inner. inner.items ≡ scope_in scope.now (head_of kind.entry)) }
{
    match kind {
        Kind::Scope(name)
        | Kind::Device(name)
        | Kind::Processor(name, _, _, _)
        | Kind::ThermalZone(name)
        | Kind::PowerResource(name, _, _) => path_in(alloc, scope, name),
        _ => Vec::from_slice(alloc, scope),
    }
}

#[cycle(objects)]
fn push_objects(
    alloc: Global,
    scope: &[u8],
    terms: &[Term],
    text: &mut String,
) -> Result<(), AllocError>
    ensures { OnOk result (string_bytes text.new ≡ string_bytes text.old ++ objects scope.now (views terms.now)) }
{
    'terms: for term in terms {
        push_term(alloc, scope, term, text)?;
    }
    Ok(())
}

#[cycle(objects)]
fn push_term(alloc: Global, scope: &[u8], term: &Term, text: &mut String) -> Result<(), AllocError>
    ensures { OnOk result (string_bytes text.new ≡ string_bytes text.old ++ objects scope.now (single (view term.now))) }
{
    let parts = parts_of(term);
    push_own(alloc, scope, parts.kind, parts.first, parts.others, text)?;
    if !has_inside(parts.kind) {
        return Ok(());
    }
    let inner = scope_in(alloc, scope, parts.kind)?;
    push_objects(alloc, &inner, parts.first, text)?;
    push_objects(alloc, &inner, parts.others, text)?;
    Ok(())
}

// ---- the table

// Returns objects without the comma before the first.
fn without_comma(all: &str) -> &str
    ensures { result.now ≡ without_comma all.now }
{
    match all.strip_prefix(",") {
        Some(rest) => rest,
        None => all,
    }
}

fn push_signature(signature: &[u8], text: &mut String) -> Result<(), AllocError>
    ensures { OnOk result (string_bytes text.new ≡ string_bytes text.old ++ signature_member signature.now) }
{
    text.push_str("[\n{\"signature\":")?;
    push_json_string(signature, text)?;
    Ok(())
}

#[tactic(auto, using(acpi_read::proofs::Texts::after_two), unfolding(crate::specs::Objects::length_member))]
fn push_length(size: u64, text: &mut String) -> Result<(), AllocError>
    ensures { OnOk result (string_bytes text.new ≡ string_bytes text.old ++ length_member size) }
{
    text.push_str(",\"length\":")?;
    push_decimal(size, text)
}

#[tactic(auto, using(acpi_read::proofs::Texts::after_two), unfolding(crate::specs::Objects::table_front))]
fn push_front(header: &[u8], text: &mut String) -> Result<(), AllocError>
    requires { 36 ≤ length header.now }
    ensures { OnOk result (string_bytes text.new ≡ string_bytes text.old ++ table_front header.now) }
{
    push_signature(&header[..4], text)?;
    push_length(header.len() as u64, text)
}

fn push_end(all: &str, text: &mut String) -> Result<(), AllocError>
    ensures { OnOk result (string_bytes text.new ≡ string_bytes text.old ++ table_end all.now) }
{
    text.push_str(",\"objects\":[")?;
    text.push_str(all)?;
    text.push_str("]}\n]\n")?;
    Ok(())
}

#[tactic(auto, using(acpi_read::proofs::Texts::after_two))]
fn push_table(header: &[u8], all: &str, text: &mut String) -> Result<(), AllocError>
    requires { 36 ≤ length header.now }
    ensures { OnOk result (string_bytes text.new ≡ string_bytes text.old
        ++ (table_front header.now ++ table_end (without_comma all.now))) }
{
    push_front(header, text)?;
    push_end(without_comma(all), text)
}

/// Returns an array of JSON with an object for a definition block of these terms, whose bytes are `header`. It has the
/// signature, the length, and an object for each object that the block makes when it is loaded (ACPI 6.5, 5.3): its path, its
/// kind, the number of a method's arguments, and the value of a name if this is a number or a string.
pub fn objects_of(alloc: Global, header: &[u8], terms: &[Term]) -> Result<String, AllocError>
    requires { 36 ≤ length header.now }
    ensures { IfOk result (λ text. string_bytes text ≡ objects_text header.now (views terms.now)) }
{
    let mut all = String::new(alloc);
    push_objects(alloc, &[], terms, &mut all)?;
    let mut text = String::new(alloc);
    push_table(header, all.as_str(), &mut text)?;
    Ok(text)
}
