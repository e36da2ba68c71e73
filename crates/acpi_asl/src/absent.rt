//! External statements for the names of a block for which it has no object (ACPI 6.5, 5.3 and 19.6.45).

ghost use Rattle.std.specs.Prelude.{◌≡◌, ◌+◌, ◌/◌, ◌++◌, length, [], ◌∷◌, true, Some, map, option_map, IfOk, OnOk, string_bytes};
ghost use Rattle.acpi_term.specs.PathText.{name_of_segments};
ghost use Rattle.acpi_term.specs.View.{entry_view, head_of, view, views, single};
ghost use Rattle.acpi_terms_text.specs.Path.{path_in};
ghost use Rattle.acpi_terms_text.specs.Scoped.{any};
ghost use Rattle.acpi_asl.specs.Absent.{finds, is_found, absent, made, used, made_operand};
ghost use Rattle.acpi_asl.specs.Namespace.{named_by};
ghost use Rattle.acpi_asl.specs.Absent.{made_units, made_items, made_around, around_items, scope_items, is_call};
ghost use Rattle.acpi_asl.specs.Absent.{method_items, connection_items, other_items, own_items, items, all_items, left_after};
ghost use Rattle.acpi_asl.specs.Absent.{made_in, as_path, path_made, made_by_path, parent_items};
ghost use Rattle.acpi_asl.specs.Absent.{uses_name, absent_line, known_by, known_after, AreAdded, first_objects};
ghost use Rattle.acpi_asl.specs.Absent.{are_found, own_found, all_found, absent_text};

use crate::namespace::named_by;
use crate::opening::push_own;
use crate::paths::Paths;
use crate::place::{Place, STATEMENTS, is_statement, next, place_of, push_line};
use acpi_term::apart::{Kind, parts_of};
use acpi_term::name_string::NameString;
use acpi_term::op::Op;
use acpi_term::term::{Term, TermEntry};
use acpi_terms_text::objects::{inner_scope, inside, name_at};
use acpi_terms_text::path::{joined, parent, path_in};
use std::alloc::{AllocError, Global};

// What is looked for when terms are gone through.
#[derive(Clone, Copy)]
enum Pass {
    // The objects that they make.
    Objects,
    // The scopes that they open.
    Scopes,
    // The methods that they call.
    Methods,
    // The scopes around the objects of other blocks that they declare.
    Around,
    // The other scopes in which they make objects.
    Parents,
    // The other objects that they name.
    Others,
}

// ---- names that find an object

// Returns whether a segment finds an object in a scope, or in one around it.
fn finds(known: &Paths, scope: &[u8], segment: &[u8]) -> bool
    ensures { result ≡ finds (length scope.now / 4) known.now scope.now segment.now }
{
    let mut around = scope;
    'scopes: while around.len() >= 4 {
        if known.has(around, segment) {
            return true;
        }
        around = parent(around);
    }
    known.has(around, segment)
}

// Returns whether a name in a scope finds an object.
fn is_found(
    alloc: Global,
    known: &Paths,
    scope: &[u8],
    name: &NameString,
) -> Result<bool, AllocError>
    ensures { IfOk result (λ found. found ≡ is_found known.now scope.now name.now) }
{
    let bytes = name.as_bytes();
    if bytes.len() == 4 {
        return Ok(finds(known, scope, bytes));
    }
    let path = path_in(alloc, scope, name)?;
    Ok(known.has(&path, &[]))
}

// Returns the path of an object for a name that finds none.
fn absent(alloc: Global, scope: &[u8], name: &NameString) -> Result<Vec<u8>, AllocError>
    ensures { IfOk result (λ path. path.items ≡ absent scope.now name.now) }
{
    let bytes = name.as_bytes();
    if bytes.len() == 4 {
        return Vec::from_slice(alloc, bytes);
    }
    path_in(alloc, scope, name)
}

// ---- objects

// Makes the path of a name known.
fn make_named(
    alloc: Global,
    scope: &[u8],
    name: &NameString,
    known: &mut Paths,
) -> Result<(), AllocError>
    ensures { OnOk result (known.new ≡ known_by known.old (made (path_in scope.now name.now))) }
{
    let path = path_in(alloc, scope, name)?;
    known.add(alloc, path)
}

// Makes the path of a field unit known, if the entry has a name.
fn make_unit(
    alloc: Global,
    scope: &[u8],
    entry: &TermEntry,
    known: &mut Paths,
) -> Result<(), AllocError>
    ensures { OnOk result (known.new ≡ known_after known.old (made_units scope.now (entry_view entry.now ∷ []))) }
{
    match entry {
        TermEntry::Named(segment, ..) => {
            let path = joined(alloc, scope, segment)?;
            known.add(alloc, path)
        }
        _ => Ok(()),
    }
}

// Makes the paths of a field's named entries known.
fn make_units(
    alloc: Global,
    scope: &[u8],
    entries: &[TermEntry],
    known: &mut Paths,
) -> Result<(), AllocError>
    ensures { OnOk result (known.new ≡ known_after known.old (made_units scope.now (map entry_view entries.now))) }
{
    'entries: for entry in entries {
        make_unit(alloc, scope, entry, known)?;
    }
    Ok(())
}

// Makes the object known that an operator with these operands makes.
fn make_operand(
    alloc: Global,
    scope: &[u8],
    op: Op,
    first: &[Term],
    others: &[Term],
    known: &mut Paths,
) -> Result<(), AllocError>
    ensures { OnOk result (known.new ≡ known_after known.old
        (made_operand scope.now (named_by op) (views (first.now ++ others.now)))) }
{
    let Some(place) = named_by(op) else {
        return Ok(());
    };
    match name_at(place, first, others) {
        Some(name) => make_named(alloc, scope, name, known),
        None => Ok(()),
    }
}

// Makes the objects known that a term with these children makes.
fn make_own(
    alloc: Global,
    scope: &[u8],
    kind: Kind<'_>,
    first: &[Term],
    others: &[Term],
    known: &mut Paths,
) -> Result<(), AllocError>
    ensures { OnOk result (known.new ≡ known_after known.old
        (made_items scope.now (head_of kind.entry) (views (first.now ++ others.now)))) }
{
    match kind {
        Kind::Name(name)
        | Kind::Device(name)
        | Kind::Method(name, ..)
        | Kind::LeveledMethod(name, ..)
        | Kind::Mutex(name, _)
        | Kind::OpRegion(name, _)
        | Kind::PowerResource(name, ..)
        | Kind::Processor(name, ..)
        | Kind::ThermalZone(name)
        | Kind::External(name, ..) => make_named(alloc, scope, name, known),
        Kind::Field(_, _, _, _, entries)
        | Kind::IndexField(_, _, _, _, _, entries)
        | Kind::BankField(_, _, _, _, _, entries) => make_units(alloc, scope, entries, known),
        Kind::Op(op) => make_operand(alloc, scope, op, first, others, known),
        _ => Ok(()),
    }
}

// Makes a path known.
fn make(alloc: Global, path: &[u8], known: &mut Paths) -> Result<(), AllocError>
    ensures { OnOk result (known.new ≡ known_by known.old (made path.now)) }
{
    let path = Vec::from_slice(alloc, path)?;
    known.add(alloc, path)
}

// Makes the scopes around a path known.
fn make_around(alloc: Global, path: &[u8], known: &mut Paths) -> Result<(), AllocError>
    ensures { OnOk result (known.new ≡ known_after known.old (made_around (length path.now / 4) path.now)) }
{
    let mut around = path;
    'scopes: while around.len() >= 4 {
        around = parent(around);
        make(alloc, around, known)?;
    }
    Ok(())
}

// Makes the scopes around an object of another block known, if a term declares it.
fn make_external(
    alloc: Global,
    scope: &[u8],
    kind: Kind<'_>,
    known: &mut Paths,
) -> Result<(), AllocError>
    ensures { OnOk result (known.new ≡ known_after known.old (around_items scope.now (head_of kind.entry))) }
{
    match kind {
        Kind::External(name, ..) => {
            let path = path_in(alloc, scope, name)?;
            make_around(alloc, &path, known)
        }
        _ => Ok(()),
    }
}

// ---- names that are used

// Adds the External statement of an object that is absent.
fn push_line_of(name: &NameString, kind: u8, args: u8, text: &mut String) -> Result<(), AllocError>
    ensures { OnOk result (string_bytes text.new ≡ string_bytes text.old ++ absent_line kind args (Some name.now)) }
{
    push_line(1, text)?;
    text.push_str("/*= Absent */ External (")?;
    push_own(Kind::External(name, kind, args), 0, text)?;
    text.push_str(")")
}

// Adds the External statement of an object that is absent, and makes it known.
fn push_absent(
    alloc: Global,
    path: Vec<u8>,
    kind: u8,
    args: u8,
    known: &mut Paths,
    text: &mut String,
) -> Result<(), AllocError>
    ensures known { OnOk result (known.new ≡ known_by known.old (made path.items)) }
    ensures text { OnOk result (string_bytes text.new ≡ string_bytes text.old
        ++ absent_line kind args (name_of_segments true path.items)) }
{
    match NameString::of_segments(alloc, true, &path)? {
        Some(name) => push_line_of(&name, kind, args, text)?,
        None => {}
    }
    known.add(alloc, path)
}

// Adds the External statement for a name, if it finds no object: of this type, with so many arguments. Then the object is known.
fn push_used(
    alloc: Global,
    scope: &[u8],
    name: &NameString,
    kind: u8,
    args: u8,
    known: &mut Paths,
    text: &mut String,
) -> Result<(), AllocError>
    ensures { OnOk result (AreAdded (used scope.now name.now kind args ∷ []) known.old known.new
        (string_bytes text.old) (string_bytes text.new)) }
{
    if is_found(alloc, known, scope, name)? {
        return Ok(());
    }
    let path = absent(alloc, scope, name)?;
    push_absent(alloc, path, kind, args, known, text)
}

// Adds the External statement for the connection that an entry of a field names.
fn push_connection(
    alloc: Global,
    scope: &[u8],
    entry: &TermEntry,
    known: &mut Paths,
    text: &mut String,
) -> Result<(), AllocError>
    ensures { OnOk result (AreAdded (connection_items scope.now (entry_view entry.now ∷ [])) known.old known.new
        (string_bytes text.old) (string_bytes text.new)) }
{
    match entry {
        TermEntry::Connection(name) => push_used(alloc, scope, name, 0, 0, known, text),
        _ => Ok(()),
    }
}

// Adds External statements for the connections that the entries of a field name.
fn push_connections(
    alloc: Global,
    scope: &[u8],
    entries: &[TermEntry],
    known: &mut Paths,
    text: &mut String,
) -> Result<(), AllocError>
    ensures { OnOk result (AreAdded (connection_items scope.now (map entry_view entries.now)) known.old known.new
        (string_bytes text.old) (string_bytes text.new)) }
{
    'entries: for entry in entries {
        push_connection(alloc, scope, entry, known, text)?;
    }
    Ok(())
}

// Adds External statements for the region of a field and for the connections of its entries.
#[tactic(auto, using(crate::proofs::Absents::one_added))]
fn push_field(
    alloc: Global,
    scope: &[u8],
    region: &NameString,
    entries: &[TermEntry],
    known: &mut Paths,
    text: &mut String,
) -> Result<(), AllocError>
    ensures { OnOk result (AreAdded (used scope.now region.now 0 0 ∷ connection_items scope.now (map entry_view entries.now))
        known.old known.new (string_bytes text.old) (string_bytes text.new)) }
{
    push_used(alloc, scope, region, 0, 0, known, text)?;
    push_connections(alloc, scope, entries, known, text)?;
    Ok(())
}

// Adds External statements for two names, of registers or of a region and a register, and for the connections of entries.
#[tactic(auto, using(crate::proofs::Absents::one_added))]
fn push_registers(
    alloc: Global,
    scope: &[u8],
    first: &NameString,
    second: &NameString,
    entries: &[TermEntry],
    known: &mut Paths,
    text: &mut String,
) -> Result<(), AllocError>
    ensures { OnOk result (AreAdded
        (used scope.now first.now 0 0 ∷ used scope.now second.now 0 0 ∷ connection_items scope.now (map entry_view entries.now))
        known.old known.new (string_bytes text.old) (string_bytes text.new)) }
{
    push_used(alloc, scope, first, 0, 0, known, text)?;
    push_field(alloc, scope, second, entries, known, text)?;
    Ok(())
}

// Adds the External statement for the scope that a term opens.
fn push_scope(
    alloc: Global,
    scope: &[u8],
    kind: Kind<'_>,
    known: &mut Paths,
    text: &mut String,
) -> Result<(), AllocError>
    ensures { OnOk result (AreAdded (scope_items scope.now (head_of kind.entry)) known.old known.new
        (string_bytes text.old) (string_bytes text.new)) }
{
    match kind {
        Kind::Scope(name) => push_used(alloc, scope, name, 6, 0, known, text),
        _ => Ok(()),
    }
}

// Returns whether a name with this many arguments in a place is a call: as a statement it is one without arguments, too.
fn is_call(place: Place, count: usize) -> bool
    ensures { result ≡ is_call place count }
{
    is_statement(place) || count > 0
}

// Adds the External statement for the method that a term with this many children calls.
fn push_method(
    alloc: Global,
    place: Place,
    scope: &[u8],
    kind: Kind<'_>,
    count: usize,
    known: &mut Paths,
    text: &mut String,
) -> Result<(), AllocError>
    ensures { OnOk result (AreAdded (method_items place scope.now (head_of kind.entry) count) known.old known.new
        (string_bytes text.old) (string_bytes text.new)) }
{
    match kind {
        Kind::Call(name) if is_call(place, count) => {
            push_used(alloc, scope, name, 8, count.min(7) as u8, known, text)
        }
        _ => Ok(()),
    }
}

// Returns a name that is more than a segment.
fn as_path(name: &NameString) -> Option<&NameString>
    ensures { option_map (λ name. name.now) result ≡ as_path name.now }
{
    if name.as_bytes().len() == 4 {
        None
    } else {
        Some(name)
    }
}

// Returns the path by which a term makes an object in another scope than its own.
fn path_made<'a>(kind: Kind<'a>) -> Option<&'a NameString>
    ensures { option_map (λ name. name.now) result ≡ path_made (head_of kind.entry) }
{
    match kind {
        Kind::Name(name)
        | Kind::Device(name)
        | Kind::Method(name, ..)
        | Kind::LeveledMethod(name, ..)
        | Kind::Mutex(name, _)
        | Kind::OpRegion(name, _)
        | Kind::PowerResource(name, ..)
        | Kind::Processor(name, ..)
        | Kind::ThermalZone(name) => as_path(name),
        _ => None,
    }
}

// Adds the External statement of a scope in which an object is made, if it isn't known.
fn push_parent(
    alloc: Global,
    scope: &[u8],
    name: &NameString,
    known: &mut Paths,
    text: &mut String,
) -> Result<(), AllocError>
    ensures { OnOk result (AreAdded (made_by_path scope.now (Some name.now)) known.old known.new
        (string_bytes text.old) (string_bytes text.new)) }
{
    let path = path_in(alloc, scope, name)?;
    let around = parent(&path);
    if known.has(around, &[]) {
        return Ok(());
    }
    let around = Vec::from_slice(alloc, around)?;
    push_absent(alloc, around, 6, 0, known, text)
}

// Adds the External statement of the other scope in which a term makes an object.
fn push_parents(
    alloc: Global,
    scope: &[u8],
    kind: Kind<'_>,
    known: &mut Paths,
    text: &mut String,
) -> Result<(), AllocError>
    ensures { OnOk result (AreAdded (parent_items scope.now (head_of kind.entry)) known.old known.new
        (string_bytes text.old) (string_bytes text.new)) }
{
    match path_made(kind) {
        Some(name) => push_parent(alloc, scope, name, known, text),
        None => Ok(()),
    }
}

// Adds External statements for the other objects that a term names.
fn push_other(
    alloc: Global,
    scope: &[u8],
    kind: Kind<'_>,
    known: &mut Paths,
    text: &mut String,
) -> Result<(), AllocError>
    ensures { OnOk result (AreAdded (other_items scope.now (head_of kind.entry)) known.old known.new
        (string_bytes text.old) (string_bytes text.new)) }
{
    match kind {
        Kind::Call(name) | Kind::Acquire(name, _) | Kind::Release(name) => {
            push_used(alloc, scope, name, 0, 0, known, text)
        }
        Kind::Field(region, _, _, _, entries) => {
            push_field(alloc, scope, region, entries, known, text)
        }
        Kind::IndexField(first, second, _, _, _, entries)
        | Kind::BankField(first, second, _, _, _, entries) => {
            push_registers(alloc, scope, first, second, entries, known, text)
        }
        _ => Ok(()),
    }
}

// ---- terms

// Makes the objects of a term with these children known, or adds the statements for the names that it uses.
fn push_own_items(
    alloc: Global,
    pass: Pass,
    place: Place,
    scope: &[u8],
    kind: Kind<'_>,
    first: &[Term],
    others: &[Term],
    known: &mut Paths,
    text: &mut String,
) -> Result<(), AllocError>
    ensures { OnOk result (AreAdded (own_items pass place scope.now (head_of kind.entry) (views (first.now ++ others.now)))
        known.old known.new (string_bytes text.old) (string_bytes text.new)) }
{
    let count = first.len() + others.len();
    match pass {
        Pass::Objects => make_own(alloc, scope, kind, first, others, known)?,
        Pass::Scopes => push_scope(alloc, scope, kind, known, text)?,
        Pass::Methods => push_method(alloc, place, scope, kind, count, known, text)?,
        Pass::Around => make_external(alloc, scope, kind, known)?,
        Pass::Parents => push_parents(alloc, scope, kind, known, text)?,
        Pass::Others => push_other(alloc, scope, kind, known, text)?,
    }
    Ok(())
}

// Goes through the terms of a scope and the terms inside them. The first is at `place`. Returns the place after the last.
#[cycle(items)]
fn push_items(
    alloc: Global,
    pass: Pass,
    place: Place,
    scope: &[u8],
    terms: &[Term],
    known: &mut Paths,
    text: &mut String,
) -> Result<Place, AllocError>
    ensures added { OnOk result (AreAdded (items pass place scope.now (views terms.now)) known.old known.new
        (string_bytes text.old) (string_bytes text.new)) }
    ensures place { IfOk result (λ left. left ≡ left_after place (views terms.now)) }
{
    let mut left = place;
    for term in terms {
        push_items_of(alloc, pass, left, scope, term, known, text)?;
        left = next(left, false);
    }
    Ok(left)
}

#[cycle(items)]
fn push_items_of(
    alloc: Global,
    pass: Pass,
    place: Place,
    scope: &[u8],
    term: &Term,
    known: &mut Paths,
    text: &mut String,
) -> Result<(), AllocError>
    ensures { OnOk result (AreAdded (items pass place scope.now (single (view term.now))) known.old known.new
        (string_bytes text.old) (string_bytes text.new)) }
{
    let parts = parts_of(term);
    push_own_items(
        alloc,
        pass,
        place,
        scope,
        parts.kind,
        parts.first,
        parts.others,
        known,
        text,
    )?;
    if parts.first.is_empty() && parts.others.is_empty() {
        return Ok(());
    }
    let own = inside(alloc, scope, parts.kind)?;
    let inner = inner_scope(scope, &own);
    let first = place_of(parts.kind, parts.first.len() + parts.others.len());
    let left = push_items(alloc, pass, first, inner, parts.first, known, text)?;
    push_items(alloc, pass, left, inner, parts.others, known, text)?;
    Ok(())
}

// ---- names that all find an object

// Returns whether the connection that an entry of a field names finds an object.
fn is_connection_found(
    alloc: Global,
    known: &Paths,
    scope: &[u8],
    entry: &TermEntry,
) -> Result<bool, AllocError>
    ensures { IfOk result (λ found. found ≡ are_found known.now (connection_items scope.now (entry_view entry.now ∷ []))) }
{
    match entry {
        TermEntry::Connection(name) => is_found(alloc, known, scope, name),
        _ => Ok(true),
    }
}

// Returns whether a field's region and the connections of its entries find objects.
fn is_field_found(
    alloc: Global,
    known: &Paths,
    scope: &[u8],
    region: &NameString,
    entries: &[TermEntry],
) -> Result<bool, AllocError>
    ensures { IfOk result (λ found. found ≡ are_found known.now
        (used scope.now region.now 0 0 ∷ connection_items scope.now (map entry_view entries.now))) }
{
    if !is_found(alloc, known, scope, region)? {
        return Ok(false);
    }
    'entries: for entry in entries {
        if !is_connection_found(alloc, known, scope, entry)? {
            return Ok(false);
        }
    }
    Ok(true)
}

// Returns whether the other scope is known in which a term makes an object.
fn is_parent_found(
    alloc: Global,
    known: &Paths,
    scope: &[u8],
    kind: Kind<'_>,
) -> Result<bool, AllocError>
    ensures { IfOk result (λ found. found ≡ are_found known.now (parent_items scope.now (head_of kind.entry))) }
{
    match path_made(kind) {
        Some(name) => Ok(known.has(parent(&path_in(alloc, scope, name)?), &[])),
        None => Ok(true),
    }
}

// Returns whether the names that a term uses find objects, and the scope in which it makes one.
fn own_found(alloc: Global, known: &Paths, scope: &[u8], kind: Kind<'_>) -> Result<bool, AllocError>
    ensures { IfOk result (λ found. found ≡ own_found known.now scope.now (head_of kind.entry)) }
{
    match kind {
        Kind::Scope(name) | Kind::Call(name) | Kind::Acquire(name, _) | Kind::Release(name) => {
            is_found(alloc, known, scope, name)
        }
        Kind::Field(region, _, _, _, entries) => {
            is_field_found(alloc, known, scope, region, entries)
        }
        Kind::IndexField(first, second, _, _, _, entries)
        | Kind::BankField(first, second, _, _, _, entries) => {
            if !is_found(alloc, known, scope, first)? {
                return Ok(false);
            }
            is_field_found(alloc, known, scope, second, entries)
        }
        _ => is_parent_found(alloc, known, scope, kind),
    }
}

// Returns whether all names that these terms and the terms inside them use find objects.
#[cycle(found)]
fn are_found(alloc: Global, known: &Paths, scope: &[u8], terms: &[Term]) -> Result<bool, AllocError>
    ensures { IfOk result (λ found. found ≡ all_found known.now scope.now (views terms.now)) }
{
    for term in terms {
        if !are_found_in(alloc, known, scope, term)? {
            return Ok(false);
        }
    }
    Ok(true)
}

#[cycle(found)]
fn are_found_in(alloc: Global, known: &Paths, scope: &[u8], term: &Term) -> Result<bool, AllocError>
    ensures { IfOk result (λ found. found ≡ all_found known.now scope.now (single (view term.now))) }
{
    let parts = parts_of(term);
    if !own_found(alloc, known, scope, parts.kind)? {
        return Ok(false);
    }
    if parts.first.is_empty() && parts.others.is_empty() {
        return Ok(true);
    }
    let own = inside(alloc, scope, parts.kind)?;
    let inner = inner_scope(scope, &own);
    Ok(
        are_found(alloc, known, inner, parts.first)?
            && are_found(alloc, known, inner, parts.others)?,
    )
}

// ---- blocks

// Returns whether a term names an object that something else makes, or makes one in another scope.
fn uses_name(kind: Kind<'_>) -> bool
    ensures { result ≡ uses_name (head_of kind.entry) }
{
    match kind {
        Kind::Scope(_)
        | Kind::Call(_)
        | Kind::Field(..)
        | Kind::IndexField(..)
        | Kind::BankField(..)
        | Kind::Acquire(..)
        | Kind::Release(_) => true,
        _ => path_made(kind).is_some(),
    }
}

// Returns whether one of these terms, or a term inside them, does so.
#[cycle(uses)]
fn use_names(terms: &[Term]) -> bool
    ensures { result ≡ any uses_name (views terms.now) }
{
    for term in terms {
        if uses_names(term) {
            return true;
        }
    }
    false
}

#[cycle(uses)]
fn uses_names(term: &Term) -> bool
    ensures { result ≡ any uses_name (single (view term.now)) }
{
    let parts = parts_of(term);
    if uses_name(parts.kind) {
        return true;
    }
    if use_names(parts.first) {
        return true;
    }
    use_names(parts.others)
}

// Returns the paths of the root and of the objects that the operating system makes.
fn known_at_first(alloc: Global) -> Result<Paths, AllocError>
    ensures { IfOk result (λ known. known ≡ known_after [] first_objects) }
{
    let mut known = Paths::new(alloc);
    make(alloc, &[], &mut known)?;
    make(alloc, b"_GPE", &mut known)?;
    make(alloc, b"_PR_", &mut known)?;
    make(alloc, b"_SB_", &mut known)?;
    make(alloc, b"_SI_", &mut known)?;
    make(alloc, b"_TZ_", &mut known)?;
    make(alloc, b"_GL_", &mut known)?;
    make(alloc, b"_OS_", &mut known)?;
    make(alloc, b"_OSI", &mut known)?;
    make(alloc, b"_REV", &mut known)?;
    Ok(known)
}

// Goes through the terms of a block.
fn push_pass(
    alloc: Global,
    pass: Pass,
    terms: &[Term],
    known: &mut Paths,
    text: &mut String,
) -> Result<(), AllocError>
    ensures { OnOk result (AreAdded (all_items pass (views terms.now)) known.old known.new
        (string_bytes text.old) (string_bytes text.new)) }
{
    push_items(alloc, pass, STATEMENTS, &[], terms, known, text)?;
    Ok(())
}

/// Adds an External statement for each name of a block for which it has no object, and for each scope in which it makes an object
/// but which it doesn't know.
pub fn push_absents(alloc: Global, terms: &[Term], text: &mut String) -> Result<(), AllocError>
    ensures { OnOk result (string_bytes text.new ≡ string_bytes text.old ++ absent_text (views terms.now)) }
{
    if !use_names(terms) {
        return Ok(());
    }
    let mut known = known_at_first(alloc)?;
    push_pass(alloc, Pass::Objects, terms, &mut known, text)?;
    if are_found(alloc, &known, &[], terms)? {
        return Ok(());
    }
    push_pass(alloc, Pass::Scopes, terms, &mut known, text)?;
    push_pass(alloc, Pass::Methods, terms, &mut known, text)?;
    push_pass(alloc, Pass::Around, terms, &mut known, text)?;
    push_pass(alloc, Pass::Parents, terms, &mut known, text)?;
    push_pass(alloc, Pass::Others, terms, &mut known, text)?;
    Ok(())
}
