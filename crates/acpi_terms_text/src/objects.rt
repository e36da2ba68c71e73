//! The objects of a definition block, and how many arguments the methods of them take.

ghost use Rattle.std.specs.Prelude.{◌≡◌, ◌==◌, ◌++◌, OnOk, IfOk, [], ◌∷◌, map, unwrap_or, if◌then◌else◌};
ghost use Rattle.std.specs.Option.{option_map};
ghost use Rattle.std.specs.Str.{bytes_eq};
ghost use Rattle.acpi_term.specs.Arity.{arity, with_all, with_new};
ghost use Rattle.acpi_term.specs.PathText.{name_of_segments};
ghost use Rattle.acpi_term.specs.View.{entry_view, head_of, view, views, single};
ghost use Rattle.acpi_terms_text.specs.Objects.{inside, counted, from_each, calls};
ghost use Rattle.acpi_terms_text.specs.Objects.{is_method, callee, callee_by, makes, as_segment};
ghost use Rattle.acpi_terms_text.specs.Objects.{own_unit, own_units, own_external};
ghost use Rattle.acpi_terms_text.specs.Objects.{made_by, name_of, name_at, own_operand, own_objects, objects};
ghost use Rattle.acpi_terms_text.specs.Objects.{segment_of, segments, segments_in, own_segments, all_among, all_callees};
ghost use Rattle.acpi_terms_text.specs.Objects.{has_segment, keeps, all_kept};
ghost use Rattle.acpi_terms_text.specs.Objects.{args_at, aliases, callees, numbers, numbers_of, called, predefined};
ghost use Rattle.acpi_terms_text.specs.Objects.{own_numbers, first_numbers};
ghost use Rattle.acpi_terms_text.specs.Objects.{AreOwn, AddObjectsIn};
ghost use Rattle.acpi_terms_text.specs.Path.{path_in};

use crate::alias::{add_aliases, aliases_in};
use crate::path::{is_path_in, last_segment, path_in};
use acpi_read::terms::in_part::terms_in_part;
use acpi_term::apart::{Kind, parts_of};
use acpi_term::name_string::{Arities, NameString, name_of};
use acpi_term::op::Op;
use acpi_term::read_error::ReadError;
use acpi_term::segment::is_segment;
use acpi_term::term::{Term, TermEntry};
use std::alloc::{AllocError, Global};

/// Returns the path of the scope of a term's children, if it isn't the scope around the term.
pub fn inside(alloc: Global, scope: &[u8], kind: Kind<'_>) -> Result<Option<Vec<u8>>, AllocError>
    ensures { IfOk result (λ own. unwrap_or (option_map (λ path. path.items) own) scope.now
        ≡ inside scope.now (head_of kind.entry)) }
{
    match kind {
        Kind::Scope(name)
        | Kind::Device(name)
        | Kind::Method(name, ..)
        | Kind::PowerResource(name, ..)
        | Kind::LeveledMethod(name, ..)
        | Kind::Processor(name, ..)
        | Kind::ThermalZone(name) => Ok(Some(path_in(alloc, scope, name)?)),
        _ => Ok(None),
    }
}

/// Returns the path of the scope of a term's children: its own, or that of the scope around the term.
pub fn inner_scope<'a>(scope: &'a [u8], own: &'a Option<Vec<u8>>) -> &'a [u8]
    ensures { result.now ≡ unwrap_or (option_map (λ path. path.items) own.now) scope.now }
{
    match own {
        Some(path) => path,
        None => scope,
    }
}

// Adds a number of arguments for the name of these segments, from the root or without it, if they have one.
fn add_name(
    alloc: Global,
    from_root: bool,
    segments: &[u8],
    args: u8,
    all: &mut Arities,
) -> Result<(), AllocError>
    ensures { OnOk result (all.new ≡ with_all all.old (counted args (name_of_segments from_root segments.now))) }
{
    match NameString::of_segments(alloc, from_root, segments)? {
        Some(name) => all.add(name, args),
        None => Ok(()),
    }
}

// Adds a number of arguments for the names of a path's segments from each on.
fn add_from_each(alloc: Global, path: &[u8], args: u8, all: &mut Arities) -> Result<(), AllocError>
    ensures { OnOk result (all.new ≡ with_all all.old (from_each args path.now)) }
{
    let mut rest = path;
    'segments: while let [_, _, _, _, more @ ..] = rest {
        add_name(alloc, false, rest, args, all)?;
        rest = more;
    }
    Ok(())
}

// Adds a number of arguments for the names by which a path is called.
fn add_calls(alloc: Global, path: &[u8], args: u8, all: &mut Arities) -> Result<(), AllocError>
    ensures { OnOk result (all.new ≡ with_all all.old (calls args path.now)) }
{
    add_name(alloc, true, path, args, all)?;
    add_from_each(alloc, path, args, all)
}

// Returns whether an external object is a method, whose number of arguments is there.
fn is_method(kind: u8, args: u8) -> bool
    ensures { result ≡ is_method kind args }
{
    kind == 8 && args <= 7
}

// ---- the objects of terms

/// An object that calls may name: its path, its name in the term that makes it, and the number of its arguments. Only methods
/// have arguments.
#[derive(Debug, Drop)]
pub struct Object {
    pub(crate) path: Vec<u8>,
    pub(crate) name: NameString,
    pub(crate) args: u8,
}

// Which objects are kept.
#[derive(Clone, Copy)]
pub(crate) enum Kept<'a> {
    All,
    // Those whose last segment is one of these.
    Among(&'a Arities),
    // Those whose last segment is in these bytes.
    In(&'a [u8]),
    // Those whose last segment has another number here.
    Other(&'a Arities),
}

// Returns whether these four bytes are a segment.
fn is_four(a: u8, b: u8, c: u8, d: u8, segment: &[u8]) -> bool
    ensures { result ≡ bytes_eq (a ∷ b ∷ c ∷ d ∷ []) segment.now }
{
    match segment {
        [e, f, g, h] => a == *e && b == *f && c == *g && d == *h,
        _ => false,
    }
}

// Returns whether bytes have a segment somewhere.
fn has_segment(bytes: &[u8], segment: &[u8]) -> bool
    ensures { result ≡ has_segment bytes.now segment.now }
{
    let mut rest = bytes;
    'fours: while let [a, b, c, d, ..] = rest {
        if is_four(*a, *b, *c, *d, segment) {
            return true;
        }
        rest = &rest[1..];
    }
    false
}

// Returns whether an object of this name with this number of arguments is kept.
fn keeps(kept: Kept<'_>, name: &[u8], args: u8) -> bool
    ensures { result ≡ keeps kept.entry name.now args }
{
    match kept {
        Kept::All => true,
        Kept::Among(among) => among.count_of(last_segment(name)) != 0,
        Kept::In(bytes) => has_segment(bytes, last_segment(name)),
        Kept::Other(numbers) => numbers.count_of(last_segment(name)) != args,
    }
}

// Adds an object of a path.
fn push_at(
    alloc: Global,
    path: Vec<u8>,
    name: &NameString,
    args: u8,
    all: &mut Vec<Object>,
) -> Result<(), AllocError>
    ensures { OnOk result (map callee_by all.new.items ≡ map callee_by all.old.items
        ++ callee path.items name.now args ∷ []) }
{
    let name = name_of(alloc, name.as_bytes())?;
    all.push(Object { path, name, args })?;
    Ok(())
}

/// Adds an object, if it is kept.
pub(crate) fn push_object(
    alloc: Global,
    kept: Kept<'_>,
    scope: &[u8],
    name: &NameString,
    args: u8,
    all: &mut Vec<Object>,
) -> Result<(), AllocError>
    ensures { OnOk result (map callee_by all.new.items ≡ map callee_by all.old.items
        ++ all_kept kept.entry (makes scope.now name.now args)) }
{
    if !keeps(kept, name.as_bytes(), args) {
        return Ok(());
    }
    let path = path_in(alloc, scope, name)?;
    push_at(alloc, path, name, args, all)
}

/// Returns the name that is a segment alone, if these bytes are one.
pub(crate) fn as_segment(alloc: Global, bytes: &[u8]) -> Result<Option<NameString>, AllocError>
    ensures { IfOk result (λ name. name ≡ as_segment bytes.now) }
{
    match bytes {
        [a, b, c, d] if is_segment(*a, *b, *c, *d) => Ok(Some(name_of(alloc, bytes)?)),
        _ => Ok(None),
    }
}

// Adds that of an entry of a field.
fn push_unit(
    alloc: Global,
    kept: Kept<'_>,
    scope: &[u8],
    entry: &TermEntry,
    all: &mut Vec<Object>,
) -> Result<(), AllocError>
    ensures { OnOk result (map callee_by all.new.items ≡ map callee_by all.old.items
        ++ all_kept kept.entry (own_unit scope.now (entry_view entry.now))) }
{
    let TermEntry::Named(bytes, ..) = entry else {
        return Ok(());
    };
    let Some(name) = as_segment(alloc, bytes)? else {
        return Ok(());
    };
    push_object(alloc, kept, scope, &name, 0, all)
}

// Adds those of the entries of a field.
fn push_units(
    alloc: Global,
    kept: Kept<'_>,
    scope: &[u8],
    entries: &[TermEntry],
    all: &mut Vec<Object>,
) -> Result<(), AllocError>
    ensures { OnOk result (map callee_by all.new.items ≡ map callee_by all.old.items
        ++ all_kept kept.entry (own_units scope.now (map entry_view entries.now))) }
{
    'entries: for entry in entries {
        push_unit(alloc, kept, scope, entry, all)?;
    }
    Ok(())
}

// Adds an object of another block.
fn push_external(
    alloc: Global,
    kept: Kept<'_>,
    scope: &[u8],
    name: &NameString,
    kind: u8,
    args: u8,
    all: &mut Vec<Object>,
) -> Result<(), AllocError>
    ensures { OnOk result (map callee_by all.new.items ≡ map callee_by all.old.items
        ++ all_kept kept.entry (own_external scope.now name.now kind args)) }
{
    if is_method(kind, args) {
        push_object(alloc, kept, scope, name, args, all)
    } else if kind == 0 || kind == 8 {
        Ok(())
    } else {
        push_object(alloc, kept, scope, name, 0, all)
    }
}

/// Returns the place of the operand that names the object which an operator makes.
pub fn made_by(op: Op) -> Option<usize>
    ensures { result ≡ made_by op }
{
    match op {
        Op::Event | Op::DataRegion => Some(0),
        Op::CreateBitField
        | Op::CreateByteField
        | Op::CreateWordField
        | Op::CreateDWordField
        | Op::CreateQWordField => Some(2),
        Op::CreateField => Some(3),
        _ => None,
    }
}

// Returns the name that a term is, if it is nothing else.
fn alone(term: &Term) -> Option<&NameString>
    ensures { option_map (λ name. name.now) result ≡ name_of (view term.now).0 }
{
    match parts_of(term).kind {
        Kind::Call(name) => Some(name),
        _ => None,
    }
}

/// Returns the name that stands alone at a place of two lists.
pub fn name_at<'a>(place: usize, first: &'a [Term], others: &'a [Term]) -> Option<&'a NameString>
    ensures { option_map (λ name. name.now) result ≡ name_at place (views (first.now ++ others.now)) }
{
    if place < first.len() {
        alone(first.get(place)?)
    } else {
        alone(others.get(place - first.len())?)
    }
}

// Adds the object that an operator with these operands makes.
fn push_made(
    alloc: Global,
    kept: Kept<'_>,
    scope: &[u8],
    op: Op,
    first: &[Term],
    others: &[Term],
    all: &mut Vec<Object>,
) -> Result<(), AllocError>
    ensures { OnOk result (map callee_by all.new.items ≡ map callee_by all.old.items
        ++ all_kept kept.entry (own_operand scope.now (made_by op) (views (first.now ++ others.now)))) }
{
    let Some(place) = made_by(op) else {
        return Ok(());
    };
    let Some(name) = name_at(place, first, others) else {
        return Ok(());
    };
    push_object(alloc, kept, scope, name, 0, all)
}

// Adds the objects that a term with these children makes in a scope.
fn push_own(
    alloc: Global,
    kept: Kept<'_>,
    scope: &[u8],
    kind: Kind<'_>,
    first: &[Term],
    others: &[Term],
    all: &mut Vec<Object>,
) -> Result<(), AllocError>
    ensures { OnOk result (map callee_by all.new.items ≡ map callee_by all.old.items
        ++ all_kept kept.entry (own_objects scope.now (head_of kind.entry) (views (first.now ++ others.now)))) }
{
    match kind {
        Kind::Method(name, args, _) | Kind::LeveledMethod(name, args, ..) => {
            push_object(alloc, kept, scope, name, args, all)
        }
        Kind::External(name, kind, args) => push_external(
            alloc, kept, scope, name, kind, args, all,
        ),
        Kind::Name(name)
        | Kind::Device(name)
        | Kind::Mutex(name, _)
        | Kind::OpRegion(name, _)
        | Kind::PowerResource(name, ..)
        | Kind::Processor(name, ..)
        | Kind::ThermalZone(name) => push_object(alloc, kept, scope, name, 0, all),
        Kind::Field(_, _, _, _, entries)
        | Kind::IndexField(_, _, _, _, _, entries)
        | Kind::BankField(_, _, _, _, _, entries) => push_units(alloc, kept, scope, entries, all),
        Kind::Op(op) => push_made(alloc, kept, scope, op, first, others, all),
        _ => Ok(()),
    }
}

// Adds the objects of terms.
#[cycle(objects)]
fn push_terms(
    alloc: Global,
    kept: Kept<'_>,
    scope: &[u8],
    terms: &[Term],
    all: &mut Vec<Object>,
) -> Result<(), AllocError>
    ensures { OnOk result (map callee_by all.new.items ≡ map callee_by all.old.items
        ++ all_kept kept.entry (objects scope.now (views terms.now))) }
{
    for term in terms {
        push_term(alloc, kept, scope, term, all)?;
    }
    Ok(())
}

#[cycle(objects)]
fn push_term(
    alloc: Global,
    kept: Kept<'_>,
    scope: &[u8],
    term: &Term,
    all: &mut Vec<Object>,
) -> Result<(), AllocError>
    ensures { OnOk result (map callee_by all.new.items ≡ map callee_by all.old.items
        ++ all_kept kept.entry (objects scope.now (single (view term.now)))) }
{
    let parts = parts_of(term);
    push_own(
        alloc,
        kept,
        scope,
        parts.kind,
        parts.first,
        parts.others,
        all,
    )?;
    if parts.first.is_empty() && parts.others.is_empty() {
        return Ok(());
    }
    let own = inside(alloc, scope, parts.kind)?;
    let inner = inner_scope(scope, &own);
    push_terms(alloc, kept, inner, parts.first, all)?;
    push_terms(alloc, kept, inner, parts.others, all)?;
    Ok(())
}

// Adds a copy of an object, if it is kept.
fn push_copy(
    alloc: Global,
    kept: Kept<'_>,
    object: &Object,
    all: &mut Vec<Object>,
) -> Result<(), AllocError>
    ensures { OnOk result (map callee_by all.new.items ≡ map callee_by all.old.items
        ++ all_kept kept.entry (callee_by object.now ∷ [])) }
{
    if !keeps(kept, object.name.as_bytes(), object.args) {
        return Ok(());
    }
    let path = Vec::from_slice(alloc, &object.path)?;
    push_at(alloc, path, &object.name, object.args, all)
}

// Adds copies of the objects that are kept.
pub(crate) fn push_copies(
    alloc: Global,
    kept: Kept<'_>,
    objects: &[Object],
    all: &mut Vec<Object>,
) -> Result<(), AllocError>
    ensures { OnOk result (map callee_by all.new.items ≡ map callee_by all.old.items
        ++ all_kept kept.entry (map callee_by objects.now)) }
{
    'copies: for object in objects {
        push_copy(alloc, kept, object, all)?;
    }
    Ok(())
}

// ---- the objects whose number of arguments matters

// Returns an empty list of numbers.
fn no_numbers(alloc: Global) -> Result<Arities, AllocError>
    ensures { IfOk result (λ all. all ≡ []) }
{
    match Arities::new(Vec::new(alloc)) {
        Ok(all) => Ok(all),
        Err(_) => Err(AllocError),
    }
}

// Adds the number of arguments of a name to a list, which is made for the first one.
fn add_new(
    alloc: Global,
    name: NameString,
    args: u8,
    all: &mut Option<Arities>,
) -> Result<(), AllocError>
    ensures { OnOk result (unwrap_or all.new [] ≡ with_new (unwrap_or all.old []) (name, args)) }
{
    let mut list = match all.take() {
        Some(list) => list,
        None => no_numbers(alloc)?,
    };
    list.add(name, args)?;
    *all = Some(list);
    Ok(())
}

// Adds the last segment of the name of a method, if it has arguments.
fn add_segment(
    alloc: Global,
    name: &NameString,
    args: u8,
    all: &mut Option<Arities>,
) -> Result<(), AllocError>
    ensures { OnOk result (unwrap_or all.new [] ≡ with_all (unwrap_or all.old []) (segment_of name.now args)) }
{
    if args == 0 {
        return Ok(());
    }
    match as_segment(alloc, last_segment(name.as_bytes()))? {
        Some(name) => add_new(alloc, name, args, all),
        None => Ok(()),
    }
}

// Adds that of a method that a term is, or that it declares as external.
fn add_own_segments(
    alloc: Global,
    kind: Kind<'_>,
    all: &mut Option<Arities>,
) -> Result<(), AllocError>
    ensures { OnOk result (unwrap_or all.new [] ≡ with_all (unwrap_or all.old []) (own_segments (head_of kind.entry))) }
{
    match kind {
        Kind::Method(name, args, _) | Kind::LeveledMethod(name, args, ..) => {
            add_segment(alloc, name, args, all)
        }
        Kind::External(name, kind, args) if is_method(kind, args) => {
            add_segment(alloc, name, args, all)
        }
        _ => Ok(()),
    }
}

// Adds those of the methods in terms.
#[cycle(segments)]
fn add_segments(alloc: Global, terms: &[Term], all: &mut Option<Arities>) -> Result<(), AllocError>
    ensures { OnOk result (unwrap_or all.new [] ≡ with_all (unwrap_or all.old []) (segments_in (views terms.now))) }
{
    for term in terms {
        add_segments_of(alloc, term, all)?;
    }
    Ok(())
}

// Most terms are these, and none of them is a method: they aren't taken apart.
#[cycle(segments)]
fn add_segments_of(alloc: Global, term: &Term, all: &mut Option<Arities>) -> Result<(), AllocError>
    ensures { OnOk result (unwrap_or all.new [] ≡ with_all (unwrap_or all.old []) (segments_in (single (view term.now)))) }
{
    match term {
        Term::Number { .. } | Term::Ones | Term::Text(_) | Term::Local(_) | Term::Arg(_) => Ok(()),
        Term::Name { value, .. } => add_segments_of(alloc, value, all),
        Term::Buffer { size, .. } => add_segments_of(alloc, size, all),
        Term::Scope { body, .. } | Term::Device { body, .. } => add_segments(alloc, body, all),
        _ => add_segments_in(alloc, term, all),
    }
}

#[cycle(segments)]
fn add_segments_in(alloc: Global, term: &Term, all: &mut Option<Arities>) -> Result<(), AllocError>
    ensures { OnOk result (unwrap_or all.new [] ≡ with_all (unwrap_or all.old []) (segments_in (single (view term.now)))) }
{
    let parts = parts_of(term);
    add_own_segments(alloc, parts.kind, all)?;
    add_segments(alloc, parts.first, all)?;
    add_segments(alloc, parts.others, all)?;
    Ok(())
}

// Adds those of objects.
fn add_further(
    alloc: Global,
    objects: &[Object],
    all: &mut Option<Arities>,
) -> Result<(), AllocError>
    ensures { OnOk result (unwrap_or all.new [] ≡ with_all (unwrap_or all.old []) (segments (map callee_by objects.now))) }
{
    'objects: for object in objects {
        add_segment(alloc, &object.name, object.args, all)?;
    }
    Ok(())
}

// Returns the last segments of the methods with arguments in terms, and of those of further blocks.
fn all_segments(
    alloc: Global,
    terms: &[Term],
    further: &[Object],
) -> Result<Option<Arities>, AllocError>
    ensures { IfOk result (λ all. unwrap_or all [] ≡ with_all [] (segments (objects [] (views terms.now)
        ++ map callee_by further.now))) }
{
    let mut all = None;
    add_segments(alloc, terms, &mut all)?;
    add_further(alloc, further, &mut all)?;
    Ok(all)
}

// Returns the objects of terms and those of further blocks, of which the last segment is among these.
fn all_among(
    alloc: Global,
    among: &Arities,
    terms: &[Term],
    further: &[Object],
) -> Result<Vec<Object>, AllocError>
    ensures { IfOk result (λ all. map callee_by all.items ≡ all_among among.now (objects [] (views terms.now)
        ++ map callee_by further.now)) }
{
    let kept = Kept::Among(among);
    let mut all = Vec::new(alloc);
    push_terms(alloc, kept, &[], terms, &mut all)?;
    push_copies(alloc, kept, further, &mut all)?;
    Ok(all)
}

// Returns of the objects of terms and those of further blocks the methods with arguments, and all whose names end as those of one
// of them.
fn callees_of(alloc: Global, terms: &[Term], further: &[Object]) -> Result<Vec<Object>, AllocError>
    ensures { IfOk result (λ all. map callee_by all.items ≡ callees (objects [] (views terms.now) ++ map callee_by further.now)) }
{
    match all_segments(alloc, terms, further)? {
        Some(among) => all_among(alloc, &among, terms, further),
        None => Ok(Vec::new(alloc)),
    }
}

// Returns the objects of terms and those of further blocks.
fn all_objects(alloc: Global, terms: &[Term], further: &[Object]) -> Result<Vec<Object>, AllocError>
    ensures { IfOk result (λ all. map callee_by all.items ≡ objects [] (views terms.now) ++ map callee_by further.now) }
{
    let mut all = Vec::new(alloc);
    push_terms(alloc, Kept::All, &[], terms, &mut all)?;
    push_copies(alloc, Kept::All, further, &mut all)?;
    Ok(all)
}

// Returns what calls may name in the terms of a block: of its objects, those of further blocks and those of its aliases, the
// methods with arguments, and all whose names end as those of one of them.
pub(crate) fn all_callees(
    alloc: Global,
    terms: &[Term],
    further: &[Object],
) -> Result<Vec<Object>, AllocError>
    ensures { IfOk result (λ all. map callee_by all.items ≡ all_callees (views terms.now) (map callee_by further.now)) }
{
    let aliases = aliases_in(alloc, terms)?;
    if aliases.is_empty() {
        return callees_of(alloc, terms, further);
    }
    let mut all = all_objects(alloc, terms, further)?;
    add_aliases(alloc, &aliases, &mut all)?;
    callees_of(alloc, &[], &all)
}

/// Returns the number of arguments of the first object that is at the path of a name in a scope.
pub(crate) fn args_at(scope: &[u8], name: &[u8], objects: &[Object]) -> Option<u8>
    ensures { result ≡ args_at (path_in scope.now name.now) (map callee_by objects.now) }
{
    'objects: for object in objects {
        if is_path_in(scope, name, &object.path) {
            return Some(object.args);
        }
    }
    None
}

// ---- numbers of arguments

// Adds the number of arguments of an object for the names by which its path is called, if it is this one.
fn add_object(alloc: Global, args: u8, object: &Object, all: &mut Arities) -> Result<(), AllocError>
    ensures { OnOk result (all.new ≡ with_all all.old (if (callee_by object.now).args == args then numbers (callee_by object.now)
        else [])) }
{
    if object.args != args {
        return Ok(());
    }
    add_calls(alloc, &object.path, object.args, all)
}

// Adds those of the objects with this number of arguments.
fn add_of(alloc: Global, args: u8, objects: &[Object], all: &mut Arities) -> Result<(), AllocError>
    ensures { OnOk result (all.new ≡ with_all all.old (numbers_of args (map callee_by objects.now))) }
{
    'objects: for object in objects {
        add_object(alloc, args, object, all)?;
    }
    Ok(())
}

// Adds those of all objects. Those with the fewest arguments come first.
pub(crate) fn add_objects(
    alloc: Global,
    objects: &[Object],
    all: &mut Arities,
) -> Result<(), AllocError>
    ensures { OnOk result (all.new ≡ with_all all.old (called (map callee_by objects.now))) }
{
    'numbers: for args in 0..8 {
        add_of(alloc, args, objects, all)?;
    }
    Ok(())
}

// Adds the number of arguments of the method that the operating system has.
pub(crate) fn add_predefined(alloc: Global, all: &mut Arities) -> Result<(), AllocError>
    ensures { OnOk result (all.new ≡ with_all all.old predefined) }
{
    add_calls(alloc, b"_OSI", 1, all)
}

// Returns the stated numbers and that of the operating system.
pub(crate) fn first_numbers(alloc: Global, stated: &Arities) -> Result<Arities, AllocError>
    ensures { IfOk result (λ all. all ≡ first_numbers stated.now) }
{
    let mut all = stated.copy(alloc)?;
    add_predefined(alloc, &mut all)?;
    Ok(all)
}

// Returns the stated numbers, those of objects, and that of the operating system.
pub(crate) fn own_numbers(
    alloc: Global,
    stated: &Arities,
    objects: &[Object],
) -> Result<Arities, AllocError>
    ensures { IfOk result (λ all. all ≡ own_numbers stated.now (map callee_by objects.now)) }
{
    let mut all = stated.copy(alloc)?;
    add_objects(alloc, objects, &mut all)?;
    add_predefined(alloc, &mut all)?;
    Ok(all)
}

/// Adds the objects of a further definition block, by which it and others have the same namespace (ACPI 6.5, 5.3). `bytes` are
/// its terms, without the header. The objects are those of the terms that can be read with the stated numbers and that of `_OSI`,
/// and then those of the aliases in them.
pub fn add_objects_in(
    alloc: Global,
    bytes: &[u8],
    stated: &Arities,
    all: &mut Vec<Object>,
) -> Result<(), AllocError>
    ensures { OnOk result (AddObjectsIn stated.now bytes.now (map callee_by all.old.items) (map callee_by all.new.items)) }
{
    let first = first_numbers(alloc, stated)?;
    let terms = terms_in_part(bytes, &first)?;
    push_terms(alloc, Kept::All, &[], &terms, all)?;
    let aliases = aliases_in(alloc, &terms)?;
    add_aliases(alloc, &aliases, all)?;
    Ok(())
}

/// How many arguments names take in a definition block: the stated numbers, those of the objects that the block itself makes, or
/// declares as external, those of the objects of further blocks, and that of `_OSI`, which the operating system has (ACPI 6.5,
/// 5.7.2). `bytes` are its terms, without the header. A method adds its path from the root, and the path without the root from
/// each of its segments on, as calls may name it. So does another object whose name ends as that of a method with arguments; its
/// number is 0. An alias takes as many arguments as its object. A name that is stated keeps its number, and a name of several
/// objects has the least of their numbers. The block's objects are those of the terms that can be read with the stated numbers
/// and that of `_OSI`.
pub fn own_arities(
    alloc: Global,
    bytes: &[u8],
    stated: &Arities,
    further: &[Object],
) -> Result<Arities, AllocError>
    ensures { IfOk result (λ all. AreOwn stated.now (map callee_by further.now) bytes.now all) }
{
    let objects = {
        let first = first_numbers(alloc, stated)?;
        let terms = terms_in_part(bytes, &first)?;
        all_callees(alloc, &terms, further)?
    };
    own_numbers(alloc, stated, &objects)
}
