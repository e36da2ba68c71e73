//! Calls by the search rules of names (ACPI 6.5, 5.3).

ghost use Rattle.std.specs.Prelude.{ℕ, ◌≡◌, ◌++◌, ◌-◌, ◌/◌, ◌||◌, ◌⊎◌, OnOk, IfOk, IfErr, false, [], ◌∷◌, map, length};
ghost use Rattle.std.specs.Option.{option_map};
ghost use Rattle.std.specs.Str.{bytes_eq};
ghost use Rattle.acpi_term.specs.Arity.{arity, with_all};
ghost use Rattle.acpi_term.specs.PathText.{name_of_segments};
ghost use Rattle.acpi_term.specs.View.{head_of, view, views, single};
ghost use Rattle.acpi_terms_text.specs.Objects.{as_segment, callee_by, counted, named_in, with_other};
ghost use Rattle.acpi_terms_text.specs.Path.{parent, path_in};
ghost use Rattle.acpi_terms_text.specs.Scoped.{here, made_in, near, nearest, may_name, any, have_name, numbers_in};
ghost use Rattle.acpi_terms_text.specs.Scoped.{numbers_for};
ghost use Rattle.acpi_terms_text.specs.Scoped.{AreParents, below, all_below, all_relative, is_relative, has_other};
ghost use Rattle.acpi_terms_text.specs.Scoped.{may_be_other, is_unread};
ghost use Rattle.acpi_terms_text.specs.Scoped.{sought as sought_in, are_other};
ghost use Rattle.acpi_terms_text.specs.Scoped.{AreReadAgain, AreKept, IsBody, AreScoped, AreInScopes};

use crate::objects::{
    Kept, Object, add_objects, add_predefined, all_callees, args_at, as_segment, push_copies,
};
use crate::path::{joined, last_segment, parent, path_in};
use acpi_base::error::Error;
use acpi_read::terms::standard_terms;
use acpi_term::apart::{Kind, parts_of};
use acpi_term::name_string::{Arities, NameString, name_of, without_parents};
use acpi_term::read_error::ReadError;
use acpi_term::segment::is_segment;
use acpi_term::spell::spell;
use acpi_term::term::Term;
use std::alloc::{AllocError, Global};
use std::mem::replace;

// How many arguments calls in a block take.
#[derive(Clone, Copy)]
struct Numbers<'a> {
    // The numbers that a caller states.
    stated: &'a Arities,
    objects: &'a [Object],
    // The objects whose last segment has another number in `own`.
    differing: &'a [Object],
    // The numbers by which the whole block was read.
    own: &'a Arities,
}

// Returns whether an object is in this scope.
fn is_in(scope: &[u8], object: &Object) -> bool
    ensures { result ≡ bytes_eq (parent (callee_by object.now).path) scope.now }
{
    parent(&object.path) == scope
}

// Adds the number of a segment, if these bytes are one.
fn add_segment(alloc: Global, bytes: &[u8], args: u8, all: &mut Arities) -> Result<(), AllocError>
    ensures { OnOk result (all.new ≡ with_all all.old (counted args (as_segment bytes.now))) }
{
    match as_segment(alloc, bytes)? {
        Some(name) => all.add(name, args),
        None => Ok(()),
    }
}

// Adds the number of an object, if it is in this scope.
fn add_here(
    alloc: Global,
    scope: &[u8],
    object: &Object,
    all: &mut Arities,
) -> Result<(), AllocError>
    ensures { OnOk result (all.new ≡ with_all all.old (here scope.now (callee_by object.now))) }
{
    if !is_in(scope, object) {
        return Ok(());
    }
    add_segment(
        alloc,
        last_segment(object.name.as_bytes()),
        object.args,
        all,
    )
}

// Adds the numbers of the objects in a scope.
fn add_made_in(
    alloc: Global,
    scope: &[u8],
    objects: &[Object],
    all: &mut Arities,
) -> Result<(), AllocError>
    ensures { OnOk result (all.new ≡ with_all all.old (made_in scope.now (map callee_by objects.now))) }
{
    'objects: for object in objects {
        add_here(alloc, scope, object, all)?;
    }
    Ok(())
}

// Adds those of a scope, and of the `levels` scopes around it.
#[cycle(near)]
fn add_near(
    alloc: Global,
    levels: usize,
    scope: &[u8],
    objects: &[Object],
    all: &mut Arities,
) -> Result<(), AllocError>
    ensures { OnOk result (all.new ≡ with_all all.old (near levels scope.now (map callee_by objects.now))) }
{
    add_made_in(alloc, scope, objects, all)?;
    if levels > 0 {
        add_near(alloc, levels - 1, parent(scope), objects, all)?;
    }
    Ok(())
}

// ---- objects by their paths from a scope

// Adds the number of these segments after these `^`, if they have a name.
#[tactic(auto, using(crate::proofs::Relative::is_name))]
fn add_after(
    alloc: Global,
    up: &[u8],
    segments: &[u8],
    args: u8,
    all: &mut Arities,
) -> Result<(), AllocError>
    requires { AreParents up.now }
    ensures { OnOk result (all.new ≡ with_all all.old
        (counted args (option_map (λ s. up.now ++ s) (name_of_segments false segments.now)))) }
{
    match NameString::of_segments(alloc, false, segments)? {
        Some(name) => {
            let name = joined(alloc, up, name.as_bytes())?;
            all.add(name_of(alloc, &name)?, args)
        }
        None => Ok(()),
    }
}

// Adds the number of an object for the rest of its path after `scope`, if the object is in this scope or deeper.
fn add_below(
    alloc: Global,
    up: &[u8],
    scope: &[u8],
    object: &Object,
    all: &mut Arities,
) -> Result<(), AllocError>
    requires { AreParents up.now }
    ensures { OnOk result (all.new ≡ with_all all.old (below up.now scope.now (callee_by object.now))) }
{
    if !object.path.starts_with(scope) {
        return Ok(());
    }
    add_after(alloc, up, &object.path[scope.len()..], object.args, all)
}

// Adds those of all objects.
fn add_all_below(
    alloc: Global,
    up: &[u8],
    scope: &[u8],
    objects: &[Object],
    all: &mut Arities,
) -> Result<(), AllocError>
    requires { AreParents up.now }
    ensures { OnOk result (all.new ≡ with_all all.old (all_below up.now scope.now (map callee_by objects.now))) }
{
    'objects: for object in objects {
        add_below(alloc, up, scope, object, all)?;
    }
    Ok(())
}

// Adds those by their paths from a scope, and from the scopes around it.
fn add_relative(
    alloc: Global,
    scope: &[u8],
    objects: &[Object],
    all: &mut Arities,
) -> Result<(), AllocError>
    ensures { OnOk result (all.new ≡ with_all all.old (all_relative scope.now (map callee_by objects.now))) }
{
    let mut up = Vec::new(alloc);
    let mut around = scope;
    'levels: while around.len() >= 4 {
        add_all_below(alloc, &up, around, objects, all)?;
        up.push(0x5e)?;
        around = parent(around);
    }
    add_all_below(alloc, &up, around, objects, all)
}

// ---- whether a body is read again

// Returns whether a term is this name, or has bytes that aren't read.
fn may_name(name: &[u8], kind: Kind<'_>) -> bool
    ensures { result ≡ may_name name.now (head_of kind.entry) }
{
    match kind {
        Kind::Call(other) => other.as_bytes() == name,
        Kind::Unread(..) => true,
        _ => false,
    }
}

// Returns whether a name has several segments or begins with `^`, and not with `\`: it is looked for in one scope only.
fn is_relative(name: &[u8]) -> bool
    ensures { result ≡ is_relative name.now }
{
    name.len() > 4 && !matches!(name, [0x5c, ..])
}

// Returns whether a relative name is that of an object which takes another number of arguments than `own` has for the name.
fn has_other(own: &Arities, objects: &[Object], scope: &[u8], name: &[u8]) -> bool
    ensures { result ≡ has_other own.now (map callee_by objects.now) scope.now name.now }
{
    is_relative(name)
        && own.states(without_parents(name))
        && match args_at(scope, name, objects) {
            Some(args) => args != own.count_above(name),
            None => false,
        }
}

// Returns whether a term is a name for which `has_other` is true, or has bytes that aren't read.
fn may_be_other(own: &Arities, objects: &[Object], scope: &[u8], kind: Kind<'_>) -> bool
    ensures { result ≡ may_be_other own.now (map callee_by objects.now) scope.now (head_of kind.entry) }
{
    match kind {
        Kind::Call(name) => has_other(own, objects, scope, name.as_bytes()),
        Kind::Unread(..) => true,
        _ => false,
    }
}

// What is looked for in terms.
#[derive(Clone, Copy)]
pub(crate) enum Sought<'a> {
    // This name.
    Name(&'a [u8]),
    // A name in a scope that is the path of one of these objects, which takes another number of arguments than in this list.
    Path {
        own: &'a Arities,
        objects: &'a [Object],
        scope: &'a [u8],
    },
    // Bytes that aren't read.
    Unread,
}

/// Returns whether a term stands for bytes that aren't read.
pub fn is_unread(kind: Kind<'_>) -> bool
    ensures { result ≡ is_unread (head_of kind.entry) }
{
    match kind {
        Kind::Unread(..) => true,
        _ => false,
    }
}

// Returns whether a term is what is looked for, or has bytes that aren't read.
fn is_sought(sought: Sought<'_>, kind: Kind<'_>) -> bool
    ensures { result ≡ sought_in sought.entry (head_of kind.entry) }
{
    match sought {
        Sought::Name(name) => may_name(name, kind),
        Sought::Path {
            own,
            objects,
            scope,
        } => may_be_other(own, objects, scope, kind),
        Sought::Unread => is_unread(kind),
    }
}

// Returns whether one of these terms, or a term inside them, is what is looked for.
#[cycle(any)]
pub(crate) fn any(sought: Sought<'_>, terms: &[Term]) -> bool
    ensures { result ≡ any (sought_in sought.entry) (views terms.now) }
{
    for term in terms {
        if has(sought, term) {
            return true;
        }
    }
    false
}

#[cycle(any)]
fn has(sought: Sought<'_>, term: &Term) -> bool
    ensures { result ≡ any (sought_in sought.entry) (single (view term.now)) }
{
    let parts = parts_of(term);
    if is_sought(sought, parts.kind) {
        return true;
    }
    if any(sought, parts.first) {
        return true;
    }
    any(sought, parts.others)
}

// Returns whether a body has this segment as a name.
fn names_segment(segment: &[u8], body: &[Term]) -> bool
    ensures { (args : ℕ) → result ≡ have_name (views body.now) (counted args (as_segment segment.now)) }
{
    match segment {
        [a, b, c, d] => is_segment(*a, *b, *c, *d) && any(Sought::Name(segment), body),
        _ => false,
    }
}

// Returns whether a body has the last segment of an object as a name, and the object is in this scope.
fn names_here(scope: &[u8], body: &[Term], object: &Object) -> bool
    ensures { result ≡ have_name (views body.now) (here scope.now (callee_by object.now)) }
{
    is_in(scope, object) && names_segment(last_segment(object.name.as_bytes()), body)
}

// Returns whether a body has the last segment of an object in this scope as a name.
fn names_in(scope: &[u8], body: &[Term], objects: &[Object]) -> bool
    ensures { result ≡ have_name (views body.now) (made_in scope.now (map callee_by objects.now)) }
{
    'objects: for object in objects {
        if names_here(scope, body, object) {
            return true;
        }
    }
    false
}

// Returns whether a body has the last segment of an object in this scope, or in one of the `levels` scopes around it, as a name.
#[cycle(names)]
fn names_near(levels: usize, scope: &[u8], body: &[Term], objects: &[Object]) -> bool
    ensures { result ≡ have_name (views body.now) (near levels scope.now (map callee_by objects.now)) }
{
    names_in(scope, body, objects)
        || levels > 0 && names_near(levels - 1, parent(scope), body, objects)
}

// Returns whether terms in a scope may have other numbers than those by which they were read.
fn are_other(numbers: &Numbers<'_>, scope: &[u8], body: &[Term]) -> bool
    ensures { result ≡ are_other numbers.now.own.now (map callee_by numbers.now.objects.now)
        (map callee_by numbers.now.differing.now) scope.now (views body.now) }
{
    if numbers.objects.is_empty() {
        return false;
    }
    let other = Sought::Path {
        own: numbers.own,
        objects: numbers.objects,
        scope,
    };
    names_near(scope.len() / 4, scope, body, numbers.differing) || any(other, body)
}

// ---- the terms of a method's body

// Returns copies of the objects whose last segment is in these bytes.
#[tactic(auto, using(crate::proofs::Segments::kept_is))]
fn named_in(alloc: Global, bytes: &[u8], objects: &[Object]) -> Result<Vec<Object>, AllocError>
    ensures { IfOk result (λ all. map callee_by all.items ≡ named_in bytes.now (map callee_by objects.now)) }
{
    let mut all = Vec::new(alloc);
    push_copies(alloc, Kept::In(bytes), objects, &mut all)?;
    Ok(all)
}

// Returns copies of the objects whose last segment has another number in a list.
#[tactic(auto, using(crate::proofs::Segments::kept_is))]
fn with_other(alloc: Global, own: &Arities, objects: &[Object]) -> Result<Vec<Object>, AllocError>
    ensures { IfOk result (λ all. map callee_by all.items ≡ with_other own.now (map callee_by objects.now)) }
{
    let mut all = Vec::new(alloc);
    push_copies(alloc, Kept::Other(own), objects, &mut all)?;
    Ok(all)
}

// Returns the numbers in a scope.
fn numbers_in(
    alloc: Global,
    stated: &Arities,
    objects: &[Object],
    scope: &[u8],
) -> Result<Arities, AllocError>
    ensures { IfOk result (λ all. all ≡ numbers_in stated.now (map callee_by objects.now) scope.now) }
{
    let mut all = stated.copy(alloc)?;
    add_near(alloc, scope.len() / 4, scope, objects, &mut all)?;
    add_relative(alloc, scope, objects, &mut all)?;
    add_objects(alloc, objects, &mut all)?;
    add_predefined(alloc, &mut all)?;
    Ok(all)
}

// Returns the terms that the bytes of terms spell with the numbers in a scope, or the same terms if they spell none.
fn read_again(
    alloc: Global,
    numbers: &Numbers<'_>,
    scope: &[u8],
    body: Vec<Term>,
) -> Result<Vec<Term>, AllocError>
    ensures { IfOk result (λ terms.
        AreReadAgain (numbers_for numbers.now.stated.now (map callee_by numbers.now.objects.now) scope.now (views body.items))
        (views body.items) (views terms.items)
        ⊎ AreKept (numbers_for numbers.now.stated.now (map callee_by numbers.now.objects.now) scope.now (views body.items))
        (views body.items) (views terms.items)) }
{
    let bytes = match spell(alloc, &body) {
        Ok(bytes) => bytes,
        Err(Error::Memory) => return Err(AllocError),
        Err(_) => return Ok(body),
    };
    let named = named_in(alloc, &bytes, numbers.objects)?;
    let all = numbers_in(alloc, numbers.stated, &named, scope)?;
    match standard_terms(&bytes, &all) {
        Ok(terms) => Ok(terms),
        Err(ReadError::Memory) => Err(AllocError),
        Err(_) => Ok(body),
    }
}

// Returns the terms of a method's body in the scope that the method makes.
fn body_in(
    alloc: Global,
    numbers: &Numbers<'_>,
    scope: &[u8],
    body: Vec<Term>,
) -> Result<Vec<Term>, AllocError>
    ensures { IfOk result (λ terms. IsBody numbers.now.stated.now (map callee_by numbers.now.objects.now)
        (map callee_by numbers.now.differing.now) numbers.now.own.now scope.now (views body.items) (views terms.items)) }
{
    if are_other(numbers, scope, &body) {
        read_again(alloc, numbers, scope, body)
    } else {
        Ok(body)
    }
}

// ---- the terms of a block

// Returns terms in a scope, of which each method's body is read with the numbers of its scope.
#[cycle(scoped)]
fn scoped_terms(
    alloc: Global,
    numbers: &Numbers<'_>,
    scope: &[u8],
    mut terms: Vec<Term>,
) -> Result<Vec<Term>, AllocError>
    ensures { IfOk result (λ all. AreScoped numbers.now.stated.now (map callee_by numbers.now.objects.now)
        (map callee_by numbers.now.differing.now) numbers.now.own.now scope.now (views terms.items) (views all.items)) }
{
    for term in terms.iter_mut() {
        let old = replace(term, Term::Ones);
        *term = scoped_term(alloc, numbers, scope, old)?;
    }
    Ok(terms)
}

#[cycle(scoped)]
fn scoped_box(
    alloc: Global,
    numbers: &Numbers<'_>,
    scope: &[u8],
    mut term: Box<Term>,
) -> Result<Box<Term>, AllocError>
    ensures { IfOk result (λ new. AreScoped numbers.now.stated.now (map callee_by numbers.now.objects.now)
        (map callee_by numbers.now.differing.now) numbers.now.own.now scope.now (single (view term.value))
        (single (view new.value))) }
{
    let old = replace(&mut *term, Term::Ones);
    *term = scoped_term(alloc, numbers, scope, old)?;
    Ok(term)
}

#[cycle(scoped)]
fn scoped_term(
    alloc: Global,
    numbers: &Numbers<'_>,
    scope: &[u8],
    term: Term,
) -> Result<Term, AllocError>
    ensures { IfOk result (λ new. AreScoped numbers.now.stated.now (map callee_by numbers.now.objects.now)
        (map callee_by numbers.now.differing.now) numbers.now.own.now scope.now (single (view term)) (single (view new))) }
{
    match term {
        Term::Scope { width, name, body } => {
            let inner = path_in(alloc, scope, &name)?;
            let body = scoped_terms(alloc, numbers, &inner, body)?;
            Ok(Term::Scope { width, name, body })
        }
        Term::Device { width, name, body } => {
            let inner = path_in(alloc, scope, &name)?;
            let body = scoped_terms(alloc, numbers, &inner, body)?;
            Ok(Term::Device { width, name, body })
        }
        Term::PowerResource {
            width,
            name,
            level,
            order,
            body,
        } => {
            let inner = path_in(alloc, scope, &name)?;
            let body = scoped_terms(alloc, numbers, &inner, body)?;
            Ok(Term::PowerResource {
                width,
                name,
                level,
                order,
                body,
            })
        }
        Term::Processor {
            width,
            name,
            id,
            address,
            size,
            body,
        } => {
            let inner = path_in(alloc, scope, &name)?;
            let body = scoped_terms(alloc, numbers, &inner, body)?;
            Ok(Term::Processor {
                width,
                name,
                id,
                address,
                size,
                body,
            })
        }
        Term::ThermalZone { width, name, body } => {
            let inner = path_in(alloc, scope, &name)?;
            let body = scoped_terms(alloc, numbers, &inner, body)?;
            Ok(Term::ThermalZone { width, name, body })
        }
        Term::If {
            width,
            predicate,
            body,
        } => {
            let predicate = scoped_box(alloc, numbers, scope, predicate)?;
            let body = scoped_terms(alloc, numbers, scope, body)?;
            Ok(Term::If {
                width,
                predicate,
                body,
            })
        }
        Term::While {
            width,
            predicate,
            body,
        } => {
            let predicate = scoped_box(alloc, numbers, scope, predicate)?;
            let body = scoped_terms(alloc, numbers, scope, body)?;
            Ok(Term::While {
                width,
                predicate,
                body,
            })
        }
        Term::Else { width, body } => {
            let body = scoped_terms(alloc, numbers, scope, body)?;
            Ok(Term::Else { width, body })
        }
        Term::Method {
            width,
            name,
            args,
            serialized,
            body,
        } => {
            let inner = path_in(alloc, scope, &name)?;
            let body = body_in(alloc, numbers, &inner, body)?;
            Ok(Term::Method {
                width,
                name,
                args,
                serialized,
                body,
            })
        }
        Term::LeveledMethod {
            width,
            name,
            args,
            serialized,
            level,
            body,
        } => {
            let inner = path_in(alloc, scope, &name)?;
            let body = body_in(alloc, numbers, &inner, body)?;
            Ok(Term::LeveledMethod {
                width,
                name,
                args,
                serialized,
                level,
                body,
            })
        }
        other => Ok(other),
    }
}

/// Returns the terms of a definition block, of which each method's body is read by the rules of names (ACPI 6.5, 5.3). `own` are
/// the numbers of arguments by which the block was read, and `stated` those of them that a caller states. A call takes as many
/// arguments as the object that its name finds. A segment alone finds the nearest object of this name: in the scope of the call,
/// or in one around it. Other names find the object of this path from the scope. Stated numbers come first, and a name that finds
/// no object is read as before. The objects of further blocks count as those of the block itself.
///
/// A body is read again if it has a name whose number in its scope is another than in `own`, or bytes that aren't read. It stays
/// as it is if its bytes spell no terms with the numbers of its scope.
pub fn in_scopes(
    alloc: Global,
    stated: &Arities,
    further: &[Object],
    own: &Arities,
    terms: Vec<Term>,
) -> Result<Vec<Term>, AllocError>
    ensures { IfOk result (λ all. AreInScopes stated.now (map callee_by further.now) own.now (views terms.items)
        (views all.items)) }
{
    let objects = all_callees(alloc, &terms, further)?;
    if objects.is_empty() {
        return Ok(terms);
    }
    let differing = with_other(alloc, own, &objects)?;
    let numbers = Numbers {
        stated,
        objects: &objects,
        differing: &differing,
        own,
    };
    scoped_terms(alloc, &numbers, &[], terms)
}
