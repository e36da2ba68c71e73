//! Aliases of objects (ACPI 6.5, 19.6.4): a call may name a method by its alias.

ghost use Rattle.std.specs.Prelude.{◌≡◌, ◌++◌, OnOk, IfOk, [], ◌∷◌, map};
ghost use Rattle.acpi_term.specs.View.{head_of, view, views, single};
ghost use Rattle.acpi_terms_text.specs.Objects.{callee_by, alias, alias_by, alias_of, own_aliases, aliases};
ghost use Rattle.acpi_terms_text.specs.Objects.{levels, args_near, with_alias, with_aliases};

use crate::objects::{Kept, Object, args_at, inner_scope, inside, name_at, push_object};
use crate::path::parent;
use acpi_term::apart::{Kind, parts_of};
use acpi_term::name_string::{NameString, name_of};
use acpi_term::op::Op;
use acpi_term::term::Term;
use std::alloc::{AllocError, Global};

/// An alias: the scope of its term, the name of its object, and its own name.
#[derive(Debug, Drop)]
pub(crate) struct Alias {
    scope: Vec<u8>,
    source: NameString,
    name: NameString,
}

// Adds an alias.
fn push_alias(
    alloc: Global,
    scope: &[u8],
    source: &NameString,
    name: &NameString,
    all: &mut Vec<Alias>,
) -> Result<(), AllocError>
    ensures { OnOk result (map alias_by all.new.items ≡ map alias_by all.old.items
        ++ alias scope.now source.now name.now ∷ []) }
{
    let scope = Vec::from_slice(alloc, scope)?;
    let source = name_of(alloc, source.as_bytes())?;
    let name = name_of(alloc, name.as_bytes())?;
    all.push(Alias {
        scope,
        source,
        name,
    })?;
    Ok(())
}

// Adds that of an operator with these operands.
fn push_of(
    alloc: Global,
    scope: &[u8],
    op: Op,
    first: &[Term],
    others: &[Term],
    all: &mut Vec<Alias>,
) -> Result<(), AllocError>
    ensures { OnOk result (map alias_by all.new.items ≡ map alias_by all.old.items
        ++ alias_of scope.now op (views (first.now ++ others.now))) }
{
    if !matches!(op, Op::Alias) {
        return Ok(());
    }
    let Some(source) = name_at(0, first, others) else {
        return Ok(());
    };
    let Some(name) = name_at(1, first, others) else {
        return Ok(());
    };
    push_alias(alloc, scope, source, name, all)
}

// Adds that of a term with these children.
fn push_own(
    alloc: Global,
    scope: &[u8],
    kind: Kind<'_>,
    first: &[Term],
    others: &[Term],
    all: &mut Vec<Alias>,
) -> Result<(), AllocError>
    ensures { OnOk result (map alias_by all.new.items ≡ map alias_by all.old.items
        ++ own_aliases scope.now (head_of kind.entry) (views (first.now ++ others.now))) }
{
    match kind {
        Kind::Op(op) => push_of(alloc, scope, op, first, others, all),
        _ => Ok(()),
    }
}

// Adds the aliases in terms.
#[cycle(aliases)]
fn push_terms(
    alloc: Global,
    scope: &[u8],
    terms: &[Term],
    all: &mut Vec<Alias>,
) -> Result<(), AllocError>
    ensures { OnOk result (map alias_by all.new.items ≡ map alias_by all.old.items
        ++ aliases scope.now (views terms.now)) }
{
    for term in terms {
        push_term(alloc, scope, term, all)?;
    }
    Ok(())
}

#[cycle(aliases)]
fn push_term(
    alloc: Global,
    scope: &[u8],
    term: &Term,
    all: &mut Vec<Alias>,
) -> Result<(), AllocError>
    ensures { OnOk result (map alias_by all.new.items ≡ map alias_by all.old.items
        ++ aliases scope.now (single (view term.now))) }
{
    let parts = parts_of(term);
    push_own(alloc, scope, parts.kind, parts.first, parts.others, all)?;
    if parts.first.is_empty() && parts.others.is_empty() {
        return Ok(());
    }
    let own = inside(alloc, scope, parts.kind)?;
    let inner = inner_scope(scope, &own);
    push_terms(alloc, inner, parts.first, all)?;
    push_terms(alloc, inner, parts.others, all)?;
    Ok(())
}

/// Returns the aliases in the terms of a block, in the order of the bytes.
pub(crate) fn aliases_in(alloc: Global, terms: &[Term]) -> Result<Vec<Alias>, AllocError>
    ensures { IfOk result (λ all. map alias_by all.items ≡ aliases [] (views terms.now)) }
{
    let mut all = Vec::new(alloc);
    push_terms(alloc, &[], terms, &mut all)?;
    Ok(all)
}

// ---- the objects that aliases make

// Returns in how many scopes around its own the object of a name is looked for: in all of them, if the name is a segment alone
// (ACPI 6.5, 5.3).
fn levels(scope: &[u8], name: &[u8]) -> usize
    ensures { result ≡ levels scope.now name.now }
{
    if name.len() == 4 { scope.len() / 4 } else { 0 }
}

// Returns the number of arguments of the first object that has a name in a scope, or else in one of the `levels` scopes around
// it.
#[cycle(near)]
fn args_near(levels: usize, scope: &[u8], name: &[u8], objects: &[Object]) -> Option<u8>
    ensures { result ≡ args_near levels scope.now name.now (map callee_by objects.now) }
{
    let here = args_at(scope, name, objects);
    if levels == 0 || here.is_some() {
        return here;
    }
    args_near(levels - 1, parent(scope), name, objects)
}

// Adds the object that an alias makes. It takes as many arguments as the object of the alias.
fn add_alias(alloc: Global, alias: &Alias, all: &mut Vec<Object>) -> Result<(), AllocError>
    ensures { OnOk result (map callee_by all.new.items ≡ with_alias (map callee_by all.old.items) (alias_by alias.now)) }
{
    let source = alias.source.as_bytes();
    let args = match args_near(levels(&alias.scope, source), &alias.scope, source, all) {
        Some(args) => args,
        None => 0,
    };
    push_object(alloc, Kept::All, &alias.scope, &alias.name, args, all)
}

/// Adds the objects that aliases make, each after those before it.
pub(crate) fn add_aliases(
    alloc: Global,
    aliases: &[Alias],
    all: &mut Vec<Object>,
) -> Result<(), AllocError>
    ensures { OnOk result (map callee_by all.new.items
        ≡ with_aliases (map callee_by all.old.items) (map alias_by aliases.now)) }
{
    'aliases: for alias in aliases {
        add_alias(alloc, alias, all)?;
    }
    Ok(())
}
