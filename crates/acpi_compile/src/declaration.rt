//! Declarations and statements with no terms inside, and the fields of regions.

use crate::argument::{byte_at, keyword_at, name_at, word_at, wrong};
use crate::entry::{Entries, read_entries};
use crate::fault::AslError;
use crate::node::{Node, list_of};
use crate::sized::{Sized, frame, plus};
use acpi_asl::word::Keyword;
use acpi_term::term::{FieldNames, Term};
use std::alloc::Global;

/// An object of another block.
pub fn external(alloc: Global, node: &Node<'_>) -> Result<Sized, AslError> {
    let (name, kind, args) = match list_of(&node.arguments) {
        [name, kind] => (name, kind, 0),
        [name, kind, _] => (name, kind, 0),
        [name, kind, _, types] => (name, kind, list_of(&types.body).len()),
        _ => return Err(wrong(node)),
    };
    let Ok(args) = u8::try_from(args) else {
        return Err(wrong(node));
    };
    let kind = keyword_at(Keyword::ObjectType, kind)?;
    let name = name_at(alloc, name)?;
    let size = plus(&name, 3);
    Ok(Sized {
        term: Term::External { name, kind, args },
        size,
    })
}

/// The term of a Mutex: its name and its sync level (ACPI 6.5, 19.6.88).
pub fn mutex(alloc: Global, node: &Node<'_>) -> Result<Sized, AslError> {
    let [name, level] = list_of(&node.arguments) else {
        return Err(wrong(node));
    };
    let level = byte_at(level)?;
    let name = name_at(alloc, name)?;
    let size = plus(&name, 3);
    Ok(Sized {
        term: Term::Mutex { name, level },
        size,
    })
}

/// The term of an Acquire of a name, with the timeout in milliseconds (ACPI 6.5, 19.6.2).
pub fn acquire(alloc: Global, node: &Node<'_>) -> Result<Sized, AslError> {
    let [name, timeout] = list_of(&node.arguments) else {
        return Err(wrong(node));
    };
    let timeout = word_at(timeout)?;
    let name = name_at(alloc, name)?;
    let size = plus(&name, 4);
    Ok(Sized {
        term: Term::Acquire { name, timeout },
        size,
    })
}

/// The term of a Release of a name (ACPI 6.5, 19.6.115).
pub fn release(alloc: Global, node: &Node<'_>) -> Result<Sized, AslError> {
    let [name] = list_of(&node.arguments) else {
        return Err(wrong(node));
    };
    let name = name_at(alloc, name)?;
    let size = plus(&name, 2);
    Ok(Sized {
        term: Term::Release { name },
        size,
    })
}

/// How a field is accessed.
#[derive(Clone, Copy)]
pub struct Rules {
    pub access: u8,
    pub lock: u8,
    pub update: u8,
}

/// The rules of three keywords.
pub fn rules_at(access: &Node<'_>, lock: &Node<'_>, update: &Node<'_>) -> Result<Rules, AslError> {
    Ok(Rules {
        access: keyword_at(Keyword::AccessType, access)?,
        lock: keyword_at(Keyword::LockRule, lock)?,
        update: keyword_at(Keyword::UpdateRule, update)?,
    })
}

/// The fields of a region.
pub fn field(alloc: Global, node: &Node<'_>) -> Result<Sized, AslError> {
    let [name, access, lock, update] = list_of(&node.arguments) else {
        return Err(wrong(node));
    };
    let Rules {
        access,
        lock,
        update,
    } = rules_at(access, lock, update)?;
    let name = name_at(alloc, name)?;
    let Entries { entries, size, .. } = read_entries(alloc, list_of(&node.body))?;
    let (width, size) = frame(node, 2, plus(&name, 1).saturating_add(size))?;
    Ok(Sized {
        term: Term::Field {
            width,
            name,
            access,
            lock,
            update,
            entries,
        },
        size,
    })
}

/// The fields of a register, by its index.
pub fn index_field(alloc: Global, node: &Node<'_>) -> Result<Sized, AslError> {
    let [index, name, access, lock, update] = list_of(&node.arguments) else {
        return Err(wrong(node));
    };
    let Rules {
        access,
        lock,
        update,
    } = rules_at(access, lock, update)?;
    let index = name_at(alloc, index)?;
    let name = name_at(alloc, name)?;
    let Entries { entries, size, .. } = read_entries(alloc, list_of(&node.body))?;
    let names = plus(&index, plus(&name, 1));
    let (width, size) = frame(node, 2, names.saturating_add(size))?;
    Ok(Sized {
        term: Term::IndexField {
            width,
            access,
            lock,
            update,
            names: Box::new(
                alloc,
                FieldNames {
                    name,
                    selector: index,
                },
            )?,
            entries,
        },
        size,
    })
}
