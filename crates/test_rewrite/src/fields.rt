//! Fields of regions.

use crate::names::path_of;
use crate::numbers::{access_type, lock_rule, update_rule};
use crate::objects::UNWRITTEN;
use crate::spelt::{Spelt, made};
use acpi_aml::buffer::BufferData;
use acpi_aml::field::{Field, FieldAccessType, FieldEntry, FieldLockRule, FieldUpdateRule};
use acpi_build::error::BuildError;
use acpi_ops::element::{BankFieldList, FieldElement, FieldList, IndexFieldList};
use acpi_ops::field::{BankField, IndexField};
use acpi_term::name_string::NameString;
use acpi_term::term::TermEntry;
use std::alloc::Global;

/// The access type, the lock rule and the update rule of a field.
pub type Rules = (FieldAccessType, FieldLockRule, FieldUpdateRule);

/// Returns the rules with these numbers.
pub fn rules(numbers: (u8, u8, u8)) -> Result<Rules, BuildError> {
    let (access, lock, update) = numbers;
    match (access_type(access), lock_rule(lock), update_rule(update)) {
        (Some(access), Some(lock), Some(update)) => Ok((access, lock, update)),
        _ => Err(UNWRITTEN),
    }
}

// Returns an entry as constructors take it.
fn entry_of(entry: &TermEntry) -> Option<FieldEntry> {
    match entry {
        TermEntry::Named(name, bits, _) => Some(FieldEntry::Named(*name, *bits as usize)),
        TermEntry::Reserved(bits, _) => Some(FieldEntry::Reserved(*bits as usize)),
        _ => None,
    }
}

/// Returns entries as constructors take them.
pub fn entries_of(alloc: Global, entries: &[TermEntry]) -> Result<Vec<FieldEntry>, BuildError> {
    let mut all = Vec::with_capacity(alloc, entries.len())?;
    for entry in entries {
        let Some(entry) = entry_of(entry) else {
            return Err(UNWRITTEN);
        };
        all.push(entry)?;
    }
    Ok(all)
}

/// Whether all entries are bits, which the constructors of the port take.
pub fn are_bits(entries: &[TermEntry]) -> bool {
    for entry in entries {
        if entry_of(entry).is_none() {
            return false;
        }
    }
    true
}

// Returns an entry as an element.
fn element_of(alloc: Global, entry: &TermEntry) -> Result<FieldElement, BuildError> {
    match entry {
        TermEntry::Named(name, bits, _) => Ok(FieldElement::Named(*name, *bits as usize)),
        TermEntry::Reserved(bits, _) => Ok(FieldElement::Reserved(*bits as usize)),
        TermEntry::AccessAs(access, attribute) => Ok(FieldElement::AccessAs(*access, *attribute)),
        TermEntry::ExtendedAccessAs(access, attribute, size) => {
            Ok(FieldElement::ExtendedAccessAs(*access, *attribute, *size))
        }
        TermEntry::Connection(name) => Ok(FieldElement::Connection(path_of(alloc, name)?)),
        TermEntry::ConnectionBuffer { bytes, .. } => {
            let buffer = BufferData::new(Vec::from_slice(alloc, bytes)?)?;
            Ok(FieldElement::ConnectionBuffer(buffer))
        }
    }
}

/// Returns entries as elements.
pub fn elements_of(alloc: Global, entries: &[TermEntry]) -> Result<Vec<FieldElement>, BuildError> {
    let mut all = Vec::with_capacity(alloc, entries.len())?;
    for entry in entries {
        all.push(element_of(alloc, entry)?)?;
    }
    Ok(all)
}

/// Writes a field.
pub fn field(
    alloc: Global,
    name: &NameString,
    numbers: (u8, u8, u8),
    entries: &[TermEntry],
) -> Result<Spelt, BuildError> {
    let (access, lock, update) = rules(numbers)?;
    let path = path_of(alloc, name)?;
    if are_bits(entries) {
        let entries = entries_of(alloc, entries)?;
        made(alloc, Field::new(path, access, lock, update, entries))
    } else {
        let elements = elements_of(alloc, entries)?;
        made(alloc, FieldList::new(&path, access, lock, update, elements))
    }
}

/// Writes a field of registers that have an index.
pub fn index_field(
    alloc: Global,
    index: &NameString,
    name: &NameString,
    numbers: (u8, u8, u8),
    entries: &[TermEntry],
) -> Result<Spelt, BuildError> {
    let (access, lock, update) = rules(numbers)?;
    let index = path_of(alloc, index)?;
    let name = path_of(alloc, name)?;
    if are_bits(entries) {
        let entries = entries_of(alloc, entries)?;
        made(
            alloc,
            IndexField::new(index, name, access, lock, update, entries),
        )
    } else {
        let elements = elements_of(alloc, entries)?;
        made(
            alloc,
            IndexFieldList::new(&index, &name, access, lock, update, elements),
        )
    }
}

/// Writes a field of a bank.
pub fn bank_field(
    alloc: Global,
    name: &NameString,
    bank: &NameString,
    children: &[Spelt],
    numbers: (u8, u8, u8),
    entries: &[TermEntry],
) -> Result<Spelt, BuildError> {
    let [value] = children else {
        return Err(UNWRITTEN);
    };
    let (access, lock, update) = rules(numbers)?;
    let name = path_of(alloc, name)?;
    let bank = path_of(alloc, bank)?;
    if are_bits(entries) {
        let entries = entries_of(alloc, entries)?;
        made(
            alloc,
            BankField::new(name, bank, value, access, lock, update, entries),
        )
    } else {
        let elements = elements_of(alloc, entries)?;
        made(
            alloc,
            BankFieldList::new(&name, &bank, value, access, lock, update, elements),
        )
    }
}
