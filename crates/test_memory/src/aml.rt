//! Objects of AML, each as its bytes.

use crate::trial::Grows;
use acpi_tables::aml::{
    BankField, BankFieldList, BufferData, BufferTerm, Comparison, Device, Else, Fatal, Field,
    FieldAccessType, FieldElement, FieldEntry, FieldList, FieldLockRule, FieldUpdateRule, If,
    IndexField, IndexFieldList, Interrupt, LeveledMethod, Match, MatchTest, Method, MethodCall,
    Name, ONE, OpRegion, OpRegionSpace, Package, PackageBuilder, Path, PowerResource,
    ResourceTemplate, RoomyPackage, Scope, VarPackageTerm, While, ZERO,
};
use acpi_tables::{Aml, R};
use std::alloc::Global;
use test_support::bytes_of;

fn path(alloc: Global) -> R<Path> {
    Path::new(alloc, "\\_SB_.PCI0.COM1")
}

fn name(alloc: Global, child: &u32) -> R<Name> {
    Name::new(path(alloc)?, child)
}

fn raw_scope(alloc: Global) -> R<Vec<u8>> {
    Scope::raw(path(alloc)?, b"0123456789".to_vec(alloc)?)
}

fn region(alloc: Global, child: &u32) -> R<OpRegion> {
    OpRegion::new(path(alloc)?, OpRegionSpace::SystemIO, child, &ZERO)
}

fn field(alloc: Global) -> R<Field> {
    Field::new(
        path(alloc)?,
        FieldAccessType::Byte,
        FieldLockRule::NoLock,
        FieldUpdateRule::Preserve,
        vec![in alloc; FieldEntry::Reserved(32), FieldEntry::Named(*b"READ", 64)]?,
    )
}

pub const NAMED: u8 = 6;

/// Objects with a name and without children.
pub fn named(alloc: Global, child: &u32, which: u8) -> R<Vec<u8>> {
    match which {
        0 => bytes_of(alloc, path(alloc)),
        1 => bytes_of(alloc, Name::new_field_name(alloc, "FLD0")),
        2 => bytes_of(alloc, name(alloc, child)),
        3 => raw_scope(alloc),
        4 => bytes_of(alloc, region(alloc, child)),
        _ => bytes_of(alloc, field(alloc)),
    }
}

pub const NAMED_FRAMED: u8 = 5;

/// Objects with a name and children.
pub fn named_framed(alloc: Global, child: &u32, which: u8) -> R<Vec<u8>> {
    let path = path(alloc)?;
    let children = vec![in alloc; child as &dyn Aml, &ONE]?;
    match which {
        0 => bytes_of(alloc, PowerResource::new(path, 1, 2, children)),
        1 => bytes_of(alloc, Method::new(path, 7, true, children)),
        2 => bytes_of(alloc, MethodCall::new(path, children)),
        3 => bytes_of(alloc, Scope::new(path, children)),
        _ => bytes_of(alloc, Device::new(path, children)),
    }
}

pub const FRAMED: u8 = 4;

/// Objects with children and without a name.
pub fn framed(alloc: Global, child: &u32, which: u8) -> R<Vec<u8>> {
    let children = vec![in alloc; child as &dyn Aml, &ONE]?;
    match which {
        0 => bytes_of(alloc, If::new(child, children)),
        1 => bytes_of(alloc, Else::new(children)),
        2 => bytes_of(alloc, Package::new(children)),
        _ => bytes_of(alloc, While::new(child, children)),
    }
}

fn resources(alloc: Global) -> R<ResourceTemplate> {
    let interrupt = Interrupt::new(true, true, false, false, 4);
    ResourceTemplate::new(vec![in alloc; &interrupt as &dyn Aml]?)
}

pub const STANDARD: u8 = 11;

fn search(alloc: Global, child: &u32) -> R<Match> {
    let test = MatchTest::new(alloc, Comparison::Equal, child)?;
    Match::new(alloc, child, &test, &test, &ZERO)
}

/// What the language `Standard` alone has.
pub fn standard(alloc: Global, child: &u32, which: u8) -> R<Vec<u8>> {
    match which {
        0 => bytes_of(alloc, MatchTest::new(alloc, Comparison::Equal, child)),
        1 => bytes_of(alloc, search(alloc, child)),
        2 => bytes_of(alloc, Fatal::new(alloc, 1, 2, child)),
        3 => bytes_of(alloc, index_field(alloc)),
        4 => bytes_of(alloc, bank_field(alloc, child)),
        5 => bytes_of(alloc, Path::name_string(alloc, "^^PCI0.COM1")),
        6 => bytes_of(
            alloc,
            RoomyPackage::new(9, vec![in alloc; child as &dyn Aml, &ONE]?),
        ),
        7 => bytes_of(alloc, leveled_method(alloc, child)),
        8 => bytes_of(alloc, field_list(alloc)),
        9 => bytes_of(alloc, index_field_list(alloc)),
        _ => bytes_of(alloc, bank_field_list(alloc, child)),
    }
}

fn index_field(alloc: Global) -> R<IndexField> {
    IndexField::new(
        path(alloc)?,
        path(alloc)?,
        FieldAccessType::Byte,
        FieldLockRule::NoLock,
        FieldUpdateRule::Preserve,
        vec![in alloc; FieldEntry::Reserved(32), FieldEntry::Named(*b"READ", 64)]?,
    )
}

fn bank_field(alloc: Global, child: &u32) -> R<BankField> {
    BankField::new(
        path(alloc)?,
        path(alloc)?,
        child,
        FieldAccessType::Byte,
        FieldLockRule::NoLock,
        FieldUpdateRule::Preserve,
        vec![in alloc; FieldEntry::Reserved(32), FieldEntry::Named(*b"READ", 64)]?,
    )
}

fn leveled_method(alloc: Global, child: &u32) -> R<LeveledMethod> {
    let body = vec![in alloc; child as &dyn Aml, &ONE]?;
    LeveledMethod::new(path(alloc)?, 7, true, 15, body)
}

// One element of each kind.
fn elements(alloc: Global) -> R<Vec<FieldElement>> {
    let mut elements = Vec::new(alloc);
    elements.push(FieldElement::Named(*b"READ", 64))?;
    elements.push(FieldElement::Reserved(32))?;
    elements.push(FieldElement::AccessAs(1, 2))?;
    elements.push(FieldElement::ExtendedAccessAs(5, 11, 16))?;
    elements.push(FieldElement::Connection(path(alloc)?))?;
    elements.push(FieldElement::ConnectionBuffer(buffer(alloc)?))?;
    Ok(elements)
}

fn field_list(alloc: Global) -> R<FieldList> {
    FieldList::new(
        &path(alloc)?,
        FieldAccessType::Byte,
        FieldLockRule::NoLock,
        FieldUpdateRule::Preserve,
        elements(alloc)?,
    )
}

fn index_field_list(alloc: Global) -> R<IndexFieldList> {
    let path = path(alloc)?;
    IndexFieldList::new(
        &path,
        &path,
        FieldAccessType::Byte,
        FieldLockRule::NoLock,
        FieldUpdateRule::Preserve,
        elements(alloc)?,
    )
}

fn bank_field_list(alloc: Global, child: &u32) -> R<BankFieldList> {
    let path = path(alloc)?;
    BankFieldList::new(
        &path,
        &path,
        child,
        FieldAccessType::Byte,
        FieldLockRule::NoLock,
        FieldUpdateRule::Preserve,
        elements(alloc)?,
    )
}

pub const DATA: u8 = 4;

fn buffer(alloc: Global) -> R<BufferData> {
    BufferData::new(b"0123456789".to_vec(alloc)?)
}

/// Data.
pub fn data(alloc: Global, child: &u32, which: u8) -> R<Vec<u8>> {
    match which {
        0 => bytes_of(alloc, BufferTerm::new(alloc, child)),
        1 => bytes_of(alloc, buffer(alloc)),
        2 => bytes_of(alloc, resources(alloc)),
        _ => bytes_of(alloc, VarPackageTerm::new(alloc, child)),
    }
}

impl Grows for PackageBuilder {
    const WAYS: u8 = 1;

    fn empty(alloc: Global) -> R<PackageBuilder> {
        Ok(PackageBuilder::new(alloc))
    }

    fn grow(&mut self, _alloc: Global, _way: u8) -> R<()> {
        self.add_element(&0x0102_0304u32)
    }
}
