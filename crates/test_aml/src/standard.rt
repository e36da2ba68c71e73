//! Searches, fatal errors, and fields that are reached by another field. The bytes are those of `iasl`, but for sizes at limits.

use acpi_tables::aml::{
    Arg, BankField, Comparison, Fatal, FieldAccessType, FieldEntry, FieldLockRule, FieldUpdateRule,
    IndexField, Local, Match, MatchTest, ONE, Path, ZERO,
};
use acpi_tables::{Aml, Error, R};
use std::alloc::Global;
use std::test::Fail;
use test_support::{makes, refuses, sized};

#[test]
fn searches(rt: HostRuntime) -> Result<(), Fail> {
    let alloc = rt.alloc();
    let name = Path::new(alloc, "PKGX")?;
    let equal = MatchTest::new(alloc, Comparison::Equal, &Arg(0))?;
    let always = MatchTest::new(alloc, Comparison::Always, &ZERO)?;
    makes(
        alloc,
        Match::new(alloc, &name, &equal, &always, &ZERO),
        b"\x89PKGX\x01\x68\x00\x00\x00",
    )?;
    let at_least = MatchTest::new(alloc, Comparison::GreaterOrEqual, &5u8)?;
    let less = MatchTest::new(alloc, Comparison::Less, &Local(1))?;
    makes(
        alloc,
        Match::new(alloc, &Arg(1), &at_least, &less, &ONE),
        &[0x89, 0x69, 0x04, 0x0a, 0x05, 0x03, 0x61, 0x01],
    )?;
    let at_most = MatchTest::new(alloc, Comparison::LessOrEqual, &5u8)?;
    let greater = MatchTest::new(alloc, Comparison::Greater, &Local(1))?;
    makes(
        alloc,
        Match::new(alloc, &Arg(1), &at_most, &greater, &ZERO),
        &[0x89, 0x69, 0x02, 0x0a, 0x05, 0x05, 0x61, 0x00],
    )
}

#[test]
fn errors_of_searches(rt: HostRuntime) -> Result<(), Fail> {
    let alloc = rt.alloc();
    refuses(
        MatchTest::new(alloc, Comparison::Equal, &Arg(7)),
        Error::ArgNumber,
    )?;
    let test = MatchTest::new(alloc, Comparison::Equal, &ONE)?;
    refuses(
        Match::new(alloc, &Arg(7), &test, &test, &Local(8)),
        Error::ArgNumber,
    )?;
    refuses(
        Match::new(alloc, &ONE, &test, &test, &Local(8)),
        Error::LocalNumber,
    )
}

#[test]
fn fatal_errors(rt: HostRuntime) -> Result<(), Fail> {
    let alloc = rt.alloc();
    makes(
        alloc,
        Fatal::new(alloc, 0x12, 0x1234_5678, &Arg(0)),
        &[0x5b, 0x32, 0x12, 0x78, 0x56, 0x34, 0x12, 0x68],
    )?;
    makes(
        alloc,
        Fatal::new(alloc, 0xff, u32::MAX, &ZERO),
        &[0x5b, 0x32, 0xff, 0xff, 0xff, 0xff, 0xff, 0x00],
    )?;
    refuses(Fatal::new(alloc, 0, 0, &Arg(7)), Error::ArgNumber)
}

// An access type and the two rules.
type Kind = (FieldAccessType, FieldLockRule, FieldUpdateRule);

const BYTES: Kind = (
    FieldAccessType::Byte,
    FieldLockRule::NoLock,
    FieldUpdateRule::Preserve,
);

fn index_field(alloc: Global, kind: Kind, entries: &[FieldEntry]) -> R<IndexField> {
    let index = Path::new(alloc, "INDX")?;
    let data = Path::new(alloc, "DATA")?;
    let entries = Vec::from_slice(alloc, entries)?;
    IndexField::new(index, data, kind.0, kind.1, kind.2, entries)
}

#[test]
fn index_fields(rt: HostRuntime) -> Result<(), Fail> {
    let alloc = rt.alloc();
    let entries = [
        FieldEntry::Named(*b"AAAA", 8),
        FieldEntry::Reserved(24),
        FieldEntry::Named(*b"BBBB", 3),
    ];
    makes(
        alloc,
        index_field(alloc, BYTES, &entries),
        b"\x5b\x86\x16INDXDATA\x01AAAA\x08\x00\x18BBBB\x03",
    )?;
    let kind = (
        FieldAccessType::Word,
        FieldLockRule::Lock,
        FieldUpdateRule::WriteAsZeroes,
    );
    makes(
        alloc,
        index_field(alloc, kind, &[FieldEntry::Named(*b"XXXX", 1)]),
        b"\x5b\x86\x0fINDXDATA\x52XXXX\x01",
    )?;
    refuses(
        index_field(alloc, BYTES, &[FieldEntry::Reserved(0x1000_0000)]),
        Error::PkgLength,
    )
}

fn bank_field(alloc: Global, value: &dyn Aml, kind: Kind, entries: &[FieldEntry]) -> R<BankField> {
    let region = Path::new(alloc, "REGS")?;
    let bank = Path::new(alloc, "BANK")?;
    let entries = Vec::from_slice(alloc, entries)?;
    BankField::new(region, bank, value, kind.0, kind.1, kind.2, entries)
}

#[test]
fn bank_fields(rt: HostRuntime) -> Result<(), Fail> {
    let alloc = rt.alloc();
    let kind = (
        FieldAccessType::DWord,
        FieldLockRule::Lock,
        FieldUpdateRule::WriteAsOnes,
    );
    let entries = [
        FieldEntry::Named(*b"CCCC", 16),
        FieldEntry::Reserved(16),
        FieldEntry::Named(*b"DDDD", 1),
    ];
    makes(
        alloc,
        bank_field(alloc, &3u8, kind, &entries),
        b"\x5b\x87\x18REGSBANK\x0a\x03\x33CCCC\x10\x00\x10DDDD\x01",
    )?;
    let kind = (
        FieldAccessType::Any,
        FieldLockRule::NoLock,
        FieldUpdateRule::Preserve,
    );
    makes(
        alloc,
        bank_field(alloc, &0x1234u16, kind, &[FieldEntry::Named(*b"EEEE", 48)]),
        b"\x5b\x87\x12REGSBANK\x0b\x34\x12\x00EEEE\x30",
    )?;
    // The error of an entry comes before that of the value.
    refuses(
        bank_field(alloc, &Arg(7), kind, &[FieldEntry::Reserved(0x1000_0000)]),
        Error::PkgLength,
    )?;
    refuses(bank_field(alloc, &Arg(7), kind, &[]), Error::ArgNumber)
}

// Fails unless a field with this many entries of two bytes has this size. The content is the entries and nine bytes.
fn is_sized(alloc: Global, entries: usize, size: usize) -> Result<(), Fail> {
    let mut list = Vec::new(alloc);
    for _ in 0..entries {
        list.push(FieldEntry::Reserved(1))?;
    }
    let field = index_field(alloc, BYTES, &list)?;
    sized(alloc, &field, size)
}

#[test]
fn lengths_of_fields(rt: HostRuntime) -> Result<(), Fail> {
    let alloc = rt.alloc();
    // 61 bytes of content have a PkgLength of one byte, and 63 one of two (ACPI 6.5, 20.2.4).
    is_sized(alloc, 26, 64)?;
    is_sized(alloc, 27, 67)
}
