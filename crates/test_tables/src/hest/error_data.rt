//! Entries of error status blocks.

use acpi_tables::hest::{ErrorSeverity, GenericErrorData};
use acpi_tables::{Error, R};
use std::alloc::Global;
use std::test::Fail;
use test_support::broken::Broken;
use test_support::{equal, refuses, same};

fn entry(alloc: Global) -> GenericErrorData {
    GenericErrorData::new(alloc, ErrorSeverity::Fatal)
}

fn add_broken(alloc: Global, entry: &mut GenericErrorData) -> R<()> {
    entry.add_data(Box::new(alloc, Broken {})?)
}

// Fails unless an entry without data takes a number of two bytes.
fn takes_a_number(alloc: Global, entry: &mut GenericErrorData) -> Result<(), Fail> {
    entry.add_data(Box::new(alloc, 0x100u16)?)?;
    let wanted = b"\0\0\x01\0\0\0\0\0\0\0\0\0\0\0\0\0\0\0\0\0\0\0\0\0\0\0\0\0\0\0\
            \0\0\0\0\0\0\0\0\0\0\0\0\0\0\0\0\0\0\0\0\0\0\0\0\0\0\0\0\x0b\0\x01";
    let mut bytes = Vec::new(alloc);
    entry.to_aml_bytes(&mut bytes)?;
    same(&bytes, wanted)
}

#[test]
fn error_data(rt: HostRuntime) -> Result<(), Fail> {
    takes_a_number(rt.alloc(), &mut entry(rt.alloc()))
}

// Fails unless an entry has this many bytes of data after one object and after another.
fn counts_its_data(alloc: Global, entry: &mut GenericErrorData) -> Result<(), Fail> {
    equal(&entry.data_size()?, &0)?;
    entry.add_data(Box::new(alloc, 0x0102_0304u32)?)?;
    equal(&entry.data_size()?, &5)?;
    entry.add_data(Box::new(alloc, 0x0102_0304_0506_0708u64)?)?;
    equal(&entry.data_size()?, &14)
}

// Fails unless an entry of these two objects is written with the length of its data.
fn has_its_length(alloc: Global, entry: &GenericErrorData) -> Result<(), Fail> {
    let mut bytes = Vec::new(alloc);
    entry.to_aml_bytes(&mut bytes)?;
    same(bytes.get(10..14).unwrap_or(&[]), b"\x0e\0\0\0")?;
    equal(&bytes.len(), &72)
}

fn has_data_sizes(alloc: Global, entry: &mut GenericErrorData) -> Result<(), Fail> {
    counts_its_data(alloc, entry)?;
    entry.error_data_length = entry.data_size()?;
    has_its_length(alloc, entry)?;
    add_broken(alloc, entry)?;
    refuses(entry.data_size(), Error::Sink(9))
}

// The data of no object, of one and of two, and the errors of counting it.
#[test]
fn data_sizes(rt: HostRuntime) -> Result<(), Fail> {
    has_data_sizes(rt.alloc(), &mut entry(rt.alloc()))
}

#[test]
fn error_data_fields(rt: HostRuntime) -> Result<(), Fail> {
    let alloc = rt.alloc();
    let mut entry = GenericErrorData::new(alloc, ErrorSeverity::None);
    entry.section_type = 0x0102;
    entry.severity = ErrorSeverity::Correctable;
    entry.revision = 0x0304;
    entry.validation = 5;
    entry.flags = 6;
    entry.error_data_length = 0x0708_090a;
    entry.fru_id = *b"\x10\x11\x12\x13\x14\x15\x16\x17\x18\x19\x1a\x1b\x1c\x1d\x1e\x1f";
    entry.fru_text = *b"the unit to replace.";
    entry.timestamp = *b"\x40\x41\x42\x43\x44\x45\x46\x47";
    let mut bytes = Vec::new(alloc);
    entry.to_aml_bytes(&mut bytes)?;
    same(
        &bytes,
        b"\x02\x01\x02\0\0\0\x04\x03\x05\x06\x0a\x09\x08\x07\x10\x11\
            \x12\x13\x14\x15\x16\x17\x18\x19\x1a\x1b\x1c\x1d\x1e\x1fth\
            e unit to replac\
            e.\x40\x41\x42\x43\x44\x45\x46\x47",
    )
}

// Fails unless an entry returns an error after it has written 58 bytes of zeros and then these ones.
fn refuses_after(alloc: Global, entry: &GenericErrorData, data: &[u8]) -> Result<(), Fail> {
    let mut bytes = Vec::new(alloc);
    refuses(entry.to_aml_bytes(&mut bytes), Error::Sink(9))?;
    same(bytes.get(..58).unwrap_or(&[]), &[0; 58])?;
    same(bytes.get(58..).unwrap_or(&[]), data)
}

fn recoverable(alloc: Global) -> GenericErrorData {
    GenericErrorData::new(alloc, ErrorSeverity::Recoverable)
}

// An object that refuses stands between two that don't.
fn refuses_the_second(alloc: Global, entry: &mut GenericErrorData) -> Result<(), Fail> {
    entry.add_data(Box::new(alloc, 7u8)?)?;
    add_broken(alloc, entry)?;
    entry.add_data(Box::new(alloc, 8u8)?)?;
    refuses_after(alloc, entry, &[0x0a, 7, 1, 2, 3, 4])
}

#[test]
fn error_data_refused(rt: HostRuntime) -> Result<(), Fail> {
    refuses_the_second(rt.alloc(), &mut recoverable(rt.alloc()))
}

fn refuses_the_first(alloc: Global, entry: &mut GenericErrorData) -> Result<(), Fail> {
    add_broken(alloc, entry)?;
    refuses_after(alloc, entry, &[1, 2, 3, 4])
}

#[test]
fn error_data_refused_at_once(rt: HostRuntime) -> Result<(), Fail> {
    refuses_the_first(rt.alloc(), &mut recoverable(rt.alloc()))
}
