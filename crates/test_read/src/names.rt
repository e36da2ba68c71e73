//! Names, numbers of arguments and lengths.

use crate::terms::stated;
use acpi_base::error::Error;
use acpi_term::name_string::NameString;
use acpi_term::path_text::path_bytes;
use acpi_term::read_error::ReadError;
use acpi_term::row::{field_length, frame_length};
use std::test::Fail;
use test_support::{equal, refuses, same};

#[test]
fn most_segments(rt: HostRuntime) -> Result<(), Fail> {
    let text = ["ABCD"; 255].join(rt.alloc(), ".")?;
    let name = NameString::new(rt.alloc(), &text)?;
    equal(&name.as_bytes().starts_with(b"\x2f\xffABCD"), &true)?;
    equal(&name.as_bytes().len(), &1022)
}

#[test]
fn too_many_segments(rt: HostRuntime) -> Result<(), Fail> {
    let text = ["ABCD"; 256].join(rt.alloc(), ".")?;
    let error = NameString::new(rt.alloc(), &text).err();
    equal(&error, &Some(ReadError::NameText))?;
    refuses(path_bytes(rt.alloc(), &text), Error::PathParts)
}

#[test]
fn characters(rt: HostRuntime) -> Result<(), Fail> {
    for text in ["AZ_9", "ZA0_", "_9Z0"] {
        let name = NameString::new(rt.alloc(), text)?;
        same(name.as_bytes(), text.as_bytes())?;
    }
    Ok(())
}

// The characters just outside of those that a name may have, and parts without four characters.
#[test]
fn characters_of_no_name(rt: HostRuntime) -> Result<(), Fail> {
    for text in [
        "@BCD",
        "[BCD",
        "^BCD",
        "`BCD",
        "0BCD",
        "9BCD",
        "A/CD",
        "AB:D",
        "ABC@",
        "A[CD",
        "AB^D",
        "ABC`",
        "AB.D",
        "ABCD.AB.D",
    ] {
        let error = NameString::new(rt.alloc(), text).err();
        equal(&error, &Some(ReadError::NameText))?;
    }
    Ok(())
}

// The parts of a path have four bytes, which needn't be those of names.
#[test]
fn paths(rt: HostRuntime) -> Result<(), Fail> {
    for text in ["", "ABC", ".ABC", "ABC."] {
        refuses(path_bytes(rt.alloc(), text), Error::NamePart)?;
    }
    same(&path_bytes(rt.alloc(), "abcd")?, b"abcd")
}

// More than seven arguments.
#[test]
fn arguments(rt: HostRuntime) -> Result<(), Fail> {
    equal(&stated(rt.alloc(), 8).err(), &Some(ReadError::Arity))
}

#[test]
fn lengths(_: HostRuntime) -> Result<(), Fail> {
    equal(&field_length(0xf_fffc)?, &([0x8c, 0xff, 0xff, 0], 3))?;
    equal(&field_length(0xf_fffd)?, &([0xcd, 0xff, 0xff, 0x00], 4))?;
    equal(&frame_length(0x123_4563)?, &([0xc7, 0x56, 0x34, 0x12], 4))?;
    equal(&frame_length(0xfff_fffb)?, &([0xcf, 0xff, 0xff, 0xff], 4))?;
    refuses(frame_length(0xfff_fffc), Error::PkgLength)
}
