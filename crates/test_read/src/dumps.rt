//! Dumps without a title, and the texts of their faults. `acpitool` reads no text as a dump that doesn't begin with a title, so
//! it can't show these. All other dumps are in `cases/dumps.cases`.

use acpi_dump::{DumpFault, tables_of};
use std::test::Fail;
use test_support::{agree, equal};

#[test]
fn blank(rt: HostRuntime) -> Result<(), Fail> {
    for text in [&b""[..], b"\n\r\n   \n"] {
        equal(&tables_of(rt.alloc(), text)?.len(), &0)?;
    }
    Ok(())
}

// Bytes come before any title.
#[test]
fn untitled(rt: HostRuntime) -> Result<(), Fail> {
    let fault = tables_of(rt.alloc(), b"\n    0000: 00 01\nA @ 0x1\n").err();
    equal(&fault, &Some(DumpFault::Untitled(2)))
}

#[test]
fn faults(rt: HostRuntime) -> Result<(), Fail> {
    for (fault, line) in [
        (
            DumpFault::Untitled(2),
            "line 2: expected a title before the first bytes",
        ),
        (DumpFault::Memory, "out of memory"),
    ] {
        agree(&format!(in rt.alloc(); "{fault}")?, line)?;
    }
    Ok(())
}
