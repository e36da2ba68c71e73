//! Reads ACPI tables and AML: `acpiread table FILE`, `acpiread aml FILE [NAME=N ..]` and `acpiread dsdt FILE [NAME=N ..]`.
#![tactic(auto)]

use acpiread_program::program::start;
use std::process::ExitCode;

fn main(rt: HostRuntime) -> ExitCode {
    ExitCode::from(start(&rt, &mut rt.stdout(), &mut rt.stderr()))
}
