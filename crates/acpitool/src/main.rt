//! Shows ACPI tables field by field: `acpitool show FILE ..`.
#![tactic(auto)]

use acpitool_program::program::start;
use std::process::ExitCode;

fn main(rt: HostRuntime) -> ExitCode {
    ExitCode::from(start(&rt, &mut rt.stdout(), &mut rt.stderr()))
}
