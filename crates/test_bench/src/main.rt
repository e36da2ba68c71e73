//! Builds and reads large tables, for a profiler that counts instructions. `test_bench WORKLOAD=N ..` runs each workload once, at
//! size N, and prints how much was made.
//!
//! - `xsdt`, `mcfg`, `madt`, `srat`, `cedt`, `hest`, `rqsc`, `rimt`, `rhct`, `viot`: a table of N structures, written to a
//!   vector.
//! - `pptt`: such a table of N processors with a cache each.
//! - `slit`, `hmat`: a table whose matrix has N rows of N cells, written to a vector.
//! - `aml`, `dsdt`: N devices as bytes of AML; as a definition block.
//! - `terms`, `report`: the terms of N devices; and their text.
//! - `table`: the report of the table of `madt`.
//! - `show`, `make`: the text of the table of `madt` by its form; and the table that is made of this text.
//! - `flat`, `deep`: the text of N terms at depth 1; at depth 250.
//!
//! The exit status is 1 if a call failed. It is 2 if a word is wrong, and a line on standard error says which.
#![tactic(auto)]

mod blocks;
mod fault;
mod growing;
mod lists;
mod matrices;
mod nodes;
mod reading;
mod workload;

use crate::fault::Fault;
use crate::workload::made;
use std::process::ExitCode;
use std::rt::Env;
use std::{env, io};

fn main(rt: HostRuntime) -> io::Result<ExitCode> {
    match run(&rt) {
        Ok(()) => Ok(ExitCode::SUCCESS),
        Err(fault) => {
            let status = fault.status();
            eprintln!(rt; "{fault}")?;
            Ok(ExitCode::from(status))
        }
    }
}

// Runs the workload of each word, and prints a line for it.
fn run(rt: &(impl Env + Print + AllocGlobal)) -> Result<(), Fault> {
    for word in env::args(rt)?.skip(1) {
        let Some((name, Ok(size))) = word
            .split_once('=')
            .map(|(name, size)| (name, size.parse()))
        else {
            return Err(Fault::Word(word));
        };
        let Some((count, unit)) = made(rt.alloc(), name, size)? else {
            return Err(Fault::Word(word));
        };
        println!(rt; "{word}: {count} {unit}")?;
    }
    Ok(())
}
