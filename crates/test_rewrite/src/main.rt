//! Reads definition blocks, and writes each term of them anew by the public constructors of the library: once as objects of
//! `acpi_aml` and `acpi_ops`, each over the objects of its children, and once by the calls of a `Block`. Both have to give the
//! bytes of the block. `test_rewrite FILE ..` takes the names of files, each of a DSDT or an SSDT. After the word `descriptors`
//! the block has to be that of `data/descriptors.asl`, which is written by the constructors of descriptors. After the word `asl`
//! the ASL of the block is made into a block, and has to give its bytes.
//!
//! What no constructor writes, such as a number of more bytes than it needs, is taken over as its bytes. A line for each block
//! says how many terms that are, and for which causes, or at which offset the bytes differ. At the end the program prints how
//! often constructors wrote each head. The status is 1 if bytes differ or a constructor returned an error, and otherwise 0.
#![tactic(auto)]

mod asl;
mod block;
mod calls;
mod cause;
mod descriptors;
mod fields;
mod found;
mod names;
mod numbers;
mod objects;
mod operators;
mod spelt;
mod totals;

use crate::asl::compiled;
use crate::block::{describe, rewrite};
use crate::found::Found;
use crate::totals::Totals;
use std::process::ExitCode;
use std::{env, fs, io};

// How a block is written anew.
#[derive(Clone, Copy)]
enum Way {
    Constructors,
    Descriptors,
    Asl,
}

fn main(rt: HostRuntime) -> io::Result<ExitCode> {
    let mut totals = Totals::new(rt.alloc());
    let mut way = Way::Constructors;
    for word in env::args(&rt)?.skip(1) {
        way = match word.as_str() {
            "descriptors" => Way::Descriptors,
            "asl" => Way::Asl,
            name => {
                run_file(&rt, name, way, &mut totals)?;
                Way::Constructors
            }
        };
    }
    totals.print(&mut rt.stdout())?;
    Ok(ExitCode::from(if totals.are_right() { 0 } else { 1 }))
}

// Writes the block in a file anew, and prints what came of it.
fn run_file(rt: &HostRuntime, name: &str, way: Way, totals: &mut Totals) -> io::Result<()> {
    let bytes = fs::read(rt, name)?;
    let mut found = Found::new(rt.alloc());
    let outcome = match way {
        Way::Constructors => rewrite(rt.alloc(), &bytes, &mut found),
        Way::Descriptors => describe(rt.alloc(), &bytes),
        Way::Asl => compiled(rt.alloc(), &bytes),
    };
    totals.add(name, outcome, &found, &mut rt.stdout())
}
