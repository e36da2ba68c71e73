//! What a virtual machine monitor does: it builds the tables of a machine, lays them at their addresses and writes them to
//! files. `acpi_example FOLDER BASE` writes each table to a file of the folder, and the image of all tables to `image`. The
//! image is for the physical address BASE, a multiple of 64 in hexadecimal, and it is checked before it is written. The two
//! pages for errors are in the 0x111000 bytes from BASE on. The program prints BASE and the RSDP's address. With `arm` before
//! the folder the machine is an Arm one, without such pages. Status 0: every file was written. 1: a call was refused, and a
//! line on standard error says which. 2: the words are wrong.
#![tactic(auto)]

ghost use Rattle.std.specs.Prelude.{◌≡◌, ◌%◌, ◌+◌, ◌≤◌, ◌^◌, IfOk};

mod arm;
mod domains;
mod failure;
mod hardware;
mod image;
mod machine;
mod namespace;
mod oem;
mod platform;
mod table;
mod topology;

use crate::arm::namespace::namespace_block as arm_namespace_block;
use crate::arm::{platform as arm_platform, reduced_image};
use crate::domains::{attributes, distances};
use crate::failure::Failure;
use crate::hardware::{boot_errors, error_sources, fixed_hardware};
use crate::image::image;
use crate::machine::{BYTES_FROM_BASE, PROCESSORS};
use crate::namespace::namespace_block;
use crate::platform::{affinities, configuration_space, interrupt_controllers};
use crate::table::package_block;
use crate::topology::topology;
use acpi_build::error::BuildError;
use acpi_tables::layout::{Image, check_image};
use acpi_tables::sdt::Sdt;
use acpi_tables::{Aml, R};
use std::alloc::Global;
use std::io::Print;
use std::process::ExitCode;
use std::rt::{Env, Files};
use std::{env, fs, io};

fn main(rt: HostRuntime) -> io::Result<ExitCode> {
    match run(&rt) {
        Ok(()) => Ok(ExitCode::SUCCESS),
        Err(failure) => {
            let status = failure.status();
            eprintln!(rt; "{failure}")?;
            Ok(ExitCode::from(status))
        }
    }
}

// A machine that the tables describe.
#[derive(Clone, Copy)]
enum Target {
    Q35,
    Virt,
}

// What the words ask for.
#[derive(Drop)]
struct Wanted {
    target: Target,
    folder: String,
    base: u64,
}

// Writes every file, and prints the addresses.
fn run(rt: &(impl Env + Files + Print + AllocGlobal)) -> Result<(), Failure> {
    let alloc = rt.alloc();
    let wanted = arguments(rt)?;
    let folder = existing(rt, wanted.folder)?;
    let folder = folder.as_str();
    let base = wanted.base;
    match wanted.target {
        Target::Q35 => {
            save_machine(rt, alloc, folder)?;
            save_memory(rt, alloc, folder)?;
            save_errors(rt, alloc, folder, base)?;
            save_image(rt, alloc, folder, base, image(alloc, base))
        }
        Target::Virt => {
            save_arm_machine(rt, alloc, folder)?;
            save_arm_devices(rt, alloc, folder)?;
            save_image(rt, alloc, folder, base, reduced_image(alloc, base))
        }
    }
}

// The machine, the folder and the base.
fn arguments(rt: &(impl Env + AllocGlobal)) -> Result<Wanted, Failure>
    ensures unit { IfOk result (λ wanted. wanted.base % 64 ≡ 0) }
    ensures room { IfOk result (λ wanted. wanted.base + BYTES_FROM_BASE ≤ 2 ^ 64) }
{
    let words = env::args(rt).map_err(|error| Failure::System {
        what: "arguments",
        error,
    })?;
    let mut words = words.skip(1);
    let (target, folder) = match words.next() {
        Some(word) if word.as_str() == "arm" => (Target::Virt, words.next()),
        word => (Target::Q35, word),
    };
    let (Some(folder), Some(base), None) = (folder, words.next(), words.next()) else {
        return Err(Failure::Usage);
    };
    match u64::from_str_radix(base.trim_start_matches("0x"), 16) {
        Ok(base) if base % 64 == 0 => {
            if u64::MAX - base < BYTES_FROM_BASE - 1 {
                return Err(Failure::Base(base));
            }
            Ok(Wanted {
                target,
                folder,
                base,
            })
        }
        _ => Err(Failure::Usage),
    }
}

// The folder, if the system knows it.
fn existing(rt: &impl Files, folder: String) -> Result<String, Failure> {
    match fs::metadata(rt, folder.as_str()) {
        Ok(_) => Ok(folder),
        Err(error) => Err(Failure::Folder {
            path: folder,
            error,
        }),
    }
}

// Definition blocks, and the tables of processors and fixed hardware.
fn save_machine(rt: &impl Files, alloc: Global, folder: &str) -> Result<(), Failure> {
    save(rt, alloc, folder, "package", package_block(alloc))?;
    save_block(rt, alloc, folder, namespace_block(alloc))?;
    save(rt, alloc, folder, "fadt", Ok(fixed_hardware().finalize()))?;
    save(rt, alloc, folder, "madt", interrupt_controllers(alloc))?;
    save(rt, alloc, folder, "pptt", topology(alloc, PROCESSORS))
}

// The tables of memory and of PCI.
fn save_memory(rt: &impl Files, alloc: Global, folder: &str) -> Result<(), Failure> {
    save(rt, alloc, folder, "mcfg", configuration_space(alloc))?;
    save(rt, alloc, folder, "srat", affinities(alloc))?;
    save(rt, alloc, folder, "slit", distances(alloc))?;
    save(rt, alloc, folder, "hmat", attributes(alloc))
}

// The tables of errors.
fn save_errors(rt: &impl Files, alloc: Global, folder: &str, base: u64) -> Result<(), Failure>
    requires { base + BYTES_FROM_BASE ≤ 2 ^ 64 }
{
    save(rt, alloc, folder, "hest", error_sources(alloc, base))?;
    save(rt, alloc, folder, "bert", Ok(boot_errors(base)))
}

// The definition block of an Arm machine, and the tables of its fixed hardware, interrupts and timers.
fn save_arm_machine(rt: &impl Files, alloc: Global, folder: &str) -> Result<(), Failure> {
    save_block(rt, alloc, folder, arm_namespace_block(alloc))?;
    save(
        rt,
        alloc,
        folder,
        "madt",
        arm_platform::interrupt_controllers(alloc),
    )?;
    save(rt, alloc, folder, "gtdt", Ok(arm_platform::timers(alloc)))
}

// The tables of its console and of PCI.
fn save_arm_devices(rt: &impl Files, alloc: Global, folder: &str) -> Result<(), Failure> {
    save(rt, alloc, folder, "spcr", arm_platform::console(alloc))?;
    save(rt, alloc, folder, "dbg2", arm_platform::debug_ports(alloc))?;
    save(
        rt,
        alloc,
        folder,
        "mcfg",
        arm_platform::configuration_space(alloc),
    )?;
    save(rt, alloc, folder, "iort", arm_platform::remapping(alloc))
}

// Writes a table's bytes to a file of the folder, which has the table's name.
fn save<T: Aml + Drop>(
    rt: &impl Files,
    alloc: Global,
    folder: &str,
    name: &'static str,
    made: R<T>,
) -> Result<(), Failure> {
    let bytes = bytes_of(alloc, made).map_err(|error| Failure::Table { name, error })?;
    write_file(rt, alloc, folder, name, &bytes)
}

// Writes the namespace to a file of the folder.
fn save_block(
    rt: &impl Files,
    alloc: Global,
    folder: &str,
    made: Result<Sdt, BuildError>,
) -> Result<(), Failure> {
    let name = "namespace";
    let table = made.map_err(|error| Failure::Block { name, error })?;
    write_file(rt, alloc, folder, name, table.as_slice())
}

// Checks the image, writes it to a file of the folder, and prints the addresses of its first byte and of its RSDP.
fn save_image(
    rt: &(impl Files + Print),
    alloc: Global,
    folder: &str,
    base: u64,
    made: Result<Image, BuildError>,
) -> Result<(), Failure> {
    let name = "image";
    let image = made.map_err(|error| Failure::Block { name, error })?;
    check_image(alloc, &image.bytes, base, image.rsdp).map_err(Failure::Image)?;
    write_file(rt, alloc, folder, name, &image.bytes)?;
    println!(rt; "base {base:#x} RSDP {:#x}", image.rsdp).map_err(|error| Failure::System {
        what: "standard output",
        error,
    })
}

// The bytes that a table writes, if it was made.
fn bytes_of<T: Aml + Drop>(alloc: Global, made: R<T>) -> R<Vec<u8>> {
    let mut bytes = Vec::new(alloc);
    made?.to_aml_bytes(&mut bytes)?;
    Ok(bytes)
}

// Writes bytes to a file of the folder.
fn write_file(
    rt: &impl Files,
    alloc: Global,
    folder: &str,
    name: &'static str,
    bytes: &[u8],
) -> Result<(), Failure> {
    let path = path_of(alloc, folder, name).map_err(|error| Failure::Table { name, error })?;
    match fs::write(rt, path.as_str(), bytes) {
        Ok(()) => Ok(()),
        Err(error) => Err(Failure::File { path, error }),
    }
}

// The path of a file of the folder.
fn path_of(alloc: Global, folder: &str, name: &str) -> R<String> {
    Ok(format!(in alloc; "{folder}/{name}")?)
}
