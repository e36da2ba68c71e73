#![tactic(auto)]

use acpi_tables::facs::FACS;
use acpi_tables::fadt::FADTBuilder;
use acpi_tables::layout::{Image, lay};
use acpi_tables::madt::{EnabledStatus, LocalInterruptController, MADT, ProcessorLocalApic};
use acpi_tables::sdt::Sdt;
use acpi_tables::{Aml, R};
use std::alloc::Global;
use std::process::ExitCode;
use std::{fs, io};

fn image(alloc: Global) -> R<Image> {
    let (oem, name) = (*b"FOOBAR", *b"CAFEDEAD");
    let namespace = Sdt::new(alloc, *b"DSDT", 36, 2, oem, name, 1)?;
    let local = LocalInterruptController::Address(0xfee0_0000);
    let mut controllers = MADT::new(alloc, oem, name, 1, local);
    controllers.add_structure(ProcessorLocalApic::new(0, 0, EnabledStatus::Enabled))?;
    let tables: Vec<&dyn Aml> = vec![in alloc; &controllers as &dyn Aml]?;
    let (facs, fadt) = (FACS::new(), FADTBuilder::new(oem, name, 1));
    lay(0x1c00_0000, oem, name, 1, &namespace, &facs, fadt, tables)
}

fn main(rt: HostRuntime) -> io::Result<ExitCode> {
    let Ok(laid) = image(rt.alloc()) else {
        return Ok(ExitCode::from(1));
    };
    fs::write(&rt, "image", laid.bytes.as_slice())?;
    println!(rt; "RSDP {:#x}", laid.rsdp)?;
    Ok(ExitCode::SUCCESS)
}
