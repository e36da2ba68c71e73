//! A whole machine in one file: it writes the image of the machine's tables, for the physical address 0x1c000000, to the file
//! `image`, and prints the address of the RSDP. The machine is QEMU's q35 with two processors, each with 256 MiB of memory.
#![tactic(auto)]

use acpi_build::block::Block;
use acpi_build::eisa_id::EisaId;
use acpi_build::error::BuildError;
use acpi_tables::aml::{AddressSpace, AddressSpaceCacheable, Arg, IO, Interrupt, ZERO};
use acpi_tables::fadt::{FADTBuilder, Flags};
use acpi_tables::layout::{Image, lay};
use acpi_tables::madt::{self, InterruptSourceOverride, IoApic, MADT, ProcessorLocalApic};
use acpi_tables::mcfg::MCFG;
use acpi_tables::sdt::Sdt;
use acpi_tables::slit::SLIT;
use acpi_tables::spcr::{InterfaceType, SPCR};
use acpi_tables::srat::{MemoryAffinity, ProcessorLocalApicAffinity, SRAT};
use acpi_tables::{Aml, R, facs, gas};
use std::alloc::{AllocError, Global};
use std::process::ExitCode;
use std::{fs, io};

const OEM: [u8; 6] = *b"FOOBAR";

const NAME: [u8; 8] = *b"CAFEDEAD";

const PROCESSORS: u8 = 2;

// The bridge passes on all buses, all ports but its own eight, and the memory for devices. Each pin of each slot comes to one of
// the inputs 20 to 23 of the I/O APIC.
fn bridge_resources(block: &mut Block) {
    let cacheable = AddressSpaceCacheable::NotCacheable;
    block.resources("_CRS");
    block.add(&AddressSpace::new_bus_number(0u16, 0xff));
    block.add(&IO::new(0xcf8, 0xcf8, 1, 8));
    block.add(&AddressSpace::new_io(0u16, 0xcf7, None));
    block.add(&AddressSpace::new_io(0xd00u16, 0xffff, None));
    block.add(&AddressSpace::new_memory(cacheable, true, 0xc000_0000u32, 0xfebf_ffff, None));
    block.end();
    block.named_package("_PRT");
    for slot in 0..25u32 {
        for pin in 0..4u32 {
            block.package();
            block.add(&(slot * 0x1_0000 + 0xffff));
            block.add(&pin);
            block.add(&ZERO);
            block.add(&(20 + (slot + pin) % 4));
            block.end();
        }
    }
    block.end();
}

// The root bridge of PCI Express. It leaves to the operating system all that it asks for (ACPI 6.5, 6.2.11).
fn root_bridge(block: &mut Block) {
    block.device("PCI0");
    block.name("_HID", &EisaId("PNP0A08"));
    block.name("_CID", &EisaId("PNP0A03"));
    block.name("_UID", &ZERO);
    block.method("_OSC", 4, true);
    block.returns(&Arg(3));
    block.end();
    bridge_resources(block);
    block.end();
}

// The id and the domain of a processor are its number.
fn processors(alloc: Global, block: &mut Block) -> Result<(), AllocError> {
    for number in 0..PROCESSORS {
        block.device(format!(in alloc; "C{number:03}")?.as_str());
        block.name("_HID", &"ACPI0007");
        block.name("_UID", &number);
        block.name("_PXM", &number);
        block.end();
    }
    Ok(())
}

// All devices, and the values that switch the machine off (ACPI 6.5, 7.4.2.6).
fn definition_block(alloc: Global) -> Result<Sdt, BuildError> {
    let mut block = Block::new(alloc);
    block.scope("\\_SB_");
    root_bridge(&mut block);
    block.device("COM1");
    block.name("_HID", &EisaId("PNP0501"));
    block.name("_UID", &1u8);
    block.resources("_CRS");
    block.add(&Interrupt::new(true, true, false, false, 4));
    block.add(&IO::new(0x3f8, 0x3f8, 0, 8));
    block.end();
    block.end();
    block.device("PWRB");
    block.name("_HID", &EisaId("PNP0C0C"));
    block.end();
    processors(alloc, &mut block)?;
    block.end();
    block.named_package("\\_S5_");
    for _ in 0..4u8 {
        block.add(&ZERO);
    }
    block.end();
    let mut table = Sdt::new(alloc, *b"DSDT", 36, 2, OEM, NAME, 1)?;
    table.append_slice(&block.finish()?)?;
    Ok(table)
}

// The fixed hardware: registers at ports from 0x600 on.
fn fixed_hardware() -> FADTBuilder {
    let mut fadt = FADTBuilder::new(OEM, NAME, 1);
    fadt.sci_int = 9;
    fadt.pm1a_evt_blk = 0x600;
    fadt.pm1_evt_len = 4;
    fadt.pm1a_cnt_blk = 0x604;
    fadt.pm1_cnt_len = 2;
    fadt.pm_tmr_blk = 0x608;
    fadt.pm_tmr_len = 4;
    let fadt = fadt.gpe_info(0x620, 0, 16, 0, 0).flag(Flags::Wbinvd);
    let fadt = fadt.flag(Flags::ProcC1).flag(Flags::TmrValExt);
    fadt.flag(Flags::PwrButton).flag(Flags::SlpButton)
}

// The timer's interrupt comes to input 2 of the I/O APIC, and that of the fixed hardware to input 9.
fn interrupt_controllers(alloc: Global) -> R<MADT> {
    let local = madt::LocalInterruptController::Address(0xfee0_0000);
    let mut table = MADT::of_revision(alloc, 5, OEM, NAME, 1, local, madt::PCAT_COMPAT);
    for n in 0..PROCESSORS {
        table.add_structure(ProcessorLocalApic::new(n, n, madt::EnabledStatus::Enabled))?;
    }
    let sci = InterruptSourceOverride::new(9, 9).polarity(madt::Polarity::ActiveHigh);
    table.add_structure(IoApic::new(0, 0xfec0_0000, 0))?;
    table.add_structure(InterruptSourceOverride::new(0, 2))?;
    table.add_structure(sci.trigger_mode(madt::TriggerMode::Level))?;
    table.add_structure(madt::LocalApicNmi::of_all_processors(1))?;
    Ok(table)
}

// Each processor is a domain with its memory.
fn domains(alloc: Global) -> R<SRAT> {
    let mut table = SRAT::of_revision(alloc, 3, OEM, NAME, 1);
    for n in 0..PROCESSORS {
        let processor = ProcessorLocalApicAffinity::new(u32::from(n), n);
        let memory = MemoryAffinity::new(u32::from(n), u64::from(n) * 0x1000_0000, 0x1000_0000);
        table.add_processor_local_apic_affinity(processor.enabled())?;
        table.add_memory_affinity(memory.enabled())?;
    }
    Ok(table)
}

// The memory of the other domain is twice as far as a domain's own (ACPI 6.5, 5.2.17).
fn distances(alloc: Global) -> R<SLIT> {
    let mut table = SLIT::new(alloc, OEM, NAME, 1, 2)?;
    table.set_distance(0, 1, 20)?;
    Ok(table)
}

// All tables at their addresses, with the configuration space of PCI and the console.
fn laid(alloc: Global, dsdt: &Sdt, madt: MADT, srat: SRAT, slit: SLIT) -> R<Image> {
    let (space, access) = (gas::AddressSpace::SystemIo, gas::AccessSize::ByteAccess);
    let port = gas::GAS::new(space, 8, 0, access, 0x3f8);
    let spcr = SPCR::new(OEM, NAME, 1, InterfaceType::Uart16550, port).irq(4);
    let mut mcfg = MCFG::new(alloc, OEM, NAME, 1);
    mcfg.add_ecam(0xb000_0000, 0, 0, 0xff)?;
    let tables: Vec<&dyn Aml> = vec![in alloc; &madt as &dyn Aml, &mcfg, &srat, &slit, &spcr]?;
    let (facs, fadt) = (facs::FACS::new(), fixed_hardware());
    lay(0x1c00_0000, OEM, NAME, 1, dsdt, &facs, fadt, tables)
}

fn image(alloc: Global) -> Result<Image, BuildError> {
    let dsdt = definition_block(alloc)?;
    let madt = interrupt_controllers(alloc)?;
    let srat = domains(alloc)?;
    let slit = distances(alloc)?;
    Ok(laid(alloc, &dsdt, madt, srat, slit)?)
}

fn main(rt: HostRuntime) -> io::Result<ExitCode> {
    match image(rt.alloc()) {
        Ok(image) => {
            fs::write(&rt, "image", image.bytes.as_slice())?;
            println!(rt; "RSDP {:#x}", image.rsdp)?;
            Ok(ExitCode::SUCCESS)
        }
        Err(error) => {
            eprintln!(rt; "{error}")?;
            Ok(ExitCode::from(1))
        }
    }
}
