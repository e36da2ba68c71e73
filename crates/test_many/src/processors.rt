//! The processors with the numbers 0 to 254 are local APICs, and the further ones local x2APICs.

use acpi_base::error::R;
use acpi_tables::madt::{
    EnabledStatus, InterruptSourceOverride, IoApic, LocalInterruptController, LocalX2ApicNmi, MADT,
    PCAT_COMPAT, Polarity, ProcessorLocalApic, ProcessorLocalX2Apic, TriggerMode,
};
use acpi_tables::srat::{
    MemoryAffinity, ProcessorLocalApicAffinity, ProcessorLocalX2ApicAffinity, SRAT,
};
use std::alloc::Global;
use std::test::Fail;
use test_support::table::table;
use test_support::{OEM, OEM_REVISION, OEM_TABLE, writes};

// Adds the processor of a number.
fn add_processor(madt: &mut MADT, number: u32, status: EnabledStatus) -> R<()> {
    match u8::try_from(number) {
        Ok(small) if small < 255 => {
            madt.add_structure(ProcessorLocalApic::new(small, small, status))
        }
        _ => madt.add_structure(ProcessorLocalX2Apic::new(number, number, status)),
    }
}

// Adds this many processors, of which the first ones are there from the start.
fn add_processors(madt: &mut MADT, count: u32, enabled: u32) -> R<()> {
    for number in 0..count {
        let status = if number < enabled {
            EnabledStatus::Enabled
        } else {
            EnabledStatus::Disabled
        };
        add_processor(madt, number, status)?;
    }
    Ok(())
}

// Adds the I/O APIC and its interrupts.
fn add_interrupts(madt: &mut MADT) -> R<()> {
    madt.add_structure(IoApic::new(0, 0xfec0_0000, 0))?;
    madt.add_structure(InterruptSourceOverride::new(0, 2))?;
    for number in [5u8, 9, 10, 11] {
        let source = InterruptSourceOverride::new(number, u32::from(number));
        let high = source
            .polarity(Polarity::ActiveHigh)
            .trigger_mode(TriggerMode::Level);
        madt.add_structure(high)?;
    }
    madt.add_structure(LocalX2ApicNmi::of_all_processors(1))
}

// The bytes of the processors (ACPI 6.5, 5.2.12.2 and 5.2.12.12).
fn processors(alloc: Global, count: u32, enabled: u32) -> R<Vec<u8>> {
    let mut bytes = Vec::new(alloc);
    for number in 0..count {
        let there = if number < enabled { 1 } else { 0 };
        let [a, b, c, d] = number.to_le_bytes();
        if number < 255 {
            bytes.extend_from_slice(&[0, 8, a, a, there, 0, 0, 0])?;
        } else {
            bytes.extend_from_slice(&[9, 16, 0, 0, a, b, c, d, there, 0, 0, 0, a, b, c, d])?;
        }
    }
    Ok(bytes)
}

const INTERRUPTS: &[u8] = b"\x01\x0c\0\0\0\0\xc0\xfe\0\0\0\0\
    \x02\x0a\0\0\x02\0\0\0\0\0\
    \x02\x0a\0\x05\x05\0\0\0\x0d\0\
    \x02\x0a\0\x09\x09\0\0\0\x0d\0\
    \x02\x0a\0\x0a\x0a\0\0\0\x0d\0\
    \x02\x0a\0\x0b\x0b\0\0\0\x0d\0\
    \x0a\x0c\0\0\xff\xff\xff\xff\x01\0\0\0";

// Fails unless a MADT has these structures, and then the interrupts.
fn is_madt(alloc: Global, madt: &MADT, structures: &[u8]) -> Result<(), Fail> {
    let fixed = b"\0\0\xe0\xfe\x01\0\0\0";
    let wanted = table(alloc, b"APIC", 1, &[fixed, structures, INTERRUPTS])?;
    writes(alloc, madt, &wanted)
}

// 275 processors that are there, and 288 of which all but one are added later.
#[test]
fn interrupt_controllers(rt: HostRuntime) -> Result<(), Fail> {
    let alloc = rt.alloc();
    for (count, enabled) in [(275, 275), (288, 1)] {
        let local = LocalInterruptController::Address(0xfee0_0000);
        let mut madt = MADT::of_revision(
            alloc,
            1,
            OEM,
            OEM_TABLE,
            OEM_REVISION,
            local,
            PCAT_COMPAT,
        );
        add_processors(&mut madt, count, enabled)?;
        add_interrupts(&mut madt)?;
        let all = processors(alloc, count, enabled)?;
        is_madt(alloc, &madt, &all)?;
    }
    Ok(())
}

// Adds the affinity of the processor of a number, which is in domain 0.
fn add_affinity(srat: &mut SRAT, number: u32) -> R<()> {
    match u8::try_from(number) {
        Ok(small) if small < 255 => {
            let processor = ProcessorLocalApicAffinity::new(0, small);
            srat.add_processor_local_apic_affinity(processor.enabled())
        }
        _ => {
            let processor = ProcessorLocalX2ApicAffinity::new(0, number);
            srat.add_processor_local_x2apic_affinity(processor.enabled())
        }
    }
}

fn add_affinities(srat: &mut SRAT, count: u32) -> R<()> {
    for number in 0..count {
        add_affinity(srat, number)?;
    }
    Ok(())
}

// Adds the memory of the machine, which is in domain 1, and two ranges that are empty.
fn add_memory(srat: &mut SRAT) -> R<()> {
    srat.add_memory_affinity(MemoryAffinity::new(1, 0, 0xa_0000).enabled())?;
    srat.add_memory_affinity(MemoryAffinity::new(1, 0x10_0000, 0x7f0_0000).enabled())?;
    srat.add_memory_affinity(MemoryAffinity::new(0, 0, 0))?;
    srat.add_memory_affinity(MemoryAffinity::new(0, 0, 0))
}

// The bytes of the affinities (ACPI 6.5, 5.2.16.1 and 5.2.16.3).
fn affinities(alloc: Global, count: u32) -> R<Vec<u8>> {
    let mut bytes = Vec::new(alloc);
    for number in 0..count {
        let [a, b, c, d] = number.to_le_bytes();
        if number < 255 {
            bytes.extend_from_slice(&[0, 16, 0, a, 1, 0, 0, 0, 0, 0, 0, 0, 0, 0, 0, 0])?;
        } else {
            bytes.extend_from_slice(&[2, 24, 0, 0, 0, 0, 0, 0, a, b, c, d])?;
            bytes.extend_from_slice(&[1, 0, 0, 0, 0, 0, 0, 0, 0, 0, 0, 0])?;
        }
    }
    Ok(bytes)
}

const MEMORY: &[u8] =
    b"\x01(\x01\0\0\0\0\0\0\0\0\0\0\0\0\0\0\0\x0a\0\0\0\0\0\0\0\0\0\x01\0\0\0\0\0\0\0\0\0\0\0\
    \x01(\x01\0\0\0\0\0\0\0\x10\0\0\0\0\0\0\0\xf0\x07\0\0\0\0\0\0\0\0\x01\0\0\0\0\0\0\0\0\0\0\0\
    \x01(\0\0\0\0\0\0\0\0\0\0\0\0\0\0\0\0\0\0\0\0\0\0\0\0\0\0\0\0\0\0\0\0\0\0\0\0\0\0\
    \x01(\0\0\0\0\0\0\0\0\0\0\0\0\0\0\0\0\0\0\0\0\0\0\0\0\0\0\0\0\0\0\0\0\0\0\0\0\0\0";

// Fails unless a SRAT has these structures, and then the memory.
fn is_srat(alloc: Global, srat: &SRAT, structures: &[u8]) -> Result<(), Fail> {
    let fixed = b"\x01\0\0\0\0\0\0\0\0\0\0\0";
    let wanted = table(alloc, b"SRAT", 1, &[fixed, structures, MEMORY])?;
    writes(alloc, srat, &wanted)
}

#[test]
fn domains(rt: HostRuntime) -> Result<(), Fail> {
    let alloc = rt.alloc();
    let mut srat = SRAT::new(alloc, OEM, OEM_TABLE, OEM_REVISION);
    add_affinities(&mut srat, 288)?;
    add_memory(&mut srat)?;
    let all = affinities(alloc, 288)?;
    is_srat(alloc, &srat, &all)
}
