//! Nodes of an IORT with as many entries as they can have. Nodes of several lists may have fewer entries than each list alone:
//! they are of at most 65,535 bytes.

use crate::arm::iort::{fault, generic, mapping, plain_memory, plain_root, table};
use acpi_base::error::{Error, R};
use acpi_tables::iort::{
    ItsGroup, MemoryRange, NamedComponent, NamedComponentHandle, ReservedMemory, RootComplex, Smmu,
    SmmuHandle, SmmuModel, SmmuV3,
};
use std::alloc::Global;
use std::test::Fail;
use test_support::{refuses, sized};

// Adds as many services as a group can have.
fn takes_most_services(alloc: Global, group: &mut ItsGroup) -> Result<(), Fail> {
    for _ in 0..16_378u16 {
        group.add_its(0)?;
    }
    refuses(group.add_its(0), Error::FieldWidth)?;
    sized(alloc, group, 65_532)
}

#[test]
fn the_most_services(rt: HostRuntime) -> Result<(), Fail> {
    takes_most_services(rt.alloc(), &mut ItsGroup::new(rt.alloc()))
}

// Adds as many mappings as an SMMUv3 can have.
fn most_of_smmu_v3(alloc: Global, smmu: &mut SmmuV3) -> Result<(), Fail> {
    let mapping = mapping(alloc)?;
    for _ in 0..3273u16 {
        smmu.add_mapping(mapping)?;
    }
    refuses(smmu.add_mapping(mapping), Error::FieldWidth)?;
    sized(alloc, smmu, 65_528)
}

#[test]
fn the_most_mappings_of_an_smmu_v3(rt: HostRuntime) -> Result<(), Fail> {
    most_of_smmu_v3(rt.alloc(), &mut generic(rt.alloc()))
}

// Adds as many mappings as a root complex can have.
fn most_of_root(alloc: Global, root_complex: &mut RootComplex) -> Result<(), Fail> {
    let mapping = mapping(alloc)?;
    for _ in 0..3274u16 {
        root_complex.add_mapping(mapping)?;
    }
    refuses(root_complex.add_mapping(mapping), Error::FieldWidth)?;
    sized(alloc, root_complex, 65_520)
}

#[test]
fn the_most_mappings_of_a_root_complex(rt: HostRuntime) -> Result<(), Fail> {
    most_of_root(rt.alloc(), &mut plain_root(rt.alloc()))
}

// Adds as many interrupts of contexts as an SMMU can have.
fn lengthen_smmu(smmu: &mut Smmu) -> R<()> {
    for _ in 0..8182u16 {
        smmu.add_context_interrupt(fault())?;
    }
    Ok(())
}

fn is_longest_smmu(alloc: Global, smmu: &mut Smmu) -> Result<(), Fail> {
    lengthen_smmu(smmu)?;
    refuses(smmu.add_context_interrupt(fault()), Error::FieldWidth)?;
    sized(alloc, smmu, 65_532)
}

fn short_smmu(alloc: Global) -> Smmu {
    Smmu::new(alloc, SmmuModel::GenericV1, 0, 0, fault())
}

fn adds_smmu(alloc: Global, smmu: Smmu) -> R<SmmuHandle> {
    table(alloc).add_smmu(smmu)
}

#[test]
fn the_longest_smmu(rt: HostRuntime) -> Result<(), Fail> {
    let mut smmu = short_smmu(rt.alloc());
    is_longest_smmu(rt.alloc(), &mut smmu)?;
    let _ = adds_smmu(rt.alloc(), smmu)?;
    Ok(())
}

fn pass_smmu(smmu: &mut Smmu) -> R<()> {
    lengthen_smmu(smmu)?;
    smmu.add_pmu_interrupt(fault())
}

#[test]
fn a_longer_smmu(rt: HostRuntime) -> Result<(), Fail> {
    let mut longer = short_smmu(rt.alloc());
    pass_smmu(&mut longer)?;
    refuses(adds_smmu(rt.alloc(), longer), Error::FieldWidth)
}

// Adds as many ranges as reserved memory can have.
fn lengthen_memory(memory: &mut ReservedMemory) -> R<()> {
    for _ in 0..3275u16 {
        memory.add_range(MemoryRange::new(0, 0))?;
    }
    Ok(())
}

fn is_longest_memory(alloc: Global, memory: &mut ReservedMemory) -> Result<(), Fail> {
    lengthen_memory(memory)?;
    refuses(memory.add_range(MemoryRange::new(0, 0)), Error::FieldWidth)?;
    sized(alloc, memory, 65_528)
}

fn adds_memory(alloc: Global, memory: ReservedMemory) -> R<()> {
    table(alloc).add_reserved_memory(memory)
}

#[test]
fn the_longest_reserved_memory(rt: HostRuntime) -> Result<(), Fail> {
    let mut memory = plain_memory(rt.alloc());
    is_longest_memory(rt.alloc(), &mut memory)?;
    adds_memory(rt.alloc(), memory)?;
    Ok(())
}

fn pass_memory(alloc: Global, memory: &mut ReservedMemory) -> R<()> {
    lengthen_memory(memory)?;
    memory.add_mapping(mapping(alloc)?)
}

#[test]
fn longer_reserved_memory(rt: HostRuntime) -> Result<(), Fail> {
    let mut longer = plain_memory(rt.alloc());
    pass_memory(rt.alloc(), &mut longer)?;
    refuses(adds_memory(rt.alloc(), longer), Error::FieldWidth)
}

fn map_component(alloc: Global, component: &mut NamedComponent, count: u16) -> R<()> {
    let mapping = mapping(alloc)?;
    for _ in 0..count {
        component.add_mapping(mapping)?;
    }
    Ok(())
}

// A component with this name and this many mappings.
fn long_component(alloc: Global, name: &str, count: u16) -> R<NamedComponent> {
    let mut component = NamedComponent::new(alloc, String::from_str(alloc, name)?);
    map_component(alloc, &mut component, count)?;
    Ok(component)
}

fn adds_component(alloc: Global, component: NamedComponent) -> R<NamedComponentHandle> {
    table(alloc).add_named_component(component)
}

// Fails unless a component of 3,274 mappings has this size, and a table takes it.
fn is_long(alloc: Global, name: &str, size: usize) -> Result<(), Fail> {
    let component = long_component(alloc, name, 3274)?;
    sized(alloc, &component, size)?;
    let _ = adds_component(alloc, component)?;
    Ok(())
}

#[test]
fn the_longest_components(rt: HostRuntime) -> Result<(), Fail> {
    is_long(rt.alloc(), "ab", 65_512)?;
    is_long(rt.alloc(), "abc", 65_516)?;
    is_long(rt.alloc(), "abcdef", 65_516)
}

fn maps_no_more(alloc: Global, component: &mut NamedComponent) -> Result<(), Fail> {
    let mapping = mapping(alloc)?;
    refuses(component.add_mapping(mapping), Error::FieldWidth)
}

#[test]
fn a_longer_component(rt: HostRuntime) -> Result<(), Fail> {
    let mut component = long_component(rt.alloc(), "abcdefg", 3275)?;
    maps_no_more(rt.alloc(), &mut component)?;
    refuses(adds_component(rt.alloc(), component), Error::FieldWidth)
}
