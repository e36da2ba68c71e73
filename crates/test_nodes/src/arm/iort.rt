//! IORT and its nodes.

use acpi_base::error::{Error, R};
use acpi_base::object::Aml;
use acpi_tables::iort::{
    AccessAttributes, Httu, IORT, IdMapping, ItsGroup, MemoryAccess, MemoryRange, Monitored,
    NamedComponent, Output, Pmcg, ReservedMemory, RootComplex, Smmu, SmmuInterrupt, SmmuModel,
    SmmuV3, SmmuV3Model,
};
use std::alloc::Global;
use std::test::Fail;
use test_support::table::{all_stand, joined};
use test_support::{OEM, OEM_REVISION, OEM_TABLE, all, equal, refuses, writes};

pub(crate) fn table(alloc: Global) -> IORT {
    IORT::new(alloc, OEM, OEM_TABLE, OEM_REVISION)
}

// A mapping to an ITS group that is the first node of a table.
pub(crate) fn mapping(alloc: Global) -> R<IdMapping> {
    let services = table(alloc).add_its_group(ItsGroup::new(alloc))?;
    Ok(IdMapping::new(
        0x0403_0201,
        0x0807_0605,
        0x0c0b_0a09,
        Output::ItsGroup(services),
    ))
}

const MAPPING: &[u8] = b"\x01\x02\x03\x04\x05\x06\x07\x08\x09\x0a\x0b\x0c\x30\0\0\0\0\0\0\0";

#[test]
fn mappings_and_ranges(rt: HostRuntime) -> Result<(), Fail> {
    let alloc = rt.alloc();
    let mapping = mapping(alloc)?;
    all(
        alloc,
        &[
            (&mapping, MAPPING),
            (
                &mapping.single().single(),
                b"\x01\x02\x03\x04\x05\x06\x07\x08\x09\x0a\x0b\x0c\x30\0\0\0\x01\0\0\0",
            ),
            (
                &MemoryRange::new(0x0807_0605_0403_0201, 0x1817_1615_1413_1211),
                b"\x01\x02\x03\x04\x05\x06\x07\x08\x11\x12\x13\x14\x15\x16\x17\x18\0\0\0\0",
            ),
            (
                &SmmuInterrupt::new(0x0403_0201),
                b"\x01\x02\x03\x04\0\0\0\0",
            ),
            (
                &SmmuInterrupt::new(0x0403_0201)
                    .edge_triggered()
                    .edge_triggered(),
                b"\x01\x02\x03\x04\x01\0\0\0",
            ),
        ],
    )
}

// Adds two services to a group without any.
fn takes_services(alloc: Global, group: &mut ItsGroup) -> Result<(), Fail> {
    writes(
        alloc,
        group,
        b"\0\x14\0\x01\0\0\0\0\0\0\0\0\0\0\0\0\0\0\0\0",
    )?;
    group.add_its(0x0403_0201)?;
    group.add_its(0)?;
    equal(&group.service_count(), &2)?;
    writes(
        alloc,
        group,
        b"\0\x1c\0\x01\0\0\0\0\0\0\0\0\0\0\0\0\x02\0\0\0\x01\x02\x03\x04\0\0\0\0",
    )
}

#[test]
fn services(rt: HostRuntime) -> Result<(), Fail> {
    takes_services(rt.alloc(), &mut ItsGroup::new(rt.alloc()))
}

// Puts these numbers at their offsets.
fn put_each(bytes: &mut [u8], changes: &[(usize, u8)]) {
    for (at, number) in changes {
        if *at < bytes.len() {
            bytes[*at] = *number;
        }
    }
}

// Fails unless an object writes these bytes, with those numbers at their offsets.
fn changed(
    alloc: Global,
    aml: &dyn Aml,
    plain: &[u8],
    changes: &[(usize, u8)],
) -> Result<(), Fail> {
    let mut wanted = Vec::from_slice(alloc, plain)?;
    put_each(&mut wanted, changes);
    writes(alloc, aml, &wanted)
}

// A component without a name. Its flags are at offset 16, and its accesses at offset 20.
const COMPONENT: [u8; 32] =
    *b"\x01\x20\0\x04\0\0\0\0\0\0\0\0\0\0\0\0\0\0\0\0\0\0\0\0\0\0\0\0\0\0\0\0";

fn component(alloc: Global, node: NamedComponent, changes: &[(usize, u8)]) -> Result<(), Fail> {
    changed(alloc, &node, &COMPONENT, changes)
}

fn plain_component(alloc: Global) -> NamedComponent {
    NamedComponent::new(alloc, String::new(alloc))
}

fn stalled(alloc: Global) -> NamedComponent {
    plain_component(alloc).substream_width(31).stall_supported()
}

// Flags that are set again stay as they are.
#[test]
fn flags_of_components(rt: HostRuntime) -> Result<(), Fail> {
    let alloc = rt.alloc();
    component(alloc, stalled(alloc), &[(16, 0x3f)])?;
    component(alloc, stalled(alloc).substream_width(20), &[(16, 0x29)])
}

#[test]
fn memory_accesses(rt: HostRuntime) -> Result<(), Fail> {
    let access = MemoryAccess::new();
    let hints = access
        .transient()
        .write_allocate()
        .read_allocate()
        .hints_override();
    let full = hints
        .cache_coherent()
        .coherent_path()
        .cacheable_attributes();
    let again = full.write_allocate().read_allocate().hints_override();
    let again = again.transient().cacheable_attributes().coherent_path();
    let rows: [(MemoryAccess, &[(usize, u8)]); 10] = [
        (access, &[]),
        (access.cache_coherent(), &[(20, 1)]),
        (access.transient(), &[(24, 1)]),
        (access.write_allocate(), &[(24, 2)]),
        (access.read_allocate(), &[(24, 4)]),
        (access.hints_override(), &[(24, 8)]),
        (access.coherent_path(), &[(27, 1)]),
        (access.cacheable_attributes(), &[(27, 2)]),
        (full, &[(20, 1), (24, 15), (27, 3)]),
        (again, &[(20, 1), (24, 15), (27, 3)]),
    ];
    for (access, changes) in &rows {
        let node = plain_component(rt.alloc()).memory_access(*access);
        component(rt.alloc(), node, *changes)?;
    }
    Ok(())
}

// A call that sets fields of a root complex.
#[derive(Clone, Copy)]
enum RootCall {
    Access,
    Ats,
    Pri,
    Forwarding,
    Limit64,
    Pasid15,
    Pasid16,
    Pasid31,
}

fn with_root_call(node: RootComplex, call: RootCall) -> RootComplex {
    match call {
        RootCall::Access => {
            let access = MemoryAccess::new().cache_coherent().read_allocate();
            node.memory_access(access.cacheable_attributes())
        }
        RootCall::Ats => node.ats_supported(),
        RootCall::Pri => node.pri_supported(),
        RootCall::Forwarding => node.pasid_forwarding(),
        RootCall::Limit64 => node.address_size_limit(64),
        RootCall::Pasid15 => node.pasid_supported(15),
        RootCall::Pasid16 => node.pasid_supported(16),
        RootCall::Pasid31 => node.pasid_supported(31),
    }
}

// Fails unless a root complex of this segment has these numbers at their offsets after these calls.
fn root(
    alloc: Global,
    segment: u32,
    calls: &[RootCall],
    changes: &[(usize, u8)],
) -> Result<(), Fail> {
    let mut made = RootComplex::new(alloc, segment);
    for call in calls {
        made = with_root_call(made, *call);
    }
    let plain =
        b"\x02\x28\0\x04\0\0\0\0\0\0\0\0\0\0\0\0\0\0\0\0\0\0\0\0\0\0\0\0\0\0\0\0\0\0\0\0\0\0\0\0";
    changed(alloc, &made, plain, changes)
}

// Each flag alone and after others, all of them twice, and a number of bits that replaces another.
#[rattlefmt::skip]
const ROOTS: [(u32, &[RootCall], &[(usize, u8)]); 8] = [
    (0x0403_0201, &[RootCall::Access], &[(16, 1), (20, 4), (23, 2), (28, 1), (29, 2), (30, 3), (31, 4)]),
    (0, &[RootCall::Ats, RootCall::Limit64], &[(24, 1), (32, 64)]),
    (0, &[RootCall::Pri], &[(24, 2)]),
    (0, &[RootCall::Forwarding], &[(24, 4)]),
    (0, &[RootCall::Ats, RootCall::Pri, RootCall::Forwarding], &[(24, 7)]),
    (0, &[RootCall::Ats, RootCall::Pri, RootCall::Forwarding, RootCall::Pri, RootCall::Forwarding, RootCall::Ats], &[(24, 7)]),
    (0, &[RootCall::Pasid31], &[(33, 31), (36, 1)]),
    (0, &[RootCall::Pasid15, RootCall::Pasid16], &[(33, 16), (36, 1)]),
];

#[test]
fn root_complexes(rt: HostRuntime) -> Result<(), Fail> {
    for (segment, calls, changes) in &ROOTS {
        root(rt.alloc(), *segment, *calls, *changes)?;
    }
    Ok(())
}

pub(crate) fn plain_root(alloc: Global) -> RootComplex {
    RootComplex::new(alloc, 0)
}

fn maps_root(alloc: Global, root_complex: &mut RootComplex) -> Result<(), Fail> {
    let mapping = mapping(alloc)?;
    root_complex.add_mapping(mapping)?;
    root_complex.add_mapping(mapping.single())?;
    equal(&root_complex.mapping_count(), &2)?;
    writes(
        alloc,
        root_complex,
        b"\x02\x50\0\x04\0\0\0\0\x02\0\0\0\x28\0\0\0\0\0\0\0\0\0\0\0\0\0\0\0\x01\0\0\0\0\0\0\0\0\0\0\0\
            \x01\x02\x03\x04\x05\x06\x07\x08\x09\x0a\x0b\x0c\x30\0\0\0\0\0\0\0\
            \x01\x02\x03\x04\x05\x06\x07\x08\x09\x0a\x0b\x0c\x30\0\0\0\x01\0\0\0",
    )
}

#[test]
fn mappings_of_a_root_complex(rt: HostRuntime) -> Result<(), Fail> {
    maps_root(rt.alloc(), &mut RootComplex::new(rt.alloc(), 1))
}

fn named(alloc: Global, name: &str) -> R<NamedComponent> {
    let component = NamedComponent::new(alloc, String::from_str(alloc, name)?);
    Ok(
        component
            .stall_supported()
            .substream_width(31)
            .stall_supported()
            .substream_width(31)
            .address_size_limit(48),
    )
}

// Adds a mapping to such a component. Its bytes are those up to the name, the name and what is behind it, and the mapping.
fn maps_component(
    alloc: Global,
    component: &mut NamedComponent,
    [size, at]: [u8; 2],
    behind: &[u8],
) -> Result<(), Fail> {
    component.add_mapping(mapping(alloc)?)?;
    equal(&component.mapping_count(), &1)?;
    let front = [1, size, 0, 4, 0, 0, 0, 0, 1, 0, 0, 0, at];
    let fields = b"\0\0\0\x3f\0\0\0\0\0\0\0\0\0\0\0\x30";
    let wanted = joined(alloc, &[&front, fields, behind, MAPPING])?;
    writes(alloc, component, &wanted)
}

fn is_named(alloc: Global, name: &str, sizes: [u8; 2], behind: &[u8]) -> Result<(), Fail> {
    maps_component(alloc, &mut named(alloc, name)?, sizes, behind)
}

// The name of a component and its zeros end at a multiple of 4.
#[test]
fn names_of_components(rt: HostRuntime) -> Result<(), Fail> {
    let alloc = rt.alloc();
    let rows: [(&str, [u8; 2], &[u8]); 5] = [
        ("", [0x34, 0x20], b"\0\0\0"),
        ("a", [0x34, 0x20], b"a\0\0"),
        ("ab", [0x34, 0x20], b"ab\0"),
        ("abc", [0x38, 0x24], b"abc\0\0\0\0"),
        ("abcd", [0x38, 0x24], b"abcd\0\0\0"),
    ];
    for (name, sizes, behind) in &rows {
        is_named(alloc, *name, *sizes, *behind)?;
    }
    Ok(())
}

pub(crate) fn fault() -> SmmuInterrupt {
    SmmuInterrupt::new(0x2423_2221)
}

// An SMMU whose accesses to tables are coherent.
#[rattlefmt::skip]
const SMMU: [u8; 76] = *b"\x03\x4c\0\x03\0\0\0\0\0\0\0\0\0\0\0\0\x01\x02\x03\x04\x05\x06\x07\x08\
            \x11\x12\x13\x14\x15\x16\x17\x18\0\0\0\0\x02\0\0\0\x3c\0\0\0\0\0\0\0\0\0\0\0\0\0\0\0\0\0\0\0\
            \x21\x22\x23\x24\0\0\0\0\0\0\0\0\0\0\0\0";

fn smmu(alloc: Global, model: SmmuModel) -> Smmu {
    let (base, span) = (0x0807_0605_0403_0201, 0x1817_1615_1413_1211);
    Smmu::new(alloc, model, base, span, fault())
}

// Fails unless an SMMU has those bytes, with this number at this offset.
fn smmu_is(alloc: Global, smmu: Smmu, at: usize, number: u8) -> Result<(), Fail> {
    changed(alloc, &smmu, &SMMU, &[(at, number)])
}

#[test]
fn models_and_flags_of_smmus(rt: HostRuntime) -> Result<(), Fail> {
    let alloc = rt.alloc();
    for (model, number) in [
        (SmmuModel::GenericV1, 0),
        (SmmuModel::GenericV2, 1),
        (SmmuModel::CoreLinkMmu400, 2),
        (SmmuModel::CoreLinkMmu500, 3),
        (SmmuModel::CoreLinkMmu401, 4),
        (SmmuModel::CaviumThunderX, 5),
    ] {
        smmu_is(alloc, smmu(alloc, model).coherent_walk(), 32, number)?;
    }
    let smmu = smmu(alloc, SmmuModel::GenericV1);
    smmu_is(alloc, smmu.coherent_walk().dvm_supported(), 36, 3)
}

fn plain_smmu(alloc: Global) -> Smmu {
    Smmu::new(alloc, SmmuModel::GenericV2, 0, 0, fault().edge_triggered())
        .dvm_supported()
        .coherent_walk()
        .dvm_supported()
        .coherent_walk()
        .configuration_fault(SmmuInterrupt::new(0x3433_3231).edge_triggered())
}

// Adds two interrupts of contexts, one of monitors, and a mapping.
fn fill_smmu(alloc: Global, smmu: &mut Smmu) -> R<()> {
    smmu.add_context_interrupt(SmmuInterrupt::new(1))?;
    smmu.add_context_interrupt(SmmuInterrupt::new(2).edge_triggered())?;
    smmu.add_pmu_interrupt(SmmuInterrupt::new(3))?;
    smmu.add_mapping(mapping(alloc)?)
}

fn takes_lists(alloc: Global, smmu: &mut Smmu) -> Result<(), Fail> {
    fill_smmu(alloc, smmu)?;
    let counts = (smmu.context_interrupt_count(), smmu.pmu_interrupt_count());
    equal(&(counts, smmu.mapping_count()), &((2, 1), 1))?;
    writes(
        alloc,
        smmu,
        b"\x03\x78\0\x03\0\0\0\0\x01\0\0\0\x64\0\0\0\0\0\0\0\0\0\0\0\0\0\0\0\0\0\0\0\x01\0\0\0\x03\0\0\0\
            \x3c\0\0\0\x02\0\0\0\x4c\0\0\0\x01\0\0\0\x5c\0\0\0\
            \x21\x22\x23\x24\x01\0\0\0\x31\x32\x33\x34\x01\0\0\0\
            \x01\0\0\0\0\0\0\0\x02\0\0\0\x01\0\0\0\x03\0\0\0\0\0\0\0\
            \x01\x02\x03\x04\x05\x06\x07\x08\x09\x0a\x0b\x0c\x30\0\0\0\0\0\0\0",
    )
}

#[test]
fn lists_of_an_smmu(rt: HostRuntime) -> Result<(), Fail> {
    takes_lists(rt.alloc(), &mut plain_smmu(rt.alloc()))
}

fn maps_smmu_v3(alloc: Global, smmu: &mut SmmuV3) -> Result<(), Fail> {
    smmu.add_mapping(mapping(alloc)?)?;
    equal(&smmu.mapping_count(), &1)?;
    writes(
        alloc,
        smmu,
        b"\x04\x58\0\x04\0\0\0\0\x01\0\0\0\x44\0\0\0\x01\x02\x03\x04\x05\x06\x07\x08\0\0\0\0\0\0\0\0\0\0\0\0\0\0\0\0\
            \0\0\0\0\0\0\0\0\0\0\0\0\0\0\0\0\0\0\0\0\0\0\0\0\0\0\0\0\
            \x01\x02\x03\x04\x05\x06\x07\x08\x09\x0a\x0b\x0c\x30\0\0\0\0\0\0\0",
    )
}

#[test]
fn mappings_of_an_smmu_v3(rt: HostRuntime) -> Result<(), Fail> {
    let (model, base) = (SmmuV3Model::Generic, 0x0807_0605_0403_0201);
    maps_smmu_v3(rt.alloc(), &mut SmmuV3::new(rt.alloc(), model, base))
}

// An SMMUv3 whose registers are at the address 0.
pub(crate) fn generic(alloc: Global) -> SmmuV3 {
    SmmuV3::new(alloc, SmmuV3Model::Generic, 0)
}

// A call that sets a field of an SMMUv3.
#[derive(Clone, Copy)]
enum V3Call {
    Cohacc,
    Httu(Httu),
    Vatos(u64),
    Event(u32),
    Pri(u32),
    Gerr(u32),
    Sync(u32),
    Domain(u32),
    DeviceId(u32),
}

fn with_v3_call(smmu: SmmuV3, call: V3Call) -> SmmuV3 {
    match call {
        V3Call::Cohacc => smmu.cohacc_override(),
        V3Call::Httu(httu) => smmu.httu_override(httu),
        V3Call::Vatos(address) => smmu.vatos_address(address),
        V3Call::Event(gsiv) => smmu.event_gsiv(gsiv),
        V3Call::Pri(gsiv) => smmu.pri_gsiv(gsiv),
        V3Call::Gerr(gsiv) => smmu.gerr_gsiv(gsiv),
        V3Call::Sync(gsiv) => smmu.sync_gsiv(gsiv),
        V3Call::Domain(domain) => smmu.proximity_domain(domain),
        V3Call::DeviceId(index) => smmu.device_id_mapping(index),
    }
}

// Fails unless an SMMUv3 of this model has these numbers at their offsets after these calls.
fn smmu_v3(
    alloc: Global,
    model: SmmuV3Model,
    calls: &[V3Call],
    changes: &[(usize, u8)],
) -> Result<(), Fail> {
    let mut made = SmmuV3::new(alloc, model, 0);
    for call in calls {
        made = with_v3_call(made, *call);
    }
    let plain =
        b"\x04\x44\0\x04\0\0\0\0\0\0\0\0\0\0\0\0\0\0\0\0\0\0\0\0\0\0\0\0\0\0\0\0\0\0\0\0\0\0\0\0\
            \0\0\0\0\0\0\0\0\0\0\0\0\0\0\0\0\0\0\0\0\0\0\0\0\0\0\0\0";
    changed(alloc, &made, plain, changes)
}

const FLAGGED: [V3Call; 8] = [
    V3Call::Cohacc,
    V3Call::Httu(Httu::AccessFlagAndDirty),
    V3Call::Domain(5),
    V3Call::DeviceId(6),
    V3Call::Cohacc,
    V3Call::Httu(Httu::AccessFlagAndDirty),
    V3Call::Domain(5),
    V3Call::DeviceId(6),
];

// Each call alone. Flags that are set again stay as they are, and a second HTTU Override replaces the first.
#[rattlefmt::skip]
const SMMUS_V3: [(SmmuV3Model, &[V3Call], &[(usize, u8)]); 13] = [
    (SmmuV3Model::HiSiliconHi161x, &[], &[(40, 1)]),
    (SmmuV3Model::CaviumCn99xx, &[], &[(40, 2)]),
    (SmmuV3Model::Generic, &[V3Call::Cohacc], &[(24, 1)]),
    (SmmuV3Model::Generic, &[V3Call::Httu(Httu::AccessFlag)], &[(24, 2)]),
    (SmmuV3Model::Generic, &[V3Call::Httu(Httu::AccessFlagAndDirty)], &[(24, 4)]),
    (SmmuV3Model::Generic, &[V3Call::Httu(Httu::AccessFlagAndDirty), V3Call::Httu(Httu::AccessFlag)], &[(24, 2)]),
    (SmmuV3Model::Generic, &[V3Call::Vatos(7)], &[(32, 7)]),
    (SmmuV3Model::Generic, &[V3Call::Event(1), V3Call::Pri(2)], &[(44, 1), (48, 2)]),
    (SmmuV3Model::Generic, &[V3Call::Gerr(3), V3Call::Sync(4)], &[(52, 3), (56, 4)]),
    (SmmuV3Model::Generic, &[V3Call::Domain(5)], &[(24, 8), (60, 5)]),
    (SmmuV3Model::Generic, &[V3Call::DeviceId(6)], &[(64, 6)]),
    (SmmuV3Model::Generic, &FLAGGED, &[(24, 13), (60, 5), (64, 6)]),
    (SmmuV3Model::Generic,
        &[V3Call::Cohacc, V3Call::Httu(Httu::AccessFlagAndDirty), V3Call::Domain(5), V3Call::DeviceId(6), V3Call::Cohacc],
        &[(24, 13), (60, 5), (64, 6)]),
];

#[test]
fn models_and_calls_of_smmus_v3(rt: HostRuntime) -> Result<(), Fail> {
    for (model, calls, changes) in &SMMUS_V3 {
        smmu_v3(rt.alloc(), *model, *calls, *changes)?;
    }
    Ok(())
}

// Reserved memory without ranges.
fn reserved(alloc: Global, memory: ReservedMemory, flags: u8) -> Result<(), Fail> {
    let plain = b"\x06\x1c\0\x03\0\0\0\0\0\0\0\0\0\0\0\0\0\0\0\0\0\0\0\0\0\0\0\0";
    changed(alloc, &memory, plain, &[(16, flags)])
}

#[test]
fn attributes_of_reserved_memory(rt: HostRuntime) -> Result<(), Fail> {
    let alloc = rt.alloc();
    for (attributes, flags) in [
        (AccessAttributes::DeviceNGnRnE, 0),
        (AccessAttributes::DeviceNGnRE, 4),
        (AccessAttributes::DeviceNGRE, 8),
        (AccessAttributes::DeviceGRE, 12),
        (AccessAttributes::NormalNonCacheable, 16),
        (AccessAttributes::NormalWriteBack, 20),
    ] {
        reserved(alloc, ReservedMemory::new(alloc, attributes), flags)?;
        let permitted = ReservedMemory::new(alloc, attributes).remapping_permitted();
        reserved(alloc, permitted, flags | 1)?;
        let privileged = ReservedMemory::new(alloc, attributes).privileged();
        reserved(alloc, privileged.privileged(), flags | 2)?;
        let both = ReservedMemory::new(alloc, attributes).remapping_permitted();
        let both = both.privileged().remapping_permitted();
        reserved(alloc, both, flags | 3)?;
    }
    Ok(())
}

pub(crate) fn plain_memory(alloc: Global) -> ReservedMemory {
    ReservedMemory::new(alloc, AccessAttributes::DeviceNGnRnE)
}

// Adds two ranges and a mapping.
fn takes_ranges(alloc: Global, memory: &mut ReservedMemory) -> Result<(), Fail> {
    memory.add_range(MemoryRange::new(0x1_0000, 0x2_0000))?;
    memory.add_range(MemoryRange::new(0x8_0000, 0x1_0000))?;
    memory.add_mapping(mapping(alloc)?)?;
    equal(&(memory.range_count(), memory.mapping_count()), &(2, 1))?;
    writes(
        alloc,
        memory,
        b"\x06\x58\0\x03\0\0\0\0\x01\0\0\0\x44\0\0\0\0\0\0\0\x02\0\0\0\x1c\0\0\0\
            \0\0\x01\0\0\0\0\0\0\0\x02\0\0\0\0\0\0\0\0\0\
            \0\0\x08\0\0\0\0\0\0\0\x01\0\0\0\0\0\0\0\0\0\
            \x01\x02\x03\x04\x05\x06\x07\x08\x09\x0a\x0b\x0c\x30\0\0\0\0\0\0\0",
    )
}

#[test]
fn ranges_of_reserved_memory(rt: HostRuntime) -> Result<(), Fail> {
    takes_ranges(rt.alloc(), &mut plain_memory(rt.alloc()))
}

#[test]
fn a_table_without_nodes(rt: HostRuntime) -> Result<(), Fail> {
    all_stand(
        rt.alloc(),
        &table(rt.alloc()),
        &[
            (0, b"IORT\x30\0\0\0\x05"),
            (36, b"\0\0\0\0\x30\0\0\0\0\0\0\0"),
        ],
    )
}

// Adds an ITS group, an SMMU and an SMMUv3, and returns what a mapping can refer to.
fn add_outputs(alloc: Global, table: &mut IORT) -> R<[Output; 3]> {
    let services = table.add_its_group(ItsGroup::new(alloc))?;
    let smmu = Smmu::new(alloc, SmmuModel::GenericV2, 0, 0, SmmuInterrupt::new(0));
    let smmu = table.add_smmu(smmu)?;
    let smmu_v3 = table.add_smmu_v3(generic(alloc))?;
    Ok([
        Output::ItsGroup(services),
        Output::Smmu(smmu),
        Output::SmmuV3(smmu_v3),
    ])
}

fn root_of(alloc: Global, outputs: &[Output]) -> R<RootComplex> {
    let mut root_complex = RootComplex::new(alloc, 0);
    for output in outputs {
        root_complex.add_mapping(IdMapping::new(0, 0, 0, *output))?;
    }
    Ok(root_complex)
}

fn monitored(output: Output) -> Option<Monitored> {
    match output {
        Output::ItsGroup(_) => None,
        Output::Smmu(smmu) => Some(Monitored::Smmu(smmu)),
        Output::SmmuV3(smmu) => Some(Monitored::SmmuV3(smmu)),
    }
}

// Adds a group of monitors of a node.
fn monitor(alloc: Global, table: &mut IORT, node: Monitored) -> R<()> {
    table.add_pmcg(Pmcg::new(alloc, 0, node))
}

// Adds a group of monitors of each of these that can have one.
fn monitor_each(alloc: Global, table: &mut IORT, outputs: &[Output]) -> R<()> {
    for output in outputs {
        if let Some(node) = monitored(*output) {
            monitor(alloc, table, node)?;
        }
    }
    Ok(())
}

// Adds a node of each kind.
fn add_nodes(alloc: Global, table: &mut IORT) -> R<()> {
    let outputs = add_outputs(alloc, table)?;
    let root_complex = table.add_root_complex(root_of(alloc, &outputs)?)?;
    let component = table.add_named_component(plain_component(alloc))?;
    monitor_each(alloc, table, &outputs)?;
    monitor(alloc, table, Monitored::RootComplex(root_complex))?;
    monitor(alloc, table, Monitored::NamedComponent(component))?;
    table.add_reserved_memory(plain_memory(alloc))
}

fn has_all_nodes(alloc: Global, table: &IORT) -> Result<(), Fail> {
    equal(&(table.len(), table.count()), &(532, 10))?;
    all_stand(
        alloc,
        table,
        &[
            (36, b"\x0a\0\0\0\x30\0\0\0\0\0\0\0\0\x14\0\x01\0\0\0\0"),
            (68, b"\x03\x4c\0\x03\x01\0\0\0"),
            (144, b"\x04\x44\0\x04\x02\0\0\0"),
            (212, b"\x02\x64\0\x04\x03\0\0\0\x03\0\0\0\x28\0\0\0"),
            (264, b"\x30\0\0\0"),
            (284, b"\x44\0\0\0"),
            (304, b"\x90\0\0\0"),
            (312, b"\x01\x20\0\x04\x04\0\0\0"),
            (344, b"\x05\x28\0\x02\x05\0\0\0"),
            (372, b"\x44\0\0\0"),
            (384, b"\x05\x28\0\x02\x06\0\0\0"),
            (412, b"\x90\0\0\0"),
            (424, b"\x05\x28\0\x02\x07\0\0\0"),
            (452, b"\xd4\0\0\0"),
            (464, b"\x05\x28\0\x02\x08\0\0\0"),
            (492, b"\x38\x01\0\0"),
            (504, b"\x06\x1c\0\x03\x09\0\0\0"),
        ],
    )
}

// Identifiers are indices, and references are offsets.
#[test]
fn nodes_refer_to_each_other(rt: HostRuntime) -> Result<(), Fail> {
    let mut table = table(rt.alloc());
    add_nodes(rt.alloc(), &mut table)?;
    has_all_nodes(rt.alloc(), &table)
}

// A group of monitors of an SMMU that is the first node of a table.
fn monitors(alloc: Global) -> R<Pmcg> {
    let smmu = Smmu::new(alloc, SmmuModel::GenericV2, 0, 0, fault());
    let smmu = table(alloc).add_smmu(smmu)?;
    let monitor = Pmcg::new(alloc, 0x0807_0605_0403_0201, Monitored::Smmu(smmu));
    Ok(
        monitor
            .overflow_gsiv(0x2423_2221)
            .page_1(0x1817_1615_1413_1211),
    )
}

fn maps_once(alloc: Global, monitor: &mut Pmcg) -> Result<(), Fail> {
    let mapping = mapping(alloc)?;
    monitor.add_mapping(mapping)?;
    refuses(monitor.add_mapping(mapping), Error::FieldWidth)?;
    equal(&monitor.mapping_count(), &1)?;
    writes(
        alloc,
        monitor,
        b"\x05\x3c\0\x02\0\0\0\0\x01\0\0\0\x28\0\0\0\x01\x02\x03\x04\x05\x06\x07\x08\x21\x22\x23\x24\x30\0\0\0\
            \x11\x12\x13\x14\x15\x16\x17\x18\x01\x02\x03\x04\x05\x06\x07\x08\x09\x0a\x0b\x0c\x30\0\0\0\0\0\0\0",
    )
}

#[test]
fn a_group_of_monitors_has_one_mapping(rt: HostRuntime) -> Result<(), Fail> {
    maps_once(rt.alloc(), &mut monitors(rt.alloc())?)
}
