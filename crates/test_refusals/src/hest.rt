//! HEST and RQSC, and their structures.

use crate::short::{Short, starve_all, starve_made};
use acpi_tables::R;
use acpi_tables::gas::GAS;
use acpi_tables::hest::{
    EnabledStatus, ErrorSeverity, GenericErrorData, GenericErrorStatus, GenericHardwareSource,
    GenericHardwareSourceV2, HEST, NotificationStructure, NotificationType, PcieAerBridge,
    PcieAerDevice, PcieAerRootPort,
};
use acpi_tables::rqsc::{
    ACPIDeviceResource, CacheResource, ControllerType, MemoryAffinityStructureResource,
    PCIDeviceResource, QoSController, RQSC, ResourceID, ResourceStructure, ResourceType,
};
use std::alloc::Global;
use std::test::Fail;
use test_support::{OEM, OEM_REVISION, OEM_TABLE, equal};

fn hest(alloc: Global) -> R<HEST> {
    let mut hest = HEST::new(alloc, OEM, OEM_TABLE, OEM_REVISION);
    hest.add_structure(PcieAerRootPort::new_global())?;
    Ok(hest)
}

#[test]
fn error_sources(rt: HostRuntime) -> Result<(), Fail> {
    let alloc = rt.alloc();
    starve_made(alloc, 88, hest(alloc))?;
    starve_all(
        alloc,
        &[
            (48, &PcieAerRootPort::new_global()),
            (44, &PcieAerDevice::new_global()),
            (56, &PcieAerBridge::new_global()),
            (64, &GenericHardwareSource::new(1, EnabledStatus::Enabled)),
            (92, &GenericHardwareSourceV2::new(1, EnabledStatus::Enabled)),
            (28, &NotificationStructure::new(NotificationType::Polled)),
            (20, &GenericErrorStatus::new(1, 2, ErrorSeverity::Fatal)),
        ],
    )
}

fn bytes_of(alloc: Global, entry: &GenericErrorData) -> R<Vec<u8>> {
    let mut bytes = Vec::new(alloc);
    entry.to_aml_bytes(&mut bytes)?;
    Ok(bytes)
}

fn starve_entry(alloc: Global, entry: &GenericErrorData) -> Result<(), Fail> {
    let whole = bytes_of(alloc, entry)?;
    equal(&whole.len(), &61)?;
    for room in 0..whole.len() {
        let mut short = Short::new(alloc, room);
        let end = entry.to_aml_bytes(&mut short);
        short.is_full(&whole[..room], end)?;
    }
    Ok(())
}

// An entry of error data isn't an object, but is written like one.
#[test]
fn error_data(rt: HostRuntime) -> Result<(), Fail> {
    let mut entry = GenericErrorData::new(rt.alloc(), ErrorSeverity::Fatal);
    entry.add_data(Box::new(rt.alloc(), 0x0201u16)?)?;
    starve_entry(rt.alloc(), &entry)
}

fn resource() -> ResourceStructure {
    let cache = CacheResource::new(0x0403_0201);
    ResourceStructure::new(ResourceType::Cache, 1, ResourceID::Cache(cache))
}

fn controller(alloc: Global) -> R<QoSController> {
    let mut made = QoSController::new(alloc, ControllerType::Bandwidth, GAS::default(), 1, 2, 3);
    made.add_resource(resource())?;
    Ok(made)
}

fn rqsc(alloc: Global) -> R<RQSC> {
    let mut rqsc = RQSC::new(alloc, OEM, OEM_TABLE, OEM_REVISION);
    rqsc.add_controller(controller(alloc)?)?;
    Ok(rqsc)
}

fn vendors(alloc: Global) -> R<ResourceID> {
    Ok(ResourceID::VendorSpecific(0x80, b"abc".to_vec(alloc)?))
}

#[test]
fn controllers(rt: HostRuntime) -> Result<(), Fail> {
    let alloc = rt.alloc();
    starve_made(alloc, 88, rqsc(alloc))?;
    starve_made(alloc, 48, controller(alloc))?;
    starve_made(alloc, 20, Ok(resource()))?;
    starve_made(alloc, 4, vendors(alloc))
}

#[test]
fn resources(rt: HostRuntime) -> Result<(), Fail> {
    starve_all(
        rt.alloc(),
        &[
            (12, &CacheResource::new(1)),
            (20, &MemoryAffinityStructureResource::new(1, 2)),
            (12, &ACPIDeviceResource::new(1, 2)),
            (12, &PCIDeviceResource::new(1)),
        ],
    )
}
