//! HEST, its error data, and RQSC.

use crate::fault::Fault;
use crate::trial::{Grows, Trial};
use acpi_tables::R;
use acpi_tables::gas::{AccessSize, AddressSpace, GAS};
use acpi_tables::hest::{ErrorSeverity, GenericErrorData, HEST, PcieAerRootPort};
use acpi_tables::rqsc::{
    ControllerType, QoSController, RQSC, ResourceID, ResourceStructure, ResourceType,
};
use std::alloc::Global;
use test_support::{OEM, OEM_REVISION, OEM_TABLE};

impl Grows for HEST {
    const WAYS: u8 = 2;

    fn empty(alloc: Global) -> R<HEST> {
        Ok(HEST::new(alloc, OEM, OEM_TABLE, OEM_REVISION))
    }

    fn grow(&mut self, _alloc: Global, way: u8) -> R<()> {
        match way {
            0 => self.add_structure(PcieAerRootPort::new_global()),
            _ => self.add_borrowed_structure(&PcieAerRootPort::new_global()),
        }
    }
}

/// An entry of error data, which isn't `Aml`.
pub fn entry(trial: &mut Trial, alloc: Global) -> Result<(), Fault> {
    let mut entry = GenericErrorData::new(alloc, ErrorSeverity::Fatal);
    for _ in 0..5u8 {
        trial.change(
            &mut entry,
            |entry: &GenericErrorData, bytes: &mut Vec<u8>| entry.to_aml_bytes(bytes),
            |entry: &mut GenericErrorData| entry.add_data(Box::new(alloc, 0x100u16)?),
        )?;
    }
    let bytes = trial.make(&0x100u16, || {
        let mut bytes = Vec::new(alloc);
        entry.to_aml_bytes(&mut bytes)?;
        Ok(bytes)
    })?;
    trial.count(&bytes);
    Ok(())
}

fn id(alloc: Global) -> R<ResourceID> {
    Ok(ResourceID::VendorSpecific(0x80, b"0123456789".to_vec(alloc)?))
}

fn resource(alloc: Global) -> R<ResourceStructure> {
    Ok(ResourceStructure::new(ResourceType::Memory, 1, id(alloc)?))
}

impl Grows for QoSController {
    const WAYS: u8 = 1;

    fn empty(alloc: Global) -> R<QoSController> {
        let access = AccessSize::DwordAccess;
        let register = GAS::new(AddressSpace::SystemMemory, 32, 0, access, 0x1000);
        Ok(QoSController::new(alloc, ControllerType::Bandwidth, register, 1, 2, 3))
    }

    fn grow(&mut self, alloc: Global, _way: u8) -> R<()> {
        self.add_resource(resource(alloc)?)
    }
}

fn controller(alloc: Global) -> R<QoSController> {
    let mut controller = QoSController::empty(alloc)?;
    controller.add_resource(resource(alloc)?)?;
    Ok(controller)
}

impl Grows for RQSC {
    const WAYS: u8 = 1;

    fn empty(alloc: Global) -> R<RQSC> {
        Ok(RQSC::new(alloc, OEM, OEM_TABLE, OEM_REVISION))
    }

    fn grow(&mut self, alloc: Global, _way: u8) -> R<()> {
        self.add_controller(controller(alloc)?)
    }
}

fn clone_of_controller(trial: &mut Trial, alloc: Global) -> Result<(), Fault> {
    let source = trial.make(&0x80u8, || Ok(controller(alloc)?))?;
    let clone = trial.make(&source, || Ok(source.clone()?))?;
    trial.count_object(&clone)
}

fn clone_of_resource(trial: &mut Trial, alloc: Global) -> Result<(), Fault> {
    let source = trial.make(&0x80u8, || Ok(resource(alloc)?))?;
    let clone = trial.make(&source, || Ok(source.clone()?))?;
    trial.count_object(&clone)
}

fn clone_of_id(trial: &mut Trial, alloc: Global) -> Result<(), Fault> {
    let source = trial.make(&0x80u8, || Ok(id(alloc)?))?;
    let clone = trial.make(&source, || Ok(source.clone()?))?;
    trial.count_object(&clone)
}

/// Clones, each of which borrows its source.
pub fn clones(trial: &mut Trial, alloc: Global) -> Result<(), Fault> {
    clone_of_controller(trial, alloc)?;
    clone_of_resource(trial, alloc)?;
    clone_of_id(trial, alloc)
}
