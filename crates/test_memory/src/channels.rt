//! PCCT and its subspaces.

use crate::trial::Grows;
use acpi_tables::R;
use acpi_tables::gas::GAS;
use acpi_tables::pcct::{
    AcknowledgedSubspace, Channel, Doorbell, ExtendedChannel, ExtendedSubspace, GenericSubspace,
    Interrupt, Masked, PCCT, PLATFORM_INTERRUPT, ReducedSubspace, RegisterChannel,
    RegistersSubspace, Role,
};
use std::alloc::Global;
use test_support::{OEM, OEM_REVISION, OEM_TABLE};

fn doorbell() -> Doorbell {
    Doorbell {
        register: GAS::default(),
        preserve: 1,
        write: 2,
    }
}

fn masked() -> Masked {
    Masked {
        register: GAS::default(),
        mask: 3,
    }
}

fn channel() -> Channel {
    Channel {
        base: 0x1000,
        size: 0x100,
        doorbell: doorbell(),
        latency: 4,
        access_rate: 5,
        turnaround: 6,
    }
}

fn extended_channel() -> ExtendedChannel {
    ExtendedChannel {
        base: 0x1000,
        size: 0x100,
        doorbell: doorbell(),
        latency: 4,
        access_rate: 5,
        turnaround: 6,
        acknowledge: doorbell(),
        complete: masked(),
        update: doorbell(),
        error: masked(),
    }
}

fn register_channel() -> RegisterChannel {
    RegisterChannel {
        version: 7,
        base: 0x1000,
        size: 0x100,
        doorbell: doorbell(),
        complete: masked(),
        error: masked(),
        latency: 4,
        turnaround: 6,
    }
}

impl Grows for PCCT {
    const WAYS: u8 = 5;

    fn empty(alloc: Global) -> R<PCCT> {
        Ok(PCCT::new(alloc, OEM, OEM_TABLE, OEM_REVISION, PLATFORM_INTERRUPT))
    }

    fn grow(&mut self, _alloc: Global, way: u8) -> R<()> {
        let interrupt = Interrupt::new(8);
        match way {
            0 => self.add_generic(GenericSubspace::new(channel())),
            1 => self.add_reduced(ReducedSubspace::new(interrupt, channel())),
            2 => {
                let subspace = AcknowledgedSubspace::new(interrupt, channel(), doorbell());
                self.add_acknowledged(subspace)
            }
            3 => {
                let subspace = ExtendedSubspace::new(
                    Role::Responder,
                    interrupt,
                    extended_channel(),
                );
                self.add_extended(subspace)
            }
            _ => self.add_registers(RegistersSubspace::new(register_channel())),
        }
    }
}
