//! PCCT and its subspaces.

use crate::short::{starve_all, starve_made};
use acpi_tables::R;
use acpi_tables::gas::GAS;
use acpi_tables::pcct::{
    AcknowledgedSubspace, Channel, Doorbell, ExtendedChannel, ExtendedSubspace, GenericSubspace,
    Interrupt, Masked, PCCT, ReducedSubspace, RegisterChannel, RegistersSubspace, Role,
};
use std::alloc::Global;
use std::test::Fail;
use test_support::{OEM, OEM_REVISION, OEM_TABLE};

fn doorbell() -> Doorbell {
    Doorbell {
        register: GAS::default(),
        preserve: 1,
        write: 2,
    }
}

fn masked() -> Masked {
    Masked {
        register: GAS::default(),
        mask: 3,
    }
}

fn channel() -> Channel {
    Channel {
        base: 4,
        size: 5,
        doorbell: doorbell(),
        latency: 6,
        access_rate: 7,
        turnaround: 8,
    }
}

fn extended_channel() -> ExtendedChannel {
    ExtendedChannel {
        base: 4,
        size: 5,
        doorbell: doorbell(),
        latency: 6,
        access_rate: 7,
        turnaround: 8,
        acknowledge: doorbell(),
        complete: masked(),
        update: doorbell(),
        error: masked(),
    }
}

fn register_channel() -> RegisterChannel {
    RegisterChannel {
        version: 9,
        base: 4,
        size: 5,
        doorbell: doorbell(),
        complete: masked(),
        error: masked(),
        latency: 6,
        turnaround: 8,
    }
}

fn pcct(alloc: Global) -> R<PCCT> {
    let mut pcct = PCCT::new(alloc, OEM, OEM_TABLE, OEM_REVISION, 0);
    pcct.add_generic(GenericSubspace::new(channel()))?;
    Ok(pcct)
}

#[test]
fn subspaces(rt: HostRuntime) -> Result<(), Fail> {
    let alloc = rt.alloc();
    let (interrupt, channel) = (Interrupt::new(10), channel());
    starve_made(alloc, 110, pcct(alloc))?;
    starve_all(
        alloc,
        &[
            (62, &GenericSubspace::new(channel)),
            (62, &ReducedSubspace::new(interrupt, channel)),
            (
                90,
                &AcknowledgedSubspace::new(interrupt, channel, doorbell()),
            ),
            (
                164,
                &ExtendedSubspace::new(Role::Initiator, interrupt, extended_channel()),
            ),
            (96, &RegistersSubspace::new(register_channel())),
        ],
    )
}
