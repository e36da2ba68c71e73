//! CEDT and its structures.

use crate::trial::Grows;
use acpi_tables::R;
use acpi_tables::cedt::{
    CEDT, CxlFixedMemory, CxlHostBridge, CxlVersion, InterleaveArithmetic, InterleaveGranularity,
    InterleaveWays, PortAssociation, ProtocolType, XorInterleaveMath,
};
use std::alloc::Global;
use test_support::{OEM, OEM_REVISION, OEM_TABLE};

/// A window of two ways. It can't be written before it has both targets, so one call makes it complete.
pub fn window(alloc: Global) -> R<CxlFixedMemory> {
    let mut window = CxlFixedMemory::new(
        alloc,
        0x1_0000_0000,
        0x4000_0000,
        InterleaveArithmetic::ModuloXor,
        InterleaveGranularity::Granularity256b,
        InterleaveWays::Ways2,
        1,
    );
    window.add_target(*b"abcd")?;
    window.add_target(*b"efgh")?;
    Ok(window)
}

impl Grows for XorInterleaveMath {
    const WAYS: u8 = 1;

    fn empty(alloc: Global) -> R<XorInterleaveMath> {
        Ok(XorInterleaveMath::new(alloc, InterleaveGranularity::Granularity256b))
    }

    fn grow(&mut self, _alloc: Global, _way: u8) -> R<()> {
        self.add_xormap(0x0102_0304)
    }
}

fn math(alloc: Global) -> R<XorInterleaveMath> {
    let mut math = XorInterleaveMath::new(alloc, InterleaveGranularity::Granularity256b);
    math.add_xormap(0x0102_0304)?;
    Ok(math)
}

impl Grows for CEDT {
    const WAYS: u8 = 4;

    fn empty(alloc: Global) -> R<CEDT> {
        Ok(CEDT::new(alloc, OEM, OEM_TABLE, OEM_REVISION))
    }

    fn grow(&mut self, alloc: Global, way: u8) -> R<()> {
        match way {
            0 => self.add_host_bridge(CxlHostBridge::new(7, CxlVersion::Cxl2, 0x1000_0000)),
            1 => self.add_fixed_memory(window(alloc)?),
            2 => self.add_xor_interleave_math(math(alloc)?),
            _ => {
                let port = PortAssociation::new(1, 2, 3, 4, ProtocolType::CxlIo, 5);
                self.add_port_association(port)
            }
        }
    }
}
