//! Tables of structures that don't refer to each other.

ghost use Rattle.std.specs.Prelude.{length};

use crate::growing::Growing;
use acpi_tables::R;
use acpi_tables::cedt::{
    CEDT, CxlFixedMemory, InterleaveArithmetic, InterleaveGranularity, InterleaveWays,
};
use acpi_tables::gas::{AccessSize, AddressSpace, GAS};
use acpi_tables::hest::{
    self, GenericHardwareSource, HEST, NotificationStructure, NotificationType,
};
use acpi_tables::madt::{HartStatus, LocalInterruptController, MADT, RINTC};
use acpi_tables::mcfg::MCFG;
use acpi_tables::rqsc::{
    CacheResource, ControllerType, QoSController, RQSC, ResourceID, ResourceStructure, ResourceType,
};
use acpi_tables::srat::{MemoryAffinity, SRAT};
use acpi_tables::xsdt::XSDT;
use std::alloc::Global;
use test_support::{OEM, OEM_REVISION, OEM_TABLE};

/// Entries of 8 bytes.
impl Growing for XSDT {
    ghost structures = { λ t. length t.table.table.structures };

    ghost each = { 1 };

    fn empty(alloc: Global) -> XSDT {
        XSDT::new(alloc, OEM, OEM_TABLE, OEM_REVISION)
    }

    fn grow(&mut self, _alloc: Global, number: u32) -> R<()> {
        self.add_entry(0x1_0000_0000 + u64::from(number))
    }
}

/// Entries of 16 bytes.
impl Growing for MCFG {
    ghost structures = { λ t. length t.table.table.structures };

    ghost each = { 1 };

    fn empty(alloc: Global) -> MCFG {
        MCFG::new(alloc, OEM, OEM_TABLE, OEM_REVISION)
    }

    fn grow(&mut self, _alloc: Global, number: u32) -> R<()> {
        self.add_ecam(u64::from(number) << 20, 1, 0, 255)
    }
}

/// RISC-V interrupt controllers of 36 bytes.
impl Growing for MADT {
    ghost structures = { λ t. length t.table.table.structures };

    ghost each = { 1 };

    fn empty(alloc: Global) -> MADT {
        let local = LocalInterruptController::Riscv;
        MADT::new(alloc, OEM, OEM_TABLE, OEM_REVISION, local)
    }

    fn grow(&mut self, _alloc: Global, number: u32) -> R<()> {
        let hart = u64::from(number);
        self.add_structure(RINTC::new(HartStatus::Enabled, hart, number, 1, 0x2800_0000, 0x1000))
    }
}

/// Ranges of memory of 40 bytes.
impl Growing for SRAT {
    ghost structures = { λ t. length t.table.table.structures };

    ghost each = { 1 };

    fn empty(alloc: Global) -> SRAT {
        SRAT::new(alloc, OEM, OEM_TABLE, OEM_REVISION)
    }

    fn grow(&mut self, _alloc: Global, number: u32) -> R<()> {
        let range = MemoryAffinity::new(number, u64::from(number) << 30, 0x4000_0000);
        self.add_memory_affinity(range.enabled())
    }
}

/// Windows of 44 bytes, with two targets.
impl Growing for CEDT {
    ghost structures = { λ t. length t.table.table.structures };

    ghost each = { 1 };

    fn empty(alloc: Global) -> CEDT {
        CEDT::new(alloc, OEM, OEM_TABLE, OEM_REVISION)
    }

    fn grow(&mut self, alloc: Global, number: u32) -> R<()> {
        let mut window = CxlFixedMemory::new(
            alloc,
            u64::from(number) << 28,
            0x1000_0000,
            InterleaveArithmetic::Modulo,
            InterleaveGranularity::Granularity256b,
            InterleaveWays::Ways2,
            1,
        );
        window.add_target(*b"aaaa")?;
        window.add_target(number.to_le_bytes())?;
        self.add_fixed_memory(window)
    }
}

/// Generic hardware error sources of 64 bytes.
impl Growing for HEST {
    ghost structures = { λ t. length t.table.table.structures };

    ghost each = { 1 };

    fn empty(alloc: Global) -> HEST {
        HEST::new(alloc, OEM, OEM_TABLE, OEM_REVISION)
    }

    fn grow(&mut self, _alloc: Global, number: u32) -> R<()> {
        let address = 0x7fe0_0000 + u64::from(number);
        let register = GAS::new(
            AddressSpace::SystemMemory,
            64,
            0,
            AccessSize::QwordAccess,
            address,
        );
        let notification = NotificationStructure::new(NotificationType::Polled).poll_interval_ms(
            1000,
        );
        let source = GenericHardwareSource::new(
            (number % 65_536) as u16,
            hest::EnabledStatus::Enabled,
        ).num_records(1)
            .max_sections(1)
            .max_raw_length(0x1000)
            .error_status_address(register)
            .notification(notification)
            .error_status_block_len(0x1000);
        self.add_structure(source)
    }
}

/// Controllers of 48 bytes, with a cache each.
impl Growing for RQSC {
    ghost structures = { λ t. length t.table.table.structures };

    ghost each = { 1 };

    fn empty(alloc: Global) -> RQSC {
        RQSC::new(alloc, OEM, OEM_TABLE, OEM_REVISION)
    }

    fn grow(&mut self, alloc: Global, number: u32) -> R<()> {
        let address = u64::from(number) << 12;
        let register = GAS::new(
            AddressSpace::SystemMemory,
            64,
            0,
            AccessSize::QwordAccess,
            address,
        );
        let cache = ResourceID::Cache(CacheResource::new(number));
        let mut controller = QoSController::new(alloc, ControllerType::Capacity, register, 8, 8, 0);
        controller.add_resource(ResourceStructure::new(ResourceType::Cache, 0, cache))?;
        self.add_controller(controller)
    }
}
