//! The machine that the tables of `acpi_example arm` describe: QEMU's `virt` with a GIC of version 3, an interrupt translation
//! service and an SMMU of version 3, and two processors.

/// The number of processors. Their ids are 0, 1 and so on, in the MADT and in the namespace.
pub const PROCESSORS: u8 = 2;

/// The address of the GIC's distributor.
pub const DISTRIBUTOR: u64 = 0x0800_0000;

/// The address of the interrupt translation service.
pub const TRANSLATION_SERVICE: u64 = 0x0808_0000;

/// The id of the interrupt translation service.
pub const TRANSLATION_SERVICE_ID: u32 = 0;

/// The address of the redistributors.
pub const REDISTRIBUTORS: u64 = 0x080a_0000;

/// The bytes of the redistributors.
pub const REDISTRIBUTOR_BYTES: u32 = 0x00f6_0000;

/// The interrupt of the performance monitors of a processor.
pub const PERFORMANCE_INTERRUPT: u32 = 23;

/// The maintenance interrupt of the GIC's virtual interfaces.
pub const MAINTENANCE_INTERRUPT: u32 = 25;

/// The interrupts of the timers of a processor: of EL2, the virtual one of EL1, and the secure and the non-secure one of EL1.
pub const TIMER_EL2: u32 = 26;

pub const TIMER_VIRTUAL: u32 = 27;

pub const TIMER_SECURE: u32 = 29;

pub const TIMER_NON_SECURE: u32 = 30;

/// The address of the PL011.
pub const SERIAL_PORT: u32 = 0x0900_0000;

/// The bytes of its registers.
pub const SERIAL_BYTES: u32 = 0x1000;

/// Its interrupt.
pub const SERIAL_INTERRUPT: u32 = 33;

/// Its full name in the namespace.
pub const SERIAL_NAME: &str = "\\_SB.COM0";

/// The address of the SMMU's registers.
pub const SMMU: u64 = 0x0905_0000;

/// The interrupts of the SMMU: of events, page requests, synchronization and global errors.
pub const SMMU_EVENTS: u32 = 106;

pub const SMMU_PAGE_REQUESTS: u32 = 107;

pub const SMMU_SYNCHRONIZATION: u32 = 108;

pub const SMMU_ERRORS: u32 = 109;

/// The address of the configuration space of PCI, which has a MiB for each bus.
pub const CONFIGURATION_SPACE: u64 = 0x40_1000_0000;

/// The last bus of PCI.
pub const LAST_BUS: u8 = 0xff;

/// The first and the last address of the memory for devices of PCI.
pub const DEVICE_MEMORY: u32 = 0x1000_0000;

pub const DEVICE_MEMORY_END: u32 = 0x3efe_ffff;

/// The address at which the I/O ports of PCI begin.
pub const DEVICE_PORTS: u32 = 0x3eff_0000;
