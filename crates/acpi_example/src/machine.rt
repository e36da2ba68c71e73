//! The machine that the tables describe: QEMU's q35 with 512 MiB, and two packages of one processor each.

/// The number of processors. Their ids are 0, 1 and so on, in the MADT, in the SRAT and in the namespace.
pub const PROCESSORS: u8 = 2;

/// The bytes of memory of each of the two domains. The first domain begins at address 0.
pub const MEMORY_OF_A_DOMAIN: u64 = 0x1000_0000;

/// The address of the local APICs.
pub const LOCAL_APIC: u32 = 0xfee0_0000;

/// The address of the I/O APIC.
pub const IO_APIC: u32 = 0xfec0_0000;

/// The address of the configuration space of PCI, which has a MiB for each bus.
pub const CONFIGURATION_SPACE: u64 = 0xb000_0000;

/// The last bus of PCI.
pub const LAST_BUS: u8 = 0xff;

/// The first address of the memory for devices.
pub const DEVICE_MEMORY: u32 = 0xc000_0000;

/// The last address of the memory for devices.
pub const DEVICE_MEMORY_END: u32 = 0xfebf_ffff;

/// The first I/O port of the serial port.
pub const SERIAL_PORTS: u16 = 0x3f8;

/// The interrupt of the serial port.
pub const SERIAL_INTERRUPT: u32 = 4;

/// The interrupt of ACPI's fixed hardware.
pub const SCI: u8 = 9;

/// The first I/O port of the PM1 event registers, which have 4 bytes.
pub const EVENT_PORTS: u32 = 0x600;

/// The first I/O port of the PM1 control register, which has 2 bytes.
pub const CONTROL_PORTS: u32 = 0x604;

/// The first I/O port of the power management timer, which has 4 bytes.
pub const TIMER_PORTS: u32 = 0x608;

/// The first I/O port of the general-purpose event registers.
pub const GENERAL_EVENT_PORTS: u32 = 0x620;

/// The bytes of the general-purpose event registers.
pub const GENERAL_EVENT_BYTES: u8 = 16;

/// The page to which firmware writes errors, as an offset from the base of the tables.
pub const ERROR_STATUS: u64 = 0x10_0000;

/// The page to which firmware writes the errors of the boot before, as an offset from the base of the tables.
pub const BOOT_ERRORS: u64 = 0x11_0000;

/// The bytes of a page of errors.
pub const ERROR_PAGE: u32 = 0x1000;

/// The bytes from the base of the tables to the end of the pages of errors.
pub const BYTES_FROM_BASE: u64 = 0x11_1000;
