//! The maker of the tables, as every header has it (ACPI 6.5, 5.2.6).

pub const OEM_ID: [u8; 6] = *b"FOOBAR";

pub const OEM_TABLE_ID: [u8; 8] = *b"CAFEDEAD";

pub const OEM_REVISION: u32 = 0xdead_beef;
