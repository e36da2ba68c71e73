//! WSMT: how firmware in system management mode protects itself.

ghost use Rattle.std.specs.Prelude.{◌≡◌};
ghost use Rattle.acpi_base.specs.Object.{whole, whole_ends_well};
ghost use Rattle.acpi_fixed.specs.Oem.{oem_of};
ghost use Rattle.acpi_fixed.specs.Wsmt.{wsmt_for, wsmt_fields, wsmt_bytes, with_protection};

use crate::sealed::write_table;
use acpi_base::error::R;
use acpi_base::object::Aml;
use acpi_base::oem::Oem;
use acpi_base::row::{Bits, Record, Row, record_of_numbers};
use acpi_base::sink::AmlSink;

// Protection flags (offset 36).
const FIXED_COMM_BUFFERS: u32 = 0x1;

const COMM_BUFFER_NESTED_PTR_PROTECTION: u32 = 0x2;

const SYSTEM_RESOURCE_PROTECTION: u32 = 0x4;

/// The Windows SMM Security Mitigations Table (Microsoft, WSMT 1.0): 40 bytes. It gives what firmware checks in system management
/// mode.
#[derive(Clone, Copy, Debug)]
pub struct WSMT {
    oem: Oem,
    flags: u32,
}

impl WSMT {
    /// A table without flags.
    pub fn new(oem_id: [u8; 6], oem_table_id: [u8; 8], oem_revision: u32) -> WSMT
        ensures { result ≡ wsmt_for (oem_of oem_id oem_table_id oem_revision) }
    {
        WSMT {
            oem: Oem::new(oem_id, oem_table_id, oem_revision),
            flags: 0,
        }
    }

    /// Sets FIXED_COMM_BUFFERS, protection flag 1 (offset 36): firmware checks that buffers for its input and output are in fixed
    /// ranges of memory.
    pub fn fixed_comm_buffers(mut self) -> WSMT
        ensures { result ≡ with_protection 1 self }
    {
        self.flags |= FIXED_COMM_BUFFERS;
        self
    }

    /// Sets COMM_BUFFER_NESTED_PTR_PROTECTION, protection flag 2 (offset 36), and flag 1, without which it isn't valid: firmware
    /// also checks pointers that are in its buffers.
    pub fn nested_ptr_protection(mut self) -> WSMT
        ensures { result ≡ with_protection 3 self }
    {
        self.flags |= FIXED_COMM_BUFFERS | COMM_BUFFER_NESTED_PTR_PROTECTION;
        self
    }

    /// Sets SYSTEM_RESOURCE_PROTECTION, protection flag 4 (offset 36): after the operating system has started, firmware changes
    /// the configuration of devices and memory in documented ways only.
    pub fn system_resource_protection(mut self) -> WSMT
        ensures { result ≡ with_protection 4 self }
    {
        self.flags |= SYSTEM_RESOURCE_PROTECTION;
        self
    }
}

/// The rows of a WSMT after its header.
pub const WSMT_ROWS: [Row; 1] = [Row::Flags(
    "Protection Flags",
    4,
    &[
        Bits::Flag(0x1, "FIXED_COMM_BUFFERS"),
        Bits::Flag(0x2, "COMM_BUFFER_NESTED_PTR_PROTECTION"),
        Bits::Flag(0x4, "SYSTEM_RESOURCE_PROTECTION"),
    ],
)];

/// The fields after the header.
impl Record<4> for WSMT {
    ghost fields = { wsmt_fields };

    fn rows() -> &'static [Row] {
        &WSMT_ROWS
    }

    fn bytes(&self) -> [u8; 4] {
        record_of_numbers(&WSMT_ROWS, &[u64::from(self.flags)])
    }
}

impl Aml for WSMT {
    ghost object = { λ t. whole (wsmt_bytes t) };

    ghost ends_well = { λ t. whole_ends_well (wsmt_bytes t) };

    fn to_aml_bytes(&self, sink: &mut dyn AmlSink) -> R<()> {
        write_table::<4, 40, WSMT>(*b"WSMT", 1, self.oem, self, sink)
    }
}
