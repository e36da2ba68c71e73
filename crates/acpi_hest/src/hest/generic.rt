//! Generic hardware error sources.

ghost use Rattle.std.proofs.Common.{rules};
ghost use Rattle.std.specs.Prelude.{◌≡◌};
ghost use Rattle.acpi_base.specs.Fields.{AreRowsOf};
ghost use Rattle.acpi_base.specs.Object.{whole, whole_ends_well};
ghost use Rattle.acpi_hest.specs.Generic.{generic, generic_head_fields, generic_head, generic_bytes};
ghost use Rattle.acpi_hest.specs.Generic.{zero_unacknowledged, zero_acknowledged};
ghost use Rattle.acpi_hest.specs.declared.hest.generic.Generic.{Generic};
ghost use Rattle.acpi_hest.specs.Generic.{unacknowledged_fields, acknowledged_fields};

use crate::hest::aer::ENABLED;
use crate::hest::notification::NotificationStructure;
use crate::hest::tail::Tail;
use crate::parts::write_record_behind;
use acpi_base::error::R;
use acpi_base::gas::GAS;
use acpi_base::object::Aml;
use acpi_base::record::{Field, record};
use acpi_base::row::{Record, Row, Value, record_of, record_of_numbers};
use acpi_base::sink::AmlSink;

/// Whether a source is enabled (ACPI 6.5, 18.3.2, Enabled).
#[derive(Copy, Clone, Debug, PartialEq)]
pub enum EnabledStatus {
    Disabled = 0,
    Enabled = 1,
}

/// A generic hardware error source (ACPI 6.5, 18.3.2.7 and 18.3.2.8): 64 bytes, and the fields of its version.
#[derive(Clone, Copy, Debug)]
pub struct Generic<T, const N: usize> {
    source_id: u16,
    enabled: EnabledStatus,
    num_records: u32,
    max_sections: u32,
    max_raw_length: u32,
    error_status_address: GAS,
    notification: NotificationStructure,
    error_status_block_len: u32,
    tail: T,
}

impl<T: Tail<N>, const N: usize> Generic<T, N> {
    /// A source with this id (offset 2) and status, and without a related source. Every other field is zero. Until `notification`
    /// sets them, the 28 bytes of its notification are zero as well, and so is the length in them.
    pub fn new(source_id: u16, enabled: EnabledStatus) -> Generic<T, N>
        ensures { result ≡ generic T.zero source_id enabled }
    {
        Generic {
            source_id,
            enabled,
            num_records: 0,
            max_sections: 0,
            max_raw_length: 0,
            error_status_address: GAS::default(),
            notification: NotificationStructure::none(),
            error_status_block_len: 0,
            tail: T::zero(),
        }
    }

    /// Sets the number of error records to preallocate (offset 8).
    pub fn num_records(mut self, num_records: u32) -> Generic<T, N>
        ensures { result ≡ record self { num_records = num_records } }
    {
        self.num_records = num_records;
        self
    }

    /// Sets the greatest number of sections of a record (offset 12).
    pub fn max_sections(mut self, max_sections: u32) -> Generic<T, N>
        ensures { result ≡ record self { max_sections = max_sections } }
    {
        self.max_sections = max_sections;
        self
    }

    /// Sets the greatest number of bytes of an error's raw data (offset 16).
    pub fn max_raw_length(mut self, max_raw_length: u32) -> Generic<T, N>
        ensures { result ≡ record self { max_raw_length = max_raw_length } }
    {
        self.max_raw_length = max_raw_length;
        self
    }

    /// Sets the register that contains the address of the error status block (offset 20).
    pub fn error_status_address(mut self, error_status_address: GAS) -> Generic<T, N>
        ensures { result ≡ record self { error_status_address = error_status_address } }
    {
        self.error_status_address = error_status_address;
        self
    }

    /// Sets how the source notifies the operating system of an error (offset 32).
    pub fn notification(mut self, notification: NotificationStructure) -> Generic<T, N>
        ensures { result ≡ record self { notification = notification } }
    {
        self.notification = notification;
        self
    }

    /// Sets the number of bytes of the error status block (offset 60).
    pub fn error_status_block_len(mut self, error_status_block_len: u32) -> Generic<T, N>
        ensures { result ≡ record self { error_status_block_len = error_status_block_len } }
    {
        self.error_status_block_len = error_status_block_len;
        self
    }

    // The fields that both versions have.
    fn head(&self) -> [u8; 64]
        ensures { result ≡ generic_head T.KIND self.now }
    {
        let numbers: [u8; 20] = record_of_numbers(
            &GENERIC[..8],
            &[
                u64::from(T::KIND),
                u64::from(self.source_id),
                0xffff,
                0,
                self.enabled as u64,
                u64::from(self.num_records),
                u64::from(self.max_sections),
                u64::from(self.max_raw_length),
            ],
        );
        record(&[
            Field::Bytes(&numbers),
            Field::Bytes(&self.error_status_address.bytes()),
            Field::Bytes(&self.notification.bytes()),
            Field::DWord(self.error_status_block_len),
        ])
    }
}

/// The rows of a Generic Hardware Error Source that both versions have.
pub const GENERIC: [Row; 11] = [
    Row::Number("Type", 2),
    Row::Hex("Source Id", 2),
    Row::Hex("Related Source Id", 2),
    Row::Hex("Flags", 1),
    Row::OneOf("Enabled", 1, &ENABLED),
    Row::Number("Number of Records to Pre-allocate", 4),
    Row::Number("Max Sections Per Record", 4),
    Row::Number("Max Raw Data Length", 4),
    Row::Register("Error Status Address"),
    Row::Bytes("Notification Structure", 28),
    Row::Number("Error Status Block Length", 4),
];

/// The rows of the fields that both versions have, in order.
pub fn generic_rows<T: Tail<N>, const N: usize>() -> &'static [Row]
    ensures { (s : Generic T N) → AreRowsOf result.now (generic_head_fields T.KIND s) }
{
    &GENERIC
}

impl<T: Tail<N>, const N: usize> Aml for Generic<T, N> {
    ghost object = { λ s. whole (generic_bytes T.KIND T.fields s) };

    ghost ends_well = { λ s. whole_ends_well (generic_bytes T.KIND T.fields s) };

    fn to_aml_bytes(&self, sink: &mut dyn AmlSink) -> R<()> {
        write_record_behind(&self.head(), &self.tail, sink)
    }
}

/// A generic hardware error source: 64 bytes (ACPI 6.5, 18.3.2.7).
pub type GenericHardwareSource = Generic<Unacknowledged, 0>;

/// A generic hardware error source of version 2, whose errors the operating system acknowledges: 92 bytes (ACPI 6.5, 18.3.2.8).
pub type GenericHardwareSourceV2 = Generic<Acknowledged, 28>;

/// The further fields of a source of version 1: none.
#[derive(Clone, Copy, Debug, Default)]
pub struct Unacknowledged {}

/// The further fields of a source of version 2.
#[derive(Clone, Copy, Debug, Default)]
pub struct Acknowledged {
    read_ack_register: GAS,
    read_ack_preserve: u64,
    read_ack_write: u64,
}

/// The rows of the further fields of version 1: none.
pub const UNACKNOWLEDGED: [Row; 0] = [];

/// The rows of the further fields of version 2.
pub const ACKNOWLEDGED: [Row; 3] = [
    Row::Register("Read Ack Register"),
    Row::Hex("Read Ack Preserve", 8),
    Row::Hex("Read Ack Write", 8),
];

impl Record<0> for Unacknowledged {
    ghost fields = { unacknowledged_fields };

    fn rows() -> &'static [Row] {
        &UNACKNOWLEDGED
    }

    fn bytes(&self) -> [u8; 0] {
        record_of_numbers(&UNACKNOWLEDGED, &[])
    }
}

impl Record<28> for Acknowledged {
    ghost fields = { acknowledged_fields };

    fn rows() -> &'static [Row] {
        &ACKNOWLEDGED
    }

    fn bytes(&self) -> [u8; 28] {
        record_of(
            &ACKNOWLEDGED,
            &[
                Value::Bytes(&self.read_ack_register.bytes()),
                Value::Number(self.read_ack_preserve),
                Value::Number(self.read_ack_write),
            ],
        )
    }
}

impl Tail<0> for Unacknowledged {
    ghost KIND = { 9 };

    ghost zero = { zero_unacknowledged };

    const KIND: u16 = 9;

    fn zero() -> Unacknowledged {
        Unacknowledged::default()
    }

    ghost is_small = { Prim.search rules };
}

impl Tail<28> for Acknowledged {
    ghost KIND = { 10 };

    ghost zero = { zero_acknowledged };

    const KIND: u16 = 10;

    fn zero() -> Acknowledged {
        Acknowledged::default()
    }

    ghost is_small = { Prim.search rules };
}

impl GenericHardwareSourceV2 {
    /// Sets the register by which an error is acknowledged (offset 64).
    pub fn read_ack_register(mut self, read_ack_register: GAS) -> GenericHardwareSourceV2
        ensures { result ≡ record self { tail = record self.tail { read_ack_register = read_ack_register } } }
    {
        self.tail.read_ack_register = read_ack_register;
        self
    }

    /// Sets the bits of that register that an acknowledgement keeps (offset 76).
    pub fn read_ack_preserve(mut self, read_ack_preserve: u64) -> GenericHardwareSourceV2
        ensures { result ≡ record self { tail = record self.tail { read_ack_preserve = read_ack_preserve } } }
    {
        self.tail.read_ack_preserve = read_ack_preserve;
        self
    }

    /// Sets the bits of that register that an acknowledgement writes (offset 84).
    pub fn read_ack_write(mut self, read_ack_write: u64) -> GenericHardwareSourceV2
        ensures { result ≡ record self { tail = record self.tail { read_ack_write = read_ack_write } } }
    {
        self.tail.read_ack_write = read_ack_write;
        self
    }
}
