//! How a source notifies the operating system of an error.

ghost use Rattle.std.specs.Prelude.{◌≡◌};
ghost use Rattle.acpi_base.specs.Object.{whole, whole_ends_well};
ghost use Rattle.acpi_hest.specs.Notification.{type_number, notification, notification_bytes, no_notification};
ghost use Rattle.acpi_hest.specs.Notification.{notification_fields};

use acpi_base::error::R;
use acpi_base::object::Aml;
use acpi_base::row::{Bits, Record, Row, Word, record_of_numbers, write_record};
use acpi_base::sink::AmlSink;

/// The type of a notification (ACPI 6.5, 18.3.2.9, Type). The last four are those of RISC-V.
#[derive(Clone, Copy, Debug, Default)]
pub enum NotificationType {
    #[default]
    Polled = 0,
    ExternalIrq = 1,
    LocalIrq = 2,
    Sci = 3,
    Nmi = 4,
    Cmci = 5,
    Mce = 6,
    GpioSignal = 7,
    Armv8Sea = 8,
    Armv8Sei = 9,
    ExternalGsiv = 10,
    SoftwareException = 11,
    RiscvSupervisorSoftwareEvent = 12,
    RiscvLowPriorityRasInterrupt = 13,
    RiscvHighPriorityRasInterrupt = 14,
    RiscvHardwareErrorException = 15,
}

/// A Hardware Error Notification Structure (ACPI 6.5, 18.3.2.9): 28 bytes.
#[derive(Clone, Copy, Debug)]
pub struct NotificationStructure {
    kind: u8,
    length: u8,
    conf_write_en: u16,
    poll_interval_ms: u32,
    vector: u32,
    polling_threshold_value: u32,
    polling_threshold_window_ms: u32,
    error_threshold_value: u32,
    error_threshold_window_ms: u32,
}

impl NotificationStructure {
    /// A notification of this type, with its length of 28. Every other field is zero.
    pub fn new(kind: NotificationType) -> NotificationStructure
        ensures { result ≡ notification (type_number kind) 28 }
    {
        NotificationStructure {
            kind: kind as u8,
            length: 28,
            ..NotificationStructure::none()
        }
    }

    /// The 28 zeros of a source without a notification. Its length is zero, too.
    pub(crate) fn none() -> NotificationStructure
        ensures { result ≡ no_notification }
    {
        NotificationStructure {
            kind: 0,
            length: 0,
            conf_write_en: 0,
            poll_interval_ms: 0,
            vector: 0,
            polling_threshold_value: 0,
            polling_threshold_window_ms: 0,
            error_threshold_value: 0,
            error_threshold_window_ms: 0,
        }
    }

    /// Sets the bits that say which fields the operating system may write (offset 2).
    pub fn conf_write_en(mut self, conf_write_en: u16) -> NotificationStructure
        ensures { result ≡ record self { conf_write_en = conf_write_en } }
    {
        self.conf_write_en = conf_write_en;
        self
    }

    /// Sets the poll interval in milliseconds (offset 4).
    pub fn poll_interval_ms(mut self, poll_interval_ms: u32) -> NotificationStructure
        ensures { result ≡ record self { poll_interval_ms = poll_interval_ms } }
    {
        self.poll_interval_ms = poll_interval_ms;
        self
    }

    /// Sets the interrupt vector (offset 8).
    pub fn vector(mut self, vector: u32) -> NotificationStructure
        ensures { result ≡ record self { vector = vector } }
    {
        self.vector = vector;
        self
    }

    /// Sets the number of errors in the window at which the operating system switches to polling (offset 12).
    pub fn polling_threshold_value(mut self, polling_threshold_value: u32) -> NotificationStructure
        ensures { result ≡ record self { polling_threshold_value = polling_threshold_value } }
    {
        self.polling_threshold_value = polling_threshold_value;
        self
    }

    /// Sets the window of the polling threshold, in milliseconds (offset 16).
    pub fn polling_threshold_window_ms(
        mut self,
        polling_threshold_window_ms: u32,
    ) -> NotificationStructure
        ensures { result ≡ record self { polling_threshold_window_ms = polling_threshold_window_ms } }
    {
        self.polling_threshold_window_ms = polling_threshold_window_ms;
        self
    }

    /// Sets the number of errors in the window that make one notification (offset 20).
    pub fn error_threshold_value(mut self, error_threshold_value: u32) -> NotificationStructure
        ensures { result ≡ record self { error_threshold_value = error_threshold_value } }
    {
        self.error_threshold_value = error_threshold_value;
        self
    }

    /// Sets the window of the error threshold, in milliseconds (offset 24).
    pub fn error_threshold_window_ms(
        mut self,
        error_threshold_window_ms: u32,
    ) -> NotificationStructure
        ensures { result ≡ record self { error_threshold_window_ms = error_threshold_window_ms } }
    {
        self.error_threshold_window_ms = error_threshold_window_ms;
        self
    }
}

/// The rows of a Hardware Error Notification Structure.
pub const NOTIFICATION: [Row; 9] = [
    Row::OneOf(
        "Type",
        1,
        &[
            Word(0, "Polled"),
            Word(1, "External Interrupt"),
            Word(2, "Local Interrupt"),
            Word(3, "SCI"),
            Word(4, "NMI"),
            Word(5, "CMCI"),
            Word(6, "MCE"),
            Word(7, "GPIO-Signal"),
            Word(8, "ARMv8 SEA"),
            Word(9, "ARMv8 SEI"),
            Word(10, "External Interrupt - GSIV"),
            Word(11, "Software Delegated Exception"),
        ],
    ),
    Row::Number("Length", 1),
    Row::Flags(
        "Configuration Write Enable",
        2,
        &[
            Bits::Flag(0x1, "Type"),
            Bits::Flag(0x2, "Poll Interval"),
            Bits::Flag(0x4, "Switch To Polling Threshold Value"),
            Bits::Flag(0x8, "Switch To Polling Threshold Window"),
            Bits::Flag(0x10, "Error Threshold Value"),
            Bits::Flag(0x20, "Error Threshold Window"),
        ],
    ),
    Row::Number("Poll Interval", 4),
    Row::Number("Vector", 4),
    Row::Number("Switch To Polling Threshold Value", 4),
    Row::Number("Switch To Polling Threshold Window", 4),
    Row::Number("Error Threshold Value", 4),
    Row::Number("Error Threshold Window", 4),
];

impl Record<28> for NotificationStructure {
    ghost fields = { notification_fields };

    fn rows() -> &'static [Row] {
        &NOTIFICATION
    }

    fn bytes(&self) -> [u8; 28] {
        record_of_numbers(
            &NOTIFICATION,
            &[
                u64::from(self.kind),
                u64::from(self.length),
                u64::from(self.conf_write_en),
                u64::from(self.poll_interval_ms),
                u64::from(self.vector),
                u64::from(self.polling_threshold_value),
                u64::from(self.polling_threshold_window_ms),
                u64::from(self.error_threshold_value),
                u64::from(self.error_threshold_window_ms),
            ],
        )
    }
}

impl Aml for NotificationStructure {
    ghost object = { λ n. whole (notification_bytes n) };

    ghost ends_well = { λ n. whole_ends_well (notification_bytes n) };

    fn to_aml_bytes(&self, sink: &mut dyn AmlSink) -> R<()> {
        write_record(self, sink)
    }
}
