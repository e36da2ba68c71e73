//! Remapping structures that end with device scopes.

ghost use Rattle.std.specs.Prelude.{◌≡◌, ◌+◌, ◌<◌, ◌++◌, bit_or, length};
ghost use Rattle.acpi_base.specs.Fields.{AreRowsOf};
ghost use Rattle.acpi_base.specs.Object.{whole, whole_ends_well};
ghost use Rattle.acpi_pc.specs.Dmar.{drhd, drhd_head_fields, drhd_head, drhd_bytes, rmrr, rmrr_head_fields, rmrr_head};
ghost use Rattle.acpi_pc.specs.Dmar.{rmrr_bytes};
ghost use Rattle.acpi_pc.specs.Dmar.{atsr, atsr_head_fields, atsr_head, atsr_bytes, satc, satc_head_fields, satc_head};
ghost use Rattle.acpi_pc.specs.Dmar.{satc_bytes, sidp, sidp_head_fields, sidp_head, sidp_bytes};
ghost use Rattle.acpi_pc.specs.DmarScopes.{scope_bytes};
ghost use Rattle.acpi_pc.specs.Grown.{Grows};
ghost use Rattle.acpi_pc.specs.declared.dmar.scoped.Atsr.{Atsr};
ghost use Rattle.acpi_pc.specs.declared.dmar.scoped.Drhd.{Drhd};
ghost use Rattle.acpi_pc.specs.declared.dmar.scoped.Rmrr.{Rmrr};
ghost use Rattle.acpi_pc.specs.declared.dmar.scoped.Satc.{Satc};
ghost use Rattle.acpi_pc.specs.declared.dmar.scoped.Sidp.{Sidp};

use crate::dmar::scope::DeviceScope;
use crate::tail::Tail;
use acpi_base::error::R;
use acpi_base::object::Aml;
use acpi_base::parts::write_parts;
use acpi_base::row::{Bits, Row, record_of_numbers};
use acpi_base::sink::AmlSink;
use std::alloc::Global;

// A flag of a remapping unit.
const INCLUDE_PCI_ALL: u8 = 1;

// A flag of root ports.
const ALL_PORTS: u8 = 1;

// A flag of integrated devices.
const ATC_REQUIRED: u8 = 1;

/// A remapping unit: 16 bytes, and its scopes (VT-d 4.1, 8.3, DMA Remapping Hardware Unit Definition).
#[derive(Drop)]
pub struct Drhd {
    flags: u8,
    pages: u8,
    segment: u16,
    base: u64,
    scopes: Tail<65519>,
}

impl Drhd {
    /// The unit of a PCI segment (offset 6) whose registers begin at a physical address (offset 8), and have 4 KiB. It has no
    /// flag and no scopes.
    pub fn new(alloc: Global, segment: u16, base: u64) -> Drhd
        ensures { result ≡ drhd segment base }
    {
        Drhd {
            flags: 0,
            pages: 0,
            segment,
            base,
            scopes: Tail::new(alloc),
        }
    }

    /// Sets flag 1 (offset 4): the unit is for all PCI devices of its segment that aren't in the scope of another unit.
    pub fn include_pci_all(mut self) -> Drhd
        ensures { result ≡ record self { flags = bit_or self.flags 1 } }
    {
        self.flags |= INCLUDE_PCI_ALL;
        self
    }

    /// Sets the size of the registers (offset 5): 2^`pages` pages of 4 KiB. The caller proves that `pages` is below 16.
    pub fn pages(mut self, pages: u8) -> Drhd
        requires pages { pages < 16 }
        ensures { result ≡ record self { pages = pages } }
    {
        self.pages = pages;
        self
    }

    /// Adds a scope. The error is `FieldWidth` if the structure would have more than 65,535 bytes. After an error it is
    /// unchanged.
    pub fn add_scope(&mut self, scope: &DeviceScope) -> R<()>
        ensures { Grows result self.old (record self.old { scopes = self.old.scopes ++ scope_bytes scope.now }) self.new
            (length self.old.scopes + length (scope_bytes scope.now)) 65519 }
    {
        self.scopes.push(&scope.head(), scope.path())
    }

    // The bytes of the structure before its scopes.
    fn head(&self) -> [u8; 16]
        ensures { result ≡ drhd_head self.now }
    {
        record_of_numbers(
            &DRHD,
            &[
                0,
                16 + self.scopes.as_slice().len() as u64,
                u64::from(self.flags),
                u64::from(self.pages),
                u64::from(self.segment),
                self.base,
            ],
        )
    }
}

/// The rows of a DRHD before its scopes.
pub const DRHD: [Row; 6] = [
    Row::Preset("Type", 2, 0),
    Row::Number("Length", 2),
    Row::Flags("Flags", 1, &[Bits::Flag(0x1, "INCLUDE_PCI_ALL")]),
    Row::Number("Size", 1),
    Row::Hex("Segment Number", 2),
    Row::Hex("Register Base Address", 8),
];

/// The rows of the fields before a unit's scopes, in order.
pub fn drhd_rows() -> &'static [Row]
    ensures { (d : Drhd) → AreRowsOf result.now (drhd_head_fields d) }
{
    &DRHD
}

/// A region of memory that devices use for DMA: 24 bytes, and its scopes (VT-d 4.1, 8.4, Reserved Memory Region Reporting).
#[derive(Drop)]
pub struct Rmrr {
    segment: u16,
    base: u64,
    limit: u64,
    scopes: Tail<65511>,
}

impl Rmrr {
    /// The region of a PCI segment (offset 6) from a physical address (offset 8) up to another, which is in it (offset 16). It
    /// has no scopes.
    pub fn new(alloc: Global, segment: u16, base: u64, limit: u64) -> Rmrr
        ensures { result ≡ rmrr segment base limit }
    {
        Rmrr {
            segment,
            base,
            limit,
            scopes: Tail::new(alloc),
        }
    }

    /// Adds a scope. The error is `FieldWidth` if the structure would have more than 65,535 bytes. After an error it is
    /// unchanged.
    pub fn add_scope(&mut self, scope: &DeviceScope) -> R<()>
        ensures { Grows result self.old (record self.old { scopes = self.old.scopes ++ scope_bytes scope.now }) self.new
            (length self.old.scopes + length (scope_bytes scope.now)) 65511 }
    {
        self.scopes.push(&scope.head(), scope.path())
    }

    // The bytes of the structure before its scopes.
    fn head(&self) -> [u8; 24]
        ensures { result ≡ rmrr_head self.now }
    {
        record_of_numbers(
            &RMRR,
            &[
                1,
                24 + self.scopes.as_slice().len() as u64,
                0,
                u64::from(self.segment),
                self.base,
                self.limit,
            ],
        )
    }
}

/// The rows of an RMRR before its scopes.
pub const RMRR: [Row; 6] = [
    Row::Preset("Type", 2, 1),
    Row::Number("Length", 2),
    Row::Reserved(2),
    Row::Hex("Segment Number", 2),
    Row::Hex("Reserved Memory Region Base Address", 8),
    Row::Hex("Reserved Memory Region Limit Address", 8),
];

/// The rows of the fields before a region's scopes, in order.
pub fn rmrr_rows() -> &'static [Row]
    ensures { (r : Rmrr) → AreRowsOf result.now (rmrr_head_fields r) }
{
    &RMRR
}

/// The root ports of a PCI segment that support address translation services: 8 bytes, and their scopes (VT-d 4.1, 8.5, Root Port
/// ATS Capability Reporting).
#[derive(Drop)]
pub struct Atsr {
    flags: u8,
    segment: u16,
    scopes: Tail<65527>,
}

impl Atsr {
    /// The root ports of a PCI segment (offset 6), without scopes.
    pub fn new(alloc: Global, segment: u16) -> Atsr
        ensures { result ≡ atsr segment }
    {
        Atsr {
            flags: 0,
            segment,
            scopes: Tail::new(alloc),
        }
    }

    /// Sets flag 1 (offset 4): all root ports of the segment support address translation services.
    pub fn all_ports(mut self) -> Atsr
        ensures { result ≡ record self { flags = bit_or self.flags 1 } }
    {
        self.flags |= ALL_PORTS;
        self
    }

    /// Adds a scope. The error is `FieldWidth` if the structure would have more than 65,535 bytes. After an error it is
    /// unchanged.
    pub fn add_scope(&mut self, scope: &DeviceScope) -> R<()>
        ensures { Grows result self.old (record self.old { scopes = self.old.scopes ++ scope_bytes scope.now }) self.new
            (length self.old.scopes + length (scope_bytes scope.now)) 65527 }
    {
        self.scopes.push(&scope.head(), scope.path())
    }

    // The bytes of the structure before its scopes.
    fn head(&self) -> [u8; 8]
        ensures { result ≡ atsr_head self.now }
    {
        record_of_numbers(
            &ATSR,
            &[
                2,
                8 + self.scopes.as_slice().len() as u64,
                u64::from(self.flags),
                0,
                u64::from(self.segment),
            ],
        )
    }
}

/// The rows of an ATSR before its scopes.
pub const ATSR: [Row; 5] = [
    Row::Preset("Type", 2, 2),
    Row::Number("Length", 2),
    Row::Flags("Flags", 1, &[Bits::Flag(0x1, "ALL_PORTS")]),
    Row::Reserved(1),
    Row::Hex("Segment Number", 2),
];

/// The rows of the fields before the scopes of root ports, in order.
pub fn atsr_rows() -> &'static [Row]
    ensures { (a : Atsr) → AreRowsOf result.now (atsr_head_fields a) }
{
    &ATSR
}

/// The integrated devices of a PCI segment that have an address translation cache: 8 bytes, and their scopes (VT-d 4.1, 8.8, SoC
/// Integrated Address Translation Cache Reporting).
#[derive(Drop)]
pub struct Satc {
    flags: u8,
    segment: u16,
    scopes: Tail<65527>,
}

impl Satc {
    /// The integrated devices of a PCI segment (offset 6), without scopes.
    pub fn new(alloc: Global, segment: u16) -> Satc
        ensures { result ≡ satc segment }
    {
        Satc {
            flags: 0,
            segment,
            scopes: Tail::new(alloc),
        }
    }

    /// Sets flag 1 (offset 4): the devices need their caches to work.
    pub fn atc_required(mut self) -> Satc
        ensures { result ≡ record self { flags = bit_or self.flags 1 } }
    {
        self.flags |= ATC_REQUIRED;
        self
    }

    /// Adds a scope. The error is `FieldWidth` if the structure would have more than 65,535 bytes. After an error it is
    /// unchanged.
    pub fn add_scope(&mut self, scope: &DeviceScope) -> R<()>
        ensures { Grows result self.old (record self.old { scopes = self.old.scopes ++ scope_bytes scope.now }) self.new
            (length self.old.scopes + length (scope_bytes scope.now)) 65527 }
    {
        self.scopes.push(&scope.head(), scope.path())
    }

    // The bytes of the structure before its scopes.
    fn head(&self) -> [u8; 8]
        ensures { result ≡ satc_head self.now }
    {
        record_of_numbers(
            &SATC,
            &[
                5,
                8 + self.scopes.as_slice().len() as u64,
                u64::from(self.flags),
                0,
                u64::from(self.segment),
            ],
        )
    }
}

/// The rows of a SATC before its scopes.
pub const SATC: [Row; 5] = [
    Row::Preset("Type", 2, 5),
    Row::Number("Length", 2),
    Row::Flags("Flags", 1, &[Bits::Flag(0x1, "ATC_REQUIRED")]),
    Row::Reserved(1),
    Row::Hex("Segment Number", 2),
];

/// The rows of the fields before the scopes of integrated devices, in order.
pub fn satc_rows() -> &'static [Row]
    ensures { (s : Satc) → AreRowsOf result.now (satc_head_fields s) }
{
    &SATC
}

/// Integrated devices whose scopes have flags of their own: 8 bytes, and their scopes (VT-d 4.1, 8.9, SoC Integrated Device
/// Property Reporting).
#[derive(Drop)]
pub struct Sidp {
    segment: u16,
    scopes: Tail<65527>,
}

impl Sidp {
    /// The integrated devices of a PCI segment (offset 6), without scopes.
    pub fn new(alloc: Global, segment: u16) -> Sidp
        ensures { result ≡ sidp segment }
    {
        Sidp {
            segment,
            scopes: Tail::new(alloc),
        }
    }

    /// Adds a scope. The error is `FieldWidth` if the structure would have more than 65,535 bytes. After an error it is
    /// unchanged.
    pub fn add_scope(&mut self, scope: &DeviceScope) -> R<()>
        ensures { Grows result self.old (record self.old { scopes = self.old.scopes ++ scope_bytes scope.now }) self.new
            (length self.old.scopes + length (scope_bytes scope.now)) 65527 }
    {
        self.scopes.push(&scope.head(), scope.path())
    }

    // The bytes of the structure before its scopes.
    fn head(&self) -> [u8; 8]
        ensures { result ≡ sidp_head self.now }
    {
        record_of_numbers(
            &SIDP,
            &[
                6,
                8 + self.scopes.as_slice().len() as u64,
                0,
                u64::from(self.segment),
            ],
        )
    }
}

/// The rows of an SIDP before its scopes.
pub const SIDP: [Row; 4] = [
    Row::Preset("Type", 2, 6),
    Row::Number("Length", 2),
    Row::Reserved(2),
    Row::Hex("Segment Number", 2),
];

/// The rows of the fields before the scopes of devices with flags of their own, in order.
pub fn sidp_rows() -> &'static [Row]
    ensures { (s : Sidp) → AreRowsOf result.now (sidp_head_fields s) }
{
    &SIDP
}

impl Aml for Drhd {
    ghost object = { λ d. whole (drhd_bytes d) };

    ghost ends_well = { λ d. whole_ends_well (drhd_bytes d) };

    fn to_aml_bytes(&self, sink: &mut dyn AmlSink) -> R<()> {
        write_parts(sink, &[&self.head(), self.scopes.as_slice()])
    }
}

impl Aml for Rmrr {
    ghost object = { λ r. whole (rmrr_bytes r) };

    ghost ends_well = { λ r. whole_ends_well (rmrr_bytes r) };

    fn to_aml_bytes(&self, sink: &mut dyn AmlSink) -> R<()> {
        write_parts(sink, &[&self.head(), self.scopes.as_slice()])
    }
}

impl Aml for Atsr {
    ghost object = { λ a. whole (atsr_bytes a) };

    ghost ends_well = { λ a. whole_ends_well (atsr_bytes a) };

    fn to_aml_bytes(&self, sink: &mut dyn AmlSink) -> R<()> {
        write_parts(sink, &[&self.head(), self.scopes.as_slice()])
    }
}

impl Aml for Satc {
    ghost object = { λ s. whole (satc_bytes s) };

    ghost ends_well = { λ s. whole_ends_well (satc_bytes s) };

    fn to_aml_bytes(&self, sink: &mut dyn AmlSink) -> R<()> {
        write_parts(sink, &[&self.head(), self.scopes.as_slice()])
    }
}

impl Aml for Sidp {
    ghost object = { λ s. whole (sidp_bytes s) };

    ghost ends_well = { λ s. whole_ends_well (sidp_bytes s) };

    fn to_aml_bytes(&self, sink: &mut dyn AmlSink) -> R<()> {
        write_parts(sink, &[&self.head(), self.scopes.as_slice()])
    }
}
