//! The numbers that tables of one machine have from each other, and the findings of a machine's table.

ghost use Rattle.std.specs.Prelude.{◌≡◌, ◌++◌, map, IfOk, OnOk};
ghost use Rattle.acpi_rules.specs.Across.{links_findings};
ghost use Rattle.acpi_rules.specs.Finding.{noted};
ghost use Rattle.acpi_rules.specs.Machine.{affinities, named, machine_findings};

use crate::across::check_links;
use crate::demand::Of::{Each, Entries, Kind, Whole};
use crate::demand::When::{Always, Is};
use crate::demand::{Among, Spot};
use crate::finding::Finding;
use crate::link::Wanted::{Below, Index, OneOf};
use crate::link::{Column, Link};
use crate::single::{check_copies, check_singles};
use acpi_base::walk::Place::{DWord, Nowhere, Word};
use acpi_text::form::Count::Field as FieldCount;
use std::alloc::{AllocError, Global};

// A field of a part of a table.
macro_rules! spot {
    ($offset:literal, $width:literal, $name:literal) => {
        Spot {
            offset: $offset,
            width: $width,
            name: $name,
        }
    };
}

// A number in two fields: its low bytes, and its high ones.
macro_rules! wide {
    ($table:literal, $of:expr, $when:expr, $low:expr, $high:expr) => {
        Column {
            table: $table,
            among: Among {
                of: $of,
                when: $when,
            },
            low: $low,
            high: $high,
        }
    };
}

// A number in one field.
macro_rules! column {
    ($table:literal, $of:expr, $when:expr, $spot:expr) => {
        wide!($table, $of, $when, $spot, spot!(0, 0, ""))
    };
}

// A rule on numbers of one table, and those of others.
macro_rules! link {
    ($column:expr, $wanted:expr, $other:literal, $section:literal) => {
        Link {
            column: $column,
            wanted: $wanted,
            other: $other,
            section: $section,
        }
    };
}

// ---- numbers that tables define

// The numbers by which a SRAT names a processor (ACPI 6.5, 5.2.12).
#[rattlefmt::skip]
const PROCESSORS: [Column; 4] = [
    column!("APIC", Kind(0), Always, spot!(3, 1, "APIC ID")),
    column!("APIC", Kind(7), Always, spot!(3, 1, "Local SAPIC ID")),
    column!("APIC", Kind(9), Always, spot!(4, 4, "X2APIC ID")),
    column!("APIC", Kind(17), Always, spot!(7, 4, "Physical Processor ID")),
];

// The identifiers of processors (ACPI 6.5, 5.2.12).
#[rattlefmt::skip]
const UIDS: [Column; 6] = [
    column!("APIC", Kind(0), Always, spot!(2, 1, "ACPI Processor UID")),
    column!("APIC", Kind(7), Always, spot!(12, 4, "ACPI Processor UID Value")),
    column!("APIC", Kind(9), Always, spot!(12, 4, "ACPI Processor UID")),
    column!("APIC", Kind(11), Always, spot!(8, 4, "ACPI Processor UID")),
    column!("APIC", Kind(17), Always, spot!(3, 4, "ACPI Processor ID")),
    column!("APIC", Kind(24), Always, spot!(16, 4, "ACPI Processor UID")),
];

// The ACPI Processor UIDs of GICCs (ACPI 6.5, 5.2.12.14).
#[rattlefmt::skip]
const GICCS: [Column; 1] = [
    column!("APIC", Kind(11), Always, spot!(8, 4, "ACPI Processor UID")),
];

// The ACPI Processor UIDs of RISC-V harts (ACPI 6.6, 5.2.12).
#[rattlefmt::skip]
const RINTCS: [Column; 1] = [
    column!("APIC", Kind(24), Always, spot!(16, 4, "ACPI Processor UID")),
];

// Interrupt translation services (5.2.12.18).
#[rattlefmt::skip]
const ITSS: [Column; 1] = [
    column!("APIC", Kind(15), Always, spot!(4, 4, "GIC ITS ID")),
];

// Proximity domains (5.2.16).
#[rattlefmt::skip]
const DOMAINS: [Column; 8] = [
    wide!("SRAT", Kind(0), Is(DWord(4), 1, 1), spot!(2, 1, "Proximity Domain [7-0]"),
        spot!(9, 3, "Proximity Domain [31-8]")),
    column!("SRAT", Kind(1), Is(DWord(28), 1, 1), spot!(2, 4, "Proximity Domain")),
    column!("SRAT", Kind(2), Is(DWord(12), 1, 1), spot!(4, 4, "Proximity Domain")),
    column!("SRAT", Kind(3), Is(DWord(10), 1, 1), spot!(2, 4, "Proximity Domain")),
    column!("SRAT", Kind(4), Always, spot!(2, 4, "Proximity Domain")),
    column!("SRAT", Kind(5), Is(DWord(24), 1, 1), spot!(4, 4, "Proximity Domain")),
    column!("SRAT", Kind(6), Is(DWord(24), 1, 1), spot!(4, 4, "Proximity Domain")),
    column!("SRAT", Kind(7), Is(DWord(12), 1, 1), spot!(4, 4, "Proximity Domain")),
];

// The number of localities (5.2.17).
#[rattlefmt::skip]
const LOCALITIES: Column = column!("SLIT", Whole, Always, spot!(36, 8, "Number of System Localities"));

// Subspaces of platform communication channels (14.1).
#[rattlefmt::skip]
const SUBSPACES: Column = column!("PCCT", Each, Always, spot!(0, 1, "Type"));

// ---- rules

/// The rules on numbers of processors, and of proximity domains, in a SRAT.
#[rattlefmt::skip]
pub const AFFINITIES: [Link; 13] = [
    link!(column!("SRAT", Kind(0), Is(DWord(4), 1, 1), spot!(3, 1, "APIC ID")),
        OneOf(&PROCESSORS), "APIC ID, Local SAPIC ID, X2APIC ID or Physical Processor ID of APIC", "ACPI 6.5, 5.2.16.1"),
    link!(column!("SRAT", Kind(2), Is(DWord(12), 1, 1), spot!(8, 4, "X2APIC ID")),
        OneOf(&PROCESSORS), "APIC ID, Local SAPIC ID, X2APIC ID or Physical Processor ID of APIC", "ACPI 6.5, 5.2.16.3"),
    link!(column!("SRAT", Kind(3), Is(DWord(10), 1, 1), spot!(6, 4, "ACPI Processor UID")),
        OneOf(&GICCS), "ACPI Processor UID of APIC", "ACPI 6.5, 5.2.16.4"),
    link!(column!("SRAT", Kind(4), Always, spot!(8, 4, "ITS ID")),
        OneOf(&ITSS), "GIC ITS ID of APIC", "ACPI 6.5, 5.2.16.5"),
    link!(column!("SRAT", Kind(7), Is(DWord(12), 1, 1), spot!(8, 4, "ACPI Processor UID")),
        OneOf(&RINTCS), "ACPI Processor UID of APIC", "ACPI 6.6, 5.2.16"),
    link!(wide!("SRAT", Kind(0), Is(DWord(4), 1, 1), spot!(2, 1, "Proximity Domain [7-0]"),
        spot!(9, 3, "Proximity Domain [31-8]")),
        Below(LOCALITIES), "Number of System Localities of SLIT", "ACPI 6.5, 5.2.17"),
    link!(column!("SRAT", Kind(1), Is(DWord(28), 1, 1), spot!(2, 4, "Proximity Domain")),
        Below(LOCALITIES), "Number of System Localities of SLIT", "ACPI 6.5, 5.2.17"),
    link!(column!("SRAT", Kind(2), Is(DWord(12), 1, 1), spot!(4, 4, "Proximity Domain")),
        Below(LOCALITIES), "Number of System Localities of SLIT", "ACPI 6.5, 5.2.17"),
    link!(column!("SRAT", Kind(3), Is(DWord(10), 1, 1), spot!(2, 4, "Proximity Domain")),
        Below(LOCALITIES), "Number of System Localities of SLIT", "ACPI 6.5, 5.2.17"),
    link!(column!("SRAT", Kind(4), Always, spot!(2, 4, "Proximity Domain")),
        Below(LOCALITIES), "Number of System Localities of SLIT", "ACPI 6.5, 5.2.17"),
    link!(column!("SRAT", Kind(5), Is(DWord(24), 1, 1), spot!(4, 4, "Proximity Domain")),
        Below(LOCALITIES), "Number of System Localities of SLIT", "ACPI 6.5, 5.2.17"),
    link!(column!("SRAT", Kind(6), Is(DWord(24), 1, 1), spot!(4, 4, "Proximity Domain")),
        Below(LOCALITIES), "Number of System Localities of SLIT", "ACPI 6.5, 5.2.17"),
    link!(column!("SRAT", Kind(7), Is(DWord(12), 1, 1), spot!(4, 4, "Proximity Domain")),
        Below(LOCALITIES), "Number of System Localities of SLIT", "ACPI 6.5, 5.2.17"),
];

/// The rules on numbers in other tables.
#[rattlefmt::skip]
pub const NAMED: [Link; 11] = [
    link!(column!("HMAT", Kind(0), Is(Word(8), 1, 1), spot!(12, 4, "Proximity Domain for the Attached Initiator")),
        OneOf(&DOMAINS), "Proximity Domain of SRAT", "ACPI 6.5, 5.2.28.3"),
    link!(column!("HMAT", Kind(0), Always, spot!(16, 4, "Proximity Domain for the Memory")),
        OneOf(&DOMAINS), "Proximity Domain of SRAT", "ACPI 6.5, 5.2.28.3"),
    link!(column!("HMAT", Entries(1, Nowhere, 32, FieldCount(DWord(12)), 4), Always, spot!(0, 4, "Initiator Proximity Domain")),
        OneOf(&DOMAINS), "Proximity Domain of SRAT", "ACPI 6.5, 5.2.28.4"),
    link!(column!("HMAT", Kind(2), Always, spot!(8, 4, "Proximity Domain for the Memory")),
        OneOf(&DOMAINS), "Proximity Domain of SRAT", "ACPI 6.5, 5.2.28.5"),
    link!(column!("NFIT", Kind(0), Is(Word(6), 2, 2), spot!(12, 4, "Proximity Domain")),
        OneOf(&DOMAINS), "Proximity Domain of SRAT", "ACPI 6.5, 5.2.26.2"),
    link!(column!("PPTT", Kind(0), Is(DWord(4), 10, 10), spot!(12, 4, "ACPI Processor ID")),
        OneOf(&UIDS), "ACPI Processor UID of APIC", "ACPI 6.5, 5.2.30.1"),
    link!(column!("RHCT", Kind(65535), Always, spot!(8, 4, "ACPI Processor UID")),
        OneOf(&RINTCS), "ACPI Processor UID of APIC", "ACPI 6.6"),
    link!(column!("IORT", Entries(0, Nowhere, 20, FieldCount(DWord(16)), 4), Always, spot!(0, 4, "GIC ITS Identifier")),
        OneOf(&ITSS), "GIC ITS ID of APIC", "Arm DEN0049E.d"),
    link!(column!("MPST", Whole, Always, spot!(36, 1, "MPST Platform Communication Channel Identifier")),
        Index(SUBSPACES), "number of structures of PCCT", "ACPI 6.5, 5.2.22"),
    link!(column!("PDTT", Each, Always, spot!(0, 1, "Platform Communication Channel Identifier")),
        Index(SUBSPACES), "number of structures of PCCT", "ACPI 6.5, 5.2.29"),
    link!(column!("RAS2", Each, Always, spot!(0, 1, "PCC Identifier")),
        Index(SUBSPACES), "number of structures of PCCT", "ACPI 6.5, 5.2.21"),
];

fn check_affinities<'a>(
    alloc: Global,
    tables: &[&[u8]],
    table: &'a [u8],
    findings: &mut Vec<Finding<'a>>,
) -> Result<(), AllocError>
    ensures { OnOk result (map noted findings.new.items ≡ map noted findings.old.items
        ++ links_findings affinities (map (λ table. table.now) tables.now) table.now) }
{
    check_links(alloc, &AFFINITIES, tables, table, findings)
}

fn check_named<'a>(
    alloc: Global,
    tables: &[&[u8]],
    table: &'a [u8],
    findings: &mut Vec<Finding<'a>>,
) -> Result<(), AllocError>
    ensures { OnOk result (map noted findings.new.items ≡ map noted findings.old.items
        ++ links_findings named (map (λ table. table.now) tables.now) table.now) }
{
    check_links(alloc, &NAMED, tables, table, findings)
}

/// Returns the rules on several tables that a table breaks, by the tables of its machine, of which it is one. Those on its
/// numbers are in the order of the rules, and those of a rule in the order of the offsets of the fields. Then comes that it isn't
/// the only one of its signature, or with its bytes. The only error is that memory ran out.
pub fn machine_findings<'a>(
    alloc: Global,
    tables: &[&[u8]],
    table: &'a [u8],
) -> Result<Vec<Finding<'a>>, AllocError>
    ensures { IfOk result (λ found. map noted found.items
        ≡ machine_findings (map (λ table. table.now) tables.now) table.now) }
{
    let mut findings = Vec::new(alloc);
    check_affinities(alloc, tables, table, &mut findings)?;
    check_named(alloc, tables, table, &mut findings)?;
    check_singles(tables, table, &mut findings)?;
    check_copies(tables, table, &mut findings)?;
    Ok(findings)
}
