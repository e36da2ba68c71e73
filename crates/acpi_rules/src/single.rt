//! The tables that a machine has once. A function whose name begins with `check` adds to findings.

ghost use Rattle.std.specs.Prelude.{◌≡◌, ◌++◌, map, OnOk};
ghost use Rattle.acpi_rules.specs.Field.{seen};
ghost use Rattle.acpi_rules.specs.Finding.{noted};
ghost use Rattle.acpi_rules.specs.Single.{once_by, namesakes, copies, signature_field, several_findings, single_findings};
ghost use Rattle.acpi_rules.specs.Single.{copy_findings, singles, copied, singles_findings, copies_findings};

use crate::field::Field;
use crate::finding::{Finding, Rule};
use crate::related::{Said, add_related};
use crate::rules::signature_of;
use acpi_base::row::Look;
use std::alloc::AllocError;

/// Tables of a signature that a machine has once.
#[derive(Clone, Copy)]
pub struct Once {
    /// The signature of the tables.
    pub table: &'static str,
    /// The section of ACPI 6.5 that has the tables, or the name of another standard.
    pub section: &'static str,
}

// Tables that a machine has once.
macro_rules! only {
    ($table:literal, $section:literal) => {
        Once {
            table: $table,
            section: $section,
        }
    };
}

// The tables of which a machine has one. HPETs aren't among them, since each has its number (IA-PC HPET 1.0a, 3.2.4).
#[rattlefmt::skip]
const SINGLES: [Once; 31] = [
    only!("APIC", "ACPI 6.5, 5.2.12"),
    only!("BERT", "ACPI 6.5, 18.3.1"),
    only!("BGRT", "ACPI 6.5, 5.2.23"),
    only!("CCEL", "ACPI 6.5, 5.2.34"),
    only!("CPEP", "ACPI 6.5, 5.2.18"),
    only!("DMAR", "VT-d 4.1, 8.1"),
    only!("DSDT", "ACPI 6.5, 5.2.11.1"),
    only!("ECDT", "ACPI 6.5, 5.2.15"),
    only!("EINJ", "ACPI 6.5, 18.6"),
    only!("ERST", "ACPI 6.5, 18.5"),
    only!("FACP", "ACPI 6.5, 5.2.9"),
    only!("FACS", "ACPI 6.5, 5.2.10"),
    only!("FPDT", "ACPI 6.5, 5.2.24"),
    only!("GTDT", "ACPI 6.5, 5.2.25"),
    only!("HEST", "ACPI 6.5, 18.3.2"),
    only!("HMAT", "ACPI 6.5, 5.2.28"),
    only!("IORT", "Arm DEN0049E.d"),
    only!("MCFG", "PCI Firmware 3.3, 4.1.2"),
    only!("MPST", "ACPI 6.5, 5.2.22"),
    only!("MSCT", "ACPI 6.5, 5.2.19"),
    only!("NFIT", "ACPI 6.5, 5.2.26"),
    only!("PCCT", "ACPI 6.5, 14.1"),
    only!("PDTT", "ACPI 6.5, 5.2.29"),
    only!("PPTT", "ACPI 6.5, 5.2.30"),
    only!("RHCT", "ACPI 6.6"),
    only!("SBST", "ACPI 6.5, 5.2.14"),
    only!("SDEV", "ACPI 6.5, 5.2.27"),
    only!("SLIT", "ACPI 6.5, 5.2.17"),
    only!("SPCR", "Microsoft SPCR"),
    only!("SRAT", "ACPI 6.5, 5.2.16"),
    only!("VIOT", "ACPI 6.5, 5.2.32"),
];

// The tables of which a machine may have several, each of them once.
#[rattlefmt::skip]
const COPIED: [Once; 2] = [
    only!("PSDT", "ACPI 6.5, 5.2.11.3"),
    only!("SSDT", "ACPI 6.5, 5.2.11.2"),
];

// ---- how many tables there are

// Returns how many tables have a signature.
fn namesakes(tables: &[&[u8]], signature: &[u8]) -> usize
    ensures { result ≡ namesakes (map (λ table. table.now) tables.now) signature.now }
{
    let mut number = 0;
    'tables: for table in tables {
        if signature_of(table) == signature {
            number += 1;
        }
    }
    number
}

// Returns how many tables have these bytes.
fn copies(tables: &[&[u8]], bytes: &[u8]) -> usize
    ensures { result ≡ copies (map (λ table. table.now) tables.now) bytes.now }
{
    let mut number = 0;
    'tables: for table in tables {
        if *table == bytes {
            number += 1;
        }
    }
    number
}

// ---- findings

// Returns the first field of a table.
fn signature_field<'a>(table: &'a [u8]) -> Field<'a>
    ensures { seen result ≡ signature_field table.now }
{
    Field {
        offset: 0,
        name: "Signature",
        look: Look::Number,
        width: 4,
        bytes: signature_of(table),
    }
}

// Adds that a machine has more than one of the tables that a rule counts.
fn check_several<'a>(
    rule: Rule,
    section: &'static str,
    number: usize,
    table: &'a [u8],
    findings: &mut Vec<Finding<'a>>,
) -> Result<(), AllocError>
    ensures { OnOk result (map noted findings.new.items ≡ map noted findings.old.items
        ++ several_findings rule section.now number table.now) }
{
    if number <= 1 {
        return Ok(());
    }
    let said = Said {
        section,
        number: number as u64,
        most: 0,
        other: "",
    };
    add_related(rule, &said, &signature_field(table), findings)
}

// Adds that a machine has more than one table of the signature of a rule, which is that of this table.
fn check_single<'a>(
    row: &Once,
    tables: &[&[u8]],
    table: &'a [u8],
    findings: &mut Vec<Finding<'a>>,
) -> Result<(), AllocError>
    ensures { OnOk result (map noted findings.new.items ≡ map noted findings.old.items
        ++ single_findings (map (λ table. table.now) tables.now) table.now (once_by row.now)) }
{
    let signature = row.table.as_bytes();
    if signature == signature_of(table) {
        return check_several(
            Rule::Single,
            row.section,
            namesakes(tables, signature),
            table,
            findings,
        );
    }
    Ok(())
}

// Adds that a machine has a table of the signature of a rule more than once.
fn check_copy<'a>(
    row: &Once,
    tables: &[&[u8]],
    table: &'a [u8],
    findings: &mut Vec<Finding<'a>>,
) -> Result<(), AllocError>
    ensures { OnOk result (map noted findings.new.items ≡ map noted findings.old.items
        ++ copy_findings (map (λ table. table.now) tables.now) table.now (once_by row.now)) }
{
    if row.table.as_bytes() == signature_of(table) {
        return check_several(
            Rule::Copy,
            row.section,
            copies(tables, table),
            table,
            findings,
        );
    }
    Ok(())
}

fn check_all_singles<'a>(
    rows: &[Once],
    tables: &[&[u8]],
    table: &'a [u8],
    findings: &mut Vec<Finding<'a>>,
) -> Result<(), AllocError>
    ensures { OnOk result (map noted findings.new.items ≡ map noted findings.old.items
        ++ singles_findings (map once_by rows.now) (map (λ table. table.now) tables.now) table.now) }
{
    'rows: for row in rows {
        check_single(row, tables, table, findings)?;
    }
    Ok(())
}

fn check_all_copies<'a>(
    rows: &[Once],
    tables: &[&[u8]],
    table: &'a [u8],
    findings: &mut Vec<Finding<'a>>,
) -> Result<(), AllocError>
    ensures { OnOk result (map noted findings.new.items ≡ map noted findings.old.items
        ++ copies_findings (map once_by rows.now) (map (λ table. table.now) tables.now) table.now) }
{
    'rows: for row in rows {
        check_copy(row, tables, table, findings)?;
    }
    Ok(())
}

/// Adds that a table isn't the only one of its signature, if a machine has one of it. The only error is that memory ran out.
#[tactic(auto, unfolding(crate::specs::Single::singles))]
pub fn check_singles<'a>(
    tables: &[&[u8]],
    table: &'a [u8],
    findings: &mut Vec<Finding<'a>>,
) -> Result<(), AllocError>
    ensures { OnOk result (map noted findings.new.items ≡ map noted findings.old.items
        ++ singles_findings singles (map (λ table. table.now) tables.now) table.now) }
{
    check_all_singles(&SINGLES, tables, table, findings)
}

/// Adds that a table isn't the only one with its bytes, if a machine may have several of its signature. The only error is that
/// memory ran out.
#[tactic(auto, unfolding(crate::specs::Single::copied))]
pub fn check_copies<'a>(
    tables: &[&[u8]],
    table: &'a [u8],
    findings: &mut Vec<Finding<'a>>,
) -> Result<(), AllocError>
    ensures { OnOk result (map noted findings.new.items ≡ map noted findings.old.items
        ++ copies_findings copied (map (λ table. table.now) tables.now) table.now) }
{
    check_all_copies(&COPIED, tables, table, findings)
}
