//! Findings on several fields of a table.

ghost use Rattle.std.specs.Prelude.{◌≡◌, ◌++◌, map, OnOk};
ghost use Rattle.acpi_rules.specs.Field.{seen};
ghost use Rattle.acpi_rules.specs.Finding.{noted};
ghost use Rattle.acpi_rules.specs.Related.{relates, unique_findings};

use crate::field::Field;
use crate::finding::{Finding, Rule};
use std::alloc::AllocError;

/// What a rule on several fields says of one: its section, numbers, and the name of another field.
#[derive(Clone, Copy, Debug)]
pub struct Said {
    pub section: &'static str,
    pub number: u64,
    pub most: u64,
    pub other: &'static str,
}

/// Adds that a field breaks a rule.
pub fn add_related<'a>(
    rule: Rule,
    said: &Said,
    field: &Field<'a>,
    findings: &mut Vec<Finding<'a>>,
) -> Result<(), AllocError>
    ensures { OnOk result (map noted findings.new.items ≡ map noted findings.old.items
        ++ relates rule said.now.section.now said.now.number said.now.most said.now.other.now (seen field.now)) }
{
    findings.push(Finding {
        rule,
        section: said.section,
        offset: field.offset,
        name: field.name,
        bytes: field.bytes,
        number: said.number,
        most: said.most,
        other: said.other,
    })?;
    Ok(())
}

/// Adds that a field has the same bytes as that of a part before it, which is at an offset.
pub fn add_unique<'a>(
    section: &'static str,
    at: usize,
    field: &Field<'a>,
    findings: &mut Vec<Finding<'a>>,
) -> Result<(), AllocError>
    ensures { OnOk result (map noted findings.new.items ≡ map noted findings.old.items
        ++ unique_findings section.now at (seen field.now)) }
{
    let said = Said {
        section,
        number: at as u64,
        most: 0,
        other: "",
    };
    add_related(Rule::Unique, &said, field, findings)
}
