//! Rules that tables break, as objects. A function whose name begins with `push` adds to a text.

ghost use Rattle.std.specs.Prelude.{◌≡◌, ◌++◌, OnOk};
ghost use Rattle.acpi_json.specs.Finding.{word, member, range, other_member, other_number, relates, inside, said};
ghost use Rattle.acpi_json.specs.Finding.{rule_member, section_member, place, table};
ghost use Rattle.acpi_json.specs.Finding.{finding as object};
ghost use Rattle.acpi_rules.specs.Finding.{noted};

use crate::number::{push_number, push_size};
use crate::string::{push_string, push_text_string};
use acpi_rules::finding::{Finding, Rule};
use acpi_rules::line::severity;
use std::alloc::AllocError;

// Adds a number.
#[tactic(auto, unfolding(crate::specs::Finding::word))]
fn push_word(number: u64, text: &mut Vec<u8>) -> Result<(), AllocError>
    ensures { OnOk result (text.new.items ≡ text.old.items ++ word number) }
{
    push_number(&number.to_le_bytes(), text)
}

/// Adds the member with a number, after its name. The only error is that memory ran out.
pub fn push_member(name: &[u8], number: u64, text: &mut Vec<u8>) -> Result<(), AllocError>
    ensures { OnOk result (text.new.items ≡ text.old.items ++ member name.now number) }
{
    text.extend_from_slice(name)?;
    push_word(number, text)
}

// Adds the members with the numbers that are allowed.
fn push_range(least: u64, most: u64, text: &mut Vec<u8>) -> Result<(), AllocError>
    ensures { OnOk result (text.new.items ≡ text.old.items ++ range least most) }
{
    push_member(b",\"least\":", least, text)?;
    push_member(b",\"most\":", most, text)
}

// Adds the member with the name of another field.
fn push_other(other: &str, text: &mut Vec<u8>) -> Result<(), AllocError>
    ensures { OnOk result (text.new.items ≡ text.old.items ++ other_member other.now) }
{
    text.extend_from_slice(b",\"other\":")?;
    push_string(other.as_bytes(), text)
}

// Adds the member with the number of a rule on two fields, if it has one.
fn push_other_number(rule: Rule, number: u64, text: &mut Vec<u8>) -> Result<(), AllocError>
    ensures { OnOk result (text.new.items ≡ text.old.items ++ other_number rule number) }
{
    match rule {
        Rule::Overlap | Rule::Disjoint => push_member(b",\"also_at\":", number, text),
        Rule::AtMost => push_member(b",\"other_value\":", number, text),
        Rule::Pair => push_member(b",\"other_value\":", number, text),
        Rule::Below => push_member(b",\"below\":", number, text),
        _ => Ok(()),
    }
}

// Adds the members of a rule on two fields.
fn push_relates(rule: Rule, number: u64, other: &str, text: &mut Vec<u8>) -> Result<(), AllocError>
    ensures { OnOk result (text.new.items ≡ text.old.items ++ relates rule number other.now) }
{
    push_other(other, text)?;
    push_other_number(rule, number, text)
}

// Adds the members that say what a rule allows, or what is wrong with the value.
#[tactic(auto, unfolding(crate::specs::Finding::said))]
fn push_said(
    rule: Rule,
    number: u64,
    most: u64,
    other: &str,
    text: &mut Vec<u8>,
) -> Result<(), AllocError>
    ensures { OnOk result (text.new.items ≡ text.old.items ++ said rule number most other.now) }
{
    match rule {
        Rule::ReservedBytes | Rule::Cycle | Rule::Terminated => Ok(()),
        Rule::ReservedBits => push_member(b",\"reserved\":", number, text),
        Rule::ReservedValue => push_member(b",\"reserved\":", number, text),
        Rule::StructureLength => push_range(number, number, text),
        Rule::Range => push_range(number, most, text),
        Rule::Distance => push_range(number, most, text),
        Rule::Unique => push_member(b",\"also_at\":", number, text),
        Rule::Inside => push_inside(most, other, text),
        Rule::Count => push_member(b",\"bytes\":", most, text),
        Rule::Multiple => push_member(b",\"multiple_of\":", number, text),
        Rule::NotAll => push_member(b",\"bits\":", number, text),
        Rule::Single | Rule::Copy => push_member(b",\"tables\":", number, text),
        _ => push_relates(rule, number, other, text),
    }
}

// Adds the members of a rule on bytes that begin at an offset.
fn push_inside(bytes: u64, other: &str, text: &mut Vec<u8>) -> Result<(), AllocError>
    ensures { OnOk result (text.new.items ≡ text.old.items ++ inside bytes other.now) }
{
    push_other(other, text)?;
    push_member(b",\"bytes\":", bytes, text)
}

// Adds the member with the name of a rule.
#[tactic(auto, unfolding(crate::specs::Finding::rule_member))]
fn push_rule(rule: Rule, text: &mut Vec<u8>) -> Result<(), AllocError>
    ensures { OnOk result (text.new.items ≡ text.old.items ++ rule_member rule) }
{
    text.extend_from_slice(b",\"rule\":")?;
    push_string(rule.name().as_bytes(), text)
}

// Adds the member with the section that has a rule.
#[tactic(auto, unfolding(crate::specs::Finding::section_member))]
fn push_section(section: &str, text: &mut Vec<u8>) -> Result<(), AllocError>
    ensures { OnOk result (text.new.items ≡ text.old.items ++ section_member section.now) }
{
    text.extend_from_slice(b",\"section\":")?;
    push_string(section.as_bytes(), text)
}

// Adds the members with the offset, the name and the value of a field.
#[tactic(auto, unfolding(crate::specs::Finding::place))]
fn push_place(finding: &Finding<'_>, text: &mut Vec<u8>) -> Result<(), AllocError>
    ensures { OnOk result (text.new.items ≡ text.old.items ++ place (noted finding.now)) }
{
    text.extend_from_slice(b",\"offset\":")?;
    push_size(finding.offset, text)?;
    text.extend_from_slice(b",\"name\":")?;
    push_string(finding.name.as_bytes(), text)?;
    text.extend_from_slice(b",\"value\":")?;
    push_number(finding.bytes, text)
}

// Adds the members with the file, the signature and how severe the finding is.
#[tactic(auto, unfolding(crate::specs::Finding::table))]
fn push_table(file: &str, signature: &[u8], text: &mut Vec<u8>) -> Result<(), AllocError>
    ensures { OnOk result (text.new.items ≡ text.old.items ++ table file.now signature.now) }
{
    text.extend_from_slice(b"{\"file\":")?;
    push_text_string(file, text)?;
    text.extend_from_slice(b",\"signature\":")?;
    push_string(signature, text)?;
    text.extend_from_slice(b",\"severity\":")?;
    push_string(severity(signature).as_bytes(), text)
}

/// Adds the object of a finding in a table of a signature, in a file of this name. The only error is that memory ran out.
#[tactic(auto, unfolding(crate::specs::Finding::finding))]
pub fn push_finding(
    file: &str,
    signature: &[u8],
    finding: &Finding<'_>,
    text: &mut Vec<u8>,
) -> Result<(), AllocError>
    ensures { OnOk result (text.new.items ≡ text.old.items ++ object file.now signature.now (noted finding.now)) }
{
    push_table(file, signature, text)?;
    push_place(finding, text)?;
    push_said(
        finding.rule,
        finding.number,
        finding.most,
        finding.other,
        text,
    )?;
    push_section(finding.section, text)?;
    push_rule(finding.rule, text)?;
    text.extend_from_slice(b"}")
}
