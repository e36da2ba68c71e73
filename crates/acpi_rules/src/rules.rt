//! The rules that hold for every field of a form, by what its value is. A function whose name begins with `check` adds to
//! findings.

ghost use Rattle.std.specs.Prelude.{◌≡◌, ◌++◌, bit_and, map, take, OnOk, IfOk};
ghost use Rattle.std.specs.List.{flat_map};
ghost use Rattle.acpi_base.specs.Bytes.{carried};
ghost use Rattle.acpi_base.specs.Look.{part_of, bits_of, words_of};
ghost use Rattle.acpi_text.specs.Note.{find_word};
ghost use Rattle.acpi_rules.specs.Field.{seen};
ghost use Rattle.acpi_rules.specs.Finding.{noted};
ghost use Rattle.acpi_rules.specs.Rules.{allowed_by, any_allows, number_of, breaks, all_zero, reserved_findings, value_findings};
ghost use Rattle.acpi_rules.specs.Rules.{preset_findings, mask_of, other_bits, bit_findings, part_findings, field_findings};
ghost use Rattle.acpi_rules.specs.Rules.{fields_findings, look_findings, limit_by, is_length, choice_findings};

use crate::allowed::{Allowed, any_allows};
use crate::field::Field;
use crate::finding::{Finding, Rule};
use crate::limit::{Limit, check_limits};
use acpi_base::row::{Bits, Look, Word};
use acpi_text::note::{find_word, number};
use std::alloc::{AllocError, Global};

// The sections on reserved bits, on reserved values, and on tables and their structures.
const BITS: &str = "ACPI 6.5, 5.2.1.1";

const VALUES: &str = "ACPI 6.5, 5.2.1.2";

const LENGTHS: &str = "ACPI 6.5, 5.2";

/// What the rules on a field need.
#[derive(Clone, Copy)]
pub struct Given<'a> {
    /// The rows of numbers that are allowed.
    pub rows: &'a [Allowed],
    /// The signature of the table.
    pub signature: &'a [u8],
}

// Returns the number in the first eight bytes, or in all if there are fewer.
pub(crate) fn number_in_bytes(bytes: &[u8]) -> u64
    ensures { result ≡ carried (take 8 bytes.now) }
{
    if bytes.len() > 8 {
        number(&bytes[..8])
    } else {
        number(bytes)
    }
}

/// Returns the number in the bytes of a field, of which it has eight at most.
pub fn number_of(field: &Field<'_>) -> u64
    ensures { result ≡ number_of (seen field.now) }
{
    number_in_bytes(field.bytes)
}

fn all_zero(bytes: &[u8]) -> bool
    ensures { result ≡ all_zero bytes.now }
{
    'bytes: for byte in bytes {
        if *byte != 0 {
            return false;
        }
    }
    true
}

// Adds that a field breaks a rule.
pub(crate) fn add<'a>(
    rule: Rule,
    section: &'static str,
    number: u64,
    most: u64,
    field: &Field<'a>,
    findings: &mut Vec<Finding<'a>>,
) -> Result<(), AllocError>
    ensures { OnOk result (map noted findings.new.items
        ≡ map noted findings.old.items ++ breaks rule section.now number most (seen field.now)) }
{
    findings.push(Finding {
        rule,
        section,
        offset: field.offset,
        name: field.name,
        bytes: field.bytes,
        number,
        most,
        other: "",
    })?;
    Ok(())
}

// Returns whether a number is allowed in a field by a row.
pub(crate) fn is_allowed(given: &Given<'_>, field: &Field<'_>, number: u64) -> bool
    ensures { result ≡ any_allows (map allowed_by given.now.rows.now) given.now.signature.now (seen field.now) number }
{
    any_allows(given.rows, given.signature, field, number)
}

fn check_reserved<'a>(
    given: &Given<'_>,
    field: &Field<'a>,
    findings: &mut Vec<Finding<'a>>,
) -> Result<(), AllocError>
    ensures { OnOk result (map noted findings.new.items ≡ map noted findings.old.items
        ++ reserved_findings (any_allows (map allowed_by given.now.rows.now) given.now.signature.now (seen field.now))
        (seen field.now)) }
{
    if all_zero(field.bytes) || is_allowed(given, field, number_of(field)) {
        return Ok(());
    }
    add(Rule::ReservedBytes, BITS, 0, 0, field, findings)
}

fn check_value<'a>(
    given: &Given<'_>,
    words: &[Word],
    number: u64,
    field: &Field<'a>,
    findings: &mut Vec<Finding<'a>>,
) -> Result<(), AllocError>
    ensures { OnOk result (map noted findings.new.items ≡ map noted findings.old.items
        ++ value_findings (any_allows (map allowed_by given.now.rows.now) given.now.signature.now (seen field.now))
        (seen field.now)
        number (find_word (words_of words.now) number)) }
{
    match find_word(words, number) {
        Some(_) => Ok(()),
        None if is_allowed(given, field, number) => Ok(()),
        None => add(Rule::ReservedValue, VALUES, number, 0, field, findings),
    }
}

// Returns whether a field is the length of a structure.
fn is_length(name: &str) -> bool
    ensures { result ≡ is_length name.now }
{
    name == "Length" || name == "Record Length"
}

fn check_preset<'a>(
    given: &Given<'_>,
    value: u64,
    field: &Field<'a>,
    findings: &mut Vec<Finding<'a>>,
) -> Result<(), AllocError>
    ensures { OnOk result (map noted findings.new.items ≡ map noted findings.old.items
        ++ preset_findings (any_allows (map allowed_by given.now.rows.now) given.now.signature.now (seen field.now))
        (seen field.now) value) }
{
    let number = number_of(field);
    if !is_length(field.name) || number == value || is_allowed(given, field, number) {
        return Ok(());
    }
    add(Rule::StructureLength, LENGTHS, value, 0, field, findings)
}

// Returns the bits of which a part of a number consists.
fn mask_of(part: &Bits) -> u64
    ensures { result ≡ mask_of (part_of part.now) }
{
    match *part {
        Bits::Flag(mask, _) | Bits::OneOf(mask, _) | Bits::Number(mask, _, _) => mask,
    }
}

// Returns the bits of a number that belong to no part.
fn other_bits(parts: &[Bits], number: u64) -> u64
    ensures { result ≡ other_bits (bits_of parts.now) number }
{
    let mut left = number;
    'parts: for part in parts {
        left -= left & mask_of(part);
    }
    left
}

fn check_bits<'a>(
    given: &Given<'_>,
    bits: u64,
    field: &Field<'a>,
    findings: &mut Vec<Finding<'a>>,
) -> Result<(), AllocError>
    ensures { OnOk result (map noted findings.new.items ≡ map noted findings.old.items
        ++ bit_findings (any_allows (map allowed_by given.now.rows.now) given.now.signature.now (seen field.now))
        (seen field.now) bits) }
{
    if bits == 0 || is_allowed(given, field, bits) {
        return Ok(());
    }
    add(Rule::ReservedBits, BITS, bits, 0, field, findings)
}

fn check_choice<'a>(
    given: &Given<'_>,
    words: &[Word],
    number: u64,
    field: &Field<'a>,
    findings: &mut Vec<Finding<'a>>,
) -> Result<(), AllocError>
    ensures { OnOk result (map noted findings.new.items ≡ map noted findings.old.items
        ++ choice_findings (any_allows (map allowed_by given.now.rows.now) given.now.signature.now (seen field.now))
        (seen field.now)
        (words_of words.now) number) }
{
    if number == 0 {
        return Ok(());
    }
    check_value(given, words, number, field, findings)
}

fn check_part<'a>(
    given: &Given<'_>,
    part: &Bits,
    field: &Field<'a>,
    findings: &mut Vec<Finding<'a>>,
) -> Result<(), AllocError>
    ensures { OnOk result (map noted findings.new.items ≡ map noted findings.old.items
        ++ part_findings (any_allows (map allowed_by given.now.rows.now) given.now.signature.now (seen field.now))
        (seen field.now)
        (part_of part.now)) }
{
    match *part {
        Bits::OneOf(mask, words) => {
            check_choice(given, words, number_of(field) & mask, field, findings)
        }
        Bits::Flag(_, _) | Bits::Number(_, _, _) => Ok(()),
    }
}

fn check_parts<'a>(
    given: &Given<'_>,
    parts: &[Bits],
    field: &Field<'a>,
    findings: &mut Vec<Finding<'a>>,
) -> Result<(), AllocError>
    ensures { OnOk result (map noted findings.new.items ≡ map noted findings.old.items
        ++ flat_map (part_findings (any_allows (map allowed_by given.now.rows.now) given.now.signature.now (seen field.now))
        (seen field.now)) (bits_of parts.now)) }
{
    'parts: for part in parts {
        check_part(given, part, field, findings)?;
    }
    Ok(())
}

fn check_flags<'a>(
    given: &Given<'_>,
    parts: &[Bits],
    field: &Field<'a>,
    findings: &mut Vec<Finding<'a>>,
) -> Result<(), AllocError>
    ensures { OnOk result (map noted findings.new.items ≡ map noted findings.old.items
        ++ (bit_findings (any_allows (map allowed_by given.now.rows.now) given.now.signature.now (seen field.now))
        (seen field.now)
        (other_bits (bits_of parts.now) (number_of (seen field.now)))
        ++ flat_map (part_findings (any_allows (map allowed_by given.now.rows.now) given.now.signature.now (seen field.now))
        (seen field.now)) (bits_of parts.now))) }
{
    check_bits(given, other_bits(parts, number_of(field)), field, findings)?;
    check_parts(given, parts, field, findings)
}

fn check_look<'a>(
    given: &Given<'_>,
    field: &Field<'a>,
    findings: &mut Vec<Finding<'a>>,
) -> Result<(), AllocError>
    ensures { OnOk result (map noted findings.new.items ≡ map noted findings.old.items
        ++ look_findings (seen field.now).look
        (any_allows (map allowed_by given.now.rows.now) given.now.signature.now (seen field.now))
        (seen field.now)) }
{
    match field.look {
        Look::Reserved => check_reserved(given, field, findings),
        Look::OneOf(words) => check_value(given, words, number_of(field), field, findings),
        Look::Preset(value) => check_preset(given, value, field, findings),
        Look::Flags(parts) => check_flags(given, parts, field, findings),
        Look::Number
        | Look::Hex
        | Look::Reference
        | Look::Bytes
        | Look::Text
        | Look::Uuid
        | Look::Register => Ok(()),
    }
}

fn check_field<'a>(
    given: &Given<'_>,
    ranges: &[Limit],
    table: &[u8],
    field: &Field<'a>,
    findings: &mut Vec<Finding<'a>>,
) -> Result<(), AllocError>
    requires { given.now.signature.now ≡ take 4 table.now }
    ensures { OnOk result (map noted findings.new.items ≡ map noted findings.old.items
        ++ field_findings (map allowed_by given.now.rows.now) (map limit_by ranges.now) table.now (seen field.now)) }
{
    check_look(given, field, findings)?;
    check_limits(given, ranges, table, field, findings)
}

/// Returns the first four bytes of a table, which are its signature, or fewer if there are fewer.
pub fn signature_of(table: &[u8]) -> &[u8]
    ensures { result.now ≡ take 4 table.now }
{
    if table.len() < 4 { table } else { &table[..4] }
}

/// Returns the rules that fields of a table break, in the order of the fields, but for the numbers that rows allow. The only
/// error is that memory ran out.
pub fn fields_findings<'a>(
    alloc: Global,
    rows: &[Allowed],
    ranges: &[Limit],
    table: &[u8],
    fields: &[Field<'a>],
) -> Result<Vec<Finding<'a>>, AllocError>
    ensures { IfOk result (λ found. map noted found.items
        ≡ fields_findings (map allowed_by rows.now) (map limit_by ranges.now) table.now (map seen fields.now)) }
{
    let given = Given {
        rows,
        signature: signature_of(table),
    };
    let mut findings = Vec::new(alloc);
    'fields: for field in fields {
        check_field(&given, ranges, table, field, &mut findings)?;
    }
    Ok(findings)
}
