//! What a finding says. A function whose name begins with `push` adds to a text.

ghost use Rattle.std.specs.Prelude.{◌≡◌, ◌++◌, OnOk, string_bytes};
ghost use Rattle.acpi_rules.specs.Finding.{noted};
ghost use Rattle.acpi_rules.specs.Line.{standard_tables, contains, severity, rule_name, hex_text, one_text, least_text};
ghost use Rattle.acpi_rules.specs.Line.{misfit_text, bytes_text, room_text, target_text, not_all_text, endless_text};
ghost use Rattle.acpi_rules.specs.Line.{lacks_text, with_text, after_text, outside_text};
ghost use Rattle.acpi_rules.specs.Line.{reserved_text, range_text, pair_text, own_text, below_text, limit_text};
ghost use Rattle.acpi_rules.specs.Line.{machine_text, tables_text, absent_text, relates_text};
ghost use Rattle.acpi_rules.specs.Line.{says, field_text, source_text, finding_text};

use crate::finding::{Finding, Rule};
use acpi_text::hex::push_bytes;
use acpi_text::note::trimmed;
use acpi_text::space::push_label;
use itoa::Buffer;
use std::alloc::AllocError;

// The tables that ACPI 6.5 defines.
#[rattlefmt::skip]
const STANDARD: [[u8; 4]; 37] = [
    *b"APIC", *b"BERT", *b"BGRT", *b"CCEL", *b"CPEP", *b"DSDT", *b"ECDT", *b"EINJ",
    *b"ERST", *b"FACP", *b"FACS", *b"FPDT", *b"GTDT", *b"HEST", *b"HMAT", *b"MPST",
    *b"MSCT", *b"NFIT", *b"PCCT", *b"PDTT", *b"PHAT", *b"PMTT", *b"PPTT", *b"PSDT",
    *b"RAS2", *b"RASF", *b"RSD ", *b"RSDT", *b"S3PT", *b"SBST", *b"SDEV", *b"SLIT",
    *b"SRAT", *b"SSDT", *b"SVKL", *b"VIOT", *b"XSDT",
];

// Returns whether a signature is one of these.
fn contains(signatures: &[[u8; 4]], signature: &[u8]) -> bool
    ensures { result ≡ contains signatures.now signature.now }
{
    'signatures: for one in signatures {
        if one.as_slice() == signature {
            return true;
        }
    }
    false
}

// Returns whether ACPI 6.5 defines the tables of a signature.
fn is_standard(signature: &[u8]) -> bool
    ensures { result ≡ contains standard_tables signature.now }
{
    contains(&STANDARD, signature)
}

/// Returns how severe it is that a table of a signature breaks a rule: `error` or `warning`.
pub fn severity(signature: &[u8]) -> &'static str
    ensures { result.now ≡ severity signature.now }
{
    if is_standard(signature) {
        "error"
    } else {
        "warning"
    }
}

impl Rule {
    /// The name of the rule.
    pub fn name(self) -> &'static str
        ensures { result.now ≡ rule_name self }
    {
        match self {
            Rule::ReservedBytes => "reserved-bytes",
            Rule::ReservedBits => "reserved-bits",
            Rule::ReservedValue => "reserved-value",
            Rule::StructureLength => "structure-length",
            Rule::Range => "range",
            Rule::Unique => "unique",
            Rule::Overlap => "overlap",
            Rule::Disjoint => "disjoint",
            Rule::AtMost => "at-most",
            Rule::NoOverflow => "no-overflow",
            Rule::Inside => "inside",
            Rule::Count => "count",
            Rule::Pair => "pair",
            Rule::Required => "required",
            Rule::Needs => "needs",
            Rule::Multiple => "multiple",
            Rule::NotAll => "not-all",
            Rule::Terminated => "terminated",
            Rule::Reference => "reference",
            Rule::Cycle => "cycle",
            Rule::Distance => "distance",
            Rule::Present => "present",
            Rule::Defined => "defined",
            Rule::Below => "below",
            Rule::Single => "single",
            Rule::Copy => "copy",
        }
    }
}

// Adds a number in hexadecimal.
fn push_hex(number: u64, text: &mut String) -> Result<(), AllocError>
    ensures { OnOk result (string_bytes text.new ≡ string_bytes text.old ++ hex_text number) }
{
    text.push_str("0x")?;
    push_bytes(trimmed(&number.to_le_bytes()), text)
}

// Adds the only number that is allowed.
fn push_one(number: u64, text: &mut String) -> Result<(), AllocError>
    ensures { OnOk result (string_bytes text.new ≡ string_bytes text.old ++ one_text number) }
{
    text.push_str(" has to be ")?;
    text.push_str(Buffer::new().format(number))
}

// Adds the least number that is allowed.
fn push_least(number: u64, text: &mut String) -> Result<(), AllocError>
    ensures { OnOk result (string_bytes text.new ≡ string_bytes text.old ++ least_text number) }
{
    text.push_str(" has to be at least ")?;
    text.push_str(Buffer::new().format(number))
}

// Adds the numbers that are allowed.
fn push_range(least: u64, most: u64, text: &mut String) -> Result<(), AllocError>
    ensures { OnOk result (string_bytes text.new ≡ string_bytes text.old ++ range_text least most) }
{
    if least == most {
        return push_one(least, text);
    }
    if most == u64::MAX {
        return push_least(least, text);
    }
    text.push_str(" has to be from ")?;
    text.push_str(Buffer::new().format(least))?;
    text.push_str(" to ")?;
    text.push_str(Buffer::new().format(most))
}

// Adds the words before the number of bytes that entries don't fit.
#[tactic(auto, unfolding(crate::specs::Line::misfit_text))]
fn push_misfit(text: &mut String) -> Result<(), AllocError>
    ensures { OnOk result (string_bytes text.new ≡ string_bytes text.old ++ misfit_text) }
{
    text.push_str(" doesn't fit the ")
}

// Adds the words after it.
#[tactic(auto, unfolding(crate::specs::Line::bytes_text))]
fn push_there(text: &mut String) -> Result<(), AllocError>
    ensures { OnOk result (string_bytes text.new ≡ string_bytes text.old ++ bytes_text) }
{
    text.push_str(" bytes that are there")
}

// Adds that a number of entries doesn't fit this many bytes.
fn push_room(room: u64, text: &mut String) -> Result<(), AllocError>
    ensures { OnOk result (string_bytes text.new ≡ string_bytes text.old ++ room_text room) }
{
    push_misfit(text)?;
    text.push_str(Buffer::new().format(room))?;
    push_there(text)
}

// Adds the other field that says how many bytes begin at an offset.
#[tactic(auto, unfolding(crate::specs::Line::with_text))]
fn push_with(other: &str, text: &mut String) -> Result<(), AllocError>
    ensures { OnOk result (string_bytes text.new ≡ string_bytes text.old ++ with_text other.now) }
{
    text.push_str(" with ")?;
    push_label(other, text)
}

// Adds the words before the number of bytes after which they end.
#[tactic(auto, unfolding(crate::specs::Line::after_text))]
fn push_after(text: &mut String) -> Result<(), AllocError>
    ensures { OnOk result (string_bytes text.new ≡ string_bytes text.old ++ after_text) }
{
    text.push_str(" ends after the ")
}

// Adds that bytes at an offset, as many as another field says, end after those that are there.
fn push_outside(room: u64, other: &str, text: &mut String) -> Result<(), AllocError>
    ensures { OnOk result (string_bytes text.new ≡ string_bytes text.old ++ outside_text room other.now) }
{
    push_with(other, text)?;
    push_after(text)?;
    text.push_str(Buffer::new().format(room))?;
    push_there(text)
}

// Adds of which structures a reference isn't the number.
#[tactic(auto, unfolding(crate::specs::Line::target_text))]
fn push_target(text: &mut String) -> Result<(), AllocError>
    ensures { OnOk result (string_bytes text.new ≡ string_bytes text.old ++ target_text) }
{
    text.push_str(" of a structure to which it may refer")
}

// Adds the words before the bits of which one has to be zero.
#[tactic(auto, unfolding(crate::specs::Line::lacks_text))]
fn push_lacks(text: &mut String) -> Result<(), AllocError>
    ensures { OnOk result (string_bytes text.new ≡ string_bytes text.old ++ lacks_text) }
{
    text.push_str(" has to lack one of the bits ")
}

// Adds the bits of which one has to be zero.
fn push_not_all(bits: u64, text: &mut String) -> Result<(), AllocError>
    ensures { OnOk result (string_bytes text.new ≡ string_bytes text.old ++ not_all_text bits) }
{
    push_lacks(text)?;
    push_hex(bits, text)
}

// Adds that a string doesn't end with a zero.
#[tactic(auto, unfolding(crate::specs::Line::endless_text))]
fn push_endless(text: &mut String) -> Result<(), AllocError>
    ensures { OnOk result (string_bytes text.new ≡ string_bytes text.old ++ endless_text) }
{
    text.push_str(": the string doesn't end with a zero")
}

// Adds that a number is reserved.
fn push_reserved(number: u64, text: &mut String) -> Result<(), AllocError>
    ensures { OnOk result (string_bytes text.new ≡ string_bytes text.old ++ reserved_text number) }
{
    text.push_str(": ")?;
    text.push_str(Buffer::new().format(number))?;
    text.push_str(" is reserved")
}

// Adds what a finding on two fields says of the bytes of its field.
fn push_pair(
    rule: Rule,
    number: u64,
    most: u64,
    other: &str,
    text: &mut String,
) -> Result<(), AllocError>
    ensures { OnOk result (string_bytes text.new ≡ string_bytes text.old ++ pair_text rule number most other.now) }
{
    match rule {
        Rule::Pair => {
            text.push_str(" isn't ")?;
            push_label(other, text)?;
            text.push_str(", which is ")?;
            text.push_str(Buffer::new().format(number))
        }
        Rule::Required => {
            text.push_str(" and ")?;
            push_label(other, text)?;
            text.push_str(" are zero")
        }
        Rule::Needs => {
            text.push_str(" needs ")?;
            push_label(other, text)?;
            text.push_str(", which is zero")
        }
        Rule::AtMost => {
            text.push_str(" is above ")?;
            push_label(other, text)?;
            text.push_str(", which is ")?;
            text.push_str(Buffer::new().format(number))
        }
        Rule::NoOverflow => {
            text.push_str(" with ")?;
            push_label(other, text)?;
            text.push_str(", which is too long")
        }
        _ => push_range(number, most, text),
    }
}

// Adds the number of a field.
fn push_own(number: u64, text: &mut String) -> Result<(), AllocError>
    ensures { OnOk result (string_bytes text.new ≡ string_bytes text.old ++ own_text number) }
{
    text.push_str(": ")?;
    text.push_str(Buffer::new().format(number))
}

// Adds the words between the number of a field and the name of the limit that it reaches.
#[tactic(auto, unfolding(crate::specs::Line::below_text))]
fn push_below(text: &mut String) -> Result<(), AllocError>
    ensures { OnOk result (string_bytes text.new ≡ string_bytes text.old ++ below_text) }
{
    text.push_str(" isn't below the ")
}

// Adds that the number of a field isn't below that of another one.
fn push_limit(number: u64, other: &str, text: &mut String) -> Result<(), AllocError>
    ensures { OnOk result (string_bytes text.new ≡ string_bytes text.old ++ limit_text number other.now) }
{
    push_below(text)?;
    push_label(other, text)?;
    text.push_str(", which is ")?;
    text.push_str(Buffer::new().format(number))
}

// Adds what stands before a number of tables.
#[tactic(auto, unfolding(crate::specs::Line::machine_text))]
fn push_machine(text: &mut String) -> Result<(), AllocError>
    ensures { OnOk result (string_bytes text.new ≡ string_bytes text.old ++ machine_text) }
{
    text.push_str(": the machine has ")
}

// Adds how many tables a machine has, and which.
fn push_tables(number: u64, which: &str, text: &mut String) -> Result<(), AllocError>
    ensures { OnOk result (string_bytes text.new ≡ string_bytes text.old ++ tables_text number which.now) }
{
    push_machine(text)?;
    text.push_str(Buffer::new().format(number))?;
    text.push_str(which)
}

// Adds that a table has none of some parts.
fn push_absent(what: &str, text: &mut String) -> Result<(), AllocError>
    ensures { OnOk result (string_bytes text.new ≡ string_bytes text.old ++ absent_text what.now) }
{
    text.push_str(": there is no ")?;
    push_label(what, text)
}

// Adds what a finding on several fields says of the bytes of its field.
fn push_relates(
    rule: Rule,
    number: u64,
    most: u64,
    other: &str,
    text: &mut String,
) -> Result<(), AllocError>
    ensures { OnOk result (string_bytes text.new ≡ string_bytes text.old ++ relates_text rule number most other.now) }
{
    match rule {
        Rule::Unique => {
            text.push_str(": also at ")?;
            text.push_str(Buffer::new().format(number))
        }
        Rule::Overlap => {
            text.push_str(" up to ")?;
            push_label(other, text)?;
            text.push_str(": also at ")?;
            text.push_str(Buffer::new().format(number))
        }
        Rule::Disjoint => {
            text.push_str(" with ")?;
            push_label(other, text)?;
            text.push_str(": also at ")?;
            text.push_str(Buffer::new().format(number))
        }
        Rule::Inside => push_outside(most, other, text),
        Rule::Count => push_room(most, text),
        Rule::Multiple => {
            text.push_str(" isn't n * ")?;
            text.push_str(Buffer::new().format(number))
        }
        Rule::NotAll => push_not_all(number, text),
        Rule::Terminated => push_endless(text),
        Rule::Reference => {
            text.push_str(" isn't the ")?;
            push_label(other, text)?;
            push_target(text)
        }
        Rule::Cycle => text.push_str(" leads to a circle"),
        Rule::Present => push_absent(other, text),
        Rule::Defined => {
            text.push_str(" isn't any ")?;
            push_label(other, text)
        }
        Rule::Below => {
            push_own(most, text)?;
            push_limit(number, other, text)
        }
        Rule::Single => push_tables(number, " of them", text),
        Rule::Copy => push_tables(number, " with the same bytes", text),
        _ => push_pair(rule, number, most, other, text),
    }
}

// Adds what a finding says of the bytes of its field.
fn push_says(
    rule: Rule,
    number: u64,
    most: u64,
    other: &str,
    text: &mut String,
) -> Result<(), AllocError>
    ensures { OnOk result (string_bytes text.new ≡ string_bytes text.old ++ says rule number most other.now) }
{
    match rule {
        Rule::ReservedBytes => text.push_str(" isn't zero"),
        Rule::ReservedBits => {
            text.push_str(" has the reserved bits ")?;
            push_hex(number, text)
        }
        Rule::ReservedValue => push_reserved(number, text),
        Rule::StructureLength => push_one(number, text),
        _ => push_relates(rule, number, most, other, text),
    }
}

// Adds the field of a finding, and its bytes.
fn push_field(finding: &Finding<'_>, text: &mut String) -> Result<(), AllocError>
    ensures { OnOk result (string_bytes text.new ≡ string_bytes text.old ++ field_text (noted finding.now)) }
{
    text.push_str(" at ")?;
    text.push_str(Buffer::new().format(finding.offset))?;
    text.push_str(": ")?;
    push_label(finding.name, text)?;
    text.push_str(": 0x")?;
    push_bytes(finding.bytes, text)
}

// Adds the section that has the rule of a finding, and the rule.
fn push_source(finding: &Finding<'_>, text: &mut String) -> Result<(), AllocError>
    ensures { OnOk result (string_bytes text.new ≡ string_bytes text.old ++ source_text (noted finding.now)) }
{
    text.push_str(" (")?;
    text.push_str(finding.section)?;
    text.push_str(") [")?;
    text.push_str(finding.rule.name())?;
    text.push_str("]")
}

/// Adds a finding in a table of a signature: how severe it is, the offset of the field, its name and its bytes in hexadecimal,
/// the highest first, what is wrong with them, the section of the standard, and the name of the rule. The only error is that
/// memory ran out.
pub fn push_finding(
    signature: &[u8],
    finding: &Finding<'_>,
    text: &mut String,
) -> Result<(), AllocError>
    ensures { OnOk result (string_bytes text.new
        ≡ string_bytes text.old ++ finding_text signature.now (noted finding.now)) }
{
    text.push_str(severity(signature))?;
    push_field(finding, text)?;
    push_says(
        finding.rule,
        finding.number,
        finding.most,
        finding.other,
        text,
    )?;
    push_source(finding, text)
}
