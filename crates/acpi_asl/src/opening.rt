//! The beginning of a term: its word, and what stands in its parentheses before its operands. A function whose name begins with
//! `push` adds to a text.

ghost use Rattle.std.specs.Prelude.{◌≡◌, ◌++◌, ◌==◌, [], codes, if◌then◌else◌, OnOk, string_bytes};
ghost use Rattle.std.specs.Fmt.{decimal};
ghost use Rattle.acpi_term.specs.View.{head_of};
ghost use Rattle.acpi_asl.specs.Name.{asl_name};
ghost use Rattle.acpi_asl.specs.Number.{hex};
ghost use Rattle.acpi_asl.specs.Place.{place, opened};
ghost use Rattle.acpi_asl.specs.Opening.{head_word, further, field_rules, field_own, method_own, parameter, first_parameter};
ghost use Rattle.acpi_asl.specs.Opening.{more_parameters, parameters, own};
ghost use Rattle.acpi_asl.specs.Opening.{has_parentheses, begun, ended, opening};
ghost use Rattle.acpi_asl.specs.declared.word.Keyword.TheVariants.{RegionSpace, ObjectType};
ghost use Rattle.acpi_asl.specs.Word.{keyword_text};

use crate::name::push_name;
use crate::number::{push_decimal, push_hex, push_number, push_short_hex, push_string};
use crate::place::{Place, push_opened};
use crate::word::{Keyword, operator_word, push_keyword, serialize_word};
use acpi_term::apart::Kind;
use acpi_term::name_string::NameString;
use std::alloc::AllocError;

fn push_counted(word: &str, n: u8, text: &mut String) -> Result<(), AllocError>
    ensures { OnOk result (string_bytes text.new ≡ string_bytes text.old ++ (word.now ++ decimal n)) }
{
    text.push_str(word)?;
    push_decimal(u64::from(n), text)
}

/// Adds the word of a term in this width.
pub fn push_word(kind: Kind<'_>, width: u8, text: &mut String) -> Result<(), AllocError>
    ensures { OnOk result (string_bytes text.new ≡ string_bytes text.old ++ head_word (head_of kind.entry) width) }
{
    match kind {
        Kind::Number(value) => push_number(value, width, text),
        Kind::Ones => text.push_str("Ones"),
        Kind::Text(s) => push_string(s.as_bytes(), text),
        Kind::Local(n) => push_counted("Local", n, text),
        Kind::Arg(n) => push_counted("Arg", n, text),
        Kind::Call(name) => push_name(name, text),
        Kind::Scope(_) => text.push_str("Scope"),
        Kind::Device(_) => text.push_str("Device"),
        Kind::Method(..) | Kind::LeveledMethod(..) => text.push_str("Method"),
        Kind::PowerResource(..) => text.push_str("PowerResource"),
        Kind::Field(..) => text.push_str("Field"),
        Kind::OpRegion(..) => text.push_str("OperationRegion"),
        Kind::Name(_) => text.push_str("Name"),
        Kind::Mutex(..) => text.push_str("Mutex"),
        Kind::Acquire(..) => text.push_str("Acquire"),
        Kind::Release(_) => text.push_str("Release"),
        Kind::Buffer(_) => text.push_str("Buffer"),
        Kind::Package | Kind::RoomyPackage(_) => text.push_str("Package"),
        Kind::VarPackage => text.push_str("Package /* VarPackage */"),
        Kind::If => text.push_str("If"),
        Kind::While => text.push_str("While"),
        Kind::Else => text.push_str("Else"),
        Kind::Op(op) => text.push_str(operator_word(op)),
        Kind::External(..) => text.push_str("External"),
        Kind::Processor(..) => text.push_str("Processor"),
        Kind::ThermalZone(_) => text.push_str("ThermalZone"),
        Kind::IndexField(..) => text.push_str("IndexField"),
        Kind::BankField(..) => text.push_str("BankField"),
        Kind::Fatal(..) => text.push_str("Fatal"),
        Kind::MatchTest(code) => push_keyword(Keyword::MatchOperator, code, text),
        Kind::Timeout(milliseconds) => push_hex(2, u64::from(milliseconds), text),
        Kind::Unread(..) => Ok(()),
    }
}

fn push_further(word: &str, text: &mut String) -> Result<(), AllocError>
    ensures { OnOk result (string_bytes text.new ≡ string_bytes text.old ++ further word.now) }
{
    text.push_str(", ")?;
    text.push_str(word)
}

/// Adds a comma and the lowest bytes of a number.
pub fn push_further_hex(width: u8, value: u64, text: &mut String) -> Result<(), AllocError>
    ensures { OnOk result (string_bytes text.new ≡ string_bytes text.old ++ further (hex width value)) }
{
    text.push_str(", ")?;
    push_hex(width, value, text)
}

/// Adds a comma and a decimal number.
pub fn push_further_decimal(value: u8, text: &mut String) -> Result<(), AllocError>
    ensures { OnOk result (string_bytes text.new ≡ string_bytes text.old ++ further (decimal value)) }
{
    text.push_str(", ")?;
    push_decimal(u64::from(value), text)
}

fn push_further_keyword(keyword: Keyword, number: u8, text: &mut String) -> Result<(), AllocError>
    ensures { OnOk result (string_bytes text.new ≡ string_bytes text.old ++ further (keyword_text keyword number)) }
{
    text.push_str(", ")?;
    push_keyword(keyword, number, text)
}

#[tactic(auto, using(acpi_read::proofs::Texts::after_three))]
fn push_field_rules(access: u8, lock: u8, update: u8, text: &mut String) -> Result<(), AllocError>
    ensures { OnOk result (string_bytes text.new ≡ string_bytes text.old ++ field_rules access lock update) }
{
    push_further_keyword(Keyword::AccessType, access, text)?;
    push_further_keyword(Keyword::LockRule, lock, text)?;
    push_further_keyword(Keyword::UpdateRule, update, text)
}

fn push_field(
    name: &NameString,
    access: u8,
    lock: u8,
    update: u8,
    text: &mut String,
) -> Result<(), AllocError>
    ensures { OnOk result (string_bytes text.new ≡ string_bytes text.old ++ field_own name.now access lock update) }
{
    push_name(name, text)?;
    push_field_rules(access, lock, update, text)
}

fn push_further_field(
    name: &NameString,
    access: u8,
    lock: u8,
    update: u8,
    text: &mut String,
) -> Result<(), AllocError>
    ensures { OnOk result (string_bytes text.new ≡ string_bytes text.old ++ further (field_own name.now access lock update)) }
{
    text.push_str(", ")?;
    push_field(name, access, lock, update, text)
}

fn push_index_field(
    index: &NameString,
    name: &NameString,
    access: u8,
    lock: u8,
    update: u8,
    text: &mut String,
) -> Result<(), AllocError>
    ensures { OnOk result (string_bytes text.new ≡ string_bytes text.old
        ++ (asl_name index.now ++ further (field_own name.now access lock update))) }
{
    push_name(index, text)?;
    push_further_field(name, access, lock, update, text)
}

#[tactic(auto, using(acpi_read::proofs::Texts::after_three))]
fn push_method(
    name: &NameString,
    args: u8,
    serialized: bool,
    text: &mut String,
) -> Result<(), AllocError>
    ensures { OnOk result (string_bytes text.new ≡ string_bytes text.old ++ method_own name.now args serialized) }
{
    push_name(name, text)?;
    push_further_decimal(args, text)?;
    push_further(serialize_word(serialized), text)
}

fn push_leveled(
    name: &NameString,
    args: u8,
    serialized: bool,
    level: u8,
    text: &mut String,
) -> Result<(), AllocError>
    ensures { OnOk result (string_bytes text.new ≡ string_bytes text.old
        ++ (method_own name.now args serialized ++ further (decimal level))) }
{
    push_method(name, args, serialized, text)?;
    push_further_decimal(level, text)
}

// Adds a name, and a number in this many bytes.
fn push_numbered(
    name: &NameString,
    width: u8,
    value: u64,
    text: &mut String,
) -> Result<(), AllocError>
    ensures { OnOk result (string_bytes text.new ≡ string_bytes text.old ++ (asl_name name.now ++ further (hex width value))) }
{
    push_name(name, text)?;
    push_further_hex(width, value, text)
}

fn push_power(name: &NameString, level: u8, order: u16, text: &mut String) -> Result<(), AllocError>
    ensures { OnOk result (string_bytes text.new ≡ string_bytes text.old
        ++ (asl_name name.now ++ further (hex 1 level) ++ further (hex 2 order))) }
{
    push_numbered(name, 1, u64::from(level), text)?;
    push_further_hex(2, u64::from(order), text)
}

#[tactic(auto, using(acpi_read::proofs::Texts::after_three))]
fn push_processor(
    name: &NameString,
    id: u8,
    address: u32,
    size: u8,
    text: &mut String,
) -> Result<(), AllocError>
    ensures { OnOk result (string_bytes text.new ≡ string_bytes text.old
        ++ (asl_name name.now ++ further (hex 1 id) ++ further (hex 4 address) ++ further (hex 1 size))) }
{
    push_numbered(name, 1, u64::from(id), text)?;
    push_further_hex(4, u64::from(address), text)?;
    push_further_hex(1, u64::from(size), text)
}

fn push_region(name: &NameString, space: u8, text: &mut String) -> Result<(), AllocError>
    ensures { OnOk result (string_bytes text.new ≡ string_bytes text.old
        ++ (asl_name name.now ++ further (keyword_text RegionSpace space))) }
{
    push_name(name, text)?;
    push_further_keyword(Keyword::RegionSpace, space, text)
}

#[tactic(auto, unfolding(crate::specs::Opening::parameter))]
fn push_parameter(text: &mut String) -> Result<(), AllocError>
    ensures { OnOk result (string_bytes text.new ≡ string_bytes text.old ++ parameter) }
{
    text.push_str(", UnknownObj")
}

#[tactic(auto, unfolding(crate::specs::Opening::first_parameter))]
fn push_first_parameter(text: &mut String) -> Result<(), AllocError>
    ensures { OnOk result (string_bytes text.new ≡ string_bytes text.old ++ first_parameter) }
{
    text.push_str(", {UnknownObj")
}

#[cycle(parameters)]
fn push_more_parameters(n: u8, text: &mut String) -> Result<(), AllocError>
    ensures { OnOk result (string_bytes text.new ≡ string_bytes text.old ++ more_parameters n) }
{
    if n == 0 {
        return Ok(());
    }
    push_parameter(text)?;
    push_more_parameters(n - 1, text)
}

#[tactic(auto, using(acpi_read::proofs::Texts::after_four))]
fn push_parameters(n: u8, text: &mut String) -> Result<(), AllocError>
    ensures { OnOk result (string_bytes text.new ≡ string_bytes text.old ++ parameters n) }
{
    if n == 0 {
        return Ok(());
    }
    push_parameter(text)?;
    push_first_parameter(text)?;
    push_more_parameters(n - 1, text)?;
    text.push_str("}")
}

#[tactic(auto, using(acpi_read::proofs::Texts::after_three))]
fn push_external(name: &NameString, kind: u8, args: u8, text: &mut String) -> Result<(), AllocError>
    ensures { OnOk result (string_bytes text.new ≡ string_bytes text.old
        ++ (asl_name name.now ++ further (keyword_text ObjectType kind) ++ parameters args)) }
{
    push_name(name, text)?;
    push_further_keyword(Keyword::ObjectType, kind, text)?;
    push_parameters(args, text)
}

fn push_further_name(name: &NameString, text: &mut String) -> Result<(), AllocError>
    ensures { OnOk result (string_bytes text.new ≡ string_bytes text.old ++ further (asl_name name.now)) }
{
    text.push_str(", ")?;
    push_name(name, text)
}

fn push_bank_field(
    name: &NameString,
    bank: &NameString,
    text: &mut String,
) -> Result<(), AllocError>
    ensures { OnOk result (string_bytes text.new ≡ string_bytes text.old ++ (asl_name name.now ++ further (asl_name bank.now))) }
{
    push_name(name, text)?;
    push_further_name(bank, text)
}

/// Adds the last arguments of a BankField.
pub fn push_rules(access: u8, lock: u8, update: u8, text: &mut String) -> Result<(), AllocError>
    ensures { OnOk result (string_bytes text.new ≡ string_bytes text.old ++ (field_rules access lock update ++ codes ")")) }
{
    push_field_rules(access, lock, update, text)?;
    text.push_str(")")
}

fn push_fatal(kind: u8, code: u32, text: &mut String) -> Result<(), AllocError>
    ensures { OnOk result (string_bytes text.new ≡ string_bytes text.old ++ (hex 1 kind ++ further (hex 4 code))) }
{
    push_hex(1, u64::from(kind), text)?;
    push_further_hex(4, u64::from(code), text)
}

/// Adds the arguments that aren't operands, of a term with this many children.
pub fn push_own(kind: Kind<'_>, count: usize, text: &mut String) -> Result<(), AllocError>
    ensures { OnOk result (string_bytes text.new ≡ string_bytes text.old ++ own (head_of kind.entry) count) }
{
    match kind {
        Kind::Scope(name)
        | Kind::Device(name)
        | Kind::Name(name)
        | Kind::Release(name)
        | Kind::ThermalZone(name) => push_name(name, text),
        Kind::Method(name, args, serialized) => push_method(name, args, serialized, text),
        Kind::LeveledMethod(name, args, serialized, level) => {
            push_leveled(name, args, serialized, level, text)
        }
        Kind::PowerResource(name, level, order) => push_power(name, level, order, text),
        Kind::Field(name, access, lock, update, _) => push_field(name, access, lock, update, text),
        Kind::IndexField(index, name, access, lock, update, _) => {
            push_index_field(index, name, access, lock, update, text)
        }
        Kind::BankField(name, bank, ..) => push_bank_field(name, bank, text),
        Kind::OpRegion(name, space) => push_region(name, space, text),
        Kind::Mutex(name, level) => push_numbered(name, 1, u64::from(level), text),
        Kind::Acquire(name, timeout) => push_numbered(name, 2, u64::from(timeout), text),
        Kind::External(name, kind, args) => push_external(name, kind, args, text),
        Kind::Processor(name, id, address, size) => {
            push_processor(name, id, address, size, text)
        }
        Kind::Package => push_short_hex(count as u64, text),
        Kind::RoomyPackage(room) => push_hex(1, u64::from(room), text),
        Kind::Fatal(kind, code) => push_fatal(kind, code, text),
        Kind::Number(_)
        | Kind::Ones
        | Kind::Text(_)
        | Kind::Local(_)
        | Kind::Arg(_)
        | Kind::Call(_)
        | Kind::Buffer(_)
        | Kind::VarPackage
        | Kind::If
        | Kind::While
        | Kind::Else
        | Kind::MatchTest(_)
        | Kind::Timeout(_)
        | Kind::Unread(..)
        | Kind::Op(_) => Ok(()),
    }
}

/// Whether a term with this many children has parentheses.
pub fn has_parentheses(statement: bool, kind: Kind<'_>, count: usize) -> bool
    ensures { result ≡ has_parentheses statement (head_of kind.entry) count }
{
    match kind {
        Kind::Number(_) | Kind::Ones | Kind::Text(_) | Kind::Local(_) | Kind::Arg(_) | Kind::Else =>
            false,
        Kind::MatchTest(_) | Kind::Timeout(_) => false,
        Kind::Call(_) => statement || count > 0,
        Kind::Op(_) => count > 0,
        _ => true,
    }
}

fn push_begun(
    statement: bool,
    kind: Kind<'_>,
    count: usize,
    text: &mut String,
) -> Result<(), AllocError>
    ensures { OnOk result (string_bytes text.new ≡ string_bytes text.old ++ begun statement (head_of kind.entry) count) }
{
    if !has_parentheses(statement, kind, count) {
        return Ok(());
    }
    text.push_str(" (")?;
    push_own(kind, count, text)
}

#[tactic(auto, using(acpi_read::proofs::Texts::after_two))]
#[inline(never)]
fn push_any_head(
    statement: bool,
    kind: Kind<'_>,
    width: u8,
    count: usize,
    text: &mut String,
) -> Result<(), AllocError>
    ensures { OnOk result (string_bytes text.new ≡ string_bytes text.old
        ++ (head_word (head_of kind.entry) width ++ begun statement (head_of kind.entry) count)) }
{
    push_word(kind, width, text)?;
    push_begun(statement, kind, count, text)
}

// Adds the word of a term, and what stands in its parentheses before its operands. The most frequent of those with a name are
// written with fewer calls.
#[inline(always)]
fn push_head(
    statement: bool,
    kind: Kind<'_>,
    width: u8,
    count: usize,
    text: &mut String,
) -> Result<(), AllocError>
    ensures { OnOk result (string_bytes text.new ≡ string_bytes text.old
        ++ (head_word (head_of kind.entry) width ++ begun statement (head_of kind.entry) count)) }
{
    match kind {
        Kind::Name(name) => {
            text.push_str("Name (")?;
            push_name(name, text)
        }
        Kind::Device(name) => {
            text.push_str("Device (")?;
            push_name(name, text)
        }
        Kind::Scope(name) => {
            text.push_str("Scope (")?;
            push_name(name, text)
        }
        _ => push_any_head(statement, kind, width, count, text),
    }
}

fn push_end(parentheses: bool, text: &mut String) -> Result<(), AllocError>
    ensures { OnOk result (string_bytes text.new ≡ string_bytes text.old ++ (if parentheses then codes ")" else [])) }
{
    if !parentheses {
        return Ok(());
    }
    text.push(')')
}

fn push_ended(
    parentheses: bool,
    inside: Place,
    depth: usize,
    text: &mut String,
) -> Result<(), AllocError>
    ensures { OnOk result (string_bytes text.new ≡ string_bytes text.old
        ++ (if inside.arguments == 0 then (if parentheses then codes ")" else []) ++ opened inside.body depth else [])) }
{
    if inside.arguments > 0 {
        return Ok(());
    }
    push_end(parentheses, text)?;
    push_opened(inside.body, depth, text)
}

/// Adds what stands before the children of a term, which begin in the place `inside`.
#[tactic(auto, using(acpi_read::proofs::Texts::after_two))]
#[inline(always)]
pub fn push_opening(
    statement: bool,
    kind: Kind<'_>,
    width: u8,
    count: usize,
    inside: Place,
    depth: usize,
    text: &mut String,
) -> Result<(), AllocError>
    requires arguments { inside.arguments ≡ (place (head_of kind) count).arguments }
    requires body { inside.body ≡ (place (head_of kind) count).body }
    ensures { OnOk result (string_bytes text.new ≡ string_bytes text.old
        ++ opening statement (head_of kind.entry) width count depth) }
{
    let parentheses = has_parentheses(statement, kind, count);
    push_head(statement, kind, width, count, text)?;
    push_ended(parentheses, inside, depth, text)
}
