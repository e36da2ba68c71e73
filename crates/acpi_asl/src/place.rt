//! Where terms stand in the text of another: in its parentheses, or in its braces.

ghost use Rattle.std.specs.Prelude.{◌≡◌, ◌++◌, [], codes, if◌then◌else◌, IfOk, OnOk, string_bytes};
ghost use Rattle.acpi_term.specs.View.{head_of};
ghost use Rattle.acpi_asl.specs.Place.{has_uuids, tags_by, tags, place_in, targets, place, next, has_braces};
ghost use Rattle.acpi_asl.specs.Place.{is_elements, is_statements, is_statement, is_null};
ghost use Rattle.acpi_asl.specs.Place.{is_left_out, spaces, new_line, depth_in, opened, closed, separator, before, after};

use acpi_term::apart::Kind;
use acpi_term::op::Op;
use acpi_terms_text::id::has_ids;
use acpi_terms_text::path::last_segment;
use std::alloc::AllocError;

/// What stands in the braces of a term.
#[derive(Clone, Copy, PartialEq, Eq)]
pub enum Body {
    /// The term has no braces.
    Absent,
    Statements,
    Elements,
    /// The entries of a field, or the bytes of a buffer.
    Rows,
}

/// Where a term stands: in the parentheses of another, or in its braces.
#[derive(Clone, Copy)]
pub struct Place {
    /// How many arguments in the parentheses begin here.
    pub arguments: usize,
    /// Whether something stands before the term there.
    pub led: bool,
    /// How many of the last arguments are targets, which may be left out.
    pub targets: usize,
    pub body: Body,
    /// Whether numbers are ids: the value of `_HID` or `_CID`, or an element of a package there.
    pub ids: bool,
    /// Whether buffers of 16 bytes are UUIDs: the operands of a comparison.
    pub uuids: bool,
    /// The number from which the tags of a resource template count.
    pub tags: u32,
    /// Whether the term before is a block of External statements.
    pub externals: bool,
}

/// Where the terms of a block stand.
pub(crate) const STATEMENTS: Place = Place {
    arguments: 0,
    led: false,
    targets: 0,
    body: Body::Statements,
    ids: false,
    uuids: false,
    tags: 0,
    externals: false,
};

/// How many of an operator's last operands are targets (ACPI 6.5, 19.2.5).
pub fn targets(op: Op) -> usize
    ensures { result ≡ targets op }
{
    match op {
        Op::Divide => 2,
        Op::Add
        | Op::Concat
        | Op::Subtract
        | Op::Multiply
        | Op::ShiftLeft
        | Op::ShiftRight
        | Op::And
        | Op::Nand
        | Op::Or
        | Op::Nor
        | Op::Xor
        | Op::ConcatRes
        | Op::Mod
        | Op::Index
        | Op::ToString
        | Op::ToBuffer
        | Op::ToInteger
        | Op::Mid
        | Op::Not
        | Op::FindSetLeftBit
        | Op::FindSetRightBit
        | Op::ToDecimalString
        | Op::ToHexString
        | Op::CondRefOf
        | Op::FromBCD
        | Op::ToBCD => 1,
        _ => 0,
    }
}

fn in_place(arguments: usize, led: bool, targets: usize, body: Body) -> Place
    ensures { result ≡ Rattle.acpi_asl.specs.Place.in_place arguments led targets body }
{
    Place {
        arguments,
        led,
        targets,
        body,
        ids: false,
        uuids: false,
        tags: 0,
        externals: false,
    }
}

/// Where the children of a term begin, if there are this many.
#[inline(always)]
pub fn place_of(kind: Kind<'_>, count: usize) -> Place
    ensures { result ≡ place (head_of kind.entry) count }
{
    match kind {
        Kind::Call(_) => in_place(count, false, 0, Body::Absent),
        Kind::Op(op) => in_place(count, false, targets(op), Body::Absent),
        Kind::Name(_) | Kind::Fatal(..) => in_place(1, true, 0, Body::Absent),
        // The value of a BankField is followed by other arguments, and the operand of a test by another argument of the Match.
        Kind::BankField(..) | Kind::MatchTest(_) => in_place(2, true, 0, Body::Absent),
        Kind::OpRegion(..) => in_place(2, true, 0, Body::Absent),
        Kind::If | Kind::While => in_place(1, false, 0, Body::Statements),
        Kind::VarPackage => in_place(1, false, 0, Body::Elements),
        Kind::Buffer(_) => in_place(1, false, 0, Body::Rows),
        Kind::Package | Kind::RoomyPackage(_) => in_place(0, false, 0, Body::Elements),
        Kind::Field(..) | Kind::IndexField(..) => in_place(0, false, 0, Body::Rows),
        Kind::Scope(_)
        | Kind::Device(_)
        | Kind::Method(..)
        | Kind::LeveledMethod(..)
        | Kind::PowerResource(..)
        | Kind::Processor(..)
        | Kind::ThermalZone(_)
        | Kind::Else => in_place(0, false, 0, Body::Statements),
        Kind::Number(_)
        | Kind::Ones
        | Kind::Text(_)
        | Kind::Local(_)
        | Kind::Arg(_)
        | Kind::Timeout(_) => in_place(0, false, 0, Body::Absent),
        Kind::Mutex(..) | Kind::Acquire(..) | Kind::Release(_) => in_place(
            0,
            false,
            0,
            Body::Absent,
        ),
        Kind::External(..) | Kind::Unread(..) => in_place(0, false, 0, Body::Absent),
    }
}

fn has_uuids(kind: Kind<'_>) -> bool
    ensures { result ≡ has_uuids (head_of kind.entry) }
{
    match kind {
        Kind::Op(Op::LEqual) => true,
        _ => false,
    }
}

// The number of the tags in the resource template that is the value of a name.
fn tags_by(segment: &[u8]) -> u32
    ensures { result ≡ tags_by segment.now }
{
    match segment {
        [a, b, c, d] => {
            1021 * u32::from(*a) + 509 * u32::from(*b) + 251 * u32::from(*c) + 67 * u32::from(*d)
        }
        _ => 0,
    }
}

fn tags(kind: Kind<'_>) -> u32
    ensures { result ≡ tags (head_of kind.entry) }
{
    match kind {
        Kind::Name(name) => tags_by(last_segment(name.as_bytes())),
        _ => 0,
    }
}

/// Where the children of a term stand, if the term itself stands in a place.
pub fn place_in(place: Place, kind: Kind<'_>, count: usize) -> Place
    ensures { result ≡ place_in place (head_of kind.entry) count }
{
    let inside = place_of(kind, count);
    Place {
        arguments: inside.arguments,
        led: inside.led,
        targets: inside.targets,
        body: inside.body,
        ids: has_ids(place.ids, kind),
        uuids: has_uuids(kind),
        tags: tags(kind),
        externals: inside.externals,
    }
}

/// The place after one term, which is a block of External statements or not.
pub fn next(place: Place, externals: bool) -> Place
    ensures { result ≡ next place externals }
{
    Place {
        arguments: place.arguments.saturating_sub(1),
        led: place.arguments != 1,
        targets: place.targets,
        body: place.body,
        ids: place.ids,
        uuids: place.uuids,
        tags: place.tags,
        externals,
    }
}

fn has_braces(body: Body) -> bool
    ensures { result ≡ has_braces body }
{
    match body {
        Body::Absent => false,
        _ => true,
    }
}

fn is_elements(body: Body) -> bool
    ensures { result ≡ is_elements body }
{
    match body {
        Body::Elements => true,
        _ => false,
    }
}

fn is_statements(body: Body) -> bool
    ensures { result ≡ is_statements body }
{
    match body {
        Body::Statements => true,
        _ => false,
    }
}

/// Whether a term in this place is a statement.
pub fn is_statement(place: Place) -> bool
    ensures { result ≡ is_statement place }
{
    place.arguments == 0 && is_statements(place.body)
}

/// Whether a term is the byte of NullName and Zero.
pub fn is_null(kind: Kind<'_>, width: u8) -> bool
    ensures { result ≡ is_null (head_of kind.entry) width }
{
    match kind {
        Kind::Number(value) => value == 0 && width == 0,
        _ => false,
    }
}

/// Whether a term in this place is a target that is left out.
pub fn is_left_out(place: Place, kind: Kind<'_>, width: u8) -> bool
    ensures { result ≡ is_left_out place (head_of kind.entry) width }
{
    1 <= place.arguments && place.arguments <= place.targets && is_null(kind, width)
}

/// Begins a line.
pub fn push_line(depth: usize, text: &mut String) -> Result<(), AllocError>
    ensures { OnOk result (string_bytes text.new ≡ string_bytes text.old ++ new_line depth) }
{
    match depth {
        0 => text.push('\n'),
        1 => text.push_str("\n    "),
        2 => text.push_str("\n        "),
        3 => text.push_str("\n            "),
        4 => text.push_str("\n                "),
        5 => text.push_str("\n                    "),
        6 => text.push_str("\n                        "),
        _ => push_deep_line(depth, text),
    }
}

fn push_deep_line(depth: usize, text: &mut String) -> Result<(), AllocError>
    ensures { OnOk result (string_bytes text.new ≡ string_bytes text.old ++ new_line depth) }
{
    text.push('\n')?;
    push_spaces(depth, text)
}

/// Adds the indentation of a line.
pub fn push_spaces(depth: usize, text: &mut String) -> Result<(), AllocError>
    ensures { OnOk result (string_bytes text.new ≡ string_bytes text.old ++ spaces depth) }
{
    'levels: for _level in 0..depth {
        text.push_str("    ")?;
    }
    Ok(())
}

/// The depth of a term in a place of a term at this depth.
pub fn depth_in(place: Place, depth: usize) -> Result<usize, AllocError>
    ensures { IfOk result (λ inner. inner ≡ depth_in place depth) }
{
    if place.arguments > 0 {
        return Ok(depth);
    }
    // No memory has room for an indentation of this depth.
    depth.checked_add(1).ok_or(AllocError)
}

/// Begins the braces of a term, if it has any.
pub fn push_opened(body: Body, depth: usize, text: &mut String) -> Result<(), AllocError>
    ensures { OnOk result (string_bytes text.new ≡ string_bytes text.old ++ opened body depth) }
{
    if !has_braces(body) {
        return Ok(());
    }
    push_line(depth, text)?;
    text.push('{')
}

/// Ends the braces of a term, if it has any.
pub fn push_closed(body: Body, depth: usize, text: &mut String) -> Result<(), AllocError>
    ensures { OnOk result (string_bytes text.new ≡ string_bytes text.old ++ closed body depth) }
{
    if !has_braces(body) {
        return Ok(());
    }
    push_line(depth, text)?;
    text.push('}')
}

// An empty text isn't added, since this takes time, too.
fn push_separator(place: Place, left_out: bool, text: &mut String) -> Result<(), AllocError>
    ensures { OnOk result (string_bytes text.new ≡ string_bytes text.old ++ separator place left_out) }
{
    if !place.led {
        return Ok(());
    }
    if place.arguments > 0 {
        return push_argument_comma(left_out && place.arguments == 1, text);
    }
    if is_elements(place.body) {
        text.push(',')
    } else {
        Ok(())
    }
}

fn push_argument_comma(left_out: bool, text: &mut String) -> Result<(), AllocError>
    ensures { OnOk result (string_bytes text.new ≡ string_bytes text.old ++ (if left_out then [] else codes ", ")) }
{
    if left_out {
        return Ok(());
    }
    text.push_str(", ")
}

/// Adds what stands before a term at the depth `inner` in a place of a term at `depth`.
pub fn push_before(
    place: Place,
    left_out: bool,
    depth: usize,
    inner: usize,
    text: &mut String,
) -> Result<(), AllocError>
    requires { inner ≡ depth_in place depth }
    ensures { OnOk result (string_bytes text.new ≡ string_bytes text.old ++ before place left_out depth) }
{
    push_separator(place, left_out, text)?;
    if place.arguments > 0 {
        return Ok(());
    }
    push_line(inner, text)
}

/// Adds what stands after a term in a place of a term at this depth.
pub fn push_after(place: Place, depth: usize, text: &mut String) -> Result<(), AllocError>
    ensures { OnOk result (string_bytes text.new ≡ string_bytes text.old ++ after place depth) }
{
    if place.arguments != 1 {
        return Ok(());
    }
    text.push(')')?;
    push_opened(place.body, depth, text)
}
