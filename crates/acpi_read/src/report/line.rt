//! The lines of terms. A function whose name begins with `push` adds to a text.

ghost use Rattle.std.specs.Prelude.{◌≡◌, ◌++◌, [], OnOk, string_bytes, codes};
ghost use Rattle.std.specs.Fmt.{decimal};
ghost use Rattle.acpi_term.specs.Tree.{def_method, def_power_res, def_field};
ghost use Rattle.acpi_term.specs.Tree.{def_external, def_leveled_method, def_processor, def_roomy_package, def_index_field};
ghost use Rattle.acpi_term.specs.Tree.{def_fatal, def_bank_field};
ghost use Rattle.acpi_term.specs.View.{head_of};
ghost use Rattle.acpi_read.specs.Lines.{quoted_bytes, data_text, head_text};

use crate::report::words::{
    push_flag, push_hex, push_named, push_number, push_numbered, push_quoted,
};
use acpi_term::apart::Kind;
use acpi_term::name_string::NameString;
use std::alloc::AllocError;

#[tactic(auto, using(crate::proofs::Texts::after_three))]
fn push_text(bytes: &[u8], text: &mut String) -> Result<(), AllocError>
    ensures { OnOk result (string_bytes text.new ≡ string_bytes text.old
        ++ (codes "text \"" ++ quoted_bytes bytes.now ++ codes "\"")) }
{
    text.push_str("text \"")?;
    push_quoted(bytes, text)?;
    text.push_str("\"")
}

#[tactic(auto, using(crate::proofs::Texts::after_two))]
fn push_method(
    name: &NameString,
    args: u8,
    serialized: bool,
    text: &mut String,
) -> Result<(), AllocError>
    ensures { OnOk result (string_bytes text.new ≡ string_bytes text.old ++ head_text (def_method name.now args serialized) 0) }
{
    push_numbered("method ", name, " args ", u64::from(args), text)?;
    push_flag(" serialized ", serialized, text)
}

#[tactic(auto, using(crate::proofs::Texts::after_two))]
fn push_power(name: &NameString, level: u8, order: u16, text: &mut String) -> Result<(), AllocError>
    ensures { OnOk result (string_bytes text.new ≡ string_bytes text.old ++ head_text (def_power_res name.now level order) 0) }
{
    push_numbered("power ", name, " level ", u64::from(level), text)?;
    push_number(" order ", u64::from(order), text)
}

#[tactic(auto, using(crate::proofs::Texts::after_two, crate::proofs::Texts::after_three))]
fn push_field(
    name: &NameString,
    access: u8,
    lock: u8,
    update: u8,
    text: &mut String,
) -> Result<(), AllocError>
    ensures { OnOk result (string_bytes text.new ≡ string_bytes text.old
        ++ head_text (def_field name.now access lock update []) 0) }
{
    push_numbered("field ", name, " access ", u64::from(access), text)?;
    push_number(" lock ", u64::from(lock), text)?;
    push_number(" update ", u64::from(update), text)
}

#[tactic(auto, using(crate::proofs::Texts::after_two))]
fn push_external(name: &NameString, kind: u8, args: u8, text: &mut String) -> Result<(), AllocError>
    ensures { OnOk result (string_bytes text.new ≡ string_bytes text.old ++ head_text (def_external name.now kind args) 0) }
{
    push_numbered("external ", name, " type ", u64::from(kind), text)?;
    push_number(" args ", u64::from(args), text)
}

#[tactic(auto, using(crate::proofs::Texts::after_two))]
fn push_leveled(
    name: &NameString,
    args: u8,
    serialized: bool,
    level: u8,
    text: &mut String,
) -> Result<(), AllocError>
    ensures { OnOk result (string_bytes text.new ≡ string_bytes text.old
        ++ head_text (def_leveled_method name.now args serialized level) 0) }
{
    push_method(name, args, serialized, text)?;
    push_number(" level ", u64::from(level), text)
}

#[tactic(auto, using(crate::proofs::Texts::after_two, crate::proofs::Texts::after_three))]
fn push_processor(
    name: &NameString,
    id: u8,
    address: u32,
    size: u8,
    text: &mut String,
) -> Result<(), AllocError>
    ensures { OnOk result (string_bytes text.new ≡ string_bytes text.old
        ++ head_text (def_processor name.now id address size) 0) }
{
    push_numbered("processor ", name, " id ", u64::from(id), text)?;
    push_number(" address ", u64::from(address), text)?;
    push_number(" length ", u64::from(size), text)
}

#[tactic(auto, using(crate::proofs::Texts::after_two))]
fn push_rules(lock: u8, update: u8, text: &mut String) -> Result<(), AllocError>
    ensures { OnOk result (string_bytes text.new ≡ string_bytes text.old
        ++ (codes " lock " ++ decimal lock ++ codes " update " ++ decimal update)) }
{
    push_number(" lock ", u64::from(lock), text)?;
    push_number(" update ", u64::from(update), text)
}

#[tactic(auto, using(crate::proofs::Texts::after_three))]
fn push_index_field(
    index: &NameString,
    name: &NameString,
    access: u8,
    lock: u8,
    update: u8,
    text: &mut String,
) -> Result<(), AllocError>
    ensures { OnOk result (string_bytes text.new ≡ string_bytes text.old
        ++ head_text (def_index_field index.now name.now access lock update []) 0) }
{
    push_named("indexfield ", index, text)?;
    push_numbered(" data ", name, " access ", u64::from(access), text)?;
    push_rules(lock, update, text)
}

#[tactic(auto, using(crate::proofs::Texts::after_three))]
fn push_bank_field(
    name: &NameString,
    bank: &NameString,
    access: u8,
    lock: u8,
    update: u8,
    text: &mut String,
) -> Result<(), AllocError>
    ensures { OnOk result (string_bytes text.new ≡ string_bytes text.old
        ++ head_text (def_bank_field name.now bank.now access lock update []) 0) }
{
    push_named("bankfield ", name, text)?;
    push_numbered(" bank ", bank, " access ", u64::from(access), text)?;
    push_rules(lock, update, text)
}

#[tactic(auto, using(crate::proofs::Texts::after_two))]
fn push_room(count: usize, room: u8, text: &mut String) -> Result<(), AllocError>
    ensures { OnOk result (string_bytes text.new ≡ string_bytes text.old ++ head_text (def_roomy_package room) count) }
{
    push_number("package ", count as u64, text)?;
    push_number(" of ", u64::from(room), text)
}

#[tactic(auto, using(crate::proofs::Texts::after_two))]
fn push_fatal(kind: u8, code: u32, text: &mut String) -> Result<(), AllocError>
    ensures { OnOk result (string_bytes text.new ≡ string_bytes text.old ++ head_text (def_fatal kind code) 0) }
{
    push_number("fatal type ", u64::from(kind), text)?;
    push_number(" code ", u64::from(code), text)
}

/// Adds a word, and the digits of bytes after a space.
pub fn push_bytes(word: &str, bytes: &[u8], text: &mut String) -> Result<(), AllocError>
    ensures { OnOk result (string_bytes text.new ≡ string_bytes text.old ++ (word.now ++ data_text bytes.now)) }
{
    text.push_str(word)?;
    if !bytes.is_empty() {
        text.push(' ')?;
        push_hex(bytes, text)?;
    }
    Ok(())
}

/// Adds the line of a term with this many children, without its width.
pub fn push_head(kind: Kind<'_>, count: usize, text: &mut String) -> Result<(), AllocError>
    ensures { OnOk result (string_bytes text.new ≡ string_bytes text.old ++ head_text (head_of kind.entry) count) }
{
    match kind {
        Kind::Number(value) => push_number("number ", value, text),
        Kind::Ones => text.push_str("ones"),
        Kind::Text(s) => push_text(s.as_bytes(), text),
        Kind::Local(n) => push_number("local ", u64::from(n), text),
        Kind::Arg(n) => push_number("arg ", u64::from(n), text),
        Kind::Call(name) => push_numbered("name ", name, " args ", count as u64, text),
        Kind::Scope(name) => push_named("scope ", name, text),
        Kind::Device(name) => push_named("device ", name, text),
        Kind::Method(name, args, serialized) => push_method(name, args, serialized, text),
        Kind::PowerResource(name, level, order) => push_power(name, level, order, text),
        Kind::Field(name, access, lock, update, _) => push_field(name, access, lock, update, text),
        Kind::OpRegion(name, space) => {
            push_numbered("region ", name, " space ", u64::from(space), text)
        }
        Kind::Name(name) => push_named("define ", name, text),
        Kind::Mutex(name, level) => push_numbered(
            "mutex ",
            name,
            " level ",
            u64::from(level),
            text,
        ),
        Kind::Acquire(name, timeout) => {
            push_numbered("acquire ", name, " timeout ", u64::from(timeout), text)
        }
        Kind::Release(name) => push_named("release ", name, text),
        Kind::Buffer(bytes) => push_bytes("buffer data", bytes, text),
        Kind::Package => push_number("package ", count as u64, text),
        Kind::VarPackage => text.push_str("varpackage"),
        Kind::If => text.push_str("if"),
        Kind::While => text.push_str("while"),
        Kind::Else => text.push_str("else"),
        Kind::Op(op) => text.push_str(op.word()),
        Kind::External(name, kind, args) => push_external(name, kind, args, text),
        Kind::LeveledMethod(name, args, serialized, level) => {
            push_leveled(name, args, serialized, level, text)
        }
        Kind::Processor(name, id, address, size) => push_processor(name, id, address, size, text),
        Kind::ThermalZone(name) => push_named("thermalzone ", name, text),
        Kind::RoomyPackage(room) => push_room(count, room, text),
        Kind::IndexField(index, name, access, lock, update, _) => {
            push_index_field(index, name, access, lock, update, text)
        }
        Kind::BankField(name, bank, access, lock, update, _) => {
            push_bank_field(name, bank, access, lock, update, text)
        }
        Kind::Fatal(kind, code) => push_fatal(kind, code, text),
        Kind::MatchTest(code) => push_number("test ", u64::from(code), text),
        Kind::Timeout(milliseconds) => push_number("timeout ", u64::from(milliseconds), text),
        Kind::Unread(_, bytes) => push_bytes("unread", bytes, text),
    }
}
