//! EISA ids (ACPI 6.5, 19.3.4 and 19.6.37). A function whose name begins with `push` adds to a text.

ghost use Rattle.std.specs.Prelude.{◌≡◌, ◌+◌, ◌<◌, ◌^◌, ◌++◌, true, codes, OnOk, string_bytes};
ghost use Rattle.acpi_asl.specs.Eisa.{is_eisa, id_text, eisa_text, json_eisa};
ghost use Rattle.acpi_terms_text.specs.Eisa.{is_id, letters};

use crate::number::push_digits;
use acpi_terms_text::eisa::{is_id, push_letters};
use std::alloc::AllocError;

/// Whether a number in this many bytes is an id.
pub fn is_eisa(width: u8, value: u64) -> bool
    ensures { result ≡ is_eisa width value }
{
    width == 4 && value < 0x1_0000_0000 && is_id((value as u32).swap_bytes())
}

#[tactic(auto, unfolding(crate::specs::Eisa::id_text))]
fn push_id(id: u32, text: &mut String) -> Result<(), AllocError>
    requires { is_id id ≡ true }
    ensures { OnOk result (string_bytes text.new ≡ string_bytes text.old ++ id_text id) }
{
    push_letters(id, text)?;
    push_digits(2, u64::from(id), text)
}

#[tactic(auto, using(acpi_read::proofs::Texts::after_three))]
fn push_macro(id: u32, text: &mut String) -> Result<(), AllocError>
    requires { is_id id ≡ true }
    ensures { OnOk result (string_bytes text.new ≡ string_bytes text.old ++ (codes "EisaId (\"" ++ id_text id ++ codes "\")")) }
{
    text.push_str("EisaId (\"")?;
    push_id(id, text)?;
    text.push_str("\")")
}

#[tactic(auto, using(acpi_read::proofs::Texts::after_three))]
fn push_json_id(id: u32, text: &mut String) -> Result<(), AllocError>
    requires { is_id id ≡ true }
    ensures { OnOk result (string_bytes text.new ≡ string_bytes text.old ++ (codes "\"" ++ id_text id ++ codes "\"")) }
{
    text.push_str("\"")?;
    push_id(id, text)?;
    text.push_str("\"")
}

/// Adds a number in this many bytes that is an id, as a string of JSON.
#[tactic(auto, unfolding(crate::specs::Eisa::json_eisa))]
pub fn push_json_eisa(width: u8, value: u64, text: &mut String) -> Result<(), AllocError>
    requires { is_eisa width value ≡ true }
    ensures { OnOk result (string_bytes text.new ≡ string_bytes text.old ++ json_eisa value) }
{
    push_json_id((value as u32).swap_bytes(), text)
}

/// Adds a number in this many bytes that is an id.
#[inline(never)]
pub fn push_eisa(width: u8, value: u64, text: &mut String) -> Result<(), AllocError>
    requires { is_eisa width value ≡ true }
    ensures { OnOk result (string_bytes text.new ≡ string_bytes text.old ++ eisa_text value) }
{
    push_macro((value as u32).swap_bytes(), text)
}
