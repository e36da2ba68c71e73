//! Which signatures have a form, and which signature is meant by a name that is none.

ghost use Rattle.std.specs.Prelude.{◌≡◌};
ghost use Rattle.acpi_forms.specs.Known.{has_form, is_known, meant_by, meant};

use crate::fixed::UNKNOWN;
use crate::form::form_of;

// Returns whether a signature, as a number, has a form.
fn has_form(signature: u32) -> bool
    ensures { result ≡ has_form signature }
{
    signature == u32::from_le_bytes(*b"RSD ")
        || signature == u32::from_le_bytes(*b"CDAT")
        || signature == u32::from_le_bytes(*b"S3PT")
        || form_of(signature).name != UNKNOWN.name
}

/// Returns whether a text is a signature that has a form. A pointer's is `RSD `, as in the text of a table, and `CDAT` is taken
/// for that of the table without one. The tables of other signatures are shown and made by their header alone.
pub fn is_known(signature: &[u8]) -> bool
    ensures { result ≡ is_known signature.now }
{
    match signature {
        [a, b, c, d] => has_form(u32::from_le_bytes([*a, *b, *c, *d])),
        _ => false,
    }
}

// Returns the signature that a name in upper case means.
fn meant_by(name: [u8; 4]) -> Option<[u8; 4]>
    ensures { result ≡ meant_by name }
{
    match &name {
        b"MADT" => Some(*b"APIC"),
        b"FADT" => Some(*b"FACP"),
        b"RSDP" => Some(*b"RSD "),
        _ => { if is_known(&name) { Some(name) } else { None } }
    }
}

/// Returns the signature that a name means: that of the table which the standard calls so (MADT, FADT and RSDP), or the name
/// itself in upper case if this is known.
pub fn meant(name: &[u8]) -> Option<[u8; 4]>
    ensures { result ≡ meant name.now }
{
    match name {
        [a, b, c, d] => meant_by([
            a.to_ascii_uppercase(),
            b.to_ascii_uppercase(),
            c.to_ascii_uppercase(),
            d.to_ascii_uppercase(),
        ]),
        _ => None,
    }
}
