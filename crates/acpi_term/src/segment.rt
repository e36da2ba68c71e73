//! Segments of names (ACPI 6.5, 20.2.2).

ghost use Rattle.std.specs.Prelude.{◌≡◌, ◌∷◌, true};
ghost use Rattle.acpi_term.specs.Name.{is_lead, is_part, is_segment, begins_up};

/// Whether four bytes are a standard segment.
#[tactic(auto, unfolding(crate::specs::Name::is_segment))]
pub fn is_segment(a: u8, b: u8, c: u8, d: u8) -> bool
    ensures { result ≡ is_segment a b c d }
{
    is_lead(a) && is_part(b) && is_part(c) && is_part(d)
}

/// Whether a standard segment may begin with the byte.
pub fn is_lead(b: u8) -> bool
    ensures { result ≡ is_lead b }
{
    b.is_ascii_uppercase() || b == b'_'
}

fn is_part(b: u8) -> bool
    ensures { result ≡ is_part b }
{
    is_lead(b) || b.is_ascii_digit()
}

/// Whether bytes begin with the prefix `^`.
pub fn begins_up(bytes: &[u8]) -> bool
    ensures { result ≡ begins_up bytes.now }
{
    matches!(bytes, [0x5e, ..])
}

/// The bytes after the prefix `^`.
pub fn after_up(bytes: &[u8]) -> &[u8]
    requires { begins_up bytes.now ≡ true }
    ensures { bytes.now ≡ 0x5e ∷ result.now }
{
    match bytes {
        [_, rest @ ..] => rest,
        [] => bytes,
    }
}
