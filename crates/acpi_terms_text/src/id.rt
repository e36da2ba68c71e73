//! Which numbers of a definition block are EISA ids.

ghost use Rattle.std.specs.Prelude.{◌≡◌};
ghost use Rattle.acpi_term.specs.View.{head_of};
ghost use Rattle.acpi_terms_text.specs.Comment.{is_id_name, has_ids};

use crate::path::last_segment;
use acpi_term::apart::Kind;
use acpi_term::name_string::NameString;

/// Returns whether the value of a name can be an EISA id: that of `_HID` and of `_CID` (ACPI 6.5, 6.1.2 and 6.1.5).
pub fn is_id_name(name: &NameString) -> bool
    ensures { result ≡ is_id_name name.now }
{
    let segment = last_segment(name.as_bytes());
    segment == b"_HID".as_slice() || segment == b"_CID".as_slice()
}

/// Returns whether the numbers among a term's children can be EISA ids. Those of a package can, if the package itself stands
/// where one can be.
pub fn has_ids(ids: bool, kind: Kind<'_>) -> bool
    ensures { result ≡ has_ids ids (head_of kind.entry) }
{
    match kind {
        Kind::Name(name) => is_id_name(name),
        Kind::Package | Kind::RoomyPackage(_) => ids,
        _ => false,
    }
}
