//! Packages with room for more elements than they have.

ghost use Rattle.std.specs.Prelude.{map};
ghost use Rattle.acpi_base.specs.Object.{Builds};
ghost use Rattle.acpi_ops.specs.Package.{roomy_package};

use crate::operator::Operation;
use acpi_base::error::{Error, R};
use acpi_base::object::Aml;
use acpi_term::row::{framed, with_room};

/// A list of elements, and the number of elements that there is room for (ACPI 6.5, 20.2.5.4, DefPackage: NumElements). The
/// elements past those that are given are uninitialized (19.6.101).
pub type RoomyPackage = Operation<Roomy, DefPackage>;

/// The room, and then the elements.
pub struct Roomy;

pub struct DefPackage;

impl Operation<Roomy, DefPackage> {
    /// The elements are borrowed for the call. The error is `PackageElements` if there are more elements than room, that of the
    /// first element that fails, or `PkgLength` from 2^28 bytes on.
    pub fn new(room: u8, children: Vec<&dyn Aml>) -> R<Operation<Roomy, DefPackage>>
        ensures { Builds result (roomy_package room (map (λ child. object child.now) children.entry.items)) }
    {
        if children.len() > usize::from(room) {
            return Err(Error::PackageElements);
        }
        let before = with_room(*children.allocator(), &[room])?;
        let bytes = framed(&[0x12], before, &children, &[])?;
        Ok(Operation::of(bytes))
    }
}
