//! Packages.

ghost use Rattle.std.specs.Prelude.{[], ◌∷◌, map};
ghost use Rattle.acpi_base.specs.Object.{Builds};
ghost use Rattle.acpi_term.specs.Tree.{def_package, def_var_package};
ghost use Rattle.acpi_term.specs.Row.{row};

use crate::written::Written;
use acpi_base::error::{Error, R};
use acpi_base::object::Aml;
use acpi_term::row::{framed, with_room};
use std::alloc::Global;

/// A list of elements with their number (ACPI 6.5, 20.2.5.4, DefPackage).
pub type Package = Written<DefPackage>;

pub struct DefPackage;

impl Package {
    /// The elements are borrowed for the call. The error is `PackageElements` past 255 elements, that of the first element that
    /// fails, or `PkgLength` from 2^28 bytes on.
    pub fn new(children: Vec<&dyn Aml>) -> R<Package>
        ensures { Builds result (row def_package (map (λ child. object child.now) children.entry.items)) }
    {
        let Ok(count) = u8::try_from(children.len()) else {
            return Err(Error::PackageElements);
        };
        let before = with_room(*children.allocator(), &[count])?;
        let bytes = framed(&[0x12], before, &children, &[])?;
        Ok(Written::of(bytes))
    }
}

/// A list whose number of elements is a term that is evaluated at run time (ACPI 6.5, 20.2.5.4, DefVarPackage).
pub type VarPackageTerm = Written<DefVarPackage>;

pub struct DefVarPackage;

impl VarPackageTerm {
    /// `contents` writes the number of elements and then the elements. The error is that of `contents`, or `PkgLength` from 2^28
    /// bytes on.
    pub fn new(alloc: Global, contents: &dyn Aml) -> R<VarPackageTerm>
        ensures { Builds result (row def_var_package (object contents.now ∷ [])) }
    {
        let before = with_room(alloc, &[])?;
        let bytes = framed(&[0x13], before, &[contents], &[])?;
        Ok(Written::of(bytes))
    }
}
