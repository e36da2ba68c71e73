//! Operation regions.

ghost use Rattle.std.specs.Prelude.{[], ◌∷◌};
ghost use Rattle.acpi_base.specs.Object.{Builds};
ghost use Rattle.acpi_term.specs.Tree.{def_op_region};
ghost use Rattle.acpi_term.specs.Row.{row};
ghost use Rattle.acpi_aml.specs.Region.{region_space};

use crate::path::Path;
use crate::written::Written;
use acpi_base::error::R;
use acpi_base::object::Aml;
use acpi_term::row::{bare_on, insert};

/// The address spaces of operation regions (ACPI 6.5, 20.2.5.2, RegionSpace).
#[derive(Clone, Copy, Debug, PartialEq)]
pub enum OpRegionSpace {
    SystemMemory,
    SystemIO,
    PCIConfig,
    EmbeddedControl,
    SMBus,
    SystemCMOS,
    PciBarTarget,
    IPMI,
    GeneralPurposeIO,
    GenericSerialBus,
}

/// A region of an address space, which fields divide (ACPI 6.5, 20.2.5.2, DefOpRegion).
pub type OpRegion = Written<DefOpRegion>;

pub struct DefOpRegion;

impl OpRegion {
    /// Offset and length are in bytes, and are borrowed for the call. The error is that of the offset, or that of the length.
    pub fn new(path: Path, space: OpRegionSpace, offset: &dyn Aml, length: &dyn Aml) -> R<OpRegion>
        ensures { Builds result (row (def_op_region path (region_space space)) (object offset.now ∷ object length.now ∷ [])) }
    {
        let mut before = path.bytes;
        insert(&mut before, 0, &[0x5b, 0x80], &[])?;
        before.push(space as u8)?;
        let bytes = bare_on(before, &[offset, length])?;
        Ok(Written::of(bytes))
    }
}
