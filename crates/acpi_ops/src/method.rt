//! Methods with a synchronization level.

ghost use Rattle.std.specs.Prelude.{map};
ghost use Rattle.acpi_base.specs.Object.{Builds};
ghost use Rattle.acpi_ops.specs.Method.{leveled_method};

use crate::operator::Operation;
use acpi_aml::path::Path;
use acpi_base::buffer::append_value;
use acpi_base::error::{Error, R};
use acpi_base::object::Aml;
use acpi_term::row::framed;

/// A control method with a synchronization level (ACPI 6.5, 20.2.5.2, DefMethod: MethodFlags).
pub type LeveledMethod = Operation<Leveled, DefMethod>;

/// The number of arguments, whether serialized, and the level.
pub struct Leveled;

pub struct DefMethod;

impl Operation<Leveled, DefMethod> {
    /// `args` is the number of arguments, and `level` the synchronization level from 0 to 15. A method with level 0 is a
    /// `Method`. The error is `FieldWidth` past level 15, `MethodArgs` past 7 arguments, that of the first child that fails, or
    /// `PkgLength` from 2^28 bytes on.
    pub fn new(
        path: Path,
        args: u8,
        serialized: bool,
        level: u8,
        children: Vec<&dyn Aml>,
    ) -> R<Operation<Leveled, DefMethod>>
        ensures { Builds result (leveled_method path args serialized level (map (λ child. object child.now)
            children.entry.items)) }
    {
        if level > 15 {
            return Err(Error::FieldWidth);
        }
        if args > 7 {
            return Err(Error::MethodArgs);
        }
        let mut before = Vec::new(*children.allocator());
        append_value(&path, &mut before)?;
        before.push(if serialized { args + 8 } else { args } + 16 * level)?;
        let bytes = framed(&[0x14], before, &children, &[])?;
        Ok(Operation::of(bytes))
    }
}
