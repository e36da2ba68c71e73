//! Methods, method calls, arguments and local variables.

ghost use Rattle.std.specs.Prelude.{[], map};
ghost use Rattle.acpi_base.specs.Object.{Builds};
ghost use Rattle.acpi_term.specs.Tree.{def_method, call, arg, local};
ghost use Rattle.acpi_term.specs.Row.{row};
ghost use Rattle.acpi_aml.specs.EndsWell.{arg_ends_well, local_ends_well};

use crate::path::Path;
use crate::written::Written;
use acpi_base::error::{Error, R};
use acpi_base::object::Aml;
use acpi_base::sink::AmlSink;
use acpi_term::row::{bare_on, framed};

/// A control method (ACPI 6.5, 20.2.5.2, DefMethod).
pub type Method = Written<DefMethod>;

pub struct DefMethod;

impl Method {
    /// `args` is the number of arguments. The error is `MethodArgs` past 7, that of the first child that fails, or `PkgLength`
    /// from 2^28 bytes on.
    pub fn new(path: Path, args: u8, serialized: bool, children: Vec<&dyn Aml>) -> R<Method>
        ensures { Builds result (row (def_method path args serialized) (map (λ child. object child.now) children.entry.items)) }
    {
        if args > 7 {
            return Err(Error::MethodArgs);
        }
        let mut before = path.bytes;
        before.push(if serialized { args + 8 } else { args })?;
        let bytes = framed(&[0x14], before, &children, &[])?;
        Ok(Written::of(bytes))
    }
}

/// A call of a method with its arguments (ACPI 6.5, 20.2.5, MethodInvocation).
pub type MethodCall = Written<MethodInvocation>;

pub struct MethodInvocation;

impl MethodCall {
    /// The arguments are borrowed for the call. The error is that of the first argument that fails.
    pub fn new(path: Path, args: Vec<&dyn Aml>) -> R<MethodCall>
        ensures { Builds result (row (call path) (map (λ child. object child.now) args.entry.items)) }
    {
        let bytes = bare_on(path.bytes, &args)?;
        Ok(Written::of(bytes))
    }
}

/// An argument of the method, by its number (ACPI 6.5, 20.2.6.1). Writing it returns `ArgNumber` if the number is more than 6.
#[derive(Drop)]
pub struct Arg(pub u8);

impl Aml for Arg {
    ghost object = { λ a. row (arg a.0) [] };

    ghost ends_well = { λ a. arg_ends_well a.0 };

    fn to_aml_bytes(&self, sink: &mut dyn AmlSink) -> R<()> {
        if self.0 > 6 {
            return Err(Error::ArgNumber);
        }
        sink.byte(0x68 + self.0)
    }
}

/// A local variable of the method, by its number (ACPI 6.5, 20.2.6.2). Writing it returns `LocalNumber` if the number is more
/// than 7.
#[derive(Drop)]
pub struct Local(pub u8);

impl Aml for Local {
    ghost object = { λ a. row (local a.0) [] };

    ghost ends_well = { λ a. local_ends_well a.0 };

    fn to_aml_bytes(&self, sink: &mut dyn AmlSink) -> R<()> {
        if self.0 > 7 {
            return Err(Error::LocalNumber);
        }
        sink.byte(0x60 + self.0)
    }
}
