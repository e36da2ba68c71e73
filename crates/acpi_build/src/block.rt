//! Blocks: terms that are written call by call.

ghost use Rattle.std.specs.Prelude.{◌≡◌, [], ◌∷◌, map, Ok};
ghost use Rattle.acpi_term.specs.declared.op.Op.TheVariants.{Return};
ghost use Rattle.acpi_term.specs.Tree.{op};
ghost use Rattle.acpi_term.specs.Row.{row};
ghost use Rattle.acpi_build.specs.Block.{empty, with_object, with_name, with_call, with_scope, with_device, with_method};
ghost use Rattle.acpi_build.specs.Block.{with_external, with_operator, with_power_resource, with_thermal_zone, with_processor};
ghost use Rattle.acpi_build.specs.Block.{with_package, with_named_package, with_resources, with_if, with_while, with_else};
ghost use Rattle.acpi_build.specs.Block.{closed, finished_block, kept, out_of_memory, seen};
ghost use Rattle.acpi_build.specs.Block.{with_region, with_field, with_mutex, with_acquire, with_release};
ghost use Rattle.acpi_build.specs.Block.{with_field_list, with_leveled_method, with_roomy_package, with_named_roomy_package};
ghost use Rattle.acpi_build.specs.State.{Does};

use crate::error::BuildError;
use crate::level::Content;
use crate::writer::Writer;
use acpi_aml::field::{FieldAccessType, FieldEntry, FieldLockRule, FieldUpdateRule};
use acpi_aml::region::OpRegionSpace;
use acpi_base::object::Aml;
use acpi_ops::element::FieldElement;
use acpi_term::op::Op;
use std::alloc::Global;
use std::marker::Model;

/// Terms that are written call by call (ACPI 6.5, 20.2.5). A call that begins an object is followed by calls for what is in it,
/// and then by `end`. No call returns an error: the block keeps the first one, the calls after it do nothing, and `finish`
/// returns it. The path of an object is the text of any name of the standard, as `Path::name_string` takes it.
#[derive(Drop)]
pub struct Block {
    writer: Writer,
    error: Option<BuildError>,
}

impl Model for Block {
    ghost use Rattle.acpi_build.specs.Block.{Block, state_of};

    ghost Value = { Block };

    ghost view = { λ b. state_of b.writer b.error };
}

impl Block {
    /// No terms.
    pub fn new(alloc: Global) -> Block
        ensures { result ≡ Ok empty }
    {
        Block {
            writer: Writer::new(alloc),
            error: None,
        }
    }

    // Keeps the error of a call.
    fn keep(&mut self, outcome: Result<(), BuildError>)
        ensures { self.new ≡ kept self.old outcome }
    {
        if let Err(error) = outcome {
            self.error = Some(error);
        }
    }

    /// Adds any object. Its error is the object's, or `PackageElements` if the innermost open object is a package that has 255
    /// elements already, or as many as it has room for.
    pub fn add(&mut self, aml: &dyn Aml)
        ensures { Does out_of_memory (with_object (object aml.now)) self.old self.new }
    {
        if self.error.is_none() {
            let outcome = self.writer.add(aml);
            self.keep(outcome);
        }
    }

    /// Adds an object with a name (ACPI 6.5, 20.2.5.1, DefName). Its errors are those of `add`, and `NamePart` or `PathParts` of
    /// the path.
    pub fn name(&mut self, path: &str, value: &dyn Aml)
        ensures { Does out_of_memory (with_name path.now (object value.now)) self.old self.new }
    {
        if self.error.is_none() {
            let outcome = self.writer.name(path, value);
            self.keep(outcome);
        }
    }

    /// Adds a call of a method with its arguments, or a name alone (ACPI 6.5, 20.2.5, MethodInvocation). Its errors are those of
    /// `name`.
    pub fn call(&mut self, path: &str, args: &[&dyn Aml])
        ensures { Does out_of_memory (with_call path.now (map (λ a. object a.now) args.now)) self.old self.new }
    {
        if self.error.is_none() {
            let outcome = self.writer.call(path, args);
            self.keep(outcome);
        }
    }

    /// Declares an object of another block (ACPI 6.5, 20.2.5.2, DefExternal): its type (19.6.45), and the number of arguments if
    /// it is a method. Its errors are those of `name`.
    pub fn external(&mut self, path: &str, kind: u8, args: u8)
        ensures { Does out_of_memory (with_external path.now kind args) self.old self.new }
    {
        if self.error.is_none() {
            let outcome = self.writer.external(path, kind, args);
            self.keep(outcome);
        }
    }

    /// Adds a region of an address space (ACPI 6.5, 20.2.5.2, DefOpRegion). Offset and length are in bytes. Its errors are those
    /// of `name`, and then that of the offset or of the length.
    pub fn region(&mut self, path: &str, space: OpRegionSpace, offset: &dyn Aml, length: &dyn Aml)
        ensures { Does out_of_memory (with_region path.now space (object offset.now) (object length.now)) self.old self.new }
    {
        if self.error.is_none() {
            let outcome = self.writer.region(path, space, offset, length);
            self.keep(outcome);
        }
    }

    /// Adds names for bits of a region (ACPI 6.5, 20.2.5.2, DefField). Its errors are those of `name`, and `PkgLength` if an
    /// entry has 2^28 bits or more.
    pub fn field(
        &mut self,
        path: &str,
        access: FieldAccessType,
        lock: FieldLockRule,
        update: FieldUpdateRule,
        entries: &[FieldEntry],
    )
        ensures { Does out_of_memory (with_field path.now access lock update entries.now) self.old self.new }
    {
        if self.error.is_none() {
            let outcome = self.writer.field(path, access, lock, update, entries);
            self.keep(outcome);
        }
    }

    /// Adds names for bits of a region, with any elements: also how the bits are accessed, and connections (ACPI 6.5, 20.2.5.2,
    /// DefField). Its errors are those of `field`.
    pub fn field_list(
        &mut self,
        path: &str,
        access: FieldAccessType,
        lock: FieldLockRule,
        update: FieldUpdateRule,
        elements: Vec<FieldElement>,
    )
        ensures { Does out_of_memory (with_field_list path.now access lock update elements.items) self.old self.new }
    {
        if self.error.is_none() {
            let outcome = self.writer.field_list(path, access, lock, update, elements);
            self.keep(outcome);
        }
    }

    /// Adds a mutex and its sync level (ACPI 6.5, 20.2.5.2, DefMutex). Its errors are those of `name`.
    pub fn mutex(&mut self, path: &str, level: u8)
        ensures { Does out_of_memory (with_mutex path.now level) self.old self.new }
    {
        if self.error.is_none() {
            let outcome = self.writer.mutex(path, level);
            self.keep(outcome);
        }
    }

    /// Adds a statement that acquires a mutex, with a timeout in milliseconds; 0xffff waits without a limit (ACPI 6.5, 20.2.5.4,
    /// DefAcquire). Its errors are those of `name`.
    pub fn acquire(&mut self, path: &str, timeout: u16)
        ensures { Does out_of_memory (with_acquire path.now timeout) self.old self.new }
    {
        if self.error.is_none() {
            let outcome = self.writer.acquire(path, timeout);
            self.keep(outcome);
        }
    }

    /// Adds a statement that releases a mutex (ACPI 6.5, 20.2.5.3, DefRelease). Its errors are those of `name`.
    pub fn release(&mut self, path: &str)
        ensures { Does out_of_memory (with_release path.now) self.old self.new }
    {
        if self.error.is_none() {
            let outcome = self.writer.release(path);
            self.keep(outcome);
        }
    }

    /// Adds an operator and its operands, in the order of their bytes (ACPI 6.5, 20.2.5). The error is `Operands` if it has
    /// another number of operands; otherwise it is that of the first operand that fails.
    pub fn operate(&mut self, operator: Op, operands: &[&dyn Aml])
        ensures { Does out_of_memory (with_operator operator (map (λ a. object a.now) operands.now)) self.old self.new }
    {
        if self.error.is_none() {
            let outcome = self.writer.operate(operator, operands);
            self.keep(outcome);
        }
    }

    /// Adds a statement that returns a value from the method (ACPI 6.5, 20.2.5.3, DefReturn).
    pub fn returns(&mut self, value: &dyn Aml)
        ensures { Does out_of_memory (with_object (row (op Return) (object value.now ∷ []))) self.old self.new }
    {
        if self.error.is_none() {
            let outcome = self.writer.operate(Op::Return, &[value]);
            self.keep(outcome);
        }
    }

    /// Begins a scope (ACPI 6.5, 20.2.5.1, DefScope). The error is `NamePart` or `PathParts` of the path.
    pub fn scope(&mut self, path: &str)
        ensures { Does out_of_memory (with_scope path.now) self.old self.new }
    {
        if self.error.is_none() {
            let outcome = self.writer.open_path(&[0x10], path, &[]);
            self.keep(outcome);
        }
    }

    /// Begins a device (ACPI 6.5, 20.2.5.2, DefDevice). Its errors are those of `scope`.
    pub fn device(&mut self, path: &str)
        ensures { Does out_of_memory (with_device path.now) self.old self.new }
    {
        if self.error.is_none() {
            let outcome = self.writer.open_path(&[0x5b, 0x82], path, &[]);
            self.keep(outcome);
        }
    }

    /// Begins a thermal zone (ACPI 6.5, 20.2.5.2, DefThermalZone). Its errors are those of `scope`.
    pub fn thermal_zone(&mut self, path: &str)
        ensures { Does out_of_memory (with_thermal_zone path.now) self.old self.new }
    {
        if self.error.is_none() {
            let outcome = self.writer.open_path(&[0x5b, 0x85], path, &[]);
            self.keep(outcome);
        }
    }

    /// Begins a processor of ACPI 6.3 and before (ACPI 6.3, 20.2.5.2, DefProcessor): its id, the I/O port of its register block,
    /// and the length of that block. Its errors are those of `scope`.
    pub fn processor(&mut self, path: &str, id: u8, address: u32, size: u8)
        ensures { Does out_of_memory (with_processor path.now id address size) self.old self.new }
    {
        if self.error.is_none() {
            let outcome = self.writer.open_processor(path, id, address, size);
            self.keep(outcome);
        }
    }

    /// Begins a power resource (ACPI 6.5, 20.2.5.2, DefPowerRes). `level` is the deepest sleep level in which it has to stay on,
    /// and `order` its place in the order of power resources. Its errors are those of `scope`.
    pub fn power_resource(&mut self, path: &str, level: u8, order: u16)
        ensures { Does out_of_memory (with_power_resource path.now level order) self.old self.new }
    {
        if self.error.is_none() {
            let outcome = self.writer.open_power_resource(path, level, order);
            self.keep(outcome);
        }
    }

    /// Begins a method with this number of arguments (ACPI 6.5, 20.2.5.2, DefMethod). Its errors are those of `scope`, and then
    /// `MethodArgs` past 7 arguments.
    pub fn method(&mut self, path: &str, args: u8, serialized: bool)
        ensures { Does out_of_memory (with_method path.now args serialized) self.old self.new }
    {
        if self.error.is_none() {
            let outcome = self.writer.open_method(path, args, serialized);
            self.keep(outcome);
        }
    }

    /// Begins a method with a synchronization level from 0 to 15 (ACPI 6.5, 20.2.5.2, DefMethod: MethodFlags). Its errors are
    /// those of `scope`, then `FieldWidth` past level 15, and then `MethodArgs` past 7 arguments.
    pub fn leveled_method(&mut self, path: &str, args: u8, serialized: bool, level: u8)
        ensures { Does out_of_memory (with_leveled_method path.now args serialized level) self.old self.new }
    {
        if self.error.is_none() {
            let outcome = self
                .writer
                .open_leveled_method(path, args, serialized, level);
            self.keep(outcome);
        }
    }

    /// Begins a package without a name (ACPI 6.5, 20.2.5.4, DefPackage). Each object that is added is an element, and their
    /// number is written at the end. There are at most 255.
    pub fn package(&mut self)
        ensures { Does out_of_memory (λ w. Ok (with_package w)) self.old self.new }
    {
        if self.error.is_none() {
            let outcome = self.writer.open(Content::Elements(0), &[0x12], &[]);
            self.keep(outcome);
        }
    }

    /// Begins a package that has a name. Its errors are those of `scope`.
    pub fn named_package(&mut self, path: &str)
        ensures { Does out_of_memory (with_named_package path.now) self.old self.new }
    {
        if self.error.is_none() {
            let outcome = self.writer.open_named(Content::Elements(0), path, 0x12);
            self.keep(outcome);
        }
    }

    /// Begins a package with room for `room` elements (ACPI 6.5, 20.2.5.4, DefPackage: NumElements). Each object that is added
    /// is an element. There are at most as many as there is room for.
    pub fn package_with_room(&mut self, room: u8)
        ensures { Does out_of_memory (λ w. Ok (with_roomy_package room w)) self.old self.new }
    {
        if self.error.is_none() {
            let outcome = self.writer.open(Content::Room(0, room), &[0x12], &[]);
            self.keep(outcome);
        }
    }

    /// Begins a package with room that has a name. Its errors are those of `scope`.
    pub fn named_package_with_room(&mut self, path: &str, room: u8)
        ensures { Does out_of_memory (with_named_roomy_package path.now room) self.old self.new }
    {
        if self.error.is_none() {
            let outcome = self.writer.open_named(Content::Room(0, room), path, 0x12);
            self.keep(outcome);
        }
    }

    /// Begins a buffer of resource descriptors that has a name, such as `_CRS` (ACPI 6.5, 6.4 and 19.6.117). The end tag is
    /// written at the end, and its checksum is 0, which means that it isn't checked. The errors are those of `scope`.
    pub fn resources(&mut self, path: &str)
        ensures { Does out_of_memory (with_resources path.now) self.old self.new }
    {
        if self.error.is_none() {
            let outcome = self.writer.open_named(Content::Descriptors, path, 0x11);
            self.keep(outcome);
        }
    }

    /// Begins statements that are run if a predicate is true (ACPI 6.5, 20.2.5.3, DefIfElse). The error is that of the predicate.
    pub fn if_true(&mut self, predicate: &dyn Aml)
        ensures { Does out_of_memory (with_if (object predicate.now)) self.old self.new }
    {
        if self.error.is_none() {
            let outcome = self.writer.open_test(0xa0, predicate);
            self.keep(outcome);
        }
    }

    /// Begins statements that are run if the predicate of the `if_true` before is false (ACPI 6.5, 20.2.5.3, DefElse).
    pub fn otherwise(&mut self)
        ensures { Does out_of_memory (λ w. Ok (with_else w)) self.old self.new }
    {
        if self.error.is_none() {
            let outcome = self.writer.open(Content::Objects, &[0xa1], &[]);
            self.keep(outcome);
        }
    }

    /// Begins statements that are run as long as a predicate is true (ACPI 6.5, 20.2.5.3, DefWhile). The error is that of the
    /// predicate.
    pub fn while_true(&mut self, predicate: &dyn Aml)
        ensures { Does out_of_memory (with_while (object predicate.now)) self.old self.new }
    {
        if self.error.is_none() {
            let outcome = self.writer.open_test(0xa2, predicate);
            self.keep(outcome);
        }
    }

    /// Ends the object that was begun last. The error is `NoneOpen` if there is none, `PkgLength` from 2^28 bytes on, or
    /// `PackageElements` if it is the 256th element of a package, or one for which the package has no room.
    pub fn end(&mut self)
        ensures { Does out_of_memory closed self.old self.new }
    {
        if self.error.is_none() {
            let outcome = self.writer.close();
            self.keep(outcome);
        }
    }

    /// Returns the bytes of all terms, or the first error. It is `StillOpen` if there is no other error and an object is open.
    pub fn finish(self) -> Result<Vec<u8>, BuildError>
        ensures { seen result ≡ finished_block self }
    {
        match self.error {
            Some(error) => Err(error),
            None => self.writer.finish(),
        }
    }
}
