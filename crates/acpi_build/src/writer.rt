//! Terms that are written call by call, with an error of each call.

ghost use Rattle.std.specs.Prelude.{◌≡◌, ◌≤◌, ◌++◌, [], ◌∷◌, length, take, drop, map, Ok, OnOk, IfErr};
ghost use Rattle.acpi_base.specs.Object.{whole, Appended, IsOwnEnd};
ghost use Rattle.acpi_term.specs.Row.{frame};
ghost use Rattle.acpi_build.specs.Block.{empty, within, with_object, with_name, with_call, with_method, opened, closed};
ghost use Rattle.acpi_build.specs.Block.{with_power_resource, with_region, with_field, with_mutex, with_acquire, with_release};
ghost use Rattle.acpi_build.specs.Block.{with_external, with_operator, with_processor, at_path, finished, seen, IsStep};
ghost use Rattle.acpi_build.specs.Block.{with_leveled_method, with_field_list};
ghost use Rattle.acpi_build.specs.declared.level.Content.TheVariants as Content;

use crate::error::BuildError;
use crate::level::{Content, Level};
use acpi_aml::field::{Field, FieldAccessType, FieldEntry, FieldLockRule, FieldUpdateRule};
use acpi_aml::name_text::name_bytes;
use acpi_aml::path::Path;
use acpi_aml::region::OpRegionSpace;
use acpi_base::buffer::{append, append_all, append_value};
use acpi_base::error::{Error, R};
use acpi_base::object::Aml;
use acpi_ops::element::{FieldElement, FieldList};
use acpi_term::op::Op;
use acpi_term::row::{frame_length, insert};
use std::alloc::Global;
use std::marker::Model;

/// Terms that are being written. After an error they are of no use.
#[derive(Drop)]
pub(crate) struct Writer {
    bytes: Vec<u8>,
    level: Level,
    outer: Vec<Level>,
}

impl Model for Writer {
    ghost use Rattle.acpi_build.specs.Block.{Writing, writing};

    ghost Value = { Writing };

    ghost view = { λ w. writing w.bytes.items w.level w.outer.items };
}

// The offset, or the end of the bytes if that is before it.
fn within_bytes(start: usize, bytes: &[u8]) -> usize
    ensures within { result ≤ length bytes.now }
    ensures front { take result bytes.now ≡ take start bytes.now }
    ensures rest { drop result bytes.now ≡ drop start bytes.now }
{
    if start < bytes.len() {
        start
    } else {
        bytes.len()
    }
}

// Puts a PkgLength and the first bytes of a content before the others, which begin at an offset.
fn put_length(bytes: &mut Vec<u8>, start: usize, first: &[u8]) -> R<()>
    requires { start ≤ length bytes.old.items }
    ensures ok { OnOk result (Appended (frame [] (first.now ++ drop start bytes.old.items))
        (take start bytes.old.items) bytes.new.items) }
    ensures err { IfErr result (λ e. IsOwnEnd e (frame [] (first.now ++ drop start bytes.old.items))) }
{
    let (length, used) = frame_length(first.len() + (bytes.len() - start))?;
    insert(bytes, start, &length[..used], first)
}

// Ends a buffer of resource descriptors: its size, the descriptors and the end tag.
fn put_size(bytes: &mut Vec<u8>, start: usize) -> R<()>
    requires { start ≤ length bytes.old.items }
    ensures ok { OnOk result (Appended (frame [] (within Content.Descriptors (drop start bytes.old.items)))
        (take start bytes.old.items) bytes.new.items) }
    ensures err { IfErr result (λ e. IsOwnEnd e (frame [] (within Content.Descriptors (drop start bytes.old.items)))) }
{
    bytes.extend_from_slice(&[0x79, 0])?;
    let mut size = Vec::new(*bytes.allocator());
    append_value(&((bytes.len() - start) as u64), &mut size)?;
    put_length(bytes, start, &size)
}

// Ends an object whose content begins at an offset.
fn put_end(bytes: &mut Vec<u8>, level: Level) -> R<()>
    ensures ok { OnOk result (Appended (frame [] (within level.content (drop level.start bytes.old.items)))
        (take level.start bytes.old.items) bytes.new.items) }
    ensures err { IfErr result (λ e. IsOwnEnd e (frame [] (within level.content (drop level.start bytes.old.items)))) }
{
    let start = within_bytes(level.start, bytes);
    match level.content {
        Content::Objects => put_length(bytes, start, &[]),
        Content::Elements(count) => put_length(bytes, start, &[count]),
        Content::Room(_, room) => put_length(bytes, start, &[room]),
        Content::Descriptors => put_size(bytes, start),
    }
}

impl Writer {
    /// No terms.
    pub(crate) fn new(alloc: Global) -> Writer
        ensures { result ≡ empty }
    {
        Writer {
            bytes: Vec::new(alloc),
            level: Level {
                start: 0,
                content: Content::Objects,
            },
            outer: Vec::new(alloc),
        }
    }

    /// The allocator.
    pub(crate) fn allocator(&self) -> Global {
        *self.bytes.allocator()
    }

    /// Adds an object.
    pub(crate) fn add(&mut self, aml: &dyn Aml) -> Result<(), BuildError>
        ensures { IsStep (with_object (object aml.now) self.old) self.new result }
    {
        self.level = self.level.counted()?;
        append(aml, &mut self.bytes)?;
        Ok(())
    }

    /// Adds an object with a name.
    pub(crate) fn name(&mut self, path: &str, value: &dyn Aml) -> Result<(), BuildError>
        ensures { IsStep (with_name path.now (object value.now) self.old) self.new result }
    {
        let path = name_bytes(self.allocator(), path)?;
        self.level = self.level.counted()?;
        self.bytes.push(0x08)?;
        self.bytes.extend_from_slice(&path)?;
        append(value, &mut self.bytes)?;
        Ok(())
    }

    /// Begins an object by the bytes before its PkgLength, and those after it.
    pub(crate) fn open(
        &mut self,
        content: Content,
        code: &[u8],
        before: &[u8],
    ) -> Result<(), BuildError>
        ensures { IsStep (Ok (opened content code.now before.now self.old)) self.new result }
    {
        self.bytes.extend_from_slice(code)?;
        let level = Level {
            start: self.bytes.len(),
            content,
        };
        self.bytes.extend_from_slice(before)?;
        self.outer.push(self.level)?;
        self.level = level;
        Ok(())
    }

    /// Begins an object whose path is after its PkgLength, with bytes after the path.
    pub(crate) fn open_path(
        &mut self,
        code: &[u8],
        path: &str,
        after: &[u8],
    ) -> Result<(), BuildError>
        ensures { IsStep (at_path path.now (λ name. Ok (opened Content.Objects code.now (name ++ after.now) self.old))) self.new
            result }
    {
        let mut before = name_bytes(self.allocator(), path)?;
        before.extend_from_slice(after)?;
        self.open(Content::Objects, code, &before)
    }

    /// Begins a processor.
    pub(crate) fn open_processor(
        &mut self,
        path: &str,
        id: u8,
        address: u32,
        size: u8,
    ) -> Result<(), BuildError>
        ensures { IsStep (with_processor path.now id address size self.old) self.new result }
    {
        let [a, b, c, d] = address.to_le_bytes();
        self.open_path(&[0x5b, 0x83], path, &[id, a, b, c, d, size])
    }

    /// Begins a power resource.
    pub(crate) fn open_power_resource(
        &mut self,
        path: &str,
        level: u8,
        order: u16,
    ) -> Result<(), BuildError>
        ensures { IsStep (with_power_resource path.now level order self.old) self.new result }
    {
        let [low, high] = order.to_le_bytes();
        self.open_path(&[0x5b, 0x84], path, &[level, low, high])
    }

    /// Begins a method.
    pub(crate) fn open_method(
        &mut self,
        path: &str,
        args: u8,
        serialized: bool,
    ) -> Result<(), BuildError>
        ensures { IsStep (with_method path.now args serialized self.old) self.new result }
    {
        let mut before = name_bytes(self.allocator(), path)?;
        if args > 7 {
            return Err(BuildError::Object(Error::MethodArgs));
        }
        before.push(if serialized { args + 8 } else { args })?;
        self.open(Content::Objects, &[0x14], &before)
    }

    /// Begins a method with a synchronization level.
    pub(crate) fn open_leveled_method(
        &mut self,
        path: &str,
        args: u8,
        serialized: bool,
        level: u8,
    ) -> Result<(), BuildError>
        ensures { IsStep (with_leveled_method path.now args serialized level self.old) self.new result }
    {
        let mut before = name_bytes(self.allocator(), path)?;
        if level > 15 {
            return Err(BuildError::Object(Error::FieldWidth));
        }
        if args > 7 {
            return Err(BuildError::Object(Error::MethodArgs));
        }
        before.push(if serialized { args + 8 } else { args } + 16 * level)?;
        self.open(Content::Objects, &[0x14], &before)
    }

    /// Begins an object that has a name, by the byte of the object.
    pub(crate) fn open_named(
        &mut self,
        content: Content,
        path: &str,
        code: u8,
    ) -> Result<(), BuildError>
        ensures { IsStep (at_path path.now (λ name. Ok (opened content (0x08 ∷ name ++ code ∷ []) [] self.old))) self.new result }
    {
        let mut front = name_bytes(self.allocator(), path)?;
        front.insert(0, 0x08)?;
        front.push(code)?;
        self.open(content, &front, &[])
    }

    /// Begins an object whose first child is this predicate.
    pub(crate) fn open_test(&mut self, code: u8, predicate: &dyn Aml) -> Result<(), BuildError>
        ensures { IsStep (with_object (object predicate.now) (opened Content.Objects (code ∷ []) [] self.old)) self.new result }
    {
        self.open(Content::Objects, &[code], &[])?;
        self.add(predicate)
    }

    /// Adds the declaration of an object of another block.
    pub(crate) fn external(&mut self, path: &str, kind: u8, args: u8) -> Result<(), BuildError>
        ensures { IsStep (with_external path.now kind args self.old) self.new result }
    {
        self.named(&[0x15], path, &[kind, args])
    }

    /// Adds an operation region.
    pub(crate) fn region(
        &mut self,
        path: &str,
        space: OpRegionSpace,
        offset: &dyn Aml,
        length: &dyn Aml,
    ) -> Result<(), BuildError>
        ensures { IsStep (with_region path.now space (object offset.now) (object length.now) self.old) self.new result }
    {
        let name = name_bytes(self.allocator(), path)?;
        self.level = self.level.counted()?;
        self.bytes.extend_from_slice(&[0x5b, 0x80])?;
        self.bytes.extend_from_slice(&name)?;
        self.bytes.push(space as u8)?;
        append_all(&[offset, length], &mut self.bytes)?;
        Ok(())
    }

    /// Adds the fields of an operation region.
    pub(crate) fn field(
        &mut self,
        path: &str,
        access: FieldAccessType,
        lock: FieldLockRule,
        update: FieldUpdateRule,
        entries: &[FieldEntry],
    ) -> Result<(), BuildError>
        ensures { IsStep (with_field path.now access lock update entries.now self.old) self.new result }
    {
        let path = Path::name_string(self.allocator(), path)?;
        self.level = self.level.counted()?;
        let entries = Vec::from_slice(self.allocator(), entries)?;
        let field = Field::new(path, access, lock, update, entries)?;
        append_value(&field, &mut self.bytes)?;
        Ok(())
    }

    /// Adds the fields of an operation region, with any elements.
    pub(crate) fn field_list(
        &mut self,
        path: &str,
        access: FieldAccessType,
        lock: FieldLockRule,
        update: FieldUpdateRule,
        elements: Vec<FieldElement>,
    ) -> Result<(), BuildError>
        ensures { IsStep (with_field_list path.now access lock update elements.items self.old) self.new result }
    {
        let path = Path::name_string(self.allocator(), path)?;
        self.level = self.level.counted()?;
        let field = FieldList::new(&path, access, lock, update, elements)?;
        append_value(&field, &mut self.bytes)?;
        Ok(())
    }

    // Adds an object of bytes before its name and after it.
    fn named(&mut self, code: &[u8], path: &str, after: &[u8]) -> Result<(), BuildError>
        ensures { IsStep (at_path path.now
            (λ name. with_object (whole (code.now ++ (name ++ after.now))) self.old)) self.new result }
    {
        let name = name_bytes(self.allocator(), path)?;
        self.level = self.level.counted()?;
        self.bytes.extend_from_slice(code)?;
        self.bytes.extend_from_slice(&name)?;
        self.bytes.extend_from_slice(after)?;
        Ok(())
    }

    /// Adds a mutex.
    pub(crate) fn mutex(&mut self, path: &str, level: u8) -> Result<(), BuildError>
        ensures { IsStep (with_mutex path.now level self.old) self.new result }
    {
        self.named(&[0x5b, 0x01], path, &[level])
    }

    /// Adds a statement that acquires a mutex.
    pub(crate) fn acquire(&mut self, path: &str, timeout: u16) -> Result<(), BuildError>
        ensures { IsStep (with_acquire path.now timeout self.old) self.new result }
    {
        self.named(&[0x5b, 0x23], path, &timeout.to_le_bytes())
    }

    /// Adds a statement that releases a mutex.
    pub(crate) fn release(&mut self, path: &str) -> Result<(), BuildError>
        ensures { IsStep (with_release path.now self.old) self.new result }
    {
        self.named(&[0x5b, 0x27], path, &[])
    }

    /// Adds an operator and its operands.
    pub(crate) fn operate(&mut self, operator: Op, operands: &[&dyn Aml]) -> Result<(), BuildError>
        ensures { IsStep (with_operator operator (map (λ a. object a.now) operands.now) self.old) self.new result }
    {
        if operands.len() != usize::from(operator.operands()) {
            return Err(BuildError::Operands);
        }
        self.level = self.level.counted()?;
        self.bytes.extend_from_slice(operator.code())?;
        append_all(operands, &mut self.bytes)?;
        Ok(())
    }

    /// Adds a call of a method, or a name.
    pub(crate) fn call(&mut self, path: &str, args: &[&dyn Aml]) -> Result<(), BuildError>
        ensures { IsStep (with_call path.now (map (λ a. object a.now) args.now) self.old) self.new result }
    {
        let name = name_bytes(self.allocator(), path)?;
        self.level = self.level.counted()?;
        self.bytes.extend_from_slice(&name)?;
        append_all(args, &mut self.bytes)?;
        Ok(())
    }

    /// Ends the innermost object.
    pub(crate) fn close(&mut self) -> Result<(), BuildError>
        ensures { IsStep (closed self.old) self.new result }
    {
        let Some(outer) = self.outer.pop() else {
            return Err(BuildError::NoneOpen);
        };
        let level = self.level;
        self.level = outer.counted()?;
        put_end(&mut self.bytes, level)?;
        Ok(())
    }

    /// Returns the bytes of all terms.
    pub(crate) fn finish(self) -> Result<Vec<u8>, BuildError>
        ensures { seen result ≡ finished self }
    {
        if self.outer.is_empty() {
            Ok(self.bytes)
        } else {
            Err(BuildError::StillOpen)
        }
    }
}
