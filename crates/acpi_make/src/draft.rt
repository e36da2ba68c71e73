//! A table in the making: the bytes of a text's parts, and marks where structures, lines and references begin.

ghost use Rattle.std.specs.Prelude.{◌≡◌, ◌-◌, [], ◌++◌, length, drop, replicate, OnOk, Ok};
ghost use Rattle.acpi_base.specs.Bytes.{le};
ghost use Rattle.acpi_make.specs.Draft.{earliest, doubt_of, form_here, misnamed_here, field_expected, is_doubted};
ghost use Rattle.acpi_make.specs.Draft.{expected, strange, may_lack, may_come, early_doubt, line_found, named_field, line_doubt};
ghost use Rattle.acpi_make.specs.Draft.{here, parts_here, inner_here, is_strange, nothing_yet, size_doubt, closed, is_nameless};
ghost use Rattle.acpi_make.specs.Draft.{is_any_size, entries_here, later, again, untitled, title_doubt};
ghost use Rattle.acpi_make.specs.Draft.{unlike, name_doubt, opened, with_line, with_heading, or_fault, with_number, wanted_for};
ghost use Rattle.acpi_make.specs.Draft.{is_reference, with_reference, with_value_of, taken, all_taken, drafted};
ghost use Rattle.acpi_make.specs.Draft.{field_in, fault_in, first_of, wants_in};
ghost use Rattle.acpi_make.specs.Entry.{entry_of, find_entry, found_of, title_over, parts_entries, inner_entries};
ghost use Rattle.acpi_make.specs.Fault.{fault_of};
ghost use Rattle.acpi_make.specs.Fits.{fits};
ghost use Rattle.acpi_make.specs.Gives.{Gives, Changes, Fails};
ghost use Rattle.acpi_make.specs.Item.{known_cells};
ghost use Rattle.acpi_make.specs.Source.{source_of};
ghost use Rattle.acpi_make.specs.declared.item.Cell.TheVariants.{Left};

use crate::another::misnamed;
use crate::entry::{
    Field, entry_from, is_line_of, is_once, is_register, is_title, next_entry, next_number,
    search_both, title_over,
};
use crate::fault::{Fault, MakeError, Wanted};
use crate::heading::{is_field, structure_form};
use crate::item::{Cell, Item};
use crate::text::{after_offset, are_white, part_at};
use crate::value::value_of;
use acpi_base::slice::from_offset;
use acpi_base::walk::Place;
use acpi_text::form::{Inner, Part, StructureForm, TableForm};
use acpi_text::piece::{inner_of, parts_of};
use std::alloc::{AllocError, Global};

/// Where something begins in a table: `at` is the number of bytes before it, and `from` and `to` the range of its text.
#[derive(Clone, Copy)]
pub enum Mark {
    /// A structure, by its heading.
    Structure {
        at: usize,
        from: usize,
        to: usize,
    },
    /// A line with a name.
    Line {
        at: usize,
        from: usize,
        to: usize,
    },
    /// A reference to a structure. `width` is the number of its bytes.
    Reference {
        at: usize,
        width: usize,
        from: usize,
        to: usize,
    },
}

/// A table in the making.
#[derive(Drop)]
pub struct Draft {
    /// The bytes so far.
    pub cells: Vec<Cell>,
    /// The marks in them.
    pub marks: Vec<Mark>,
    /// Whether the text is in a structure, and not in the table's fields before structures.
    pub inside: bool,
    /// The offset at which this structure begins, and the range of its heading.
    pub start: usize,
    pub from: usize,
    pub to: usize,
    /// The number of the field after the last that had a name, and whether bytes without a name came after it.
    pub number: usize,
    pub loose: bool,
    /// The field of the last line with a name, if the form has it.
    pub field: Option<Field>,
    /// The offset at which this line begins, and the range of its name.
    pub line_at: usize,
    pub line_from: usize,
    pub line_to: usize,
    /// The first line that isn't as the form has it. It is the fault of the text, if the text has one.
    pub doubt: Option<Fault>,
    /// The first line of a field that comes too early, or once more. It is the fault of the text, if there is none before it, and
    /// all values can be read.
    pub early: Option<Fault>,
}

/// What a text is read by: the form of the table, the place of a structure's type, and the text itself.
#[derive(Clone, Copy)]
pub struct Source<'a> {
    pub form: TableForm,
    pub kind: Place,
    pub text: &'a [u8],
}

// Returns whether a number has at most this many bytes.
pub fn fits(width: usize, number: usize) -> bool
    ensures { result ≡ fits width number }
{
    let mut left = width;
    let mut rest = number;
    'bytes: while left > 0 {
        left -= 1;
        rest /= 256;
    }
    rest == 0
}

/// Returns whether a line of this name has bytes without a name.
pub fn is_nameless(name: &[u8]) -> bool
    ensures { result ≡ is_nameless name.now }
{
    are_white(name) || is_line_of(b"Bytes", name)
}

// Returns what has to stand in place of a value that isn't one.
fn wanted_for(value: &[u8]) -> Wanted
    ensures { result ≡ wanted_for value.now }
{
    match value {
        [b'{', ..] | [] => Wanted::Name,
        _ => Wanted::Number,
    }
}

fn is_reference(value: &[u8]) -> bool
    ensures { result ≡ is_reference value.now }
{
    match value {
        [b'@', ..] => true,
        _ => false,
    }
}

// Returns whether a line of a field has any number of bytes. A name over fields has none.
fn is_any_size(field: &Field) -> bool
    ensures { result ≡ is_any_size (entry_of field.now) }
{
    field.size == 0 && !is_title(field)
}

// Returns the doubt about a line whose field has another number of bytes.
fn size_doubt(field: Option<Field>, found: usize, from: usize, to: usize) -> Option<Fault>
    ensures { fault_in result ≡ size_doubt (field_in field) found from to }
{
    match field {
        Some(field) if !is_any_size(&field) && found != field.size => {
            Some(Fault::wide(from, to, field.name, field.size, found))
        }
        _ => None,
    }
}

// Returns the fault of a line in place of which this field, or another of a form, has to stand.
fn unlike(from: usize, to: usize, form: &'static str, wanted: Option<(usize, Field)>) -> Fault
    ensures { fault_of result ≡ unlike from to form.now (found_of wanted) }
{
    match wanted {
        Some((_, field)) => Fault::next(from, to, field.name, field.size),
        None => Fault::field_of(from, to, form),
    }
}

// Returns the fault of a heading that is no structure's name: it may be the line of a field.
fn strange(from: usize, to: usize, text: &[u8]) -> Fault
    ensures { fault_of result ≡ strange from to text.now }
{
    let wanted = if is_field(part_at(from, to, text)) {
        Wanted::Indented
    } else {
        Wanted::Structure
    };
    Fault::new(from, to, wanted)
}

// Returns whether a field may be left out: its number of bytes can be any, or it is a name over fields that isn't a register's.
fn may_lack(field: Option<(usize, Field)>) -> bool
    ensures { result ≡ may_lack (found_of field) }
{
    match field {
        Some((_, field)) => field.size == 0 && !is_register(field.look),
        None => true,
    }
}

/// Returns the first of two doubts.
pub fn first_of(doubt: Option<Fault>, other: Option<Fault>) -> Option<Fault>
    ensures { fault_in result ≡ first_of (fault_in doubt) (fault_in other) }
{
    match doubt {
        Some(doubt) => Some(doubt),
        None => other,
    }
}

// Returns whether there is a doubt, after which no other counts.
fn is_doubted(doubt: Option<Fault>) -> bool
    ensures { result ≡ is_doubted (fault_in doubt) }
{
    match doubt {
        Some(_) => true,
        None => false,
    }
}

// Returns the first of two faults in the text, or the second one, if both are at one place.
fn earliest(one: Option<Fault>, other: Option<Fault>) -> Option<Fault>
    ensures { fault_in result ≡ earliest (fault_in one) (fault_in other) }
{
    match (one, other) {
        (Some(one), Some(other)) => Some(if other.from < one.from { one } else { other }),
        (Some(one), None) => Some(one),
        (None, other) => other,
    }
}

// Adds the lowest bytes of a number, lowest first.
fn push_number(width: usize, number: usize, cells: &mut Vec<Cell>) -> Result<(), AllocError>
    ensures { OnOk result (cells.new.items ≡ cells.old.items ++ known_cells (le width number)) }
{
    let mut left = width;
    let mut rest = number;
    'bytes: while left > 0 {
        cells.push(Cell::Byte((rest % 256) as u8))?;
        left -= 1;
        rest /= 256;
    }
    Ok(())
}

// Adds bytes that are left out at a place.
fn push_left(width: usize, place: usize, cells: &mut Vec<Cell>) -> Result<(), AllocError>
    ensures { OnOk result (cells.new.items ≡ cells.old.items ++ replicate width (Left place)) }
{
    let mut left = width;
    'bytes: while left > 0 {
        cells.push(Cell::Left(place))?;
        left -= 1;
    }
    Ok(())
}

impl Draft {
    // Returns the bytes of the structure that the text is in.
    fn cells_here(&self) -> &[Cell]
        ensures { result.now ≡ drop self.now.start self.now.cells.items }
    {
        from_offset(self.start, &self.cells)
    }

    // Returns the form of the structure that the text is in.
    fn here(&self, source: &Source) -> Option<StructureForm>
        ensures { result ≡ here (source_of source.now) (drafted self.now) }
    {
        let heading = part_at(self.from, self.to, source.text);
        structure_form(source.kind, &source.form, heading, self.cells_here())
    }

    // Returns the parts of what the text is in, and what it contains after them.
    fn parts_here(&self, source: &Source) -> (&'static [Part], &'static Inner)
        ensures parts { result.0.now ≡ parts_here (source_of source.now) (drafted self.now) }
        ensures inner { result.1.now ≡ inner_here (source_of source.now) (drafted self.now) }
    {
        if self.inside {
            let form = self.here(source);
            (parts_of(form), inner_of(form))
        } else {
            (source.form.parts, source.form.inner)
        }
    }

    // Returns whether the text is in a structure that the table doesn't have.
    fn is_strange(&self, source: &Source) -> bool
        ensures { result ≡ is_strange (source_of source.now) (drafted self.now) }
    {
        if !self.inside {
            return false;
        }
        match self.here(source) {
            Some(_) => false,
            None => true,
        }
    }

    // Returns the name of the form of what the text is in.
    fn form_here(&self, source: &Source) -> &'static str
        ensures { result.now ≡ form_here (source_of source.now) (drafted self.now) }
    {
        if !self.inside {
            return source.form.name;
        }
        match self.here(source) {
            Some(form) => form.name,
            None => "",
        }
    }

    // Returns the fault of the type of the structure that the text is in, if its heading is that of another. After a line that
    // comes too early the type may be another field.
    fn misnamed_here(&self, source: &Source) -> Option<Fault>
        ensures { fault_in result ≡ misnamed_here (source_of source.now) (drafted self.now) }
    {
        if !self.inside || is_doubted(self.early) {
            return None;
        }
        let heading = part_at(self.from, self.to, source.text);
        misnamed(source, &self.marks, self.start, self.cells_here(), heading)
    }

    // Returns the fault of a line in place of which the next field has to stand.
    fn field_expected(&self, source: &Source, from: usize, to: usize) -> Fault
        ensures { fault_of result ≡ field_expected (source_of source.now) (drafted self.now) from to }
    {
        let form = self.form_here(source);
        if self.loose {
            return Fault::field_of(from, to, form);
        }
        let (parts, inner) = self.parts_here(source);
        unlike(from, to, form, entry_from(self.number, parts, inner))
    }

    // Returns what is wrong with a line that isn't as the form has it.
    fn expected(&self, source: &Source, from: usize, to: usize) -> Fault
        ensures { fault_of result ≡ expected (source_of source.now) (drafted self.now) from to }
    {
        if let Some(fault) = self.misnamed_here(source) {
            return fault;
        }
        if self.is_strange(source) {
            return strange(self.from, self.to, source.text);
        }
        self.field_expected(source, from, to)
    }

    // Returns the doubt about a line of which the form has no field.
    fn name_doubt(&self, source: &Source, from: usize, to: usize, name: &[u8]) -> Option<Fault>
        ensures { fault_in result ≡ name_doubt (source_of source.now) (drafted self.now) from to name.now }
    {
        if is_doubted(self.doubt) || is_nameless(name) {
            return None;
        }
        if is_line_of(b"Signature", name) {
            return Some(Fault::new(from, to, Wanted::OneTable));
        }
        Some(self.expected(source, from, to))
    }

    // Returns whether a line of the field with this number may come here: it is the next one, or one of a list, which comes
    // again.
    fn may_come(&self, source: &Source, name: &[u8], number: usize) -> bool
        ensures { result ≡ may_come (source_of source.now) (drafted self.now) name.now number }
    {
        if number < self.number {
            let (parts, _) = self.parts_here(source);
            !is_once(number, name, parts)
        } else {
            number == self.number
        }
    }

    // Returns the doubt about a line of a field that comes too early, or once more.
    fn early_doubt(
        &self,
        source: &Source,
        from: usize,
        to: usize,
        name: &[u8],
        number: usize,
    ) -> Option<Fault>
        ensures { fault_in result ≡ early_doubt (source_of source.now) (drafted self.now) from to name.now number }
    {
        if is_doubted(self.early) || self.may_come(source, name, number) || self.loose {
            return None;
        }
        let (parts, inner) = self.parts_here(source);
        if may_lack(entry_from(self.number, parts, inner)) {
            return None;
        }
        Some(self.expected(source, from, to))
    }

    // Returns the number of the next field of a name after one, or of this one, if there is none.
    fn later(&self, source: &Source, name: &[u8], number: usize) -> usize
        ensures { result ≡ later (source_of source.now) (drafted self.now) name.now number }
    {
        let (parts, inner) = self.parts_here(source);
        match search_both(next_number(number), name, parts, inner) {
            Some((later, _)) => later,
            None => number,
        }
    }

    // Returns the name over fields just before the field with this number.
    fn title_here(&self, source: &Source, number: usize) -> Option<(usize, Field)>
        ensures { found_of result ≡ title_over number (entries_here (source_of source.now) (drafted self.now)) }
    {
        let (parts, inner) = self.parts_here(source);
        title_over(number, parts, inner)
    }

    // Returns the number of the field of a name that a line is of: one before the last can be one under a name over fields, which
    // comes again.
    fn again(&self, source: &Source, name: &[u8], number: usize) -> usize
        ensures { result ≡ again (source_of source.now) (drafted self.now) name.now number }
    {
        if number >= self.number {
            return number;
        }
        match self.title_here(source, number) {
            Some(_) => number,
            None => self.later(source, name, number),
        }
    }

    // Returns the doubt about a line of this field without the name over fields before it, if the form has no other field of its
    // name after it. One before the last has to be one that comes again.
    fn untitled(
        &self,
        source: &Source,
        from: usize,
        to: usize,
        name: &[u8],
        number: usize,
    ) -> Option<Fault>
        ensures { fault_in result ≡ untitled (source_of source.now) (drafted self.now) from to name.now number }
    {
        let is_past = number < self.number && !self.may_come(source, name, number);
        if is_past || self.later(source, name, number) > number {
            return None;
        }
        match self.title_here(source, number) {
            Some((_, title)) => Some(Fault::next(from, to, title.name, 0)),
            None => None,
        }
    }

    // Returns the doubt about a line of a field that isn't the next one, and lacks the name over fields before it.
    fn title_doubt(
        &self,
        source: &Source,
        from: usize,
        to: usize,
        name: &[u8],
        found: (usize, Field),
    ) -> Option<Fault>
        ensures { fault_in result
            ≡ title_doubt (source_of source.now) (drafted self.now) from to name.now (found.0, entry_of found.1) }
    {
        let (number, field) = found;
        if is_doubted(self.early) || self.loose || number == self.number || is_title(&field) {
            return None;
        }
        self.untitled(source, from, to, name, self.again(source, name, number))
    }

    /// Returns what is in doubt at the end of the text.
    pub fn doubt(&self) -> Option<Fault>
        ensures { fault_in result ≡ doubt_of (drafted self.now) }
    {
        earliest(self.doubt_at_end(), self.early)
    }

    // Returns the first doubt, at the end of a line.
    fn doubt_at_end(&self) -> Option<Fault>
        ensures { fault_in result ≡ (closed (drafted self.now)).doubt }
    {
        let size = self.cells.len().saturating_sub(self.line_at);
        first_of(
            self.doubt,
            size_doubt(self.field, size, self.line_from, self.line_to),
        )
    }

    // Begins a line.
    fn open(&mut self, from: usize, to: usize) -> Result<(), MakeError>
        ensures { Changes result (drafted self.new) (Ok (opened from to (drafted self.old))) }
    {
        let at = self.cells.len();
        self.marks.push(Mark::Line { at, from, to })?;
        self.line_at = at;
        self.line_from = from;
        self.line_to = to;
        Ok(())
    }

    // Returns the field of a line's name.
    fn named_field(&self, source: &Source, name: &[u8]) -> Option<(usize, Field)>
        ensures { found_of result ≡ named_field (source_of source.now) (drafted self.now) name.now }
    {
        if is_nameless(name) {
            return None;
        }
        let (parts, inner) = self.parts_here(source);
        next_entry(self.number, name, parts, inner)
    }

    // Returns what is in doubt about a line of this field.
    fn line_doubt(
        &self,
        source: &Source,
        from: usize,
        to: usize,
        name: &[u8],
        found: Option<(usize, Field)>,
    ) -> Option<Fault>
        ensures { fault_in result ≡ line_doubt (source_of source.now) (drafted self.now) from to name.now (found_of found) }
    {
        match found {
            Some((number, field)) => first_of(
                self.early_doubt(source, from, to, name, number),
                self.title_doubt(source, from, to, name, (number, field)),
            ),
            None => self.name_doubt(source, from, to, name),
        }
    }

    // Takes the field of a line, and what is in doubt about it.
    fn set_field(&mut self, found: Option<(usize, Field)>, doubt: Option<Fault>)
        ensures { drafted self.new ≡ line_found (found_of found) (fault_in doubt) (drafted self.old) }
    {
        match found {
            Some((number, field)) => {
                self.early = first_of(self.early, doubt);
                self.number = next_number(number);
                self.loose = false;
                self.field = Some(field);
            }
            None => {
                self.doubt = first_of(self.doubt, doubt);
                self.loose = true;
                self.field = None;
            }
        }
    }

    // Begins a line with a name.
    fn begin_line(&mut self, source: &Source, from: usize, to: usize) -> Result<(), MakeError>
        ensures { Changes result (drafted self.new) (Ok (with_line (source_of source.now) from to (drafted self.old))) }
    {
        let name = after_offset(part_at(from, to, source.text));
        let found = self.named_field(source, name);
        let doubt = self.line_doubt(source, from, to, name, found);
        self.doubt = self.doubt_at_end();
        self.open(from, to)?;
        self.set_field(found, doubt);
        Ok(())
    }

    // Begins a structure, if the table has a byte.
    fn begin_structure(&mut self, from: usize, to: usize) -> Result<(), MakeError>
        ensures { Changes result (drafted self.new) (Ok (with_heading from to (drafted self.old))) }
    {
        let start = self.cells.len();
        if start > 0 {
            self.doubt = self.doubt_at_end();
            self.marks.push(Mark::Structure {
                at: start,
                from,
                to,
            })?;
            self.inside = true;
            self.start = start;
            self.from = from;
            self.to = to;
            self.number = 0;
            self.loose = false;
            self.field = None;
        }
        Ok(())
    }

    // Returns the fault of a value, or what was in doubt before.
    fn refuse(&self, from: usize, to: usize, wanted: Wanted) -> MakeError
        ensures { Fails result (wants_in from to wanted (drafted self.now)) }
    {
        match self.doubt {
            Some(doubt) => MakeError::Fault(doubt),
            None => MakeError::Fault(Fault::new(from, to, wanted)),
        }
    }

    // Adds a reference: bytes that are worked out.
    fn add_reference(&mut self, width: usize, from: usize, to: usize) -> Result<(), MakeError>
        ensures { Changes result (drafted self.new) (Ok (with_reference width from to (drafted self.old))) }
    {
        self.marks.push(Mark::Reference {
            at: self.cells.len(),
            width,
            from,
            to,
        })?;
        push_left(width, from, &mut self.cells)?;
        Ok(())
    }

    // Adds a number, if it is known and fits its width.
    fn add_number(
        &mut self,
        width: usize,
        from: usize,
        to: usize,
        wanted: Wanted,
        number: Option<u64>,
    ) -> Result<(), MakeError>
        ensures { Changes result (drafted self.new) (with_number from to width wanted number (drafted self.old)) }
    {
        match number {
            Some(number) if fits(width, number as usize) => {
                push_number(width, number as usize, &mut self.cells)?;
                Ok(())
            }
            _ => Err(self.refuse(from, to, wanted)),
        }
    }

    // Adds a value that isn't its bytes.
    fn add_value(&mut self, source: &Source, from: usize, to: usize) -> Result<(), MakeError>
        ensures { Changes result (drafted self.new)
            (with_value_of (source_of source.now) from to (drafted self.old).field (drafted self.old)) }
    {
        let Some(field) = self.field else {
            return Err(self.refuse(from, to, Wanted::Field));
        };
        if field.width == 0 {
            return Err(self.refuse(from, to, Wanted::Field));
        }
        let value = part_at(from, to, source.text);
        if is_reference(value) {
            self.add_reference(field.width, from, to)
        } else {
            let number = value_of(field.look, value);
            self.add_number(field.width, from, to, wanted_for(value), number)
        }
    }

    // Adds a part of a text.
    fn take(&mut self, source: &Source, item: &Item) -> Result<(), MakeError>
        ensures { Changes result (drafted self.new) (taken (source_of source.now) item.now (drafted self.old)) }
    {
        match *item {
            Item::Cell(cell) => {
                self.cells.push(cell)?;
                Ok(())
            }
            Item::Heading(from, to) => self.begin_structure(from, to),
            Item::Name(from, to) => self.begin_line(source, from, to),
            Item::Value(from, to) => self.add_value(source, from, to),
        }
    }
}

/// Returns the table in the making that the parts of a text give. The error is that memory ran out, or what is wrong with a
/// value, and where.
pub fn draft_of(alloc: Global, source: &Source, items: &[Item]) -> Result<Draft, MakeError>
    ensures { Gives drafted result (all_taken (source_of source.now) items.now nothing_yet) }
{
    let mut draft = Draft {
        cells: Vec::with_capacity(alloc, items.len())?,
        marks: Vec::new(alloc),
        inside: false,
        start: 0,
        from: 0,
        to: 0,
        number: 0,
        loose: false,
        field: None,
        line_at: 0,
        line_from: 0,
        line_to: 0,
        doubt: None,
        early: None,
    };
    'items: for item in items {
        draft.take(source, item)?;
    }
    Ok(draft)
}
