//! The fields of rows. A function whose name begins with `push` adds to fields, and returns how many bytes it read.

ghost use Rattle.std.specs.Prelude.{◌≡◌, ◌+◌, ◌*◌, ◌<◌, ◌^◌, [], ◌∷◌, length, map, if◌then◌else◌, IfOk};
ghost use Rattle.acpi_base.specs.Look.{look_of};
ghost use Rattle.acpi_base.specs.Look as looks;
ghost use Rattle.std.specs.List.{flat_map};
ghost use Rattle.acpi_rules.specs.Field.{seen, sized, plain_wanted, register_wanted, row_wanted, rows_wanted, Reached};

use acpi_base::gas::GENERIC_ADDRESS;
use acpi_base::row::{Look, Row};
use std::alloc::AllocError;

/// A field of a table.
#[derive(Clone, Copy, Debug)]
pub struct Field<'a> {
    /// The offset of its first byte in the table.
    pub offset: usize,
    /// Its name in the standard.
    pub name: &'static str,
    /// What its value is.
    pub look: Look,
    /// The width of each of its numbers in bytes. It has one number, or a list of them.
    pub width: usize,
    /// Its bytes, which are borrowed.
    pub bytes: &'a [u8],
}

/// Adds a field of `size` bytes, of which each number has `width`. If there are fewer bytes, none of them is in a field.
pub fn push_field<'a>(
    name: &'static str,
    look: Look,
    width: usize,
    size: usize,
    at: usize,
    bytes: &'a [u8],
    fields: &mut Vec<Field<'a>>,
) -> Result<usize, AllocError>
    ensures { IfOk result (λ n. Reached (sized name.now (look_of look) width size ∷ []) at bytes.now
        (map seen fields.old.items) (map seen fields.new.items) n) }
{
    if bytes.is_empty() || size > bytes.len() {
        return Ok(bytes.len());
    }
    fields.push(Field {
        offset: at,
        name,
        look,
        width,
        bytes: &bytes[..size],
    })?;
    Ok(size)
}

/// Adds a field of `count` numbers of `width` bytes.
pub fn push_numbers<'a>(
    name: &'static str,
    width: usize,
    count: usize,
    at: usize,
    bytes: &'a [u8],
    fields: &mut Vec<Field<'a>>,
) -> Result<usize, AllocError>
    ensures { IfOk result (λ n. Reached (sized name.now looks.number width (width * count) ∷ []) at bytes.now
        (map seen fields.old.items) (map seen fields.new.items) n) }
{
    match width.checked_mul(count) {
        Some(size) => push_field(name, Look::Number, width, size, at, bytes, fields),
        None => Ok(bytes.len()),
    }
}

// Adds the field of a row.
fn push_plain<'a>(
    row: &Row,
    at: usize,
    bytes: &'a [u8],
    fields: &mut Vec<Field<'a>>,
) -> Result<usize, AllocError>
    ensures { IfOk result (λ n. Reached (plain_wanted row.now) at bytes.now
        (map seen fields.old.items) (map seen fields.new.items) n) }
{
    let width = row.width();
    push_field(row.name(), row.look(), width, width, at, bytes, fields)
}

// Adds the fields of rows, of which each has one.
fn push_plains<'a>(
    rows: &[Row],
    at: usize,
    bytes: &'a [u8],
    fields: &mut Vec<Field<'a>>,
) -> Result<usize, AllocError>
    requires { at + length bytes.now < 2 ^ 64 }
    ensures { IfOk result (λ n. Reached (flat_map plain_wanted rows.now) at bytes.now
        (map seen fields.old.items) (map seen fields.new.items) n) }
{
    let mut read = 0;
    'rows: for row in rows {
        read += push_plain(row, at + read, &bytes[read..], fields)?;
    }
    Ok(read)
}

// Adds the fields of a register's address.
fn push_register<'a>(
    at: usize,
    bytes: &'a [u8],
    fields: &mut Vec<Field<'a>>,
) -> Result<usize, AllocError>
    requires { at + length bytes.now < 2 ^ 64 }
    ensures { IfOk result (λ n. Reached register_wanted at bytes.now
        (map seen fields.old.items) (map seen fields.new.items) n) }
{
    push_plains(&GENERIC_ADDRESS, at, bytes, fields)
}

// Returns whether a row is a register.
fn is_register(row: &Row) -> bool
    ensures { row_wanted row.now ≡ (if result then register_wanted else plain_wanted row.now) }
{
    match *row {
        Row::Register(_) => true,
        _ => false,
    }
}

// Adds the fields of a row.
fn push_row<'a>(
    row: &Row,
    at: usize,
    bytes: &'a [u8],
    fields: &mut Vec<Field<'a>>,
) -> Result<usize, AllocError>
    requires { at + length bytes.now < 2 ^ 64 }
    ensures { IfOk result (λ n. Reached (row_wanted row.now) at bytes.now
        (map seen fields.old.items) (map seen fields.new.items) n) }
{
    if is_register(row) {
        push_register(at, bytes, fields)
    } else {
        push_plain(row, at, bytes, fields)
    }
}

/// Adds the fields of rows, one after another.
pub fn push_rows<'a>(
    rows: &[Row],
    at: usize,
    bytes: &'a [u8],
    fields: &mut Vec<Field<'a>>,
) -> Result<usize, AllocError>
    requires { at + length bytes.now < 2 ^ 64 }
    ensures { IfOk result (λ n. Reached (rows_wanted rows.now) at bytes.now
        (map seen fields.old.items) (map seen fields.new.items) n) }
{
    let mut read = 0;
    'rows: for row in rows {
        read += push_row(row, at + read, &bytes[read..], fields)?;
    }
    Ok(read)
}
