//! Fields of operation regions.

ghost use Rattle.std.specs.Prelude.{◌≡◌, ◌≢◌, ◌++◌, [], ◌∷◌, OnOk, IfErr, None, Some};
ghost use Rattle.acpi_base.specs.Object.{Builds};
ghost use Rattle.acpi_term.specs.Row.{row, entry_bytes, entries_bytes, entries_end};
ghost use Rattle.acpi_aml.specs.Field.{field_head, entry_of, entries_of};

use crate::path::Path;
use crate::written::Written;
use acpi_base::error::{Error, R};
use acpi_term::row::{field_length, frame};

/// The width of the accesses to a field (ACPI 6.5, 20.2.5.2, AccessType).
#[derive(Clone, Copy, Debug, PartialEq)]
pub enum FieldAccessType {
    Any,
    Byte,
    Word,
    DWord,
    QWord,
    Buffer,
}

/// Whether an access takes the global lock (LockRule).
#[derive(Clone, Copy, Debug, PartialEq)]
pub enum FieldLockRule {
    NoLock,
    Lock,
}

/// What an access writes to the bits that don't belong to the field (UpdateRule).
#[derive(Clone, Copy, Debug, PartialEq)]
pub enum FieldUpdateRule {
    Preserve,
    WriteAsOnes,
    WriteAsZeroes,
}

/// Bits of a field, with a name or reserved.
#[derive(Clone, Copy, Debug, PartialEq)]
pub enum FieldEntry {
    Named([u8; 4], usize),
    Reserved(usize),
}

/// Names for bits of an operation region (ACPI 6.5, 20.2.5.2, DefField).
pub type Field = Written<DefField>;

pub struct DefField;

impl Field {
    /// The error is `PkgLength` if an entry has 2^28 bits or more, or the content of the field is too long for a PkgLength.
    pub fn new(
        path: Path,
        access_type: FieldAccessType,
        lock_rule: FieldLockRule,
        update_rule: FieldUpdateRule,
        fields: Vec<FieldEntry>,
    ) -> R<Field>
        ensures { Builds result (row (field_head path access_type lock_rule update_rule fields.items) []) }
    {
        let mut content = path.bytes;
        content.push(access_type as u8 + 16 * (lock_rule as u8) + 32 * (update_rule as u8))?;
        append_entries(&fields, &mut content)?;
        let bytes = frame(&[0x5b, 0x81], content)?;
        Ok(Written::of(bytes))
    }
}

/// Writes entries at the end of a vector, in order (ACPI 6.5, 20.2.5.2). The error is `PkgLength` if an entry has 2^28 bits or
/// more.
pub fn append_entries(entries: &[FieldEntry], bytes: &mut Vec<u8>) -> R<()>
    ensures ok { OnOk result (bytes.new.items ≡ bytes.old.items ++ entries_bytes (entries_of entries.now)) }
    ensures end { OnOk result (entries_end (entries_of entries.now) ≡ None) }
    ensures err { IfErr result (λ e. e ≢ Error.Memory → entries_end (entries_of entries.now) ≡ Some e) }
{
    for entry in entries {
        append_entry(*entry, bytes)?;
    }
    Ok(())
}

fn append_entry(entry: FieldEntry, bytes: &mut Vec<u8>) -> R<()>
    ensures ok { OnOk result (bytes.new.items ≡ bytes.old.items ++ entry_bytes (entry_of entry)) }
    ensures end { OnOk result (entries_end (entry_of entry ∷ []) ≡ None) }
    ensures err { IfErr result (λ e. e ≢ Error.Memory → entries_end (entry_of entry ∷ []) ≡ Some e) }
{
    match entry {
        FieldEntry::Named(name, bits) => {
            let (length, used) = field_length(bits)?;
            bytes.extend_from_slice(&name)?;
            bytes.extend_from_slice(&length[..used])?;
        }
        FieldEntry::Reserved(bits) => {
            let (length, used) = field_length(bits)?;
            bytes.push(0x00)?;
            bytes.extend_from_slice(&length[..used])?;
        }
    }
    Ok(())
}
