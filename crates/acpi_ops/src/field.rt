//! Fields that are reached by another field.

ghost use Rattle.std.specs.Prelude.{◌≡◌, ◌≢◌, ◌++◌, [], ◌∷◌, OnOk, IfOk, IfErr, None, Some};
ghost use Rattle.acpi_base.specs.Object.{whole, Builds, IsOwnEnd};
ghost use Rattle.acpi_term.specs.Row.{row, field_flags, entries_bytes, entries_end};
ghost use Rattle.acpi_aml.specs.Field.{access_number, lock_number, update_number, entries_of};
ghost use Rattle.acpi_ops.specs.Field.{index_field_head, bank_field_head};

use crate::operator::Operation;
use acpi_aml::field::{
    FieldAccessType, FieldEntry, FieldLockRule, FieldUpdateRule, append_entries,
};
use acpi_aml::path::Path;
use acpi_base::buffer::append_value;
use acpi_base::error::{Error, R};
use acpi_base::object::Aml;
use acpi_term::row::framed;
use std::alloc::Global;

/// Names for bits that are reached by two other fields: a field takes the index of a byte, and another then has this byte (ACPI
/// 6.5, 20.2.5.2, DefIndexField).
pub type IndexField = Operation<Indexed, DefField>;

/// The index and the data, and then the entries.
pub struct Indexed;

pub struct DefField;

impl Operation<Indexed, DefField> {
    /// The error is `PkgLength` if an entry has 2^28 bits or more, or the content of the field is too long for a PkgLength.
    pub fn new(
        index: Path,
        data: Path,
        access_type: FieldAccessType,
        lock_rule: FieldLockRule,
        update_rule: FieldUpdateRule,
        fields: Vec<FieldEntry>,
    ) -> R<Operation<Indexed, DefField>>
        ensures { Builds result (row (index_field_head index «data» access_type lock_rule update_rule fields.items) []) }
    {
        let alloc = *fields.allocator();
        let names = names(alloc, &index, &data)?;
        let rest = units(alloc, access_type, lock_rule, update_rule, &fields)?;
        let bytes = framed(&[0x5b, 0x86], names, &[], &rest)?;
        Ok(Operation::of(bytes))
    }
}

/// Names for bits of an operation region that are there while another field, the bank's, has a value (ACPI 6.5, 20.2.5.2,
/// DefBankField).
pub type BankField = Operation<Banked, DefField>;

/// The region, the bank's field and its value, and then the entries.
pub struct Banked;

impl Operation<Banked, DefField> {
    /// The value is borrowed for the call. The error is `PkgLength` if an entry has 2^28 bits or more, then that of the value,
    /// and then `PkgLength` if the content of the field is too long for a PkgLength.
    pub fn new(
        region: Path,
        bank: Path,
        value: &dyn Aml,
        access_type: FieldAccessType,
        lock_rule: FieldLockRule,
        update_rule: FieldUpdateRule,
        fields: Vec<FieldEntry>,
    ) -> R<Operation<Banked, DefField>>
        ensures { Builds result (row (bank_field_head region bank access_type lock_rule update_rule fields.items)
            (object value.now ∷ [])) }
    {
        let alloc = *fields.allocator();
        let names = names(alloc, &region, &bank)?;
        let rest = units(alloc, access_type, lock_rule, update_rule, &fields)?;
        let bytes = framed(&[0x5b, 0x87], names, &[value], &rest)?;
        Ok(Operation::of(bytes))
    }
}

/// Two names, one after the other.
pub(crate) fn names(alloc: Global, first: &Path, second: &Path) -> R<Vec<u8>>
    ensures ok { IfOk result (λ bytes. bytes.items ≡ first.now ++ second.now) }
    ensures err { IfErr result (λ e. IsOwnEnd e (whole [])) }
{
    let mut bytes = Vec::new(alloc);
    append_value(first, &mut bytes)?;
    append_value(second, &mut bytes)?;
    Ok(bytes)
}

// The flags of a field, and its entries.
fn units(
    alloc: Global,
    access_type: FieldAccessType,
    lock_rule: FieldLockRule,
    update_rule: FieldUpdateRule,
    fields: &[FieldEntry],
) -> R<Vec<u8>>
    ensures ok { IfOk result (λ bytes. bytes.items
        ≡ field_flags (access_number access_type) (lock_number lock_rule) (update_number update_rule)
        ∷ entries_bytes (entries_of fields.now)) }
    ensures end { OnOk result (entries_end (entries_of fields.now) ≡ None) }
    ensures err { IfErr result (λ e. e ≢ Error.Memory → entries_end (entries_of fields.now) ≡ Some e) }
{
    let flags = access_type as u8 + 16 * (lock_rule as u8) + 32 * (update_rule as u8);
    let mut bytes = Vec::new(alloc);
    bytes.push(flags)?;
    append_entries(fields, &mut bytes)?;
    Ok(bytes)
}
