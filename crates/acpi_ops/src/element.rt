//! The elements of lists of fields: bits, how they are accessed, and connections.

ghost use Rattle.std.specs.Prelude.{◌≡◌, ◌≢◌, ◌++◌, [], ◌∷◌, OnOk, IfOk, IfErr, None, Some};
ghost use Rattle.acpi_base.specs.Object.{Builds};
ghost use Rattle.acpi_term.specs.Row.{row, field_flags, entry_bytes, entries_bytes, entries_end};
ghost use Rattle.acpi_aml.specs.Field.{access_number, lock_number, update_number};
ghost use Rattle.acpi_ops.specs.Element.{element_of, elements_of, field_list_head, index_list_head, bank_list_head};

use crate::field::{DefField, names};
use crate::operator::Operation;
use acpi_aml::buffer::BufferData;
use acpi_aml::field::{FieldAccessType, FieldLockRule, FieldUpdateRule};
use acpi_aml::path::Path;
use acpi_base::buffer::append_value;
use acpi_base::error::{Error, R};
use acpi_base::object::Aml;
use acpi_term::row::{field_length, framed};
use std::alloc::Global;

/// An element of a list of fields (ACPI 6.5, 20.2.5.2, FieldElement).
#[derive(Drop)]
pub enum FieldElement {
    /// Bits with a name (NamedField).
    Named([u8; 4], usize),
    /// Bits without a name (ReservedField).
    Reserved(usize),
    /// The bytes AccessType and AccessAttrib of the fields after it (AccessField).
    AccessAs(u8, u8),
    /// The bytes AccessType, ExtendedAccessAttrib and AccessLength of the fields after it (ExtendedAccessField).
    ExtendedAccessAs(u8, u8, u8),
    /// The name of the connection of the fields after it (ConnectField).
    Connection(Path),
    /// The buffer of the connection's descriptor, without an end tag (ConnectField).
    ConnectionBuffer(BufferData),
}

/// Names for bits of an operation region, with any elements (ACPI 6.5, 20.2.5.2, DefField).
pub type FieldList = Operation<Direct, DefField>;

/// The region, and then the elements.
pub struct Direct;

impl Operation<Direct, DefField> {
    /// The error is `PkgLength` if an element has 2^28 bits or more, or the content of the field is too long for a PkgLength.
    pub fn new(
        region: &Path,
        access_type: FieldAccessType,
        lock_rule: FieldLockRule,
        update_rule: FieldUpdateRule,
        elements: Vec<FieldElement>,
    ) -> R<Operation<Direct, DefField>>
        ensures { Builds result (row (field_list_head region.now access_type lock_rule update_rule elements.items) []) }
    {
        let alloc = *elements.allocator();
        let mut name = Vec::new(alloc);
        append_value(region, &mut name)?;
        let rest = units(alloc, access_type, lock_rule, update_rule, &elements)?;
        let bytes = framed(&[0x5b, 0x81], name, &[], &rest)?;
        Ok(Operation::of(bytes))
    }
}

/// Names for bits that are reached by two other fields, with any elements (ACPI 6.5, 20.2.5.2, DefIndexField).
pub type IndexFieldList = Operation<IndexedList, DefField>;

/// The index and the data, and then the elements.
pub struct IndexedList;

impl Operation<IndexedList, DefField> {
    /// The error is `PkgLength` if an element has 2^28 bits or more, or the content of the field is too long for a PkgLength.
    pub fn new(
        index: &Path,
        data: &Path,
        access_type: FieldAccessType,
        lock_rule: FieldLockRule,
        update_rule: FieldUpdateRule,
        elements: Vec<FieldElement>,
    ) -> R<Operation<IndexedList, DefField>>
        ensures { Builds result (row (index_list_head index.now «data».now access_type lock_rule update_rule elements.items) []) }
    {
        let alloc = *elements.allocator();
        let names = names(alloc, index, data)?;
        let rest = units(alloc, access_type, lock_rule, update_rule, &elements)?;
        let bytes = framed(&[0x5b, 0x86], names, &[], &rest)?;
        Ok(Operation::of(bytes))
    }
}

/// Names for bits of an operation region that are there while another field, the bank's, has a value, with any elements (ACPI
/// 6.5, 20.2.5.2, DefBankField).
pub type BankFieldList = Operation<BankedList, DefField>;

/// The region, the bank's field and its value, and then the elements.
pub struct BankedList;

impl Operation<BankedList, DefField> {
    /// The value is borrowed for the call. The error is `PkgLength` if an element has 2^28 bits or more, then that of the value,
    /// and then `PkgLength` if the content of the field is too long for a PkgLength.
    pub fn new(
        region: &Path,
        bank: &Path,
        value: &dyn Aml,
        access_type: FieldAccessType,
        lock_rule: FieldLockRule,
        update_rule: FieldUpdateRule,
        elements: Vec<FieldElement>,
    ) -> R<Operation<BankedList, DefField>>
        ensures { Builds result (row (bank_list_head region.now bank.now access_type lock_rule update_rule elements.items)
            (object value.now ∷ [])) }
    {
        let alloc = *elements.allocator();
        let names = names(alloc, region, bank)?;
        let rest = units(alloc, access_type, lock_rule, update_rule, &elements)?;
        let bytes = framed(&[0x5b, 0x87], names, &[value], &rest)?;
        Ok(Operation::of(bytes))
    }
}

// The flags of a field, and its elements.
fn units(
    alloc: Global,
    access_type: FieldAccessType,
    lock_rule: FieldLockRule,
    update_rule: FieldUpdateRule,
    elements: &[FieldElement],
) -> R<Vec<u8>>
    ensures ok { IfOk result (λ bytes. bytes.items
        ≡ field_flags (access_number access_type) (lock_number lock_rule) (update_number update_rule)
        ∷ entries_bytes (elements_of elements.now)) }
    ensures end { OnOk result (entries_end (elements_of elements.now) ≡ None) }
    ensures err { IfErr result (λ e. e ≢ Error.Memory → entries_end (elements_of elements.now) ≡ Some e) }
{
    let flags = access_type as u8 + 16 * (lock_rule as u8) + 32 * (update_rule as u8);
    let mut bytes = Vec::new(alloc);
    bytes.push(flags)?;
    append_elements(elements, &mut bytes)?;
    Ok(bytes)
}

// Writes elements at the end of a vector, in order.
fn append_elements(elements: &[FieldElement], bytes: &mut Vec<u8>) -> R<()>
    ensures ok { OnOk result (bytes.new.items ≡ bytes.old.items ++ entries_bytes (elements_of elements.now)) }
    ensures end { OnOk result (entries_end (elements_of elements.now) ≡ None) }
    ensures err { IfErr result (λ e. e ≢ Error.Memory → entries_end (elements_of elements.now) ≡ Some e) }
{
    for element in elements {
        append_element(element, bytes)?;
    }
    Ok(())
}

fn append_element(element: &FieldElement, bytes: &mut Vec<u8>) -> R<()>
    ensures ok { OnOk result (bytes.new.items ≡ bytes.old.items ++ entry_bytes (element_of element.now)) }
    ensures end { OnOk result (entries_end (element_of element.now ∷ []) ≡ None) }
    ensures err { IfErr result (λ e. e ≢ Error.Memory → entries_end (element_of element.now ∷ []) ≡ Some e) }
{
    match element {
        FieldElement::Named(name, bits) => {
            let (length, used) = field_length(*bits)?;
            bytes.extend_from_slice(name)?;
            bytes.extend_from_slice(&length[..used])?;
        }
        FieldElement::Reserved(bits) => {
            let (length, used) = field_length(*bits)?;
            bytes.push(0x00)?;
            bytes.extend_from_slice(&length[..used])?;
        }
        FieldElement::AccessAs(access, attribute) => {
            bytes.extend_from_slice(&[0x01, *access, *attribute])?;
        }
        FieldElement::ExtendedAccessAs(access, attribute, size) => {
            bytes.extend_from_slice(&[0x03, *access, *attribute, *size])?;
        }
        FieldElement::Connection(name) => {
            bytes.push(0x02)?;
            append_value(name, bytes)?;
        }
        FieldElement::ConnectionBuffer(buffer) => {
            bytes.push(0x02)?;
            append_value(buffer, bytes)?;
        }
    }
    Ok(())
}
