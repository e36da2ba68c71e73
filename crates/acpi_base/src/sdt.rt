//! System description tables whose contents are the caller's.

ghost use Rattle.std.specs.Prelude.{◌≡◌, ◌≢◌, ◌≤◌, ◌<◌, ◌+◌, ◌-◌, ◌%◌, ◌^◌, ◌++◌, [], ◌∷◌, ◌↔◌, length, replicate, sum, OnOk};
ghost use Rattle.std.specs.Prelude.{OnErr, IfErr, IfOk, IsTrue};
ghost use Rattle.std.specs.Int.{to_le_bytes, w16, w32, w64};
ghost use Rattle.acpi_base.specs.Bytes.{le, zeros};
ghost use Rattle.acpi_base.specs.Object.{whole, whole_ends_well, Wrote, WriteRefused};
ghost use Rattle.acpi_base.specs.Sink.{Took, Refused};
ghost use Rattle.acpi_base.specs.Table.{with_checksum, table_of, IsTrueTable};
ghost use Rattle.acpi_base.specs.Sdt.{Addition, HasLength, Overwriting, AddedObject};
ghost use Rattle.acpi_base.specs.Sdt.{sdt_of, sdt_takes_nothing, sdt_takes_beginning};
ghost use Rattle.acpi_base.specs.SdtCalls.{IsValidAfterItsCalls};

use crate::error::{Error, R};
use crate::header::{header, seal};
use crate::object::Aml;
use crate::oem::Oem;
use crate::patch::{overwrite, set_length};
use crate::sink::AmlSink;
use crate::sum::Sum;
use crate::value::SdtValue;
use std::alloc::Global;
use std::marker::Model;

/// A table: the standard header (ACPI 6.5, 5.2.6), and the caller's bytes after it. Its checksum is right after every call. Its
/// length field is right after every call that adds bytes.
#[derive(Drop)]
pub struct Sdt {
    bytes: Vec<u8>,
    sum: Sum,
}

impl Model for Sdt {
    ghost use Rattle.acpi_base.specs.Sdt.{Contents};
    ghost use Rattle.acpi_base.specs.Kept.{IsKept};

    ghost Value = { Contents };

    ghost view = { λ s. record { bytes = s.bytes.items; summed = s.sum.summed } };

    ghost invariant = { λ s. IsKept s.bytes.items s.sum.value };
}

/// A table takes bytes at its end as long as its length fits 32 bits. Its length and checksum are right after each call.
#[tactic(auto, using(crate::proofs::Tables::sdt_ok, crate::proofs::Tables::sdt_err))]
impl AmlSink for Sdt {
    ghost meaning = { λ s. sdt_of s.bytes };

    ghost takes_nothing = { λ s. sdt_takes_nothing s.bytes };

    ghost takes_beginning = { λ s. sdt_takes_beginning s.bytes };

    fn byte(&mut self, byte: u8) -> R<()>
        ensures ok { OnOk result (Took (sdt_of self.old.bytes) (byte ∷ []) (sdt_of self.new.bytes)) }
        ensures err { IfErr result (λ e. Refused e (sdt_of self.old.bytes) (byte ∷ []) (sdt_of self.new.bytes)) }
        ensures adds { Addition result self.old (byte ∷ []) self.new }
    {
        self.append_slice(&[byte])
    }

    fn word(&mut self, word: u16) -> R<()>
        ensures ok { OnOk result (Took (sdt_of self.old.bytes) (to_le_bytes w16 word) (sdt_of self.new.bytes)) }
        ensures err { IfErr result (λ e. Refused e (sdt_of self.old.bytes) (to_le_bytes w16 word) (sdt_of self.new.bytes)) }
        ensures adds { Addition result self.old (to_le_bytes w16 word) self.new }
    {
        self.append_slice(&word.to_le_bytes())
    }

    fn dword(&mut self, dword: u32) -> R<()>
        ensures ok { OnOk result (Took (sdt_of self.old.bytes) (to_le_bytes w32 dword) (sdt_of self.new.bytes)) }
        ensures err { IfErr result (λ e. Refused e (sdt_of self.old.bytes) (to_le_bytes w32 dword) (sdt_of self.new.bytes)) }
        ensures adds { Addition result self.old (to_le_bytes w32 dword) self.new }
    {
        self.append_slice(&dword.to_le_bytes())
    }

    fn qword(&mut self, qword: u64) -> R<()>
        ensures ok { OnOk result (Took (sdt_of self.old.bytes) (to_le_bytes w64 qword) (sdt_of self.new.bytes)) }
        ensures err { IfErr result (λ e. Refused e (sdt_of self.old.bytes) (to_le_bytes w64 qword) (sdt_of self.new.bytes)) }
        ensures adds { Addition result self.old (to_le_bytes w64 qword) self.new }
    {
        self.append_slice(&qword.to_le_bytes())
    }

    fn vec(&mut self, v: &[u8]) -> R<()>
        ensures ok { OnOk result (Took (sdt_of self.old.bytes) v.now (sdt_of self.new.bytes)) }
        ensures err { IfErr result (λ e. Refused e (sdt_of self.old.bytes) v.now (sdt_of self.new.bytes)) }
        ensures adds { Addition result self.old v.now self.new }
    {
        self.append_slice(v)
    }
}

/// A table writes its bytes.
impl Aml for Sdt {
    ghost object = { λ s. whole s.bytes };

    ghost ends_well = { λ s. whole_ends_well s.bytes };

    fn to_aml_bytes(&self, sink: &mut dyn AmlSink) -> R<()> {
        sink.vec(&self.bytes)
    }
}

// A header, followed by zeros up to the size.
fn with_zeros(alloc: Global, header: &[u8], size: usize) -> R<Vec<u8>>
    requires { length header.now ≤ size }
    ensures bytes { IfOk result (λ v. v.items ≡ header.now ++ replicate (size - length header.now) 0) }
    ensures len { IfOk result (λ v. length v.items ≡ size) }
    ensures err { IfErr result (λ e. e ≡ Error.Memory) }
{
    let mut bytes = Vec::with_capacity(alloc, size)?;
    bytes.extend_from_slice(header)?;
    bytes.resize(size, 0)?;
    Ok(bytes)
}

impl Sdt {
    /// A table of `length` bytes: the standard header, and zeros after it. The error is `ShortTable` where `length` is below 36.
    pub fn new(
        alloc: Global,
        signature: [u8; 4],
        length: u32,
        revision: u8,
        oem_id: [u8; 6],
        oem_table: [u8; 8],
        oem_revision: u32,
    ) -> R<Sdt>
        ensures ok { IfOk result (λ table. table.bytes ≡ table_of signature revision
            (record { id = oem_id; table_id = oem_table; revision = oem_revision }) (zeros (length - 36))) }
        ensures valid { IfOk result (λ table. IsTrueTable table.bytes) }
        ensures size { IfOk result (λ table. HasLength length table.bytes) }
        ensures long { OnOk result (36 ≤ length) }
        ensures err { IfErr result (λ e. e ≢ Error.Memory → (e ≡ Error.ShortTable) × (length < 36)) }
    {
        if length < 36 {
            return Err(Error::ShortTable);
        }
        let oem = Oem::new(oem_id, oem_table, oem_revision);
        let mut bytes = with_zeros(
            alloc,
            &header(signature, length, revision, oem),
            length as usize,
        )?;
        let sum = seal(&mut bytes);
        Ok(Sdt { bytes, sum })
    }

    /// Sets the checksum at offset 9. Every other call has done so already, so this call changes nothing.
    pub fn update_checksum(&mut self)
        ensures bytes { self.new.bytes ≡ with_checksum self.old.bytes }
        ensures same { self.new.bytes ≡ self.old.bytes }
        ensures summed { self.new.summed ≡ self.old.summed }
    {
        self.bytes[9] = self.sum.checksum();
    }

    /// Adds bytes at the end, and sets the length at offset 4 and the checksum. An empty slice changes nothing. The error is
    /// `FieldWidth` where the length would reach 2^32.
    pub fn append_slice(&mut self, slice: &[u8]) -> R<()>
        ensures adds { Addition result self.old slice.now self.new }
        ensures header { (36 ≤ length self.old.bytes) × (length self.old.bytes < 2 ^ 32) }
    {
        let Ok(size) = u32::try_from(self.bytes.len() + slice.len()) else {
            return Err(Error::FieldWidth);
        };
        if slice.is_empty() {
            return Ok(());
        }
        self.bytes.extend_from_slice(slice)?;
        self.sum.add(slice);
        set_length(&mut self.bytes, &mut self.sum, size);
        Ok(())
    }

    /// Adds a value's bytes at the end, as `append_slice` does.
    pub fn append<T: SdtValue>(&mut self, value: T) -> R<()>
        ensures { Addition result self.old (T.value_bytes value) self.new }
    {
        value.append_to(self)
    }

    /// Writes bytes over those that begin at an offset, and sets the checksum. It doesn't set the length field. The last of the
    /// bytes has to lie inside the table.
    pub fn write_bytes(&mut self, offset: usize, slice: &[u8])
        requires { offset + length slice.now ≤ length self.old.bytes }
        ensures { Overwriting self.old offset slice.now self.new }
    {
        overwrite(&mut self.bytes, &mut self.sum, offset, slice);
    }

    /// Writes a value's bytes at an offset, as `write_bytes` does.
    pub fn write<T: SdtValue>(&mut self, offset: usize, value: T)
        requires { offset + length (T.value_bytes value) ≤ length self.old.bytes }
        ensures { Overwriting self.old offset (T.value_bytes value) self.new }
    {
        value.write_to(self, offset);
    }

    /// Writes a byte at an offset, as `write_bytes` does.
    pub fn write_u8(&mut self, offset: usize, value: u8)
        requires { offset + 1 ≤ length self.old.bytes }
        ensures { Overwriting self.old offset (value ∷ []) self.new }
    {
        self.write_bytes(offset, &[value]);
    }

    /// Writes two bytes at an offset, the lowest first, as `write_bytes` does.
    pub fn write_u16(&mut self, offset: usize, value: u16)
        requires { offset + 2 ≤ length self.old.bytes }
        ensures { Overwriting self.old offset (le 2 value) self.new }
    {
        self.write_bytes(offset, &value.to_le_bytes());
    }

    /// Writes four bytes at an offset, the lowest first, as `write_bytes` does.
    pub fn write_u32(&mut self, offset: usize, value: u32)
        requires { offset + 4 ≤ length self.old.bytes }
        ensures { Overwriting self.old offset (le 4 value) self.new }
    {
        self.write_bytes(offset, &value.to_le_bytes());
    }

    /// Writes eight bytes at an offset, the lowest first, as `write_bytes` does.
    pub fn write_u64(&mut self, offset: usize, value: u64)
        requires { offset + 8 ≤ length self.old.bytes }
        ensures { Overwriting self.old offset (le 8 value) self.new }
    {
        self.write_bytes(offset, &value.to_le_bytes());
    }

    /// The table's bytes, which sum to zero.
    pub fn as_slice(&self) -> &[u8]
        ensures bytes { result.now ≡ self.now.bytes }
        ensures zero { sum result.now % 256 ≡ 0 }
    {
        &self.bytes
    }

    /// The number of bytes of the table: at least 36, and below 2^32.
    pub fn len(&self) -> usize
        ensures len { result ≡ length self.now.bytes }
        ensures header { (36 ≤ length self.now.bytes) × (length self.now.bytes < 2 ^ 32) }
    {
        self.bytes.len()
    }

    /// Whether the table has no bytes. It always has some, so this is false.
    pub fn is_empty(&self) -> bool
        ensures { IsTrue result ↔ (length self.now.bytes ≡ 0) }
    {
        self.bytes.is_empty()
    }
}

/// Writes an object at the end of a table. Length and checksum are right after each part that the object writes. The error is the
/// object's own, or `FieldWidth` where the length would reach 2^32.
#[tactic(auto, using(crate::proofs::Tables::sdt_wrote))]
pub fn append_object(aml: &dyn Aml, table: &mut Sdt) -> R<()>
    ensures ok { OnOk result (AddedObject (object aml.now) table.old.bytes table.new.bytes) }
    ensures err { IfErr result (λ e. WriteRefused e (object aml.now) (sdt_of table.old.bytes) (sdt_of table.new.bytes)) }
{
    write_into(aml, table)
}

// Writes an object at the end of a table; its contract is in terms of sinks.
fn write_into(aml: &dyn Aml, table: &mut Sdt) -> R<()>
    ensures ok { OnOk result (Wrote (object aml.now) (sdt_of table.old.bytes) (sdt_of table.new.bytes)) }
    ensures err { IfErr result (λ e. WriteRefused e (object aml.now) (sdt_of table.old.bytes) (sdt_of table.new.bytes)) }
{
    aml.to_aml_bytes(table)
}

/// A law: after any list of calls that leave the header, successful or not, a table that `Sdt::new` made is valid. It has the
/// bytes that these calls make, contains its length and sums to zero.
pub fn sdt_is_valid(table: &Sdt)
    ensures { IsValidAfterItsCalls table.now }
{
    let _ = &table.bytes;
}
