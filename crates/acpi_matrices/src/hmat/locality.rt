//! Matrices of latencies and bandwidths.

ghost use Rattle.std.specs.Prelude.{◌≡◌, ◌≢◌, ◌-◌, ◌^◌, ◌<◌, ◌≤◌, ◌++◌, bit_or, length, replicate, IfOk, OnOk, IfErr};
ghost use Rattle.acpi_base.specs.Fields.{AreRowsOf};
ghost use Rattle.acpi_base.specs.Object.{whole, whole_ends_well};
ghost use Rattle.acpi_base.specs.Bytes.{zeros};
ghost use Rattle.acpi_matrices.specs.Locality.{Locality, lists_size, locality_size, locality};
ghost use Rattle.acpi_matrices.specs.Locality.{locality_head_fields, locality_head, locality_bytes};
ghost use Rattle.acpi_matrices.specs.Locality.{CellsStand, IsLocality, Sets, initiator_at, target_at, entry_at};

use acpi_base::error::{Error, R};
use acpi_base::object::Aml;
use acpi_base::parts::write_parts;
use acpi_base::patch::write_at;
use acpi_base::row::{Bits, Row, Word, record_of_numbers};
use acpi_base::sink::AmlSink;
use std::alloc::Global;
use std::marker::Model;

/// The memory or cache that a matrix describes (flag bits 0 to 3).
#[derive(Clone, Copy, Debug, PartialEq)]
pub enum LocalityType {
    Memory = 0,
    FirstLevelCache = 1,
    SecondLevelCache = 2,
    ThirdLevelCache = 3,
}

/// The type of the entries of a matrix (offset 9). An access type is for both reading and writing.
#[derive(Clone, Copy, Debug)]
pub enum DataType {
    AccessLatency = 0,
    ReadLatency = 1,
    WriteLatency = 2,
    AccessBandwidth = 3,
    ReadBandwidth = 4,
    WriteBandwidth = 5,
}

/// The least size of transfers for which the entries hold (offset 10).
#[derive(Clone, Copy, Debug)]
pub enum MinTransferSize {
    SizeByteAligned = 0,
    Size64b = 1,
    Size128b = 2,
    Size256b = 3,
    Size512b = 4,
    Size1k = 5,
    Size2k = 6,
    Size4k = 7,
    Size8k = 8,
    Size16k = 9,
    Size32k = 10,
    Size64k = 11,
}

/// Flags other than the locality type (offset 8).
const MINIMUM_TRANSFER_SIZE: u8 = 16;

const NON_SEQUENTIAL: u8 = 32;

/// A matrix of latencies or bandwidths between initiators and targets (System Locality Latency and Bandwidth Information
/// Structure, ACPI 6.5, 5.2.28.4): 32 bytes, 4 for each initiator and for each target, and 2 for each entry.
#[derive(Drop)]
pub struct SystemLocality {
    flags: u8,
    data_type: DataType,
    transfer: MinTransferSize,
    unit: u64,
    initiators: u32,
    targets: u32,
    lists: Vec<u8>,
}

impl Model for SystemLocality {
    ghost use Rattle.acpi_matrices.specs.Locality.{Locality, IsLocality};

    ghost Value = { Locality };

    ghost view = { λ l. record {
      flags = l.flags;
      data_type = l.data_type;
      transfer = l.transfer;
      unit = l.unit;
      initiators = l.initiators;
      targets = l.targets;
      lists = l.lists.items;
    } };

    ghost invariant = { λ l. IsLocality (record {
      flags = l.flags;
      data_type = l.data_type;
      transfer = l.transfer;
      unit = l.unit;
      initiators = l.initiators;
      targets = l.targets;
      lists = l.lists.items;
    }) };
}

/// A law: each cell of a system locality is at its place in the bytes, and its lists have as many bytes as its cells.
pub fn cells_stand(locality: &SystemLocality)
    ensures cells { CellsStand locality.now }
    ensures keeps { IsLocality locality.now }
{
    let _ = &locality.lists;
}

// The number of bytes of the lists of initiators, targets and entries. The error is `Matrix` if the structure's size would reach
// 2^32.
fn size_of_lists(initiators: usize, targets: usize) -> R<usize>
    ensures size { IfOk result (λ size. size ≡ lists_size initiators targets) }
    ensures ok { OnOk result (locality_size initiators targets < 2 ^ 32) }
    ensures err { IfErr result (λ e. (e ≡ Error.Matrix) × (2 ^ 32 ≤ locality_size initiators targets)) }
{
    if initiators >= 0x4000_0000 || targets >= 0x4000_0000 {
        return Err(Error::Matrix);
    }
    let size = 4 * initiators + 4 * targets + 2 * (initiators * targets);
    if size >= 0x1_0000_0000 - 32 {
        return Err(Error::Matrix);
    }
    Ok(size)
}

// The lists of a new matrix: `domains` bytes for the domains, and then the entries.
fn new_lists(alloc: Global, domains: usize, size: usize) -> R<Vec<u8>>
    requires { domains ≤ size }
    ensures bytes { IfOk result (λ v. v.items ≡ zeros domains ++ replicate (size - domains) 255) }
    ensures len { IfOk result (λ v. length v.items ≡ size) }
    ensures err { IfErr result (λ e. e ≡ Error.Memory) }
{
    let mut lists = Vec::with_capacity(alloc, size)?;
    lists.resize(domains, 0)?;
    lists.resize(size, 0xff)?;
    Ok(lists)
}

impl SystemLocality {
    /// A matrix with these numbers of initiators and targets. Each domain is 0, and each entry is 0xffff, which means
    /// unreachable. The units of entries are those of ACPI 6.5: `entry_base_unit` picoseconds or megabytes a second. In a HMAT of
    /// revision 1 a reader may take other units: Linux shows latencies a hundred times as large, and bandwidths a tenth. The
    /// error is `Matrix` if the size would reach 2^32.
    pub fn new(
        alloc: Global,
        loc_type: LocalityType,
        data_type: DataType,
        min_transfer_size: MinTransferSize,
        entry_base_unit: u64,
        num_initiators: usize,
        num_targets: usize,
    ) -> R<SystemLocality>
        ensures ok { IfOk result (λ l.
            l ≡ locality loc_type data_type min_transfer_size entry_base_unit num_initiators num_targets) }
        ensures fits { OnOk result (locality_size num_initiators num_targets < 2 ^ 32) }
        ensures err { IfErr result (λ e. e ≢ Error.Memory →
            (e ≡ Error.Matrix) × (2 ^ 32 ≤ locality_size num_initiators num_targets)) }
    {
        let size = size_of_lists(num_initiators, num_targets)?;
        let lists = new_lists(alloc, 4 * num_initiators + 4 * num_targets, size)?;
        Ok(SystemLocality {
            flags: loc_type as u8,
            data_type,
            transfer: min_transfer_size,
            unit: entry_base_unit,
            initiators: num_initiators as u32,
            targets: num_targets as u32,
            lists,
        })
    }

    /// Sets flag 32: the entries are for transfers that aren't sequential.
    pub fn non_sequential_transfers(&mut self)
        ensures { self.new ≡ record self.old { flags = bit_or self.old.flags 32 } }
    {
        self.flags |= NON_SEQUENTIAL;
    }

    /// Sets flag 16: the entries hold only from the minimum transfer size on.
    pub fn minimum_transfer_size_required(&mut self)
        ensures { self.new ≡ record self.old { flags = bit_or self.old.flags 16 } }
    {
        self.flags |= MINIMUM_TRANSFER_SIZE;
    }

    /// Sets the proximity domain of an initiator. The error is `Index` if there is no such initiator; nothing changes then.
    pub fn set_initiator_value(&mut self, idx: usize, value: u32) -> R<()>
        ensures { Sets result self.old (initiator_at idx) value self.new }
    {
        if idx >= self.initiators as usize {
            return Err(Error::Index);
        }
        write_at(&mut self.lists, 4 * idx, &value.to_le_bytes());
        Ok(())
    }

    /// Sets the proximity domain of a target. The error is `Index` if there is no such target; nothing changes then.
    pub fn set_target_value(&mut self, idx: usize, value: u32) -> R<()>
        ensures { Sets result self.old (target_at idx) value self.new }
    {
        if idx >= self.targets as usize {
            return Err(Error::Index);
        }
        let place = 4 * self.initiators as usize + 4 * idx;
        write_at(&mut self.lists, place, &value.to_le_bytes());
        Ok(())
    }

    /// Sets the entry of an initiator and a target. The error is `Index` if there is no such initiator or target; nothing changes
    /// then.
    pub fn set_entry_value(&mut self, initiator_idx: usize, target_idx: usize, value: u16) -> R<()>
        ensures { Sets result self.old (entry_at initiator_idx target_idx) value self.new }
    {
        let initiators = self.initiators as usize;
        let targets = self.targets as usize;
        if initiator_idx >= initiators || target_idx >= targets {
            return Err(Error::Index);
        }
        let place = 4 * initiators + 4 * targets + 2 * (initiator_idx * targets + target_idx);
        write_at(&mut self.lists, place, &value.to_le_bytes());
        Ok(())
    }

    // The bytes of the structure before its lists.
    fn head(&self) -> [u8; 32]
        ensures { result ≡ locality_head self.now }
    {
        record_of_numbers(
            &SYSTEM_LOCALITY,
            &[
                1,
                0,
                32 + self.lists.len() as u64,
                u64::from(self.flags),
                self.data_type as u64,
                self.transfer as u64,
                0,
                u64::from(self.initiators),
                u64::from(self.targets),
                0,
                self.unit,
            ],
        )
    }
}

/// The rows of a System Locality Latency and Bandwidth Information Structure before its lists.
pub const SYSTEM_LOCALITY: [Row; 11] = [
    Row::Preset("Type", 2, 1),
    Row::Reserved(2),
    Row::Number("Length", 4),
    Row::Flags(
        "Flags",
        1,
        &[
            Bits::OneOf(
                0xf,
                &[
                    Word(0x0, "Memory"),
                    Word(0x1, "First Level Memory Side Cache"),
                    Word(0x2, "Second Level Memory Side Cache"),
                    Word(0x3, "Third Level Memory Side Cache"),
                ],
            ),
            Bits::Flag(0x10, "Minimum Transfer Size"),
            Bits::Flag(0x20, "Non-sequential Transfers"),
        ],
    ),
    Row::OneOf(
        "Data Type",
        1,
        &[
            Word(0, "Access Latency"),
            Word(1, "Read Latency"),
            Word(2, "Write Latency"),
            Word(3, "Access Bandwidth"),
            Word(4, "Read Bandwidth"),
            Word(5, "Write Bandwidth"),
        ],
    ),
    Row::OneOf(
        "MinTransferSize",
        1,
        &[
            Word(0, "Byte Aligned"),
            Word(1, "64 Bytes"),
            Word(2, "128 Bytes"),
            Word(3, "256 Bytes"),
            Word(4, "512 Bytes"),
            Word(5, "1 KiB"),
            Word(6, "2 KiB"),
            Word(7, "4 KiB"),
            Word(8, "8 KiB"),
            Word(9, "16 KiB"),
            Word(10, "32 KiB"),
            Word(11, "64 KiB"),
        ],
    ),
    Row::Reserved(1),
    Row::Number("Number of Initiator Proximity Domains", 4),
    Row::Number("Number of Target Proximity Domains", 4),
    Row::Reserved(4),
    Row::Number("Entry Base Unit", 8),
];

/// The rows of a matrix's fields before its lists, in order.
pub fn system_locality_rows() -> &'static [Row]
    ensures { (l : Locality) → AreRowsOf result.now (locality_head_fields l) }
{
    &SYSTEM_LOCALITY
}

impl Aml for SystemLocality {
    ghost object = { λ l. whole (locality_bytes l) };

    ghost ends_well = { λ l. whole_ends_well (locality_bytes l) };

    fn to_aml_bytes(&self, sink: &mut dyn AmlSink) -> R<()> {
        write_parts(sink, &[&self.head(), &self.lists])
    }
}
