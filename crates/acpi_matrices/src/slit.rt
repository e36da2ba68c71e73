//! SLIT: the distances between localities.

ghost use Rattle.std.specs.Prelude.{◌≡◌, ◌≢◌, ℕ, ◌+◌, ◌*◌, ◌%◌, ◌≤◌, ◌<◌, [], ◌∷◌, length, replicate, sum};
ghost use Rattle.std.specs.Prelude.{IfOk, OnOk, IfErr};
ghost use Rattle.acpi_base.specs.Bytes.{put};
ghost use Rattle.acpi_base.specs.Fields.{AreRowsOf};
ghost use Rattle.acpi_base.specs.Object.{whole, whole_ends_well};
ghost use Rattle.acpi_base.specs.Table.{IsTrueTable};
ghost use Rattle.acpi_base.specs.Walk.{ArePiecesOf};
ghost use Rattle.acpi_matrices.specs.Slit.{slit, slit_fields, slit_bytes, place_of, cost_of};
ghost use Rattle.acpi_matrices.specs.Slit.{SetsDistance, DistancesAreTrue, DistancesAreSet, IsSymmetric};
ghost use Rattle.acpi_matrices.specs.Slit.{IsMatrix, IsSlitAfterItsCalls};

use acpi_base::error::{Error, R};
use acpi_base::header::{header, seal};
use acpi_base::object::Aml;
use acpi_base::oem::Oem;
use acpi_base::parts::write_parts;
use acpi_base::patch::{patch, write_at};
use acpi_base::row::{Row, Value, record_of};
use acpi_base::sink::AmlSink;
use acpi_base::sum::Sum;
use std::alloc::Global;
use std::marker::Model;

/// The distance of a locality that can't be reached (ACPI 6.5, 5.2.17).
pub const UNREACHABLE_LOCALITY: u8 = 255;

/// The System Locality Information Table (ACPI 6.5, 5.2.17). The number of localities is at offset 36. The distances begin at
/// offset 44 and have one byte each: that of `a` and `b` is at 44 + a + localities * b. The distance of `b` and `a` is the same.
/// The checksum is right after every call.
#[derive(Drop)]
pub struct SLIT {
    fixed: [u8; 44],
    cells: Vec<u8>,
    sum: Sum,
    localities: u32,
}

impl Model for SLIT {
    ghost use Rattle.acpi_matrices.specs.Slit.{Counted, parts_of, IsParts};

    ghost Value = { Counted };

    ghost view = { λ t. record { table = parts_of t.fixed t.localities t.cells.items; summed = t.sum.summed } };

    ghost invariant = { λ t. IsParts t.fixed t.localities t.cells.items t.sum.value };
}

impl Aml for SLIT {
    ghost object = { λ t. whole (slit_bytes t.table) };

    ghost ends_well = { λ t. whole_ends_well (slit_bytes t.table) };

    fn to_aml_bytes(&self, sink: &mut dyn AmlSink) -> R<()> {
        write_parts(sink, &[&self.fixed, &self.cells])
    }
}

// The index of the distance of two localities among the cells.
fn place(localities: usize, a: usize, b: usize) -> usize
    requires { (a < localities) × ((b < localities) × (localities < 65536)) }
    ensures place { result ≡ place_of localities a b }
    ensures within { result < localities * localities }
{
    a + localities * b
}

// Sets both distances of two localities, and updates a sum of all bytes.
fn set_cells(cells: &mut [u8], running: &mut Sum, localities: usize, a: usize, b: usize, value: u8)
    requires inside { (a < localities) × ((b < localities) × (localities < 65536)) }
    requires square { length cells.old ≡ localities * localities }
    ensures cells { cells.new ≡ put (place_of localities b a) (value ∷ [])
        (put (place_of localities a b) (value ∷ []) cells.old) }
    ensures sum { (running.new.value + sum cells.old) % 256 ≡ (running.old.value + sum cells.new) % 256 }
    ensures range { running.new.value < 256 }
    ensures counted { running.new.summed ≡ running.old.summed + cost_of a b }
{
    patch(cells, running, place(localities, a, b), &[value]);
    if a != b {
        patch(cells, running, place(localities, b, a), &[value]);
    }
}

// A list of cells with distance 10.
fn new_cells(alloc: Global, size: usize) -> R<Vec<u8>>
    ensures cells { IfOk result (λ v. v.items ≡ replicate size 10) }
    ensures err { IfErr result (λ e. e ≡ Error.Memory) }
{
    let mut cells = Vec::new(alloc);
    cells.resize(size, 10)?;
    Ok(cells)
}

impl SLIT {
    /// A table with this many localities, whose distances are all 10. The error is `Matrix` past 65,535 localities.
    pub fn new(
        alloc: Global,
        oem_id: [u8; 6],
        oem_table_id: [u8; 8],
        oem_revision: u32,
        localities: u32,
    ) -> R<SLIT>
        ensures ok { IfOk result (λ t.
            t.table ≡ slit (record { id = oem_id; table_id = oem_table_id; revision = oem_revision }) localities) }
        ensures fits { OnOk result (localities < 65536) }
        ensures err { IfErr result (λ e. e ≢ Error.Memory → (e ≡ Error.Matrix) × (65536 ≤ localities)) }
    {
        if localities > 65_535 {
            return Err(Error::Matrix);
        }
        let size = localities as usize * localities as usize;
        let cells = new_cells(alloc, size)?;
        let oem = Oem::new(oem_id, oem_table_id, oem_revision);
        let head = header(*b"SLIT", 44 + size as u32, 1, oem);
        let mut fixed = record_of(
            &SLIT_FIXED,
            &[Value::Bytes(&head), Value::Number(u64::from(localities))],
        );
        let mut sum = seal(&mut fixed);
        sum.add(&cells);
        write_at(&mut fixed, 9, &[sum.checksum()]);
        Ok(SLIT {
            fixed,
            cells,
            sum,
            localities,
        })
    }

    /// Sets the distance of two localities in both directions. The error is `Index` if there is no such locality; nothing changes
    /// then. The call takes no memory.
    pub fn set_distance(&mut self, domain_a: usize, domain_b: usize, locality_value: u8) -> R<()>
        ensures { SetsDistance result self.old domain_a domain_b locality_value self.new }
    {
        let localities = self.localities as usize;
        if domain_a >= localities || domain_b >= localities {
            return Err(Error::Index);
        }
        set_cells(
            &mut self.cells,
            &mut self.sum,
            localities,
            domain_a,
            domain_b,
            locality_value,
        );
        write_at(&mut self.fixed, 9, &[self.sum.checksum()]);
        Ok(())
    }

    /// The number of bytes of the table.
    pub fn len(&self) -> usize
        ensures { result ≡ length (slit_bytes self.now.table) }
    {
        44 + self.cells.len()
    }

    /// The number of localities.
    pub fn localities(&self) -> u32
        ensures { result ≡ self.now.table.localities }
    {
        self.localities
    }
}

/// The rows of a SLIT before its matrix.
pub const SLIT_FIXED: [Row; 2] = [
    Row::Bytes("Header", 36),
    Row::Number("Number of System Localities", 8),
];

/// The rows of the fields between the header and the distances, in order.
pub fn slit_rows() -> &'static [Row]
    ensures { (localities : ℕ) → AreRowsOf result.now (slit_fields localities) }
{
    &SLIT_FIXED[1..]
}

/// A law: after any list of calls, successful or not, a SLIT is a valid table without structures. It is the new table with the
/// distances that the successful calls set. They are in its bytes from offset 44 on, and are symmetric.
pub fn slit_is_valid(table: &SLIT)
    ensures valid { IsTrueTable (slit_bytes table.now.table) }
    ensures pieces { ArePiecesOf (slit_bytes table.now.table) [] }
    ensures matrix { IsMatrix table.now.table }
    ensures symmetric { IsSymmetric table.now.table }
    ensures calls { IsSlitAfterItsCalls table.now }
{
    let _ = &table.cells;
}

/// A law: the bytes of a symmetric matrix of at most 65,535 localities are a correct table: 44 bytes, and one for each distance.
pub fn distances_are_true()
    ensures { DistancesAreTrue }
{}

/// A law: a call sets a distance in both directions and changes no other, and a symmetric matrix stays symmetric.
pub fn distances_are_set()
    ensures { DistancesAreSet }
{}
