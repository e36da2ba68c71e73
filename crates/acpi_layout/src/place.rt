//! Tables one after another.

ghost use Rattle.std.specs.Prelude.{◌≡◌, ◌<◌, ◌≤◌, ◌+◌, ◌++◌, ◌^◌, [], ◌∷◌, length, map, OnOk, IfErr};
ghost use Rattle.acpi_base.specs.Bytes.{le};
ghost use Rattle.acpi_base.specs.Object.{all_of, IsOwnEnd};
ghost use Rattle.acpi_layout.specs.Image.{padded, Places};

use acpi_base::buffer::append;
use acpi_base::error::{Error, R};
use acpi_base::object::Aml;

// Zeros up to the next multiple of a unit.
pub(crate) fn pad(bytes: &mut Vec<u8>, unit: usize) -> R<()>
    requires { (0 < unit) × (unit ≤ 16) }
    ensures ok { OnOk result (bytes.new.items ≡ padded unit bytes.old.items) }
    ensures err { IfErr result (λ e. e ≡ Error.Memory) }
{
    let gap = (unit - bytes.len() % unit) % unit;
    bytes.resize(bytes.len() + gap, 0)?;
    Ok(())
}

// The next multiple of 8, where a table begins.
pub(crate) fn begin(bytes: &mut Vec<u8>, places: &mut Vec<u64>) -> R<()>
    ensures bytes { OnOk result (bytes.new.items ≡ padded 8 bytes.old.items) }
    ensures places { OnOk result (places.new.items ≡ places.old.items ++ length (padded 8 bytes.old.items) ∷ []) }
    ensures err { IfErr result (λ e. e ≡ Error.Memory) }
{
    pad(bytes, 8)?;
    places.push(bytes.len() as u64)?;
    Ok(())
}

// Tables at multiples of 8, one after another.
pub(crate) fn place_all(tables: &[&dyn Aml], bytes: &mut Vec<u8>, places: &mut Vec<u64>) -> R<()>
    ensures ok { OnOk result (Places (map (λ table. object table.now) tables.now)
        (record { bytes = bytes.old.items; places = places.old.items })
        (record { bytes = bytes.new.items; places = places.new.items })) }
    ensures err { IfErr result (λ e. IsOwnEnd e (all_of (map (λ table. object table.now) tables.now))) }
{
    for table in tables {
        begin(bytes, places)?;
        append(*table, bytes)?;
    }
    Ok(())
}

// The address of a place. Past 2^64 - 1 only its lowest 64 bits.
pub(crate) fn address(base: u64, place: u64) -> u64
    ensures is { base + place < 2 ^ 64 → result ≡ base + place }
    ensures bytes { le 8 result ≡ le 8 (base + place) }
{
    base.wrapping_add(place)
}

// The address of a place below 4 GiB. Past 2^32 - 1 only its lowest 32 bits.
pub(crate) fn low_address(base: u32, place: u64) -> u32
    ensures { le 4 result ≡ le 4 (base + place) }
{
    (address(u64::from(base), place) % 0x1_0000_0000) as u32
}
