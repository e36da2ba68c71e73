//! The tables of an image, each found by the address that another one contains.

ghost use Rattle.std.specs.Prelude.{◌≡◌, ◌≢◌, ℕ, ◌+◌, ◌*◌, ◌^◌, ◌<◌, ◌≤◌, false, List, length, codes, slice_index_or};
ghost use Rattle.std.specs.Prelude.{Option, IfSome, IfNone, IfOk, IfErr, OnOk, OnErr};
ghost use Rattle.std.specs.List.{All, Contains};
ghost use Rattle.acpi_base.specs.Bytes.{field_at};
ghost use Rattle.acpi_base.specs.Table.{IsTrueTable};
ghost use Rattle.acpi_layout.specs.declared.fault.ImageFault.TheVariants.{Memory};
ghost use Rattle.acpi_layout.specs.declared.located.Located.{Located};
ghost use Rattle.acpi_layout.specs.declared.root.Root.TheVariants as roots;
ghost use Rattle.acpi_layout.specs.Addresses.{LiesIn, memory_of};
ghost use Rattle.acpi_layout.specs.Found.{contents, IsTableAt, IsPointer, IsOldPointer, IsNamedTableAt, AreAddresses};
ghost use Rattle.acpi_layout.specs.Found.{IsPointerTo, root_address, root_address_end, root_signature, entry_width, least_fadt};
ghost use Rattle.acpi_layout.specs.Found.{AreEntriesOf, IsOnlyFadt, IsControlAt};
ghost use Rattle.acpi_layout.specs.Found.{address_of, address_in, facs_address, dsdt_address, is_reduced, has_no_control};
ghost use Rattle.acpi_layout.specs.Found.{IsControlOf, Lists};
ghost use Rattle.acpi_layout.specs.Fault.{IsTableFault, IsNamedTableFault, IsPointerFault, IsOldPointerFault, IsPointerFaultTo};
ghost use Rattle.acpi_layout.specs.Fault.{IsControlFault};
ghost use Rattle.acpi_layout.specs.Fault.{HasPartOfEntry, IsEntriesFault};
ghost use Rattle.acpi_layout.specs.Fault.{IsNoList, IsFadtFault};

use crate::fault::ImageFault;
use crate::located::Located;
use crate::range::{Range, contents, part};
use crate::root::Root;
use acpi_read::bytes::{dword_at, qword_at, sums_to_zero};
use acpi_read::table::Table;
use std::alloc::Global;

// The table with the standard header at an address.
fn table(ranges: &[Range<'_>], address: u64) -> Result<Located, ImageFault>
    ensures ok { IfOk result (λ table. IsTableAt (memory_of ranges.now) address table) }
    ensures err { OnErr result ((table : Located) → ¬ IsTableAt (memory_of ranges.now) address table) }
    ensures fault { IfErr result (IsTableFault (memory_of ranges.now) address) }
{
    let header = part(ranges, address, 36)?;
    let length = dword_at(header, 4);
    if length < 36 {
        return Err(ImageFault::Length(address));
    }
    let whole = part(ranges, address, length)?;
    let signature = [whole[0], whole[1], whole[2], whole[3]];
    Ok(Located {
        address,
        length,
        signature,
    })
}

// The table with the standard header and this signature at an address.
fn named_table(
    ranges: &[Range<'_>],
    signature: [u8; 4],
    address: u64,
) -> Result<Located, ImageFault>
    ensures ok { IfOk result (λ table. IsNamedTableAt (memory_of ranges.now) signature address table) }
    ensures err { OnErr result ((table : Located) → ¬ IsNamedTableAt (memory_of ranges.now) signature address table) }
    ensures fault { IfErr result (IsNamedTableFault (memory_of ranges.now) signature address) }
{
    let found = table(ranges, address)?;
    if found.signature != signature {
        return Err(ImageFault::Signature(address));
    }
    Ok(found)
}

// The RSDP of revision 2 at an address.
fn pointer(ranges: &[Range<'_>], address: u64) -> Result<Located, ImageFault>
    ensures ok { IfOk result (λ rsdp. IsPointer (memory_of ranges.now) address rsdp) }
    ensures err { OnErr result ((rsdp : Located) → ¬ IsPointer (memory_of ranges.now) address rsdp) }
    ensures fault { IfErr result (IsPointerFault (memory_of ranges.now) address) }
{
    let whole = part(ranges, address, 36)?;
    if whole[..8] != b"RSD PTR "[..] {
        return Err(ImageFault::Signature(address));
    }
    if whole[15] != 2 {
        return Err(ImageFault::Revision(address));
    }
    if dword_at(whole, 20) != 36 {
        return Err(ImageFault::Length(address));
    }
    if !sums_to_zero(&whole[..20]) || !sums_to_zero(whole) {
        return Err(ImageFault::Sum(address));
    }
    let signature = [whole[0], whole[1], whole[2], whole[3]];
    Ok(Located {
        address,
        length: 36,
        signature,
    })
}

// The RSDP of an earlier revision at an address.
fn old_pointer(ranges: &[Range<'_>], address: u64) -> Result<Located, ImageFault>
    ensures ok { IfOk result (λ rsdp. IsOldPointer (memory_of ranges.now) address rsdp) }
    ensures err { OnErr result ((rsdp : Located) → ¬ IsOldPointer (memory_of ranges.now) address rsdp) }
    ensures fault { IfErr result (IsOldPointerFault (memory_of ranges.now) address) }
{
    let whole = part(ranges, address, 20)?;
    if whole[..8] != b"RSD PTR "[..] {
        return Err(ImageFault::Signature(address));
    }
    if whole[15] >= 2 {
        return Err(ImageFault::Revision(address));
    }
    if !sums_to_zero(whole) {
        return Err(ImageFault::Sum(address));
    }
    let signature = [whole[0], whole[1], whole[2], whole[3]];
    Ok(Located {
        address,
        length: 20,
        signature,
    })
}

// The RSDP at an address that points to an XSDT, or to an RSDT.
pub(crate) fn pointer_to(
    root: Root,
    ranges: &[Range<'_>],
    address: u64,
) -> Result<Located, ImageFault>
    ensures ok { IfOk result (λ rsdp. IsPointerTo root (memory_of ranges.now) address rsdp) }
    ensures err { OnErr result ((rsdp : Located) → ¬ IsPointerTo root (memory_of ranges.now) address rsdp) }
    ensures fault { IfErr result (IsPointerFaultTo root (memory_of ranges.now) address) }
{
    match root {
        Root::Xsdt => pointer(ranges, address),
        Root::Rsdt => old_pointer(ranges, address),
    }
}

// The address of the XSDT or the RSDT in an RSDP.
fn root_address(root: Root, pointer: &[u8]) -> u64
    requires { root_address_end root ≤ length pointer.now }
    ensures { result ≡ root_address root pointer.now }
{
    match root {
        Root::Xsdt => qword_at(pointer, 24),
        Root::Rsdt => u64::from(dword_at(pointer, 16)),
    }
}

// The signature of the XSDT or the RSDT.
fn root_signature(root: Root) -> [u8; 4]
    ensures { result ≡ root_signature root }
{
    match root {
        Root::Xsdt => *b"XSDT",
        Root::Rsdt => *b"RSDT",
    }
}

// The XSDT or the RSDT of an RSDP.
pub(crate) fn listing(
    root: Root,
    ranges: &[Range<'_>],
    pointer: Located,
) -> Result<Located, ImageFault>
    requires lies { LiesIn (memory_of ranges.now) pointer.address pointer.length }
    requires within { root_address_end root ≤ pointer.length }
    ensures ok { IfOk result (λ listing. IsNamedTableAt (memory_of ranges.now) (root_signature root)
        (root_address root (contents (memory_of ranges.now) pointer)) listing) }
    ensures err { OnErr result ((listing : Located) → ¬ IsNamedTableAt (memory_of ranges.now) (root_signature root)
        (root_address root (contents (memory_of ranges.now) pointer)) listing) }
    ensures fault { IfErr result (IsNamedTableFault (memory_of ranges.now) (root_signature root)
        (root_address root (contents (memory_of ranges.now) pointer))) }
{
    let address = root_address(root, contents(ranges, pointer));
    named_table(ranges, root_signature(root), address)
}

// The address that a FADT has in two fields: that of 64 bits if it isn't 0, and that of 32 bits otherwise.
#[tactic(auto, unfolding(crate::specs::Found::address_of))]
fn address_of(fadt: &[u8], low: usize, high: usize) -> u64
    requires low { low + 4 ≤ length fadt.now }
    requires high { high + 8 ≤ length fadt.now }
    ensures { result ≡ address_of fadt.now low high }
{
    let address = qword_at(fadt, high);
    if address == 0 {
        return dword_at(fadt, low) as u64;
    }
    address
}

// The same of a FADT that an RSDT lists, which may end before the field of 64 bits.
fn old_address_of(fadt: &[u8], low: usize, high: usize) -> u64
    requires low { low + 4 ≤ length fadt.now }
    requires high { high + 8 < 2 ^ 64 }
    ensures { result ≡ address_in roots.Rsdt fadt.now low high }
{
    if fadt.len() < high + 8 {
        u64::from(dword_at(fadt, low))
    } else {
        address_of(fadt, low, high)
    }
}

// The address that a FADT has in two fields, which are those of a FADT of the least length.
fn address_in(root: Root, fadt: &[u8], low: usize, high: usize) -> u64
    requires least { least_fadt root ≤ length fadt.now }
    requires low { low + 4 ≤ 116 }
    requires high { high + 8 ≤ 148 }
    ensures { result ≡ address_in root fadt.now low high }
{
    match root {
        Root::Xsdt => address_of(fadt, low, high),
        Root::Rsdt => old_address_of(fadt, low, high),
    }
}

// FIRMWARE_CTRL is at offset 36, and X_FIRMWARE_CTRL at 132.
fn facs_address(root: Root, fadt: &[u8]) -> u64
    requires { least_fadt root ≤ length fadt.now }
    ensures { result ≡ facs_address root fadt.now }
{
    address_in(root, fadt, 36, 132)
}

// DSDT is at offset 40, and X_DSDT at 140.
fn dsdt_address(root: Root, fadt: &[u8]) -> u64
    requires { least_fadt root ≤ length fadt.now }
    ensures { result ≡ dsdt_address root fadt.now }
{
    address_in(root, fadt, 40, 140)
}

// The DSDT of a FADT.
pub(crate) fn dsdt(root: Root, ranges: &[Range<'_>], fadt: Located) -> Result<Located, ImageFault>
    requires lies { LiesIn (memory_of ranges.now) fadt.address fadt.length }
    requires within { least_fadt root ≤ fadt.length }
    ensures ok { IfOk result (λ dsdt.
        IsNamedTableAt (memory_of ranges.now) (codes "DSDT") (dsdt_address root (contents (memory_of ranges.now) fadt)) dsdt) }
    ensures err { OnErr result ((dsdt : Located)
        → ¬ IsNamedTableAt (memory_of ranges.now) (codes "DSDT")
        (dsdt_address root (contents (memory_of ranges.now) fadt)) dsdt) }
    ensures fault { IfErr result
        (IsNamedTableFault (memory_of ranges.now) (codes "DSDT") (dsdt_address root (contents (memory_of ranges.now) fadt))) }
{
    let address = dsdt_address(root, contents(ranges, fadt));
    named_table(ranges, *b"DSDT", address)
}

// Whether these are a FADT's Flags of a hardware-reduced machine: bit 20 is HW_REDUCED_ACPI.
pub(crate) fn is_reduced(flags: u32) -> bool
    ensures { result ≡ is_reduced flags }
{
    flags / 0x10_0000 % 2 == 1
}

// Whether a FADT says that there is no FACS.
fn has_no_control(root: Root, fadt: &[u8]) -> bool
    requires { least_fadt root ≤ length fadt.now }
    ensures { result ≡ has_no_control root fadt.now }
{
    is_reduced(dword_at(fadt, 112)) && facs_address(root, fadt) == 0
}

// The FACS at an address.
fn control_at(ranges: &[Range<'_>], address: u64) -> Result<Located, ImageFault>
    ensures ok { IfOk result (λ facs. IsControlAt (memory_of ranges.now) address facs) }
    ensures err { OnErr result ((facs : Located) → ¬ IsControlAt (memory_of ranges.now) address facs) }
    ensures fault { IfErr result (IsControlFault (memory_of ranges.now) address) }
{
    let whole = part(ranges, address, 64)?;
    let signature = [whole[0], whole[1], whole[2], whole[3]];
    if signature != *b"FACS" {
        return Err(ImageFault::Signature(address));
    }
    if dword_at(whole, 4) != 64 {
        return Err(ImageFault::Length(address));
    }
    Ok(Located {
        address,
        length: 64,
        signature,
    })
}

// The FACS of a FADT, or none.
pub(crate) fn control(
    root: Root,
    ranges: &[Range<'_>],
    fadt: Located,
) -> Result<Option<Located>, ImageFault>
    requires lies { LiesIn (memory_of ranges.now) fadt.address fadt.length }
    requires within { least_fadt root ≤ fadt.length }
    ensures ok { IfOk result (λ facs. IsControlOf root (memory_of ranges.now) (contents (memory_of ranges.now) fadt) facs) }
    ensures err { OnErr result ((facs : Option Located)
        → ¬ IsControlOf root (memory_of ranges.now) (contents (memory_of ranges.now) fadt) facs) }
    ensures says { OnErr result (has_no_control root (contents (memory_of ranges.now) fadt) ≡ false) }
    ensures fault { IfErr result
        (IsControlFault (memory_of ranges.now) (facs_address root (contents (memory_of ranges.now) fadt))) }
{
    let fields = contents(ranges, fadt);
    if has_no_control(root, fields) {
        return Ok(None);
    }
    let facs = control_at(ranges, facs_address(root, fields))?;
    Ok(Some(facs))
}

// The number of addresses in an XSDT or an RSDT.
fn entry_count(root: Root, listing: Located) -> Result<usize, ImageFault>
    requires { 36 ≤ listing.length }
    ensures ok { IfOk result (λ count. listing.length ≡ 36 + entry_width root * count) }
    ensures err { OnErr result (HasPartOfEntry root listing) }
    ensures fault { IfErr result (λ e. e ≡ ImageFault.Entries listing.address) }
{
    let size = listing.length - 36;
    match root {
        Root::Xsdt => {
            if size % 8 != 0 {
                return Err(ImageFault::Entries(listing.address));
            }
            Ok(size as usize / 8)
        }
        Root::Rsdt => {
            if size % 4 != 0 {
                return Err(ImageFault::Entries(listing.address));
            }
            Ok(size as usize / 4)
        }
    }
}

// The address at an index of an XSDT or an RSDT.
fn entry_at(root: Root, listing: &[u8], index: usize) -> u64
    requires { 36 + entry_width root * (index + 1) ≤ length listing.now }
    ensures { result ≡ field_at (36 + entry_width root * index) (entry_width root) listing.now }
{
    match root {
        Root::Xsdt => qword_at(listing, 36 + 8 * index),
        Root::Rsdt => u64::from(dword_at(listing, 36 + 4 * index)),
    }
}

// The addresses that an XSDT lists.
fn addresses(alloc: Global, ranges: &[Range<'_>], xsdt: Located) -> Result<Vec<u64>, ImageFault>
    requires lies { LiesIn (memory_of ranges.now) xsdt.address xsdt.length }
    requires within { 36 ≤ xsdt.length }
    ensures ok { IfOk result (λ addresses. AreAddresses (memory_of ranges.now) xsdt addresses.items) }
    ensures err { IfErr result (λ e. e ≢ Memory → (addresses : List ℕ) → ¬ AreAddresses (memory_of ranges.now) xsdt addresses) }
    ensures fault { IfErr result (λ e. e ≢ Memory → HasPartOfEntry roots.Xsdt xsdt × (e ≡ ImageFault.Entries xsdt.address)) }
{
    let count = entry_count(Root::Xsdt, xsdt)?;
    let whole = contents(ranges, xsdt);
    let mut addresses = Vec::new(alloc);
    for i in 0..count {
        addresses.push(qword_at(whole, 36 + 8 * i))?;
    }
    Ok(addresses)
}

// The addresses that the XSDT of the RSDP at an address lists.
pub(crate) fn listed(alloc: Global, ranges: &[Range<'_>], rsdp: u64) -> Result<Vec<u64>, ImageFault>
    ensures ok { IfOk result (λ addresses. Lists (memory_of ranges.now) rsdp addresses.items) }
    ensures err { IfErr result (λ e. e ≢ Memory → (addresses : List ℕ) → ¬ Lists (memory_of ranges.now) rsdp addresses) }
    ensures fault { IfErr result (λ e. e ≢ Memory → IsNoList (memory_of ranges.now) rsdp e) }
{
    let pointer = pointer_to(Root::Xsdt, ranges, rsdp)?;
    let xsdt = listing(Root::Xsdt, ranges, pointer)?;
    addresses(alloc, ranges, xsdt)
}

// The tables that an XSDT or an RSDT lists.
pub(crate) fn entries(
    alloc: Global,
    root: Root,
    ranges: &[Range<'_>],
    listing: Located,
) -> Result<Vec<Located>, ImageFault>
    requires lies { LiesIn (memory_of ranges.now) listing.address listing.length }
    requires within { 36 ≤ listing.length }
    ensures ok { IfOk result (λ entries. AreEntriesOf root (memory_of ranges.now) listing entries.items) }
    ensures err { IfErr result (λ e. e ≢ Memory → (entries : List Located)
        → ¬ AreEntriesOf root (memory_of ranges.now) listing entries) }
    ensures fault { IfErr result (λ e. e ≢ Memory → IsEntriesFault root (memory_of ranges.now) listing e) }
{
    let count = entry_count(root, listing)?;
    let whole = contents(ranges, listing);
    let mut entries = Vec::new(alloc);
    for i in 0..count {
        entries.push(table(ranges, entry_at(root, whole, i))?)?;
    }
    Ok(entries)
}

// The index of the first of these tables with the signature of a FADT.
fn first_fadt(tables: &[Located]) -> Option<usize>
    ensures some { IfSome result (λ index. index < length tables.now
        × ((d : Located) → (slice_index_or tables.now index d).signature ≡ codes "FACP")) }
    ensures before { IfSome result (λ index. (k : ℕ) (d : Located) → k < index
        → (slice_index_or tables.now k d).signature ≢ codes "FACP") }
    ensures none { IfNone result (All (λ table. table.signature ≢ codes "FACP") tables.now) }
{
    for (i, table) in tables.iter().enumerate() {
        if table.signature == *b"FACP" {
            return Some(i);
        }
    }
    None
}

// The least length of a FADT that an XSDT or an RSDT lists.
fn least_fadt(root: Root) -> u32
    ensures { result ≡ least_fadt root }
{
    match root {
        Root::Xsdt => 148,
        Root::Rsdt => 116,
    }
}

// The only FADT of these tables, which the table at an address lists, if it has at least this length.
fn only_fadt_of(least: u32, listing: u64, tables: &[Located]) -> Result<Located, ImageFault>
    ensures ok { IfOk result (λ fadt. IsOnlyFadt least tables.now fadt) }
    ensures err { OnErr result ((fadt : Located) → ¬ IsOnlyFadt least tables.now fadt) }
    ensures fault { IfErr result (IsFadtFault least listing tables.now) }
{
    let Some(index) = first_fadt(tables) else {
        return Err(ImageFault::NoFadt(listing));
    };
    let fadt = tables[index];
    for other in &tables[index + 1..] {
        if other.signature == *b"FACP" {
            return Err(ImageFault::SecondFadt(other.address));
        }
    }
    if fadt.length < least {
        return Err(ImageFault::Length(fadt.address));
    }
    Ok(fadt)
}

// The only FADT of these tables, which the XSDT or the RSDT at an address lists.
pub(crate) fn only_fadt(root: Root, listing: u64, tables: &[Located]) -> Result<Located, ImageFault>
    ensures ok { IfOk result (λ fadt. IsOnlyFadt (least_fadt root) tables.now fadt) }
    ensures err { OnErr result ((fadt : Located) → ¬ IsOnlyFadt (least_fadt root) tables.now fadt) }
    ensures fault { IfErr result (IsFadtFault (least_fadt root) listing tables.now) }
{
    only_fadt_of(least_fadt(root), listing, tables)
}

// Each table sums to zero, and has its length.
pub(crate) fn are_correct(ranges: &[Range<'_>], tables: &[Located]) -> Result<(), ImageFault>
    requires { All (λ table. LiesIn (memory_of ranges.now) table.address table.length) tables.now }
    ensures ok { OnOk result (All (λ table. IsTrueTable (contents (memory_of ranges.now) table)) tables.now) }
    ensures err { OnErr result (¬ All (λ table. IsTrueTable (contents (memory_of ranges.now) table)) tables.now) }
    ensures fault { IfErr result (λ e. (table : Located) × Contains tables.now table
        × ¬ IsTrueTable (contents (memory_of ranges.now) table) × (e ≡ ImageFault.Sum table.address)) }
{
    for table in tables {
        is_correct(ranges, *table)?;
    }
    Ok(())
}

// A table sums to zero, and has its length.
pub(crate) fn is_correct(ranges: &[Range<'_>], table: Located) -> Result<(), ImageFault>
    requires { LiesIn (memory_of ranges.now) table.address table.length }
    ensures ok { OnOk result (IsTrueTable (contents (memory_of ranges.now) table)) }
    ensures err { OnErr result (¬ IsTrueTable (contents (memory_of ranges.now) table)) }
    ensures fault { IfErr result (λ e. e ≡ ImageFault.Sum table.address) }
{
    if Table::check(contents(ranges, table)).is_err() {
        return Err(ImageFault::Sum(table.address));
    }
    Ok(())
}
