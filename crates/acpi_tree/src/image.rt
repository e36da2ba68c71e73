//! The tables of an image, by the pointers that lead to them. A function whose name begins with `push` adds to a list or a text.

ghost use Rattle.std.specs.Prelude.{◌≡◌, ◌++◌, ◌/◌, ◌-◌, map, Option, Some, None, codes, IfOk, OnOk, string_bytes};
ghost use Rattle.std.specs.Fmt.{digits};
ghost use Rattle.std.specs.List.{flat_map};
ghost use Rattle.acpi_tree.specs.Image.{entry_count, branch_at, below, entry, branches_of, letter, title, address_text};
ghost use Rattle.acpi_tree.specs.Image.{branch_line, image_tree, branch_name, branch_label, arrow_from, branch_dot, image_dot};

use crate::tree::push_spaces;
use acpi_json::number::push_decimal;
use acpi_layout::located::Located;
use std::alloc::{AllocError, Global};

/// A table of an image, and the one that has its address.
#[derive(Clone, Copy, Debug)]
pub struct Branch {
    /// How many tables lead to it, one after another.
    pub depth: usize,
    /// The address of the table that has its address. The RSDP has none.
    pub parent: Option<u64>,
    /// Where it is.
    pub table: Located,
}

// ---- who points to whom

// Returns how many tables an RSDT or an XSDT lists (ACPI 6.5, 5.2.7 and 5.2.8).
fn entry_count(listing: &Located) -> usize
    ensures { result ≡ entry_count listing.now }
{
    let size = listing.length.saturating_sub(36);
    if listing.signature == *b"RSDT" {
        (size / 4) as usize
    } else {
        (size / 8) as usize
    }
}

fn branch_at(depth: usize, parent: Option<u64>, table: &Located) -> Branch
    ensures { result ≡ branch_at depth parent table.now }
{
    Branch {
        depth,
        parent,
        table: *table,
    }
}

// Adds the tables to which a FADT points.
fn push_below(
    fadt: &Located,
    pointed: &[Located],
    branches: &mut Vec<Branch>,
) -> Result<(), AllocError>
    ensures { OnOk result (branches.new.items ≡ branches.old.items ++ map (below fadt.now) pointed.now) }
{
    'tables: for table in pointed {
        branches.push(branch_at(3, Some(fadt.address), table))?;
    }
    Ok(())
}

// Adds a table that the RSDT or the XSDT lists. The FADT points to further ones.
fn push_entry(
    listing: &Located,
    pointed: &[Located],
    table: &Located,
    branches: &mut Vec<Branch>,
) -> Result<(), AllocError>
    ensures { OnOk result (branches.new.items ≡ branches.old.items ++ entry listing.now pointed.now table.now) }
{
    branches.push(branch_at(2, Some(listing.address), table))?;
    if table.signature == *b"FACP" {
        push_below(table, pointed, branches)?;
    }
    Ok(())
}

fn push_entries(
    listing: &Located,
    pointed: &[Located],
    entries: &[Located],
    branches: &mut Vec<Branch>,
) -> Result<(), AllocError>
    ensures { OnOk result (branches.new.items ≡ branches.old.items ++ flat_map (entry listing.now pointed.now) entries.now) }
{
    'entries: for table in entries {
        push_entry(listing, pointed, table, branches)?;
    }
    Ok(())
}

/// Returns the tables of an image, each after the one that points to it. They are given in the order in which `check_image_of` of
/// `acpi_layout` finds them: the RSDP, the XSDT or the RSDT, its entries, the FACS, if there is one, and the DSDT.
pub fn branches_of(alloc: Global, tables: &[Located]) -> Result<Vec<Branch>, AllocError>
    ensures { IfOk result (λ branches. branches.items ≡ branches_of tables.now) }
{
    let mut branches = Vec::new(alloc);
    if let [rsdp, listing, more @ ..] = tables {
        let count = entry_count(listing).min(more.len());
        branches.push(branch_at(0, None, rsdp))?;
        branches.push(branch_at(1, Some(rsdp.address), listing))?;
        push_entries(listing, &more[count..], &more[..count], &mut branches)?;
    }
    Ok(branches)
}

// ---- the text

/// Returns a byte of a signature as a letter: itself if it is a letter or a digit, and otherwise an underscore.
pub fn letter(byte: u8) -> u8
    ensures { result ≡ letter byte }
{
    if byte.is_ascii_alphanumeric() {
        byte
    } else {
        b'_'
    }
}

/// Returns the name of a table, by its first four bytes: its signature, in which an underscore stands for what isn't a letter or
/// a digit, and RSDP for an RSDP.
pub fn title(signature: &[u8; 4]) -> [u8; 4]
    ensures { result ≡ title signature.now }
{
    if signature == b"RSD " {
        *b"RSDP"
    } else {
        [
            letter(signature[0]),
            letter(signature[1]),
            letter(signature[2]),
            letter(signature[3]),
        ]
    }
}

fn push_title(table: &Located, text: &mut Vec<u8>) -> Result<(), AllocError>
    ensures { OnOk result (text.new.items ≡ text.old.items ++ title table.now.signature) }
{
    text.extend_from_slice(&title(&table.signature))
}

// Returns an address in hexadecimal.
fn address_text(alloc: Global, address: u64) -> Result<String, AllocError>
    ensures { IfOk result (λ text. string_bytes text ≡ address_text address) }
{
    format!(in alloc; "0x{address:x}")
}

fn push_address(alloc: Global, address: u64, text: &mut Vec<u8>) -> Result<(), AllocError>
    ensures { OnOk result (text.new.items ≡ text.old.items ++ address_text address) }
{
    let digits = address_text(alloc, address)?;
    text.extend_from_slice(digits.as_bytes())
}

// Adds the line of a table: its address, its name and its length.
fn push_branch_line(alloc: Global, branch: &Branch, text: &mut Vec<u8>) -> Result<(), AllocError>
    ensures { OnOk result (text.new.items ≡ text.old.items ++ branch_line branch.now) }
{
    push_spaces(branch.depth, text)?;
    push_address(alloc, branch.table.address, text)?;
    text.extend_from_slice(b" ")?;
    push_title(&branch.table, text)?;
    text.extend_from_slice(b" length ")?;
    push_decimal(u64::from(branch.table.length), text)?;
    text.extend_from_slice(b"\n")
}

fn push_branch_lines(
    alloc: Global,
    branches: &[Branch],
    text: &mut Vec<u8>,
) -> Result<(), AllocError>
    ensures { OnOk result (text.new.items ≡ text.old.items ++ flat_map branch_line branches.now) }
{
    'branches: for branch in branches {
        push_branch_line(alloc, branch, text)?;
    }
    Ok(())
}

/// Returns the tree of the tables of an image: a line for each, with its address, its name and its length. Below a table, two
/// spaces further in, are those to which it points.
pub fn image_tree_of(alloc: Global, tables: &[Located]) -> Result<Vec<u8>, AllocError>
    ensures { IfOk result (λ text. text.items ≡ image_tree tables.now) }
{
    let branches = branches_of(alloc, tables)?;
    let mut text = Vec::new(alloc);
    push_branch_lines(alloc, &branches, &mut text)?;
    Ok(text)
}

// ---- the graph

fn push_branch_name(address: u64, text: &mut Vec<u8>) -> Result<(), AllocError>
    ensures { OnOk result (text.new.items ≡ text.old.items ++ branch_name address) }
{
    text.extend_from_slice(b"  t")?;
    push_decimal(address, text)
}

fn push_branch_label(alloc: Global, table: &Located, text: &mut Vec<u8>) -> Result<(), AllocError>
    ensures { OnOk result (text.new.items ≡ text.old.items ++ branch_label table.now) }
{
    text.extend_from_slice(b" [label=\"")?;
    push_title(table, text)?;
    text.extend_from_slice(b" ")?;
    push_address(alloc, table.address, text)?;
    text.extend_from_slice(b"\"];\n")
}

// Adds the arrow to a table from the one that points to it.
fn push_arrow_from(parent: Option<u64>, address: u64, text: &mut Vec<u8>) -> Result<(), AllocError>
    ensures { OnOk result (text.new.items ≡ text.old.items ++ arrow_from parent address) }
{
    let Some(from) = parent else {
        return Ok(());
    };
    push_branch_name(from, text)?;
    text.extend_from_slice(b" -> t")?;
    push_decimal(address, text)?;
    text.extend_from_slice(b";\n")
}

fn push_branch_dot(alloc: Global, branch: &Branch, text: &mut Vec<u8>) -> Result<(), AllocError>
    ensures { OnOk result (text.new.items ≡ text.old.items ++ branch_dot branch.now) }
{
    push_branch_name(branch.table.address, text)?;
    push_branch_label(alloc, &branch.table, text)?;
    push_arrow_from(branch.parent, branch.table.address, text)
}

fn push_branch_dots(
    alloc: Global,
    branches: &[Branch],
    text: &mut Vec<u8>,
) -> Result<(), AllocError>
    ensures { OnOk result (text.new.items ≡ text.old.items ++ flat_map branch_dot branches.now) }
{
    'branches: for branch in branches {
        push_branch_dot(alloc, branch, text)?;
    }
    Ok(())
}

/// Returns the graph of the tables of an image in the language of graphviz: a node for each, and an arrow from each table to
/// those to which it points.
pub fn image_dot_of(alloc: Global, tables: &[Located]) -> Result<Vec<u8>, AllocError>
    ensures { IfOk result (λ text. text.items ≡ image_dot tables.now) }
{
    let branches = branches_of(alloc, tables)?;
    let mut text = Vec::new(alloc);
    text.extend_from_slice(b"digraph {\n")?;
    push_branch_dots(alloc, &branches, &mut text)?;
    text.extend_from_slice(b"}\n")?;
    Ok(text)
}
