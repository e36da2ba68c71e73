//! Checks of bytes, texts of tables, and tables of texts.

ghost use Rattle.std.specs.Prelude.{◌≡◌};
ghost use Rattle.acpi_base.specs.Number.{number};
ghost use Rattle.acpi_base.specs.Table.{IsTrueTable};
ghost use Rattle.acpi_layout.specs.Addresses.{memory_of};
ghost use Rattle.acpi_asl.specs.declared.block.BlockText.TheVariants as blocks;
ghost use Rattle.acpi_c_calls.specs.Aml.{AreTerms, IsAmlRefusal};
ghost use Rattle.acpi_c_calls.specs.Among.{IsAmong, IsAmongRefusal};
ghost use Rattle.acpi_c_calls.specs.Block.{IsBlock, IsBlockRefusal};
ghost use Rattle.acpi_c_calls.specs.Compile.{IsBlockOf, IsCompileRefusal};
ghost use Rattle.acpi_c_calls.specs.Find.{Finds};
ghost use Rattle.acpi_c_calls.specs.Findings.{AreFindings};
ghost use Rattle.acpi_c_calls.specs.Results.{Checks, Gives, GivesAnywhere};
ghost use Rattle.acpi_c_calls.specs.Image.{HasSomeTables, AreTablesOf, HasNoTables};
ghost use Rattle.acpi_c_calls.specs.Image.{IsImageOfTables, AreImageTables, IsImageRefusal};
ghost use Rattle.acpi_c_calls.specs.Make.{IsTableOf, IsMakeRefusal, IsTemplate, IsTemplateRefusal};
ghost use Rattle.acpi_c_calls.specs.Names.{version, IsName, IsNoName};
ghost use Rattle.acpi_c_calls.specs.Notes.{AreNotes};
ghost use Rattle.acpi_c_calls.specs.Seal.{Seals};
ghost use Rattle.acpi_c_calls.specs.Show.{IsText, IsTextRefusal};
ghost use Rattle.acpi_c_calls.specs.Structures.{AreStructures, IsStructuresRefusal};
ghost use Rattle.acpi_c_calls.specs.Table.{IsTableRefusal};

use acpi_c_calls::aml::check_aml;
use acpi_c_calls::among::{disassemble_among, names_among};
use acpi_c_calls::block::{disassemble, names};
use acpi_c_calls::compile::compile;
use acpi_c_calls::find::find_rsdp;
use acpi_c_calls::findings::findings;
use acpi_c_calls::image::{ImageTable, check_image, check_memory, image_tables, memory_tables};
use acpi_c_calls::make::{make, template};
use acpi_c_calls::names::{fault_name, version};
use acpi_c_calls::notes::{Note, make_notes};
use acpi_c_calls::seal::seal;
use acpi_c_calls::show::show;
use acpi_c_calls::structures::{Structure, table_structures};
use acpi_c_calls::table::check_table;
use acpi_layout::range::Range;
use std::alloc::Global;

/// The version of these functions.
#[unsafe(no_mangle)]
pub extern "C" fn hyssop_export_version() -> u32
    ensures { result ≡ version }
{
    version()
}

/// Writes the words of a number that another function returned.
#[unsafe(no_mangle)]
pub extern "C" fn hyssop_export_fault_name(number: u32, out: &mut [u8], size: &mut usize) -> u32
    ensures { GivesAnywhere (IsName number) (IsNoName number) out.old out.new result size.new }
{
    fault_name(number, out, size)
}

/// Checks a table.
#[unsafe(no_mangle)]
pub extern "C" fn hyssop_export_check_table(bytes: &[u8], place: &mut u64) -> u32
    ensures { Checks (IsTrueTable bytes.now) (IsTableRefusal bytes.now) result place.new }
{
    check_table(bytes, place)
}

/// Sets the length and the checksum of a table.
#[unsafe(no_mangle)]
pub extern "C" fn hyssop_export_seal(bytes: &mut [u8], place: &mut u64) -> u32
    ensures { Seals bytes.old bytes.new result place.new }
{
    seal(bytes, place)
}

/// Writes the structures of a table.
#[unsafe(no_mangle)]
pub extern "C" fn hyssop_export_table_structures(
    alloc: Global,
    bytes: &[u8],
    out: &mut [Structure],
    size: &mut usize,
    place: &mut u64,
) -> u32
    ensures { Gives (AreStructures bytes.now) (IsStructuresRefusal bytes.now) out.old out.new result place.new size.new }
{
    table_structures(alloc, bytes, out, size, place)
}

/// Checks terms of AML.
#[unsafe(no_mangle)]
pub extern "C" fn hyssop_export_check_aml(
    alloc: Global,
    bytes: &[u8],
    arities: &[u8],
    place: &mut u64,
) -> u32
    ensures { Checks (AreTerms arities.now bytes.now) (IsAmlRefusal arities.now bytes.now) result place.new }
{
    check_aml(alloc, bytes, arities, place)
}

/// Writes the ASL of a definition block.
#[unsafe(no_mangle)]
pub extern "C" fn hyssop_export_disassemble(
    alloc: Global,
    bytes: &[u8],
    arities: &[u8],
    out: &mut [u8],
    size: &mut usize,
    place: &mut u64,
) -> u32
    ensures { Gives (IsBlock blocks.Asl arities.now bytes.now) (IsBlockRefusal arities.now bytes.now) out.old out.new result
        place.new size.new }
{
    disassemble(alloc, bytes, arities, out, size, place)
}

/// Writes the objects that a definition block makes.
#[unsafe(no_mangle)]
pub extern "C" fn hyssop_export_names(
    alloc: Global,
    bytes: &[u8],
    arities: &[u8],
    out: &mut [u8],
    size: &mut usize,
    place: &mut u64,
) -> u32
    ensures { Gives (IsBlock blocks.Names arities.now bytes.now) (IsBlockRefusal arities.now bytes.now) out.old out.new result
        place.new size.new }
{
    names(alloc, bytes, arities, out, size, place)
}

/// Writes the ASL of a definition block among further ones.
#[unsafe(no_mangle)]
pub extern "C" fn hyssop_export_disassemble_among(
    alloc: Global,
    bytes: &[u8],
    further: &[u8],
    arities: &[u8],
    out: &mut [u8],
    size: &mut usize,
    unread: &mut usize,
    place: &mut u64,
) -> u32
    ensures { Gives (IsAmong blocks.Asl arities.now further.now bytes.now unread.new)
        (IsAmongRefusal arities.now further.now bytes.now unread.new) out.old out.new result place.new size.new }
{
    disassemble_among(alloc, bytes, further, arities, out, size, unread, place)
}

/// Writes the objects that a definition block makes, among further ones.
#[unsafe(no_mangle)]
pub extern "C" fn hyssop_export_names_among(
    alloc: Global,
    bytes: &[u8],
    further: &[u8],
    arities: &[u8],
    out: &mut [u8],
    size: &mut usize,
    unread: &mut usize,
    place: &mut u64,
) -> u32
    ensures { Gives (IsAmong blocks.Names arities.now further.now bytes.now unread.new)
        (IsAmongRefusal arities.now further.now bytes.now unread.new) out.old out.new result place.new size.new }
{
    names_among(alloc, bytes, further, arities, out, size, unread, place)
}

/// Makes a text of ASL into a definition block.
#[unsafe(no_mangle)]
pub extern "C" fn hyssop_export_compile(
    alloc: Global,
    text: &[u8],
    out: &mut [u8],
    size: &mut usize,
    place: &mut u64,
) -> u32
    ensures { Gives (IsBlockOf text.now) (IsCompileRefusal text.now) out.old out.new result place.new size.new }
{
    compile(alloc, text, out, size, place)
}

/// Checks the tables of an image.
#[unsafe(no_mangle)]
pub extern "C" fn hyssop_export_check_image(
    alloc: Global,
    bytes: &[u8],
    base: u64,
    rsdp: u64,
    place: &mut u64,
) -> u32
    ensures { Checks (IsImageOfTables bytes.now base rsdp) (IsImageRefusal bytes.now base rsdp) result place.new }
{
    check_image(alloc, bytes, base, rsdp, place)
}

/// Writes the tables of an image.
#[unsafe(no_mangle)]
pub extern "C" fn hyssop_export_image_tables(
    alloc: Global,
    bytes: &[u8],
    base: u64,
    rsdp: u64,
    out: &mut [ImageTable],
    size: &mut usize,
    place: &mut u64,
) -> u32
    ensures { Gives (AreImageTables bytes.now base rsdp) (IsImageRefusal bytes.now base rsdp) out.old out.new result place.new
        size.new }
{
    image_tables(alloc, bytes, base, rsdp, out, size, place)
}

/// Checks the tables in memory.
#[unsafe(no_mangle)]
pub extern "C" fn hyssop_export_check_memory(
    alloc: Global,
    ranges: &[Range<'_>],
    rsdp: u64,
    place: &mut u64,
) -> u32
    ensures { Checks (HasSomeTables (memory_of ranges.now) rsdp) (HasNoTables (memory_of ranges.now) rsdp) result place.new }
{
    check_memory(alloc, ranges, rsdp, place)
}

/// Writes the tables in memory.
#[unsafe(no_mangle)]
pub extern "C" fn hyssop_export_memory_tables(
    alloc: Global,
    ranges: &[Range<'_>],
    rsdp: u64,
    out: &mut [ImageTable],
    size: &mut usize,
    place: &mut u64,
) -> u32
    ensures { Gives (AreTablesOf (memory_of ranges.now) rsdp) (HasNoTables (memory_of ranges.now) rsdp) out.old out.new result
        place.new size.new }
{
    memory_tables(alloc, ranges, rsdp, out, size, place)
}

/// Finds the Root System Description Pointer in memory.
#[unsafe(no_mangle)]
pub extern "C" fn hyssop_export_find_rsdp(bytes: &[u8], offset: &mut usize) -> u32
    ensures { Finds bytes.now offset.new result }
{
    find_rsdp(bytes, offset)
}

/// Writes the text of a table.
#[unsafe(no_mangle)]
pub extern "C" fn hyssop_export_show(
    alloc: Global,
    bytes: &[u8],
    out: &mut [u8],
    size: &mut usize,
    place: &mut u64,
) -> u32
    ensures { Gives (IsText bytes.now) (IsTextRefusal bytes.now) out.old out.new result place.new size.new }
{
    show(alloc, bytes, out, size, place)
}

/// Writes the rules of the standard that a table breaks.
#[unsafe(no_mangle)]
pub extern "C" fn hyssop_export_findings(
    alloc: Global,
    bytes: &[u8],
    out: &mut [u8],
    size: &mut usize,
    place: &mut u64,
) -> u32
    ensures { Gives (AreFindings bytes.now) (IsTextRefusal bytes.now) out.old out.new result place.new size.new }
{
    findings(alloc, bytes, out, size, place)
}

/// Makes a text into a table.
#[unsafe(no_mangle)]
pub extern "C" fn hyssop_export_make(
    alloc: Global,
    text: &[u8],
    out: &mut [u8],
    size: &mut usize,
    place: &mut u64,
) -> u32
    ensures { Gives (IsTableOf text.now) (IsMakeRefusal text.now) out.old out.new result place.new size.new }
{
    make(alloc, text, out, size, place)
}

/// Writes the numbers that a text states wrongly.
#[unsafe(no_mangle)]
pub extern "C" fn hyssop_export_make_notes(
    alloc: Global,
    text: &[u8],
    out: &mut [Note],
    size: &mut usize,
    place: &mut u64,
) -> u32
    ensures { Gives (AreNotes text.now) (IsMakeRefusal text.now) out.old out.new result place.new size.new }
{
    make_notes(alloc, text, out, size, place)
}

/// Writes a text to begin a table of a signature with.
#[unsafe(no_mangle)]
pub extern "C" fn hyssop_export_template(
    alloc: Global,
    signature: &[u8],
    out: &mut [u8],
    size: &mut usize,
) -> u32
    ensures { GivesAnywhere (IsTemplate signature.now) (IsTemplateRefusal signature.now) out.old out.new result size.new }
{
    template(alloc, signature, out, size)
}
