//! The form and the walk of a table by its bytes, and by its text. Three signatures have two layouts.

ghost use Rattle.std.specs.Prelude.{◌≡◌};
ghost use Rattle.acpi_forms.specs.Layout.{is_specified_iommu, is_specified_root_complex, is_specified_platform};
ghost use Rattle.acpi_forms.specs.Layout.{is_specified_node};
ghost use Rattle.acpi_forms.specs.Layout.{is_earlier_gtdt, WrittenAreUsual};
ghost use Rattle.acpi_forms.specs.Layout.{layout_in, layout_of_text, names_as, names_in, walk_as, walk_in};
ghost use Rattle.acpi_forms.specs.Layout.{layout_made, another_layout, line_words, other_layout, heading_fault};
ghost use Rattle.acpi_forms.specs.Named.{IsNamed};
ghost use Rattle.acpi_forms.specs.Walks.{earlier_gtdt_walk};
ghost use Rattle.acpi_make.specs.Draft.{fault_in};

use crate::arm::earlier_gtdt_form;
use crate::form::form_of;
use crate::further::pmtt::earlier_pmtt_form;
use crate::further::rimt::specified_rimt_form;
use acpi_base::further_walk::table_walk_of;
use acpi_base::slice::from_offset;
use acpi_base::walk::{Place, Sizes, Walk};
use acpi_make::fault::Fault;
use acpi_make::item::Item;
use acpi_make::signature::{has_line, heading_at};
use acpi_text::form::TableForm;
use acpi_text::part::number_at;

/// Which layout a table has.
#[derive(Clone, Copy, Debug, PartialEq, Eq)]
pub enum Layout {
    /// The one layout of its signature, or, of a RIMT, this project's profile, and of a PMTT or a GTDT that of later revisions.
    Usual,
    /// That of a RIMT of the RISC-V specification.
    SpecifiedRimt,
    /// That of a PMTT of revision 1.
    EarlierPmtt,
    /// That of a GTDT of revision 2, whose timers may begin at 96. One of revision 1 (ACPI 5.0) has this form, too: it ends at
    /// 80.
    EarlierGtdt,
}

// Returns whether an IOMMU has the layout of the specification, in which its wires begin at 40. In the profile they begin at 32,
// and the field that says so is at 30.
fn is_specified_iommu(node: &[u8]) -> bool
    ensures { result ≡ is_specified_iommu node.now }
{
    number_at(Place::Word(30), node) != 32
        && number_at(Place::Word(2), node) >= 40
        && number_at(Place::Word(38), node) == 40
}

// Returns whether a root complex has it: its mappings begin at 20. In the profile they begin at 16, and the field that says so
// is at 12.
fn is_specified_root_complex(node: &[u8]) -> bool
    ensures { result ≡ is_specified_root_complex node.now }
{
    number_at(Place::Word(12), node) != 16
        && number_at(Place::Word(2), node) >= 20
        && number_at(Place::Word(16), node) == 20
}

// Returns whether a platform device has it: its ID is at 6. In the profile it is at 4, and the bytes at 6 are reserved.
fn is_specified_platform(node: &[u8]) -> bool
    ensures { result ≡ is_specified_platform node.now }
{
    number_at(Place::Word(6), node) != 0
        && number_at(Place::Word(2), node) >= 12
        && number_at(Place::Word(4), node) == 0
}

// Returns whether a node has it.
fn is_specified_node(node: &[u8]) -> bool
    ensures { result ≡ is_specified_node node.now }
{
    match number_at(Place::Byte(0), node) {
        0 => is_specified_iommu(node),
        1 => is_specified_root_complex(node),
        2 => is_specified_platform(node),
        _ => false,
    }
}

// Returns whether a GTDT of a revision has the earlier layout. A template has the revision 0.
fn is_earlier_gtdt(revision: usize) -> bool
    ensures { result ≡ is_earlier_gtdt revision }
{
    revision == 1 || revision == 2
}

/// Returns the layout of a table of a signature. The first node of a RIMT, whose offset is at 40, says which layout the table
/// has. Where it doesn't, the table has that of the profile.
pub(crate) fn layout_in(signature: u32, bytes: &[u8]) -> Layout
    ensures { result ≡ layout_in signature bytes.now }
{
    if signature == u32::from_le_bytes(*b"RIMT")
        && is_specified_node(from_offset(number_at(Place::DWord(40), bytes), bytes))
    {
        Layout::SpecifiedRimt
    } else if signature == u32::from_le_bytes(*b"PMTT") && number_at(Place::Byte(8), bytes) == 1 {
        Layout::EarlierPmtt
    } else if signature == u32::from_le_bytes(*b"GTDT")
        && is_earlier_gtdt(number_at(Place::Byte(8), bytes))
    {
        Layout::EarlierGtdt
    } else {
        Layout::Usual
    }
}

/// Returns the layout of the table of a text, by a field of the table itself that only one of the two layouts has.
pub(crate) fn layout_of_text(signature: u32, text: &[u8], items: &[Item]) -> Layout
    ensures { result ≡ layout_of_text signature text.now items.now }
{
    if signature == u32::from_le_bytes(*b"RIMT")
        && has_line(b"Offset to RIMT Node Array", text, items)
    {
        Layout::SpecifiedRimt
    } else if signature == u32::from_le_bytes(*b"PMTT")
        && !has_line(b"Number of Memory Devices", text, items)
    {
        Layout::EarlierPmtt
    } else if signature == u32::from_le_bytes(*b"GTDT")
        && !has_line(b"Virtual EL2 Timer GSIV", text, items)
    {
        Layout::EarlierGtdt
    } else {
        Layout::Usual
    }
}

/// Returns the form of the tables of a signature that have a layout.
pub(crate) fn form_as(layout: Layout, signature: u32) -> TableForm
    ensures { IsNamed result (names_as layout signature) }
{
    match layout {
        Layout::Usual => form_of(signature),
        Layout::SpecifiedRimt => specified_rimt_form(),
        Layout::EarlierPmtt => earlier_pmtt_form(),
        Layout::EarlierGtdt => earlier_gtdt_form(),
    }
}

// Returns how the timers of a GTDT before revision 3 are found.
fn earlier_gtdt_walk() -> Walk
    ensures { result ≡ earlier_gtdt_walk }
{
    Walk {
        start: 96,
        sizes: Sizes::ToldAt(Place::Word(1)),
        kind: Place::Byte(0),
        count: Place::DWord(88),
        first: Place::DWord(92),
    }
}

/// Returns the walk of the tables of a signature that have a layout.
pub(crate) fn walk_as(layout: Layout, signature: u32) -> Option<Walk>
    ensures { result ≡ walk_as layout signature }
{
    match layout {
        Layout::Usual | Layout::SpecifiedRimt | Layout::EarlierPmtt => table_walk_of(signature),
        Layout::EarlierGtdt => Some(earlier_gtdt_walk()),
    }
}

/// A law: what library calls write is never taken for a table of the specification. This holds of each node that can be the first
/// one, for all values of its fields, and whatever bytes follow it.
pub fn written_nodes_are_usual()
    ensures { WrittenAreUsual }
{}

/// Returns the form of a table of a signature, by its bytes. A RIMT has the layout of the RISC-V specification if the fields of
/// its first node say so for certain, and that of this project's profile otherwise. A PMTT of revision 1 (the byte at 8) has
/// another layout than those of later revisions, and so has a GTDT of revision 1 or 2. All other tables have the form of their
/// signature.
#[tactic(auto, unfolding(crate::specs::Layout::names_in))]
pub fn form_in(signature: u32, bytes: &[u8]) -> TableForm
    ensures { IsNamed result (names_in signature bytes.now) }
{
    form_as(layout_in(signature, bytes), signature)
}

/// Returns the walk of a table of a signature, by its bytes. The timers of a GTDT begin at 96 or later if its revision (the byte
/// at 8) is 1 or 2, and at 104 or later otherwise. All other tables have the walk of their signature.
#[tactic(auto, unfolding(crate::specs::Layout::walk_in))]
pub fn walk_in(signature: u32, bytes: &[u8]) -> Option<Walk>
    ensures { result ≡ walk_in signature bytes.now }
{
    walk_as(layout_in(signature, bytes), signature)
}

/// Returns the layout of a table that was made of a text, by that of the text and that of the bytes. A RIMT of the specification
/// has that of its text, since not each first node says it.
pub(crate) fn layout_made(stated: Layout, found: Layout) -> Layout
    ensures { result ≡ layout_made stated found }
{
    match stated {
        Layout::SpecifiedRimt => Layout::SpecifiedRimt,
        Layout::Usual | Layout::EarlierPmtt | Layout::EarlierGtdt => found,
    }
}

/// Returns this layout, if it isn't that of the text.
pub(crate) fn another_layout(stated: Layout, found: Layout) -> Option<Layout>
    ensures { result ≡ another_layout stated found }
{
    match (stated, found) {
        (Layout::SpecifiedRimt, _) => None,
        (Layout::Usual, Layout::Usual) => None,
        (Layout::EarlierPmtt, Layout::EarlierPmtt) => None,
        (Layout::EarlierGtdt, Layout::EarlierGtdt) => None,
        (_, found) => Some(found),
    }
}

/// Returns what has to stand in place of a line that a layout of a signature doesn't have.
pub(crate) fn line_words(layout: Layout, signature: u32) -> &'static str
    ensures { result.now ≡ line_words layout signature }
{
    match layout {
        Layout::Usual if signature == u32::from_le_bytes(*b"GTDT") => {
            "a line of a GTDT of revision 3 or later"
        }
        Layout::Usual => "a line of a PMTT whose revision isn't 1",
        Layout::SpecifiedRimt => {
            "a line of a RIMT whose first node is one of the RISC-V specification"
        }
        Layout::EarlierPmtt => "a line of a PMTT of revision 1",
        Layout::EarlierGtdt => "a line of a GTDT before revision 3",
    }
}

// Returns the other layout of a signature that has two with two names.
fn other_layout(signature: u32, layout: Layout) -> Option<Layout>
    ensures { result ≡ other_layout signature layout }
{
    match layout {
        Layout::Usual if signature == u32::from_le_bytes(*b"RIMT") => Some(Layout::SpecifiedRimt),
        Layout::Usual if signature == u32::from_le_bytes(*b"PMTT") => Some(Layout::EarlierPmtt),
        Layout::Usual => None,
        Layout::SpecifiedRimt | Layout::EarlierPmtt => Some(Layout::Usual),
        Layout::EarlierGtdt => None,
    }
}

/// Returns the fault of a heading that is the name of the other layout.
#[tactic(auto, unfolding(crate::specs::Layout::heading_fault))]
pub(crate) fn heading_fault(
    layout: Layout,
    signature: u32,
    text: &[u8],
    items: &[Item],
) -> Option<Fault>
    ensures { fault_in result ≡ heading_fault layout signature text.now items.now }
{
    let other = form_as(other_layout(signature, layout)?, signature);
    let (from, to) = heading_at(other.name.as_bytes(), text, items)?;
    Some(Fault::next(from, to, form_as(layout, signature).name, 0))
}
