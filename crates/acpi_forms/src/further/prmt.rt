//! The Platform Runtime Mechanism Table.

use acpi_base::header::HEADER;
use acpi_base::row::Row;
use acpi_base::walk::{Place, Sizes};
use acpi_text::form::{
    Count, Inner, InnerForm, InnerList, InnerSize, Part, Start, StructureForm, TableForm,
};

const PRMT_FIXED: [Row; 3] = [
    Row::Uuid("PRM Platform GUID"),
    Row::Preset("PRM Module Info Offset", 4, 60),
    Row::Number("PRM Module Info Structure Count", 4),
];

const MODULE: [Row; 8] = [
    Row::Preset("Structure Revision", 2, 0),
    Row::Number("Structure Length", 2),
    Row::Uuid("PRM Module GUID"),
    Row::Number("Major Revision", 2),
    Row::Number("Minor Revision", 2),
    Row::Number("PRM Handler Count", 2),
    Row::Preset("PRM Handler Info Offset", 4, 38),
    Row::Hex("Module Runtime MMIO Ranges Pointer", 8),
];

const HANDLER: [Row; 6] = [
    Row::Preset("Structure Revision", 2, 0),
    Row::Preset("Structure Length", 2, 44),
    Row::Uuid("PRM Handler GUID"),
    Row::Hex("PRM Handler Physical Address", 8),
    Row::Hex("Static Data Buffer Physical Address", 8),
    Row::Hex("ACPI Parameter Buffer Physical Address", 8),
];

const HANDLER_PARTS: [Part; 1] = [Part::Fields(&HANDLER)];

const HANDLERS: Inner = Inner::Lists(
    Start::At(38),
    &[InnerList {
        count: Count::Rest,
        kind: Place::Nowhere,
        forms: &[InnerForm {
            number: 0,
            name: "PRM Handler Information Structure",
            size: InnerSize::Walked(Sizes::ToldAt(Place::Word(2))),
            parts: &HANDLER_PARTS,
        }],
    }],
);

/// The Platform Runtime Mechanism Table (UEFI Forum, Platform Runtime Mechanism Specification 1.0). The handlers of a module
/// stand right after its fields.
pub const PRMT: TableForm = TableForm {
    name: "Platform Runtime Mechanism Table (PRMT)",
    parts: &[Part::Fields(&HEADER), Part::Fields(&PRMT_FIXED)],
    structures: &[StructureForm {
        number: 0,
        name: "PRM Module Information Structure",
        parts: &[Part::Fields(&MODULE)],
        inner: &HANDLERS,
    }],
    further: &[],
    inner: &Inner::Nothing,
};
