//! The S3 Performance Table.

ghost use Rattle.std.specs.Prelude.{◌≡◌};
ghost use Rattle.acpi_forms.specs.FurtherNames.{s3pt_names};
ghost use Rattle.acpi_forms.specs.Name.{IsNamed};
ghost use Rattle.acpi_forms.specs.Walks.{s3pt_walk};

use acpi_base::row::Row;
use acpi_base::walk::{Place, Sizes, Walk};
use acpi_text::form::{Inner, Part, StructureForm, TableForm};

const S3PT_HEADER: [Row; 2] = [Row::Text("Signature", 4), Row::Number("Length", 4)];

const RESUME: [Row; 6] = [
    Row::Preset("Performance Record Type", 2, 0),
    Row::Preset("Record Length", 1, 24),
    Row::Preset("Revision", 1, 1),
    Row::Number("Resume Count", 4),
    Row::Number("FullResume", 8),
    Row::Number("AverageResume", 8),
];

const SUSPEND: [Row; 5] = [
    Row::Preset("Performance Record Type", 2, 1),
    Row::Preset("Record Length", 1, 20),
    Row::Preset("Revision", 1, 1),
    Row::Number("SuspendStart", 8),
    Row::Number("SuspendEnd", 8),
];

const S3PT_RECORDS: [StructureForm; 2] = [
    StructureForm {
        number: 0,
        name: "S3 Resume Performance Record",
        parts: &[Part::Fields(&RESUME)],
        inner: &Inner::Nothing,
    },
    StructureForm {
        number: 1,
        name: "S3 Suspend Performance Record",
        parts: &[Part::Fields(&SUSPEND)],
        inner: &Inner::Nothing,
    },
];

const S3PT: TableForm = TableForm {
    name: "S3 Performance Table (S3PT)",
    parts: &[Part::Fields(&S3PT_HEADER)],
    structures: &S3PT_RECORDS,
    further: &[],
    inner: &Inner::Nothing,
};

/// Returns the form of the S3 Performance Table, to which a record of the FPDT points (ACPI 6.5, 5.2.24). It has a signature and
/// a length, and neither a revision nor a checksum. Its times are in nanoseconds.
pub fn s3pt_form() -> TableForm
    ensures { IsNamed result s3pt_names }
{
    S3PT
}

/// Returns how its records are found.
pub fn s3pt_walk() -> Walk
    ensures { result ≡ s3pt_walk }
{
    Walk {
        start: 8,
        sizes: Sizes::ToldAt(Place::Byte(2)),
        kind: Place::Word(0),
        count: Place::Nowhere,
        first: Place::Nowhere,
    }
}
