//! The forms of tables and records of fixed size.

ghost use Rattle.acpi_forms.specs.Named.{IsNamed, rsdp_names, facs_names, bert_names, fadt_names};
ghost use Rattle.acpi_forms.specs.Named.{spcr_names, tcpa_names, tpm2_names, dsdt_names, ssdt_names, unknown};
ghost use Rattle.acpi_forms.specs.Named.{hpet_names, waet_names, bgrt_names, wsmt_names};

use acpi_base::header::HEADER;
use acpi_base::walk::Place;
use acpi_fixed::bert::BERT_ROWS;
use acpi_fixed::bgrt::BGRT_ROWS;
use acpi_fixed::facs::FACS_ROWS;
use acpi_fixed::fadt::FADT_ROWS;
use acpi_fixed::hpet::HPET_ROWS;
use acpi_fixed::rsdp::RSDP_ROWS;
use acpi_fixed::spcr::SPCR_ROWS;
use acpi_fixed::tpm2::{TCPA_CLIENT, TCPA_SERVER, TPM2_FIXED};
use acpi_fixed::waet::WAET_ROWS;
use acpi_fixed::wsmt::WSMT_ROWS;
use acpi_text::form::{Choice, Inner, Part, TableForm};

const RSDP: TableForm = TableForm {
    name: "Root System Description Pointer (RSDP)",
    parts: &[Part::Fields(&RSDP_ROWS)],
    structures: &[],
    further: &[],
    inner: &Inner::Nothing,
};

/// Returns the form of the Root System Description Pointer, which has no standard header (ACPI 6.5, 5.2.5.3).
pub fn rsdp_form() -> TableForm
    ensures { IsNamed result rsdp_names }
{
    RSDP
}

const FACS: TableForm = TableForm {
    name: "Firmware ACPI Control Structure (FACS)",
    parts: &[Part::Fields(&FACS_ROWS)],
    structures: &[],
    further: &[],
    inner: &Inner::Nothing,
};

/// Returns the form of the Firmware ACPI Control Structure, which has no standard header (ACPI 6.5, 5.2.10).
pub fn facs_form() -> TableForm
    ensures { IsNamed result facs_names }
{
    FACS
}

const BERT: TableForm = TableForm {
    name: "Boot Error Record Table (BERT)",
    parts: &[Part::Fields(&HEADER), Part::Fields(&BERT_ROWS)],
    structures: &[],
    further: &[],
    inner: &Inner::Nothing,
};

/// Returns the form of the Boot Error Record Table (ACPI 6.5, 18.3.1).
pub fn bert_form() -> TableForm
    ensures { IsNamed result bert_names }
{
    BERT
}

const FADT: TableForm = TableForm {
    name: "Fixed ACPI Description Table (FADT)",
    parts: &[Part::Fields(&HEADER), Part::Fields(&FADT_ROWS)],
    structures: &[],
    further: &[],
    inner: &Inner::Nothing,
};

/// Returns the form of the Fixed ACPI Description Table (ACPI 6.5, 5.2.9).
pub fn fadt_form() -> TableForm
    ensures { IsNamed result fadt_names }
{
    FADT
}

const SPCR: TableForm = TableForm {
    name: "Serial Port Console Redirection Table (SPCR)",
    parts: &[
        Part::Fields(&HEADER),
        Part::Between(&SPCR_ROWS, 0, 23),
        Part::Until("Bytes", Place::Word(86)),
        Part::Bytes("NamespaceString", Place::Word(84)),
    ],
    structures: &[],
    further: &[],
    inner: &Inner::Nothing,
};

/// Returns the form of the Serial Port Console Redirection Table (Microsoft, revision 4).
pub fn spcr_form() -> TableForm
    ensures { IsNamed result spcr_names }
{
    SPCR
}

// A TCPA by its platform class (offset 36).
const PLATFORM_CLASSES: [Choice; 2] = [
    Choice {
        number: 0,
        name: "Client",
        rows: &TCPA_CLIENT,
    },
    Choice {
        number: 1,
        name: "Server",
        rows: &TCPA_SERVER,
    },
];

const TCPA: TableForm = TableForm {
    name: "Trusted Computing Platform Alliance Capabilities Table (TCPA)",
    parts: &[
        Part::Fields(&HEADER),
        Part::Chosen(Place::Word(36), &PLATFORM_CLASSES),
    ],
    structures: &[],
    further: &[],
    inner: &Inner::Nothing,
};

/// Returns the form of the Trusted Computing Platform Alliance Capabilities Table, of a client or a server (TCG ACPI
/// Specification 1.4, 7).
pub fn tcpa_form() -> TableForm
    ensures { IsNamed result tcpa_names }
{
    TCPA
}

const TPM2: TableForm = TableForm {
    name: "Trusted Platform Module 2 Table (TPM2)",
    parts: &[Part::Fields(&HEADER), Part::Fields(&TPM2_FIXED)],
    structures: &[],
    further: &[],
    inner: &Inner::Nothing,
};

/// Returns the form of the Trusted Platform Module 2 Table (TCG ACPI Specification 1.4, 8).
pub fn tpm2_form() -> TableForm
    ensures { IsNamed result tpm2_names }
{
    TPM2
}

const HPET: TableForm = TableForm {
    name: "IA-PC High Precision Event Timer Table (HPET)",
    parts: &[Part::Fields(&HEADER), Part::Fields(&HPET_ROWS)],
    structures: &[],
    further: &[],
    inner: &Inner::Nothing,
};

/// Returns the form of the IA-PC High Precision Event Timer Table (IA-PC HPET Specification 1.0a, 3.2.4).
pub fn hpet_form() -> TableForm
    ensures { IsNamed result hpet_names }
{
    HPET
}

const WAET: TableForm = TableForm {
    name: "Windows ACPI Emulated Devices Table (WAET)",
    parts: &[Part::Fields(&HEADER), Part::Fields(&WAET_ROWS)],
    structures: &[],
    further: &[],
    inner: &Inner::Nothing,
};

/// Returns the form of the Windows ACPI Emulated Devices Table (Microsoft, WAET 1.2).
pub fn waet_form() -> TableForm
    ensures { IsNamed result waet_names }
{
    WAET
}

const BGRT: TableForm = TableForm {
    name: "Boot Graphics Resource Table (BGRT)",
    parts: &[Part::Fields(&HEADER), Part::Fields(&BGRT_ROWS)],
    structures: &[],
    further: &[],
    inner: &Inner::Nothing,
};

/// Returns the form of the Boot Graphics Resource Table (ACPI 6.5, 5.2.23).
pub fn bgrt_form() -> TableForm
    ensures { IsNamed result bgrt_names }
{
    BGRT
}

const WSMT: TableForm = TableForm {
    name: "Windows SMM Security Mitigations Table (WSMT)",
    parts: &[Part::Fields(&HEADER), Part::Fields(&WSMT_ROWS)],
    structures: &[],
    further: &[],
    inner: &Inner::Nothing,
};

/// Returns the form of the Windows SMM Security Mitigations Table (Microsoft, WSMT 1.0).
pub fn wsmt_form() -> TableForm
    ensures { IsNamed result wsmt_names }
{
    WSMT
}

const DSDT: TableForm = TableForm {
    name: "Differentiated System Description Table (DSDT)",
    parts: &[Part::Fields(&HEADER)],
    structures: &[],
    further: &[],
    inner: &Inner::Nothing,
};

/// Returns the form of the Differentiated System Description Table, whose AML follows its header (ACPI 6.5, 5.2.11.1).
pub fn dsdt_form() -> TableForm
    ensures { IsNamed result dsdt_names }
{
    DSDT
}

const SSDT: TableForm = TableForm {
    name: "Secondary System Description Table (SSDT)",
    parts: &[Part::Fields(&HEADER)],
    structures: &[],
    further: &[],
    inner: &Inner::Nothing,
};

/// Returns the form of a Secondary System Description Table, whose AML follows its header (ACPI 6.5, 5.2.11.2).
pub fn ssdt_form() -> TableForm
    ensures { IsNamed result ssdt_names }
{
    SSDT
}

/// The form of a table of another signature: its header.
pub const UNKNOWN: TableForm = TableForm {
    name: "Unknown table",
    parts: &[Part::Fields(&HEADER)],
    structures: &[],
    further: &[],
    inner: &Inner::Nothing,
};

/// Returns that form.
pub fn unknown_form() -> TableForm
    ensures { IsNamed result unknown }
{
    UNKNOWN
}
