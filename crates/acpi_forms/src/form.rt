//! The form of a table, by its signature.

ghost use Rattle.std.specs.Prelude.{◌≡◌};
ghost use Rattle.acpi_base.specs.Walk.{named};
ghost use Rattle.acpi_forms.specs.Named.{find_form, names_of, IsNamed};
ghost use Rattle.acpi_forms.specs.Named.{named_boot, named_security, named_faults, named_arm_faults, named_devices};
ghost use Rattle.acpi_forms.specs.Named.{named_arm_errors, named_memory, named_node, named_arm, named_pc};

use crate::arm::{dbg2_form, gtdt_form, iort_form};
use crate::fixed::{
    bert_form, bgrt_form, dsdt_form, fadt_form, hpet_form, spcr_form, ssdt_form, tcpa_form,
    tpm2_form, unknown_form, waet_form, wsmt_form,
};
pub use crate::fixed::{facs_form, rsdp_form};
use crate::further::aest::aest_form;
use crate::further::{
    ARM_FAULTS_FORMS, BOOT_FORMS, DEVICES_FORMS, FAULTS_FORMS, MEMORY_FORMS, SECURITY_FORMS,
};
use crate::hest::{hest_form, rqsc_form};
use crate::lists::{cedt_form, madt_form, mcfg_form, srat_form, xsdt_form};
use crate::matrices::{hmat_form, slit_form};
use crate::nodes::{pptt_form, rhct_form, rimt_form, viot_form};
use acpi_text::form::TableForm;

// A signature as a number, lowest byte first.
fn number(signature: &[u8; 4]) -> u32
    ensures { result ≡ named signature.now }
{
    u32::from_le_bytes(*signature)
}

// Returns the form in the row of a signature, or another form.
#[tactic(auto, unfolding(crate::specs::Named::find_form))]
fn find_form(signature: u32, rows: &[([u8; 4], TableForm)], other: TableForm) -> TableForm
    ensures { result ≡ find_form signature rows.now other }
{
    for row in rows {
        if signature == number(&row.0) {
            return row.1;
        }
    }
    other
}

// There is a function for each list, since the proof goes through the whole list. The first seven are those of `further`: tables
// that are only read, and those of `acpi_pc`.
fn memory_form(signature: u32) -> TableForm
    ensures { IsNamed result (named_memory signature) }
{
    find_form(signature, &MEMORY_FORMS, unknown_form())
}

fn devices_form(signature: u32) -> TableForm
    ensures { IsNamed result (named_devices signature) }
{
    find_form(signature, &DEVICES_FORMS, memory_form(signature))
}

fn arm_errors_form(signature: u32) -> TableForm
    ensures { IsNamed result (named_arm_errors signature) }
{
    let other = devices_form(signature);
    find_form(signature, &[(*b"AEST", aest_form())], other)
}

fn arm_faults_form(signature: u32) -> TableForm
    ensures { IsNamed result (named_arm_faults signature) }
{
    find_form(signature, &ARM_FAULTS_FORMS, arm_errors_form(signature))
}

fn faults_form(signature: u32) -> TableForm
    ensures { IsNamed result (named_faults signature) }
{
    find_form(signature, &FAULTS_FORMS, arm_faults_form(signature))
}

fn security_form(signature: u32) -> TableForm
    ensures { IsNamed result (named_security signature) }
{
    find_form(signature, &SECURITY_FORMS, faults_form(signature))
}

fn boot_form(signature: u32) -> TableForm
    ensures { IsNamed result (named_boot signature) }
{
    find_form(signature, &BOOT_FORMS, security_form(signature))
}

// Returns the form of a table for the timers, the firmware and the devices of a PC, or that of a table of `further`.
#[rattlefmt::skip]
fn pc_form(signature: u32) -> TableForm
    ensures { IsNamed result (named_pc signature) }
{
    let other = boot_form(signature);
    find_form(signature, &[
        (*b"HPET", hpet_form()),
        (*b"WAET", waet_form()),
        (*b"BGRT", bgrt_form()),
        (*b"WSMT", wsmt_form()),
    ], other)
}

// Returns the form of a table of an Arm machine, or one of those above.
#[rattlefmt::skip]
fn arm_form(signature: u32) -> TableForm
    ensures { IsNamed result (named_arm signature) }
{
    let other = pc_form(signature);
    find_form(signature, &[
        (*b"GTDT", gtdt_form()),
        (*b"DBG2", dbg2_form()),
        (*b"IORT", iort_form()),
    ], other)
}

// Returns the form of a table of errors, of nodes or of matrices, or one of those above.
#[rattlefmt::skip]
fn node_form(signature: u32) -> TableForm
    ensures { IsNamed result (named_node signature) }
{
    let other = arm_form(signature);
    find_form(signature, &[
        (*b"HEST", hest_form()),
        (*b"RQSC", rqsc_form()),
        (*b"PPTT", pptt_form()),
        (*b"RHCT", rhct_form()),
        (*b"VIOT", viot_form()),
        (*b"RIMT", rimt_form()),
        (*b"HMAT", hmat_form()),
        (*b"SLIT", slit_form()),
    ], other)
}

/// Returns the form of the tables of a signature, which is given as a number, lowest byte first. A table of another signature
/// has the form of a table that isn't known: its header. Of a signature with two layouts it is the usual one, as `layout` says.
#[rattlefmt::skip]
pub fn form_of(signature: u32) -> TableForm
    ensures { IsNamed result (names_of signature) }
{
    let other = node_form(signature);
    find_form(signature, &[
        (*b"XSDT", xsdt_form()),
        (*b"FACP", fadt_form()),
        (*b"FACS", facs_form()),
        (*b"DSDT", dsdt_form()),
        (*b"SSDT", ssdt_form()),
        (*b"BERT", bert_form()),
        (*b"SPCR", spcr_form()),
        (*b"TCPA", tcpa_form()),
        (*b"TPM2", tpm2_form()),
        (*b"MCFG", mcfg_form()),
        (*b"APIC", madt_form()),
        (*b"SRAT", srat_form()),
        (*b"CEDT", cedt_form()),
    ], other)
}
