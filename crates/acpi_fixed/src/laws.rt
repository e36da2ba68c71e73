//! Laws about the definitions that the contracts use. Each function is a law: it does nothing, and its `ensures` states the law.

ghost use Rattle.std.specs.Prelude.{◌≡◌, ◌%◌, [], codes, length, sum};
ghost use Rattle.acpi_base.specs.Table.{IsTrueTable};
ghost use Rattle.acpi_base.specs.Walk.{ArePiecesOf};
ghost use Rattle.acpi_fixed.specs.Fadt.{fadt_bytes};
ghost use Rattle.acpi_fixed.specs.FadtCalls.{FadtsAreValid};
ghost use Rattle.acpi_fixed.specs.EarlierFadt.{EarlierFadtsAreValid};
ghost use Rattle.acpi_fixed.specs.Laws.{PointersSumToZero, FirstPointersSumToZero};
ghost use Rattle.acpi_fixed.specs.Laws.{BertsAreTrue, SpcrsAreTrue, EarlierSpcrsAreTrue};
ghost use Rattle.acpi_fixed.specs.Laws.{ClientsAreTrue, ServersAreTrue, Tpm2sAreTrue};
ghost use Rattle.acpi_fixed.specs.Laws.{HpetsAreTrue, WaetsAreTrue, BgrtsAreTrue, WsmtsAreTrue};

pub use crate::derived::{defaults_are_these, equal_values_are_the_same};
use crate::fadt::FADTBuilder;
use acpi_base::oem::Oem;

/// The first 20 bytes of an RSDP that `Rsdp::new` made sum to zero, and so do all 36.
pub fn pointers_sum_to_zero()
    ensures { PointersSumToZero }
{}

/// All 20 bytes of an RSDP that `Rsdp0::new` made sum to zero.
pub fn first_pointers_sum_to_zero()
    ensures { FirstPointersSumToZero }
{}

/// Every BERT, SPCR, TCPA, TPM2, HPET, WAET, BGRT and WSMT of a maker contains its length and sums to zero, after any setters.
/// These tables have no structures.
pub fn tables_are_true(oem: Oem)
    ensures bert { BertsAreTrue oem }
    ensures spcr { SpcrsAreTrue oem }
    ensures earlier_spcr { EarlierSpcrsAreTrue oem }
    ensures client { ClientsAreTrue oem }
    ensures server { ServersAreTrue oem }
    ensures tpm2 { Tpm2sAreTrue oem }
    ensures hpet { HpetsAreTrue oem }
    ensures waet { WaetsAreTrue oem }
    ensures bgrt { BgrtsAreTrue oem }
    ensures wsmt { WsmtsAreTrue oem }
{}

/// Every FADT has 276 bytes and sums to zero. It contains its length, unless the caller changed the length that
/// `FADTBuilder::new` set. It has no structures, unless the caller changed the signature.
pub fn fadt_is_true(fields: FADTBuilder)
    ensures size { length (fadt_bytes fields) ≡ 276 }
    ensures zero { sum (fadt_bytes fields) % 256 ≡ 0 }
    ensures table { fields.length ≡ 276 → IsTrueTable (fadt_bytes fields) }
    ensures pieces { fields.signature ≡ codes "FACP" → ArePiecesOf (fadt_bytes fields) [] }
{}

/// After any list of calls of its builder a FADT is valid: 276 bytes, which contain their number and sum to zero.
pub fn fadts_are_valid()
    ensures { FadtsAreValid }
{}

/// After any list of calls of its builder the FADT of an earlier release is valid: it has the size of the release, contains it,
/// and sums to zero.
pub fn earlier_fadts_are_valid()
    ensures { EarlierFadtsAreValid }
{}
