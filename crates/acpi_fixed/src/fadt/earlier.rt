//! FADTs of earlier releases, which end before the last fields of that of ACPI 6.0.

ghost use Rattle.std.specs.Prelude.{◌≡◌, ◌≤◌, ◌-◌, OnOk, IfErr};
ghost use Rattle.acpi_base.specs.Object.{whole, whole_ends_well, Wrote, WriteRefused};
ghost use Rattle.acpi_fixed.specs.EarlierFadt.{release_size, release_revision, release_minor, earlier_fadt, first_bytes};
ghost use Rattle.acpi_fixed.specs.EarlierFadt.{earlier_fadt_bytes};
ghost use Rattle.acpi_fixed.specs.declared.fadt.FADTBuilder.{FADTBuilder};

use crate::fadt::FADTBuilder;
use crate::sealed::sealed_table;
use acpi_base::error::R;
use acpi_base::object::Aml;
use acpi_base::patch::write_at;
use acpi_base::row::Record;
use acpi_base::sink::AmlSink;

/// A release of ACPI whose FADT is shorter than 276 bytes.
#[derive(Clone, Copy, Debug, PartialEq)]
pub enum FadtRelease {
    /// Revision 1, 116 bytes: up to the flags.
    Acpi1_0,
    /// Revision 3, 244 bytes: up to X_GPE1_BLK.
    Acpi2_0,
    /// Revision 4, 244 bytes. It is that of ACPI 4.0, too.
    Acpi3_0,
    /// Revision 5.0, 268 bytes: up to SLEEP_STATUS_REG.
    Acpi5_0,
    /// Revision 5.1, 268 bytes.
    Acpi5_1,
}

impl FadtRelease {
    /// The size of the release's FADT in bytes.
    pub fn size(self) -> u32
        ensures { result ≡ release_size self }
    {
        match self {
            FadtRelease::Acpi1_0 => 116,
            FadtRelease::Acpi2_0 | FadtRelease::Acpi3_0 => 244,
            FadtRelease::Acpi5_0 | FadtRelease::Acpi5_1 => 268,
        }
    }

    // The revision of the release's FADT.
    fn major_version(self) -> u8
        ensures { result ≡ release_revision self }
    {
        match self {
            FadtRelease::Acpi1_0 => 1,
            FadtRelease::Acpi2_0 => 3,
            FadtRelease::Acpi3_0 => 4,
            FadtRelease::Acpi5_0 | FadtRelease::Acpi5_1 => 5,
        }
    }

    // The minor version, which is reserved before ACPI 5.1.
    fn minor_version(self) -> u8
        ensures { result ≡ release_minor self }
    {
        match self {
            FadtRelease::Acpi5_1 => 1,
            _ => 0,
        }
    }
}

/// The Fixed ACPI Description Table of an earlier release, which `FADTBuilder::finalize_earlier` makes: 116, 244 or 268 bytes.
#[derive(Drop)]
pub struct EarlierFADT {
    release: FadtRelease,
    int_model: u8,
    table: FADTBuilder,
}

impl EarlierFADT {
    /// Sets INT_MODEL (ACPI 1.0, 5.2.5, offset 44) to 1: the machine has more than one APIC. It is 0, two 8259 controllers,
    /// before. From ACPI 2.0 on the field is reserved, and 1 is allowed.
    pub fn multiple_apic(mut self) -> EarlierFADT
        ensures { result ≡ record self { int_model = 1 } }
    {
        self.int_model = 1;
        self
    }
}

impl Aml for EarlierFADT {
    ghost object = { λ t. whole (earlier_fadt_bytes t) };

    ghost ends_well = { λ t. whole_ends_well (earlier_fadt_bytes t) };

    fn to_aml_bytes(&self, sink: &mut dyn AmlSink) -> R<()> {
        match self.release {
            FadtRelease::Acpi1_0 => self.table.write_first::<116>(self.int_model, sink),
            FadtRelease::Acpi2_0 => self.table.write_first::<244>(self.int_model, sink),
            FadtRelease::Acpi3_0 => self.table.write_first::<244>(self.int_model, sink),
            FadtRelease::Acpi5_0 => self.table.write_first::<268>(self.int_model, sink),
            FadtRelease::Acpi5_1 => self.table.write_first::<268>(self.int_model, sink),
        }
    }
}

impl FADTBuilder {
    /// The table of these fields in the form of an earlier release. Its length, its revision (offset 8) and its minor version
    /// (offset 131) are those of the release, and it ends before the fields that the release doesn't have. All other fields keep
    /// their values. Its checksum is computed when it is written.
    pub fn finalize_earlier(mut self, release: FadtRelease) -> EarlierFADT
        ensures { result ≡ earlier_fadt release self }
    {
        self.length = release.size();
        self.major_version = release.major_version();
        self.fadt_minor_version = release.minor_version();
        EarlierFADT {
            release,
            int_model: 0,
            table: self,
        }
    }

    // Writes a table of the first N bytes of these fields, with this INT_MODEL.
    fn write_first<const N: usize>(&self, int_model: u8, sink: &mut dyn AmlSink) -> R<()>
        requires header { 36 ≤ N }
        requires size { N ≤ 276 }
        ensures ok { OnOk result
            (Wrote (whole (first_bytes N int_model self.now)) (meaning sink.old) (meaning sink.new)) }
        ensures err { IfErr result (λ e.
            WriteRefused e (whole (first_bytes N int_model self.now)) (meaning sink.old) (meaning sink.new)) }
    {
        let mut body: [u8; 240] = self.bytes();
        write_at(&mut body, 8, &[int_model]);
        let table = sealed_table::<N>(self.header(), &body[..N - 36]);
        sink.vec(&table)
    }
}
