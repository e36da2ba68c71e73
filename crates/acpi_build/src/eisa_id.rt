//! EISA ids as texts.

ghost use Rattle.acpi_build.specs.EisaId.{eisa_id, eisa_id_ends_well};

use acpi_aml::eisa::EISAName;
use acpi_base::error::R;
use acpi_base::object::Aml;
use acpi_base::sink::AmlSink;

/// The EISA id of a text: three letters from `A` to `Z` and four hexadecimal digits (ACPI 6.5, 19.3.4). Writing it returns
/// `EisaText` for any other text.
#[derive(Clone, Copy, Debug)]
pub struct EisaId<'a>(pub &'a str);

impl Aml for EisaId<'_> {
    ghost object = { λ id. eisa_id id.0.now };

    ghost ends_well = { λ id. eisa_id_ends_well id.0.now };

    fn to_aml_bytes(&self, sink: &mut dyn AmlSink) -> R<()> {
        EISAName::new(self.0)?.to_aml_bytes(sink)
    }
}
