//! Groups of interrupt translation services.

ghost use Rattle.std.specs.Prelude.{◌≡◌};
ghost use Rattle.acpi_base.specs.Bytes.{le};
ghost use Rattle.acpi_base.specs.Fields.{AreRowsOf};
ghost use Rattle.acpi_base.specs.Object.{whole, whole_ends_well};
ghost use Rattle.acpi_core.specs.Entries.{with_entry};
ghost use Rattle.acpi_arm.specs.Iort.{Pushes};
ghost use Rattle.acpi_arm.specs.IortNodes.{its_group, its_group_head_fields, its_group_head, its_group_bytes};
ghost use Rattle.acpi_arm.specs.declared.iort.its.ItsGroup.{ItsGroup};

use acpi_base::error::R;
use acpi_base::object::Aml;
use acpi_base::parts::write_parts;
use acpi_base::row::{Row, record_of_numbers};
use acpi_base::sink::AmlSink;
use acpi_core::entries::Entries;
use std::alloc::Global;

/// A group of interrupt translation services: 20 bytes, and 4 for each service.
#[derive(Drop)]
pub struct ItsGroup {
    pub(crate) identifier: u32,
    services: Entries<4, 16378>,
}

impl ItsGroup {
    /// A group without services. Its identifier is 0 until it is added to a table.
    pub fn new(alloc: Global) -> ItsGroup
        ensures { result ≡ its_group }
    {
        ItsGroup {
            identifier: 0,
            services: Entries::new(alloc),
        }
    }

    /// The number of services (offset 16): at most 16,378.
    pub fn service_count(&self) -> usize
        ensures { result ≡ self.now.services.count }
    {
        self.services.len()
    }

    /// Adds the service with this id, which MADT has in its GIC ITS structure. The error is `FieldWidth` at service number
    /// 16,379. After an error the group is unchanged.
    pub fn add_its(&mut self, its_id: u32) -> R<()>
        ensures { Pushes result self.old (record self.old { services = with_entry self.old.services (le 4 its_id) }) self.new
            self.old.services.count 16378 }
    {
        self.services.push(its_id.to_le_bytes())
    }

    // The bytes of the node before the ids.
    fn head(&self) -> [u8; 20]
        ensures { result ≡ its_group_head self.now }
    {
        record_of_numbers(
            &ITS_GROUP,
            &[
                0,
                20 + self.services.as_slice().len() as u64,
                1,
                u64::from(self.identifier),
                0,
                0,
                self.services.len() as u64,
            ],
        )
    }
}

/// The rows of an ITS group node before its ids.
pub const ITS_GROUP: [Row; 7] = [
    Row::Preset("Type", 1, 0),
    Row::Number("Length", 2),
    Row::Preset("Revision", 1, 1),
    Row::Hex("Identifier", 4),
    Row::Preset("Number of ID Mappings", 4, 0),
    Row::Preset("Reference to ID Array", 4, 0),
    Row::Number("Number of ITSs", 4),
];

/// The rows of the fields before a group's ids, in order.
pub fn its_group_rows() -> &'static [Row]
    ensures { (g : ItsGroup) → AreRowsOf result.now (its_group_head_fields g) }
{
    &ITS_GROUP
}

impl Aml for ItsGroup {
    ghost object = { λ g. whole (its_group_bytes g) };

    ghost ends_well = { λ g. whole_ends_well (its_group_bytes g) };

    fn to_aml_bytes(&self, sink: &mut dyn AmlSink) -> R<()> {
        write_parts(sink, &[&self.head(), self.services.as_slice()])
    }
}
