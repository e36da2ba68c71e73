//! Laws about the definitions that the contracts use. Each function is a law: it does nothing, and its `ensures` states the law.

ghost use Rattle.acpi_build.specs.Laws.{ObjectsAreRows, PackagesAreRows, NamedPackagesAreRows, ResourcesAreTemplates};
ghost use Rattle.acpi_build.specs.Laws.{RoomyPackagesAreRows, NamedRoomyPackagesAreRows, BlocksAreObjects};

/// A scope, a device, a method, a power resource, an `If`, an `Else` or a `While` that is begun, filled and ended is the object
/// of the constructor with the same children.
pub fn objects_are_rows()
    ensures { ObjectsAreRows }
{}

/// A package that is begun, filled and ended is the package of its elements.
pub fn packages_are_rows()
    ensures { PackagesAreRows }
{}

/// A package with a name is the name of this package.
pub fn named_packages_are_rows()
    ensures { NamedPackagesAreRows }
{}

/// A package with room that is begun, filled and ended is the package of its elements with this room.
pub fn roomy_packages_are_rows()
    ensures { RoomyPackagesAreRows }
{}

/// A package with room and a name is the name of this package.
pub fn named_roomy_packages_are_rows()
    ensures { NamedRoomyPackagesAreRows }
{}

/// Resource descriptors with a name are the name of their template.
pub fn resources_are_templates()
    ensures { ResourcesAreTemplates }
{}

/// A block is the bytes of its objects, in order, or the first error.
pub fn blocks_are_objects()
    ensures { BlocksAreObjects }
{}
