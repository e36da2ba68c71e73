//! Objects with a name and children, from texts and from children that are borrowed.

use acpi_tables::aml::{Device, Method, Name, Path, ResourceTemplate, Scope};
use acpi_tables::{Aml, R};
use std::alloc::Global;

pub(crate) fn named(alloc: Global, name: &str, value: &dyn Aml) -> R<Name> {
    Name::new(Path::new(alloc, name)?, value)
}

// A method by its name, the number of its arguments and whether it is serialized.
pub(crate) fn method(
    alloc: Global,
    (name, args, serialized): (&str, u8, bool),
    body: &[&dyn Aml],
) -> R<Method> {
    let body = Vec::from_slice(alloc, body)?;
    Method::new(Path::new(alloc, name)?, args, serialized, body)
}

pub(crate) fn device(alloc: Global, name: &str, inside: &[&dyn Aml]) -> R<Device> {
    let inside = Vec::from_slice(alloc, inside)?;
    Device::new(Path::new(alloc, name)?, inside)
}

pub(crate) fn scope(alloc: Global, name: &str, inside: &[&dyn Aml]) -> R<Scope> {
    let inside = Vec::from_slice(alloc, inside)?;
    Scope::new(Path::new(alloc, name)?, inside)
}

pub(crate) fn template(alloc: Global, descriptors: &[&dyn Aml]) -> R<ResourceTemplate> {
    ResourceTemplate::new(Vec::from_slice(alloc, descriptors)?)
}
