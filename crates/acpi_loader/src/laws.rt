//! Laws of loaders. Each function is a law: it does nothing, and its `ensures` states the law.

ghost use Rattle.acpi_loader.specs.Laws.{CommandsHaveTheirSize, LoadersLay};

/// Each command has 128 bytes.
pub fn commands_have_their_size()
    ensures { CommandsHaveTheirSize }
{}

/// Firmware may put both files at any addresses. When it has done the commands of a loader, the tables and the RSDP are those
/// that `lay_files` of `acpi_layout` lays for the address of the tables.
pub fn loaders_lay()
    ensures { LoadersLay }
{}
