//! Reading: checked tables and their structures, terms of AML, and reports of both.

pub use acpi_read::pieces::Piece;
pub use acpi_read::report::{report_header, report_table, report_terms};
pub use acpi_read::table::Table;
pub use acpi_read::terms::in_part::terms_in_part;
pub use acpi_read::terms::{standard_terms, terms, terms_of};
pub use acpi_term::name_string::{Arities, NameString};
pub use acpi_term::op::Op;
pub use acpi_term::read_error::ReadError;
pub use acpi_term::term::{MAX_DEPTH, Term, TermEntry};
