//! What is done with each table of a file.

/// What is done with each table of a file.
#[derive(Clone, Copy)]
pub enum Job {
    /// It is kept, to be shown after the tables of all files are.
    Gathers,
    /// It is checked. The rules that it breaks are objects of JSON, or lines.
    Checks(bool),
    /// It is listed as JSON.
    Lists,
}
