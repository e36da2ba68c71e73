//! Forms made up for the tests, and the parts of a text. Texts of tables are in `cases/shown.cases`, and tables of texts in
//! `cases/make.cases`.

mod forms;
mod parts;
