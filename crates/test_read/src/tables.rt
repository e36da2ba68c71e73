//! Tables of each signature that are cut, repeated, or changed in one byte or at random. Tables of given bytes, with their
//! reports and faults, are in `cases/tables.cases` and `cases/structures.cases`.

mod changed;
mod joined;
mod samples;
