//! Tests of what runs of the programs on given bytes can't show, as those of the files in `cases`, which `test_cases` makes.
#![tactic(auto)]

#[cfg(test)]
mod acpiread;
#[cfg(test)]
mod acpitool;
#[cfg(test)]
mod library;
#[cfg(test)]
mod words;
