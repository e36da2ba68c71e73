//! Tests of the crates that read, for what no contract says and no file of `cases` shows: terms that no bytes spell, long names,
//! lengths, large frames, tables that are cut, repeated or changed, texts by forms that no table has, and texts of no dump.
#![tactic(auto)]

#[cfg(test)]
mod asl;
#[cfg(test)]
mod dumps;
#[cfg(test)]
mod names;
#[cfg(test)]
mod sizes;
#[cfg(test)]
mod tables;
#[cfg(test)]
mod terms;
#[cfg(test)]
mod texts;
#[cfg(test)]
mod unspelled;
