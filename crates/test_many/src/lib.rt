//! Tests of tables with more than 255 processors, as QEMU 7.2 writes them for its `q35`, but for the maker in their headers.
#![tactic(auto)]

#[cfg(test)]
mod processors;
