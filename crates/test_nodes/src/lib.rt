//! Tests of tables of nodes, which refer to each other by offset, of tables of matrices, and of those of Arm machines and PCs,
//! against bytes that were worked out by hand from the layouts.
#![tactic(auto)]

#[cfg(test)]
mod arm;
#[cfg(test)]
mod later_offsets;
#[cfg(test)]
mod matrices;
#[cfg(test)]
mod numbers;
#[cfg(test)]
mod pc;
#[cfg(test)]
mod pptt;
#[cfg(test)]
mod qemu;
#[cfg(test)]
mod read_back;
#[cfg(test)]
mod rhct;
#[cfg(test)]
mod rimt;
#[cfg(test)]
mod rimt_limits;
#[cfg(test)]
mod tables;
#[cfg(test)]
mod viot;
