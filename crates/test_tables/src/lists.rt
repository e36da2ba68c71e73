//! Tables of structures.

mod additions;
mod affinity;
mod cxl;
mod entries;
mod interrupts;
mod madt;
mod processors;
mod qemu;
