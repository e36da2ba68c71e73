//! GTDT, DBG2 and IORT, against bytes that were worked out by hand from the layouts of ACPI 6.5, Microsoft and Arm.

mod dbg2;
mod gtdt;
mod iort;
mod iort_limits;
mod read_back;
