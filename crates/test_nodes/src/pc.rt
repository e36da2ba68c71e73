//! RSDT, ERST, DMAR, NFIT, IVRS, PCCT and FPDT, against bytes that were worked out by hand from the layouts of ACPI 6.5, Intel
//! and AMD.

mod channels;
mod dmar;
mod ivrs;
mod nfit;
mod pointers;
mod serialization;
