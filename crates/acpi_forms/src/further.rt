//! The forms of tables that are only read and of those of `acpi_pc`, by their signatures, and of structures of other tables that
//! are only read. A list is short enough for the toolchain to copy.

pub mod aest;
pub mod agdi;
pub mod apmt;
pub mod asf;
pub mod aspt;
pub mod bdat;
pub mod blocks;
pub mod boot;
pub mod ccel;
pub mod cdat;
pub mod cpep;
pub mod csrt;
pub mod dbgp;
pub mod dmar;
pub mod drtm;
pub mod dtpr;
pub mod ecdt;
pub mod einj;
pub mod erdt;
pub mod erst;
pub mod fpdt;
pub mod hest;
pub mod ibft;
pub mod iort;
pub mod iovt;
pub mod ivrs;
pub mod lpit;
pub mod madt;
pub mod mchi;
pub mod mpam;
pub mod mpst;
pub mod mrrm;
pub mod msct;
pub mod msdm;
pub mod nfit;
pub mod nhlt;
pub mod pcct;
pub mod pdtt;
pub mod phat;
pub mod pmtt;
pub mod pptt;
pub mod prmt;
pub mod ras2;
pub mod rasf;
pub mod rgrt;
pub mod rimt;
pub mod rsdt;
pub mod s3pt;
pub mod sbst;
pub mod sdei;
pub mod sdev;
pub mod slic;
pub mod spmi;
pub mod srat;
pub mod stao;
pub mod svkl;
pub mod swft;
pub mod tdel;
pub mod uefi;
pub mod wdat;
pub mod wddt;
pub mod wdrt;
pub mod wpbt;
pub mod xenv;

use acpi_text::form::TableForm;

/// What a machine has when it boots.
#[rattlefmt::skip]
pub const BOOT_FORMS: [([u8; 4], TableForm); 15] = [
    (*b"RSDT", rsdt::RSDT),
    (*b"PSDT", blocks::PSDT),
    (*b"OSDT", blocks::OSDT),
    (*b"BOOT", boot::BOOT),
    (*b"DBGP", dbgp::DBGP),
    (*b"ECDT", ecdt::ECDT),
    (*b"UEFI", uefi::UEFI),
    (*b"FPDT", fpdt::FPDT),
    (*b"IBFT", ibft::IBFT),
    (*b"iBFT", ibft::IBFT),
    (*b"WPBT", wpbt::WPBT),
    (*b"MSDM", msdm::MSDM),
    (*b"SLIC", slic::SLIC),
    (*b"RGRT", rgrt::RGRT),
    (*b"BDAT", bdat::BDAT),
];

/// Protection, and code outside the operating system.
#[rattlefmt::skip]
pub const SECURITY_FORMS: [([u8; 4], TableForm); 10] = [
    (*b"CCEL", ccel::CCEL),
    (*b"TDEL", tdel::TDEL),
    (*b"SVKL", svkl::SVKL),
    (*b"SDEV", sdev::SDEV),
    (*b"DRTM", drtm::DRTM),
    (*b"XENV", xenv::XENV),
    (*b"STAO", stao::STAO),
    (*b"PRMT", prmt::PRMT),
    (*b"ASPT", aspt::ASPT),
    (*b"DTPR", dtpr::DTPR),
];

/// Errors, watchdogs and diagnosis.
#[rattlefmt::skip]
pub const FAULTS_FORMS: [([u8; 4], TableForm); 10] = [
    (*b"ERST", erst::ERST),
    (*b"EINJ", einj::EINJ),
    (*b"CPEP", cpep::CPEP),
    (*b"RASF", rasf::RASF),
    (*b"RAS2", ras2::RAS2),
    (*b"PHAT", phat::PHAT),
    (*b"PDTT", pdtt::PDTT),
    (*b"WDAT", wdat::WDAT),
    (*b"WDRT", wdrt::WDRT),
    (*b"WDDT", wddt::WDDT),
];

/// Errors of Arm machines. AEST has a function, since it has many rows.
#[rattlefmt::skip]
pub const ARM_FAULTS_FORMS: [([u8; 4], TableForm); 2] = [
    (*b"AGDI", agdi::AGDI),
    (*b"SDEI", sdei::SDEI),
];

/// Devices.
#[rattlefmt::skip]
pub const DEVICES_FORMS: [([u8; 4], TableForm); 11] = [
    (*b"DMAR", dmar::DMAR),
    (*b"IVRS", ivrs::IVRS),
    (*b"IOVT", iovt::IOVT),
    (*b"APMT", apmt::APMT),
    (*b"CSRT", csrt::CSRT),
    (*b"NHLT", nhlt::NHLT),
    (*b"SWFT", swft::SWFT),
    (*b"SBST", sbst::SBST),
    (*b"MCHI", mchi::MCHI),
    (*b"SPMI", spmi::SPMI),
    (*b"ASF!", asf::ASF),
];

/// Memory, power and performance.
#[rattlefmt::skip]
pub const MEMORY_FORMS: [([u8; 4], TableForm); 9] = [
    (*b"NFIT", nfit::NFIT),
    (*b"PCCT", pcct::PCCT),
    (*b"LPIT", lpit::LPIT),
    (*b"MSCT", msct::MSCT),
    (*b"MPST", mpst::MPST),
    (*b"PMTT", pmtt::PMTT),
    (*b"MPAM", mpam::MPAM),
    (*b"MRRM", mrrm::MRRM),
    (*b"ERDT", erdt::ERDT),
];
