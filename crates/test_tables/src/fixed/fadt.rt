//! The FADT: every field of it, and what each call of the builder sets.

use super::sums;
use acpi_base::gas::{AccessSize, AddressSpace, GAS};
use acpi_tables::fadt::{FADT, FADTBuilder, Flags, PmProfile};
use std::test::Fail;
use test_support::table::{patched, stands};
use test_support::{OEM, OEM_REVISION, OEM_TABLE, equal, writes};

// The byte at each offset is the low byte of the offset, except for reserved bytes, the checksum, address spaces and access
// sizes.
#[rattlefmt::skip]
fn numbered() -> FADTBuilder {
    FADTBuilder {
        signature: *b"\x00\x01\x02\x03",
        length: 0x0706_0504,
        major_version: 0x08,
        checksum: 0x09,
        oem_id: *b"\x0a\x0b\x0c\x0d\x0e\x0f",
        oem_table_id: *b"\x10\x11\x12\x13\x14\x15\x16\x17",
        oem_revision: 0x1b1a_1918,
        creator_id: *b"\x1c\x1d\x1e\x1f",
        creator_revision: *b"\x20\x21\x22\x23",
        firmware_ctrl: 0x2726_2524,
        dsdt: 0x2b2a_2928,
        preferred_pm_profile: 0x2d,
        sci_int: 0x2f2e,
        smi_cmd: 0x3332_3130,
        acpi_enable: 0x34,
        acpi_disable: 0x35,
        s4bios_req: 0x36,
        pstate_cnt: 0x37,
        pm1a_evt_blk: 0x3b3a_3938,
        pm1b_evt_blk: 0x3f3e_3d3c,
        pm1a_cnt_blk: 0x4342_4140,
        pm1b_cnt_blk: 0x4746_4544,
        pm2_cnt_blk: 0x4b4a_4948,
        pm_tmr_blk: 0x4f4e_4d4c,
        gpe0_blk: 0x5352_5150,
        gpe1_blk: 0x5756_5554,
        pm1_evt_len: 0x58,
        pm1_cnt_len: 0x59,
        pm2_cnt_len: 0x5a,
        pm_tmr_len: 0x5b,
        gpe0_blk_len: 0x5c,
        gpe1_blk_len: 0x5d,
        gpe1_base: 0x5e,
        cst_cnt: 0x5f,
        p_lvl2_lat: 0x6160,
        p_lvl3_lat: 0x6362,
        flush_size: 0x6564,
        flush_stride: 0x6766,
        duty_offset: 0x68,
        duty_width: 0x69,
        day_alrm: 0x6a,
        mon_alrm: 0x6b,
        century: 0x6c,
        iapc_boot_arch: 0x6e6d,
        flags: 0x7372_7170,
        reset_reg: GAS::new(AddressSpace::SystemIo, 0x75, 0x76, AccessSize::ByteAccess, 0x7f7e_7d7c_7b7a_7978),
        reset_value: 0x80,
        arm_boot_arch: 0x8281,
        fadt_minor_version: 0x83,
        x_firmware_ctrl: 0x8b8a_8988_8786_8584,
        x_dsdt: 0x9392_9190_8f8e_8d8c,
        x_pm1a_evt_blk: GAS::new(AddressSpace::PciConfigSpace, 0x95, 0x96, AccessSize::WordAccess, 0x9f9e_9d9c_9b9a_9998),
        x_pm1b_evt_blk: GAS::new(AddressSpace::EmbeddedController, 0xa1, 0xa2, AccessSize::DwordAccess, 0xabaa_a9a8_a7a6_a5a4),
        x_pm1a_cnt_blk: GAS::new(AddressSpace::Smbus, 0xad, 0xae, AccessSize::QwordAccess, 0xb7b6_b5b4_b3b2_b1b0),
        x_pm1b_cnt_blk: GAS::new(AddressSpace::SystemCmos, 0xb9, 0xba, AccessSize::Undefined, 0xc3c2_c1c0_bfbe_bdbc),
        x_pm2_cnt_blk: GAS::new(AddressSpace::PciBarTarget, 0xc5, 0xc6, AccessSize::ByteAccess, 0xcfce_cdcc_cbca_c9c8),
        x_pm_tmr_blk: GAS::new(AddressSpace::Ipmi, 0xd1, 0xd2, AccessSize::WordAccess, 0xdbda_d9d8_d7d6_d5d4),
        x_gpe0_blk: GAS::new(AddressSpace::GeneralPursposeIo, 0xdd, 0xde, AccessSize::DwordAccess, 0xe7e6_e5e4_e3e2_e1e0),
        x_gpe1_blk: GAS::new(AddressSpace::GenericSerialBus, 0xe9, 0xea, AccessSize::QwordAccess, 0xf3f2_f1f0_efee_edec),
        sleep_control_reg:
            GAS::new(AddressSpace::PlatformCommunicationsChannel, 0xf5, 0xf6, AccessSize::Undefined, 0xfffe_fdfc_fbfa_f9f8),
        sleep_status_reg:
            GAS::new(AddressSpace::FunctionalFixedHardware, 0x01, 0x02, AccessSize::ByteAccess, 0x0b0a_0908_0706_0504),
        hypervisor_vendor_identity: 0x1312_1110_0f0e_0d0c,
    }
}

// That table, by 16 bytes.
#[rattlefmt::skip]
const NUMBERED: [u8; 276] = *b"\
    \x00\x01\x02\x03\x04\x05\x06\x07\x08\x6c\x0a\x0b\x0c\x0d\x0e\x0f\
    \x10\x11\x12\x13\x14\x15\x16\x17\x18\x19\x1a\x1b\x1c\x1d\x1e\x1f\
    \x20\x21\x22\x23\x24\x25\x26\x27\x28\x29\x2a\x2b\x00\x2d\x2e\x2f\
    \x30\x31\x32\x33\x34\x35\x36\x37\x38\x39\x3a\x3b\x3c\x3d\x3e\x3f\
    \x40\x41\x42\x43\x44\x45\x46\x47\x48\x49\x4a\x4b\x4c\x4d\x4e\x4f\
    \x50\x51\x52\x53\x54\x55\x56\x57\x58\x59\x5a\x5b\x5c\x5d\x5e\x5f\
    \x60\x61\x62\x63\x64\x65\x66\x67\x68\x69\x6a\x6b\x6c\x6d\x6e\x00\
    \x70\x71\x72\x73\x01\x75\x76\x01\x78\x79\x7a\x7b\x7c\x7d\x7e\x7f\
    \x80\x81\x82\x83\x84\x85\x86\x87\x88\x89\x8a\x8b\x8c\x8d\x8e\x8f\
    \x90\x91\x92\x93\x02\x95\x96\x02\x98\x99\x9a\x9b\x9c\x9d\x9e\x9f\
    \x03\xa1\xa2\x03\xa4\xa5\xa6\xa7\xa8\xa9\xaa\xab\x04\xad\xae\x04\
    \xb0\xb1\xb2\xb3\xb4\xb5\xb6\xb7\x05\xb9\xba\x00\xbc\xbd\xbe\xbf\
    \xc0\xc1\xc2\xc3\x06\xc5\xc6\x01\xc8\xc9\xca\xcb\xcc\xcd\xce\xcf\
    \x07\xd1\xd2\x02\xd4\xd5\xd6\xd7\xd8\xd9\xda\xdb\x08\xdd\xde\x03\
    \xe0\xe1\xe2\xe3\xe4\xe5\xe6\xe7\x09\xe9\xea\x04\xec\xed\xee\xef\
    \xf0\xf1\xf2\xf3\x0a\xf5\xf6\x00\xf8\xf9\xfa\xfb\xfc\xfd\xfe\xff\
    \x7f\x01\x02\x01\x04\x05\x06\x07\x08\x09\x0a\x0b\x0c\x0d\x0e\x0f\
    \x10\x11\x12\x13";

#[test]
fn every_field(rt: HostRuntime) -> Result<(), Fail> {
    writes(rt.alloc(), &numbered().finalize(), &NUMBERED)?;
    equal(&FADT::len(), &276)
}

#[test]
fn at_first(rt: HostRuntime) -> Result<(), Fail> {
    let alloc = rt.alloc();
    writes(alloc, &FADTBuilder::default().finalize(), &[0; 276])?;

    let table = FADTBuilder::new(OEM, OEM_TABLE, OEM_REVISION).finalize();
    let header = b"FACP\x14\x01\0\0\x06\x7aFOOBARCAFEDEAD\xef\xbe\xad\xdeRVAT\0\0\0\x01";
    let mut wanted = [0; 276];
    wanted[..36].copy_from_slice(header);
    wanted[131] = 5;
    sums(alloc, &table, &wanted)
}

#[test]
fn flags(rt: HostRuntime) -> Result<(), Fail> {
    let alloc = rt.alloc();
    let builder = FADTBuilder::new(OEM, OEM_TABLE, OEM_REVISION);
    for (flag, wanted) in [
        (Flags::Wbinvd, b"\x01\0\0\0"),
        (Flags::WbinvdFlush, b"\x02\0\0\0"),
        (Flags::ProcC1, b"\x04\0\0\0"),
        (Flags::PLvl2Up, b"\x08\0\0\0"),
        (Flags::PwrButton, b"\x10\0\0\0"),
        (Flags::SlpButton, b"\x20\0\0\0"),
        (Flags::FixRtc, b"\x40\0\0\0"),
        (Flags::RtcS4, b"\x80\0\0\0"),
        (Flags::TmrValExt, b"\0\x01\0\0"),
        (Flags::DckCap, b"\0\x02\0\0"),
        (Flags::ResetRegSup, b"\0\x04\0\0"),
        (Flags::SealedCase, b"\0\x08\0\0"),
        (Flags::Headless, b"\0\x10\0\0"),
        (Flags::CpuSwSlp, b"\0\x20\0\0"),
        (Flags::PciExpWak, b"\0\x40\0\0"),
        (Flags::UsePlatformClock, b"\0\x80\0\0"),
        (Flags::S4RtcStsValid, b"\0\0\x01\0"),
        (Flags::RemotePowerOnCapable, b"\0\0\x02\0"),
        (Flags::ForceApicClusterModel, b"\0\0\x04\0"),
        (Flags::ForceApicPhysicalDestinationMode, b"\0\0\x08\0"),
        (Flags::HwReducedAcpi, b"\0\0\x10\0"),
        (Flags::LowPowerS0IdleCapable, b"\0\0\x20\0"),
        (Flags::PersistentCpuCachesNotReported, b"\0\0\0\0"),
        (Flags::PersistentCpuCachesNotPersistent, b"\0\0\x40\0"),
        (Flags::PersistentCpuCachesArePersistent, b"\0\0\x80\0"),
    ] {
        equal(&(flag as u32).to_le_bytes(), wanted)?;
        stands(alloc, &builder.flag(flag).finalize(), 112, wanted)?;
    }
    let joined = builder
        .flag(Flags::Headless)
        .flag(Flags::HwReducedAcpi)
        .flag(Flags::Headless);
    stands(alloc, &joined.finalize(), 112, b"\0\x10\x10\0")
}

#[test]
fn profiles(rt: HostRuntime) -> Result<(), Fail> {
    let builder = FADTBuilder::new(OEM, OEM_TABLE, OEM_REVISION);
    for (profile, wanted) in [
        (PmProfile::Unspecified, 0),
        (PmProfile::Desktop, 1),
        (PmProfile::Mobile, 2),
        (PmProfile::Workstation, 3),
        (PmProfile::EnterpriseServer, 4),
        (PmProfile::SohoServer, 5),
        (PmProfile::AppliancePc, 6),
        (PmProfile::PerformanceServer, 7),
        (PmProfile::Tablet, 8),
    ] {
        equal(&(profile as u8), &wanted)?;
        let table = builder.preferred_pm_profile(profile).finalize();
        stands(rt.alloc(), &table, 44, &[0, wanted, 0, 0])?;
    }
    Ok(())
}

const LOW: [u8; 4] = *b"\xa0\xa1\xa2\xa3";

const HIGH: [u8; 8] = *b"\xa0\xa1\xa2\xa3\xa4\xa5\xa6\xa7";

const BLOCKS: [u8; 8] = *b"\x11\x12\x13\x14\x21\x22\x23\x24";

// Each call sets its own fields, and one for an address sets the address of the other width to zero.
#[test]
fn setters(rt: HostRuntime) -> Result<(), Fail> {
    let old = numbered();
    let together = old
        .flag(Flags::ResetRegSup)
        .dsdt_64(0xa7a6_a5a4_a3a2_a1a0)
        .acpi_enable()
        .gpe_info(0x1413_1211, 0x2423_2221, 0x31, 0x32, 0x33)
        .flag(Flags::Wbinvd)
        .preferred_pm_profile(PmProfile::Tablet)
        .flag(Flags::LowPowerS0IdleCapable)
        .firmware_ctrl_32(0xa3a2_a1a0);
    let rows: [(FADTBuilder, &[(usize, &[u8])]); 10] = [
        (
            old.firmware_ctrl_32(0xa3a2_a1a0),
            &[(36, &LOW), (132, &[0; 8])],
        ),
        (
            old.firmware_ctrl_64(0xa7a6_a5a4_a3a2_a1a0),
            &[(36, &[0; 4]), (132, &HIGH)],
        ),
        (old.dsdt_32(0xa3a2_a1a0), &[(40, &LOW), (140, &[0; 8])]),
        (
            old.dsdt_64(0xa7a6_a5a4_a3a2_a1a0),
            &[(40, &[0; 4]), (140, &HIGH)],
        ),
        (
            old.dsdt_32(5).dsdt_64(7),
            &[(40, &[0; 4]), (140, b"\x07\0\0\0\0\0\0\0")],
        ),
        (old.acpi_enable(), &[(52, &[1, 0])]),
        (old.acpi_disable(), &[(52, &[0, 1])]),
        (old.preferred_pm_profile(PmProfile::Mobile), &[(45, &[2])]),
        (
            old.gpe_info(0x1413_1211, 0x2423_2221, 0x31, 0x32, 0x33),
            &[(80, &BLOCKS), (92, &[0x31, 0x32, 0x33])],
        ),
        (
            together,
            &[
                (36, &LOW),
                (40, &[0; 4]),
                (45, &[8]),
                (52, &[1, 0]),
                (80, &BLOCKS),
                (92, &[0x31, 0x32, 0x33]),
                (112, b"\x71\x75\x72\x73"),
                (132, &[0; 8]),
                (140, &HIGH),
            ],
        ),
    ];
    for (made, parts) in rows {
        patched(rt.alloc(), &made.finalize(), &NUMBERED, parts)?;
    }
    Ok(())
}
