//! ACPI tables and AML bytecode: all libraries under one name, with the modules of the Rust crate `acpi_tables`.
//!
//! Each module has an example below. `alloc` is the allocator of the program, `rt.alloc()` in its `main`. A sink is what receives
//! bytes: a `Vec<u8>`, a [`Checksum`] or an [`Sdt`](sdt::Sdt).
//!
//! ```
//! use acpi_tables::aml::{ONE, Package, ZERO};
//! use acpi_tables::bert::BERT;
//! use acpi_tables::bgrt::{BGRT, Orientation};
//! use acpi_tables::cedt::{CEDT, CxlHostBridge, CxlVersion};
//! use acpi_tables::dbg2::{DBG2, DebugDevice, DebugPort};
//! use acpi_tables::dmar::{DMAR, DeviceScope, Drhd, INTR_REMAP, ScopeType};
//! use acpi_tables::erst::{Action, ERST, Instruction, SerializationEntry};
//! use acpi_tables::facs::FACS;
//! use acpi_tables::fadt::{FADTBuilder, Flags};
//! use acpi_tables::fpdt::FPDT;
//! use acpi_tables::gas::{AccessSize, AddressSpace, GAS};
//! use acpi_tables::gtdt::{GTDT, Timer, Timers};
//! use acpi_tables::hest::{HEST, PcieAerRootPort};
//! use acpi_tables::hmat::{HMAT, MemoryProximityDomain};
//! use acpi_tables::hpet::{EventTimerBlockId, HPET};
//! use acpi_tables::iort::{IORT, IdMapping, ItsGroup, Output, RootComplex};
//! use acpi_tables::ivrs::{DeviceEntry, IVRS, IvInfo, Ivhd};
//! use acpi_tables::layout::{Image, ImageFault, Located, check_image, lay};
//! use acpi_tables::madt::{EnabledStatus, LocalInterruptController, MADT, ProcessorLocalApic};
//! use acpi_tables::mcfg::MCFG;
//! use acpi_tables::nfit::{NFIT, RangeType, SpaRange};
//! use acpi_tables::pcct::{Channel, Doorbell, GenericSubspace, PCCT};
//! use acpi_tables::pptt::{PPTT, ProcessorNode};
//! use acpi_tables::read::{ReadError, Table, report_table};
//! use acpi_tables::rhct::{HartInfoNode, RHCT};
//! use acpi_tables::rimt::{Iommu, RIMT};
//! use acpi_tables::rqsc::{ControllerType, QoSController, RQSC};
//! use acpi_tables::rsdp::Rsdp;
//! use acpi_tables::rsdt::RSDT;
//! use acpi_tables::sdt::{Sdt, append_object};
//! use acpi_tables::slit::SLIT;
//! use acpi_tables::spcr::{InterfaceType, SPCR};
//! use acpi_tables::srat::{MemoryAffinity, SRAT};
//! use acpi_tables::text::{Made, MakeError, make, show};
//! use acpi_tables::tpm2::{PlatformClass, StartMethod, Tpm2};
//! use acpi_tables::viot::{PciDevice, PciRange, VIOT, VirtIoPciIommu};
//! use acpi_tables::waet::WAET;
//! use acpi_tables::wsmt::WSMT;
//! use acpi_tables::xsdt::XSDT;
//! use acpi_tables::{Aml, AmlSink, R, ivrs};
//! use std::alloc::Global;
//!
//! const OEM: [u8; 6] = *b"FOOBAR";
//!
//! const TABLE: [u8; 8] = *b"CAFEDEAD";
//!
//! // aml, sdt: a definition block with a package.
//! fn block(alloc: Global) -> R<Sdt> {
//!     let mut table = Sdt::new(alloc, *b"DSDT", 36, 2, OEM, TABLE, 1)?;
//!     let package = Package::new(vec![in alloc; &ZERO as &dyn Aml, &ONE]?)?;
//!     append_object(&package, &mut table)?;
//!     Ok(table)
//! }
//!
//! fn fixed(sink: &mut dyn AmlSink) -> R<()> {
//!     // bert: a page with the errors of the last boot.
//!     BERT::new(OEM, TABLE, 1, 0x1000, 0x1c11_0000).to_aml_bytes(sink)?;
//!     // facs: the memory that firmware and the operating system share.
//!     FACS::new().to_aml_bytes(sink)?;
//!     // fadt, gas: a hardware-reduced machine with a reset register at port 0xcf9.
//!     let mut fields = FADTBuilder::new(OEM, TABLE, 1).flag(Flags::HwReducedAcpi);
//!     fields.reset_reg = GAS::new(AddressSpace::SystemIo, 8, 0, AccessSize::ByteAccess, 0xcf9);
//!     fields.finalize().to_aml_bytes(sink)?;
//!     // rsdp: the pointer to an XSDT.
//!     Rsdp::new(OEM, 0x1c00_0200).to_aml_bytes(sink)?;
//!     // spcr: a console of the RISC-V supervisor binary interface.
//!     SPCR::sbi(OEM, TABLE, 1).to_aml_bytes(sink)?;
//!     // tpm2: a module with a command response buffer, and a log.
//!     let class = PlatformClass::Client;
//!     let mut module = Tpm2::new(OEM, TABLE, 1, class, 0xfed4_0000, StartMethod::Crb);
//!     module.set_log_area(0x1_0000, 0x1c12_0000)?;
//!     module.to_aml_bytes(sink)
//! }
//!
//! fn pc(sink: &mut dyn AmlSink) -> R<()> {
//!     // hpet: a block of three timers at 0xfed00000, whose main counter has 64 bits.
//!     let id = EventTimerBlockId::new(1, 3, 0x8086).wide_counter();
//!     let registers = GAS::new(AddressSpace::SystemMemory, 64, 0, AccessSize::Undefined, 0xfed0_0000);
//!     HPET::new(OEM, TABLE, 1, id, registers).to_aml_bytes(sink)?;
//!     // waet: a PM timer that is read once.
//!     WAET::new(OEM, TABLE, 1).pm_timer_good().to_aml_bytes(sink)?;
//!     // bgrt: the picture on the screen, turned by 90 degrees.
//!     let picture = BGRT::new(OEM, TABLE, 1, 0x7000_0000, 40, 30);
//!     picture.displayed().orientation(Orientation::Degrees90).to_aml_bytes(sink)?;
//!     // wsmt: firmware that checks buffers and the pointers in them.
//!     WSMT::new(OEM, TABLE, 1).nested_ptr_protection().to_aml_bytes(sink)
//! }
//!
//! fn lists(alloc: Global, sink: &mut dyn AmlSink) -> R<()> {
//!     // xsdt: the address of a table.
//!     let mut addresses = XSDT::new(alloc, OEM, TABLE, 1);
//!     addresses.add_entry(0x1c00_0100)?;
//!     addresses.to_aml_bytes(sink)?;
//!     // madt: a processor.
//!     let local = LocalInterruptController::Address(0xfee0_0000);
//!     let mut controllers = MADT::new(alloc, OEM, TABLE, 1, local);
//!     controllers.add_structure(ProcessorLocalApic::new(0, 0, EnabledStatus::Enabled))?;
//!     controllers.to_aml_bytes(sink)?;
//!     // srat: 256 MiB of memory of domain 0.
//!     let mut memory = SRAT::new(alloc, OEM, TABLE, 1);
//!     memory.add_memory_affinity(MemoryAffinity::new(0, 0, 0x1000_0000).enabled())?;
//!     memory.to_aml_bytes(sink)?;
//!     // cedt: a CXL host bridge.
//!     let mut bridges = CEDT::new(alloc, OEM, TABLE, 1);
//!     bridges.add_host_bridge(CxlHostBridge::new(7, CxlVersion::Cxl2, 0x2000_0000))?;
//!     bridges.to_aml_bytes(sink)?;
//!     // hest: the errors of all root ports.
//!     let mut sources = HEST::new(alloc, OEM, TABLE, 1);
//!     sources.add_structure(PcieAerRootPort::new_global())?;
//!     sources.to_aml_bytes(sink)?;
//!     // rqsc: a controller of a cache's capacity.
//!     let (space, size) = (AddressSpace::SystemMemory, AccessSize::QwordAccess);
//!     let register = GAS::new(space, 64, 0, size, 0x2010_0000);
//!     let capacity = QoSController::new(alloc, ControllerType::Capacity, register, 64, 64, 0);
//!     let mut controllers = RQSC::new(alloc, OEM, TABLE, 1);
//!     controllers.add_controller(capacity)?;
//!     controllers.to_aml_bytes(sink)
//! }
//!
//! fn nodes(alloc: Global, sink: &mut dyn AmlSink) -> R<()> {
//!     // pptt: a package with one core.
//!     let mut topology = PPTT::new(alloc, OEM, TABLE, 1);
//!     let package = topology.add_processor(ProcessorNode::new(alloc, None, 0).physical())?;
//!     let core = ProcessorNode::new(alloc, Some(&package), 0);
//!     topology.add_processor(core.valid().leaf())?;
//!     topology.to_aml_bytes(sink)?;
//!     // rhct: a hart and its ISA string, with a time base of 10 MHz.
//!     let mut harts = RHCT::new(alloc, OEM, TABLE, 1, 10_000_000);
//!     let isa = harts.add_isa_string("rv64imafdc")?;
//!     harts.add_hart_info(HartInfoNode::new(alloc, 0, &isa)?)?;
//!     harts.to_aml_bytes(sink)?;
//!     // viot: a virtual IOMMU, and the PCI functions that use it.
//!     let mut devices = VIOT::new(alloc, OEM, TABLE, 1);
//!     let function = PciDevice::new(0, 0, 1, 0);
//!     let iommu = devices.add_virtio_pci_iommu(VirtIoPciIommu::new(function))?;
//!     let (first, last) = (PciDevice::new(0, 0, 2, 0), PciDevice::new(0, 0, 31, 7));
//!     devices.add_pci_range(PciRange::new(first, last, &iommu))?;
//!     devices.to_aml_bytes(sink)?;
//!     // rimt: an IOMMU with registers at a physical address.
//!     let mut iommus = RIMT::new(alloc, OEM, TABLE, 1);
//!     iommus.add_iommu(Iommu::new(1, Some(0x1001_0000), None, None, None))?;
//!     iommus.to_aml_bytes(sink)
//! }
//!
//! fn arm(alloc: Global, sink: &mut dyn AmlSink) -> R<()> {
//!     // gtdt: the timers of each processor.
//!     let timers = Timers::new(Timer::new(30), Timer::new(27));
//!     GTDT::new(alloc, OEM, TABLE, 1, timers).to_aml_bytes(sink)?;
//!     // dbg2: a PL011 with its registers.
//!     let registers = GAS::new(AddressSpace::SystemMemory, 32, 0, AccessSize::DwordAccess, 0x900_0000);
//!     let port = DebugPort::Serial(InterfaceType::ArmPl011);
//!     let mut ports = DBG2::new(alloc, OEM, TABLE, 1);
//!     ports.add_device(DebugDevice::new(alloc, port).register(registers, 0x1000)?)?;
//!     ports.to_aml_bytes(sink)?;
//!     // iort: a root complex whose interrupts go to an interrupt translation service.
//!     let mut nodes = IORT::new(alloc, OEM, TABLE, 1);
//!     let mut services = ItsGroup::new(alloc);
//!     services.add_its(0)?;
//!     let services = Output::ItsGroup(nodes.add_its_group(services)?);
//!     let mut root_complex = RootComplex::new(alloc, 0);
//!     root_complex.add_mapping(IdMapping::new(0, 0xffff, 0, services))?;
//!     nodes.add_root_complex(root_complex)?;
//!     nodes.to_aml_bytes(sink)
//! }
//!
//! fn remapping(alloc: Global, sink: &mut dyn AmlSink) -> R<()> {
//!     // dmar: a remapping unit of Intel for an I/O APIC, function 0 of device 31 on bus 0.
//!     let mut unit = Drhd::new(alloc, 0, 0xfed9_0000);
//!     unit.add_scope(&DeviceScope::new(alloc, ScopeType::IoApic, 8, 0, 31, 0)?)?;
//!     let mut units = DMAR::new(alloc, OEM, TABLE, 1, 47, INTR_REMAP);
//!     units.add_drhd(unit)?;
//!     units.to_aml_bytes(sink)?;
//!     // ivrs: an IOMMU of AMD, at function 2 of device 0 on bus 0, for all devices.
//!     let (device, base) = (2, 0xfed8_0000);
//!     let iommu = ivrs::Iommu { flags: 0, device, capability: 0x40, base, segment: 0, info: 0 };
//!     let mut unit = Ivhd::new(alloc, iommu, 0);
//!     unit.add_entry(DeviceEntry::All(0))?;
//!     let mut blocks = IVRS::new(alloc, OEM, TABLE, 1, IvInfo::new(2, 48, 64));
//!     blocks.add_ivhd(unit)?;
//!     blocks.to_aml_bytes(sink)
//! }
//!
//! fn platform(alloc: Global, sink: &mut dyn AmlSink) -> R<()> {
//!     // rsdt: the address of a table below 4 GiB.
//!     let mut addresses = RSDT::new(alloc, OEM, TABLE, 1);
//!     addresses.add_entry(0x1c00_0100)?;
//!     addresses.to_aml_bytes(sink)?;
//!     // erst: the step by which a write of an error record begins.
//!     let size = AccessSize::DwordAccess;
//!     let register = GAS::new(AddressSpace::SystemMemory, 32, 0, size, 0xfebf_3000);
//!     let (action, write) = (Action::BeginWrite, Instruction::WriteRegisterValue);
//!     let mut steps = ERST::new(alloc, OEM, TABLE, 1);
//!     steps.add_entry(SerializationEntry::new(action, write, register, 0, 0xffff_ffff))?;
//!     steps.to_aml_bytes(sink)?;
//!     // nfit: 256 MiB of persistent memory.
//!     let mut modules = NFIT::new(alloc, OEM, TABLE, 1);
//!     let (base, size) = (0x1_0000_0000, 0x1000_0000);
//!     modules.add_spa_range(SpaRange::new(1, RangeType::Persistent, base, size, 0x8008))?;
//!     modules.to_aml_bytes(sink)?;
//!     // pcct: a channel of 4 KiB with a doorbell.
//!     let doorbell = Doorbell { register, preserve: 0, write: 1 };
//!     let (base, size, latency) = (0x7000_0000, 0x1000, 100);
//!     let channel = Channel { base, size, doorbell, latency, access_rate: 0, turnaround: 0 };
//!     let mut channels = PCCT::new(alloc, OEM, TABLE, 1, 0);
//!     channels.add_generic(GenericSubspace::new(channel))?;
//!     channels.to_aml_bytes(sink)?;
//!     // fpdt: the address of the times of the last boot.
//!     let mut times = FPDT::new(alloc, OEM, TABLE, 1);
//!     times.add_boot_pointer(0x7000_1000)?;
//!     times.to_aml_bytes(sink)
//! }
//!
//! fn matrices(alloc: Global, sink: &mut dyn AmlSink) -> R<()> {
//!     // slit: the distance of two localities.
//!     let mut distances = SLIT::new(alloc, OEM, TABLE, 1, 2)?;
//!     distances.set_distance(0, 1, 20)?;
//!     distances.to_aml_bytes(sink)?;
//!     // hmat: the memory of domain 0 is attached to the processors of domain 0.
//!     let mut attributes = HMAT::new(alloc, OEM, TABLE, 1);
//!     attributes.add_memory_proximity(MemoryProximityDomain::new(0, 0))?;
//!     attributes.to_aml_bytes(sink)
//! }
//!
//! // layout, mcfg: an image with the configuration space of PCI.
//! fn image(alloc: Global) -> R<Image> {
//!     let block = block(alloc)?;
//!     let mut spaces = MCFG::new(alloc, OEM, TABLE, 1);
//!     spaces.add_ecam(0xb000_0000, 0, 0, 255)?;
//!     let tables: Vec<&dyn Aml> = vec![in alloc; &spaces as &dyn Aml]?;
//!     let (facs, fadt) = (FACS::new(), FADTBuilder::new(OEM, TABLE, 1));
//!     lay(0x1c00_0000, OEM, TABLE, 1, &block, &facs, fadt, tables)
//! }
//!
//! // layout: where each table of an image is.
//! fn places(alloc: Global, image: &Image) -> Result<Vec<Located>, ImageFault> {
//!     check_image(alloc, &image.bytes, 0x1c00_0000, image.rsdp)
//! }
//!
//! // The addresses of the FADT and of the other tables alone, in order.
//! fn addresses(alloc: Global, image: &Image) -> Result<Vec<u64>, ImageFault> {
//!     image.addresses(alloc, 0x1c00_0000)
//! }
//!
//! // read: the report of a table's bytes.
//! fn report(alloc: Global, bytes: &[u8]) -> Result<String, ReadError> {
//!     let table = Table::check(bytes)?;
//!     report_table(alloc, &table)
//! }
//!
//! // text: each field of a table, by its name.
//! fn fields(alloc: Global, table: &Table) -> R<String> {
//!     show(alloc, table)
//! }
//!
//! // The same text, changed or written by hand, is made into a table.
//! fn table_of(alloc: Global, text: &[u8]) -> Result<Made, MakeError> {
//!     make(alloc, text)
//! }
//! ```
//!
//! A call that takes a value and returns an error drops the value: `ProcessorNode::add_cache` drops its node, and
//! `PPTT::add_processor` the node that it should add. The arguments that a call borrows are unchanged. Before a call that may
//! reach a limit, ask for the number that there is: `ProcessorNode::resource_count`, `HartInfoNode::offset_count`, and `len` and
//! `count` of each table.
#![tactic(auto)]

pub mod aml;
pub mod read;

pub use acpi_base::checksum::Checksum;
pub use acpi_base::error::{Error, R};
pub use acpi_base::header::{CREATOR_ID, CREATOR_REVISION};
pub use acpi_base::object::{Aml, u8sum};
pub use acpi_base::sink::AmlSink;

/// The Boot Error Record Table (ACPI 6.5, 18.3.1).
pub mod bert {
    pub use acpi_fixed::bert::BERT;
}

/// The Boot Graphics Resource Table (ACPI 6.5, 5.2.23).
pub mod bgrt {
    pub use acpi_fixed::bgrt::{BGRT, Orientation};
}

/// The CXL Early Discovery Table and its structures (this project's profile).
pub mod cedt {
    pub use acpi_lists::cedt::{
        CEDT, CxlFixedMemory, CxlHostBridge, CxlVersion, InterleaveArithmetic,
        InterleaveGranularity, InterleaveWays, PortAssociation, ProtocolType, WindowRestrictions,
        XorInterleaveMath,
    };
}

/// The Debug Port Table 2 and its devices (Microsoft). The registers of a serial port are the type `InterfaceType` of `spcr`.
pub mod dbg2 {
    pub use acpi_arm::dbg2::{DBG2, DebugDevice, DebugPort};
}

/// The DMA Remapping Reporting Table and its structures (Intel Virtualization Technology for Directed I/O 4.1, 8).
pub mod dmar {
    pub use acpi_pc::dmar::{
        Andd, Atsr, DMA_CTRL_PLATFORM_OPT_IN, DMAR, DeviceScope, Drhd, INTR_REMAP, Rhsa, Rmrr,
        Satc, ScopeType, Sidp, X2APIC_OPT_OUT,
    };
}

/// The Error Record Serialization Table (ACPI 6.5, 18.5.1).
pub mod erst {
    pub use acpi_pc::erst::{Action, ERST, Instruction, SerializationEntry};
}

/// The Firmware ACPI Control Structure (ACPI 6.5, 5.2.10).
pub mod facs {
    pub use acpi_fixed::facs::FACS;
}

/// The Fixed ACPI Description Table (ACPI 6.5, 5.2.9).
pub mod fadt {
    pub use acpi_fixed::fadt::{EarlierFADT, FADT, FADTBuilder, FadtRelease, Flags, PmProfile};
}

/// The Firmware Performance Data Table (ACPI 6.5, 5.2.24).
pub mod fpdt {
    pub use acpi_pc::fpdt::FPDT;
}

/// Addresses of registers (ACPI 6.5, 5.2.3.2).
pub mod gas {
    pub use acpi_base::gas::{AccessSize, AddressSpace, GAS};
}

/// The Generic Timer Description Table and its platform timers (ACPI 6.5, 5.2.25).
pub mod gtdt {
    pub use acpi_arm::gtdt::{
        EarlierGTDT, GTDT, GenericWatchdog, GtBlock, GtBlockTimer, Interrupt, Timer, Timers,
    };
}

/// The Hardware Error Source Table and its structures (ACPI 6.5, 18.3.2). Other modules have types of the same names: `madt` has
/// an `EnabledStatus`, and `viot` and `rimt` a `PciDevice`. Write `hest::EnabledStatus` and `hest::PciDevice`.
pub mod hest {
    pub use acpi_hest::hest::{
        EnabledStatus, ErrorSeverity, FirmwareFirst, GenericErrorData, GenericErrorStatus,
        GenericHardwareSource, GenericHardwareSourceV2, HEST, NotificationStructure,
        NotificationType, PciDevice, PcieAerBridge, PcieAerDevice, PcieAerRootPort,
    };
}

/// The Heterogeneous Memory Attribute Table and its structures (ACPI 6.5, 5.2.28). `pptt` has a type `WritePolicy`, too: write
/// `hmat::WritePolicy`.
pub mod hmat {
    pub use acpi_matrices::hmat::{
        Associativity, CacheLevel, DataType, HMAT, LocalityType, MemoryProximityDomain,
        MemorySideCache, MinTransferSize, SystemLocality, WritePolicy,
    };
}

/// The IA-PC High Precision Event Timer Table (IA-PC HPET Specification 1.0a, 3.2.4).
pub mod hpet {
    pub use acpi_fixed::hpet::{EventTimerBlockId, HPET, PageProtection};
}

/// The I/O Remapping Table and its nodes (Arm DEN0049E.d). `rimt` has a type `IdMapping`, too: write `iort::IdMapping`.
pub mod iort {
    pub use acpi_arm::iort::{
        AccessAttributes, EarlierRootComplex, Httu, IORT, IdMapping, ItsGroup, ItsGroupHandle,
        MemoryAccess, MemoryRange, Monitored, NamedComponent, NamedComponentHandle, Output, Pmcg,
        ReservedMemory, RootComplex, RootComplexHandle, Smmu, SmmuHandle, SmmuInterrupt, SmmuModel,
        SmmuV3, SmmuV3Handle, SmmuV3Model,
    };
}

/// The I/O Virtualization Reporting Structure, its blocks and their device entries (AMD 48882, 5.2). `rimt` has a type `Iommu`,
/// too: write `ivrs::Iommu`.
pub mod ivrs {
    pub use acpi_pc::ivrs::{
        AcpiDevice, DeviceEntry, ExtendedIvhd, ExtendedType, IVRS, Iommu, IvInfo, Ivhd, Ivmd,
        Peripherals, SpecialDevice,
    };
}

/// The tables of a guest at their addresses, in one image, which is made and checked.
pub mod layout {
    pub use acpi_layout::check::{check_image, check_image_of, check_memory};
    pub use acpi_layout::fault::ImageFault;
    pub use acpi_layout::files::lay_files;
    pub use acpi_layout::lay_fault::LayFault;
    pub use acpi_layout::layout::{Image, lay, lay_reduced};
    pub use acpi_layout::located::Located;
    pub use acpi_layout::range::Range;
    pub use acpi_layout::root::Root;
    pub use acpi_layout::rsdt::{RsdtImage, lay_reduced_rsdt, lay_rsdt};
    pub use acpi_layout::rsdt_fault::RsdtFault;
}

/// The Multiple APIC Description Table and its structures (ACPI 6.5, 5.2.12). `hest` has a type `EnabledStatus`, too: write
/// `madt::EnabledStatus`.
pub mod madt {
    pub use acpi_lists::madt::{
        APLIC, EarlierGicc, EnabledStatus, GicIts, GicMsi, GicVersion, Gicc, Gicd, Gicr,
        HartStatus, IMSIC, InterruptSourceOverride, IoApic, LocalApicAddressOverride, LocalApicNmi,
        LocalInterruptController, LocalX2ApicNmi, MADT, NmiSource, PCAT_COMPAT, PLIC, Polarity,
        ProcessorLocalApic, ProcessorLocalX2Apic, RINTC, Trigger, TriggerMode,
    };
}

/// Memory mapped configuration spaces of PCI (PCI Firmware Specification 3.3, 4.1.2).
pub mod mcfg {
    pub use acpi_lists::mcfg::MCFG;
}

/// The NVDIMM Firmware Interface Table and its structures (ACPI 6.5, 5.2.26).
pub mod nfit {
    pub use acpi_pc::nfit::{
        BlockWindows, Capabilities, ControlRegion, DataWindow, FlushHint, Interleave, NFIT,
        RangeType, RegionMapping, SmbiosInformation, SpaRange,
    };
}

/// The Platform Communications Channel Table and its subspaces (ACPI 6.5, 14.1). `gtdt` has a type `Interrupt`, too: write
/// `pcct::Interrupt`.
pub mod pcct {
    pub use acpi_pc::pcct::{
        AcknowledgedSubspace, Channel, Doorbell, ExtendedChannel, ExtendedSubspace,
        GenericSubspace, Interrupt, Masked, PCCT, PLATFORM_INTERRUPT, ReducedSubspace,
        RegisterChannel, RegistersSubspace, Role,
    };
}

/// The Processor Properties Topology Table and its nodes (ACPI 6.5, 5.2.30). `hmat` has a type `WritePolicy`, too: write
/// `pptt::WritePolicy`.
pub mod pptt {
    pub use acpi_nodes::pptt::{
        AllocationType, CacheHandle, CacheNode, CacheNodeBuilder, CacheType, PPTT, ProcessorHandle,
        ProcessorNode, WritePolicy,
    };
}

/// The RISC-V Hart Capabilities Table and its nodes (this project's profile).
pub mod rhct {
    pub use acpi_nodes::rhct::{
        CmoHandle, CmoNode, HartInfoNode, IsaStringHandle, IsaStringNode, MmuNode, RHCT,
        VirtualAddressScheme,
    };
}

/// The RISC-V I/O Mapping Table and its devices (this project's profile). `PciDevice` is the type of `viot`. `hest` has another
/// type of this name. `iort` has a type `IdMapping`, too: write `rimt::IdMapping`.
pub mod rimt {
    pub use acpi_nodes::rimt::{
        IdMapping, InterruptWire, Iommu, IommuOffset, PciDevice, PcieRootComplex, Platform, RIMT,
    };
}

/// The RISC-V Quality of Service Controller table and its structures (this project's profile).
pub mod rqsc {
    pub use acpi_hest::rqsc::{
        ACPIDeviceResource, CacheResource, ControllerType, MemoryAffinityStructureResource,
        PCIDeviceResource, QoSController, RQSC, ResourceID, ResourceStructure, ResourceType,
    };
}

/// The Root System Description Pointer (ACPI 6.5, 5.2.5.3).
pub mod rsdp {
    pub use acpi_fixed::rsdp::{Rsdp, Rsdp0};
}

/// The Root System Description Table (ACPI 6.5, 5.2.7).
pub mod rsdt {
    pub use acpi_pc::rsdt::RSDT;
}

/// Tables with the standard header and the caller's content (ACPI 6.5, 5.2.6).
pub mod sdt {
    pub use acpi_base::address::{AccessWidth, GenericAddress};
    pub use acpi_base::sdt::{Sdt, append_object};
    pub use acpi_base::value::SdtValue;
}

/// The System Locality Information Table (ACPI 6.5, 5.2.17).
pub mod slit {
    pub use acpi_matrices::slit::{SLIT, UNREACHABLE_LOCALITY};
}

/// The Serial Port Console Redirection table (Microsoft).
pub mod spcr {
    pub use acpi_fixed::spcr::{
        BaudRate, EarlierSPCR, FlowControl, InterfaceType, InterruptController, SPCR, TerminalType,
    };
}

/// The System Resource Affinity Table and its structures (ACPI 6.5, 5.2.16).
pub mod srat {
    pub use acpi_lists::srat::{
        GenericInitiator, GicItsAffinity, GiccAffinity, Handle, MemoryAffinity,
        ProcessorLocalApicAffinity, ProcessorLocalX2ApicAffinity, RintcAffinity, SRAT,
    };
}

/// The texts of tables, with a line for each field, and of definition blocks; tables that are made of texts.
pub mod text {
    pub use acpi_base::row::{Bits, Look, Row, Word};
    pub use acpi_base::walk::{Place, Sizes, Walk};
    pub use acpi_forms::make::{make, template};
    pub use acpi_forms::show::{show, show_facs, show_rsdp};
    pub use acpi_make::extent::Own;
    pub use acpi_make::fault::{Fault, MakeError, Wanted};
    pub use acpi_make::make::Made;
    pub use acpi_terms_text::annotate::annotated;
    pub use acpi_terms_text::objects::{Object, add_objects_in, own_arities};
    pub use acpi_text::comment::push_comment;
    pub use acpi_text::form::{Choice, Count, Inner, Part, StructureForm, TableForm};
    pub use acpi_text::table::show_by;
}

/// Trusted platform modules: TCPA and TPM2 (TCG ACPI Specification).
pub mod tpm2 {
    pub use acpi_fixed::tpm2::{PlatformClass, StartMethod, Tpm2, TpmClient1_2, TpmServer1_2};
}

/// The Virtual I/O Translation Table and its nodes (ACPI 6.5, 5.2.32). `PciDevice` is the type of `rimt`, too. `hest` has another
/// type of this name: write `viot::PciDevice`.
pub mod viot {
    pub use acpi_nodes::viot::{
        MmioEndpoint, PciDevice, PciRange, TranslationHandle, VIOT, VirtIoMmioIommu, VirtIoPciIommu,
    };
}

/// The Windows ACPI Emulated Devices Table (Microsoft, WAET 1.2).
pub mod waet {
    pub use acpi_fixed::waet::WAET;
}

/// The Windows SMM Security Mitigations Table (Microsoft, WSMT 1.0).
pub mod wsmt {
    pub use acpi_fixed::wsmt::WSMT;
}

/// The Extended System Description Table (ACPI 6.5, 5.2.8).
pub mod xsdt {
    pub use acpi_lists::xsdt::XSDT;
}
