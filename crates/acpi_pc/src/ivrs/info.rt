//! What the IOMMUs of a machine have in common.

ghost use Rattle.std.specs.Prelude.{◌≡◌, ◌<◌};
ghost use Rattle.acpi_pc.specs.Ivrs.{iv_info, with_feature};

// Flags of the field IVinfo.
const EXTENDED_FEATURES: u32 = 1;

const DMA_REMAPPING: u32 = 2;

const ATS_RESERVED: u32 = 0x40_0000;

/// The field IVinfo of an IVRS (offset 36; AMD 48882, 5.2.1).
#[derive(Clone, Copy, Debug)]
pub struct IvInfo {
    pub(crate) number: u32,
}

impl IvInfo {
    /// The size of guest virtual addresses (GVASize, bits 5 to 7; 2 is 48 bits), and the numbers of bits of physical addresses
    /// (PASize, bits 8 to 14) and of virtual addresses (VASize, bits 15 to 21). The caller proves that the first is below 8, and
    /// the others are below 128.
    pub fn new(guest_size: u8, physical_bits: u8, virtual_bits: u8) -> IvInfo
        requires guest_size { guest_size < 8 }
        requires physical_bits { physical_bits < 128 }
        requires virtual_bits { virtual_bits < 128 }
        ensures { result ≡ iv_info guest_size physical_bits virtual_bits }
    {
        IvInfo {
            number: u32::from(guest_size) * 0x20
                + u32::from(physical_bits) * 0x100
                + u32::from(virtual_bits) * 0x8000,
        }
    }

    /// Sets EFRSup (bit 0): the extended features in the blocks are valid.
    pub fn extended_features(mut self) -> IvInfo
        ensures { result ≡ with_feature 1 self }
    {
        self.number |= EXTENDED_FEATURES;
        self
    }

    /// Sets DmaRemapSup (bit 1): the firmware remapped DMA before the operating system starts.
    pub fn dma_remapping(mut self) -> IvInfo
        ensures { result ≡ with_feature 2 self }
    {
        self.number |= DMA_REMAPPING;
        self
    }

    /// Sets HtAtsResv (bit 22): the address range of HyperTransport is reserved for address translation services.
    pub fn ats_reserved(mut self) -> IvInfo
        ensures { result ≡ with_feature 4194304 self }
    {
        self.number |= ATS_RESERVED;
        self
    }
}
