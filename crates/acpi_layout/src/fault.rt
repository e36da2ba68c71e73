//! Why bytes aren't an image.

ghost use Rattle.std.specs.Prelude.{◌≡◌, Some};
ghost use Rattle.acpi_layout.specs.FaultText.{text_of};
ghost use Rattle.acpi_layout.specs.declared.fault.ImageFault.TheVariants.{Memory};

use std::alloc::{AllocError, AllocFailed};
use std::fmt;

/// What is wrong in an image, with the address of the table where it is. If there are several faults, any of them may be
/// returned.
#[derive(Clone, Copy, Debug, PartialEq)]
pub enum ImageFault {
    /// The allocator refused memory.
    Memory,
    /// A table that begins at this address isn't in the image with its whole length.
    Outside(u64),
    /// The signature at this address isn't that of an RSDP, an XSDT, an RSDT, a FACS or a DSDT, to which it was pointed.
    Signature(u64),
    /// The length of the table at this address can't be right: 36 of an RSDP, 64 of a FACS, at least 36 of any other, and
    /// at least 148 of a FADT, or 116 if an RSDT lists it.
    Length(u64),
    /// The revision of the RSDP at this address isn't 2, or, of one that points to an RSDT, below 2.
    Revision(u64),
    /// The table at this address doesn't sum to zero.
    Sum(u64),
    /// The length of the XSDT at this address, without its header, isn't a multiple of 8, or that of an RSDT of 4.
    Entries(u64),
    /// The XSDT or the RSDT at this address lists no FADT.
    NoFadt(u64),
    /// The table at this address is a second FADT.
    SecondFadt(u64),
    /// The tables at these two addresses overlap, or are the same.
    Overlap(u64, u64),
}

/// The fault as text, for the user of a program.
impl fmt::Display for ImageFault {
    ghost output = { λ fault. Some (text_of fault) };

    fn fmt<W: fmt::Write>(&self, f: &mut fmt::Formatter<W>) -> fmt::Result {
        match self {
            ImageFault::Memory => write!(f, "out of memory"),
            ImageFault::Outside(address) => write!(
                f,
                "at 0x{address:x}: the table isn't in the image"
            ),
            ImageFault::Signature(address) => write!(f, "at 0x{address:x}: the signature is wrong"),
            ImageFault::Length(address) => write!(f, "at 0x{address:x}: the length is wrong"),
            ImageFault::Revision(address) => write!(f, "at 0x{address:x}: the revision is wrong"),
            ImageFault::Sum(address) => write!(f, "at 0x{address:x}: the bytes don't sum to zero"),
            ImageFault::Entries(address) => {
                write!(
                    f,
                    "at 0x{address:x}: the list of tables doesn't end after a whole entry"
                )
            }
            ImageFault::NoFadt(address) => write!(f, "at 0x{address:x}: no FADT is listed"),
            ImageFault::SecondFadt(address) => write!(f, "at 0x{address:x}: this is a second FADT"),
            ImageFault::Overlap(first, second) => {
                write!(
                    f,
                    "at 0x{first:x}: the table overlaps the one at 0x{second:x}"
                )
            }
        }
    }
}

impl std::error::Error for ImageFault {}

impl From<AllocError> for ImageFault {
    ghost from_gives = { λ _ e. e ≡ Memory };

    fn from(_error: AllocError) -> ImageFault {
        ImageFault::Memory
    }
}

impl<T: Drop> From<AllocFailed<T>> for ImageFault {
    ghost from_gives = { λ _ e. e ≡ Memory };

    fn from(_error: AllocFailed<T>) -> ImageFault {
        ImageFault::Memory
    }
}
