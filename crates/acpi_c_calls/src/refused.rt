//! Why a call fails, and where.

ghost use Rattle.std.specs.Prelude.{◌≡◌};
ghost use Rattle.acpi_c_calls.specs.Refused.{fault_of_read, fault_of_image, place_of_image, fault_of_wanted};
ghost use Rattle.acpi_c_calls.specs.Refused.{by_memory, by_read, by_image, by_make, by_asl};

use crate::fault::Fault;
use acpi_compile::fault::AslError;
use acpi_layout::fault::ImageFault;
use acpi_make::fault::{MakeError, Wanted, find_position};
use acpi_term::read_error::ReadError;
use std::alloc::{AllocError, AllocFailed};

/// What is wrong, and where: the offset of a byte, the number of a line from 1, or the physical address of a table. The place
/// is 0 where a fault has none.
#[derive(Clone, Copy)]
pub struct Refused {
    pub fault: Fault,
    pub place: u64,
}

// Returns the fault of an error of reading.
fn fault_of_read(error: ReadError) -> Fault
    ensures { result ≡ fault_of_read error }
{
    match error {
        ReadError::Memory => Fault::Memory,
        ReadError::Truncated(_) => Fault::Truncated,
        ReadError::Opcode(_) => Fault::Opcode,
        ReadError::NameText | ReadError::Arity => Fault::Arities,
        ReadError::Length(_) => Fault::PkgLength,
        ReadError::Number(_) => Fault::Number,
        ReadError::Count(_) => Fault::Count,
        ReadError::Flags(_) => Fault::Flags,
        ReadError::Text(_) => Fault::Text,
        ReadError::TooDeep(_) => Fault::TooDeep,
        ReadError::ShortHeader(_) => Fault::ShortHeader,
        ReadError::TableLength(_) => Fault::TableLength,
        ReadError::Sum(_) => Fault::Sum,
        ReadError::Structure(_) => Fault::Structure,
        ReadError::UnknownSource(_) => Fault::UnknownSource,
    }
}

// Returns the fault of an image.
fn fault_of_image(error: ImageFault) -> Fault
    ensures { result ≡ fault_of_image error }
{
    match error {
        ImageFault::Memory => Fault::Memory,
        ImageFault::Outside(_) => Fault::ImageOutside,
        ImageFault::Signature(_) => Fault::ImageSignature,
        ImageFault::Length(_) => Fault::ImageLength,
        ImageFault::Revision(_) => Fault::ImageRevision,
        ImageFault::Sum(_) => Fault::ImageSum,
        ImageFault::Entries(_) => Fault::ImageEntries,
        ImageFault::NoFadt(_) => Fault::ImageNoFadt,
        ImageFault::SecondFadt(_) => Fault::ImageSecondFadt,
        ImageFault::Overlap(..) => Fault::ImageOverlap,
    }
}

// Returns the address in the fault of an image: of two tables that overlap, that of the one that is found first.
fn place_of_image(error: ImageFault) -> u64
    ensures { result ≡ place_of_image error }
{
    match error {
        ImageFault::Memory => 0,
        ImageFault::Outside(address)
        | ImageFault::Signature(address)
        | ImageFault::Length(address)
        | ImageFault::Revision(address)
        | ImageFault::Sum(address)
        | ImageFault::Entries(address)
        | ImageFault::NoFadt(address)
        | ImageFault::SecondFadt(address)
        | ImageFault::Overlap(address, _) => address,
    }
}

// Returns the fault of a text in which this is wanted.
fn fault_of_wanted(wanted: Wanted) -> Fault
    ensures { result ≡ fault_of_wanted wanted }
{
    match wanted {
        Wanted::Printing => Fault::WantsPrinting,
        Wanted::Space => Fault::WantsSpace,
        Wanted::Value => Fault::WantsValue,
        Wanted::Digit => Fault::WantsDigit,
        Wanted::SecondDigit => Fault::WantsSecondDigit,
        Wanted::QuotationMark => Fault::WantsQuotationMark,
        Wanted::QuestionMark => Fault::WantsQuestionMark,
        Wanted::Slash => Fault::WantsSlash,
        Wanted::Brace => Fault::WantsBrace,
        Wanted::Field => Fault::WantsField,
        Wanted::Name => Fault::WantsName,
        Wanted::Number => Fault::WantsNumber,
        Wanted::Label => Fault::WantsLabel,
        Wanted::Bytes => Fault::WantsBytes,
        Wanted::Next => Fault::WantsNext,
        Wanted::Nameless => Fault::WantsNameless,
        Wanted::End => Fault::WantsEnd,
        Wanted::Structure => Fault::WantsStructure,
        Wanted::Width => Fault::WantsWidth,
        Wanted::Groups => Fault::WantsGroups,
        Wanted::Whole => Fault::WantsWhole,
        Wanted::OneTable => Fault::WantsOneTable,
        Wanted::Table => Fault::WantsTable,
        Wanted::Indented => Fault::WantsIndented,
        Wanted::FieldOf => Fault::WantsFieldOf,
        Wanted::AnotherNumber => Fault::WantsAnotherNumber,
    }
}

impl Refused {
    /// A fault without a place.
    pub fn anywhere(fault: Fault) -> Refused
        ensures { result ≡ record { fault = fault; place = 0 } }
    {
        Refused { fault, place: 0 }
    }

    /// Why a text isn't made into a table. The place is the line, counted from 1.
    pub fn of_text(error: MakeError, text: &[u8]) -> Refused
        ensures { result ≡ by_make text.now error }
    {
        match error {
            MakeError::Memory => Refused::anywhere(Fault::Memory),
            MakeError::Fault(fault) => Refused {
                fault: fault_of_wanted(fault.wanted),
                place: find_position(fault.from, text).line as u64,
            },
        }
    }

    /// Why a text isn't made into a definition block. The place is the line, counted from 1.
    pub fn of_asl(error: AslError, text: &[u8]) -> Refused
        ensures { result ≡ by_asl text.now error }
    {
        match error {
            AslError::Memory => Refused::anywhere(Fault::Memory),
            AslError::Fault(fault) => Refused {
                fault: Fault::NotAsl,
                place: fault.line(text) as u64,
            },
        }
    }
}

impl From<ReadError> for Refused {
    ghost from_gives = { λ error refused. refused ≡ by_read error };

    fn from(error: ReadError) -> Refused {
        let place = match error.offset() {
            Some(offset) => offset as u64,
            None => 0,
        };
        Refused {
            fault: fault_of_read(error),
            place,
        }
    }
}

impl From<ImageFault> for Refused {
    ghost from_gives = { λ error refused. refused ≡ by_image error };

    fn from(error: ImageFault) -> Refused {
        Refused {
            fault: fault_of_image(error),
            place: place_of_image(error),
        }
    }
}

impl From<AllocError> for Refused {
    ghost from_gives = { λ _ refused. refused ≡ by_memory };

    fn from(_error: AllocError) -> Refused {
        Refused::anywhere(Fault::Memory)
    }
}

impl<T: Drop> From<AllocFailed<T>> for Refused {
    ghost from_gives = { λ _ refused. refused ≡ by_memory };

    fn from(_error: AllocFailed<T>) -> Refused {
        Refused::anywhere(Fault::Memory)
    }
}
