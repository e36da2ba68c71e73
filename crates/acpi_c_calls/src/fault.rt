//! What can be wrong, by numbers that stay.

ghost use Rattle.std.specs.Prelude.{◌≡◌};
ghost use Rattle.std.specs.Option.{option_map};
ghost use Rattle.acpi_c_calls.specs.Fault.{number_of, words, first_faults, later_faults, fault_among, fault_of, words_of};

/// What is wrong. A number is never given to another fault.
#[derive(Clone, Copy)]
pub enum Fault {
    Memory,
    Buffer,
    UnknownNumber,
    Arities,
    Signature,
    Null,
    ShortHeader,
    TableLength,
    Sum,
    Structure,
    Count,
    UnknownSource,
    NoBlock,
    FurtherBlock,
    Truncated,
    Opcode,
    PkgLength,
    Number,
    Flags,
    Text,
    TooDeep,
    ImageOutside,
    ImageSignature,
    ImageLength,
    ImageRevision,
    ImageSum,
    ImageEntries,
    ImageNoFadt,
    ImageSecondFadt,
    ImageOverlap,
    LayBase,
    LaySecond,
    LayNoFadt,
    LayNoDsdt,
    LayNoFacs,
    LayShortFadt,
    LayNoSpace,
    NoPointer,
    WantsPrinting,
    WantsSpace,
    WantsValue,
    WantsDigit,
    WantsSecondDigit,
    WantsQuotationMark,
    WantsQuestionMark,
    WantsSlash,
    WantsBrace,
    WantsField,
    WantsName,
    WantsNumber,
    WantsLabel,
    WantsBytes,
    WantsNext,
    WantsNameless,
    WantsEnd,
    WantsStructure,
    WantsWidth,
    WantsWhole,
    WantsOneTable,
    WantsTable,
    WantsFieldOf,
    WantsAnotherNumber,
    NotAsl,
    WantsIndented,
    WantsGroups,
    NamePart,
    PathParts,
    EisaText,
    UuidText,
    ArgNumber,
    LocalNumber,
    MethodArgs,
    ObjectLength,
    AddressRange,
    UnknownChoice,
    OemText,
    NoneOpen,
    StillOpen,
    TooManyOpen,
    WriterState,
    NotEmpty,
    Outside,
}

/// Every fault: its number and its words. Those of texts and writers come after those of tables, AML and images.
macro_rules! faults {
    ($wanted:ident of $subject:expr) => {
        look_up! { $wanted $subject;
            Memory 1 "out of memory"
            Buffer 2 "the buffer is too small"
            UnknownNumber 3 "no fault has this number"
            Arities 4 "a number of arguments isn't NAME=N, or a name has two"
            Signature 5 "a signature has four bytes of text"
            Null 6 "a pointer is NULL, and its size isn't 0"
            ShortHeader 16 "a table has at least the 36 bytes of the standard header"
            TableLength 17 "the length of a table isn't the number of its bytes"
            Sum 18 "the bytes of a table don't sum to zero"
            Structure 19 "a structure isn't as long as it says"
            Count 20 "a count isn't the number of what it counts"
            UnknownSource 21 "the size of an error source isn't known"
            NoBlock 22 "the signature isn't that of a definition block"
            FurtherBlock 23 "a further block isn't a whole definition block"
            Truncated 32 "the bytes end within a term"
            Opcode 33 "no term begins so"
            PkgLength 34 "a PkgLength doesn't fit what surrounds it"
            Number 35 "a number isn't in its shortest form"
            Flags 36 "flags have no meaning"
            Text 37 "a string has a byte past 7F"
            TooDeep 38 "terms nest too deep"
            ImageOutside 48 "a table isn't in the image with its whole length"
            ImageSignature 49 "the signature of a table is wrong"
            ImageLength 50 "the length of a table is wrong"
            ImageRevision 51 "the revision of the RSDP isn't 2"
            ImageSum 52 "the bytes of a table in the image don't sum to zero"
            ImageEntries 53 "the list of tables doesn't end after a whole entry"
            ImageNoFadt 54 "no FADT is listed"
            ImageSecondFadt 55 "the XSDT lists a second FADT"
            ImageOverlap 56 "two tables overlap"
            LayBase 57 "the address of an image isn't a multiple of 64"
            LaySecond 58 "a second table of this signature"
            LayNoFadt 59 "no table is a FADT"
            LayNoDsdt 60 "no table is a DSDT"
            LayNoFacs 61 "no table is a FACS, and the FADT doesn't have the flag HW_REDUCED_ACPI"
            LayShortFadt 62 "the FADT has no field X_DSDT"
            LayNoSpace 63 "the tables end after the last address"
            NoPointer 64 "no RSDP is at a multiple of 16"
            ;
            WantsPrinting 65 "expected text"
            WantsSpace 66 "expected a space"
            WantsValue 67 "expected a value"
            WantsDigit 68 "expected a hexadecimal digit"
            WantsSecondDigit 69 "expected the second digit of a byte (#5 and 0x5 are the number 5)"
            WantsQuotationMark 70 "expected a quotation mark, or a character of ASCII that prints"
            WantsQuestionMark 71 "expected a second question mark"
            WantsSlash 72 "expected a second slash"
            WantsBrace 73 "expected a brace at the end of the names"
            WantsField 74 "expected bytes, since the line has no field"
            WantsName 75 "expected a name that this field has; a bar between spaces joins flags of different bits"
            WantsNumber 76 "expected a number that fits the field"
            WantsLabel 77 "expected the label of one structure"
            WantsBytes 78 "expected bytes, since nothing determines the question marks"
            WantsNext 79 "expected another field or structure"
            WantsNameless 80 "expected Bytes, since no field of the form stands here"
            WantsEnd 81 "expected the end of the table"
            WantsStructure 82 "expected the name or the type of a structure of this table"
            WantsWidth 83 "expected as many bytes as the field has"
            WantsWhole 84 "expected all fields, since the length is left out"
            WantsOneTable 85 "expected the end of the text, since a text is one table"
            WantsTable 86 "expected a table, whose fields stand in lines after white space"
            WantsFieldOf 87 "expected a field"
            WantsAnotherNumber 88 "expected another number"
            NotAsl 89 "the text isn't the ASL of a definition block"
            WantsIndented 90 "expected white space before a field"
            WantsGroups 91 "expected as many digits in a group as a number of the field has"
            NamePart 96 "a part of a path doesn't have four bytes"
            PathParts 97 "a path has more than 255 parts"
            EisaText 98 "an EISA id is three letters from A to Z and four hexadecimal digits"
            UuidText 99 "a UUID is 8, 4, 4, 4 and 12 hexadecimal digits between dashes"
            ArgNumber 100 "the number of an argument is at most 6"
            LocalNumber 101 "the number of a local variable is at most 7"
            MethodArgs 102 "a method has at most 7 arguments"
            ObjectLength 103 "a PkgLength is less than 2^28"
            AddressRange 104 "an address range ends before it starts, or is all of its type"
            UnknownChoice 105 "no operator and no memory type has this number"
            OemText 106 "an OEM ID has 6 bytes, and an OEM Table ID 8"
            NoneOpen 107 "no object is open"
            StillOpen 108 "an object is still open"
            TooManyOpen 109 "at most 32 objects are open at a time"
            WriterState 110 "a writer isn't as its last call left it"
            NotEmpty 111 "a table begins in an empty writer"
            Outside 112 "nothing is written at this offset"
        }
    };
}

/// Selects a column of these rows.
macro_rules! look_up {
    (number $fault:expr; $($name:ident $number:literal $words:literal)*
        ; $($later:ident $value:literal $text:literal)*) => {
        match $fault {
            $(Fault::$name => $number,)*
            $(Fault::$later => $value,)*
        }
    };
    (words $fault:expr; $($name:ident $number:literal $words:literal)*
        ; $($later:ident $value:literal $text:literal)*) => {
        match $fault {
            $(Fault::$name => $words,)*
            $(Fault::$later => $text,)*
        }
    };
    (first $found:expr; $($name:ident $number:literal $words:literal)*
        ; $($later:ident $value:literal $text:literal)*) => {
        match $found {
            $($number => Some(Fault::$name),)*
            _ => None,
        }
    };
    (later $found:expr; $($name:ident $number:literal $words:literal)*
        ; $($later:ident $value:literal $text:literal)*) => {
        match $found {
            $($value => Some(Fault::$later),)*
            _ => None,
        }
    };
}

impl Fault {
    /// The fault's number.
    pub fn number(self) -> u32
        ensures { result ≡ number_of self }
    {
        faults!(number of self)
    }

    /// What is wrong, in words.
    pub fn words(self) -> &'static str
        ensures { result.now ≡ words self }
    {
        faults!(words of self)
    }

    /// The fault of a number, if there is one.
    pub fn of_number(number: u32) -> Option<Fault>
        ensures { result ≡ fault_of number }
    {
        match Fault::first(number) {
            Some(fault) => Some(fault),
            None => Fault::later(number),
        }
    }

    // The fault of a number, if it is one of tables, AML and images.
    fn first(number: u32) -> Option<Fault>
        ensures { result ≡ fault_among first_faults number }
    {
        faults!(first of number)
    }

    // The fault of a number, if it is one of texts and writers.
    fn later(number: u32) -> Option<Fault>
        ensures { result ≡ fault_among later_faults number }
    {
        faults!(later of number)
    }
}

/// The words of a number: those of its fault, and `fine` of 0.
pub fn words_of(number: u32) -> Option<&'static str>
    ensures { option_map (λ words. words.now) result ≡ words_of number }
{
    if number == 0 {
        return Some("fine");
    }
    match Fault::of_number(number) {
        Some(fault) => Some(fault.words()),
        None => None,
    }
}
