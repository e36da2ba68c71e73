//! The ASL of a definition block. ACPICA's compiler, release 20200925, made these bytes of this text without its optimizations.

use acpi_asl::asl::asl_of;
use acpi_read::terms::standard_terms;
use acpi_term::name_string::{Arities, NameString};
use acpi_term::read_error::ReadError;
use std::alloc::Global;
use std::test::Fail;
use test_support::same;

/// The block, with its header.
const BLOCK: &[u8] =
    b"DSDT\xda\x00\x00\x00\x02\x11OEMID\x00OEMTABLE\x01\x00\x00\x00INTL%\x09  \xa0\x0a\x00\x15\x5cEXTM\
    \x08\x02[\x80REG_\x01\x0b\x02\x04\x01[\x81\x19REG_\x01BITA\x03\x00\x02BITB\x01\x00\x0aBYTE\x08[\
    \x82C\x08\x5c._SB_COM1\x08_HID\x0cA\xd0\x05\x01\x08_CRS\x11\x11\x0a\x0eG\x01\xf8\x03\xf8\x03\x01\
    \x08#\x10\x00\x01y\x00\x08ADD_\x12\x0f\x03\x0a\x10\x0da\x22b\x00\x11\x05\x0a\x02\x01\x02\x149TES\
    T\x0a\xa0\x12\x93h\x0cxV4\x12\xa4EXTMhri\xff\x00\xa1\x1dxh\x0b\x00\x01\x00`p`BYTE\x5c/\x03_SB_CO\
    M1NEXT\xa4\x00\x14\x06NEXT\x00";

/// A statement that moves to a new block, fields with gaps, a package, a buffer, a template, an id, a name that would be a
/// word, calls with and without arguments, and a target that is left out.
const TEXT: &str = "/*= Creator \"INTL\", 0x20200925 */
DefinitionBlock (\"\", \"DSDT\", 2, \"OEMID\", \"OEMTABLE\", 0x00000001)
{
    External (\\EXTM, MethodObj, UnknownObj, {UnknownObj, UnknownObj})
    OperationRegion (REG, SystemIO, 0x0402, One)
    Field (REG, ByteAcc, NoLock, Preserve)
    {
        BITA, 3,
        , 2,
        BITB, 1,
        Offset (0x02),
        BYTE, 8
    }
    Device (\\_SB.COM1)
    {
        Name (_HID, EisaId (\"PNP0501\"))
        Name (_CRS, ResourceTemplate ()
        {
            IO (Decode16, 0x03F8, 0x03F8, 0x01, 0x08, )
            IRQ (Edge, ActiveHigh, Exclusive) {4}
        })
        Name (ADD_, Package (0x03)
        {
            0x10,
            \"a\\\"b\",
            Buffer (0x02)
            {
                0x01, 0x02
            }
        })
        Method (TEST, 2, Serialized)
        {
            If (LEqual (Arg0, 0x12345678))
            {
                Return (EXTM (Arg0, Add (Arg1, Ones)))
            }
            Else
            {
                Divide (Arg0, 0x0100, , Local0)
                Store (Local0, BYTE)
                \\_SB.COM1.NEXT ()
            }
            Return (Zero)
        }
        Method (NEXT, 0, NotSerialized)
        {
        }
    }
}
";

// EXTM takes two arguments.
fn stated(alloc: Global) -> Result<Arities, ReadError> {
    let name = NameString::new(alloc, "EXTM")?;
    let counts = vec![in alloc; (name, 2)]?;
    Arities::new(counts)
}

#[test]
fn block(rt: HostRuntime) -> Result<(), Fail> {
    let arities = stated(rt.alloc())?;
    let terms = standard_terms(&BLOCK[36..], &arities)?;
    let text = asl_of(rt.alloc(), BLOCK, &terms)?;
    same(text.as_bytes(), TEXT.as_bytes())
}
