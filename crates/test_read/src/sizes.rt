//! The widths in lines of large frames, at each threshold.

use crate::terms::{begins, read};
use std::alloc::Global;
use std::test::Fail;

// Sizes, lengths that count themselves and this many bytes (ACPI 6.5, 20.2.4), and the end of the line of such a frame.
type Lengths = &'static [(usize, &'static [u8], &'static str)];

// A length of two bytes counts 4,093 bytes besides itself.
const LENGTHS: Lengths = &[
    (4092, b"\x4e\xff", "\n"),
    (4092, b"\x8f\xff\x00", " width 3\n"),
    (4092, b"\xc0\x00\x01\x00", " width 4\n"),
    (4093, b"\x4f\xff", "\n"),
    (4093, b"\x80\x00\x01", " width 3\n"),
    (4093, b"\xc1\x00\x01\x00", " width 4\n"),
    (4094, b"\x81\x00\x01", "\n"),
    (4094, b"\xc2\x00\x01\x00", " width 4\n"),
];

// A length of three bytes counts 1,048,572 bytes besides itself.
const LARGE: Lengths = &[
    (1_048_572, b"\x8f\xff\xff", "\n"),
    (1_048_572, b"\xc0\x00\x00\x01", " width 4\n"),
    (1_048_573, b"\xc1\x00\x00\x01", "\n"),
];

// Fails unless the report of a frame begins with this line and this end. The frame has an opcode, a length and as many bytes as
// stated: these bytes, then equal ones, and then a zero.
fn is_told<'a>(
    alloc: Global,
    code: &'a [u8],
    length: &'a [u8],
    before: &'a [u8],
    byte: u8,
    size: usize,
    line: &'a str,
    end: &'a str,
) -> Result<(), Fail> {
    let own = before.len().saturating_add(1);
    let fill = [byte].repeat(alloc, size.saturating_sub(own))?;
    let bytes = [code, length, before, fill.as_slice(), b"\0"].concat(alloc)?;
    begins(alloc, &read(alloc, &bytes)?, &[line, end].concat(alloc)?)
}

#[test]
fn frames(rt: HostRuntime) -> Result<(), Fail> {
    let rows: &[(&[u8], &[u8], &str)] = &[
        (b"\x10", b"\\_SB_\x0d", "scope \\_SB_"),
        (b"\x5b\x82", b"\x2e_SB_COM1\x0d", "device _SB_.COM1"),
        (
            b"\x14",
            b"\x2f\x03AAAABBBBCCCC\x0a\x0d",
            "method AAAA.BBBB.CCCC args 2 serialized 1",
        ),
        (
            b"\x5b\x84",
            b"PWR0\x01\x02\x00\x0d",
            "power PWR0 level 1 order 2",
        ),
        (b"\x11", b"\x0d", "buffer data"),
        (b"\x12", b"\x01\x0d", "package 1"),
        (b"\x13", b"\x0c\x02\x01\x00\x00\x0d", "varpackage"),
        (b"\xa0", b"\x0a\x02\x0d", "if"),
        (b"\xa2", b"\x0e\x02\0\0\0\0\0\0\0\x0d", "while"),
        (b"\xa1", b"\x0d", "else"),
    ];
    for (code, before, line) in rows {
        for (size, length, end) in LENGTHS {
            is_told(rt.alloc(), code, length, before, b'a', *size, line, end)?;
        }
    }
    Ok(())
}

// Entries of no bits are two zeros each. If their bytes are odd, a named entry is before them.
#[test]
fn fields(rt: HostRuntime) -> Result<(), Fail> {
    let line = "field REGS access 1 lock 0 update 0";
    for (size, length, end) in LENGTHS {
        let before: &[u8] = if size % 2 == 1 {
            b"REGS\x01"
        } else {
            b"REGS\x01AAAA\x01"
        };
        is_told(rt.alloc(), b"\x5b\x81", length, before, 0, *size, line, end)?;
    }
    Ok(())
}

#[test]
fn large_frames(rt: HostRuntime) -> Result<(), Fail> {
    for (size, length, end) in LARGE {
        is_told(
            rt.alloc(),
            b"\xa1",
            length,
            b"\x0d",
            b'a',
            *size,
            "else",
            end,
        )?;
    }
    Ok(())
}
