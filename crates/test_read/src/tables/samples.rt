//! A table of each signature that has structures. `cases/tables.cases` and `cases/structures.cases` have tables with the same
//! structures, and their reports.

use acpi_base::error::R;
use std::alloc::Global;
use test_support::table::table;

/// A table: its bytes after the header; the offset of the field with the number of its structures, or 0; the offset of the field
/// with the offset of its first structure, if `pieces` doesn't walk the table, or 0; the offsets of its first structure, of its
/// fields and structures, and of its end.
#[derive(Clone, Copy)]
pub struct Sample {
    pub signature: &'static [u8; 4],
    pub body: &'static [u8],
    pub count: usize,
    pub first: usize,
    pub start: usize,
    pub seams: &'static [usize],
}

impl Sample {
    /// Whether `pieces` walks the table. Otherwise only `structures` does.
    pub fn has_pieces(&self) -> bool {
        self.first == 0
    }

    /// The whole table.
    pub fn bytes(&self, alloc: Global) -> R<Vec<u8>> {
        table(alloc, self.signature, 1, &[self.body])
    }
}

/// The number of signatures.
pub const COUNT: usize = 15;

/// A table of each of these signatures.
pub fn nth(index: usize) -> Sample {
    match index {
        0 => Sample {
            signature: b"XSDT",
            body: b"\x11\x12\x13\x14\x15\x16\x17\x18\0\0\0\0\0\0\0\0",
            count: 0,
            first: 0,
            start: 36,
            seams: &[36, 44, 52],
        },
        1 => Sample {
            signature: b"MCFG",
            body: b"\0\0\0\0\0\0\0\0\x11\x12\x13\x14\x15\x16\x17\x18\x21\x22\x31\x32\0\0\0\0\
\xff\xff\xff\xff\xff\xff\xff\xff\xff\xff\xff\xff\0\0\0\0",
            count: 0,
            first: 0,
            start: 44,
            seams: &[36, 44, 60, 76],
        },
        // An I/O APIC, a local APIC, and a structure of an unknown type that is only its type and its length.
        2 => Sample {
            signature: b"APIC",
            body: b"\0\0\xe0\xfe\0\0\0\0\x01\x0c\x05\0\0\0\xc0\xfe\x18\0\0\0\0\x08\x07\x06\x01\0\0\0\xfe\x02",
            count: 0,
            first: 0,
            start: 44,
            seams: &[36, 44, 56, 64, 66],
        },
        // An AER bridge, an AER device, a generic source, one of the second version, and an AER root port.
        3 => Sample {
            signature: b"HEST",
            body: b"\x05\0\0\0\x08\0\0\0\0\0\x02\0\x01\0\0\0\x02\0\0\0\0\0\0\0\0\0\0\0\x11\x12\0\0\
\x21\x22\x23\x24\x25\x26\x27\x28\x29\x2a\x2b\x2c\x2d\x2e\x2f\x30\x31\x32\x33\x34\x35\x36\x37\x38\x39\x3a\x3b\x3c\
\x07\0\0\0\0\0\x02\0\x01\0\0\0\x02\0\0\0\0\0\0\0\0\0\0\0\x11\x12\0\0\
\x21\x22\x23\x24\x25\x26\x27\x28\x29\x2a\x2b\x2c\x2d\x2e\x2f\x30\
\x09\0\x03\0\xff\xff\0\x01\x01\0\0\0\x02\0\0\0\0\x10\0\0\0\x40\0\x04\x11\x12\x13\x14\x15\x16\x17\x18\
\x03\x1c\0\0\0\0\0\0\0\0\0\0\0\0\0\0\0\0\0\0\0\0\0\0\0\0\0\0\0\x20\0\0\
\x0a\0\x04\0\xff\xff\0\x01\x01\0\0\0\x02\0\0\0\0\x10\0\0\0\x40\0\x04\x11\x12\x13\x14\x15\x16\x17\x18\
\x03\x1c\0\0\0\0\0\0\0\0\0\0\0\0\0\0\0\0\0\0\0\0\0\0\0\0\0\0\0\x20\0\0\
\0\x40\0\x04\x21\x22\x23\x24\x25\x26\x27\x28\x01\0\0\0\0\0\0\0\x02\0\0\0\0\0\0\0\
\x06\0\0\0\0\0\x02\0\x01\0\0\0\x02\0\0\0\0\0\0\0\0\0\0\0\x11\x12\0\0\
\x21\x22\x23\x24\x25\x26\x27\x28\x29\x2a\x2b\x2c\x2d\x2e\x2f\x30\x31\x32\x33\x34",
            count: 36,
            first: 0,
            start: 40,
            seams: &[36, 40, 96, 140, 204, 296, 344],
        },
        // A memory affinity and a RISC-V hart's.
        4 => Sample {
            signature: b"SRAT",
            body: b"\x01\0\0\0\0\0\0\0\0\0\0\0\x01\x28\x01\x02\x03\x04\0\0\x11\x12\x13\x14\x15\x16\x17\x18\
\x21\x22\x23\x24\x25\x26\x27\x28\0\0\0\0\x05\0\0\0\0\0\0\0\0\0\0\0\
\x07\x14\0\0\0\0\0\0\x42\x37\x58\xde\x01\0\0\0\x42\x37\x58\xde",
            count: 0,
            first: 0,
            start: 48,
            seams: &[36, 48, 88, 108],
        },
        // A host bridge, and port associations of 17 bytes and of 16.
        5 => Sample {
            signature: b"CEDT",
            body: b"\0\0\x20\0\xef\xcd\0\0\x01\0\0\0\0\0\0\0\x78\x56\x34\x12\x08\0\0\0\0\0\x01\0\0\0\0\0\
\x03\0\x11\0\0\x01\xff\xfe\x01\xef\xcd\xab\x90\x78\x56\x34\x12\
\x03\0\x10\0\0\x01\xff\xfe\x01\xef\xcd\xab\x90\x78\x56\x34",
            count: 0,
            first: 0,
            start: 36,
            seams: &[36, 68, 85, 101],
        },
        // A cache, and a processor with this cache.
        6 => Sample {
            signature: b"PPTT",
            body: b"\x01\x1c\0\0\x41\0\0\0\0\0\0\0\0\x80\0\0\0\0\0\0\0\0\x40\0\0\0\0\0\
\0\x18\0\0\x02\0\0\0\0\0\0\0\x05\0\0\0\x01\0\0\0\x24\0\0\0",
            count: 0,
            first: 0,
            start: 36,
            seams: &[36, 64, 88],
        },
        // An ISA string, a node of cache operations, and a hart with both.
        7 => Sample {
            signature: b"RHCT",
            body: b"\0\0\0\0\x80\x96\x98\0\0\0\0\0\x03\0\0\0\x38\0\0\0\0\0\x10\0\x01\0\x07\0foobar\0\0\
\x01\0\x0a\0\x01\0\0\x06\x05\x04\xff\xff\x14\0\x01\0\x02\0\x03\0\0\0\x38\0\0\0\x48\0\0\0",
            count: 48,
            first: 0,
            start: 56,
            seams: &[36, 56, 72, 82, 102],
        },
        // An IOMMU, and a range of devices that use it.
        8 => Sample {
            signature: b"VIOT",
            body: b"\x02\0\x30\0\0\0\0\0\0\0\0\0\x03\0\x10\0\x01\x02\xf6\xfe\0\0\0\0\0\0\0\0\
\x01\0\x18\0\x25\x03\0\0\x01\x02\x07\x08\x25\x03\xff\xff\x30\0\0\0\0\0\0\0",
            count: 36,
            first: 0,
            start: 48,
            seams: &[36, 48, 64, 88],
        },
        // An IOMMU with four wires, and a root complex with two mappings to it.
        9 => Sample {
            signature: b"RIMT",
            body: b"\x02\0\0\0\x30\0\0\0\0\0\0\0\
\0\x01\x40\0\x01\0\0\0\0\0\0\0\0\0\0\0\x03\0\0\0\x05\0\x3f\x06\x0f\0\0\0\x04\0\x20\0\
\x01\0\0\0\x01\0\x01\0\x02\0\0\0\x02\0\x02\0\x03\0\0\0\x03\0\x03\0\x04\0\0\0\0\0\x04\0\
\x01\x01\x38\0\x01\0\x01\0\x03\0\0\0\x10\0\x02\0\
\x01\0\0\0\x02\0\0\0\x0a\0\0\0\x30\0\0\0\x03\0\0\0\x02\0\0\0\x03\0\0\0\x05\0\0\0\x30\0\0\0\x04\0\0\0",
            count: 36,
            first: 0,
            start: 48,
            seams: &[36, 48, 112, 168],
        },
        // A controller of capacity, and one of bandwidth with a cache.
        10 => Sample {
            signature: b"RQSC",
            body: b"\x02\0\0\0\0\0\x1c\0\0\x40\0\x04\x11\x12\x13\x14\x15\x16\x17\x18\x01\x02\x03\x04\x05\x06\x07\x08\0\0\0\0\
\x01\0\x30\0\0\x40\0\x04\x21\x22\x23\x24\x25\x26\x27\x28\x01\x02\x03\x04\x05\x06\x07\x08\0\0\x01\0\
\0\0\x14\0\0\0\0\0\x31\x32\x33\x34\0\0\0\0\0\0\0\0",
            count: 36,
            first: 0,
            start: 40,
            seams: &[36, 40, 68, 116],
        },
        // The memory of a domain, and its memory side cache.
        11 => Sample {
            signature: b"HMAT",
            body: b"\0\0\0\0\0\0\0\0\x28\0\0\0\x01\0\0\0\x01\x02\x03\x04\x05\x06\x07\x08\
\0\0\0\0\0\0\0\0\0\0\0\0\0\0\0\0\0\0\0\0\
\x02\0\0\0\x22\0\0\0\x78\x56\x34\x12\0\0\0\0\x78\x56\x34\x12\xef\xcd\xab\x90\x23\x11\x40\0\0\0\x01\0\x11\x12",
            count: 0,
            first: 0,
            start: 40,
            seams: &[36, 40, 80, 114],
        },
        // Timers, a block of one timer, and a watchdog.
        12 => Sample {
            signature: b"GTDT",
            body: b"\xff\xff\xff\xff\xff\xff\xff\xff\0\0\0\0\x1d\0\0\0\0\0\0\0\x1e\0\0\0\0\0\0\0\x1b\0\0\0\0\0\0\0\
\x1a\0\0\0\0\0\0\0\xff\xff\xff\xff\xff\xff\xff\xff\x02\0\0\0\x68\0\0\0\0\0\0\0\0\0\0\0\
\0\x3c\0\0\x11\x12\x13\x14\x15\x16\x17\x18\x01\0\0\0\x14\0\0\0\
\0\0\0\0\0\0\0\0\0\0\0\0\0\0\0\0\0\0\0\0\0\0\0\0\0\0\0\0\0\0\0\0\0\0\0\0\0\0\0\0\
\x01\x1c\0\0\x21\x22\x23\x24\x25\x26\x27\x28\x31\x32\x33\x34\x35\x36\x37\x38\x05\0\0\0\x01\0\0\0",
            count: 88,
            first: 92,
            start: 104,
            seams: &[36, 104, 164, 192],
        },
        // A serial port with a register, and one without.
        13 => Sample {
            signature: b"DBG2",
            body: b"\x2c\0\0\0\x02\0\0\0\
\0\x28\0\x01\x02\0\x26\0\0\0\0\0\0\x80\x03\0\0\0\x16\0\x22\0\0\x20\0\x03\0\0\0\x09\0\0\0\0\0\x10\0\0.\0\
\0\x18\0\0\x02\0\x16\0\0\0\0\0\0\x80\0\0\0\0\0\0\0\0.\0",
            count: 40,
            first: 36,
            start: 44,
            seams: &[36, 44, 84, 108],
        },
        // An ITS group, and a counter group of this node.
        _ => Sample {
            signature: b"IORT",
            body: b"\x02\0\0\0\x30\0\0\0\0\0\0\0\
\0\x18\0\x01\0\0\0\0\0\0\0\0\0\0\0\0\x01\0\0\0\x05\0\0\0\
\x05\x28\0\x02\x01\0\0\0\0\0\0\0\0\0\0\0\x11\x12\x13\x14\x15\x16\x17\x18\x21\0\0\0\x30\0\0\0\
\x31\x32\x33\x34\x35\x36\x37\x38",
            count: 36,
            first: 40,
            start: 48,
            seams: &[36, 48, 72, 112],
        },
    }
}
