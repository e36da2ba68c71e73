//! A table of more than 65,535 bytes.

use super::dsdt;
use acpi_tables::sdt::Sdt;
use std::test::Fail;
use test_support::{equal, same};

// Fails unless a table of 70,036 bytes takes four bytes inside and two at the end.
fn is_changed(table: &mut Sdt) -> Result<(), Fail> {
    if table.len() != 70_036 {
        return Err(Fail::new("another length"));
    }
    let start = b"DSDT\x94\x11\x01\0\x02\x0dFOOBAR";
    same(table.as_slice().get(..16).unwrap_or(&[]), start)?;
    table.write_u32(65_700, 0x0403_0201);
    equal(&table.as_slice().get(9), &Some(&0xaf))?;
    let written = table.as_slice().get(65_699..65_705).unwrap_or(&[]);
    same(written, &[0xab, 1, 2, 3, 4, 0xab])?;
    table.append(0x0809u16)?;
    let start = b"DSDT\x96\x11\x01\0\x02\x9cFOOBAR";
    same(table.as_slice().get(..16).unwrap_or(&[]), start)?;
    same(table.as_slice().get(70_035..).unwrap_or(&[]), &[0xab, 9, 8])
}

#[test]
fn past_two_bytes_of_length(rt: HostRuntime) -> Result<(), Fail> {
    let mut table = dsdt(rt.alloc())?;
    table.append_slice(&vec![in rt.alloc(); 0xabu8; 70_000]?)?;
    is_changed(&mut table)
}
