//! A sink with little room, and objects that are written to it.

ghost use Rattle.std.specs.Prelude.{◌≡◌, All, Err, IsOkAnd, OnOk};
ghost use Rattle.acpi_base.specs.declared.error.Error.TheVariants.{Sink};
ghost use Rattle.test_refusals.specs.Short.{IsOfSize, short_of, short_takes_nothing, short_takes_beginning};

use acpi_base::buffer::append_value;
use acpi_tables::{Aml, AmlSink, Error, R};
use std::alloc::Global;
use std::test::Fail;
use test_support::{equal, refuses, same, written};

/// Takes as many bytes as it has room for, and returns an error at the next.
#[derive(Drop)]
pub struct Short {
    held: Vec<u8>,
    room: usize,
}

impl AmlSink for Short {
    ghost meaning = { λ s. short_of s.held.items s.room };

    ghost takes_nothing = { λ s. short_takes_nothing s.held.items s.room };

    ghost takes_beginning = { λ s. short_takes_beginning s.held.items s.room };

    #[tactic(auto, unfolding(crate::specs::Short::short_of))]
    fn byte(&mut self, byte: u8) -> R<()> {
        if self.room == 0 {
            return Err(Error::Sink(7));
        }
        self.held.push(byte)?;
        self.room -= 1;
        Ok(())
    }
}

impl Short {
    pub fn new(alloc: Global, room: usize) -> Short {
        Short {
            held: Vec::new(alloc),
            room,
        }
    }

    /// Fails unless the call ended with this sink's error, and the sink has the prefix that it had room for.
    pub fn is_full(&self, beginning: &[u8], end: R<()>) -> Result<(), Fail>
        ensures refused { OnOk result (end ≡ Err (Sink 7)) }
        ensures held { OnOk result (self.now.held.items ≡ beginning.now) }
    {
        refuses(end, Error::Sink(7))?;
        same(&self.held, beginning)
    }
}

/// Writes an object of this size to sinks that have room for a part of it.
pub fn starve(alloc: Global, size: usize, aml: &dyn Aml) -> Result<(), Fail>
    ensures { OnOk result (IsOfSize size (object aml.now)) }
{
    let whole = written(alloc, aml)?;
    equal(&whole.len(), &size)?;
    for room in 0..whole.len() {
        let mut short = Short::new(alloc, room);
        let end = aml.to_aml_bytes(&mut short);
        short.is_full(&whole[..room], end)?;
    }
    Ok(())
}

/// Writes an object of a known type, which a constructor made, to such sinks.
pub fn starve_made<T: Aml + Drop>(alloc: Global, size: usize, made: R<T>) -> Result<(), Fail>
    ensures { OnOk result (IsOkAnd made (λ value. IsOfSize size (T.object value))) }
{
    let value = made?;
    let mut whole = Vec::new(alloc);
    append_value(&value, &mut whole)?;
    equal(&whole.len(), &size)?;
    for room in 0..whole.len() {
        let mut short = Short::new(alloc, room);
        let end = value.to_aml_bytes(&mut short);
        short.is_full(&whole[..room], end)?;
    }
    Ok(())
}

/// Writes each of these objects, whose sizes are given.
pub fn starve_all(alloc: Global, rows: &[(usize, &dyn Aml)]) -> Result<(), Fail>
    ensures { OnOk result (All (λ row. IsOfSize row.0 (object row.1.now)) rows.now) }
{
    for (size, aml) in rows {
        starve(alloc, *size, *aml)?;
    }
    Ok(())
}

// Makes each call of a sink in turn, with the bytes from 1 to 18.
fn give(sink: &mut Short) -> R<()> {
    sink.byte(1)?;
    sink.word(0x0302)?;
    sink.dword(0x0706_0504)?;
    sink.qword(0x0f0e_0d0c_0b0a_0908)?;
    sink.vec(&[16, 17, 18])
}

#[test]
fn calls(rt: HostRuntime) -> Result<(), Fail> {
    let alloc = rt.alloc();
    let whole = [
        1, 2, 3, 4, 5, 6, 7, 8, 9, 10, 11, 12, 13, 14, 15, 16, 17, 18,
    ];
    for room in 0..18 {
        let mut short = Short::new(alloc, room);
        let end = give(&mut short);
        short.is_full(&whole[..room], end)?;
    }
    Ok(give(&mut Short::new(alloc, 18))?)
}
