//! Calls that are made again when they were refused memory.

ghost use Rattle.std.specs.Prelude.{◌≡◌, OnOk};

use crate::fault::Fault;
use acpi_tables::aml::ZERO;
use acpi_tables::{Aml, Error, R};
use std::alloc::Global;

// The room that is reserved for bytes. No object here writes more, so writing one takes no memory.
const ROOM: usize = 0x1000;

// The number of calls by which an object grows in one way. They move its bytes more than once.
const TURNS: u8 = 5;

/// The result of a call that returns a handle, without it.
pub fn done<T: Drop>(added: R<T>) -> R<()> {
    added?;
    Ok(())
}

/// An object that grows, in one or more ways.
pub trait Grows: Sized {
    const WAYS: u8;

    /// The object before it grows.
    fn empty(alloc: Global) -> R<Self>;

    /// Makes the arguments of one call, and makes the call.
    fn grow(&mut self, alloc: Global, way: u8) -> R<()>;
}

/// The number of bytes that all calls made, their sum, and the number of calls that returned that memory ran out.
#[derive(Drop)]
pub struct Tally {
    pub length: u64,
    pub sum: u64,
    pub refusals: u64,
}

impl Tally {
    fn count(&mut self, bytes: &[u8]) {
        self.length = self.length.wrapping_add(bytes.len() as u64);
        for byte in bytes {
            self.sum = self.sum.wrapping_add(u64::from(*byte));
        }
    }

    fn refuse(&mut self) {
        self.refusals = self.refusals.wrapping_add(1);
    }
}

/// The tally of all calls, and room for the bytes that an object writes before a call and after it.
#[derive(Drop)]
pub struct Trial {
    pub tally: Tally,
    before: Vec<u8>,
    after: Vec<u8>,
}

// Asks for room, and asks again if it was refused.
fn room(alloc: Global, tally: &mut Tally) -> R<Vec<u8>> {
    match Vec::with_capacity(alloc, ROOM) {
        Ok(room) => Ok(room),
        Err(_) => {
            tally.refuse();
            Ok(Vec::with_capacity(alloc, ROOM)?)
        }
    }
}

// Fails if bytes changed.
fn compare(before: &[u8], after: &[u8]) -> Result<(), Fault>
    ensures { OnOk result (before.now ≡ after.now) }
{
    if before == after {
        Ok(())
    } else {
        Err(Fault::Changed)
    }
}

impl Trial {
    pub fn new(alloc: Global) -> R<Trial> {
        let mut tally = Tally {
            length: 0,
            sum: 0,
            refusals: 0,
        };
        let before = room(alloc, &mut tally)?;
        let after = room(alloc, &mut tally)?;
        Ok(Trial {
            tally,
            before,
            after,
        })
    }

    /// Counts bytes that were made.
    pub fn count(&mut self, bytes: &[u8]) {
        self.tally.count(bytes);
    }

    /// Makes a call that borrows an object. If it is refused memory, the object has to write the same bytes as before, and the
    /// call is made again. The call makes its other arguments itself.
    pub fn make<T: Drop, F: Fn() -> Result<T, Fault>>(
        &mut self,
        lent: &dyn Aml,
        call: F,
    ) -> Result<T, Fault>
        requires { F.IsAlwaysCallable call }
    {
        self.before.clear();
        lent.to_aml_bytes(&mut self.before)?;
        match call() {
            Err(Fault::Memory) => self.tally.refuse(),
            other => return other,
        }
        self.after.clear();
        lent.to_aml_bytes(&mut self.after)?;
        compare(&self.before, &self.after)?;
        call()
    }

    /// Makes a call that changes an object, which `write` writes. If it is refused memory, the object has to write the same bytes
    /// as before, and the call is made again.
    pub fn change<T, W: Fn(&T, &mut Vec<u8>) -> R<()>, F: Fn(&mut T) -> R<()>>(
        &mut self,
        object: &mut T,
        write: W,
        call: F,
    ) -> Result<(), Fault>
        requires writes { W.IsAlwaysCallable write }
        requires calls { F.IsAlwaysCallable call }
    {
        self.before.clear();
        write(object, &mut self.before)?;
        match call(object) {
            Err(Error::Memory) => self.tally.refuse(),
            other => return Ok(other?),
        }
        self.after.clear();
        write(object, &mut self.after)?;
        compare(&self.before, &self.after)?;
        Ok(call(object)?)
    }

    /// Makes bytes by this many calls that borrow an object, and counts them.
    pub fn all<F: Fn(u8) -> R<Vec<u8>>>(
        &mut self,
        lent: &dyn Aml,
        calls: u8,
        call: F,
    ) -> Result<(), Fault>
        requires { F.IsAlwaysCallable call }
    {
        for number in 0..calls {
            let bytes = self.make(lent, || Ok(call(number)?))?;
            self.count(&bytes);
        }
        Ok(())
    }

    /// Counts the bytes of an object that grew five times from empty, once for each of its ways.
    pub fn fill<T: Grows + Aml + Drop>(&mut self, alloc: Global) -> Result<(), Fault> {
        for way in 0..T::WAYS {
            let mut object = self.make(&ZERO, || Ok(T::empty(alloc)?))?;
            self.grow(&mut object, alloc, way)?;
        }
        Ok(())
    }

    fn grow<T: Grows + Aml>(
        &mut self,
        object: &mut T,
        alloc: Global,
        way: u8,
    ) -> Result<(), Fault> {
        for _ in 0..TURNS {
            self.change(
                object,
                |object: &T, bytes: &mut Vec<u8>| object.to_aml_bytes(bytes),
                |object: &mut T| object.grow(alloc, way),
            )?;
        }
        self.count_object(object)
    }

    /// Counts an object's bytes.
    pub fn count_object<T: Aml>(&mut self, object: &T) -> Result<(), Fault> {
        self.before.clear();
        object.to_aml_bytes(&mut self.before)?;
        self.tally.count(&self.before);
        Ok(())
    }
}
