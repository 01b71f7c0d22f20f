//! Puts and what they are to answer.
use crate::tested::Tested;
use memory::data::Datum;
use memory::faults::MemoryFault;
use memory::faults::MemoryFault::{NoFreePage, Outside};
use memory::memories::Memory;
use std::process::Abort;

/// A put's address and datum, what it is to answer, and why.
#[derive(Clone, Copy)]
pub(crate) struct Put(
    pub u32,
    pub Datum,
    pub Result<(), MemoryFault>,
    pub &'static str,
);

// Only these tests ask for it, so it is no `From` of the memory's.
fn value(datum: Datum) -> u32 {
    match datum {
        Datum::Byte(byte) => u32::from(byte),
        Datum::Long(number) => number,
    }
}

impl<R: Abort, M: Memory> Tested<'_, R, M> {
    // What stands where a datum was or is to be put.
    fn there(&self, at: u32, datum: Datum) -> Result<u32, MemoryFault> {
        match datum {
            Datum::Byte(_) => self.memory.read(at).map(u32::from),
            Datum::Long(_) => self.memory.read_long(at),
        }
    }

    /// Makes the puts one after another. What is granted is read back, and a refusal leaves what it was to write over.
    pub(crate) fn puts(&mut self, cases: &[Put]) {
        let (rt, name) = (self.rt, self.name);
        for Put(at, datum, expected, why) in cases {
            let before = self.there(*at, *datum);
            let after = match *expected {
                Ok(()) => Ok(value(*datum)),
                Err(Outside(address)) => Err(Outside(address)),
                Err(NoFreePage(_)) => before,
            };
            assert_eq!(rt; self.memory.put(*at, *datum), *expected, "{name}: {}", *why);
            assert_eq!(rt; self.there(*at, *datum), after, "{name}: {}", *why);
        }
    }

    /// Each byte is 0, but for the one at `but`.
    pub(crate) fn zeros(&self, but: Option<(u32, u8)>) {
        let (rt, name) = (self.rt, self.name);
        for address in 0..self.memory.size() {
            let wanted = match but {
                Some((at, byte)) if at == address => byte,
                _ => 0,
            };
            assert_eq!(rt;
                self.memory.read(address),
                Ok(wanted),
                "{name}: the byte at {address}"
            );
        }
    }
}
