//! Reads and puts of a flat memory.
ghost use Rattle.memory.specs.FlatView.{flat_view};
ghost use Rattle.memory.specs.ValidLemmas.{flat_valid};

use crate::data::Datum;
use crate::faults::MemoryFault;
use crate::flat::Flat;
use crate::little_endian::{lay, long};
use crate::memories::Memory;

impl Memory for Flat {
    ghost meaning = { flat_view };

    ghost valid = { λ x. flat_valid x.bytes.items x.fit x.octets };

    fn size(&self) -> u32 {
        if self.bytes.is_empty() {
            256
        } else {
            self.bytes.len() as u32
        }
    }

    fn read(&self, address: u32) -> Result<u8, MemoryFault> {
        let at = address as usize;
        if at < self.bytes.len() {
            Ok(self.bytes[at])
        } else if address < self.size() {
            Ok(0)
        } else {
            Err(MemoryFault::Outside(address))
        }
    }

    fn read_long(&self, address: u32) -> Result<u32, MemoryFault> {
        let at = address as usize;
        if at + 4 <= self.bytes.len() {
            Ok(long(self.bytes.as_slice(), at))
        } else if at + 4 <= self.size() as usize {
            Ok(0)
        } else {
            Err(MemoryFault::Outside(address))
        }
    }

    fn put(&mut self, address: u32, datum: Datum) -> Result<(), MemoryFault> {
        let at = address as usize;
        let end = at + datum.width();
        if end <= self.bytes.len() {
            lay(self.bytes.as_mut_slice(), at, datum);
            Ok(())
        } else if end <= self.size() as usize {
            Err(MemoryFault::NoFreePage(address))
        } else {
            Err(MemoryFault::Outside(address))
        }
    }
}
