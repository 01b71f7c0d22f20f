//! Reads and puts of a paged memory.
ghost use Rattle.std.specs.Prelude.{◌≡◌, ◌+◌, ◌%◌, ◌<◌, ◌≤◌, length};
ghost use Rattle.memory.specs.Access.{put_of};
ghost use Rattle.memory.specs.Data.{parts};
ghost use Rattle.memory.specs.PagedView.{paged_view};
ghost use Rattle.memory.specs.ValidLemmas.{paged_valid};

use crate::data::Datum;
use crate::faults::MemoryFault;
use crate::memories::Memory;
use crate::paged::Paged;

impl Paged {
    // A put that touches one page: one look-up.
    fn put_within(&mut self, address: u32, datum: Datum) -> Result<(), MemoryFault>
        requires inside { address + length (parts datum) ≤ (paged_view self.old).size }
        requires within { address % 256 + length (parts datum) ≤ 256 }
        ensures { (result, paged_view self.new) ≡ put_of (paged_view self.old) address (parts datum) }
    {
        let at = address as usize;
        let frame = self.hold(at / 256).ok_or(MemoryFault::NoFreePage(address))?;
        self.write(frame, at, datum);
        Ok(())
    }

    // A put of four bytes that touches two pages.
    fn put_across(&mut self, address: u32, number: u32) -> Result<(), MemoryFault>
        requires inside { address + 4 ≤ (paged_view self.old).size }
        requires across { 252 < address % 256 }
        ensures { (result, paged_view self.new) ≡ put_of (paged_view self.old) address (parts (Datum.Long number)) }
    {
        let at = address as usize;
        self.hold_both(at / 256)
            .ok_or(MemoryFault::NoFreePage(address))?;
        self.write_across(at, number);
        Ok(())
    }
}

impl Memory for Paged {
    ghost meaning = { paged_view };

    ghost valid = { λ x. paged_valid x.size x.table x.frames.items x.used x.fit x.pages x.mapped x.sound };

    fn size(&self) -> u32 {
        self.size
    }

    fn read(&self, address: u32) -> Result<u8, MemoryFault> {
        if address < self.size {
            Ok(self.byte(address as usize))
        } else {
            Err(MemoryFault::Outside(address))
        }
    }

    fn read_long(&self, address: u32) -> Result<u32, MemoryFault> {
        let at = address as usize;
        if at + 4 > self.size as usize {
            return Err(MemoryFault::Outside(address));
        }
        Ok(if at % 256 <= 252 {
            self.long_within(at)
        } else {
            self.long_across(at)
        })
    }

    // Inlined, so that a caller's own datum says which way a put goes.
    #[inline(always)]
    fn put(&mut self, address: u32, datum: Datum) -> Result<(), MemoryFault> {
        if address as usize + datum.width() > self.size as usize {
            return Err(MemoryFault::Outside(address));
        }
        match datum {
            Datum::Long(number) if address % 256 > 252 => self.put_across(address, number),
            _ => self.put_within(address, datum),
        }
    }
}
