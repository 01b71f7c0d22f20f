//! The trait that the machine is written over. It says how a memory is read and written, and nothing of how one is made.
ghost use Rattle.std.specs.Prelude.{◌≡◌};
ghost use Rattle.memory.specs.Access.{read_of, read_long_of, put_of};
ghost use Rattle.memory.specs.Data.{parts};
ghost use Rattle.memory.specs.Meaning.{Meaning, Valid};

use crate::data::Datum;
use crate::faults::MemoryFault;

/// Bytes in pages of 256, some of them held: the others are zeros, and a put that touches one needs a free page.
pub trait Memory {
    ghost meaning: { Self → Meaning };

    /// How many bytes there are.
    fn size(&self) -> u32
        ensures { result ≡ (meaning self.now).size };

    /// The byte at an address.
    fn read(&self, address: u32) -> Result<u8, MemoryFault>
        ensures { result ≡ read_of (meaning self.now) address };

    /// The four bytes from an address on as a number, lowest first.
    fn read_long(&self, address: u32) -> Result<u32, MemoryFault>
        ensures { result ≡ read_long_of (meaning self.now) address };

    /// Writes a datum's bytes from an address on, lowest first, and holds the pages that they touch.
    fn put(&mut self, address: u32, datum: Datum) -> Result<(), MemoryFault>
        ensures { (result, meaning self.new) ≡ put_of (meaning self.old) address (parts datum) };

    ghost valid: { (x : Self) → Valid (meaning x) };
}
