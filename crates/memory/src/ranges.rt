//! Bytes in a row: written into any memory, and copied out of one.
ghost use Rattle.std.specs.Prelude.{◌≡◌};
ghost use Rattle.memory.specs.Ranges.{write_of, copy_of};

use crate::data::Datum;
use crate::faults::MemoryFault;
use crate::memories::Memory;

/// Puts bytes one by one from `base` on. A refusal ends it, and the bytes before it stay put.
pub fn write<M: Memory>(memory: &mut M, base: u32, bytes: &[u8]) -> Result<(), MemoryFault>
    ensures { (result, M.meaning memory.new) ≡ write_of (M.meaning memory.old) base bytes.now }
{
    for (i, byte) in bytes.iter().enumerate() {
        let at = base + i as u32;
        memory.put(at, Datum::Byte(*byte))?;
    }
    Ok(())
}

/// Fills a buffer with the bytes from `base` on. The first byte outside is refused; those before it are in the buffer then,
/// and the rest of it is as it was.
pub fn copy<M: Memory>(memory: &M, base: u32, buffer: &mut [u8]) -> Result<(), MemoryFault>
    ensures { (result, buffer.new) ≡ copy_of (M.meaning memory.now) base buffer.old }
{
    for (i, byte) in buffer.iter_mut().enumerate() {
        let at = base + i as u32;
        *byte = memory.read(at)?;
    }
    Ok(())
}
