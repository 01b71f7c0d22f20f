//! What is measured: a memory through its trait, and plain bytes.
use memory::data::Datum;
use memory::faults::MemoryFault;
use memory::memories::Memory;

/// Bytes that can be read and put, one and four at a time.
pub(crate) trait Store {
    fn read(&self, at: u32) -> Result<u8, MemoryFault>;

    fn read_long(&self, at: u32) -> Result<u32, MemoryFault>;

    fn put(&mut self, at: u32, byte: u8) -> Result<(), MemoryFault>;

    fn put_long(&mut self, at: u32, number: u32) -> Result<(), MemoryFault>;
}

/// A memory, whichever it is.
#[derive(Drop)]
pub(crate) struct Proved<M>(pub M);

impl<M: Memory> Store for Proved<M> {
    fn read(&self, at: u32) -> Result<u8, MemoryFault> {
        self.0.read(at)
    }

    fn read_long(&self, at: u32) -> Result<u32, MemoryFault> {
        self.0.read_long(at)
    }

    fn put(&mut self, at: u32, byte: u8) -> Result<(), MemoryFault> {
        self.0.put(at, Datum::Byte(byte))
    }

    fn put_long(&mut self, at: u32, number: u32) -> Result<(), MemoryFault> {
        self.0.put(at, Datum::Long(number))
    }
}

/// What a programmer would write who has a buffer and no pages: a test of the bounds, and the access.
// By index: with `get_mut` a put of a byte takes six times as long.
#[derive(Drop)]
pub(crate) struct Plain(pub Vec<u8>);

impl Store for Plain {
    fn read(&self, at: u32) -> Result<u8, MemoryFault> {
        let start = at as usize;
        if start >= self.0.len() {
            return Err(MemoryFault::Outside(at));
        }
        Ok(self.0[start])
    }

    fn read_long(&self, at: u32) -> Result<u32, MemoryFault> {
        let start = at as usize;
        match self.0.get(start..start + 4) {
            Some([b0, b1, b2, b3]) => Ok(u32::from_le_bytes([*b0, *b1, *b2, *b3])),
            _ => Err(MemoryFault::Outside(at)),
        }
    }

    fn put(&mut self, at: u32, byte: u8) -> Result<(), MemoryFault> {
        let start = at as usize;
        if start >= self.0.len() {
            return Err(MemoryFault::Outside(at));
        }
        self.0[start] = byte;
        Ok(())
    }

    fn put_long(&mut self, at: u32, number: u32) -> Result<(), MemoryFault> {
        let start = at as usize;
        if start + 4 > self.0.len() {
            return Err(MemoryFault::Outside(at));
        }
        let [b0, b1, b2, b3] = number.to_le_bytes();
        self.0[start] = b0;
        self.0[start + 1] = b1;
        self.0[start + 2] = b2;
        self.0[start + 3] = b3;
        Ok(())
    }
}
