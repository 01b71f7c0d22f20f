//! The rules of a memory once more, in the plainest code: byte by byte.
use memory::data::Datum;
use memory::faults::MemoryFault;
use memory::faults::MemoryFault::{NoFreePage, Outside};
use std::alloc::{AllocError, Global};

/// Every byte, a mark for each page, and how many pages are free.
#[derive(Drop)]
pub(crate) struct Model {
    bytes: Vec<u8>,
    held: Vec<bool>,
    free: usize,
}

impl Model {
    pub(crate) fn new(
        heap: Global,
        size: u32,
        byte: u8,
        held: bool,
        free: usize,
    ) -> Result<Model, AllocError> {
        let size = size as usize;
        Ok(Model {
            bytes: vec![in heap; byte; size]?,
            held: vec![in heap; held; size / 256]?,
            free,
        })
    }

    pub(crate) fn read(&self, at: u32) -> Result<u8, MemoryFault> {
        let byte = self.bytes.get(at as usize);
        byte.copied().ok_or(Outside(at))
    }

    pub(crate) fn read_long(&self, at: u32) -> Result<u32, MemoryFault> {
        let start = at as usize;
        let bytes = self.bytes.get(start..start + 4).ok_or(Outside(at))?;
        let number = |high: u32, byte: &u8| high << 8 | u32::from(*byte);
        Ok(bytes.iter().rev().fold(0, number))
    }

    pub(crate) fn put(&mut self, at: u32, datum: Datum) -> Result<(), MemoryFault> {
        match datum {
            Datum::Byte(byte) => self.put_all(at, &[byte]),
            Datum::Long(number) => self.put_all(at, &number.to_le_bytes()),
        }
    }

    fn put_all(&mut self, at: u32, parts: &[u8]) -> Result<(), MemoryFault> {
        let start = at as usize;
        let end = start.saturating_add(parts.len());
        if end > self.bytes.len() {
            return Err(Outside(at));
        }
        if self.lacking(start, end) > self.free {
            return Err(NoFreePage(at));
        }
        for (place, part) in (start..end).zip(parts) {
            self.hold(place / 256);
            if let Some(byte) = self.bytes.get_mut(place) {
                *byte = *part;
            }
        }
        Ok(())
    }

    // How many pages with a byte in the range are not held: each is counted at its first byte there.
    fn lacking(&self, start: usize, end: usize) -> usize {
        let first = |place: &usize| *place == start || *place % 256 == 0;
        let pages = (start..end).filter(first).map(|place| place / 256);
        pages
            .filter(|page| self.held.get(*page) == Some(&false))
            .count()
    }

    fn hold(&mut self, page: usize) {
        if let Some(held) = self.held.get_mut(page) {
            if !*held {
                *held = true;
                self.free = self.free.saturating_sub(1);
            }
        }
    }
}
