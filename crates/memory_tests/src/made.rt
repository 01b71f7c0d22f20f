//! The memories that are tested.
use memory::flat::Flat;
use memory::paged::Paged;
use std::alloc::{AllocError, Global};

/// A flat memory, each byte of whose buffer is `byte`.
pub(crate) fn flat(heap: Global, size: usize, byte: u8) -> Result<Flat, AllocError> {
    Ok(Flat::new(vec![in heap; byte; size]?))
}

/// A paged memory over frames that are full of ones, which are to play no part.
pub(crate) fn paged(heap: Global, size: u32, frames: usize) -> Result<Paged, AllocError> {
    Ok(Paged::new(size, vec![in heap; [0xff; 256]; frames]?))
}
