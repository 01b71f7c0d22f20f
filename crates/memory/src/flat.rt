//! A memory in one buffer, all of whose pages are held.
ghost use Rattle.memory.specs.Flats.{Kept};
ghost use Rattle.memory.specs.Meaning.{Octets};

pub mod access;
pub mod making;

/// Keeps the buffer that it is made of, or, where that is unfit, nothing of it.
#[derive(Drop)]
pub struct Flat {
    bytes: Vec<u8>,
    ghost fit: { Kept bytes.items },
    ghost octets: { Octets bytes.items },
}
