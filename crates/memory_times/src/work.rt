//! The puts and reads that are measured. Each work goes over as many bytes as the store has.
use crate::stores::Store;
use memory::faults::MemoryFault;

/// How many bytes a store has: the most that a memory may have.
pub(crate) const SIZE: u32 = 1_048_576;

pub(crate) trait Work {
    const NAME: &'static str;

    fn put<S: Store>(store: &mut S, seed: u32) -> Result<(), MemoryFault>;

    /// A checksum of what is read.
    fn read<S: Store>(store: &S) -> Result<u32, MemoryFault>;
}

/// One byte after another.
pub(crate) struct Bytes;

/// Four bytes after another.
pub(crate) struct Words;

/// Four bytes here and there, over the edges of pages too.
pub(crate) struct Scattered;

impl Work for Bytes {
    const NAME: &'static str = "bytes";

    fn put<S: Store>(store: &mut S, seed: u32) -> Result<(), MemoryFault> {
        for at in 0..SIZE {
            store.put(at, ((at ^ at >> 8 ^ seed) & 0xff) as u8)?;
        }
        Ok(())
    }

    fn read<S: Store>(store: &S) -> Result<u32, MemoryFault> {
        let mut sum: u32 = 0;
        for at in 0..SIZE {
            sum = sum.wrapping_add(u32::from(store.read(at)?) ^ at);
        }
        Ok(sum)
    }
}

impl Work for Words {
    const NAME: &'static str = "words";

    fn put<S: Store>(store: &mut S, seed: u32) -> Result<(), MemoryFault> {
        for at in (0..SIZE).step_by(4) {
            store.put_long(at, at.wrapping_mul(5) ^ seed)?;
        }
        Ok(())
    }

    fn read<S: Store>(store: &S) -> Result<u32, MemoryFault> {
        let mut sum: u32 = 0;
        for at in (0..SIZE).step_by(4) {
            sum = sum.wrapping_add(store.read_long(at)? ^ at);
        }
        Ok(sum)
    }
}

// The next of a linear congruential generator's numbers.
fn next(number: u32) -> u32 {
    number.wrapping_mul(1_664_525).wrapping_add(1_013_904_223)
}

// An address of four bytes, by the high bits of such a number.
fn place(number: u32) -> u32 {
    (number >> 12).min(SIZE - 4)
}

impl Work for Scattered {
    const NAME: &'static str = "scattered words";

    fn put<S: Store>(store: &mut S, seed: u32) -> Result<(), MemoryFault> {
        let mut number = seed;
        for _ in 0..SIZE / 4 {
            number = next(number);
            store.put_long(place(number), number)?;
        }
        Ok(())
    }

    fn read<S: Store>(store: &S) -> Result<u32, MemoryFault> {
        let mut sum: u32 = 0;
        let mut number = 1;
        for _ in 0..SIZE / 4 {
            number = next(number);
            sum = sum.wrapping_add(store.read_long(place(number))? ^ number);
        }
        Ok(sum)
    }
}
