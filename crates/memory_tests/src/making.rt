//! Sizes and numbers of frames that will do and that will not, and what is made of either.
use crate::accesses::Put;
use crate::made::{flat, paged};
use crate::tested::Tested;
use memory::data::Datum::{Byte, Long};
use memory::faults::MemoryFault::{NoFreePage, Outside};
use memory::faults::Unfit;
use memory::flat::Flat;
use memory::memories::Memory;
use memory::paged::Paged;
use std::process::Abort;
use std::test::Fail;

// A size, what the check of either memory answers, and why.
const SIZES: [(u32, Result<(), Unfit>, &str); 9] = [
    (0, Err(Unfit::Size), "no byte"),
    (100, Err(Unfit::Size), "less than a page"),
    (255, Err(Unfit::Size), "a byte less than a page"),
    (256, Ok(()), "one page, the least"),
    (257, Err(Unfit::Size), "a byte more than a page"),
    (768, Ok(()), "three pages"),
    (1_048_575, Err(Unfit::Size), "a byte less than the most"),
    (1_048_576, Ok(()), "the most"),
    (1_048_832, Err(Unfit::Size), "a page more than the most"),
];

// The same of numbers of frames, for one page.
const FRAMES: [(usize, Result<(), Unfit>, &str); 5] = [
    (0, Err(Unfit::Frames), "no frame"),
    (1, Ok(()), "the least, and a frame for each page"),
    (5, Ok(()), "more frames than pages"),
    (4_096, Ok(()), "the most"),
    (4_097, Err(Unfit::Frames), "one more than the most"),
];

// To a memory of 256 bytes, no page held and none free.
const NOTHING_KEPT: [Put; 7] = [
    Put(0, Byte(9), Err(NoFreePage(0)), "the first byte"),
    Put(255, Byte(9), Err(NoFreePage(255)), "the last byte"),
    Put(0, Long(9), Err(NoFreePage(0)), "the first four bytes"),
    Put(252, Long(9), Err(NoFreePage(252)), "the last four bytes"),
    Put(
        253,
        Long(9),
        Err(Outside(253)),
        "its last byte is past the end",
    ),
    Put(256, Byte(9), Err(Outside(256)), "past the end"),
    Put(256, Long(9), Err(Outside(256)), "past the end"),
];

impl<R: Abort, M: Memory> Tested<'_, R, M> {
    // No byte of 256 can be put.
    fn refuses_all(&mut self) {
        let (rt, name) = (self.rt, self.name);
        for at in 0..256 {
            assert_eq!(rt; self.memory.put(at, Byte(9)), Err(NoFreePage(at)), "{name}");
        }
    }

    // A memory of 256 bytes that keeps nothing.
    fn keeps_nothing(&mut self) {
        let (rt, name) = (self.rt, self.name);
        assert_eq!(rt; self.memory.size(), 256, "{name}");
        self.puts(&NOTHING_KEPT);
        self.refuses_all();
        self.zeros(None);
    }

    // A memory of `size` bytes.
    fn has_size(&mut self, size: u32) {
        let (rt, name) = (self.rt, self.name);
        assert_eq!(rt; self.memory.size(), size, "{name}");
        let last = size.wrapping_sub(1);
        assert_eq!(rt; self.memory.put(last, Byte(9)), Ok(()), "{name}");
        assert_eq!(rt;
            self.memory.put(size, Byte(9)),
            Err(Outside(size)),
            "{name}"
        );
    }

    // What is made where the check of `size` answers so.
    fn is_made(&mut self, size: u32, checked: Result<(), Unfit>, wanted: Result<(), Unfit>) {
        let (rt, name) = (self.rt, self.name);
        assert_eq!(rt; checked, wanted, "{name}");
        match wanted {
            Ok(()) => self.has_size(size),
            Err(_) => self.keeps_nothing(),
        }
    }
}

#[test]
fn sizes(rt: HostRuntime) -> Result<(), Fail> {
    let heap = rt.alloc();
    for (size, wanted, why) in SIZES {
        let bytes = size as usize;
        let made = flat(heap, bytes, 0x77)?;
        Tested::new(&rt, why, made).is_made(size, Flat::check(bytes), wanted);
        let made = paged(heap, size, 1)?;
        Tested::new(&rt, why, made).is_made(size, Paged::check(size, 1), wanted);
    }
    Ok(())
}

#[test]
fn numbers_of_frames(rt: HostRuntime) -> Result<(), Fail> {
    let heap = rt.alloc();
    for (frames, wanted, why) in FRAMES {
        let made = paged(heap, 256, frames)?;
        Tested::new(&rt, why, made).is_made(256, Paged::check(256, frames), wanted);
    }
    let made = paged(heap, 255, 0)?;
    let wanted = Err(Unfit::Size);
    Tested::new(&rt, "neither will do", made).is_made(255, Paged::check(255, 0), wanted);
    Ok(())
}
