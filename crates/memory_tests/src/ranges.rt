//! Bytes written and copied in a row, in either memory.
use crate::made::{flat, paged};
use crate::tested::Tested;
use memory::faults::MemoryFault;
use memory::faults::MemoryFault::{NoFreePage, Outside};
use memory::memories::Memory;
use memory::ranges::{copy, write};
use std::process::Abort;
use std::test::Fail;

const SIX: [u8; 6] = [1, 2, 3, 4, 5, 6];

// Where six bytes are written, what that answers, how many of them are there then, and why.
#[derive(Clone, Copy)]
struct Write(u32, Result<(), MemoryFault>, u32, &'static str);

// In a memory of 512 bytes.
const WHOLE: [Write; 5] = [
    Write(253, Ok(()), 6, "over a page's edge"),
    Write(506, Ok(()), 6, "up to the end"),
    Write(509, Err(Outside(512)), 3, "past the end: three are put"),
    Write(512, Err(Outside(512)), 0, "outside from the first on"),
    Write(
        4_294_967_295,
        Err(Outside(4_294_967_295)),
        0,
        "the last address",
    ),
];

// The same with one frame for two pages.
const ONE_FRAME: [Write; 3] = [
    Write(250, Ok(()), 6, "the end of a page"),
    Write(252, Err(NoFreePage(256)), 4, "no frame for the second page"),
    Write(256, Ok(()), 6, "the start of the second page"),
];

// The same of copying six bytes into a buffer of nines, after they were written at 253.
#[derive(Clone, Copy)]
struct Copied(u32, Result<(), MemoryFault>, [u8; 6], &'static str);

const COPIES: [Copied; 5] = [
    Copied(253, Ok(()), SIX, "over a page's edge"),
    Copied(506, Ok(()), [0; 6], "up to the end"),
    Copied(509, Err(Outside(512)), [0, 0, 0, 9, 9, 9], "past the end"),
    Copied(512, Err(Outside(512)), [9; 6], "outside"),
    Copied(
        4_294_967_295,
        Err(Outside(4_294_967_295)),
        [9; 6],
        "the last address",
    ),
];

impl<R: Abort, M: Memory> Tested<'_, R, M> {
    // The bytes that were put stand there, and those behind them do not.
    fn stands(&self, Write(base, _, count, why): Write) -> Result<(), MemoryFault> {
        let (rt, name) = (self.rt, self.name);
        for ((at, byte), i) in (base..=u32::MAX).zip(SIX).zip(0..) {
            if at < self.memory.size() {
                let is_put = self.memory.read(at)? == byte;
                assert_eq!(rt; is_put, i < count, "{name}: {why}");
            }
        }
        Ok(())
    }

    fn writes(&mut self, case: Write) -> Result<(), MemoryFault> {
        let (rt, name) = (self.rt, self.name);
        let Write(base, answer, _, why) = case;
        assert_eq!(rt;
            write(&mut self.memory, base, &SIX),
            answer,
            "{name}: {why}"
        );
        self.stands(case)?;
        assert_eq!(rt;
            write(&mut self.memory, base, &[]),
            Ok(()),
            "{name}: {why}: nothing to write"
        );
        Ok(())
    }

    fn copies(&self, Copied(base, answer, wanted, why): Copied) {
        let (rt, name) = (self.rt, self.name);
        let mut buffer = [9; 6];
        assert_eq!(rt;
            copy(&self.memory, base, &mut buffer),
            answer,
            "{name}: {why}"
        );
        assert_eq!(rt; buffer, wanted, "{name}: {why}");
        assert_eq!(rt;
            copy(&self.memory, base, &mut []),
            Ok(()),
            "{name}: {why}: nothing to copy"
        );
    }

    fn copies_all(&mut self) {
        let (rt, name) = (self.rt, self.name);
        assert_eq!(rt; write(&mut self.memory, 253, &SIX), Ok(()), "{name}");
        for case in COPIES {
            self.copies(case);
        }
    }
}

#[test]
fn writes_six_bytes(rt: HostRuntime) -> Result<(), Fail> {
    let heap = rt.alloc();
    for case in WHOLE {
        Tested::new(&rt, "flat", flat(heap, 512, 0x77)?).writes(case)?;
        Tested::new(&rt, "paged", paged(heap, 512, 2)?).writes(case)?;
    }
    for case in ONE_FRAME {
        Tested::new(&rt, "one frame", paged(heap, 512, 1)?).writes(case)?;
    }
    Ok(())
}

#[test]
fn copies_six_bytes(rt: HostRuntime) -> Result<(), Fail> {
    let heap = rt.alloc();
    Tested::new(&rt, "flat", flat(heap, 512, 0)?).copies_all();
    Tested::new(&rt, "paged", paged(heap, 512, 2)?).copies_all();
    Ok(())
}
