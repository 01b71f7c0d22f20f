//! Four bytes over a page's edge, and accesses at the end of a memory and past it.
use crate::accesses::Put;
use crate::made::{flat, paged};
use crate::tested::Tested;
use memory::data::Datum::{Byte, Long};
use memory::faults::MemoryFault::Outside;
use memory::memories::Memory;
use std::process::Abort;
use std::test::Fail;

const OVER_THE_EDGE: [(u32, &str); 5] = [
    (252, "the last four bytes of the first page"),
    (253, "one byte in the second page"),
    (254, "two bytes in each page"),
    (255, "one byte in the first page"),
    (256, "the first four bytes of the second page"),
];

// In a memory of 512 bytes. Where an address and a width together pass 2^32, their sum in 32 bits lies inside.
const AT_THE_END: [Put; 12] = [
    Put(511, Byte(9), Ok(()), "the last byte"),
    Put(508, Long(0x0403_0201), Ok(()), "the last four bytes"),
    Put(512, Byte(9), Err(Outside(512)), "past the end"),
    Put(
        509,
        Long(9),
        Err(Outside(509)),
        "its last byte is past the end",
    ),
    Put(
        510,
        Long(9),
        Err(Outside(510)),
        "two bytes are past the end",
    ),
    Put(
        511,
        Long(9),
        Err(Outside(511)),
        "three bytes are past the end",
    ),
    Put(512, Long(9), Err(Outside(512)), "all four are past the end"),
    Put(
        4_294_967_295,
        Byte(9),
        Err(Outside(4_294_967_295)),
        "the last address",
    ),
    Put(
        4_294_967_295,
        Long(9),
        Err(Outside(4_294_967_295)),
        "the sum wraps to 3",
    ),
    Put(
        4_294_967_293,
        Long(9),
        Err(Outside(4_294_967_293)),
        "the sum wraps to 1",
    ),
    Put(
        4_294_967_292,
        Long(9),
        Err(Outside(4_294_967_292)),
        "the sum wraps to 0",
    ),
    Put(508, Long(5), Ok(()), "the refusals left it usable"),
];

const FOUR: [u8; 4] = [1, 2, 3, 4];

// The byte at `address` after the four bytes were put at `start`.
fn wanted(address: u32, start: u32, around: u8) -> u8 {
    let place = address.checked_sub(start);
    let byte = place.and_then(|place| FOUR.get(place as usize));
    byte.copied().unwrap_or(around)
}

impl<R: Abort, M: Memory> Tested<'_, R, M> {
    // Puts four bytes into two pages, all of whose bytes are `around`.
    fn puts_four(&mut self, start: u32, around: u8, why: &str) {
        let (rt, name) = (self.rt, self.name);
        let number = u32::from_le_bytes(FOUR);
        let answer = self.memory.put(start, Long(number));
        assert_eq!(rt; answer, Ok(()), "{name}: {why}");
        let answer = self.memory.read_long(start);
        assert_eq!(rt; answer, Ok(number), "{name}: {why}");
        for address in 0..512 {
            assert_eq!(rt;
                self.memory.read(address),
                Ok(wanted(address, start, around)),
                "{name}: {why}: the byte at {address}"
            );
        }
    }

    fn fill(&mut self, byte: u8) {
        let rt = self.rt;
        for address in 0..self.memory.size() {
            assert_eq!(rt; self.memory.put(address, Byte(byte)), Ok(()));
        }
    }
}

#[test]
fn four_bytes_over_the_edge(rt: HostRuntime) -> Result<(), Fail> {
    let heap = rt.alloc();
    for (start, why) in OVER_THE_EDGE {
        Tested::new(&rt, "flat", flat(heap, 512, 0x77)?).puts_four(start, 0x77, why);
        Tested::new(&rt, "no page held", paged(heap, 512, 2)?).puts_four(start, 0, why);
        let mut held = Tested::new(&rt, "both pages held", paged(heap, 512, 2)?);
        held.fill(0x77);
        held.puts_four(start, 0x77, why);
    }
    Ok(())
}

#[test]
fn at_the_end(rt: HostRuntime) -> Result<(), Fail> {
    let heap = rt.alloc();
    Tested::new(&rt, "flat", flat(heap, 512, 0x77)?).puts(&AT_THE_END);
    Tested::new(&rt, "paged", paged(heap, 512, 2)?).puts(&AT_THE_END);
    Ok(())
}
