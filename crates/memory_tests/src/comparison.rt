//! Both memories against the plain bytes of the model, on random reads and puts.
use crate::made::{flat, paged};
use crate::model::Model;
use crate::random::Random;
use memory::data::Datum;
use memory::faults::MemoryFault;
use memory::memories::Memory;
use std::alloc::AllocError;
use std::fmt::Debug;
use std::process::Abort;
use std::test::Fail;

const FLAT_SIZES: [u32; 5] = [256, 512, 1_024, 65_536, 1_048_576];

// A size, a number of frames, and whether these run out.
const PAGED_SIZES: [(u32, usize, bool, &str); 10] = [
    (256, 1, false, "one page and its frame"),
    (512, 1, true, "one frame for two pages"),
    (1_024, 1, true, "one frame for four pages"),
    (1_024, 3, true, "one frame too few"),
    (4_096, 16, false, "a frame for each page"),
    (4_096, 7, true, "frames for less than half the pages"),
    (65_536, 300, false, "more frames than pages"),
    (65_536, 100, true, "many frames, and too few"),
    (1_048_576, 4_096, false, "the most of both"),
    (1_048_576, 64, true, "the most pages, few frames"),
];

// A frame goes to a page once in a memory's life, so many short runs show more than a long one.
const RUNS: u32 = 20;

const TURNS: u32 = 2_000;

// What is compared, and how many puts were granted, refused with 11 and refused with 12.
#[derive(Drop)]
struct Tally<'a> {
    name: &'a str,
    size: u32,
    granted: u32,
    outside: u32,
    no_free_page: u32,
}

impl<'a> Tally<'a> {
    fn new(name: &'a str, size: u32) -> Self {
        Tally {
            name,
            size,
            granted: 0,
            outside: 0,
            no_free_page: 0,
        }
    }

    fn count(&mut self, answer: Result<(), MemoryFault>) {
        let place = match answer {
            Ok(()) => &mut self.granted,
            Err(MemoryFault::Outside(_)) => &mut self.outside,
            Err(MemoryFault::NoFreePage(_)) => &mut self.no_free_page,
        };
        *place = place.saturating_add(1);
    }

    // A comparison in which no put was granted, or none refused, would show little.
    fn tells_enough(&self, rt: &impl Abort, frames_run_out: bool) {
        let name = self.name;
        let size = self.size;
        assert!(rt;
            self.granted > 1_000,
            "{name}, size {size}: few puts were granted"
        );
        assert!(rt;
            self.outside > 1_000,
            "{name}, size {size}: few puts left the memory"
        );
        assert_eq!(rt;
            self.no_free_page > 100,
            frames_run_out,
            "{name}, size {size}: puts with no page free"
        );
    }
}

// A memory beside plain bytes, and what is drawn for both.
#[derive(Drop)]
struct Comparison<'a, 'b, R, M> {
    rt: &'a R,
    memory: M,
    model: Model,
    random: &'a mut Random,
    tally: &'a mut Tally<'b>,
}

impl<R: Abort, M: Memory> Comparison<'_, '_, R, M> {
    fn same<T: PartialEq + Debug + Drop>(
        &self,
        turn: u32,
        what: &str,
        at: u32,
        answer: Result<T, MemoryFault>,
        wanted: Result<T, MemoryFault>,
    ) {
        let (rt, tally) = (self.rt, &*self.tally);
        assert_eq!(rt;
            answer,
            wanted,
            "{}, size {}, turn {turn}: {what} at {at}",
            tally.name, tally.size
        );
    }

    fn put(&mut self, turn: u32, at: u32, datum: Datum) {
        let answer = self.memory.put(at, datum);
        self.tally.count(answer);
        let wanted = self.model.put(at, datum);
        self.same(turn, "put", at, answer, wanted);
    }

    fn read(&self, turn: u32, at: u32) {
        self.same(turn, "read", at, self.memory.read(at), self.model.read(at));
    }

    fn read_long(&self, turn: u32, at: u32) {
        let (answer, wanted) = (self.memory.read_long(at), self.model.read_long(at));
        self.same(turn, "read_long", at, answer, wanted);
    }

    fn turn(&mut self, turn: u32) {
        let at = self.random.address(self.memory.size());
        let value = self.random.draw();
        match self.random.below(4) {
            0 => self.read(turn, at),
            1 => self.read_long(turn, at),
            2 => self.put(turn, at, Datum::Byte((value & 0xff) as u8)),
            _ => self.put(turn, at, Datum::Long(value)),
        }
    }

    // All turns, and then each byte.
    fn run(&mut self) {
        for turn in 0..TURNS {
            self.turn(turn);
        }
        for at in 0..self.memory.size() {
            self.read(TURNS, at);
        }
    }
}

// Each run is over what `make` makes.
fn runs<R, M, F>(
    rt: &R,
    random: &mut Random,
    mut tally: Tally<'_>,
    frames_run_out: bool,
    make: F,
) -> Result<(), AllocError>
where
    R: Abort,
    M: Memory + Drop,
    F: Fn() -> Result<(M, Model), AllocError>,
    requires { F.IsAlwaysCallable make }
{
    for _ in 0..RUNS {
        let (memory, model) = make()?;
        let mut comparison = Comparison {
            rt,
            memory,
            model,
            random,
            tally: &mut tally,
        };
        comparison.run();
    }
    tally.tells_enough(rt, frames_run_out);
    Ok(())
}

#[test]
fn flat_memory_and_plain_bytes(rt: HostRuntime) -> Result<(), Fail> {
    let mut random = Random::new(1);
    let heap = rt.alloc();
    for size in FLAT_SIZES {
        let tally = Tally::new("flat", size);
        runs(&rt, &mut random, tally, false, || {
            let model = Model::new(heap, size, 0x77, true, 0)?;
            Ok((flat(heap, size as usize, 0x77)?, model))
        })?;
    }
    Ok(())
}

#[test]
fn paged_memory_and_plain_bytes(rt: HostRuntime) -> Result<(), Fail> {
    let mut random = Random::new(2);
    let heap = rt.alloc();
    for (size, frames, run_out, why) in PAGED_SIZES {
        let tally = Tally::new(why, size);
        runs(&rt, &mut random, tally, run_out, || {
            let model = Model::new(heap, size, 0, false, frames)?;
            Ok((paged(heap, size, frames)?, model))
        })?;
    }
    Ok(())
}
