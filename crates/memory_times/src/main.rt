//! The same puts and reads over a flat memory, a paged memory and plain bytes. With no argument it prints a checksum of each,
//! and with the argument `time` a table of million bytes a second for puts and for reads, each with a checksum.
#![tactic(auto)]

use memory::flat::Flat;
use memory::paged::Paged;
use reports::{Report, Speeds, Sums};
use std::alloc::{AllocError, Global};
use std::{env, io};
use stores::{Plain, Proved};
use work::{Bytes, SIZE, Scattered, Words, Work};

mod clock;
mod reports;
mod stores;
mod work;

fn flat(heap: Global) -> Result<Proved<Flat>, AllocError> {
    Ok(Proved(Flat::new(vec![in heap; 0; SIZE as usize]?)))
}

fn paged(heap: Global) -> Result<Proved<Paged>, AllocError> {
    Ok(Proved(Paged::new(SIZE, vec![in heap; [0xff; 256]; 4_096]?)))
}

fn plain(heap: Global) -> Result<Plain, AllocError> {
    Ok(Plain(vec![in heap; 0; SIZE as usize]?))
}

// A work's lines, one for each store.
fn lines<R: Report, W: Work>(rt: &HostRuntime) -> io::Result<()> {
    let heap = rt.alloc();
    R::line::<W, _>(rt, "flat", &mut flat(heap)?)?;
    R::line::<W, _>(rt, "paged", &mut paged(heap)?)?;
    R::line::<W, _>(rt, "plain", &mut plain(heap)?)
}

fn report<R: Report>(rt: &HostRuntime) -> io::Result<()> {
    lines::<R, Bytes>(rt)?;
    lines::<R, Words>(rt)?;
    lines::<R, Scattered>(rt)
}

fn main(rt: HostRuntime) -> io::Result<()> {
    if env::args(&rt)?.skip(1).any(|word| word.as_str() == "time") {
        report::<Speeds>(&rt)
    } else {
        report::<Sums>(&rt)
    }
}
