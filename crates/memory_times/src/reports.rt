//! What is printed of a work at a store.
use crate::clock::rate;
use crate::stores::Store;
use crate::work::Work;
use memory::faults::MemoryFault;
use std::io;

pub(crate) trait Report {
    fn line<W: Work, S: Store>(rt: &HostRuntime, name: &str, store: &mut S) -> io::Result<()>;
}

/// A checksum of what is read after one put.
pub(crate) struct Sums;

/// Million bytes a second, for puts and for reads, and a checksum of all reads, so that none is left out.
pub(crate) struct Speeds;

fn checksum<W: Work, S: Store>(store: &mut S) -> Result<u32, MemoryFault> {
    W::put(store, 1)?;
    W::read(store)
}

impl Report for Sums {
    fn line<W: Work, S: Store>(rt: &HostRuntime, name: &str, store: &mut S) -> io::Result<()> {
        match checksum::<W, S>(store) {
            Ok(sum) => println!(rt; "{:<16} {name:<6} {sum:>10}", W::NAME),
            Err(fault) => println!(rt; "{name}: {fault}"),
        }
    }
}

impl Report for Speeds {
    fn line<W: Work, S: Store>(rt: &HostRuntime, name: &str, store: &mut S) -> io::Result<()> {
        let put = rate(rt, |round| {
            let _ = W::put(store, round);
        })?;
        let mut sum: u32 = 0;
        let read = rate(rt, |_| sum = sum.wrapping_add(W::read(store).unwrap_or(0)))?;
        println!(rt; "{:<16} {name:<6} {put:>6} {read:>6} {sum:>10}", W::NAME)
    }
}
