//! The memory that a script works on.
use crate::faults::Fault;
use answers::memories::MemoryAnswer;
use memory::faults::Unfit;
use memory::flat::Flat;
use memory::memories::Memory;
use memory::paged::Paged;
use memory::ranges::copy;
use script::problems::Problem;
use std::alloc::Global;
use std::io;

/// What the last `memory` made.
#[derive(Drop)]
pub(crate) enum Store {
    Flat(Flat),
    Paged(Paged),
}

// Of what is refused nothing is kept, so nothing is allocated for it.
fn kept(checked: Result<(), Unfit>, count: u32) -> usize {
    if checked.is_ok() { count as usize } else { 0 }
}

/// A flat memory of zeros.
pub(crate) fn flat(heap: Global, size: u32) -> Result<Flat, Problem> {
    let size = kept(Flat::check(size as usize), size);
    Ok(Flat::new(vec![in heap; 0; size]?))
}

/// A paged memory over frames that are full of ff, which no script may ever see.
pub(crate) fn paged(heap: Global, size: u32, count: u32) -> Result<Paged, Problem> {
    let count = kept(Paged::check(size, count as usize), count);
    Ok(Paged::new(size, vec![in heap; [0xff; 256]; count]?))
}

/// Says what was made, or why that was refused and the size of what was made all the same.
pub(crate) fn tell_made<M: Memory>(
    rt: &HostRuntime,
    checked: Result<(), Unfit>,
    answer: MemoryAnswer<'_>,
    memory: &M,
) -> io::Result<()> {
    if let Err(unfit) = checked {
        let size = memory.size();
        println!(rt; "{unfit}")?;
        return println!(rt; "{}", MemoryAnswer::MadeAnyway { size });
    }
    println!(rt; "{answer}")
}

fn show_of<M: Memory>(
    rt: &HostRuntime,
    memory: &M,
    address: u32,
    buffer: &mut [u8],
) -> io::Result<()> {
    match copy(memory, address, buffer) {
        Ok(()) => println!(rt; "{}", MemoryAnswer::Shown { bytes: buffer }),
        Err(fault) => println!(rt; "{fault}"),
    }
}

fn buffer(heap: Global, count: u32) -> Result<Vec<u8>, Problem> {
    Ok(vec![in heap; 0; count as usize]?)
}

impl Store {
    /// Prints bytes of the memory, or the first address outside.
    pub(crate) fn show(&self, rt: &HostRuntime, address: u32, count: u32) -> Result<(), Fault> {
        let mut bytes = buffer(rt.alloc(), count)?;
        match self {
            Store::Flat(memory) => show_of(rt, memory, address, &mut bytes)?,
            Store::Paged(memory) => show_of(rt, memory, address, &mut bytes)?,
        }
        Ok(())
    }
}
