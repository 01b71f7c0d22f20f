//! Marks buffers.
use script::answers::Answer;
use script::groups::LIMIT;
use script::problems::Problem;
use std::alloc::Global;
use std::io;

#[derive(Drop)]
pub(crate) struct Marks {
    pub starts: Vec<u8>,
    pub targets: Vec<u8>,
}

fn buffer(heap: Global, size: usize, fill: u8) -> Result<Vec<u8>, Problem> {
    if size > LIMIT {
        return Err(Problem::TooManyMarks);
    }
    Ok(vec![in heap; fill; size]?)
}

fn front(buffer: &[u8], count: usize) -> &[u8] {
    buffer.get(..count).unwrap_or(buffer)
}

impl Marks {
    /// Two buffers of these sizes, each byte `fill`.
    pub(crate) fn new(
        heap: Global,
        starts: usize,
        targets: usize,
        fill: u8,
    ) -> Result<Marks, Problem> {
        let starts = buffer(heap, starts, fill)?;
        let targets = buffer(heap, targets, fill)?;
        Ok(Marks { starts, targets })
    }

    /// Prints the first `count` bytes of both.
    pub(crate) fn show(&self, rt: &HostRuntime, count: usize) -> io::Result<()> {
        let starts = front(self.starts.as_slice(), count);
        let targets = front(self.targets.as_slice(), count);
        println!(rt; "{}", Answer::Marked { starts, targets })
    }
}
