//! Answers about a memory.
ghost use Rattle.std.specs.Prelude.{Some};
ghost use Rattle.answers.specs.Memories.{memory_answer_text};

use script::spelling::Spelled;
use std::fmt;

/// What came of a line about a memory.
#[derive(Clone, Copy)]
pub enum MemoryAnswer<'a> {
    /// A flat memory was made.
    MadeFlat { size: u32 },
    /// A paged memory was made.
    MadePaged { size: u32, frames: u32 },
    /// A size or a count of frames was refused, and a memory of this size was made in its place.
    MadeAnyway { size: u32 },
    /// Bytes of a memory.
    Shown { bytes: &'a [u8] },
}

impl fmt::Display for MemoryAnswer<'_> {
    ghost output = { λ x. Some (memory_answer_text x) };

    fn fmt<W: fmt::Write>(&self, f: &mut fmt::Formatter<W>) -> fmt::Result {
        match *self {
            MemoryAnswer::MadeFlat { size } => write!(f, "memory flat {size}"),
            MemoryAnswer::MadePaged { size, frames } => write!(f, "memory paged {size} {frames}"),
            MemoryAnswer::MadeAnyway { size } => write!(f, "memory {size}"),
            MemoryAnswer::Shown { bytes } => write!(f, "bytes {}", Spelled(bytes)),
        }
    }
}
