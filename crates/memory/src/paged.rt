//! A memory of pages that get a frame when they are first put to.
ghost use Rattle.std.specs.Prelude.{◌≡◌, ◌/◌, ◌≤◌, length, take};
ghost use Rattle.memory.specs.Meaning.{Fit};
ghost use Rattle.memory.specs.Pages.{Mapped, Apart, Sound, framed};

pub mod access;
mod frames;
pub mod making;

/// One page's bytes.
pub type Frame = [u8; 256];

/// The frames in use are the first ones, in the order in which pages came to be held. What the others hold plays no part.
/// Pages name frames by number, and not by a box of each, since a memory allocates nothing.
#[derive(Drop)]
pub struct Paged {
    size: u32,
    table: [Option<u16>; 4096],
    frames: Vec<Frame>,
    used: usize,
    ghost fit: { Fit size },
    ghost pages: { length table ≡ 4096 },
    ghost few: { length frames.items ≤ 4096 },
    ghost within: { used ≤ length frames.items },
    ghost counted: { used ≡ framed (take (size / 256) table) },
    ghost mapped: { Mapped table used },
    ghost apart: { Apart table },
    ghost sound: { Sound frames.items used },
}
