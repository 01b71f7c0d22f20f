//! The check of a size and a number of frames, and a memory made of them.
ghost use Rattle.std.specs.Prelude.{◌≡◌, ℕ, ◌≤◌, length, take, None, slice_index_or};
ghost use Rattle.memory.specs.Meaning.{Fit, blank_memory};
ghost use Rattle.memory.specs.PagedView.{paged_view};
ghost use Rattle.memory.specs.Pages.{framed, paged_check, paged_made};

use crate::faults::Unfit;
use crate::paged::{Frame, Paged};
use crate::sizes::is_fit;

// A table of pages without a frame.
fn no_frames() -> [Option<u16>; 4096]
    ensures pages { length result ≡ 4096 }
    ensures none { (p : ℕ) → slice_index_or result p None ≡ None }
    ensures count { (k : ℕ) → framed (take k result) ≡ 0 }
{
    [None; 4096]
}

impl Paged {
    /// Whether `size` bytes over so many frames will do.
    pub fn check(size: u32, frames: usize) -> Result<(), Unfit>
        ensures { result ≡ paged_check size frames }
    {
        if !is_fit(size as usize) {
            Err(Unfit::Size)
        } else if 1 <= frames && frames <= 4096 {
            Ok(())
        } else {
            Err(Unfit::Frames)
        }
    }

    // All frames are free: what they hold plays no part.
    fn fresh(size: u32, frames: Vec<Frame>) -> Paged
        requires fit { Fit size }
        requires few { length frames.items ≤ 4096 }
        ensures { paged_view result ≡ blank_memory size (length frames.items) }
    {
        Paged {
            size,
            table: no_frames(),
            frames,
            used: 0,
        }
    }

    /// A memory with no page held and all frames free. Of what the check refuses nothing is kept: what is made then has
    /// 256 bytes, no page held and none free.
    pub fn new(size: u32, frames: Vec<Frame>) -> Paged
        ensures { paged_view result ≡ paged_made size (length frames.items) }
    {
        if Paged::check(size, frames.len()).is_ok() {
            return Paged::fresh(size, frames);
        }
        let mut frames = frames;
        frames.clear();
        Paged::fresh(256, frames)
    }
}
