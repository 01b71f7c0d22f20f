//! Pages and their frames: each function says what it does to the memory's meaning.
ghost use Rattle.std.specs.Prelude.{◌≡◌, ℕ, ◌+◌, ◌*◌, ◌/◌, ◌%◌, ◌<◌, ◌≤◌, true, false, length, Some, None, slice_index, slice_index_or};
ghost use Rattle.memory.specs.Access.{lacks};
ghost use Rattle.memory.specs.Data.{parts, long_at};
ghost use Rattle.memory.specs.Meaning.{holds};
ghost use Rattle.memory.specs.PagedView.{paged_view};
ghost use Rattle.memory.specs.Holding.{BothHeld, PageHeld, with_bytes};

use crate::data::Datum;
use crate::little_endian::{lay, long};
use crate::paged::{Frame, Paged};

// What a frame held before plays no part.
fn clear(frame: &mut Frame)
    ensures length { length frame.new ≡ 256 }
    ensures zeros { (k : ℕ) → slice_index frame.new k ≡ 0 }
{
    *frame = [0; 256];
}

// Each asks that its place lies in the memory. That ties the place to this memory's size, so no type of a place could have it.
impl Paged {
    /// How many frames are free.
    pub(super) fn spare(&self) -> usize
        ensures { result ≡ (paged_view self.now).free }
    {
        self.frames.len() - self.used
    }

    /// The look-up: the frame of a page, if it has one.
    fn frame(&self, page: usize) -> Option<u16>
        requires { page * 256 < (paged_view self.now).size }
        ensures { result ≡ slice_index_or self.now.table page None }
    {
        self.table[page]
    }

    /// 1 for a page that is not held.
    pub(super) fn lack(&self, page: usize) -> usize
        requires { page * 256 < (paged_view self.now).size }
        ensures { result ≡ lacks (paged_view self.now) page }
    {
        usize::from(self.frame(page).is_none())
    }

    /// The byte at an address.
    pub(super) fn byte(&self, at: usize) -> u8
        requires { at < (paged_view self.now).size }
        ensures { result ≡ slice_index (paged_view self.now).bytes at }
    {
        match self.frame(at / 256) {
            Some(frame) => self.frames[frame as usize][at % 256],
            None => 0,
        }
    }

    /// Four bytes that lie in one page, as a number.
    pub(super) fn long_within(&self, at: usize) -> u32
        requires inside { at + 4 ≤ (paged_view self.now).size }
        requires within { at % 256 ≤ 252 }
        ensures { result ≡ long_at (paged_view self.now).bytes at }
    {
        match self.frame(at / 256) {
            Some(frame) => long(&self.frames[frame as usize], at % 256),
            None => 0,
        }
    }

    /// Four bytes that lie in two pages, as a number: the end of the one page's last four, and the start of the next's first.
    pub(super) fn long_across(&self, at: usize) -> u32
        requires inside { at + 4 ≤ (paged_view self.now).size }
        requires across { 252 < at % 256 }
        ensures { result ≡ long_at (paged_view self.now).bytes at }
    {
        let past = at % 4;
        let shift = 8 * past as u32;
        let low = self.long_within(at - past);
        let high = self.long_within(at - past + 4);
        low >> shift | high << (32 - shift)
    }

    /// The frame of a page, which is held from now on; none, where the page has no frame and none is free.
    pub(super) fn hold(&mut self, page: usize) -> Option<usize>
        requires { page * 256 < (paged_view self.old).size }
        ensures { PageHeld (paged_view self.old) page (paged_view self.new) self.new.table result }
    {
        if let Some(frame) = self.frame(page) {
            return Some(frame as usize);
        }
        let frame = self.used;
        if frame == self.frames.len() {
            return None;
        }
        clear(&mut self.frames[frame]);
        self.table[page] = Some(frame as u16);
        self.used = frame + 1;
        Some(frame)
    }

    /// Writes a datum that lies in one page, into the frame of that page.
    pub(super) fn write(&mut self, frame: usize, at: usize, datum: Datum)
        requires inside { at < (paged_view self.old).size }
        requires within { at % 256 + length (parts datum) ≤ 256 }
        requires framed { slice_index_or self.old.table (at / 256) None ≡ Some frame }
        ensures { paged_view self.new ≡ with_bytes (paged_view self.old) at (parts datum) }
    {
        lay(&mut self.frames[frame], at % 256, datum);
    }

    /// Writes a byte of a page that is held.
    pub(super) fn set(&mut self, at: usize, byte: u8)
        requires inside { at < (paged_view self.old).size }
        requires held { holds (paged_view self.old) (at / 256) ≡ true }
        ensures { paged_view self.new ≡ with_bytes (paged_view self.old) at (parts (Datum.Byte byte)) }
    {
        let frame = self.frame(at / 256).unwrap();
        self.write(frame as usize, at, Datum::Byte(byte));
    }

    /// Holds a page and the next from now on; neither, where too few frames are free.
    pub(super) fn hold_both(&mut self, page: usize) -> Option<()>
        requires { (page + 1) * 256 < (paged_view self.old).size }
        ensures { BothHeld (paged_view self.old) page (paged_view self.new) result }
    {
        if self.lack(page) + self.lack(page + 1) > self.spare() {
            return None;
        }
        self.hold(page)?;
        self.hold(page + 1)?;
        Some(())
    }

    /// Writes four bytes that lie in two pages, which are held.
    pub(super) fn write_across(&mut self, at: usize, number: u32)
        requires inside { at + 4 ≤ (paged_view self.old).size }
        requires first { holds (paged_view self.old) (at / 256) ≡ true }
        requires second { holds (paged_view self.old) (at / 256 + 1) ≡ true }
        ensures { paged_view self.new ≡ with_bytes (paged_view self.old) at (parts (Datum.Long number)) }
    {
        // No loop: what it would have to keep is longer than the four lines.
        let [b0, b1, b2, b3] = number.to_le_bytes();
        self.set(at, b0);
        self.set(at + 1, b1);
        self.set(at + 2, b2);
        self.set(at + 3, b3);
    }
}
