//! Where instruction bytes come from. The decoder is written once over this trait.
ghost use Rattle.std.specs.Prelude.{◌≡◌, ℕ, List, length, slice_index};
ghost use Rattle.x86.specs.Octets.{Octets};

use std::convert::AsSlice;

/// Bytes that can be read and do not change while they are held.
pub trait Code {
    ghost bytes: { Self → List ℕ };

    fn len(&self) -> usize
        ensures { result ≡ length (bytes self.now) };

    /// The byte at `i`, and 0 past the end.
    fn byte(&self, i: usize) -> u8
        ensures { result ≡ slice_index (bytes self.now) i };
}

impl<S: AsSlice<u8>> Code for S {
    ghost bytes = { S.items };

    fn len(&self) -> usize {
        self.as_slice().len()
    }

    fn byte(&self, i: usize) -> u8 {
        self.as_slice().get(i).copied().unwrap_or(0)
    }
}

/// That the numbers that a source means are bytes is known where they are read, and nowhere else. So this reads them, and
/// its contract is the fact; the loop has no effect, and for a slice or a `Vec` it compiles to nothing.
pub fn octets<C: Code>(code: &C, from: usize, to: usize)
    ensures { Octets (C.bytes code.now) from to }
{
    for i in from..to {
        let _byte = code.byte(i);
    }
}
