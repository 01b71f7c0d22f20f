//! The check of a buffer, and a memory made of it.
ghost use Rattle.std.specs.Prelude.{◌≡◌};
ghost use Rattle.memory.specs.FlatView.{flat_view};
ghost use Rattle.memory.specs.Flats.{flat_check, flat_made};

use crate::faults::Unfit;
use crate::flat::Flat;
use crate::sizes::is_fit;

impl Flat {
    /// Whether a buffer of `size` bytes will do.
    pub fn check(size: usize) -> Result<(), Unfit>
        ensures { result ≡ flat_check size }
    {
        if is_fit(size) {
            Ok(())
        } else {
            Err(Unfit::Size)
        }
    }

    /// A memory of the buffer's bytes. Of a buffer that the check refuses nothing is kept: what is made then has 256
    /// bytes, no page held and none free.
    pub fn new(bytes: Vec<u8>) -> Flat
        ensures { flat_view result ≡ flat_made bytes.items }
    {
        let mut bytes = bytes;
        if Flat::check(bytes.len()).is_err() {
            bytes.clear();
        }
        Flat { bytes }
    }
}
