//! Where services of the host begin, outside the image.
ghost use Rattle.std.specs.Prelude.{◌≡◌};
ghost use Rattle.gate.specs.Entries.{is_entry, row_fits};

/// `count` entries, 32 bytes apart, the first at `base`.
#[derive(Clone, Copy)]
pub struct EntryRow {
    pub base: u32,
    pub count: u32,
}

impl EntryRow {
    /// Whether the row lies behind an image of `n` bytes, on multiples of 32 and below 2^32.
    pub fn fits(self, n: u32) -> bool
        ensures { result ≡ row_fits self n }
    {
        self.count <= 64
            && n <= self.base
            && self.base % 32 == 0
            && u64::from(self.base) + 32 * u64::from(self.count) <= 0x1_0000_0000
    }

    /// Whether an entry begins at the address.
    pub fn holds(self, address: u32) -> bool
        ensures { result ≡ is_entry self address }
    {
        self.base <= address
            && (address - self.base) % 32 == 0
            && (address - self.base) / 32 < self.count
    }
}
