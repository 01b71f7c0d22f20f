//! Numbers that look random and are the same in each run.

/// A linear congruential generator, whose high half is used.
#[derive(Drop)]
pub(crate) struct Random(u64);

impl Random {
    pub(crate) fn new(seed: u64) -> Random {
        Random(seed)
    }

    pub(crate) fn draw(&mut self) -> u32 {
        self.0 = self
            .0
            .wrapping_mul(6_364_136_223_846_793_005)
            .wrapping_add(1_442_695_040_888_963_407);
        (self.0 >> 32) as u32
    }

    /// A number below a limit; 0 where there is none.
    pub(crate) fn below(&mut self, limit: u32) -> u32 {
        if limit == 0 { 0 } else { self.draw() % limit }
    }

    /// An address for a memory of `size` bytes: half of them about the edge of a page, of which the first edge gives addresses
    /// about 0 and 2^32, and the others about the end, inside, and anywhere.
    pub(crate) fn address(&mut self, size: u32) -> u32 {
        match self.below(8) {
            0..4 => {
                let edge = self.below(size / 256).wrapping_mul(256);
                edge.wrapping_add(self.below(8)).wrapping_sub(4)
            }
            4 => size.wrapping_add(self.below(8)).wrapping_sub(6),
            5 | 6 => self.below(size),
            _ => self.draw(),
        }
    }
}
