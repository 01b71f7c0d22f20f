//! What a put writes: its variant tells how many bytes.
ghost use Rattle.std.specs.Prelude.{◌≡◌, length};
ghost use Rattle.memory.specs.Data.{parts};

#[derive(Clone, Copy, PartialEq, Eq, Debug)]
pub enum Datum {
    Byte(u8),
    /// Four bytes, lowest first.
    Long(u32),
}

impl Datum {
    /// How many bytes it has.
    pub fn width(self) -> usize
        ensures { result ≡ length (parts self) }
    {
        match self {
            Datum::Byte(_) => 1,
            Datum::Long(_) => 4,
        }
    }
}
