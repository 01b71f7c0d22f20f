//! Why an image is refused.
ghost use Rattle.std.specs.Prelude.{◌≡◌, Some};
ghost use Rattle.gate.specs.Refusals.{number_of, address_of};
ghost use Rattle.gate.specs.Refusals.{refusal_text};

use std::fmt;

#[derive(Clone, Copy)]
pub enum Refusal {
    /// The image is empty, too long or no multiple of 32 bytes.
    Length,
    /// A marks buffer is too small.
    Marks,
    /// The entry row does not fit the image.
    Row,
    /// Nothing matches at this address.
    NoMatch(u32),
    /// The direct form at this address goes outside the image and to no entry.
    FarTarget(u32),
    /// This multiple of 32 is no start.
    Unaligned(u32),
    /// This direct target is no start.
    MidTarget(u32),
}

impl Refusal {
    /// The number of the check that refuses.
    pub fn number(self) -> u8
        ensures { result ≡ number_of self }
    {
        match self {
            Refusal::Length => 1,
            Refusal::Marks => 2,
            Refusal::Row => 3,
            Refusal::NoMatch(_) => 4,
            Refusal::FarTarget(_) => 5,
            Refusal::Unaligned(_) => 6,
            Refusal::MidTarget(_) => 7,
        }
    }

    /// The address that the refusal is about, if it is about one.
    pub fn address(self) -> Option<u32>
        ensures { result ≡ address_of self }
    {
        match self {
            Refusal::Length | Refusal::Marks | Refusal::Row => None,
            Refusal::NoMatch(at)
            | Refusal::FarTarget(at)
            | Refusal::Unaligned(at)
            | Refusal::MidTarget(at) => Some(at),
        }
    }
}

impl fmt::Display for Refusal {
    ghost output = { λ x. Some (refusal_text (number_of x) (address_of x)) };

    fn fmt<W: fmt::Write>(&self, f: &mut fmt::Formatter<W>) -> fmt::Result {
        let number = self.number();
        match self.address() {
            Some(at) => write!(f, "refused {number} at {at}"),
            None => write!(f, "refused {number}"),
        }
    }
}
