//! Why an access or a making is refused.
ghost use Rattle.std.specs.Prelude.{◌≡◌, Some};
ghost use Rattle.memory.specs.Faults.{fault_number, fault_address, fault_text, unfit_number, unfit_reason, unfit_text};

use std::fmt;

/// Why a read or a put is refused.
#[derive(Clone, Copy, PartialEq, Eq, Debug)]
pub enum MemoryFault {
    /// The access at this address leaves the memory.
    Outside(u32),
    /// The put at this address needs more pages than are free.
    NoFreePage(u32),
}

impl MemoryFault {
    pub fn number(self) -> u8
        ensures { result ≡ fault_number self }
    {
        match self {
            MemoryFault::Outside(_) => 11,
            MemoryFault::NoFreePage(_) => 12,
        }
    }

    /// The address of the access that was refused.
    pub fn address(self) -> u32
        ensures { result ≡ fault_address self }
    {
        match self {
            MemoryFault::Outside(address) => address,
            MemoryFault::NoFreePage(address) => address,
        }
    }
}

impl fmt::Display for MemoryFault {
    ghost output = { λ x. Some (fault_text x) };

    fn fmt<W: fmt::Write>(&self, f: &mut fmt::Formatter<W>) -> fmt::Result {
        write!(f, "refused {} at {}", self.number(), self.address())
    }
}

/// Why no memory can be made of what was handed over.
#[derive(Clone, Copy, PartialEq, Eq, Debug)]
pub enum Unfit {
    /// A size is a multiple of 256 from 256 to 1,048,576.
    Size,
    /// A paged memory has 1 to 4,096 frames.
    Frames,
}

impl Unfit {
    pub fn number(self) -> u8
        ensures { result ≡ unfit_number self }
    {
        match self {
            Unfit::Size | Unfit::Frames => 10,
        }
    }

    /// The reason in words for people.
    pub fn words(self) -> &'static str
        ensures { result.now ≡ unfit_reason self }
    {
        match self {
            Unfit::Size => "a size is a multiple of 256 from 256 to 1048576",
            Unfit::Frames => "a paged memory has 1 to 4096 frames",
        }
    }
}

impl fmt::Display for Unfit {
    ghost output = { λ x. Some (unfit_text x) };

    fn fmt<W: fmt::Write>(&self, f: &mut fmt::Formatter<W>) -> fmt::Result {
        write!(f, "refused {}: {}", self.number(), self.words())
    }
}
