//! Numbers in hexadecimal.
ghost use Rattle.std.specs.Prelude.{Some};
ghost use Rattle.syntax.specs.Numbers.{number_text};

use std::fmt;

/// A number as it stands in an instruction: `0x` and its lower-case digits, with no zero in front.
#[derive(Clone, Copy)]
pub struct Hexadecimal(pub u32);

impl fmt::Display for Hexadecimal {
    ghost output = { λ x. Some (number_text x.0) };

    fn fmt<W: fmt::Write>(&self, f: &mut fmt::Formatter<W>) -> fmt::Result {
        // What `{:#x}` ensures leaves its prefix open.
        write!(f, "0x{:x}", self.0)
    }
}
