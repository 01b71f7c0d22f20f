//! Places in memory.
ghost use Rattle.std.specs.Prelude.{◌≡◌, Some};
ghost use Rattle.syntax.specs.Addresses.{offset_text, index_text, visible_index_of, address_text};

use crate::Intel;
use crate::names::Named;
use crate::numbers::Hexadecimal;
use std::fmt;
use x86::operands::{Address, Index};
use x86::registers::{Register, Scale};

/// What follows base and index: a displacement by its sign.
#[derive(Clone, Copy)]
struct Offset(Option<u32>);

impl fmt::Display for Offset {
    ghost output = { λ x. Some (offset_text x.0) };

    fn fmt<W: fmt::Write>(&self, f: &mut fmt::Formatter<W>) -> fmt::Result {
        match self.0 {
            None => Ok(()),
            Some(displacement) if displacement < 1 << 31 => {
                write!(f, "+{}", Hexadecimal(displacement))
            }
            Some(displacement) => write!(f, "-{}", Hexadecimal(displacement.wrapping_neg())),
        }
    }
}

impl fmt::Display for Intel<Index> {
    ghost output = { λ x. Some (index_text x.0) };

    fn fmt<W: fmt::Write>(&self, f: &mut fmt::Formatter<W>) -> fmt::Result {
        let Index { register, scale } = self.0;
        let name = register.map_or("eiz", |register| register.name());
        write!(f, "{name}*{}", scale.name())
    }
}

// A base of ESP always has a SIB byte, so an index in it that adds nothing tells the reader nothing.
fn visible_index(base: Option<Register>, index: Option<Index>) -> Option<Index>
    ensures { result ≡ visible_index_of base index }
{
    let Index { register, scale } = index?;
    match (base, register, scale) {
        (Some(Register::Esp), None, Scale::One) => None,
        _ => index,
    }
}

impl fmt::Display for Intel<Address> {
    ghost output = { λ x. Some (address_text x.0) };

    fn fmt<W: fmt::Write>(&self, f: &mut fmt::Formatter<W>) -> fmt::Result {
        let address = self.0;
        let offset = Offset(address.displacement);
        match (address.base, visible_index(address.base, address.index)) {
            (None, None) => write!(f, "ds:{}", Hexadecimal(address.displacement.unwrap_or(0))),
            (Some(base), None) => write!(f, "[{}{offset}]", base.name()),
            (None, Some(index)) => write!(f, "[{}{offset}]", Intel(index)),
            (Some(base), Some(index)) => write!(f, "[{}+{}{offset}]", base.name(), Intel(index)),
        }
    }
}
