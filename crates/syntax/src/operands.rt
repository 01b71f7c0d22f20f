//! Operands, which say their width where they stand in memory.
ghost use Rattle.std.specs.Prelude.{Some};
ghost use Rattle.syntax.specs.Operands.{operand_text, source_text};

use crate::Intel;
use crate::names::Named;
use crate::numbers::Hexadecimal;
use std::fmt;
use std::fmt::Display;
use x86::operands::{Operand, Source};
use x86::registers::Width;

/// An operand of an instruction of some width.
#[derive(Clone, Copy)]
pub struct AtWidth<T>(pub Width, pub T);

impl fmt::Display for AtWidth<Operand> {
    ghost output = { λ x. Some (operand_text x.0 x.1) };

    fn fmt<W: fmt::Write>(&self, f: &mut fmt::Formatter<W>) -> fmt::Result {
        let width = self.0;
        match self.1 {
            Operand::Register(register) => f.write_str(register.name()),
            Operand::ByteRegister(register) => f.write_str(register.name()),
            Operand::Memory(address) => write!(f, "{} {}", width.name(), Intel(address)),
        }
    }
}

impl fmt::Display for AtWidth<Source> {
    ghost output = { λ x. Some (source_text x.0 x.1) };

    fn fmt<W: fmt::Write>(&self, f: &mut fmt::Formatter<W>) -> fmt::Result {
        let width = self.0;
        match self.1 {
            Source::Operand(operand) => AtWidth(width, operand).fmt(f),
            Source::Immediate(number) => Hexadecimal(number).fmt(f),
        }
    }
}
