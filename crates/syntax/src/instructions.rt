//! Instructions and pairs.
ghost use Rattle.std.specs.Prelude.{Some};
ghost use Rattle.syntax.specs.Instructions.{two_operands_text, one_register_text, straight_text, direct_name, loose_text, decoded_text, pair_text};

use crate::Intel;
use crate::mnemonics::Mnemonic;
use crate::names::Named;
use crate::numbers::Hexadecimal;
use crate::operands::AtWidth;
use std::fmt;
use std::fmt::Display;
use x86::instructions::{Decoded, Direct, Instruction, Loose, Straight};
use x86::operands::{Operand, Source};
use x86::pairs::Pair;
use x86::registers::{Register, Width};

/// A mnemonic with what it writes to and what it reads.
#[derive(Clone, Copy)]
struct TwoOperands(&'static str, Width, Operand, Source);

impl fmt::Display for TwoOperands {
    ghost output = { λ x. Some (two_operands_text x.0.now x.1 x.2 x.3) };

    fn fmt<W: fmt::Write>(&self, f: &mut fmt::Formatter<W>) -> fmt::Result {
        let TwoOperands(name, width, operand, source) = *self;
        write!(
            f,
            "{}{},{}",
            Mnemonic(name),
            AtWidth(width, operand),
            AtWidth(width, source)
        )
    }
}

/// A mnemonic with one register.
#[derive(Clone, Copy)]
struct OneRegister(&'static str, Register);

impl fmt::Display for OneRegister {
    ghost output = { λ x. Some (one_register_text x.0.now x.1) };

    fn fmt<W: fmt::Write>(&self, f: &mut fmt::Formatter<W>) -> fmt::Result {
        let OneRegister(name, register) = *self;
        write!(f, "{}{}", Mnemonic(name), register.name())
    }
}

impl fmt::Display for Intel<Straight> {
    ghost output = { λ x. Some (straight_text x.0) };

    fn fmt<W: fmt::Write>(&self, f: &mut fmt::Formatter<W>) -> fmt::Result {
        match self.0 {
            Straight::Arithmetic(operation, width, operand, source) => {
                TwoOperands(operation.name(), width, operand, source).fmt(f)
            }
            Straight::Test(width, operand, source) => {
                TwoOperands("test", width, operand, source).fmt(f)
            }
            Straight::Move(width, operand, source) => {
                TwoOperands("mov", width, operand, source).fmt(f)
            }
            Straight::LoadAddress(register, address) => {
                write!(
                    f,
                    "{}{},{}",
                    Mnemonic("lea"),
                    register.name(),
                    Intel(address)
                )
            }
            Straight::Increment(register) => OneRegister("inc", register).fmt(f),
            Straight::Decrement(register) => OneRegister("dec", register).fmt(f),
            Straight::Push(register) => OneRegister("push", register).fmt(f),
            Straight::Pop(register) => OneRegister("pop", register).fmt(f),
            Straight::Nop => f.write_str("nop"),
            Straight::Halt => f.write_str("hlt"),
        }
    }
}

/// The mnemonic of a direct form.
impl Named for Direct {
    ghost word = { λ x. direct_name x };

    fn name(self) -> &'static str {
        match self {
            Direct::Jump(_) => "jmp",
            Direct::Call(_) => "call",
            Direct::Conditional(condition, _) => condition.name(),
        }
    }
}

impl fmt::Display for Intel<Loose> {
    ghost output = { λ x. Some (loose_text x.0) };

    fn fmt<W: fmt::Write>(&self, f: &mut fmt::Formatter<W>) -> fmt::Result {
        match self.0 {
            Loose::Jump(register) => OneRegister("jmp", register).fmt(f),
            Loose::Call(register) => OneRegister("call", register).fmt(f),
            Loose::Return => f.write_str("ret"),
            Loose::Interrupt(number) => {
                write!(f, "{}{}", Mnemonic("int"), Hexadecimal(u32::from(number)))
            }
            Loose::LoadSegment(segment, register) => {
                write!(
                    f,
                    "{}{},{}",
                    Mnemonic("mov"),
                    segment.name(),
                    register.name()
                )
            }
        }
    }
}

/// An instruction with the address that it stands at, which a direct form's target is counted from.
#[derive(Clone, Copy)]
pub struct Shown {
    pub at: u32,
    pub decoded: Decoded,
}

impl fmt::Display for Shown {
    ghost output = { λ x. Some (decoded_text x.at x.decoded) };

    fn fmt<W: fmt::Write>(&self, f: &mut fmt::Formatter<W>) -> fmt::Result {
        match self.decoded.instruction {
            Instruction::Straight(straight) => Intel(straight).fmt(f),
            Instruction::Direct(direct) => {
                let end = self.at.wrapping_add(self.decoded.length);
                write!(
                    f,
                    "{}{}",
                    Mnemonic(direct.name()),
                    Hexadecimal(direct.target(end))
                )
            }
            Instruction::Loose(loose) => Intel(loose).fmt(f),
        }
    }
}

impl fmt::Display for Intel<Pair> {
    ghost output = { λ x. Some (pair_text x.0) };

    fn fmt<W: fmt::Write>(&self, f: &mut fmt::Formatter<W>) -> fmt::Result {
        write!(f, "{}; {}", Intel(self.0.mask()), Intel(self.0.leave()))
    }
}
