//! Instructions, in three classes.
ghost use Rattle.std.specs.Prelude.{◌≡◌};
ghost use Rattle.x86.specs.Instructions.{class_of, displacement_of, target_from, target_of};

use crate::operands::{Address, Operand, Source};
use crate::registers::{Condition, Operation, Register, SegmentRegister, Width};

/// An instruction that goes on to the next one.
#[derive(Clone, Copy)]
pub enum Straight {
    Arithmetic(Operation, Width, Operand, Source),
    Test(Width, Operand, Source),
    Move(Width, Operand, Source),
    LoadAddress(Register, Address),
    Increment(Register),
    Decrement(Register),
    Push(Register),
    Pop(Register),
    Nop,
    Halt,
}

/// A jump or call whose displacement, counted from the end of the instruction, stands in it.
#[derive(Clone, Copy)]
pub enum Direct {
    Jump(u32),
    Call(u32),
    Conditional(Condition, u32),
}

/// An instruction that a module may hold only as the second half of a pair, or not at all.
#[derive(Clone, Copy)]
pub enum Loose {
    Jump(Register),
    Call(Register),
    Return,
    Interrupt(u8),
    LoadSegment(SegmentRegister, Register),
}

#[derive(Clone, Copy)]
pub enum Instruction {
    Straight(Straight),
    Direct(Direct),
    Loose(Loose),
}

/// An instruction and how many bytes it has.
#[derive(Clone, Copy)]
pub struct Decoded {
    pub instruction: Instruction,
    pub length: u32,
}

/// Which of the three lists of forms an instruction is in.
#[derive(Clone, Copy)]
pub enum Class {
    Straight,
    Direct,
    Loose,
}

impl Instruction {
    pub fn class(self) -> Class
        ensures { result ≡ class_of self }
    {
        match self {
            Self::Straight(_) => Class::Straight,
            Self::Direct(_) => Class::Direct,
            Self::Loose(_) => Class::Loose,
        }
    }
}

impl Direct {
    /// How far the target lies from the end of the instruction, as a signed number of 32 bits.
    pub fn displacement(self) -> u32
        ensures { result ≡ displacement_of self }
    {
        match self {
            Self::Jump(displacement)
            | Self::Call(displacement)
            | Self::Conditional(_, displacement) => displacement,
        }
    }

    /// Where it goes to from its end, modulo 2^32.
    pub fn target(self, end: u32) -> u32
        ensures { result ≡ target_from end self }
    {
        end.wrapping_add(self.displacement())
    }
}

impl Decoded {
    /// Where a direct form that stands at `at` goes to; none for any other instruction.
    pub fn target(self, at: u32) -> Option<u32>
        ensures { result ≡ target_of self at }
    {
        match self.instruction {
            Instruction::Direct(direct) => Some(direct.target(at.wrapping_add(self.length))),
            _ => None,
        }
    }
}
