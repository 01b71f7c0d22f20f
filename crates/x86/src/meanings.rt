//! Which instruction a form makes of its parts.
ghost use Rattle.std.specs.Prelude.{◌≡◌};
ghost use Rattle.x86.specs.Meanings.{extended, register_at, operand_at, in_order, alone_means, immediate_width, immediate_means, operand_means, both_width, both_means};

use crate::forms::{Alone, Direction, WithBoth, WithImmediate, WithOperand};
use crate::instructions::{Direct, Instruction, Loose, Straight};
use crate::operands::{Operand, RegisterOrMemory, Source};
use crate::registers::{ByteRegister, Condition, Operation, Register, SegmentRegister, Width};

impl Width {
    /// A number of this width as a signed number of 32 bits.
    // By `i8` it would need a number below 256 first; here each has its answer.
    pub fn extend(self, value: u32) -> u32
        ensures { result ≡ extended self value }
    {
        match self {
            Self::Byte if value < 0x80 => value,
            Self::Byte => value.wrapping_add(0xffff_ff00),
            Self::Long => value,
        }
    }
}

impl Operand {
    // the register with this number at this width
    fn register(width: Width, n: u8) -> Self
        ensures { result ≡ register_at width n }
    {
        match width {
            Width::Byte => Operand::ByteRegister(ByteRegister::numbered(n)),
            Width::Long => Operand::Register(Register::numbered(n)),
        }
    }
}

impl RegisterOrMemory {
    fn at(self, width: Width) -> Operand
        ensures { result ≡ operand_at width self }
    {
        match self {
            Self::Register(n) => Operand::register(width, n),
            Self::Memory(address) => Operand::Memory(address),
        }
    }
}

impl Direction {
    // the operand that is written to, and the one that is only read
    fn order(self, e: Operand, g: Operand) -> (Operand, Source)
        ensures { result ≡ in_order self e g }
    {
        match self {
            Self::IntoOperand => (e, Source::Operand(g)),
            Self::IntoRegister => (g, Source::Operand(e)),
        }
    }
}

impl Alone {
    pub(crate) fn instruction(self, number: u8) -> Instruction
        ensures { result ≡ alone_means self number }
    {
        let register = Register::numbered(number);
        match self {
            Self::Increment => Instruction::Straight(Straight::Increment(register)),
            Self::Decrement => Instruction::Straight(Straight::Decrement(register)),
            Self::Push => Instruction::Straight(Straight::Push(register)),
            Self::Pop => Instruction::Straight(Straight::Pop(register)),
            Self::Nop => Instruction::Straight(Straight::Nop),
            Self::Halt => Instruction::Straight(Straight::Halt),
            Self::Return => Instruction::Loose(Loose::Return),
        }
    }
}

impl WithImmediate {
    pub(crate) fn width(self) -> Width
        ensures { result ≡ immediate_width self }
    {
        match self {
            Self::Accumulator(width)
            | Self::Register(width)
            | Self::Jump(width)
            | Self::Conditional(width) => width,
            Self::Call => Width::Long,
            Self::Interrupt => Width::Byte,
        }
    }

    pub(crate) fn instruction(self, number: u8, value: u32) -> Instruction
        ensures { result ≡ immediate_means self number value }
    {
        match self {
            Self::Accumulator(width) => Instruction::Straight(Straight::Arithmetic(
                Operation::numbered(number),
                width,
                Operand::register(width, 0),
                Source::Immediate(value),
            )),
            Self::Register(width) => {
                Instruction::Straight(Straight::Move(
                    width,
                    Operand::register(width, number),
                    Source::Immediate(value),
                ))
            }
            Self::Jump(width) => Instruction::Direct(Direct::Jump(width.extend(value))),
            Self::Call => Instruction::Direct(Direct::Call(value)),
            Self::Conditional(width) => {
                Instruction::Direct(Direct::Conditional(
                    Condition::numbered(number),
                    width.extend(value),
                ))
            }
            Self::Interrupt => Instruction::Loose(Loose::Interrupt((value % 256) as u8)),
        }
    }
}

impl WithOperand {
    /// None where the form excludes this mod or this reg.
    pub(crate) fn instruction(
        self,
        number: u8,
        reg: u8,
        operand: RegisterOrMemory,
    ) -> Option<Instruction>
        ensures { result ≡ operand_means self number reg operand }
    {
        match self {
            Self::Arithmetic(width, direction) => {
                let (to, from) = direction.order(operand.at(width), Operand::register(width, reg));
                Some(Instruction::Straight(Straight::Arithmetic(
                    Operation::numbered(number),
                    width,
                    to,
                    from,
                )))
            }
            Self::Test(width) => Some(Instruction::Straight(Straight::Test(
                width,
                operand.at(width),
                Source::Operand(Operand::register(width, reg)),
            ))),
            Self::Move(width, direction) => {
                let (to, from) = direction.order(operand.at(width), Operand::register(width, reg));
                Some(Instruction::Straight(Straight::Move(width, to, from)))
            }
            Self::LoadAddress => {
                let RegisterOrMemory::Memory(address) = operand else {
                    return None;
                };
                Some(Instruction::Straight(Straight::LoadAddress(Register::numbered(reg), address)))
            }
            Self::Through => {
                let RegisterOrMemory::Register(n) = operand else {
                    return None;
                };
                match reg {
                    2 => Some(Instruction::Loose(Loose::Call(Register::numbered(n)))),
                    4 => Some(Instruction::Loose(Loose::Jump(Register::numbered(n)))),
                    _ => None,
                }
            }
            Self::LoadSegment => {
                let RegisterOrMemory::Register(n) = operand else {
                    return None;
                };
                let segment = SegmentRegister::numbered(reg)?;
                Some(Instruction::Loose(Loose::LoadSegment(segment, Register::numbered(n))))
            }
        }
    }
}

impl WithBoth {
    pub(crate) fn width(self) -> Width
        ensures { result ≡ both_width self }
    {
        match self {
            Self::Arithmetic(width) | Self::Move(width) => width,
            Self::SignExtended => Width::Byte,
        }
    }

    /// None where the form excludes this reg.
    pub(crate) fn instruction(
        self,
        reg: u8,
        operand: RegisterOrMemory,
        value: u32,
    ) -> Option<Instruction>
        ensures { result ≡ both_means self reg operand value }
    {
        match self {
            Self::Arithmetic(width) => Some(Instruction::Straight(Straight::Arithmetic(
                Operation::numbered(reg),
                width,
                operand.at(width),
                Source::Immediate(value),
            ))),
            Self::SignExtended => Some(Instruction::Straight(Straight::Arithmetic(
                Operation::numbered(reg),
                Width::Long,
                operand.at(Width::Long),
                Source::Immediate(Width::Byte.extend(value)),
            ))),
            Self::Move(width) => {
                if reg != 0 {
                    return None;
                }
                Some(Instruction::Straight(Straight::Move(
                    width,
                    operand.at(width),
                    Source::Immediate(value),
                )))
            }
        }
    }
}
