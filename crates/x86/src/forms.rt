//! The opcode map: what stands behind an opcode.
ghost use Rattle.std.specs.Prelude.{◌≡◌};
ghost use Rattle.x86.specs.Rows.{look_up, one_byte_rows, two_byte_rows};

use crate::registers::Width;

/// Which of E and G is written to.
#[derive(Clone, Copy)]
pub enum Direction {
    IntoOperand,
    IntoRegister,
}

/// A form that is its opcode alone.
#[derive(Clone, Copy)]
pub enum Alone {
    Increment,
    Decrement,
    Push,
    Pop,
    Nop,
    Halt,
    Return,
}

/// A form with an immediate or a displacement behind its opcode.
#[derive(Clone, Copy)]
pub enum WithImmediate {
    Accumulator(Width),
    Register(Width),
    Jump(Width),
    Call,
    Conditional(Width),
    Interrupt,
}

/// A form with a ModRM byte and its operand behind its opcode.
#[derive(Clone, Copy)]
pub enum WithOperand {
    Arithmetic(Width, Direction),
    Test(Width),
    Move(Width, Direction),
    LoadAddress,
    Through,
    LoadSegment,
}

/// A form with a ModRM byte, its operand and then an immediate.
#[derive(Clone, Copy)]
pub enum WithBoth {
    Arithmetic(Width),
    SignExtended,
    Move(Width),
}

/// A form by what stands behind its opcode.
#[derive(Clone, Copy)]
pub enum Form {
    Alone(Alone),
    WithImmediate(WithImmediate),
    WithOperand(WithOperand),
    WithBoth(WithBoth),
}

impl Form {
    /// The form of a one-byte opcode, and the number in its bits: of a register, a condition or an operation.
    // The number stands beside the form, so that the rows of specs/ are data; with it inside, each would hold a function.
    pub(crate) fn of(opcode: u8) -> Option<(Form, u8)>
        ensures { result ≡ look_up one_byte_rows opcode }
    {
        Some(match opcode {
            0x00..=0x3f if opcode % 8 == 0 => (
                Form::WithOperand(WithOperand::Arithmetic(Width::Byte, Direction::IntoOperand)),
                opcode / 8,
            ),
            0x00..=0x3f if opcode % 8 == 1 => (
                Form::WithOperand(WithOperand::Arithmetic(Width::Long, Direction::IntoOperand)),
                opcode / 8,
            ),
            0x00..=0x3f if opcode % 8 == 2 => (
                Form::WithOperand(WithOperand::Arithmetic(Width::Byte, Direction::IntoRegister)),
                opcode / 8,
            ),
            0x00..=0x3f if opcode % 8 == 3 => (
                Form::WithOperand(WithOperand::Arithmetic(Width::Long, Direction::IntoRegister)),
                opcode / 8,
            ),
            0x00..=0x3f if opcode % 8 == 4 => (
                Form::WithImmediate(WithImmediate::Accumulator(Width::Byte)),
                opcode / 8,
            ),
            0x00..=0x3f if opcode % 8 == 5 => (
                Form::WithImmediate(WithImmediate::Accumulator(Width::Long)),
                opcode / 8,
            ),
            0x40..=0x47 => (Form::Alone(Alone::Increment), opcode % 8),
            0x48..=0x4f => (Form::Alone(Alone::Decrement), opcode % 8),
            0x50..=0x57 => (Form::Alone(Alone::Push), opcode % 8),
            0x58..=0x5f => (Form::Alone(Alone::Pop), opcode % 8),
            0x70..=0x7f => (
                Form::WithImmediate(WithImmediate::Conditional(Width::Byte)),
                opcode % 16,
            ),
            0x80 => (Form::WithBoth(WithBoth::Arithmetic(Width::Byte)), 0),
            0x81 => (Form::WithBoth(WithBoth::Arithmetic(Width::Long)), 0),
            0x83 => (Form::WithBoth(WithBoth::SignExtended), 0),
            0x84 => (Form::WithOperand(WithOperand::Test(Width::Byte)), 0),
            0x85 => (Form::WithOperand(WithOperand::Test(Width::Long)), 0),
            0x88 => (
                Form::WithOperand(WithOperand::Move(Width::Byte, Direction::IntoOperand)),
                0,
            ),
            0x89 => (
                Form::WithOperand(WithOperand::Move(Width::Long, Direction::IntoOperand)),
                0,
            ),
            0x8a => (
                Form::WithOperand(WithOperand::Move(Width::Byte, Direction::IntoRegister)),
                0,
            ),
            0x8b => (
                Form::WithOperand(WithOperand::Move(Width::Long, Direction::IntoRegister)),
                0,
            ),
            0x8d => (Form::WithOperand(WithOperand::LoadAddress), 0),
            0x8e => (Form::WithOperand(WithOperand::LoadSegment), 0),
            0x90 => (Form::Alone(Alone::Nop), 0),
            0xb0..=0xb7 => (
                Form::WithImmediate(WithImmediate::Register(Width::Byte)),
                opcode % 8,
            ),
            0xb8..=0xbf => (
                Form::WithImmediate(WithImmediate::Register(Width::Long)),
                opcode % 8,
            ),
            0xc3 => (Form::Alone(Alone::Return), 0),
            0xc6 => (Form::WithBoth(WithBoth::Move(Width::Byte)), 0),
            0xc7 => (Form::WithBoth(WithBoth::Move(Width::Long)), 0),
            0xcd => (Form::WithImmediate(WithImmediate::Interrupt), 0),
            0xe8 => (Form::WithImmediate(WithImmediate::Call), 0),
            0xe9 => (Form::WithImmediate(WithImmediate::Jump(Width::Long)), 0),
            0xeb => (Form::WithImmediate(WithImmediate::Jump(Width::Byte)), 0),
            0xf4 => (Form::Alone(Alone::Halt), 0),
            0xff => (Form::WithOperand(WithOperand::Through), 0),
            _ => return None,
        })
    }

    /// The form of an opcode behind the byte 0F, and the number in its bits.
    pub(crate) fn behind_0f(opcode: u8) -> Option<(Form, u8)>
        ensures { result ≡ look_up two_byte_rows opcode }
    {
        match opcode {
            0x80..=0x8f => Some((
                Form::WithImmediate(WithImmediate::Conditional(Width::Long)),
                opcode % 16,
            )),
            _ => None,
        }
    }
}
