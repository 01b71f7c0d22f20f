//! What an instruction works on.
use crate::registers::{ByteRegister, Register, Scale};

/// The index of a SIB byte. Where the byte names no register, the index adds nothing, whatever its scale.
#[derive(Clone, Copy)]
pub struct Index {
    pub register: Option<Register>,
    pub scale: Scale,
}

/// A place in memory: base plus scaled index plus displacement, modulo 2^32. The index is absent where the form has no
/// SIB byte, and the displacement, sign-extended, where the form has none.
#[derive(Clone, Copy)]
pub struct Address {
    pub base: Option<Register>,
    pub index: Option<Index>,
    pub displacement: Option<u32>,
}

/// What can be written to: a register or a place in memory.
#[derive(Clone, Copy)]
pub enum Operand {
    Register(Register),
    ByteRegister(ByteRegister),
    Memory(Address),
}

/// What can only be read: an operand, or a number that stands in the instruction.
#[derive(Clone, Copy)]
pub enum Source {
    Operand(Operand),
    Immediate(u32),
}

/// What mod and rm of a ModRM byte name, before its width is known: a register's number or a place in memory.
#[derive(Clone, Copy)]
pub enum RegisterOrMemory {
    Register(u8),
    Memory(Address),
}

/// What a ModRM byte says: reg, the operand that mod and rm name, and the place after that operand's last byte, of which the
/// definition speaks and which a reader has by its own place.
#[derive(Clone, Copy)]
pub struct Modrm {
    pub reg: u8,
    pub operand: RegisterOrMemory,
    pub end: usize,
}
