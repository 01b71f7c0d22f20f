//! Registers, operations, conditions and widths, each with the number that Intel's tables give it.
ghost use Rattle.std.specs.Prelude.{◌≡◌};
ghost use Rattle.x86.specs.Numbers.{register_of, byte_register_of, segment_of, operation_of, condition_of, scale_of};

/// A 32-bit register.
#[derive(Clone, Copy)]
pub enum Register {
    Eax,
    Ecx,
    Edx,
    Ebx,
    Esp,
    Ebp,
    Esi,
    Edi,
}

/// A byte register: the low byte of one of the first four, or its second byte.
#[derive(Clone, Copy)]
pub enum ByteRegister {
    Al,
    Cl,
    Dl,
    Bl,
    Ah,
    Ch,
    Dh,
    Bh,
}

#[derive(Clone, Copy)]
pub enum SegmentRegister {
    Es,
    Cs,
    Ss,
    Ds,
    Fs,
    Gs,
}

/// How wide an operand or an immediate is: 8 bits or 32.
#[derive(Clone, Copy)]
pub enum Width {
    Byte,
    Long,
}

/// What ADD and its seven relatives do with two operands.
#[derive(Clone, Copy)]
pub enum Operation {
    Add,
    Or,
    Adc,
    Sbb,
    And,
    Sub,
    Xor,
    Cmp,
}

/// What a conditional jump asks of the flags, by Intel's letters.
#[derive(Clone, Copy)]
pub enum Condition {
    O,
    No,
    B,
    Ae,
    E,
    Ne,
    Be,
    A,
    S,
    Ns,
    P,
    Np,
    L,
    Ge,
    Le,
    G,
}

/// What an index register is multiplied by.
#[derive(Clone, Copy)]
pub enum Scale {
    One,
    Two,
    Four,
    Eight,
}

// `numbered` and not `From<u8>`: a number has the few bits of its field, and a `From` would say which register each of 256 is.
impl Register {
    pub(crate) fn numbered(n: u8) -> Self
        ensures { result ≡ register_of n }
    {
        match n {
            0 => Self::Eax,
            1 => Self::Ecx,
            2 => Self::Edx,
            3 => Self::Ebx,
            4 => Self::Esp,
            5 => Self::Ebp,
            6 => Self::Esi,
            _ => Self::Edi,
        }
    }
}

impl ByteRegister {
    pub(crate) fn numbered(n: u8) -> Self
        ensures { result ≡ byte_register_of n }
    {
        match n {
            0 => Self::Al,
            1 => Self::Cl,
            2 => Self::Dl,
            3 => Self::Bl,
            4 => Self::Ah,
            5 => Self::Ch,
            6 => Self::Dh,
            _ => Self::Bh,
        }
    }
}

impl SegmentRegister {
    /// The segment register that an instruction may load: CS is not one.
    pub(crate) fn numbered(n: u8) -> Option<Self>
        ensures { result ≡ segment_of n }
    {
        match n {
            0 => Some(Self::Es),
            2 => Some(Self::Ss),
            3 => Some(Self::Ds),
            4 => Some(Self::Fs),
            5 => Some(Self::Gs),
            _ => None,
        }
    }
}

impl Operation {
    pub(crate) fn numbered(n: u8) -> Self
        ensures { result ≡ operation_of n }
    {
        match n {
            0 => Self::Add,
            1 => Self::Or,
            2 => Self::Adc,
            3 => Self::Sbb,
            4 => Self::And,
            5 => Self::Sub,
            6 => Self::Xor,
            _ => Self::Cmp,
        }
    }
}

impl Condition {
    pub(crate) fn numbered(n: u8) -> Self
        ensures { result ≡ condition_of n }
    {
        match n {
            0 => Self::O,
            1 => Self::No,
            2 => Self::B,
            3 => Self::Ae,
            4 => Self::E,
            5 => Self::Ne,
            6 => Self::Be,
            7 => Self::A,
            8 => Self::S,
            9 => Self::Ns,
            10 => Self::P,
            11 => Self::Np,
            12 => Self::L,
            13 => Self::Ge,
            14 => Self::Le,
            _ => Self::G,
        }
    }
}

impl Scale {
    pub(crate) fn numbered(n: u8) -> Self
        ensures { result ≡ scale_of n }
    {
        match n {
            0 => Self::One,
            1 => Self::Two,
            2 => Self::Four,
            _ => Self::Eight,
        }
    }
}
