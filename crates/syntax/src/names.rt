//! The words of the syntax: what a register, an operation and a condition are called.
ghost use Rattle.std.specs.Prelude.{◌≡◌, ℕ, List};
ghost use Rattle.syntax.specs.Names.{register_name, byte_register_name, segment_name, operation_name, jump_name, scale_name, width_name};

use x86::registers::{ByteRegister, Condition, Operation, Register, Scale, SegmentRegister, Width};

/// What the syntax has one fixed word for: a trait, and a table for each type, which share nothing but their shape.
pub trait Named {
    ghost word: { Self → List ℕ };

    fn name(self) -> &'static str
        ensures { result.now ≡ word self };
}

impl Named for Register {
    ghost word = { λ x. register_name x };

    fn name(self) -> &'static str {
        match self {
            Register::Eax => "eax",
            Register::Ecx => "ecx",
            Register::Edx => "edx",
            Register::Ebx => "ebx",
            Register::Esp => "esp",
            Register::Ebp => "ebp",
            Register::Esi => "esi",
            Register::Edi => "edi",
        }
    }
}

impl Named for ByteRegister {
    ghost word = { λ x. byte_register_name x };

    fn name(self) -> &'static str {
        match self {
            ByteRegister::Al => "al",
            ByteRegister::Cl => "cl",
            ByteRegister::Dl => "dl",
            ByteRegister::Bl => "bl",
            ByteRegister::Ah => "ah",
            ByteRegister::Ch => "ch",
            ByteRegister::Dh => "dh",
            ByteRegister::Bh => "bh",
        }
    }
}

impl Named for SegmentRegister {
    ghost word = { λ x. segment_name x };

    fn name(self) -> &'static str {
        match self {
            SegmentRegister::Es => "es",
            SegmentRegister::Cs => "cs",
            SegmentRegister::Ss => "ss",
            SegmentRegister::Ds => "ds",
            SegmentRegister::Fs => "fs",
            SegmentRegister::Gs => "gs",
        }
    }
}

/// The size that stands before a place in memory.
impl Named for Width {
    ghost word = { λ x. width_name x };

    fn name(self) -> &'static str {
        match self {
            Width::Byte => "BYTE PTR",
            Width::Long => "DWORD PTR",
        }
    }
}

/// The factor that stands behind an index register.
impl Named for Scale {
    ghost word = { λ x. scale_name x };

    fn name(self) -> &'static str {
        match self {
            Scale::One => "1",
            Scale::Two => "2",
            Scale::Four => "4",
            Scale::Eight => "8",
        }
    }
}

impl Named for Operation {
    ghost word = { λ x. operation_name x };

    fn name(self) -> &'static str {
        match self {
            Operation::Add => "add",
            Operation::Or => "or",
            Operation::Adc => "adc",
            Operation::Sbb => "sbb",
            Operation::And => "and",
            Operation::Sub => "sub",
            Operation::Xor => "xor",
            Operation::Cmp => "cmp",
        }
    }
}

/// The jump that is taken under a condition.
impl Named for Condition {
    ghost word = { λ x. jump_name x };

    fn name(self) -> &'static str {
        match self {
            Condition::O => "jo",
            Condition::No => "jno",
            Condition::B => "jb",
            Condition::Ae => "jae",
            Condition::E => "je",
            Condition::Ne => "jne",
            Condition::Be => "jbe",
            Condition::A => "ja",
            Condition::S => "js",
            Condition::Ns => "jns",
            Condition::P => "jp",
            Condition::Np => "jnp",
            Condition::L => "jl",
            Condition::Ge => "jge",
            Condition::Le => "jle",
            Condition::G => "jg",
        }
    }
}
