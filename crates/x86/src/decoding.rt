//! The decoder: from the bytes at an address to the instruction that they are.
ghost use Rattle.std.specs.Prelude.{◌≡◌, ◌+◌, ◌*◌, ◌^◌, ◌<◌, ◌≤◌, IfSome, slice_index};
ghost use Rattle.std.specs.Option.{option_map};
ghost use Rattle.x86.specs.Numbers.{width_bytes};
ghost use Rattle.x86.specs.Laws.{Inside, EveryEncoding, OnlyEncodings};
ghost use Rattle.x86.specs.Decoded.{long_at, value_at, displacement_width_of, displacement_at, base_of, index_of, address_at, modrm_at, form_at, row_at, read_at, decoded_at};

use crate::code::{Code, octets};
use crate::forms::Form;
use crate::instructions::{Decoded, Instruction};
use crate::operands::{Address, Index, Modrm, RegisterOrMemory};
use crate::registers::{Register, Scale, Width};

/// A place among bytes, which goes on past what is read.
#[derive(Drop)]
struct Cursor<'a, C> {
    code: &'a C,
    at: usize,
}

// No sum of places overflows: each reading may begin at twice the places of those that it is a part of. A bound in the type
// would not last, since each byte moves the place.
impl<C: Code> Cursor<'_, C> {
    fn byte(&mut self) -> u8
        requires { self.old.at < 2 ^ 36 }
        ensures value { result ≡ slice_index (C.bytes self.old.code.now) self.old.at }
        ensures next { self.new ≡ record self.old { at = self.old.at + 1 } }
    {
        let byte = self.code.byte(self.at);
        self.at += 1;
        byte
    }

    fn long(&mut self) -> u32
        requires { self.old.at < 2 ^ 35 }
        ensures value { result ≡ long_at (C.bytes self.old.code.now) self.old.at }
        ensures next { self.new ≡ record self.old { at = self.old.at + 4 } }
    {
        u32::from_le_bytes([self.byte(), self.byte(), self.byte(), self.byte()])
    }

    fn value(&mut self, width: Width) -> u32
        requires { self.old.at < 2 ^ 35 }
        ensures value { result ≡ value_at width (C.bytes self.old.code.now) self.old.at }
        ensures next { self.new ≡ record self.old { at = self.old.at + width_bytes width } }
    {
        match width {
            Width::Byte => u32::from(self.byte()),
            Width::Long => self.long(),
        }
    }

    fn displacement(&mut self, width: Option<Width>) -> Option<u32>
        requires { self.old.at < 2 ^ 35 }
        ensures value { result ≡ (displacement_at width (C.bytes self.old.code.now) self.old.at).0 }
        ensures next { self.new ≡ record self.old { at = (displacement_at width (C.bytes self.old.code.now) self.old.at).1 } }
        ensures bound { self.new.at ≤ self.old.at + 4 }
    {
        let width = width?;
        Some(width.extend(self.value(width)))
    }

    fn address(&mut self, mode: u8, rm: u8) -> Address
        requires { self.old.at < 2 ^ 34 }
        ensures value { result ≡ (address_at (C.bytes self.old.code.now) self.old.at mode rm).0 }
        ensures next { self.new ≡ record self.old { at = (address_at (C.bytes self.old.code.now) self.old.at mode rm).1 } }
        ensures bound { self.new.at ≤ self.old.at + 5 }
    {
        if rm != 4 {
            return Address {
                base: base(mode, rm),
                index: None,
                displacement: self.displacement(displacement_width(mode, rm)),
            };
        }
        let sib = self.byte();
        let number = sib % 8;
        Address {
            base: base(mode, number),
            index: Some(index(sib / 64, sib / 8 % 8)),
            displacement: self.displacement(displacement_width(mode, number)),
        }
    }

    fn modrm(&mut self) -> Modrm
        requires { self.old.at < 2 ^ 33 }
        ensures value { result ≡ modrm_at (C.bytes self.old.code.now) self.old.at }
        ensures next { self.new ≡ record self.old { at = result.end } }
        ensures bound { result.end ≤ self.old.at + 6 }
    {
        let byte = self.byte();
        let rm = byte % 8;
        let operand = if byte >= 0xc0 {
            RegisterOrMemory::Register(rm)
        } else {
            RegisterOrMemory::Memory(self.address(byte / 64, rm))
        };
        Modrm {
            reg: byte / 8 % 8,
            operand,
            end: self.at,
        }
    }

    // The instruction of a form, from the place after its opcode on.
    fn formed(&mut self, form: Form, number: u8) -> Option<Instruction>
        requires { self.old.at < 2 ^ 33 }
        ensures value { option_map (λ i. (i, self.new.at)) result ≡ form_at (C.bytes self.old.code.now) self.old.at form number }
        ensures code { self.new.code ≡ self.old.code }
        ensures bound { (self.old.at ≤ self.new.at) × (self.new.at ≤ self.old.at + 10) }
    {
        match form {
            Form::Alone(form) => Some(form.instruction(number)),
            Form::WithImmediate(form) => Some(form.instruction(number, self.value(form.width()))),
            Form::WithOperand(form) => {
                let modrm = self.modrm();
                form.instruction(number, modrm.reg, modrm.operand)
            }
            Form::WithBoth(form) => {
                let modrm = self.modrm();
                let value = self.value(form.width());
                form.instruction(modrm.reg, modrm.operand, value)
            }
        }
    }

    fn instruction(&mut self) -> Option<Instruction>
        requires { self.old.at < 2 ^ 32 }
        ensures value { option_map (λ i. (i, self.new.at)) result ≡ read_at (C.bytes self.old.code.now) self.old.at }
        ensures code { self.new.code ≡ self.old.code }
        ensures bound { (self.old.at < self.new.at) × (self.new.at ≤ self.old.at + 12) }
    {
        let opcode = self.byte();
        if opcode == 0x0f {
            let (form, number) = Form::behind_0f(self.byte())?;
            return self.formed(form, number);
        }
        let (form, number) = Form::of(opcode)?;
        self.formed(form, number)
    }
}

/// The number of a width that stands `offset` bytes behind an address, lowest byte first.
pub fn number_at<C: Code>(code: &C, at: u32, offset: u32, width: Width) -> u32
    ensures { result ≡ value_at width (C.bytes code.now) (at + offset) }
{
    let mut cursor = Cursor {
        code,
        at: at as usize + offset as usize,
    };
    cursor.value(width)
}

// The displacement under `mode`, beside a base or an rm with this number.
fn displacement_width(mode: u8, number: u8) -> Option<Width>
    ensures { result ≡ displacement_width_of mode number }
{
    match mode {
        1 => Some(Width::Byte),
        2 => Some(Width::Long),
        _ if number == 5 => Some(Width::Long),
        _ => None,
    }
}

fn base(mode: u8, number: u8) -> Option<Register>
    ensures { result ≡ base_of mode number }
{
    if mode == 0 && number == 5 {
        None
    } else {
        Some(Register::numbered(number))
    }
}

fn index(scale: u8, number: u8) -> Index
    ensures { result ≡ index_of scale number }
{
    Index {
        register: (number != 4).then(|| Register::numbered(number)),
        scale: Scale::numbered(scale),
    }
}

// The instruction at a place, if it ends inside the bytes. Apart from `decode`, so that its laws need no proof at each return.
fn bounded<C: Code>(code: &C, at: u32) -> Option<Decoded>
    ensures value { result ≡ decoded_at (C.bytes code.now) at }
    ensures inside { IfSome result (λ d. Inside (C.bytes code.now) at d.length) }
{
    let start = at as usize;
    let mut cursor = Cursor { code, at: start };
    let instruction = cursor.instruction()?;
    if cursor.at > code.len() {
        return None;
    }
    let length = (cursor.at - start) as u32;
    Some(Decoded {
        instruction,
        length,
    })
}

/// The instruction at an address and its length; none where no form matches, or the form runs past the end.
pub fn decode<C: Code>(code: &C, at: u32) -> Option<Decoded>
    ensures value { result ≡ decoded_at (C.bytes code.now) at }
    ensures inside { IfSome result (λ d. Inside (C.bytes code.now) at d.length) }
    ensures every { EveryEncoding (C.bytes code.now) at result }
    ensures only { OnlyEncodings (C.bytes code.now) at result }
{
    let decoded = bounded(code, at)?;
    octets(code, at as usize, at as usize + decoded.length as usize);
    Some(decoded)
}
