//! The pair: five bytes that mask a register other than ESP with E0 and then jump or call through it.
ghost use Rattle.std.specs.Prelude.{◌≡◌, ◌+◌, ◌^◌, ◌<◌, OnSome};
ghost use Rattle.x86.specs.Laws.{Inside, EveryPair, OnlyPairs};
ghost use Rattle.x86.specs.Pairs.{masks, transfer_at, pair_at, mask_of, leave_of};

use crate::code::Code;
use crate::instructions::{Loose, Straight};
use crate::operands::{Operand, Source};
use crate::registers::{Operation, Register, Width};

/// How a pair leaves.
#[derive(Clone, Copy)]
pub enum Transfer {
    Jump,
    Call,
}

#[derive(Clone, Copy)]
pub struct Pair {
    pub register: Register,
    pub transfer: Transfer,
}

impl Pair {
    /// The first half: AND of the register with the byte E0, extended by its sign.
    pub fn mask(self) -> Straight
        ensures { result ≡ mask_of self.register }
    {
        Straight::Arithmetic(
            Operation::And,
            Width::Long,
            Operand::Register(self.register),
            Source::Immediate(0xffff_ffe0),
        )
    }

    /// The second half: a jump or a call through the register.
    pub fn leave(self) -> Loose
        ensures { result ≡ leave_of self.transfer self.register }
    {
        match self.transfer {
            Transfer::Jump => Loose::Jump(self.register),
            Transfer::Call => Loose::Call(self.register),
        }
    }
}

// 83, a byte that names a register other than ESP, E0, FF
fn masked<C: Code>(code: &C, at: usize) -> bool
    requires { at < 2 ^ 32 }
    ensures { result ≡ masks (C.bytes code.now) at }
{
    code.byte(at) == 0x83
        && matches!(code.byte(at + 1), 0xe0..=0xe3 | 0xe5..=0xe7)
        && code.byte(at + 2) == 0xe0
        && code.byte(at + 3) == 0xff
}

fn transferred(number: u8, byte: u8) -> Option<Pair>
    requires { number < 16 }
    ensures { result ≡ transfer_at number byte }
{
    let transfer = if byte == 0xe0 + number {
        Transfer::Jump
    } else if byte == 0xd0 + number {
        Transfer::Call
    } else {
        return None;
    };
    Some(Pair {
        register: Register::numbered(number),
        transfer,
    })
}

// The pair at a place, if it ends inside the bytes. Apart from `recognise`, so that its laws need no proof at each return.
fn bounded<C: Code>(code: &C, at: u32) -> Option<Pair>
    ensures value { result ≡ pair_at (C.bytes code.now) at }
    ensures inside { OnSome result (Inside (C.bytes code.now) at 5) }
{
    let start = at as usize;
    if start + 5 > code.len() || !masked(code, start) {
        return None;
    }
    transferred(code.byte(start + 1) - 0xe0, code.byte(start + 4))
}

/// The pair at an address; none where the bytes there are no pair, or run past the end.
#[tactic(auto, using(crate::proofs::Paired::every_pair))]
pub fn recognise<C: Code>(code: &C, at: u32) -> Option<Pair>
    ensures value { result ≡ pair_at (C.bytes code.now) at }
    ensures inside { OnSome result (Inside (C.bytes code.now) at 5) }
    ensures every { EveryPair (C.bytes code.now) at result }
    ensures only { OnlyPairs (C.bytes code.now) at result }
{
    bounded(code, at)
}
