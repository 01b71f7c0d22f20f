//! What the walk takes at an address: a pair, else a straight form, else a direct form.
ghost use Rattle.std.specs.Prelude.{◌≡◌, IfSome};
ghost use Rattle.x86.specs.Laws.{Inside};
ghost use Rattle.gate.specs.Elements.{taken_at};

use automata::lengths::length;
use automata::patterns::{Directs, Pairs, Straights};
use x86::code::Code;

#[derive(Clone, Copy)]
pub enum Kind {
    Pair,
    Straight,
    Direct,
}

/// What is taken at an address and how long it is; none where nothing matches.
#[tactic(auto, unfolding(crate::specs::Elements::taken_at))]
pub fn element_at<C: Code>(code: &C, at: u32) -> Option<(Kind, u32)>
    ensures value { result ≡ taken_at (C.bytes code.now) at }
    ensures inside { IfSome result (λ x. Inside (C.bytes code.now) at x.1) }
{
    if let Some(length) = length(&Pairs, code, at) {
        return Some((Kind::Pair, length));
    }
    if let Some(length) = length(&Straights, code, at) {
        return Some((Kind::Straight, length));
    }
    let length = length(&Directs, code, at)?;
    Some((Kind::Direct, length))
}
