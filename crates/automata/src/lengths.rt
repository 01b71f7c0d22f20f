//! The length of a pattern at an address, and the target of a direct form.
ghost use Rattle.std.specs.Prelude.{◌≡◌, IfSome, Some};
ghost use Rattle.x86.specs.Laws.{Inside};
ghost use Rattle.automata.specs.Lengths.{direct_length_of, direct_target_of, displacement_in, target_by_length};

use crate::patterns::Directs;
use crate::walks::{Automaton, walk};
use x86::code::Code;
use x86::decoding::number_at;
use x86::registers::Width;

/// The length of a pattern at an address.
pub fn length<A: Automaton, C: Code>(pattern: &A, code: &C, at: u32) -> Option<u32>
    ensures value { result ≡ A.grammar pattern.now (C.bytes code.now) at }
    ensures inside { IfSome result (λ n. Inside (C.bytes code.now) at n) }
{
    pattern.decides();
    let length = walk(pattern, code, at as usize)?;
    Some(length as u32)
}

// The displacement of a direct form stands in its last bytes: one in a form of two bytes, four in a longer one.
fn displacement<C: Code>(code: &C, at: u32, length: u32) -> u32
    ensures { result ≡ displacement_in (C.bytes code.now) at length }
{
    if length == 2 {
        Width::Byte.extend(number_at(code, at, 1, Width::Byte))
    } else {
        number_at(code, at, length.saturating_sub(4), Width::Long)
    }
}

/// Where a direct form of this length at an address goes to, modulo 2^32.
// In line it would take registers from the walk, which meets few direct forms.
#[tactic(auto, using(crate::proofs::Targets::target_is))]
#[inline(never)]
pub fn target<C: Code>(code: &C, at: u32, length: u32) -> u32
    ensures value { result ≡ target_by_length (C.bytes code.now) at length }
    ensures target { direct_length_of (C.bytes code.now) at ≡ Some length → direct_target_of (C.bytes code.now) at ≡ Some result }
{
    let displacement = displacement(code, at, length);
    at.wrapping_add(length).wrapping_add(displacement)
}

/// Where the direct form at an address goes to, modulo 2^32.
#[tactic(auto, using(crate::proofs::Targets::no_target))]
pub fn direct_target<C: Code>(code: &C, at: u32) -> Option<u32>
    ensures { result ≡ direct_target_of (C.bytes code.now) at }
{
    let length = length(&Directs, code, at)?;
    Some(target(code, at, length))
}
