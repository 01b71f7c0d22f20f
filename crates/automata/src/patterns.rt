//! The three patterns, each with its table and the proof that it decides what the grammar says: so a type each, with its laws.
ghost use Rattle.std.specs.Prelude.{◌≡◌};
ghost use Rattle.automata.specs.Straights.{straight_next};
ghost use Rattle.automata.specs.Directs.{direct_next};
ghost use Rattle.automata.specs.Masks.{pair_next};
ghost use Rattle.automata.specs.Lengths.{straight_length_of, direct_length_of, pair_length_of};
ghost use Rattle.std.proofs.Common.{ltb→lt};

use crate::tables::{DIRECT, PAIR, STRAIGHT};
use crate::walks::Automaton;

/// The straight forms.
pub struct Straights;

impl Automaton for Straights {
    ghost states = { λ _. 21 };

    ghost next = { λ _. straight_next };

    ghost grammar = { λ _. straight_length_of };

    ghost starts = { λ _. ltb→lt 2 21 tt };

    fn step(&self, state: usize, byte: u8) -> usize {
        STRAIGHT[state][byte as usize] as usize
    }

    fn decides(&self) {}
}

/// The direct forms.
pub struct Directs;

impl Automaton for Directs {
    ghost states = { λ _. 8 };

    ghost next = { λ _. direct_next };

    ghost grammar = { λ _. direct_length_of };

    ghost starts = { λ _. ltb→lt 2 8 tt };

    fn step(&self, state: usize, byte: u8) -> usize {
        DIRECT[state][byte as usize] as usize
    }

    fn decides(&self) {}
}

/// The pairs.
pub struct Pairs;

impl Automaton for Pairs {
    ghost states = { λ _. 28 };

    ghost next = { λ _. pair_next };

    ghost grammar = { λ _. pair_length_of };

    ghost starts = { λ _. ltb→lt 2 28 tt };

    fn step(&self, state: usize, byte: u8) -> usize {
        PAIR[state][byte as usize] as usize
    }

    fn decides(&self) {}
}
