//! The walk over a transition table: the same for every table.
ghost use Rattle.std.specs.Prelude.{◌≡◌, ℕ, ◌^◌, ◌<◌, ◌≤◌, List, Option, drop};
ghost use Rattle.automata.specs.Runs.{run, Decides, Short};

use x86::code::Code;

/// A pattern of instructions and the transition table that decides it. State 0 rejects, state 1 accepts, state 2 starts.
pub trait Automaton {
    ghost states: { Self → ℕ };

    ghost next: { Self → ℕ → ℕ → ℕ };

    // how long the pattern at a place is, by the grammar
    ghost grammar: { Self → List ℕ → ℕ → Option ℕ };

    fn step(&self, state: usize, byte: u8) -> usize
        requires { state < states self.now }
        ensures rule { result ≡ next self.now state byte }
        ensures bound { result < states self.now };

    /// The table says what the grammar says. The call does nothing: its contract is the theorem.
    fn decides(&self)
        ensures decided { Decides (next self.now) (grammar self.now) }
        ensures short { Short (grammar self.now) };

    ghost starts: { (x : Self) → 2 < states x };
}

const ACCEPT: usize = 1;

const START: usize = 2;

/// How many bytes from `at` on the table accepts.
pub(crate) fn walk<A: Automaton, C: Code>(automaton: &A, code: &C, at: usize) -> Option<usize>
    ensures { result ≡ run (A.next automaton.now) 2 (drop at (C.bytes code.now)) }
{
    let mut state = START;
    for i in at..code.len() {
        state = automaton.step(state, code.byte(i));
        if state < START {
            return (state == ACCEPT).then(|| i - at + 1);
        }
    }
    None
}
