//! The worked examples of the rules: a list, and one theorem that settles all of it.
#![tactic(auto)]

ghost use Rattle.examples.specs.Examples.{Settled, examples};

/// Each example of the list comes out as it says. The call does nothing: its contract is the theorem.
pub fn examples_stand()
    ensures { Settled examples }
{}
