//! What holds of the grammar by itself.
ghost use Rattle.x86.specs.Laws.{Unambiguous, ClassesApart, Short, Halves};

/// The laws of the grammar. The call does nothing: its contract is the theorem.
pub fn grammar_stands()
    ensures unambiguous { Unambiguous }
    ensures classes { ClassesApart }
    ensures short { Short }
    ensures halves { Halves }
{}
