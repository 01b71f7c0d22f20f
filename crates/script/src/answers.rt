//! Answers in words. The first words of each are fixed, so that tools can read them.
ghost use Rattle.std.specs.Prelude.{Some};
ghost use Rattle.script.specs.Answered.{answer_text};

use crate::problems::Problem;
use crate::spelling::Spelled;
use std::fmt;

/// What came of a line.
#[derive(Clone, Copy)]
pub enum Answer<'a> {
    /// A module of so many bytes was taken.
    Taken { length: usize },
    /// The entry row from now on.
    Rowed { base: u32, count: u32 },
    /// A listing came to the end of a module of so many bytes.
    Ended { length: usize },
    /// A module passed.
    Passed,
    /// The marks of starts and of direct targets, a line each.
    Marked { starts: &'a [u8], targets: &'a [u8] },
    /// A line, counted from 1, could not be carried out.
    Failed { line: u64, problem: Problem },
}

impl fmt::Display for Answer<'_> {
    ghost output = { λ x. Some (answer_text x) };

    fn fmt<W: fmt::Write>(&self, f: &mut fmt::Formatter<W>) -> fmt::Result {
        match *self {
            Answer::Taken { length } => write!(f, "module {length} bytes"),
            Answer::Rowed { base, count } => write!(f, "row {base} {count}"),
            Answer::Ended { length } => write!(f, "end {length}"),
            Answer::Passed => f.write_str("passed"),
            Answer::Marked { starts, targets } => {
                write!(
                    f,
                    "starts {}\ntargets {}",
                    Spelled(starts),
                    Spelled(targets)
                )
            }
            Answer::Failed { line, problem } => write!(f, "error line {line}: {problem}"),
        }
    }
}
