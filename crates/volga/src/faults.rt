//! Why a line of a script has no answer.
use script::problems::Problem;
use std::io;

/// Why a line has no answer.
#[derive(Drop)]
pub(crate) enum Fault {
    /// The line could not be carried out.
    Line(Problem),
    /// The answer could not be printed.
    Output(io::Error),
}

impl From<Problem> for Fault {
    fn from(problem: Problem) -> Fault {
        Fault::Line(problem)
    }
}

impl From<io::Error> for Fault {
    fn from(error: io::Error) -> Fault {
        Fault::Output(error)
    }
}
