//! What can be wrong with a line, and the words for it.
ghost use Rattle.std.specs.Prelude.{◌≡◌, Some};
ghost use Rattle.script.specs.Explained.{explanation};
ghost use Rattle.script.specs.declared.problems.Problem.TheVariants.{OutOfMemory};

use std::alloc::{AllocError, AllocFailed};
use std::error::Error;
use std::fmt;

/// Why a line could not be carried out.
#[derive(Clone, Copy, Debug)]
pub enum Problem {
    UnknownCommand,
    OddDigits,
    NoHexDigit,
    NoNumber,
    NumberTooLarge,
    TooManyBytes,
    MissingPath,
    TooManyWords,
    OutOfMemory,
    /// The file that a line names cannot be read.
    NoFile,
    /// The command needs a module, and none was taken yet.
    NoModule,
    /// The command needs a verdict, and none was given yet.
    NoVerdict,
    /// A marks buffer is too large for this program.
    TooManyMarks,
    /// After the word `memory` stands neither `flat` nor `paged`.
    NoMemoryKind,
    /// The command needs a memory, and none was made yet.
    NoMemory,
    /// More bytes are to be shown than one line shows.
    TooManyShown,
}

impl Problem {
    /// The problem in words for people.
    pub fn words(self) -> &'static str
        ensures { result.now ≡ explanation self }
    {
        match self {
            Problem::UnknownCommand => "unknown command",
            Problem::OddDigits => "an odd number of hexadecimal digits",
            Problem::NoHexDigit => "a character that is no hexadecimal digit",
            Problem::NoNumber => "not a number",
            Problem::NumberTooLarge => "a number above 4294967295",
            Problem::TooManyBytes => "too long, a module has at most 1048576 bytes",
            Problem::MissingPath => "no path after @",
            Problem::TooManyWords => "too many words",
            Problem::OutOfMemory => "out of memory",
            Problem::NoFile => "the file cannot be read",
            Problem::NoModule => "no module was taken yet",
            Problem::NoVerdict => "no module was judged yet",
            Problem::TooManyMarks => "a marks buffer has at most 1048576 bytes",
            Problem::NoMemoryKind => "a memory is flat or paged",
            Problem::NoMemory => "no memory was made yet",
            Problem::TooManyShown => "at most 65536 bytes are shown",
        }
    }
}

impl fmt::Display for Problem {
    ghost output = { λ p. Some (explanation p) };

    fn fmt<W: fmt::Write>(&self, f: &mut fmt::Formatter<W>) -> fmt::Result {
        f.write_str(self.words())
    }
}

impl Error for Problem {}

impl From<AllocError> for Problem {
    ghost from_gives = { λ _ r. r ≡ OutOfMemory };

    fn from(_error: AllocError) -> Problem {
        Problem::OutOfMemory
    }
}

impl<T: Drop> From<AllocFailed<T>> for Problem {
    ghost from_gives = { λ _ r. r ≡ OutOfMemory };

    fn from(_refused: AllocFailed<T>) -> Problem {
        Problem::OutOfMemory
    }
}
