//! The verdict in numbers, for callers in C: the crate `gate_c` exports it.
ghost use Rattle.gate.specs.Exports.{in_numbers};

use crate::refusals::Refusal;

/// 0 for a pass, or the number of the check that refuses and the address that it is about: a flag with a value beside it, since
/// C has no `Result`.
#[repr(C)]
#[derive(Clone, Copy)]
pub struct Verdict {
    pub number: u32,
    pub address: u32,
}

impl From<Result<(), Refusal>> for Verdict {
    ghost use Rattle.std.specs.Prelude.{◌≡◌};

    ghost from_gives = { λ v r. r ≡ in_numbers v };

    fn from(verdict: Result<(), Refusal>) -> Verdict {
        match verdict {
            Ok(()) => Verdict {
                number: 0,
                address: 0,
            },
            Err(refusal) => Verdict {
                number: u32::from(refusal.number()),
                address: refusal.address().unwrap_or(0),
            },
        }
    }
}
