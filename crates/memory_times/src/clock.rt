//! How fast a work is done: the best of many rounds, in million bytes a second.
use crate::work::SIZE;
use std::io;
use std::time::Instant;

const ROUNDS: u32 = 40;

// The time since `start` in nanoseconds, at least one.
fn taken(rt: &HostRuntime, start: &Instant) -> io::Result<u64> {
    let nanoseconds = start.elapsed(rt)?.as_nanos();
    Ok(u64::try_from(nanoseconds).unwrap_or(u64::MAX).max(1))
}

/// Each round is told its number.
pub(crate) fn rate<F: FnMut(u32)>(rt: &HostRuntime, mut work: F) -> io::Result<u64>
    requires { F.IsAlwaysCallable work }
{
    let mut best = u64::MAX;
    for round in 0..ROUNDS {
        let start = Instant::now(rt)?;
        work(round);
        best = best.min(taken(rt, &start)?);
    }
    Ok(u64::from(SIZE) * 1_000 / best.max(1))
}
