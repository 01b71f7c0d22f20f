//! The gate for callers in C, as a static library.
#![tactic(auto)]

ghost use Rattle.std.specs.Prelude.{◌≡◌, length};
ghost use Rattle.gate.specs.Exports.{number_in, address_in};
ghost use Rattle.gate.specs.Verdicts.{starts_after, targets_after, verdict_of};

use gate::entries::EntryRow;
use gate::exports::Verdict;
use gate::verdicts::judge;

/// Judges an image as `gate::verdicts::judge` does.
// The clauses of `judge` once more, in numbers: C has no `Result` and no `EntryRow`.
#[unsafe(no_mangle)]
pub extern "C" fn gate_judge(
    image: &[u8],
    base: u32,
    count: u32,
    starts: &mut [u8],
    targets: &mut [u8],
) -> Verdict
    ensures number { result.number ≡ number_in (verdict_of image.now (record { base = base; count = count }) (length starts.old) (length targets.old)) }
    ensures address { result.address ≡ address_in (verdict_of image.now (record { base = base; count = count }) (length starts.old) (length targets.old)) }
    ensures starts { starts.new ≡ starts_after image.now (record { base = base; count = count }) starts.old targets.old }
    ensures targets { targets.new ≡ targets_after image.now (record { base = base; count = count }) starts.old targets.old }
{
    Verdict::from(judge(&image, EntryRow { base, count }, starts, targets))
}
