//! The verdict: which images pass, and what stands in the marks buffers after it.
ghost use Rattle.std.specs.Prelude.{◌≡◌, ◌/◌, true, length, is_ok};
ghost use Rattle.gate.specs.Walks.{is_start, is_target};
ghost use Rattle.x86.specs.Octets.{Octets};
ghost use Rattle.gate.specs.Exact.{ExactlyPolicy};
ghost use Rattle.gate.specs.Verdicts.{answer, found, shown_after, fits_length, starts_after, targets_after, verdict_of};

use crate::entries::EntryRow;
use crate::images::{Image, length_fits};
use crate::refusals::Refusal;
use crate::walks::examine;
use x86::code::{Code, octets};

// Over buffers of the size that the image needs: a refusal leaves no marks.
fn settle<C: Code>(
    image: &Image<'_, C>,
    row: EntryRow,
    starts: &mut [u8],
    targets: &mut [u8],
) -> Result<(), Refusal>
    requires starts { length starts.old ≡ image.now.size / 8 }
    requires targets { length targets.old ≡ image.now.size / 8 }
    ensures value { result ≡ answer (found (C.bytes image.now.code.now) row) }
    ensures starts { starts.new ≡ shown_after (found (C.bytes image.now.code.now) row) (is_start (C.bytes image.now.code.now)) (image.now.size / 8) }
    ensures targets { targets.new ≡ shown_after (found (C.bytes image.now.code.now) row) (is_target (C.bytes image.now.code.now)) (image.now.size / 8) }
{
    let verdict = examine(image, row, starts, targets);
    if verdict.is_err() {
        starts.fill(0);
        targets.fill(0);
    }
    verdict
}

// The checks in their order: the equation, to which `judge` adds what it means for the policy.
fn checked<C: Code>(
    code: &C,
    row: EntryRow,
    starts: &mut [u8],
    targets: &mut [u8],
) -> Result<(), Refusal>
    ensures value { result ≡ answer (verdict_of (C.bytes code.now) row (length starts.old) (length targets.old)) }
    ensures starts { starts.new ≡ starts_after (C.bytes code.now) row starts.old targets.old }
    ensures targets { targets.new ≡ targets_after (C.bytes code.now) row starts.old targets.old }
{
    let image = Image::of(code)?;
    let count = image.size as usize / 8;
    if starts.len() < count || targets.len() < count {
        return Err(Refusal::Marks);
    }
    if !row.fits(image.size) {
        return Err(Refusal::Row);
    }
    settle(&image, row, &mut starts[..count], &mut targets[..count])
}

// The policy speaks of bytes; that the source has some is known by reading them. Only an image of a fit length is read for it,
// and the reading has no effect.
fn image_octets<C: Code>(code: &C)
    ensures { fits_length (length (C.bytes code.now)) ≡ true → Octets (C.bytes code.now) 0 (length (C.bytes code.now)) }
{
    let length = code.len();
    if length_fits(length) {
        octets(code, 0, length);
    }
}

/// Judges an image, and leaves the marks of one that passes.
// The buffers are two parameters: of a struct that lends both, a clause could name them only by place, as `marks.exit.1.0.now`.
pub fn judge<C: Code>(
    code: &C,
    row: EntryRow,
    starts: &mut [u8],
    targets: &mut [u8],
) -> Result<(), Refusal>
    ensures value { result ≡ answer (verdict_of (C.bytes code.now) row (length starts.old) (length targets.old)) }
    ensures starts { starts.new ≡ starts_after (C.bytes code.now) row starts.old targets.old }
    ensures targets { targets.new ≡ targets_after (C.bytes code.now) row starts.old targets.old }
    ensures policy { ExactlyPolicy (C.bytes code.now) row (length starts.old) (length targets.old) (is_ok result) }
{
    image_octets(code);
    checked(code, row, starts, targets)
}
