//! The pass: an image that the gate has let through. Only the gate makes one, and while it is held its image does not
//! change.
ghost use Rattle.std.specs.Prelude.{◌≡◌, true, length, is_ok, MatchResult};
ghost use Rattle.gate.specs.Refusals.{refusal_in};
ghost use Rattle.gate.specs.Exact.{ExactlyPolicy};
ghost use Rattle.gate.specs.Verdicts.{passes, starts_after, targets_after, verdict_of};

use crate::entries::EntryRow;
use crate::refusals::Refusal;
use crate::verdicts::judge;

/// An image and the row that it passes with.
#[derive(Drop)]
pub struct Pass {
    image: Vec<u8>,
    row: EntryRow,
    ghost ok: { passes image.items row ≡ true },
}

/// A refused image, handed back.
#[derive(Drop)]
pub struct Refused {
    pub image: Vec<u8>,
    pub refusal: Refusal,
}

/// Judges an image: a pass that holds it, or the image back and why it is refused.
pub fn gate(
    image: Vec<u8>,
    row: EntryRow,
    starts: &mut [u8],
    targets: &mut [u8],
) -> Result<Pass, Refused>
    ensures value { refusal_in result ≡ verdict_of image.items row (length starts.old) (length targets.old) }
    ensures image { MatchResult result (λ p. (p.image ≡ image) × (p.row ≡ row)) (λ e. e.image ≡ image) }
    ensures starts { starts.new ≡ starts_after image.items row starts.old targets.old }
    ensures targets { targets.new ≡ targets_after image.items row starts.old targets.old }
    ensures policy { ExactlyPolicy image.items row (length starts.old) (length targets.old) (is_ok result) }
{
    match judge(&image, row, starts, targets) {
        Ok(()) => Ok(Pass { image, row }),
        Err(refusal) => Err(Refused { image, refusal }),
    }
}

impl Pass {
    pub fn image(&self) -> &[u8]
        ensures { result.now ≡ self.now.image.items }
    {
        self.image.as_slice()
    }

    pub fn row(&self) -> EntryRow
        ensures { result ≡ self.now.row }
    {
        self.row
    }

    /// Lets the pass go.
    pub fn into_image(self) -> Vec<u8>
        ensures { result ≡ self.image }
    {
        let Pass { image, row: _ } = self;
        image
    }
}
