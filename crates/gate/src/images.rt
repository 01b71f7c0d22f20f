//! Code that may be an image, by its length.
ghost use Rattle.std.specs.Prelude.{◌≡◌, true, length};
ghost use Rattle.gate.specs.Images.{AsImage};
ghost use Rattle.gate.specs.Verdicts.{fits_length};

use crate::refusals::Refusal;
use x86::code::Code;

/// Whether an image may have `n` bytes.
pub fn length_fits(n: usize) -> bool
    ensures { result ≡ fits_length n }
{
    n != 0 && n <= 65536 && n % 32 == 0
}

/// Code of a length that an image may have: asked once, and as a `u32`, as addresses are.
#[derive(Drop)]
pub(crate) struct Image<'a, C: Code> {
    pub code: &'a C,
    pub size: u32,
    ghost whole: { size ≡ length (C.bytes code.now) },
    ghost fit: { fits_length size ≡ true },
}

impl<'a, C: Code> Image<'a, C> {
    pub(crate) fn of(code: &'a C) -> Result<Image<'a, C>, Refusal>
        ensures { AsImage (C.bytes code.now) (λ i. C.bytes i.code.now) result }
    {
        let size = code.len();
        if !length_fits(size) {
            return Err(Refusal::Length);
        }
        Ok(Image {
            code,
            size: size as u32,
        })
    }
}
