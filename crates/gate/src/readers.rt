//! The elements of an image, one after another.
ghost use Rattle.std.specs.Prelude.{◌≡◌, true, length};
ghost use Rattle.gate.specs.Verdicts.{fits_length};

use crate::elements::{Kind, element_at};
use crate::images::length_fits;
use crate::refusals::Refusal;

/// What is taken at an address. The bytes are a part of the image.
#[derive(Clone, Copy)]
pub struct Element<'a> {
    pub kind: Kind,
    pub at: u32,
    pub bytes: &'a [u8],
}

/// An image with a place in it: the elements before the place have been handed out.
#[derive(Drop)]
pub struct Reader<'a> {
    image: &'a [u8],
    at: u32,
    ghost fit: { fits_length (length image.now) ≡ true },
}

impl<'a> Reader<'a> {
    ghost use Rattle.gate.specs.Reading.{Opens};

    /// A reader at the start of an image whose length the gate takes.
    pub fn new(image: &'a [u8]) -> Result<Reader<'a>, Refusal>
        ensures { Opens image.now result }
    {
        if length_fits(image.len()) {
            Ok(Reader { image, at: 0 })
        } else {
            Err(Refusal::Length)
        }
    }
}

impl<'a> Iterator for Reader<'a> {
    ghost use Rattle.gate.specs.Reading.{Reads};

    type Item = Result<Element<'a>, Refusal>;

    ghost next_gives = { λ s r t. (t.image.now ≡ s.image.now) × Reads s.image.now s.at r t.at };

    /// The element at the place, and the place moves past it. Where nothing matches the place stays.
    fn next(&mut self) -> Option<Result<Element<'a>, Refusal>> {
        let image = self.image;
        let at = self.at;
        if image.len() <= at as usize {
            return None;
        }
        let Some((kind, length)) = element_at(&image, at) else {
            return Some(Err(Refusal::NoMatch(at)));
        };
        let bytes = &image[at as usize..(at + length) as usize];
        self.at = at + length;
        Some(Ok(Element { kind, at, bytes }))
    }
}
