//! The words of a text: what stands between blanks. Each is handed out as a part of the text.
ghost use Rattle.std.specs.Prelude.{◌≡◌};
ghost use Rattle.std.specs.Option.{option_map};
ghost use Rattle.std.specs.Iterator.{item_count};
ghost use Rattle.script.specs.Words.{rest_of, words_of, TakesWord};

use crate::parts::{blank, front};

/// A text with a place in it: the words before the place have been handed out.
#[derive(Drop)]
pub struct Words<'a> {
    left: &'a [u8],
}

impl<'a> Words<'a> {
    pub fn new(text: &'a [u8]) -> Words<'a>
        ensures { result.left.now ≡ text.now }
    {
        Words { left: text }
    }

    /// What is left from the next word on.
    pub fn rest(&self) -> &'a [u8]
        ensures { result.now ≡ rest_of self.now.left.now }
    {
        let left = self.left;
        &left[front(left, blank)..]
    }
}

/// The next word, where there is one; the place is then after it.
impl<'a> Iterator for Words<'a> {
    type Item = &'a [u8];

    ghost next_gives = { λ s r t. TakesWord s.left.now (option_map (λ x. x.now) r) t.left.now };

    ghost remaining = { item_count (λ s. words_of s.left.now) };

    #[tactic(auto, using(crate::proofs::Splits::split_as))]
    fn next(&mut self) -> Option<&'a [u8]> {
        let rest = self.rest();
        let size = front(rest, |character| !blank(character));
        let (word, left) = rest.split_at(size);
        self.left = left;
        if size == 0 { None } else { Some(word) }
    }
}
