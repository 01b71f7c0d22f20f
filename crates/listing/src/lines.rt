//! The line of an element: where it stands, what it is, its bytes, and the instruction in Intel syntax.
ghost use Rattle.std.specs.Prelude.{◌≡◌, Some};
ghost use Rattle.listing.specs.Lines.{kind_word_of, wording, line_text};

use gate::elements::Kind;
use gate::readers::Element;
use script::spelling::Spelled;
use std::fmt;
use std::fmt::Display;
use syntax::Intel;
use syntax::instructions::Shown;
use x86::decoding::decode;
use x86::pairs::recognise;

// A word of a listing: the gate has no words for a kind, and a Display of its type could not stand here.
fn kind_word(kind: Kind) -> &'static str
    ensures { result.now ≡ kind_word_of kind }
{
    match kind {
        Kind::Pair => "pair",
        Kind::Straight => "straight",
        Kind::Direct => "direct",
    }
}

/// The bytes of an element as instructions.
#[derive(Clone, Copy)]
struct Worded<'a>(Element<'a>);

impl fmt::Display for Worded<'_> {
    ghost output = { λ x. Some (wording x.0.kind x.0.at x.0.bytes.now) };

    fn fmt<W: fmt::Write>(&self, f: &mut fmt::Formatter<W>) -> fmt::Result {
        let Element { kind, at, bytes } = self.0;
        match kind {
            Kind::Pair => match recognise(&bytes, 0) {
                Some(pair) => Intel(pair).fmt(f),
                None => Ok(()),
            },
            Kind::Straight | Kind::Direct => match decode(&bytes, 0) {
                Some(decoded) => Shown { at, decoded }.fmt(f),
                None => Ok(()),
            },
        }
    }
}

/// An element of a module as a line.
#[derive(Clone, Copy)]
pub struct Line<'a>(pub Element<'a>);

impl fmt::Display for Line<'_> {
    ghost output = { λ x. Some (line_text x.0.kind x.0.at x.0.bytes.now) };

    fn fmt<W: fmt::Write>(&self, f: &mut fmt::Formatter<W>) -> fmt::Result {
        let Element { kind, at, bytes } = self.0;
        write!(
            f,
            "{at} {} {}: {}",
            kind_word(kind),
            Spelled(bytes),
            Worded(self.0)
        )
    }
}
