//! The column of the mnemonics.
ghost use Rattle.std.specs.Prelude.{Some};
ghost use Rattle.syntax.specs.Mnemonics.{mnemonic_text};

use std::fmt;

/// A mnemonic before its operands: six columns, and a space.
#[derive(Clone, Copy)]
pub struct Mnemonic(pub &'static str);

impl fmt::Display for Mnemonic {
    ghost output = { λ x. Some (mnemonic_text x.0.now) };

    #[tactic(auto, using(crate::proofs::Gaps::wide))]
    fn fmt<W: fmt::Write>(&self, f: &mut fmt::Formatter<W>) -> fmt::Result {
        let name = self.0;
        // `{name:<6}` would count characters, and `mnemonic_text` counts bytes.
        let gap = 6usize.saturating_sub(name.len());
        write!(f, "{name}{:gap$} ", "")
    }
}
