//! Bytes as a script spells them.
ghost use Rattle.std.specs.Prelude.{◌≡◌, ◌<◌, Some};
ghost use Rattle.script.specs.Spelled.{character, spelling};

use std::fmt;

/// Bytes as one group of lower-case hexadecimal digits, which reads back as these bytes.
#[derive(Clone, Copy)]
pub struct Spelled<'a>(pub &'a [u8]);

fn digit(n: u8) -> char
    requires { n < 16 }
    ensures { result ≡ character n }
{
    char::from_digit(u32::from(n), 16).unwrap()
}

impl fmt::Display for Spelled<'_> {
    ghost output = { λ x. Some (spelling x.0.now) };

    fn fmt<W: fmt::Write>(&self, f: &mut fmt::Formatter<W>) -> fmt::Result {
        let bytes = self.0;
        // Digit by digit: `{byte:02x}` takes twice the time.
        for &byte in bytes {
            f.write_char(digit(byte / 16))?;
            f.write_char(digit(byte % 16))?;
        }
        Ok(())
    }
}
