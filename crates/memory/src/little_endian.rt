//! A datum in a run of bytes, lowest byte first.
ghost use Rattle.std.specs.Prelude.{◌≡◌, ◌+◌, ◌≤◌, length};
ghost use Rattle.memory.specs.Access.{laid};
ghost use Rattle.memory.specs.Data.{parts, long_at};
ghost use Rattle.memory.specs.Meaning.{Octets};

use crate::data::Datum;

/// Writes a datum over the bytes from `at` on.
pub(crate) fn lay(bytes: &mut [u8], at: usize, datum: Datum)
    requires { at + length (parts datum) ≤ length bytes.old }
    ensures value { bytes.new ≡ laid bytes.old at (parts datum) }
    ensures octets { Octets bytes.old → Octets bytes.new }
{
    match datum {
        Datum::Byte(byte) => bytes[at] = byte,
        Datum::Long(number) => bytes[at..at + 4].copy_from_slice(&number.to_le_bytes()),
    }
}

/// The number whose four bytes stand at `at`.
pub(crate) fn long(bytes: &[u8], at: usize) -> u32
    requires { at + 4 ≤ length bytes.now }
    ensures { result ≡ long_at bytes.now at }
{
    u32::from_le_bytes([bytes[at], bytes[at + 1], bytes[at + 2], bytes[at + 3]])
}
