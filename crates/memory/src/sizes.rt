//! The sizes that a memory may have.
ghost use Rattle.std.specs.Prelude.{◌≡◌};
ghost use Rattle.memory.specs.Meaning.{fits};

/// Whether a memory may have so many bytes.
pub(crate) fn is_fit(size: usize) -> bool
    ensures { result ≡ fits size }
{
    256 <= size && size <= 1_048_576 && size % 256 == 0
}
