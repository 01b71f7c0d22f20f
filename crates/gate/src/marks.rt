//! Marks buffers: bit i % 8 of byte i / 8 is the mark of address i.
ghost use Rattle.std.specs.Prelude.{◌≡◌, ◌*◌, ◌/◌, ◌<◌, ◌≤◌, length};
ghost use Rattle.gate.specs.Bitmaps.{marked, bit_at};
ghost use Rattle.gate.specs.Verdicts.{answer, misplaced};

use crate::refusals::Refusal;

/// Marks an address.
pub(crate) fn mark(buffer: &mut [u8], address: u32)
    requires { address / 8 < length buffer.old }
    ensures { buffer.new ≡ marked buffer.old address }
{
    buffer[address as usize / 8] |= 1u8 << (address % 8);
}

/// The lowest address that has to be a start and is none.
// The targets go by index. With both buffers under `zip` and `enumerate` the proof did not close: that a turn's bytes are those at
// its index (`loop-i-preserved` and both refusals) follows from no lemma.
pub(crate) fn compare(starts: &[u8], targets: &[u8]) -> Result<(), Refusal>
    requires { (length starts.now ≤ length targets.now) × (length starts.now ≤ 8192) }
    ensures { result ≡ answer (misplaced (bit_at starts.now) (bit_at targets.now) (8 * length starts.now)) }
{
    for (i, start) in starts.iter().enumerate() {
        if i % 4 == 0 && start % 2 == 0 {
            return Err(Refusal::Unaligned(8 * i as u32));
        }
        let missing = targets[i] & !start;
        if missing != 0 {
            return Err(Refusal::MidTarget(8 * i as u32 + missing.trailing_zeros()));
        }
    }
    Ok(())
}
