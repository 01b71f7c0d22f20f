//! The walk over an image, which marks its starts and its direct targets. Each function asks that both buffers have the size
//! that the image needs: that ties the three, and a struct of them would hide the buffers from its clauses (see `judge`).
ghost use Rattle.std.specs.Prelude.{◌≡◌, ◌/◌, true, length, is_ok};
ghost use Rattle.gate.specs.Bitmaps.{bitmap};
ghost use Rattle.gate.specs.Walks.{is_start, is_target, stopped};
ghost use Rattle.gate.specs.Verdicts.{answer, found};

use crate::entries::EntryRow;
use crate::images::Image;
use crate::marks::{compare, mark};
use crate::refusals::Refusal;
use automata::lengths::{length, target};
use automata::patterns::{Directs, Pairs, Straights};
use x86::code::Code;

/// Takes one element after another, and marks where each starts and where a direct form goes to.
// A `while`, and the order as in `element_at`: a `for` over elements tests each one's kind again, 281 us in place of 226 for
// 65,536 NOPs.
fn walk<C: Code>(
    image: &Image<'_, C>,
    row: EntryRow,
    starts: &mut [u8],
    targets: &mut [u8],
) -> Result<(), Refusal>
    requires starts { length starts.old ≡ image.now.size / 8 }
    requires targets { length targets.old ≡ image.now.size / 8 }
    ensures value { result ≡ answer (stopped (C.bytes image.now.code.now) row) }
    ensures starts { is_ok result ≡ true → starts.new ≡ bitmap (is_start (C.bytes image.now.code.now)) (image.now.size / 8) }
    ensures targets { is_ok result ≡ true → targets.new ≡ bitmap (is_target (C.bytes image.now.code.now)) (image.now.size / 8) }
{
    starts.fill(0);
    targets.fill(0);
    let mut at: u32 = 0;
    while at < image.size {
        mark(starts, at);
        if let Some(length) = length(&Pairs, image.code, at) {
            at += length;
        } else if let Some(length) = length(&Straights, image.code, at) {
            at += length;
        } else if let Some(length) = length(&Directs, image.code, at) {
            let target = target(image.code, at, length);
            if target < image.size {
                mark(targets, target);
            } else if !row.holds(target) {
                return Err(Refusal::FarTarget(at));
            }
            at += length;
        } else {
            return Err(Refusal::NoMatch(at));
        }
    }
    Ok(())
}

/// Walks over an image and compares the marks.
pub(crate) fn examine<C: Code>(
    image: &Image<'_, C>,
    row: EntryRow,
    starts: &mut [u8],
    targets: &mut [u8],
) -> Result<(), Refusal>
    requires starts { length starts.old ≡ image.now.size / 8 }
    requires targets { length targets.old ≡ image.now.size / 8 }
    ensures value { result ≡ answer (found (C.bytes image.now.code.now) row) }
    ensures starts { is_ok result ≡ true → starts.new ≡ bitmap (is_start (C.bytes image.now.code.now)) (image.now.size / 8) }
    ensures targets { is_ok result ≡ true → targets.new ≡ bitmap (is_target (C.bytes image.now.code.now)) (image.now.size / 8) }
{
    walk(image, row, starts, targets)?;
    compare(starts, targets)
}
