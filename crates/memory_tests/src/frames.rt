//! What a paged memory does with its frames.
use crate::accesses::Put;
use crate::made::paged;
use crate::tested::Tested;
use memory::data::Datum::{Byte, Long};
use memory::faults::MemoryFault::{NoFreePage, Outside};
use memory::memories::Memory;
use std::test::Fail;

// Three pages, one frame: after the first line it is still free for either page.
const FRAME_TO_THE_FIRST: [Put; 8] = [
    Put(
        254,
        Long(9),
        Err(NoFreePage(254)),
        "two to hold, one frame free",
    ),
    Put(255, Byte(1), Ok(()), "the first page gets the frame"),
    Put(
        253,
        Long(9),
        Err(NoFreePage(253)),
        "the second has no frame",
    ),
    Put(252, Long(7), Ok(()), "a held page needs no frame"),
    Put(
        256,
        Byte(9),
        Err(NoFreePage(256)),
        "the second has no frame",
    ),
    Put(
        767,
        Byte(9),
        Err(NoFreePage(767)),
        "the last byte is inside",
    ),
    Put(
        766,
        Long(9),
        Err(Outside(766)),
        "outside comes before no frame",
    ),
    Put(
        768,
        Byte(9),
        Err(Outside(768)),
        "outside comes before no frame",
    ),
];

const FRAME_TO_THE_SECOND: [Put; 5] = [
    Put(
        254,
        Long(9),
        Err(NoFreePage(254)),
        "two to hold, one frame free",
    ),
    Put(256, Byte(1), Ok(()), "the second page gets the frame"),
    Put(253, Long(9), Err(NoFreePage(253)), "the first has no frame"),
    Put(508, Long(7), Ok(()), "a held page needs no frame"),
    Put(255, Byte(9), Err(NoFreePage(255)), "the first has no frame"),
];

// Three pages and two frames from here on.
const NEITHER_HELD: [Put; 5] = [
    Put(254, Long(9), Ok(()), "two to hold, two frames free"),
    Put(253, Long(8), Ok(()), "both are held"),
    Put(512, Byte(9), Err(NoFreePage(512)), "the third has no frame"),
    Put(509, Long(9), Err(NoFreePage(509)), "the third has no frame"),
    Put(508, Long(7), Ok(()), "the end of a held page"),
];

const FIRST_HELD: [Put; 2] = [
    Put(0, Byte(1), Ok(()), "the first page gets a frame"),
    Put(255, Long(9), Ok(()), "one to hold, one frame free"),
];

const SECOND_HELD: [Put; 2] = [
    Put(511, Byte(1), Ok(()), "the second page gets a frame"),
    Put(253, Long(9), Ok(()), "one to hold, one frame free"),
];

#[test]
fn one_frame_too_few(rt: HostRuntime) -> Result<(), Fail> {
    let heap = rt.alloc();
    Tested::new(&rt, "the first", paged(heap, 768, 1)?).puts(&FRAME_TO_THE_FIRST);
    Tested::new(&rt, "the second", paged(heap, 768, 1)?).puts(&FRAME_TO_THE_SECOND);
    Ok(())
}

#[test]
fn as_many_frames_as_pages_to_hold(rt: HostRuntime) -> Result<(), Fail> {
    let heap = rt.alloc();
    Tested::new(&rt, "neither held", paged(heap, 768, 2)?).puts(&NEITHER_HELD);
    Tested::new(&rt, "the first held", paged(heap, 768, 2)?).puts(&FIRST_HELD);
    Tested::new(&rt, "the second held", paged(heap, 768, 2)?).puts(&SECOND_HELD);
    Ok(())
}

#[test]
fn a_refused_put_writes_nothing(rt: HostRuntime) -> Result<(), Fail> {
    let mut refused = Tested::new(&rt, "a refused put", paged(rt.alloc(), 512, 1)?);
    let answer = refused.memory.put(254, Long(0xffff_ffff));
    assert_eq!(rt; answer, Err(NoFreePage(254)));
    refused.zeros(None);
    Ok(())
}

// The frames are full of ones.
#[test]
fn old_contents_of_frames_play_no_part(rt: HostRuntime) -> Result<(), Fail> {
    let mut paged = Tested::new(&rt, "no page is held", paged(rt.alloc(), 768, 3)?);
    paged.zeros(None);
    paged.name = "one page is held";
    assert_eq!(rt; paged.memory.put(300, Byte(9)), Ok(()));
    paged.zeros(Some((300, 9)));
    Ok(())
}
