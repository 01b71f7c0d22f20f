//! The numbers and addresses of refusals.
use memory::faults::{MemoryFault, Unfit};

const FAULTS: [(MemoryFault, u8, u32); 4] = [
    (MemoryFault::Outside(0), 11, 0),
    (MemoryFault::Outside(4_294_967_295), 11, 4_294_967_295),
    (MemoryFault::NoFreePage(0), 12, 0),
    (MemoryFault::NoFreePage(1_048_575), 12, 1_048_575),
];

#[test]
fn faults(rt: HostRuntime) {
    for (fault, number, address) in &FAULTS {
        assert_eq!(rt; (fault.number(), fault.address()), (*number, *address));
    }
}

#[test]
fn unfit(rt: HostRuntime) {
    assert_eq!(rt; (Unfit::Size.number(), Unfit::Frames.number()), (10, 10));
}
