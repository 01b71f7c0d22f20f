//! Memories: one meaning, a trait that is proved over it, and two that keep it.
#![tactic(auto)]

pub mod data;
pub mod faults;
pub mod flat;
pub mod laws;
mod little_endian;
pub mod memories;
pub mod paged;
pub mod ranges;
mod sizes;
