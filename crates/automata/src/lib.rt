//! Which pair, straight form or direct form stands at an address of some bytes, and how long it is, decided by three
//! constant tables.
#![tactic(auto)]

pub mod lengths;
pub mod patterns;
mod tables;
mod walks;
