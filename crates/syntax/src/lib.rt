//! An instruction as text, in the Intel syntax that objdump writes. This crate knows no bytes and no machine: it shows
//! what the decoder of `x86` gives.
#![tactic(auto)]

pub mod addresses;
pub mod instructions;
pub mod mnemonics;
pub mod names;
pub mod numbers;
pub mod operands;

/// A value of `x86` that is to be written in Intel syntax.
#[derive(Clone, Copy)]
pub struct Intel<T>(pub T);
