//! The instruction grammar of a module and its decoder. This crate knows bytes only: nothing of a gate, a memory or a
//! machine.
#![tactic(auto)]

pub mod code;
pub mod decoding;
pub mod forms;
pub mod instructions;
pub mod laws;
mod meanings;
pub mod operands;
pub mod pairs;
pub mod registers;
