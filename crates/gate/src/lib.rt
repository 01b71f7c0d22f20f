//! The gate: which images pass the aligned sandbox policy. All knowledge of instructions is below, in the lengths and
//! targets that the tables answer.
#![tactic(auto)]

pub mod elements;
pub mod entries;
pub mod exports;
pub mod images;
pub mod laws;
mod marks;
pub mod passes;
pub mod readers;
pub mod refusals;
pub mod verdicts;
mod walks;
