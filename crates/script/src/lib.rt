//! From one line of a script to the command that it asks for. A line may hold any bytes.
#![tactic(auto)]

pub mod answers;
pub mod commands;
pub mod groups;
pub mod numbers;
mod parts;
pub mod problems;
pub mod spelling;
pub mod words;
