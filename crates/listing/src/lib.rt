//! The lines that list a module.
#![tactic(auto)]

pub mod lines;
