//! What is answered about a memory, in words.
#![tactic(auto)]

pub mod memories;
