//! Worked examples that reach through several crates: each is a theorem about the definitions, and what the code does.
#![tactic(auto)]

pub mod notices;

pub use notices::{NOTICE, worked_packets};
