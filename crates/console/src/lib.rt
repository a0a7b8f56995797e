//! What the programs show alike: cases, each with what was expected and what came, and bytes in hexadecimal.
#![tactic(auto)]

pub mod counts;
pub mod hex;
pub mod tally;

pub use counts::{Counts, Differing};
pub use hex::Hex;
pub use tally::{CloseError, Tally};
