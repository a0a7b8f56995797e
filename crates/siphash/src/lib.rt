//! SipHash-2-4: the hash of a message, a number of 64 bits, under a key of 16 bytes.
//!
//! `Key::hash` is the hash; specs/SipHash.antt defines it by words and rounds, as its authors published it.
#![tactic(auto)]

pub mod key;
mod state;
mod words;
pub mod worked;

pub use key::Key;
pub use worked::published_hash;
