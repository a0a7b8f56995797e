//! Seals: message authentication codes by which a station vouches for what it sends.
//!
//! A seal gives each station a tag over a message. The tag has a fixed number of bytes, a constant of the seal.
//! `CodeBook` has tags of two bytes, made from books of words that the caller lends; `SipKeys` has tags of eight
//! bytes, SipHash-2-4 under a key for each station. Code that is generic over `Seal` is proved once for both.
#![tactic(auto)]

pub mod code_book;
pub mod seal;
pub mod sip_seal;
pub mod worked;

pub use code_book::CodeBook;
pub use seal::{LAST_STATION, Seal};
pub use sip_seal::SipKeys;
pub use worked::{counting_keys, counting_words, worked_tags};
