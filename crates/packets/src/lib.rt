//! Packets: what stations send each other, in one byte form for every seal.
//!
//! A packet says what a station heard (`Header`), by which `Path` it came, and has a tag of each station on that path.
//! `write` seals a packet and puts it at a place of a buffer. `read_front` takes one packet from the front of some bytes and
//! says how many it used; `read` wants that these are all. `Packet::tags_hold` checks the tags.
#![tactic(auto)]

mod bytes;
pub mod header;
pub mod packet;
pub mod reader;
mod unsealed;
pub mod writer;

pub use header::Header;
pub use packet::{Front, Malformed, Packet};
pub use paths::{Path, Row};
pub use reader::{read, read_front};
pub use writer::{packet_length, write};
