//! Paths: the stations that a packet has passed, its sender first.
//!
//! `Row` holds station numbers as they were read, of which nothing is known. `Path::try_from` checks a row once and makes a
//! `Path` of it, whose type keeps that it names one to four stations, none of them twice, and which is the first.
#![tactic(auto)]

pub mod path;
pub mod row;

pub use path::{NotAPath, Path};
pub use row::{LONGEST, Row};
