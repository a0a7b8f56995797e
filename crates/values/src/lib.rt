//! Values that stations agree on, and the rules by which a station chooses among reports of one.
//!
//! A value is a number of 64 bits; its kind says which numbers are allowed and what they mean. `Readings` is the kind
//! of level readings, with `Reading` as the typed value, and `Notices` the kind of notices, with `Notice`.
//! `u64::from` gives the number of a typed value, and `Reading::from` and `Notice::try_from` give the typed value of a number.
//! A choice rule turns a list of reports, each a value or none, into a value or none: `Sole` and `Majority`.
#![tactic(auto)]

pub mod choice;
pub mod kind;
pub mod majority;
pub mod notice;
pub mod reading;
pub mod sole;

pub use choice::ChoiceRule;
pub use kind::Kind;
pub use majority::Majority;
pub use notice::{NotANotice, Notice, Notices};
pub use reading::{Reading, Readings};
pub use sole::Sole;
