use crate::check::{Accepted, Refused};
use packets::Malformed;
use std::fmt;

/// How many were accepted, and how many were refused by each check.
// `relay` counts by coarser reasons: one type for both would need a map from reasons to counters, and be no plainer.
#[derive(Clone, Copy, PartialEq, Eq, Default)]
pub struct Reads {
    pub accepted: u32,
    pub too_short: u32,
    pub path_length: u32,
    pub wrong_length: u32,
    pub path: u32,
    pub tag: u32,
}

impl Reads {
    /// Counts what one check says.
    pub(crate) fn count(&mut self, verdict: Result<Accepted, Refused>) {
        let counter = match verdict {
            Ok(Accepted) => &mut self.accepted,
            Err(Refused::Malformed(Malformed::TooShort)) => &mut self.too_short,
            Err(Refused::Malformed(Malformed::PathLength)) => &mut self.path_length,
            Err(Refused::Malformed(Malformed::WrongLength)) => &mut self.wrong_length,
            Err(Refused::Path(_)) => &mut self.path,
            Err(Refused::Tag) => &mut self.tag,
        };
        *counter = counter.saturating_add(1);
    }
}

impl fmt::Display for Reads {
    fn fmt<W: fmt::Write>(&self, f: &mut fmt::Formatter<W>) -> fmt::Result {
        write!(
            f,
            "{} accepted, {} too short, {} path length, {} wrong length, {} path, {} tag",
            self.accepted, self.too_short, self.path_length, self.wrong_length, self.path, self.tag
        )
    }
}
