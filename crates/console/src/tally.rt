ghost use Rattle.std.specs.Prelude.{◌≡◌, ◌<◌, not, OnOk, Err};
ghost use Rattle.console.specs.Counting.{counted, no_cases};

use crate::counts::{Counts, Differing};
use std::fmt::Display;
use std::io;

/// Prints cases, and counts how many were run and how many came out otherwise than expected.
#[derive(Drop)]
pub struct Tally<'a, P> {
    rt: &'a P,
    counts: Counts,
}

/// Why a tally is not closed well.
#[derive(Debug, Drop, thiserror::Error)]
pub enum CloseError {
    /// The last line was not printed.
    #[error("{0}")]
    Output(io::Error),
    /// A case came out otherwise than expected.
    #[error("{0}")]
    Differing(#[from] Differing),
}

impl<'a, P: Print> Tally<'a, P> {
    /// No case yet.
    pub fn new(rt: &'a P) -> Self
        ensures { result.counts ≡ no_cases }
    {
        Tally {
            rt,
            counts: Counts::NONE,
        }
    }

    /// One case: its place in the count, and its line.
    pub fn case<T: PartialEq + Display + Copy>(
        &mut self,
        subject: &str,
        name: &str,
        expected: T,
        got: T,
    ) -> io::Result<()>
        ensures { self.new.counts ≡ counted self.old.counts (not (T.eq got expected)) }
    {
        self.counts.count(got != expected);
        println!(self.rt; "{subject} {name}: expected {expected}, got {got}")
    }

    /// The last line; an error if a case came out otherwise than expected.
    pub fn close(&self) -> Result<(), CloseError>
        ensures ok { OnOk result (self.now.counts.differing ≡ 0) }
        ensures differing { (d : Differing) → result ≡ Err (CloseError.Differing d) → 0 < self.now.counts.differing }
    {
        let Counts { cases, differing } = self.counts;
        println!(self.rt; "{cases} cases, {differing} differ").map_err(CloseError::Output)?;
        self.counts.verdict()?;
        Ok(())
    }
}
