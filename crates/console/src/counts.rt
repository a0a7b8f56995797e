ghost use Rattle.std.specs.Prelude.{◌≡◌, ◌↔◌, IsOk};

/// How many cases were run, and how many came out otherwise than expected.
#[derive(Clone, Copy, PartialEq, Eq, Debug)]
pub struct Counts {
    pub cases: u32,
    pub differing: u32,
}

/// A case came out otherwise than expected.
#[derive(Clone, Copy, PartialEq, Eq, Debug, thiserror::Error)]
#[error("a case came out otherwise than expected")]
pub struct Differing;

impl Counts {
    ghost use Rattle.console.specs.Counting.{counted};

    /// No case yet.
    pub const NONE: Counts = Counts {
        cases: 0,
        differing: 0,
    };

    /// One case more.
    pub fn count(&mut self, differs: bool)
        ensures { self.new ≡ counted self.old differs }
    {
        self.cases = self.cases.saturating_add(1);
        if differs {
            self.differing = self.differing.saturating_add(1);
        }
    }

    /// An error if a case came out otherwise than expected.
    pub fn verdict(&self) -> Result<(), Differing>
        ensures { IsOk result ↔ (self.now.differing ≡ 0) }
    {
        if self.differing > 0 {
            return Err(Differing);
        }
        Ok(())
    }
}
