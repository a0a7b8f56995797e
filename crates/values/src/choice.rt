ghost use Rattle.std.specs.Prelude.{◌≡◌, ℕ, List, Option};
ghost use Rattle.values.specs.Laws.{NoneWithoutValue, UnanimousValueGiven};

/// A fixed function from a list of reports, each a value or none, to a value or none.
/// Asking changes nothing and is never refused.
pub trait ChoiceRule {
    /// What the rule gives for a list of reports.
    ghost meaning: { Self → List (Option ℕ) → Option ℕ };

    /// What the rule gives for a list of reports.
    fn choose(&self, reports: &[Option<u64>]) -> Option<u64>
        ensures value { result ≡ meaning self.now reports.now };

    /// A list without a value gives none.
    ghost silent: { (c : Self) → NoneWithoutValue (meaning c) };

    /// If all values in the list are equal, and there is at least one, that value is given.
    ghost unanimous: { (c : Self) → UnanimousValueGiven (meaning c) };
}
