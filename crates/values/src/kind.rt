ghost use Rattle.std.specs.Prelude.{◌≡◌, ℕ, ◌≤◌, Bool};

/// A kind of value: its number, and a fixed yes or no for each value of 64 bits.
/// Asking changes nothing and is never refused.
pub trait Kind {
    /// The number that stands for the kind in packets, 1 to 255.
    ghost number: { Self → ℕ };

    /// Whether a value is one of this kind.
    ghost allowed: { Self → ℕ → Bool };

    /// The kind's number.
    fn number(&self) -> u8
        ensures { result ≡ number self.now };

    /// Whether the kind allows a value.
    fn allows(&self, value: u64) -> bool
        ensures { result ≡ allowed self.now value };

    /// No kind has the number 0.
    ghost low: { (k : Self) → 1 ≤ number k };

    /// The number takes one byte.
    ghost high: { (k : Self) → number k ≤ 255 };
}
