ghost use Rattle.std.specs.Prelude.{◌≡◌, ℕ, ◌^◌, ◌<◌, ◌≤◌, List, ◌==◌};

/// The highest station number; a seal gives numbers above it the tag 0.
pub const LAST_STATION: u8 = 6;

/// A fixed function from a station number and a message to a tag, a number of `WIDTH` bytes.
/// Asking for a tag changes nothing and is never refused.
pub trait Seal {
    /// How many bytes a tag takes, 1 to 8.
    const WIDTH: usize;

    /// `WIDTH`, for contracts.
    ghost WIDTH: { ℕ };

    /// The tag of a station over a message.
    ghost meaning: { Self → ℕ → List ℕ → ℕ };

    /// `WIDTH`, by a call.
    final fn tag_width() -> usize
        ensures { result ≡ WIDTH }
    {
        Self::WIDTH
    }

    /// The tag of a station over a message.
    fn tag(&self, station: u8, message: &[u8]) -> u64
        ensures { result ≡ meaning self.now station message.now };

    /// Whether a tag is the station's over the message.
    fn verify(&self, station: u8, message: &[u8], tag: u64) -> bool
        ensures { result ≡ (tag == meaning self.now station message.now) }
    {
        tag == self.tag(station, message)
    }

    /// A tag takes at least one byte.
    ghost low: { 1 ≤ WIDTH };

    /// A tag takes at most eight bytes.
    ghost high: { WIDTH ≤ 8 };

    /// Every tag fits its width.
    ghost fits: { (s : Self) (j : ℕ) (m : List ℕ) → meaning s j m < 256 ^ WIDTH };
}
