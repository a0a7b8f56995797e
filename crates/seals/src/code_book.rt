ghost use Rattle.std.proofs.Common.{lit≤};
ghost use Rattle.std.specs.Prelude.{◌≡◌, ℕ, ◌≤◌};
ghost use Rattle.seals.specs.CodeBooks.{word_of, mixed, carried, book_tag, book_tag-fits};

use crate::seal::{LAST_STATION, Seal};
use std::convert::AsSlice;

/// The code-book seal: a book of 256 words of 16 bits for each station, in one list by station number. `W` is what holds or
/// lends the list.
// A type parameter. Tried: for a seal whose type has a lifetime of its own the check has no contract of its constant.
#[derive(Clone, Copy)]
pub struct CodeBook<W> {
    words: W,
}

impl<'a> CodeBook<&'a [u16]> {
    /// The seal over these words, which are lent.
    pub fn new(words: &'a [u16]) -> Self
        ensures { result.words.now ≡ words.now }
    {
        CodeBook { words }
    }
}

impl<W: AsSlice<u16>> CodeBook<W> {
    /// The word of a byte in a station's book; a word past the end of the list counts as 0.
    fn word(&self, station: u8, byte: u8) -> u16
        ensures { result ≡ word_of (W.items self.now.words) station byte }
    {
        let at = 256 * usize::from(station) + usize::from(byte);
        self.words.as_slice().get(at).copied().unwrap_or(0)
    }

    /// The tag carried on over the bytes of a message.
    fn carry(&self, station: u8, message: &[u8]) -> u16
        ensures { result ≡ carried (W.items self.now.words) station 0 message.now }
    {
        let mut tag = 0;
        // A loop, as the rules of the project ask for one over the bytes.
        for byte in message {
            tag = mix(tag, self.word(station, *byte));
        }
        tag
    }
}

/// A tag rotated left by one bit, then combined with a word by exclusive or.
fn mix(tag: u16, word: u16) -> u16
    ensures { result ≡ mixed tag word }
{
    tag.rotate_left(1) ^ word
}

impl<W: AsSlice<u16>> Seal for CodeBook<W> {
    const WIDTH: usize = 2;

    ghost WIDTH = { 2 };

    ghost meaning = { λ s j m. book_tag (W.items s.words) j m };

    fn tag(&self, station: u8, message: &[u8]) -> u64 {
        if station > LAST_STATION {
            return 0;
        }
        u64::from(self.carry(station, message))
    }

    ghost low = { lit≤ tt };

    ghost high = { lit≤ tt };

    ghost fits = { λ s j m. book_tag-fits (W.items s.words) j m };
}
