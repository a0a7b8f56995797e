ghost use Rattle.std.specs.Prelude.{◌≡◌};
ghost use Rattle.siphash.specs.SipHash.{key_of, sip_hash};

use crate::state::State;
use crate::words::{last_word, word};

/// A key of 16 bytes, as two words.
#[derive(Clone, Copy)]
pub struct Key {
    pub(crate) k0: u64,
    pub(crate) k1: u64,
}

impl Key {
    /// The key of these bytes.
    pub fn new(bytes: &[u8; 16]) -> Key
        ensures { result ≡ key_of bytes.now }
    {
        let (words, _) = bytes.as_chunks::<8>();
        Key {
            k0: word(&words[0]),
            k1: word(&words[1]),
        }
    }

    /// The hash of a message under this key.
    pub fn hash(self, message: &[u8]) -> u64
        ensures { result ≡ sip_hash self message.now }
    {
        State::start(self)
            .absorb(message)
            .compress(last_word(message))
            .finish()
    }
}
