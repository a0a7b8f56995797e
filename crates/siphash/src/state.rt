ghost use Rattle.std.specs.Prelude.{◌≡◌, ◌/◌, length};
ghost use Rattle.siphash.specs.SipHash.{half_round, crossed, round as round_of, start as start_of, compress as compressed, absorbed, into_v2, combined, finish as finished};

use crate::key::Key;
use crate::words::word;

/// The four words that SipHash works on.
#[derive(Clone, Copy)]
pub(crate) struct State {
    v0: u64,
    v1: u64,
    v2: u64,
    v3: u64,
}

impl State {
    /// The state before the first word.
    pub(crate) fn start(key: Key) -> State
        ensures { result ≡ start_of key }
    {
        State {
            v0: key.k0 ^ 0x736f6d6570736575,
            v1: key.k1 ^ 0x646f72616e646f6d,
            v2: key.k0 ^ 0x6c7967656e657261,
            v3: key.k1 ^ 0x7465646279746573,
        }
    }

    /// Half a round: v1 is rotated by `K` bits and v3 by `L`.
    fn half_round<const K: u32, const L: u32>(self) -> State
        ensures { result ≡ half_round K L self }
    {
        let v0 = self.v0.wrapping_add(self.v1);
        let v2 = self.v2.wrapping_add(self.v3);
        State {
            v0: v0.rotate_left(32),
            v1: self.v1.rotate_left(K) ^ v0,
            v2,
            v3: self.v3.rotate_left(L) ^ v2,
        }
    }

    /// v0 and v2 exchanged, which turns the first half of a round into the second.
    fn crossed(self) -> State
        ensures { result ≡ crossed self }
    {
        State {
            v0: self.v2,
            v2: self.v0,
            ..self
        }
    }

    /// One round.
    #[tactic(auto, unfolding(crate::specs::SipHash::round))]
    fn round(self) -> State
        ensures { result ≡ round_of self }
    {
        self.half_round::<13, 16>()
            .crossed()
            .half_round::<17, 21>()
            .crossed()
    }

    /// One word more of the message, in two rounds.
    #[tactic(auto, unfolding(crate::specs::SipHash::compress))]
    pub(crate) fn compress(self, word: u64) -> State
        ensures { result ≡ compressed self word }
    {
        let entered = State {
            v3: self.v3 ^ word,
            ..self
        };
        let mixed = entered.round().round();
        State {
            v0: mixed.v0 ^ word,
            ..mixed
        }
    }

    /// The whole words of a message.
    pub(crate) fn absorb(self, message: &[u8]) -> State
        ensures { result ≡ absorbed self message.now (length message.now / 8) }
    {
        let (words, _) = message.as_chunks::<8>();
        let mut state = self;
        for bytes in words {
            state = state.compress(word(bytes));
        }
        state
    }

    /// The mark that no word of the message makes.
    fn mark(self) -> State
        ensures { result ≡ into_v2 self 255 }
    {
        State {
            v2: self.v2 ^ 0xff,
            ..self
        }
    }

    /// The four words combined.
    fn combine(self) -> u64
        ensures { result ≡ combined self }
    {
        self.v0 ^ self.v1 ^ self.v2 ^ self.v3
    }

    /// The hash, after four rounds more.
    pub(crate) fn finish(self) -> u64
        ensures { result ≡ finished self }
    {
        self.mark().round().round().round().round().combine()
    }
}
