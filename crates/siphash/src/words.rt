ghost use Rattle.std.specs.Prelude.{◌≡◌, ◌%◌, ◌^◌, ◌<◌, length};
ghost use Rattle.siphash.specs.SipHash.{little, last_word};

/// Eight bytes as a word, the low byte first.
pub(crate) fn word(bytes: &[u8; 8]) -> u64
    ensures { result ≡ little bytes.now }
{
    u64::from_le_bytes(*bytes)
}

/// A message's length modulo 256.
fn length_byte(message: &[u8]) -> u8
    ensures { result ≡ length message.now % 256 }
{
    (message.len() % 256) as u8
}

/// Up to seven bytes as a number, the low byte first.
// Not by `word` of a copy in eight bytes: the hash of a short message takes a quarter longer, and more, with the copy.
fn number(bytes: &[u8]) -> u64
    requires { length bytes.now < 8 }
    ensures value { result ≡ little bytes.now }
    ensures bound { result < 2 ^ 56 }
{
    bytes
        .iter()
        .rev()
        .fold(0, |number: u64, byte| (number << 8) + u64::from(*byte))
}

/// The last word: the bytes behind the whole words, and the message's length in the high byte.
pub(crate) fn last_word(message: &[u8]) -> u64
    ensures { result ≡ last_word message.now }
{
    let (_, tail) = message.as_chunks::<8>();
    number(tail) + (u64::from(length_byte(message)) << 56)
}
