//! Keys and books that count, for examples, and a worked example: its numbers are a theorem about the definitions, and what
//! the code gives.
ghost use Rattle.std.specs.Prelude.{◌≡◌, ◌<◌};
ghost use Rattle.seals.specs.CodeBooks.{book_tag};
ghost use Rattle.seals.specs.Worked.{counting_words, counting_key, counting_keys, WorkedTags};

use crate::code_book::CodeBook;
use crate::seal::Seal;
use siphash::Key;
use std::array;

/// Word `i` of the list that counts.
fn counting_word(i: usize) -> u16
    requires { i < 1792 }
    ensures { result ≡ i }
{
    i as u16
}

/// The books of the worked example: word b of station j is 256 j + b, so that word i of the list is i.
pub fn counting_words() -> [u16; 1792]
    ensures { result ≡ counting_words }
{
    array::from_fn(|i| counting_word(i))
}

/// A station's key, as `counting_keys` has it.
fn counting_key(station: u8) -> Key
    requires { station < 16 }
    ensures { result ≡ counting_key station }
{
    Key::new(&array::from_fn(|i| 16 * station + i as u8))
}

/// The keys of the examples: byte i of station j's key is 16 j + i.
pub fn counting_keys() -> [Key; 7]
    ensures { result ≡ counting_keys }
{
    array::from_fn(|station| counting_key(station as u8))
}

/// A station's tag under these books.
fn counting_tag(station: u8, message: &[u8]) -> u64
    ensures { result ≡ book_tag counting_words station message.now }
{
    CodeBook::new(&counting_words()).tag(station, message)
}

/// Two tags under these books: of station 0 over a notice that it sends, of station 1 over that notice as it relays it.
pub fn worked_tags() -> (u64, u64)
    ensures rules { WorkedTags }
    ensures value { result ≡ (0xAA04, 0x6BF7) }
{
    let sent = counting_tag(0, &[2, 1, 0, 1, 0, 1, 0, 0, 0, 0, 0, 0, 0, 2, 0]);
    let relayed = counting_tag(1, &[2, 2, 0, 1, 0, 1, 0, 0, 0, 0, 0, 0, 0, 2, 0, 1]);
    (sent, relayed)
}
