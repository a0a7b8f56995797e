use crate::outcome::Bits;
use crate::vectors::PUBLISHED_KEY;
use console::Tally;
use seals::{CodeBook, Seal, SipKeys, counting_words, worked_tags};
use siphash::{Key, published_hash};
use std::io;

/// Both seals: the worked tags, tag widths, and station numbers at the limit.
pub(crate) fn run<P: Print>(tally: &mut Tally<P>) -> io::Result<()> {
    let words = counting_words();
    code_book(tally, &CodeBook::new(&words))?;
    let past = CodeBook::new(&words[..257]).tag(1, &[1]);
    let name = "station 1, byte 1";
    tally.case("code book of 257 words,", name, Bits(0), Bits(past))?;
    sip_hash(tally)
}

/// The code book: the worked tags, the station numbers 6 and 7, no byte.
fn code_book<P: Print>(tally: &mut Tally<P>, seal: &CodeBook<&[u16]>) -> io::Result<()> {
    let (sent, relayed) = worked_tags();
    for (name, expected, got) in [
        ("station 0, notice sent", 0xaa04, sent),
        ("station 1, notice relayed", 0x6bf7, relayed),
        ("station 6, byte 9", 0x609, seal.tag(6, &[9])),
        ("station 7, byte 9", 0, seal.tag(7, &[9])),
        ("station 3, no byte", 0, seal.tag(3, &[])),
    ] {
        tally.case("code book,", name, Bits(expected), Bits(got))?;
    }
    let width = <CodeBook<&[u16]> as Seal>::tag_width();
    tally.case("code book,", "bytes of a tag", Bits(2), Bits(width as u64))
}

/// SipHash with the published key at station 6, at the station numbers 5 to 7.
fn sip_hash<P: Print>(tally: &mut Tally<P>) -> io::Result<()> {
    let mut keys = [Key::new(&[0; 16]); 7];
    keys[6] = Key::new(&PUBLISHED_KEY);
    let seal = SipKeys::new(keys);
    let message = [0, 1, 2];
    let last = seal.tag(6, &message);
    for (name, expected, got) in [
        ("station 6, published key", 0x85676696d7fb7e2d, last),
        (
            "station 5, key of zeros",
            0x1e924b9d737700d7,
            seal.tag(5, &[]),
        ),
        ("station 7", 0, seal.tag(7, &message)),
        ("proved vector", 0xa129ca6149be45e5, published_hash()),
    ] {
        tally.case("SipHash,", name, Bits(expected), Bits(got))?;
    }
    let width = <SipKeys as Seal>::tag_width();
    tally.case("SipHash,", "bytes of a tag", Bits(8), Bits(width as u64))
}
