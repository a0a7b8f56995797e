use crate::outcome::Bits;
use anyhow::Context;
use console::Tally;
use siphash::Key;
use std::rt::Files;
use std::{array, fs};

/// The key of the published vectors.
pub(crate) const PUBLISHED_KEY: [u8; 16] = [0, 1, 2, 3, 4, 5, 6, 7, 8, 9, 10, 11, 12, 13, 14, 15];

/// The published SipHash vectors, one line each: the message's length and its hash in hexadecimal.
pub(crate) fn run<R: Files + Alloc, P: Print>(rt: &R, tally: &mut Tally<P>) -> anyhow::Result<()> {
    let text = fs::read_to_string(rt, "siphash-2-4.txt")?;
    for line in text.as_str().lines().filter(|line| !line.starts_with('#')) {
        vector(tally, line)?;
    }
    Ok(())
}

/// One vector.
fn vector<P: Print>(tally: &mut Tally<P>, line: &str) -> anyhow::Result<()> {
    let (length, hash) = line
        .split_once(' ')
        .context("a vector is a length and a hash")?;
    let expected = u64::from_str_radix(hash, 16)?;
    let got = counting_hash(length.parse::<usize>()?).context(
        "a vector's message has at most 64 bytes",
    )?;
    let subject = "SipHash-2-4 of the bytes below";
    tally.case(subject, length, Bits(expected), Bits(got))?;
    Ok(())
}

/// The hash of the bytes 0, 1, .. of the given length under the key of the bytes 0 to 15; none if it is above 64.
fn counting_hash(length: usize) -> Option<u64> {
    let bytes: [u8; 64] = array::from_fn(|i| i as u8);
    let key = Key::new(&PUBLISHED_KEY);
    bytes.get(..length).map(|message| key.hash(message))
}
