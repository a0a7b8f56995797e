ghost use Rattle.std.specs.Prelude.{◌≡◌, ◌+◌, ◌<◌, ◌≤◌, [], ◌∷◌, ◌++◌, length, take, drop};
ghost use Rattle.packets.specs.Calls.{parts, row_in, RowRead, front_parts, decode_front, FrontWithin, read_parts, decode, ReadWithin};
ghost use Rattle.packets.specs.Form.{encode, Whole, count_in, path_in, tag_in, tags_in, parts_in, packet_length};
ghost use Rattle.packets.specs.Laws.{FrontForm, OneForm, ReadForm};
ghost use Rattle.paths.specs.Paths.{row_stations};

use crate::bytes::number;
use crate::header::{HEADER_LEN, Header};
use crate::packet::{Front, Malformed, Packet};
use crate::writer::length_with;
use paths::{LONGEST, Row};
use seals::Seal;
use std::array;

/// Up to four bytes at the front of a row of four.
fn four(part: &[u8]) -> [u8; LONGEST]
    requires { length part.now ≤ 4 }
    ensures is { result ≡ part.now ++ drop (length part.now) (0 ∷ 0 ∷ 0 ∷ 0 ∷ []) }
    ensures front { take (length part.now) result ≡ part.now }
{
    let mut numbers = [0; LONGEST];
    numbers[..part.len()].copy_from_slice(part);
    numbers
}

/// The path as it stands in the bytes.
fn row_in(bytes: &[u8]) -> Row
    requires { (count_in bytes.now ≤ 4) × (14 + count_in bytes.now ≤ length bytes.now) }
    ensures is { result ≡ row_in bytes.now }
    ensures path { row_stations result ≡ path_in bytes.now }
{
    let k = bytes[1] as usize;
    Row {
        numbers: four(&bytes[HEADER_LEN..HEADER_LEN + k]),
        len: k,
    }
}

/// Tag `i` as it stands in the bytes, counted from 0.
// That the bytes hold the packet is one word, `Whole`. A struct that kept it would be no plainer: it would carry the seal's type.
fn tag_in<S: Seal>(bytes: &[u8], i: usize) -> u64
    requires { (i < count_in bytes.now) × Whole S.WIDTH bytes.now }
    ensures { result ≡ tag_in S.WIDTH bytes.now i }
{
    let at = HEADER_LEN + bytes[1] as usize + i * S::WIDTH;
    number(&bytes[at..at + S::WIDTH])
}

/// The tags as they stand in the bytes, and zeros behind them.
fn tags_in<S: Seal>(bytes: &[u8]) -> [u64; LONGEST]
    requires { Whole S.WIDTH bytes.now }
    ensures { take (count_in bytes.now) result ≡ tags_in S.WIDTH bytes.now (count_in bytes.now) }
{
    let k = bytes[1] as usize;
    array::from_fn(|i| if i < k { tag_in::<S>(bytes, i) } else { 0 })
}

/// The packet that stands in the bytes.
fn packet_in<S: Seal>(bytes: &[u8]) -> Packet
    requires { Whole S.WIDTH bytes.now }
    ensures is { parts result ≡ parts_in S.WIDTH bytes.now }
    ensures row { RowRead bytes.now result.row }
    ensures len { result.row.len ≤ 4 }
    ensures form { encode S.WIDTH (parts result) ≡ take (packet_length S.WIDTH (count_in bytes.now)) bytes.now }
    ensures alone { packet_length S.WIDTH (count_in bytes.now) ≡ length bytes.now → OneForm S.WIDTH bytes.now (parts result) }
{
    Packet {
        header: Header::read(bytes),
        row: row_in(bytes),
        tags: tags_in::<S>(bytes),
    }
}

/// Reads one packet at the front of some bytes, and says how many of them it takes. Refuses fewer than 15 bytes, then a
/// path length that is not 1 to 4, then fewer bytes than that path needs. Nothing is changed.
pub fn read_front<S: Seal>(bytes: &[u8]) -> Result<Front, Malformed>
    ensures is { front_parts result ≡ decode_front S.WIDTH bytes.now }
    ensures form { FrontForm S.WIDTH bytes.now (front_parts result) }
    ensures within { FrontWithin bytes.now result }
{
    if bytes.len() < HEADER_LEN + 1 {
        return Err(Malformed::TooShort);
    }
    let k = bytes[1] as usize;
    if !(1..=LONGEST).contains(&k) {
        return Err(Malformed::PathLength);
    }
    let used = length_with::<S>(k);
    if bytes.len() < used {
        return Err(Malformed::WrongLength);
    }
    Ok(Front {
        packet: packet_in::<S>(bytes),
        used,
    })
}

/// Reads bytes that are one packet. Refuses what `read_front` refuses, and bytes that go on after the packet. Nothing is
/// changed.
pub fn read<S: Seal>(bytes: &[u8]) -> Result<Packet, Malformed>
    ensures is { read_parts result ≡ decode S.WIDTH bytes.now }
    ensures form { ReadForm S.WIDTH bytes.now (read_parts result) }
    ensures within { ReadWithin bytes.now result }
{
    let front = read_front::<S>(bytes)?;
    if front.used != bytes.len() {
        return Err(Malformed::WrongLength);
    }
    Ok(front.packet)
}
