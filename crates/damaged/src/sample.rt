use crate::check::{Accepted, Refused, check};
use crate::reads::Reads;
use arrayvec::ArrayVec;
use packets::write;
use paths::Path;
use seals::Seal;
use std::mem;
use worked::NOTICE;

/// How many bytes the longest packet takes: a path of four stations, and tags of eight bytes.
const LONGEST_PACKET: usize = 50;

/// How many bytes the longest read takes, more than any packet has.
const LONGEST_READ: usize = 60;

/// A packet, and the seal that it was written under.
#[derive(Drop)]
pub struct Sample<'a, S> {
    seal: &'a S,
    packet: ArrayVec<u8, LONGEST_PACKET>,
}

/// Checks the bytes with another byte at a place, and puts the old one back; as they are, if there is no such place.
fn check_with<S: Seal>(
    seal: &S,
    bytes: &mut [u8],
    at: usize,
    value: u8,
) -> Result<Accepted, Refused> {
    if at >= bytes.len() {
        return check(seal, bytes);
    }
    let byte = mem::replace(&mut bytes[at], value);
    let checked = check(seal, bytes);
    bytes[at] = byte;
    checked
}

impl<'a, S: Seal> Sample<'a, S> {
    /// The notice with a path.
    pub(crate) fn new(seal: &'a S, path: &Path) -> Self {
        let mut packet = ArrayVec::from([0; LONGEST_PACKET]);
        let length = write(seal, NOTICE, path, &mut packet, 0).unwrap();
        packet.truncate(length);
        Sample { seal, packet }
    }

    /// Reads the packet in every length from 0 on: cut short, or with zeros after it.
    pub(crate) fn lengths(&self) -> Reads {
        let mut bytes = [0; LONGEST_READ];
        bytes[..self.packet.len()].copy_from_slice(&self.packet);
        let mut reads = Reads::default();
        // By lengths, as each read takes a longer part of the same bytes.
        for length in 0..=LONGEST_READ {
            reads.count(check(self.seal, &bytes[..length]));
        }
        reads
    }

    /// Reads the packet with every path length, 0 to 255.
    pub(crate) fn path_lengths(&mut self) -> Reads {
        let mut reads = Reads::default();
        for length in 0..=u8::MAX {
            reads.count(check_with(self.seal, &mut self.packet, 1, length));
        }
        reads
    }

    /// Reads the packet with each byte changed to each of its other values.
    pub(crate) fn changes(&mut self) -> Reads {
        let packet = self.packet.as_mut_slice();
        let mut reads = Reads::default();
        // By places, as the packet is read whole while a byte of it is changed: a copy for each change would be no plainer.
        for at in 0..packet.len() {
            let byte = packet[at];
            for value in (0..=u8::MAX).filter(|value| *value != byte) {
                reads.count(check_with(self.seal, packet, at, value));
            }
        }
        reads
    }
}
