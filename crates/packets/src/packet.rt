ghost use Rattle.std.specs.Prelude.{◌≡◌, min, length, take};

use crate::header::Header;
use crate::unsealed::Unsealed;
use paths::{LONGEST, Row};
use seals::Seal;

/// A packet as it was read. Nothing is known of it: its row may be no path, and its tags may be wrong.
#[derive(Clone, Copy, Debug)]
pub struct Packet {
    /// What it says.
    pub header: Header,
    /// The stations that it names as its path.
    pub row: Row,
    /// A tag for each of them.
    // An array as long as the longest path: fixed memory, and a vector of fixed room is not `Copy`, as a packet is.
    pub(crate) tags: [u64; LONGEST],
}

impl Packet {
    ghost use Rattle.packets.specs.Calls.{parts};
    ghost use Rattle.packets.specs.Laws.{MadeByStations};
    ghost use Rattle.packets.specs.Tags.{tags_hold};

    /// The tags of the stations in its row.
    fn tags(&self) -> &[u64]
        ensures is { result.now ≡ take self.now.row.len self.now.tags }
        ensures count { length result.now ≡ min self.now.row.len 4 }
    {
        &self.tags[..self.row.len.min(LONGEST)]
    }

    /// Whether each station on the packet's path has the tag that the seal gives it. Nothing is changed.
    pub fn tags_hold<S: Seal>(&self, seal: &S) -> bool
        ensures is { result ≡ tags_hold (S.meaning seal.now) (parts self.now) }
        ensures made { MadeByStations (S.meaning seal.now) (parts self.now) }
    {
        let unsealed = Unsealed {
            header: self.header,
            stations: self.row.stations(),
        };
        unsealed.has_tags(seal, self.tags())
    }
}

/// A packet at the front of some bytes, and how many of them it takes.
#[derive(Clone, Copy, Debug)]
pub struct Front {
    pub packet: Packet,
    /// How many bytes it takes.
    pub used: usize,
}

/// Why bytes are no packet.
#[derive(Clone, Copy, PartialEq, Eq, Debug, thiserror::Error)]
pub enum Malformed {
    /// There are fewer than 15.
    #[error("too short")]
    TooShort,
    /// The path length is not 1 to 4.
    #[error("path length")]
    PathLength,
    /// There are more or fewer than the packet takes.
    #[error("wrong length")]
    WrongLength,
}
