ghost use Rattle.std.specs.Prelude.{◌≡◌, ◌<◌, ◌≤◌, ◌==◌, length};
ghost use Rattle.packets.specs.Form.{parts_of};
ghost use Rattle.packets.specs.Laws.{MadeByStations};
ghost use Rattle.packets.specs.Tags.{sealed_bytes, tag_for, tags_for, tags_hold};

use crate::header::{HEADER_LEN, Header};
use arrayvec::ArrayVec;
use paths::LONGEST;
use seals::Seal;

/// A packet without its tags: what it says, and the stations that it has passed, at most four.
#[derive(Clone, Copy)]
pub(crate) struct Unsealed<'a> {
    pub(crate) header: Header,
    pub(crate) stations: &'a [u8],
    ghost short: { length stations.now ≤ 4 },
}

impl Unsealed<'_> {
    /// What tag `n` seals, counted from 1: the header with `n` in byte 1, and the first `n` stations.
    fn sealed_bytes(&self, n: usize) -> ArrayVec<u8, 18>
        requires { n ≤ length self.now.stations.now }
        ensures { result.items ≡ sealed_bytes self.now.header self.now.stations.now n }
    {
        let mut message = ArrayVec::new();
        message
            .try_extend_from_slice(&self.header.bytes(n as u8))
            .unwrap();
        message.try_extend_from_slice(&self.stations[..n]).unwrap();
        message
    }

    /// The seal's tag of the station at place `i`.
    fn tag<S: Seal>(&self, seal: &S, i: usize) -> u64
        requires { i < length self.now.stations.now }
        ensures { result ≡ tag_for (S.meaning seal.now) self.now.header self.now.stations.now i }
    {
        seal.tag(self.stations[i], &self.sealed_bytes(i + 1))
    }

    /// The seal's tags of all stations.
    pub(crate) fn tags<S: Seal>(&self, seal: &S) -> ArrayVec<u64, LONGEST>
        ensures { result.items ≡ tags_for (S.meaning seal.now) self.now.header self.now.stations.now (length self.now.stations.now) }
    {
        let mut tags = ArrayVec::new();
        // By numbers, as a tag seals the stations up to its own: over the stations themselves it would be no plainer.
        for i in 0..self.stations.len() {
            tags.push(self.tag(seal, i));
        }
        tags
    }

    /// Whether this is the seal's tag of the station at place `i`.
    fn has_tag<S: Seal>(&self, seal: &S, i: usize, tag: u64) -> bool
        requires { i < length self.now.stations.now }
        ensures { result ≡ (tag == tag_for (S.meaning seal.now) self.now.header self.now.stations.now i) }
    {
        tag == self.tag(seal, i)
    }

    /// Whether these are the seal's tags of all stations. It stops at the first that is not.
    #[tactic(auto, using(crate::proofs::Held::made))]
    pub(crate) fn has_tags<S: Seal>(&self, seal: &S, tags: &[u64]) -> bool
        requires { length tags.now ≡ length self.now.stations.now }
        ensures is { result ≡ tags_hold (S.meaning seal.now) (parts_of self.now.header self.now.stations.now tags.now) }
        ensures made { MadeByStations (S.meaning seal.now) (parts_of self.now.header self.now.stations.now tags.now) }
    {
        tags.iter()
            .enumerate()
            .all(|(i, tag)| self.has_tag(seal, i, *tag))
    }
}
