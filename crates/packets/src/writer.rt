ghost use Rattle.std.specs.Prelude.{◌≡◌, ◌+◌, ◌≤◌, length};
ghost use Rattle.packets.specs.Calls.{length_for, placed, WrittenWithin};
ghost use Rattle.packets.specs.Form.{encode, packet_length};
ghost use Rattle.packets.specs.Laws.{WrittenBack};
ghost use Rattle.packets.specs.Tags.{sealed_parts};
ghost use Rattle.paths.specs.Paths.{stations};

use crate::bytes::put_number;
use crate::header::{HEADER_LEN, Header};
use crate::unsealed::Unsealed;
use paths::{LONGEST, Path};
use seals::Seal;

/// The length of a packet with a path of `k` stations.
pub(crate) fn length_with<S: Seal>(k: usize) -> usize
    requires { k ≤ 4 }
    ensures { result ≡ packet_length S.WIDTH k }
{
    HEADER_LEN + k * (1 + S::WIDTH)
}

/// How many bytes a packet takes whose path names that many stations; none if no path does.
pub fn packet_length<S: Seal>(stations: usize) -> Option<usize>
    ensures { result ≡ length_for S.WIDTH stations }
{
    if !(1..=LONGEST).contains(&stations) {
        return None;
    }
    Some(length_with::<S>(stations))
}

impl Unsealed<'_> {
    /// Writes the packet, with all tags, to a place of its length.
    fn put<S: Seal>(&self, seal: &S, place: &mut [u8])
        requires { length place.old ≡ packet_length S.WIDTH (length self.now.stations.now) }
        ensures { place.new ≡ encode S.WIDTH (sealed_parts (S.meaning seal.now) self.now.header self.now.stations.now) }
    {
        let k = self.stations.len();
        place[..HEADER_LEN].copy_from_slice(&self.header.bytes(k as u8));
        place[HEADER_LEN..HEADER_LEN + k].copy_from_slice(self.stations);
        // The place is counted by hand. Tried: the proof knows nothing of what a loop writes through `chunks_exact_mut`.
        let mut at = HEADER_LEN + k;
        let tags = self.tags(seal);
        for tag in tags.as_slice() {
            put_number(&mut place[at..at + S::WIDTH], *tag);
            at += S::WIDTH;
        }
    }
}

/// Seals a packet with the tags of all stations on its path and puts it at a place of a buffer. Answers how many bytes it
/// takes; none if it does not fit there, and then the buffer is as it was. Every other byte keeps its content.
pub fn write<S: Seal>(
    seal: &S,
    header: Header,
    path: &Path,
    out: &mut [u8],
    at: usize,
) -> Option<usize>
    ensures placed { (result, out.new) ≡ placed S.WIDTH (sealed_parts (S.meaning seal.now) header (stations path.now)) at out.old }
    ensures back { WrittenBack S.WIDTH (S.meaning seal.now) header (stations path.now) at out.new result }
    ensures within { WrittenWithin at out.old result }
{
    let stations = path.stations();
    let unsealed = Unsealed { header, stations };
    let n = length_with::<S>(stations.len());
    if n > out.len() || at > out.len() - n {
        return None;
    }
    unsealed.put(seal, &mut out[at..at + n]);
    Some(n)
}
