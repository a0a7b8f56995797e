//! A worked example: its packets are a theorem about the definitions, and what the code writes.
ghost use Rattle.std.specs.Prelude.{◌≡◌, ◌<◌, [], ◌∷◌, length};
ghost use Rattle.paths.specs.Paths.{stations};
ghost use Rattle.packets.specs.Form.{encode, packet_length};
ghost use Rattle.seals.specs.Worked.{counting_words};
ghost use Rattle.worked.specs.Notices.{notice_by, sent_notice, relayed_notice, WorkedPackets};

use packets::{Header, write};
use paths::Path;
use seals::{CodeBook, counting_words};

/// The notice of the example: burst, of sounding 1, level 1.
pub const NOTICE: Header = Header {
    kind: 2,
    sounding: 1,
    level: 1,
    value: 2,
};

/// The notice that has passed a path, under the books that count, in the bytes that it takes.
fn notice_over<const N: usize>(seal: &CodeBook<&[u16]>, path: &Path) -> [u8; N]
    requires counting { seal.now.words.now ≡ counting_words }
    requires room { N ≡ packet_length 2 (length (stations path.now)) }
    ensures is { result ≡ encode 2 (notice_by (stations path.now)) }
    ensures rules { WorkedPackets }
{
    let mut out = [0; N];
    write(seal, NOTICE, path, &mut out, 0);
    out
}

/// The path from station 0 by way of another.
fn by_way_of(station: u8) -> Path
    requires { 0 < station }
    ensures { stations result ≡ 0 ∷ station ∷ [] }
{
    Path::start(0).with(station).unwrap()
}

/// Two packets under the books that count: a notice as station 0 sends it, and that notice as station 1 relays it.
pub fn worked_packets() -> ([u8; 17], [u8; 20])
    ensures rules { WorkedPackets }
    ensures value { result ≡ (sent_notice, relayed_notice) }
{
    let words = counting_words();
    let seal = CodeBook::new(&words);
    let sent = notice_over(&seal, &Path::start(0));
    let relayed = notice_over(&seal, &by_way_of(1));
    (sent, relayed)
}
