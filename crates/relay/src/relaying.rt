use crate::changes::Changes;
use crate::receive::receive;
use arrayvec::ArrayVec;
use console::Hex;
use packets::{Header, write};
use paths::{NotAPath, Path};
use seals::Seal;
use std::io;

/// How many bytes the longest packet takes: a path of four stations, and tags of eight bytes.
const LONGEST_PACKET: usize = 50;

/// A packet on the air.
type Sent = ArrayVec<u8, LONGEST_PACKET>;

// The runtime and the seal stay two parameters here: a struct of both would be taken apart at each call, and be no plainer.

/// A packet goes from its sender through stations 1 to 3, and station 4 hears it. Then it is damaged in each way that one bit
/// allows.
pub(crate) fn tell<S: Seal>(rt: &impl Print, seal: &S, header: Header) -> io::Result<()> {
    let mut packet = packet_by(seal, header, &Path::start(0));
    println!(rt; "  station 0 sends {}", Hex(&packet))?;
    for station in 1..5u8 {
        if let Some(relayed) = hear(rt, seal, station, &packet)? {
            packet = relayed;
        }
    }
    damage(rt, seal, &mut packet)
}

/// The packet that says what the header says and has the path's stations and their tags.
fn packet_by<S: Seal>(seal: &S, header: Header, path: &Path) -> Sent {
    let mut bytes = Sent::from([0; LONGEST_PACKET]);
    let length = write(seal, header, path, &mut bytes, 0).unwrap();
    bytes.truncate(length);
    bytes
}

/// A station receives a packet, and what it relays, if anything.
fn hear<S: Seal>(
    rt: &impl Print,
    seal: &S,
    station: u8,
    packet: &[u8],
) -> io::Result<Option<Sent>> {
    let heard = match receive(seal, packet) {
        Ok(heard) => heard,
        Err(refused) => {
            println!(rt; "  station {station} refuses it: {refused}")?;
            return Ok(None);
        }
    };
    println!(rt;
        "  station {station} finds it good, by way of {}",
        heard.path
    )?;
    let path = match heard.path.with(station) {
        Ok(path) => path,
        Err(NotAPath::Length) => {
            println!(rt; "  station {station} relays nothing: the path is full")?;
            return Ok(None);
        }
        Err(NotAPath::StationTwice) => {
            println!(rt; "  station {station} relays nothing: the path names it already")?;
            return Ok(None);
        }
    };
    let relayed = packet_by(seal, heard.header, &path);
    println!(rt; "  station {station} relays {}", Hex(&relayed))?;
    Ok(Some(relayed))
}

/// A packet with one byte missing, and with each bit changed in turn.
fn damage<S: Seal>(rt: &impl Print, seal: &S, packet: &mut [u8]) -> io::Result<()> {
    if let Some((_, front)) = packet.split_last() {
        if let Err(refused) = receive(seal, front) {
            println!(rt; "  without its last byte it is refused: {refused}")?;
        }
    }
    let Changes {
        bytes,
        path,
        tag,
        taken,
    } = Changes::of(seal, packet);
    let bits = packet.len().saturating_mul(8);
    println!(rt;
        "  of its {bits} changes of one bit, {bytes} are refused by shape, {path} by path, {tag} by tag; {taken} are taken"
    )
}
