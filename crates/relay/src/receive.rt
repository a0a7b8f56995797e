use packets::{Header, Malformed, read};
use paths::{NotAPath, Path};
use seals::Seal;

/// What a station learns from a packet that it found good.
#[derive(Clone, Copy)]
pub struct Heard {
    pub header: Header,
    pub path: Path,
}

/// Why a station refuses what it received.
// `damaged` has an enum like this: one for both would be no plainer, as one of them would have to wrap it to show other words.
#[derive(Clone, Copy, PartialEq, Eq, Debug, thiserror::Error)]
pub enum Refused {
    /// The bytes are no packet.
    #[error("{0}")]
    Bytes(#[from] Malformed),
    /// The packet names no path.
    #[error("{0}")]
    Path(#[from] NotAPath),
    /// A tag is not the seal's.
    #[error("a tag is wrong")]
    Tag,
}

/// Reads a packet and checks its path and its tags.
pub(crate) fn receive<S: Seal>(seal: &S, bytes: &[u8]) -> Result<Heard, Refused> {
    let packet = read::<S>(bytes)?;
    let path = Path::try_from(packet.row)?;
    if !packet.tags_hold(seal) {
        return Err(Refused::Tag);
    }
    Ok(Heard {
        header: packet.header,
        path,
    })
}
