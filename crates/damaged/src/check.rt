use packets::{Malformed, read};
use paths::{NotAPath, Path};
use seals::Seal;
use std::fmt;

/// Bytes are a packet with a path and with the seal's tags.
#[derive(Clone, Copy, PartialEq, Eq, Debug)]
pub struct Accepted;

impl fmt::Display for Accepted {
    fn fmt<W: fmt::Write>(&self, f: &mut fmt::Formatter<W>) -> fmt::Result {
        f.write_str("accepted")
    }
}

/// Why bytes are refused.
// `relay` has an enum like this: one for both would be no plainer, as one of them would have to wrap it to show other words.
#[derive(Clone, Copy, PartialEq, Eq, Debug, thiserror::Error)]
pub enum Refused {
    /// They are no packet.
    #[error("{0}")]
    Malformed(#[from] Malformed),
    /// The stations of the packet are no path.
    #[error("path")]
    Path(#[from] NotAPath),
    /// A tag is not the seal's.
    #[error("tag")]
    Tag,
}

/// Checks bytes that are taken for a packet: its form, then its path, then its tags.
pub(crate) fn check<S: Seal>(seal: &S, bytes: &[u8]) -> Result<Accepted, Refused> {
    let packet = read::<S>(bytes)?;
    Path::try_from(packet.row)?;
    if !packet.tags_hold(seal) {
        return Err(Refused::Tag);
    }
    Ok(Accepted)
}
