use crate::receive::{Heard, Refused, receive};
use seals::Seal;

/// What came of changing each bit of a packet in turn.
// `damaged` counts by finer reasons: one type for both would need a map from reasons to counters, and be no plainer.
#[derive(Clone, Copy, Default)]
pub struct Changes {
    pub bytes: u32,
    pub path: u32,
    pub tag: u32,
    pub taken: u32,
}

impl Changes {
    /// Changes each bit of a packet, counts what a receiver says, and changes it back.
    // `flight` changes the bits of a message likewise; its line says why they are two.
    pub(crate) fn of<S: Seal>(seal: &S, packet: &mut [u8]) -> Changes {
        let mut changes = Changes::default();
        // An index, as the packet is read whole while a byte of it is changed: a copy for each change would be no plainer.
        for i in 0..packet.len() {
            for mask in [1, 2, 4, 8, 16, 32, 64, 128] {
                packet[i] ^= mask;
                changes.count(receive(seal, packet));
                packet[i] ^= mask;
            }
        }
        changes
    }

    /// One change more.
    fn count(&mut self, received: Result<Heard, Refused>) {
        let counter = match received {
            Ok(_) => &mut self.taken,
            Err(Refused::Bytes(_)) => &mut self.bytes,
            Err(Refused::Path(_)) => &mut self.path,
            Err(Refused::Tag) => &mut self.tag,
        };
        *counter = counter.saturating_add(1);
    }
}
