ghost use Rattle.std.specs.Prelude.{◌≡◌, ◌≤◌, [], ◌∷◌, length};
ghost use Rattle.packets.specs.Form.{head_bytes, header_in};
ghost use Rattle.packets.specs.Tags.{sealed_bytes};

use crate::bytes::{number, number_bytes};

/// How many bytes stand before the path.
pub(crate) const HEADER_LEN: usize = 14;

/// What a packet says, and of which level.
#[derive(Clone, Copy, PartialEq, Eq, Debug)]
pub struct Header {
    /// The number of the value's kind.
    pub kind: u8,
    /// The sounding's number.
    pub sounding: u16,
    /// The level's number.
    pub level: u16,
    /// The value.
    pub value: u64,
}

impl Header {
    /// Bytes 0 to 13 of a packet that says this, with `count` in byte 1.
    pub(crate) fn bytes(&self, count: u8) -> [u8; HEADER_LEN]
        ensures { result ≡ head_bytes self.now count }
    {
        let [s0, s1] = self.sounding.to_be_bytes();
        let [l0, l1] = self.level.to_be_bytes();
        let [v0, v1, v2, v3, v4, v5, v6, v7] = number_bytes(self.value);
        [
            self.kind, count, s0, s1, l0, l1, v0, v1, v2, v3, v4, v5, v6, v7,
        ]
    }

    /// What the sender of a packet seals: bytes 0 to 13, with 1 in byte 1, and its number.
    pub fn sealed_by_sender(&self, sender: u8) -> [u8; 15]
        ensures { result ≡ sealed_bytes self.now (sender ∷ []) 1 }
    {
        let mut message = [sender; 15];
        message[..HEADER_LEN].copy_from_slice(&self.bytes(1));
        message
    }

    /// What bytes 0 to 13 of a packet say.
    pub(crate) fn read(bytes: &[u8]) -> Header
        requires { 14 ≤ length bytes.now }
        ensures { result ≡ header_in bytes.now }
    {
        Header {
            kind: bytes[0],
            sounding: number(&bytes[2..4]) as u16,
            level: number(&bytes[4..6]) as u16,
            value: number(&bytes[6..14]),
        }
    }
}
