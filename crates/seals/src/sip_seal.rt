ghost use Rattle.std.proofs.Common.{lit≤};
ghost use Rattle.std.specs.Prelude.{◌≡◌, ℕ, ◌≤◌};
ghost use Rattle.seals.specs.SipSeals.{sip_tag, sip_tag-fits};

use crate::seal::Seal;
use siphash::Key;

/// The long seal: SipHash-2-4 under a key for each of stations 0 to 6.
#[derive(Clone, Copy)]
pub struct SipKeys {
    keys: [Key; 7],
}

impl SipKeys {
    /// The seal under these keys, by station number.
    pub fn new(keys: [Key; 7]) -> SipKeys
        ensures { result.keys ≡ keys }
    {
        SipKeys { keys }
    }
}

impl Seal for SipKeys {
    const WIDTH: usize = 8;

    ghost WIDTH = { 8 };

    ghost meaning = { λ s j m. sip_tag s.keys j m };

    fn tag(&self, station: u8, message: &[u8]) -> u64 {
        self.keys
            .get(usize::from(station))
            .map_or(0, |key| key.hash(message))
    }

    ghost low = { lit≤ tt };

    ghost high = { lit≤ tt };

    ghost fits = { λ s j m. sip_tag-fits s.keys j m };
}
