//! A published vector: a theorem about the definition, and what the code gives.
ghost use Rattle.std.specs.Prelude.{◌≡◌, ◌≤◌, take};
ghost use Rattle.siphash.specs.SipHash.{key_of, sip_hash};
ghost use Rattle.siphash.specs.Worked.{first_bytes, PublishedHash};

use crate::key::Key;

/// The hash of the first `len` of the bytes 0 to 15 under the key of all of them.
fn hash_of_first(len: usize) -> u64
    requires { len ≤ 16 }
    ensures rules { PublishedHash }
    ensures value { result ≡ sip_hash (key_of first_bytes) (take len first_bytes) }
{
    let bytes = [0, 1, 2, 3, 4, 5, 6, 7, 8, 9, 10, 11, 12, 13, 14, 15];
    Key::new(&bytes).hash(&bytes[0..len])
}

/// The hash of the bytes 0 to 14 under the key of the bytes 0 to 15, as its authors published it.
pub fn published_hash() -> u64
    ensures rules { PublishedHash }
    ensures value { result ≡ 0xa129ca6149be45e5 }
{
    hash_of_first(15)
}
