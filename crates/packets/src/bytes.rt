//! Numbers as bytes, the high byte first.
ghost use Rattle.std.specs.Prelude.{◌≡◌, ◌^◌, ◌<◌, ◌≤◌, length};
ghost use Rattle.std.specs.Int.Digits.{number_from_digits};
ghost use Rattle.packets.specs.Bytes.{bytes_of};

/// The eight bytes of a number.
pub(crate) fn number_bytes(n: u64) -> [u8; 8]
    ensures { result ≡ bytes_of 8 n }
{
    n.to_be_bytes()
}

/// Writes the low bytes of a number to a place of up to eight bytes.
pub(crate) fn put_number(place: &mut [u8], n: u64)
    requires { length place.old ≤ 8 }
    ensures { place.new ≡ bytes_of (length place.old) n }
{
    let low = 8 - place.len();
    place.copy_from_slice(&number_bytes(n)[low..]);
}

/// The number that up to eight bytes are.
pub(crate) fn number(bytes: &[u8]) -> u64
    requires { length bytes.now ≤ 8 }
    ensures is { result ≡ number_from_digits 256 bytes.now }
    ensures fits { result < 256 ^ length bytes.now }
{
    let mut number = [0; 8];
    number[8 - bytes.len()..].copy_from_slice(bytes);
    u64::from_be_bytes(number)
}
