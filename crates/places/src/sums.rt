//! The checksum by which a map names its text.

ghost use Rattle.std.specs.Prelude.{◌≡◌};
ghost use Rattle.places.specs.Maps.{sum_of};

/// The checksum of Fowler, Noll and Vo in its form `1a`, of 64 bits.
pub fn sum_of(bytes: &[u8]) -> u64
    ensures { result ≡ sum_of bytes.now }
{
    let mut sum: u64 = 0xcbf2_9ce4_8422_2325;
    for byte in bytes {
        sum = (sum ^ u64::from(*byte)).wrapping_mul(0x0000_0100_0000_01b3);
    }
    sum
}
