// Sums of bytes modulo 256.
ghost use Rattle.std.specs.Prelude.{◌≡◌, ◌%◌, sum};

pub(crate) fn byte_sum(bytes: &[u8]) -> u8
    ensures { result ≡ sum bytes.now % 256 }
{
    bytes
        .iter()
        .fold(0, |sum: u8, byte| sum.wrapping_add(*byte))
}
