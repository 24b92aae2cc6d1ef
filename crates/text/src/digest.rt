// The digest of a byte string: FNV-1a with 64 bits.
ghost use Rattle.std.specs.Prelude.{◌≡◌, ◌++◌, OnOk};
ghost use Rattle.text.specs.Digests.{mixed, digest_of, digest_text};

use crate::digits::write_digits;
use std::alloc::AllocError;

fn mix(hash: u64, byte: u8) -> u64
    ensures { result ≡ mixed hash byte }
{
    (hash ^ u64::from(byte)).wrapping_mul(1099511628211)
}

// The FNV-1a digest of the bytes.
pub fn digest(bytes: &[u8]) -> u64
    ensures { result ≡ digest_of bytes.now }
{
    bytes
        .iter()
        .fold(14695981039346656037, |hash, byte| mix(hash, *byte))
}

// Appends a digest as sixteen lower-case hex digits.
pub fn write_digest(out: &mut Vec<u8>, value: u64) -> Result<(), AllocError>
    ensures { OnOk result (out.new.items ≡ out.old.items ++ digest_text value) }
{
    write_digits(out, value, 16, 16)
}
