// Bytes in byte slices at given places.
ghost use Rattle.std.specs.Prelude.{◌≡◌, ◌+◌, ◌<◌, ◌≤◌, [], ◌∷◌, length, slice_index};
ghost use Rattle.fields.specs.Words.{part};
ghost use Rattle.fields.specs.Patches.{patch, Replaces};

// The bytes from a place on, as many as the array has.
pub fn chunk_at<const N: usize>(bytes: &[u8], at: usize) -> &[u8; N]
    requires { at + N ≤ length bytes.now }
    ensures { result.now ≡ part N at bytes.now }
{
    bytes[at..].first_chunk().unwrap()
}

// The same, copied.
pub fn array_at<const N: usize>(bytes: &[u8], at: usize) -> [u8; N]
    requires { at + N ≤ length bytes.now }
    ensures { result ≡ part N at bytes.now }
{
    *chunk_at(bytes, at)
}

pub fn get8(bytes: &[u8], at: usize) -> u8
    requires { at < length bytes.now }
    ensures { result ≡ slice_index bytes.now at }
{
    bytes[at]
}

pub fn put8(bytes: &mut [u8], at: usize, value: u8)
    requires { at < length bytes.old }
    ensures { bytes.new ≡ patch at (value ∷ []) bytes.old }
{
    put_bytes(bytes, at, &[value]);
}

// What `put_bytes` does; apart, since its proof needs a file: with a lemma named on that one, `replaces` was tried and stays open.
fn place(bytes: &mut [u8], at: usize, new: &[u8])
    requires { at + length new.now ≤ length bytes.old }
    ensures patched { bytes.new ≡ patch at new.now bytes.old }
    ensures replaces { Replaces at new.now bytes.old bytes.new }
{
    bytes[at..at + new.len()].copy_from_slice(new);
}

// Writes new bytes from a place on. Each part beside them keeps its bytes.
pub fn put_bytes(bytes: &mut [u8], at: usize, new: &[u8])
    requires { at + length new.now ≤ length bytes.old }
    ensures patched { bytes.new ≡ patch at new.now bytes.old }
    ensures replaces { Replaces at new.now bytes.old bytes.new }
{
    place(bytes, at, new);
}
