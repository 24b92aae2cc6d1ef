// Parts of bytes that are at hand.
ghost use Rattle.std.specs.Prelude.{◌≡◌, ◌+◌, ◌≤◌, ◌++◌, length};
ghost use Rattle.fields.specs.Words.{part};

// The part of some bytes from a place on that `out` has room for.
pub(crate) fn copy_part(bytes: &[u8], from: usize, out: &mut [u8])
    requires { from + length out.old ≤ length bytes.now }
    ensures { out.new ≡ part (length out.old) from bytes.now }
{
    out.copy_from_slice(&bytes[from..from + out.len()]);
}

// The same of bytes with others behind them.
pub(crate) fn copy_joined(front: &[u8], back: &[u8], from: usize, out: &mut [u8])
    requires { from + length out.old ≤ length front.now + length back.now }
    ensures { out.new ≡ part (length out.old) from (front.now ++ back.now) }
{
    let start = from.min(front.len());
    let count = (front.len() - start).min(out.len());
    copy_part(front, start, &mut out[0..count]);
    copy_part(back, from - start, &mut out[count..]);
}
