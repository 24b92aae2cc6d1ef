// Numbers in byte slices at given places, in either order of their bytes.
ghost use Rattle.std.specs.Prelude.{◌≡◌, ◌+◌, ◌≤◌, length};
ghost use Rattle.fields.specs.Patches.{patch};

use crate::bytes::{array_at, put_bytes};
use crate::order::Order;

// The two widths stay apart: one more trait over `u16` and `u32` would say the same at greater length.
pub fn get16<O: Order>(bytes: &[u8], at: usize) -> u16
    requires { at + 2 ≤ length bytes.now }
    ensures { result ≡ O.word 2 at bytes.now }
{
    O::value16(array_at(bytes, at))
}

pub fn get32<O: Order>(bytes: &[u8], at: usize) -> u32
    requires { at + 4 ≤ length bytes.now }
    ensures { result ≡ O.word 4 at bytes.now }
{
    O::value32(array_at(bytes, at))
}

pub fn put16<O: Order>(bytes: &mut [u8], at: usize, value: u16)
    requires { at + 2 ≤ length bytes.old }
    ensures { bytes.new ≡ patch at (O.bytes 2 value) bytes.old }
{
    put_bytes(bytes, at, &O::bytes16(value));
}

pub fn put32<O: Order>(bytes: &mut [u8], at: usize, value: u32)
    requires { at + 4 ≤ length bytes.old }
    ensures { bytes.new ≡ patch at (O.bytes 4 value) bytes.old }
{
    put_bytes(bytes, at, &O::bytes32(value));
}
