// The image of a session, in bytes of its own.
ghost use Rattle.std.specs.Prelude.{◌≤◌, vec_len};

use script::command::Make;

#[derive(Drop)]
pub struct HeldImage {
    pub(crate) make: Make,
    pub(crate) bytes: Vec<u8>,
    ghost few: { vec_len bytes ≤ 16777216 },
}
