// The checksum that a checked image keeps beside each block.
ghost use Rattle.std.specs.Prelude.{◌≡◌, ◌*◌, ◌<◌, ◌≤◌, length};
ghost use Rattle.memory.specs.Checksum.{weighted, checksum_of};

use crate::memory::CONTENT;

// The sum of the bytes, each times its place plus one: by a rule of the project a loop over the bytes with their index.
fn weighted_sum(content: &[u8; CONTENT]) -> u32
    ensures sum { result ≡ weighted 0 content.now }
    ensures bound { result ≤ 510 * 130050 }
{
    let mut sum = 0;
    for (i, b) in content.iter().enumerate() {
        sum += (i as u32 + 1) * u32::from(*b);
    }
    sum
}

pub(crate) fn checksum(block: u32, content: &[u8; CONTENT]) -> u16
    requires { block < 4096 }
    ensures { result ≡ checksum_of block content.now }
{
    ((block + 1 + weighted_sum(content)) % 65521) as u16
}
