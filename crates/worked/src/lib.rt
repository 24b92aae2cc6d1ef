// The worked examples. They are proved as one statement over the definitions, and one of them is run.
#![tactic(auto)]

ghost use Rattle.std.specs.Prelude.{◌≡◌, Some};
ghost use Rattle.worked.specs.Examples.{Worked};
ghost use Rattle.worked.specs.Life.{WorkedLife};
ghost use Rattle.memory.specs.Images.{block_count};

use calendar::DateTime;

// The second of 2024-02-29 12:30:00.
#[tactic(auto, using(crate::proofs::Worked::worked, crate::proofs::Worked::worked_life))]
pub fn leap_day() -> Option<u32>
    ensures examples { Worked }
    ensures life { WorkedLife }
    ensures second { result ≡ Some 762525000 }
{
    let date = DateTime {
        year: 24,
        month: 2,
        day: 29,
        hour: 12,
        minute: 30,
        second: 0,
    };
    date.to_second()
}

#[cfg(test)]
mod tests {
    use calendar::{from_second, second_and_back};
    use memory::bare::BareImage;
    use memory::checked::CheckedImage;
    use memory::fault::MemoryFault;
    use memory::memory::BlockMemory;

    // Every day of the calendar, at its last second, and the first second outside.
    #[test]
    fn every_day_comes_back(rt: HostRuntime) {
        for day in 0..36_525u32 {
            let second = day * 86_400 + 86_399;
            assert_eq!(rt; second_and_back(second), Some(second));
        }
        assert!(rt; from_second(3_155_760_000).is_none());
    }

    // The stored bytes of the two worked checksums, and a block that is corrupt until it is written.
    #[test]
    fn checksums_are_stored(rt: HostRuntime) {
        let mut bytes = [0u8; 1030];
        let mut content = [0u8; 510];
        let mut image = CheckedImage::new(&mut bytes);
        assert_eq!(rt; image.size(), 2);
        assert_eq!(rt; image.lowest_corrupt(9), Some(0));
        assert_eq!(rt; image.read(0, &mut content), Err(MemoryFault::Corrupt(0)));
        assert_eq!(rt; image.write(0, &content), Ok(()));
        assert_eq!(rt; image.lowest_corrupt(9), Some(1));
        assert_eq!(rt; image.write(2, &content), Err(MemoryFault::TooSmall(2)));
        assert!(rt; bytes[510] == 1 && bytes[511] == 0);
        content[509] = 255;
        let mut image = CheckedImage::new(&mut bytes);
        assert_eq!(rt; image.write(0, &content), Ok(()));
        assert!(rt; bytes[509] == 255 && bytes[510] == 0x12 && bytes[511] == 0xFC);
    }

    // An image that is lent says of its size what the image does.
    fn count_lent(image: &mut BareImage<'_>) -> u32
        ensures { result ≡ block_count 510 image.old.bytes.now }
    {
        image.size()
    }

    #[test]
    fn lent_images_are_counted(rt: HostRuntime) {
        let mut bytes = [0u8; 1021];
        assert_eq!(rt; count_lent(&mut BareImage::new(&mut bytes)), 2);
    }
}
