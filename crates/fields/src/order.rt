// The two orders of a number's bytes.
ghost use Rattle.std.specs.Prelude.{◌≡◌, ℕ, ◌<◌, ◌^◌, List};
ghost use Rattle.fields.specs.Words.{part, le_value, le_bytes, be_value, be_bytes, word, big_word};
ghost use Rattle.fields.specs.Orders.{word_is, big_word_is, le_back, be_back};

pub trait Order {
    // The number that bytes stand for, and the bytes of a number, as many as a width says.
    ghost value: { List ℕ → ℕ };

    ghost bytes: { ℕ → ℕ → List ℕ };

    // The number of so many bytes at a place.
    ghost word: { ℕ → ℕ → List ℕ → ℕ };

    // The two widths stay apart: one more trait over `u16` and `u32` would say the same at greater length.
    fn value16(array: [u8; 2]) -> u16
        ensures { result ≡ value array };

    fn value32(array: [u8; 4]) -> u32
        ensures { result ≡ value array };

    fn bytes16(number: u16) -> [u8; 2]
        ensures { result ≡ bytes 2 number };

    fn bytes32(number: u32) -> [u8; 4]
        ensures { result ≡ bytes 4 number };

    // A number at a place is that of the bytes there.
    ghost word_is: { (width at : ℕ) (bs : List ℕ) → word width at bs ≡ value (part width at bs) };

    // A number's bytes stand for the number.
    ghost back: { (width v : ℕ) → v < 256 ^ width → value (bytes width v) ≡ v };
}

// Least significant byte first.
#[derive(Clone, Copy, Debug, PartialEq, Eq)]
pub struct Little;

impl Order for Little {
    ghost value = { le_value };

    ghost bytes = { le_bytes };

    ghost word = { word };

    ghost word_is = { word_is };

    ghost back = { le_back };

    fn value16(array: [u8; 2]) -> u16 {
        u16::from_le_bytes(array)
    }

    fn value32(array: [u8; 4]) -> u32 {
        u32::from_le_bytes(array)
    }

    fn bytes16(number: u16) -> [u8; 2] {
        u16::to_le_bytes(number)
    }

    fn bytes32(number: u32) -> [u8; 4] {
        u32::to_le_bytes(number)
    }
}

// Most significant byte first.
#[derive(Clone, Copy, Debug, PartialEq, Eq)]
pub struct Big;

impl Order for Big {
    ghost value = { be_value };

    ghost bytes = { be_bytes };

    ghost word = { big_word };

    ghost word_is = { big_word_is };

    ghost back = { be_back };

    fn value16(array: [u8; 2]) -> u16 {
        u16::from_be_bytes(array)
    }

    fn value32(array: [u8; 4]) -> u32 {
        u32::from_be_bytes(array)
    }

    fn bytes16(number: u16) -> [u8; 2] {
        u16::to_be_bytes(number)
    }

    fn bytes32(number: u32) -> [u8; 4] {
        u32::to_be_bytes(number)
    }
}
