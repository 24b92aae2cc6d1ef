// What a line of a script asks for.
use calendar::DateTime;

// The two makes of image.
#[derive(Clone, Copy, PartialEq, Eq, Debug)]
pub enum Make {
    Bare,
    Checked,
}

// The first words of commands. Named, then read: with arms that may fail in the one match, its default was tried and did not close.
#[derive(Clone, Copy, PartialEq, Eq, Debug)]
pub enum Keyword {
    Image,
    Poke,
    Write,
    Unsound,
    Block,
    Digest,
    Second,
    Moment,
}

// What is asked of the blocks of an image.
#[derive(Drop)]
pub enum BlockCommand {
    // The first bytes of a block's content.
    Write(u32, Vec<u8>),
    // The lowest corrupt block below a number.
    Unsound(u32),
    // The content of a block.
    Block(u32),
}

// What is asked of an image.
#[derive(Drop)]
pub enum ImageCommand {
    // Raw bytes of the image from an offset on.
    Poke(u32, Vec<u8>),
    Digest,
    Blocks(BlockCommand),
}

#[derive(Drop)]
pub enum Command {
    // A new image of so many bytes.
    Image(Make, u32),
    // What needs an image.
    On(ImageCommand),
    // The second of a date-time, and the date-time of a second.
    Second(DateTime),
    Moment(u32),
}
