// What a line of a script asks of a meter, and any command.
use script::command::Command;

// The first words of commands on a meter. An Option of them: only the word sends a line to the bench, and no complaint of its reading.
#[derive(Clone, Copy)]
pub enum MeterWord {
    Format,
    Start,
    Serve,
    ServeIn,
    Tick,
    Ticks,
    Energy,
    Stop,
    Clock,
}

#[derive(Drop)]
pub enum MeterCommand {
    Format,
    // From a second on.
    Start(u32),
    Serve {
        key: u8,
        request: Vec<u8>,
    },
    // With buffers of so many bytes.
    ServeIn {
        answer: u16,
        scratch: u16,
        key: u8,
        request: Vec<u8>,
    },
    Tick,
    // Up to so many.
    Ticks(u32),
    // In watt-hours.
    Energy(u32),
    Stop,
    Clock,
}

#[derive(Drop)]
pub enum AnyCommand {
    // On an image or on dates.
    Bench(Command),
    Meter(MeterCommand),
}
