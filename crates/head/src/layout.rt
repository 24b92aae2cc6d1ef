// Where the pieces of block 0 stand.
pub const BLOCK_LENGTH: usize = 510;

// The layout number, at the front.
pub const NUMBER: u16 = 1;

pub const ROW_COUNT: usize = 3;

pub const ROW_LENGTH: usize = 12;

pub const LOG_COUNT: usize = 3;

pub const LOG_LENGTH: usize = 8;

pub const ACTIVATION_LENGTH: usize = 5;

pub const REGISTERS_LENGTH: usize = 20;

pub const ROWS: usize = 2;

pub const LOGS: usize = ROWS + ROW_COUNT * ROW_LENGTH;

pub const ACTIVATION: usize = LOGS + LOG_COUNT * LOG_LENGTH;

pub const REGISTERS: usize = ACTIVATION + ACTIVATION_LENGTH;

pub const STATUS: usize = REGISTERS + REGISTERS_LENGTH;

pub const REST: usize = STATUS + 1;

pub const REST_LENGTH: usize = BLOCK_LENGTH - REST;
