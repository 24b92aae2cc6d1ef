// Services, the keys that they are asked with, and the codes that they answer with.
ghost use Rattle.std.specs.Prelude.{◌≡◌};
ghost use Rattle.numbers.specs.Names.{service_number, service_numbered, key_number, key_numbered, code_number};
ghost use Rattle.numbers.specs.Numbers.{Numbered};

use crate::number::UnknownNumber;

// What a request asks for, by its first byte.
#[derive(Clone, Copy, PartialEq, Eq, Debug)]
pub enum Service {
    FullRead = 0x30,
    PartialRead = 0x3F,
    FullWrite = 0x40,
    PartialWrite = 0x4F,
}

impl From<Service> for u8 {
    ghost from_gives = { λ service number. number ≡ service_number service };

    fn from(service: Service) -> u8 {
        service as u8
    }
}

impl TryFrom<u8> for Service {
    type Error = UnknownNumber;

    ghost try_from_gives = { Numbered service_number service_numbered };

    fn try_from(number: u8) -> Result<Service, UnknownNumber> {
        match number {
            0x30 => Ok(Service::FullRead),
            0x3F => Ok(Service::PartialRead),
            0x40 => Ok(Service::FullWrite),
            0x4F => Ok(Service::PartialWrite),
            _ => Err(UnknownNumber(u16::from(number))),
        }
    }
}

// Who asks.
#[derive(Clone, Copy, PartialEq, Eq, Debug)]
pub enum Key {
    Reader = 1,
    Master = 2,
}

impl From<Key> for u8 {
    ghost from_gives = { λ key number. number ≡ key_number key };

    fn from(key: Key) -> u8 {
        key as u8
    }
}

// Any other number is no key.
impl TryFrom<u8> for Key {
    type Error = UnknownNumber;

    ghost try_from_gives = { Numbered key_number key_numbered };

    fn try_from(number: u8) -> Result<Key, UnknownNumber> {
        match number {
            1 => Ok(Key::Reader),
            2 => Ok(Key::Master),
            _ => Err(UnknownNumber(u16::from(number))),
        }
    }
}

// The first byte of an answer.
#[derive(Clone, Copy, PartialEq, Eq, Debug)]
pub enum AnswerCode {
    Ok = 0,
    Error = 1,
    ServiceNotSupported = 2,
    InsufficientClearance = 3,
    OperationNotPossible = 4,
    InappropriateAction = 5,
    DataNotReady = 7,
}

impl From<AnswerCode> for u8 {
    ghost from_gives = { λ code number. number ≡ code_number code };

    fn from(code: AnswerCode) -> u8 {
        code as u8
    }
}
