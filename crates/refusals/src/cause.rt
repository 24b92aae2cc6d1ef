// The causes of refusals, their layers and their answer codes.
ghost use Rattle.std.specs.Prelude.{◌≡◌};
ghost use Rattle.refusals.specs.Causes.{cause_number, layer_of, code_of};

use numbers::service::AnswerCode;

#[derive(Clone, Copy, PartialEq, Eq, Debug)]
pub enum Layer {
    Memory,
    Meter,
    Service,
}

#[derive(Clone, Copy, PartialEq, Eq, Debug)]
pub enum Cause {
    TooSmall = 1,
    Corrupt = 2,
    OutOfOrder = 3,
    BadSecond = 4,
    LogLimit = 5,
    ShortBuffer = 6,
    Malformed = 7,
    UnknownService = 8,
    Clearance = 9,
    UnknownTable = 10,
    NoSuchUse = 11,
    BadPart = 12,
    BadContent = 13,
    NotReady = 14,
}

impl From<Cause> for u8 {
    ghost from_gives = { λ cause number. number ≡ cause_number cause };

    fn from(cause: Cause) -> u8 {
        cause as u8
    }
}

impl Cause {
    pub fn layer(self) -> Layer
        ensures { result ≡ layer_of self }
    {
        match self {
            Cause::TooSmall | Cause::Corrupt => Layer::Memory,
            Cause::OutOfOrder | Cause::BadSecond | Cause::LogLimit => Layer::Meter,
            _ => Layer::Service,
        }
    }

    // A buffer that is too short gets no code.
    pub fn code(self) -> Option<AnswerCode>
        ensures { result ≡ code_of self }
    {
        match self {
            Cause::ShortBuffer => None,
            Cause::TooSmall
            | Cause::Corrupt
            | Cause::OutOfOrder
            | Cause::BadSecond
            | Cause::Malformed => Some(AnswerCode::Error),
            Cause::UnknownService => Some(AnswerCode::ServiceNotSupported),
            Cause::Clearance => Some(AnswerCode::InsufficientClearance),
            Cause::LogLimit | Cause::NoSuchUse => Some(AnswerCode::OperationNotPossible),
            Cause::UnknownTable | Cause::BadPart | Cause::BadContent => Some(
                AnswerCode::InappropriateAction,
            ),
            Cause::NotReady => Some(AnswerCode::DataNotReady),
        }
    }
}
