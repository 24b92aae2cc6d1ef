// Procedures, and the results that they end with.
ghost use Rattle.std.specs.Prelude.{◌≡◌};
ghost use Rattle.numbers.specs.Names.{procedure_number, procedure_numbered, result_number, result_numbered};
ghost use Rattle.numbers.specs.Numbers.{Numbered};

use crate::number::UnknownNumber;

#[derive(Clone, Copy, PartialEq, Eq, Debug)]
pub enum Procedure {
    ResetList = 4,
    UpdateLastRead = 5,
    SetDateTime = 10,
    ActivateAll = 12,
    ActivateOne = 13,
    WithdrawAll = 14,
    WithdrawOne = 15,
    TakeSelfRead = 20,
}

impl From<Procedure> for u16 {
    ghost from_gives = { λ procedure number. number ≡ procedure_number procedure };

    fn from(procedure: Procedure) -> u16 {
        procedure as u16
    }
}

impl TryFrom<u16> for Procedure {
    type Error = UnknownNumber;

    ghost try_from_gives = { Numbered procedure_number procedure_numbered };

    fn try_from(number: u16) -> Result<Procedure, UnknownNumber> {
        match number {
            4 => Ok(Procedure::ResetList),
            5 => Ok(Procedure::UpdateLastRead),
            10 => Ok(Procedure::SetDateTime),
            12 => Ok(Procedure::ActivateAll),
            13 => Ok(Procedure::ActivateOne),
            14 => Ok(Procedure::WithdrawAll),
            15 => Ok(Procedure::WithdrawOne),
            20 => Ok(Procedure::TakeSelfRead),
            _ => Err(UnknownNumber(number)),
        }
    }
}

#[derive(Clone, Copy, PartialEq, Eq, Debug)]
pub enum ProcedureResult {
    Completed = 0,
    InvalidParameter = 2,
    Conflict = 3,
    Unrecognized = 6,
}

impl From<ProcedureResult> for u8 {
    ghost from_gives = { λ outcome number. number ≡ result_number outcome };

    fn from(outcome: ProcedureResult) -> u8 {
        outcome as u8
    }
}

impl TryFrom<u8> for ProcedureResult {
    type Error = UnknownNumber;

    ghost try_from_gives = { Numbered result_number result_numbered };

    fn try_from(number: u8) -> Result<ProcedureResult, UnknownNumber> {
        match number {
            0 => Ok(ProcedureResult::Completed),
            2 => Ok(ProcedureResult::InvalidParameter),
            3 => Ok(ProcedureResult::Conflict),
            6 => Ok(ProcedureResult::Unrecognized),
            _ => Err(UnknownNumber(u16::from(number))),
        }
    }
}
