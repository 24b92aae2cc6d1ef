// What a procedure left.
use numbers::procedure::ProcedureResult;

// The procedure's number and its sequence byte as they were sent, and the result.
#[derive(Clone, Copy)]
pub struct Response {
    pub procedure: u16,
    pub sequence: u8,
    pub result: ProcedureResult,
}
