// What commands and questions answer, where they are not refused; an outcome is a command's answer with the value that it leaves.
ghost use Rattle.std.specs.Prelude.{◌≡◌};
ghost use Rattle.model.specs.Promise.{refused_with, accepted_with};

use crate::refusal::Refusal;
use layout::value::Value;

// What an accepted command changed: S, R and T (SCOPE 3.7).
#[derive(Clone, Copy)]
pub struct Report {
    // slots open before and struck after
    pub struck: usize,
    // slots struck before and open after
    pub reopened: usize,
    pub touched: usize,
}

// The answer to a command, and the value that it leaves beside the buffers.
#[derive(Clone, Copy)]
pub struct Outcome {
    pub answer: Result<Report, Refusal>,
    pub value: Value,
}

impl Outcome {
    // Refused: the value as it was.
    pub fn refused(refusal: Refusal, value: Value) -> Self
        ensures { result ≡ refused_with refusal value }
    {
        Self {
            answer: Err(refusal),
            value,
        }
    }

    // Accepted, with S, R and T to report, and the value that is left.
    pub fn accepted(struck: usize, reopened: usize, touched: usize, value: Value) -> Self
        ensures { result ≡ accepted_with struck reopened touched value }
    {
        let report = Report {
            struck,
            reopened,
            touched,
        };
        Self {
            answer: Ok(report),
            value,
        }
    }
}

// The slots of a call.
#[derive(Clone, Copy)]
pub struct OpenSlots {
    // a bit for each open slot
    pub mask: u32,
    // how many there are
    pub count: u32,
}

// The state of a slot.
#[derive(Clone, Copy)]
pub enum SlotState {
    Open,
    // its cause
    Struck(u8),
    // its call is cancelled
    Cancelled,
}

// The state of a row.
#[derive(Clone, Copy)]
pub enum RowState {
    Alive,
    // its killer's column
    Killed(u8),
}
