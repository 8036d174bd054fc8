// The answers as C structs: a number, 0 where there is an answer, and the answer's values.
// Proved: each reply is the one that specs/Replies.antt and specs/Places.antt make of its answer. Assumed: nothing.
#![tactic(auto)]

ghost use Rattle.std.specs.Prelude.{◌≡◌};
ghost use Rattle.berth_reply.specs.Replies.{command_reply, replay_reply, slots_reply, state_reply, row_reply, support_reply, plan_reply, first_reply};
ghost use Rattle.berth_reply.specs.Places.{row_place_reply};

use command_file::Replayed;
use layout::places::CANCELLED;
use model::answer::{OpenSlots, Outcome, RowState, SlotState};
use model::refusal::Refusal;
use plan_search::answer::FirstPlan;

// What a command changed: S, R and T (SCOPE 3.7), which are 0 where refused.
#[repr(C)]
#[derive(Clone, Copy)]
pub struct CommandReply {
    // slots open before and struck after
    pub struck: usize,
    // slots struck before and open after
    pub reopened: usize,
    pub touched: usize,
    pub number: u8,
}

// How many commands of a file were run, and how it ended.
#[repr(C)]
#[derive(Clone, Copy)]
pub struct ReplayReply {
    pub ran: usize,
    pub number: u8,
}

// The mask of a call's open slots and the number of its ones; 0 and 0 where refused.
#[repr(C)]
#[derive(Clone, Copy)]
pub struct SlotsReply {
    pub mask: u32,
    pub ones: u32,
    pub number: u8,
}

// The cause of a struck slot; 255 of an open one, 253 of one of a cancelled call, 254 where refused.
#[repr(C)]
#[derive(Clone, Copy)]
pub struct StateReply {
    pub number: u8,
    pub cause: u8,
}

// The killer's column of a dead row; 255 of one that is alive, 254 where refused.
#[repr(C)]
#[derive(Clone, Copy)]
pub struct RowReply {
    pub number: u8,
    pub killer: u8,
}

// Where a row's bytes start in the lent row buffer, and how many there are: 4, or 0 where refused.
#[repr(C)]
#[derive(Clone, Copy)]
pub struct PlaceReply {
    pub place: usize,
    pub length: usize,
}

// The number of the lowest supporting row; 255 where there is none, 254 where refused.
#[repr(C)]
#[derive(Clone, Copy)]
pub struct SupportReply {
    pub number: u8,
    pub row: u8,
}

// The lowest number of a rule that the plan breaks; 255 where it is kept, 254 where refused.
#[repr(C)]
#[derive(Clone, Copy)]
pub struct PlanReply {
    pub number: u8,
    pub broken: u8,
}

// The trials of a search, how it ended, and the plan: 1 with a plan, 0 with none, 2 at the ceiling, 254 where refused. A byte of the plan is 255 where no slot is laid.
#[repr(C)]
#[derive(Clone, Copy)]
pub struct FirstReply {
    pub trials: u32,
    pub number: u8,
    pub ending: u8,
    pub plan: [u8; 32],
}

// No call is laid.
const NO_PLAN: [u8; 32] = [255; 32];

impl From<Outcome> for CommandReply {
    ghost from_gives = { λ outcome reply. reply ≡ command_reply outcome.answer };

    fn from(outcome: Outcome) -> Self {
        match outcome.answer {
            Ok(report) => CommandReply {
                struck: report.struck,
                reopened: report.reopened,
                touched: report.touched,
                number: 0,
            },
            Err(refusal) => CommandReply {
                struck: 0,
                reopened: 0,
                touched: 0,
                number: refusal.number(),
            },
        }
    }
}

impl From<Replayed> for ReplayReply {
    ghost from_gives = { λ replayed reply. reply ≡ replay_reply replayed };

    fn from(replayed: Replayed) -> Self {
        let number = match replayed.ended {
            Ok(()) => 0,
            Err(refusal) => refusal.number(),
        };
        ReplayReply {
            ran: replayed.ran,
            number,
        }
    }
}

impl From<Result<OpenSlots, Refusal>> for SlotsReply {
    ghost from_gives = { λ answer reply. reply ≡ slots_reply answer };

    fn from(answer: Result<OpenSlots, Refusal>) -> Self {
        match answer {
            Ok(OpenSlots { mask, count }) => SlotsReply {
                mask,
                ones: count,
                number: 0,
            },
            Err(refusal) => SlotsReply {
                mask: 0,
                ones: 0,
                number: refusal.number(),
            },
        }
    }
}

impl From<Result<SlotState, Refusal>> for StateReply {
    ghost from_gives = { λ answer reply. reply ≡ state_reply answer };

    fn from(answer: Result<SlotState, Refusal>) -> Self {
        match answer {
            Ok(SlotState::Open) => StateReply {
                number: 0,
                cause: 255,
            },
            Ok(SlotState::Struck(cause)) => StateReply { number: 0, cause },
            Ok(SlotState::Cancelled) => StateReply {
                number: 0,
                cause: CANCELLED,
            },
            Err(refusal) => StateReply {
                number: refusal.number(),
                cause: 254,
            },
        }
    }
}

impl From<Result<RowState, Refusal>> for RowReply {
    ghost from_gives = { λ answer reply. reply ≡ row_reply answer };

    fn from(answer: Result<RowState, Refusal>) -> Self {
        match answer {
            Ok(RowState::Alive) => RowReply {
                number: 0,
                killer: 255,
            },
            Ok(RowState::Killed(killer)) => RowReply { number: 0, killer },
            Err(refusal) => RowReply {
                number: refusal.number(),
                killer: 254,
            },
        }
    }
}

// So many bytes from the row's place on.
pub fn of_row_bytes(length: usize, rule: u8, row: u8) -> PlaceReply
    ensures { result ≡ row_place_reply length rule row }
{
    if length == 0 {
        return PlaceReply {
            place: 0,
            length: 0,
        };
    }
    PlaceReply {
        place: 256 * usize::from(rule) + 4 * usize::from(row),
        length,
    }
}

impl From<Result<Option<u8>, Refusal>> for SupportReply {
    ghost from_gives = { λ answer reply. reply ≡ support_reply answer };

    fn from(answer: Result<Option<u8>, Refusal>) -> Self {
        match answer {
            Ok(Some(row)) => SupportReply { number: 0, row },
            Ok(None) => SupportReply {
                number: 0,
                row: 255,
            },
            Err(refusal) => SupportReply {
                number: refusal.number(),
                row: 254,
            },
        }
    }
}

impl From<Result<Option<u8>, Refusal>> for PlanReply {
    ghost from_gives = { λ answer reply. reply ≡ plan_reply answer };

    fn from(answer: Result<Option<u8>, Refusal>) -> Self {
        match answer {
            Ok(Some(broken)) => PlanReply { number: 0, broken },
            Ok(None) => PlanReply {
                number: 0,
                broken: 255,
            },
            Err(refusal) => PlanReply {
                number: refusal.number(),
                broken: 254,
            },
        }
    }
}

impl From<Result<FirstPlan, Refusal>> for FirstReply {
    ghost from_gives = { λ answer reply. reply ≡ first_reply answer };

    fn from(answer: Result<FirstPlan, Refusal>) -> Self {
        match answer {
            Ok(FirstPlan::Found(trials, plan)) => FirstReply {
                trials,
                number: 0,
                ending: 1,
                plan,
            },
            Ok(FirstPlan::Nothing(trials)) => FirstReply {
                trials,
                number: 0,
                ending: 0,
                plan: NO_PLAN,
            },
            Ok(FirstPlan::Stopped(trials)) => FirstReply {
                trials,
                number: 0,
                ending: 2,
                plan: NO_PLAN,
            },
            Err(refusal) => FirstReply {
                trials: 0,
                number: refusal.number(),
                ending: 254,
                plan: NO_PLAN,
            },
        }
    }
}
