// Kind 2: starts a draft, in the place of any other.
ghost use Rattle.std.specs.Prelude.{◌≡◌};
ghost use Rattle.command_draft.specs.Fields.{head_checks};
ghost use Rattle.command_draft.specs.Drafts.{draft_of, StartsDraft};
ghost use Rattle.model.specs.Refusals.{first_of, number_of, AnsweredBy};

use crate::fields;
use crate::redraft::outcome_of;
use layout::places::cap;
use layout::value::{Draft, RuleData, Value};
use model::answer::Outcome;
use model::command::Head;
use model::refusal::Refusal;

// The first refusal that holds, in the order of SCOPE 4.3.
fn check_head(counts: &[u8; 32], slots: &[u8], head: Head) -> Result<(), Refusal>
    ensures { number_of result ≡ first_of (head_checks counts.now slots.now head) }
{
    let scope = [head.call0, head.call1, head.call2, head.call3];
    let columns = cap(head.arity, 4);
    Refusal::NoBoard.when(counts[0] == 0)?;
    Refusal::BadNumber.when(63 < head.number)?;
    Refusal::BadArity.when(fields::bad_arity(head.arity))?;
    Refusal::CallOffBoard.when(fields::call_off_board(counts, &scope, columns))?;
    Refusal::CancelledCall.when(fields::call_cancelled(slots, &scope, columns))?;
    Refusal::CallTwice.when(fields::call_twice(&scope, columns))?;
    Refusal::SpareField.when(fields::bad_spare(&scope, columns))
}

// The head without rows.
fn draft_of(head: Head) -> Draft
    ensures { result ≡ draft_of head }
{
    Draft {
        number: head.number,
        rule: RuleData {
            arity: head.arity,
            scope: [head.call0, head.call1, head.call2, head.call3],
            length: 0,
            rows: [255; 256],
        },
    }
}

// The draft of the head.
pub fn redraft(counts: &[u8; 32], slots: &[u8], head: Head) -> Result<Draft, Refusal>
    ensures { AnsweredBy (first_of (head_checks counts.now slots.now head)) (draft_of head) result }
{
    check_head(counts, slots, head)?;
    Ok(draft_of(head))
}

// In a frame of its own, for the stack.
#[inline(never)]
pub fn start_draft(value: Value, head: Head, slots: &[u8]) -> Outcome
    ensures { StartsDraft value slots.now head result }
{
    let next = redraft(&value.heads.counts, slots, head);
    outcome_of(value, next)
}
