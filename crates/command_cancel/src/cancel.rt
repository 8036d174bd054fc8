// Kind 9, cancel: a call's slots are neither open nor struck any more, and its column is none of any rule's. Value and draft are untouched.
ghost use Rattle.std.specs.Prelude.{◌≡◌};
ghost use Rattle.command_cancel.specs.Checks.{cancel_checks};
ghost use Rattle.command_cancel.specs.Cancels.{CallCancelled, CancelPromise};
ghost use Rattle.layout.specs.Memory.{memory};
ghost use Rattle.model.specs.Refusals.{first_of, number_of};

use layout::places::{byte_at, cap, is_cancelled};
use layout::value::{KILLERS, ROWS, SLOTS, Value};
use model::answer::Outcome;
use model::refusal::Refusal;

// The first refusal that holds.
pub fn check_cancel(counts: &[u8; 32], slots: &[u8], call: u8) -> Result<(), Refusal>
    ensures { number_of result ≡ first_of (cancel_checks counts.now slots.now call) }
{
    Refusal::NoBoard.when(counts[0] == 0)?;
    Refusal::NoCall.when(byte_at(counts, usize::from(call)) == 0)?;
    Refusal::AlreadyCancelled.when(is_cancelled(slots, call))
}

// The call is cancelled, whatever stands there. It is taken modulo 32, so that any byte names one.
pub fn cancel_unchecked(
    value: Value,
    call: u8,
    rows: &[u8; ROWS],
    killers: &mut [u8; KILLERS],
    slots: &mut [u8; SLOTS],
) -> Outcome
    ensures { CallCancelled
        call (memory value rows.now killers.old slots.old) result.answer
        (memory result.value rows.now killers.new slots.new) }
{
    let c = usize::from(call % 32);
    let n = cap(value.heads.counts[c], 32);
    let count = filter_cancel::cancel(rows, killers, slots, &value.heads, c, n);
    Outcome::accepted(0, count.reopened, count.touched, value)
}

// The whole of kind 9: refused, and nothing is changed; or the call is cancelled.
// In a frame of its own, for the stack.
#[inline(never)]
pub fn cancel_call(
    value: Value,
    call: u8,
    rows: &[u8; ROWS],
    killers: &mut [u8; KILLERS],
    slots: &mut [u8; SLOTS],
) -> Outcome
    ensures { CancelPromise
        call (memory value rows.now killers.old slots.old) result.answer
        (memory result.value rows.now killers.new slots.new) }
{
    if let Err(refusal) = check_cancel(&value.heads.counts, slots, call) {
        return Outcome::refused(refusal, value);
    }
    cancel_unchecked(value, call, rows, killers, slots)
}
