// The questions: the slots of a call, the state of a slot, a row's state and its four bytes, and the support of a slot in a rule's column.
// Of the value each copies the lists that it reads: to lend them where they lie makes the compiler copy the value whole, which takes half the time again.
// Proved: each answer meets its promise of the model's specs/Questions.antt, on any value and any buffers. Assumed: nothing.
#![tactic(auto)]

mod weights; // the table of weights in a mask
mod read; // bytes of the value and of the lent buffers
mod refusal; // the checks of each question

ghost use Rattle.model.specs.Questions.{SlotsPromise, StatePromise, RowPromise, SupportPromise};
ghost use Rattle.layout.specs.Memory.{memory};
ghost use Rattle.questions.specs.RowPart.{RowPart};

use crate::read::{call_of, lowest_support, open_mask};
use crate::refusal::{call_refusal, row_refusal, slot_refusal, support_refusal};
use layout::places::{CANCELLED, byte_at, is_cancelled};
use layout::value::{Heads, Value};
use model::answer::{OpenSlots, RowState, SlotState};
use model::refusal::Refusal;

// The mask of a call's open slots, with the number of its ones.
pub fn open_slots(
    value: Value,
    rows: &[u8],
    killers: &[u8],
    slots: &[u8],
    call: u8,
) -> Result<OpenSlots, Refusal>
    ensures { SlotsPromise (memory value rows.now killers.now slots.now) call result }
{
    let counts = value.heads.counts;
    call_refusal(&counts, rows, killers, slots, call)?;
    let mask = open_mask(slots, call);
    Ok(OpenSlots {
        mask,
        count: mask.count_ones(),
    })
}

// Open, struck with its cause, or of a cancelled call.
pub fn slot_state(
    value: Value,
    rows: &[u8],
    killers: &[u8],
    slots: &[u8],
    call: u8,
    slot: u8,
) -> Result<SlotState, Refusal>
    ensures { StatePromise (memory value rows.now killers.now slots.now) call slot result }
{
    let counts = value.heads.counts;
    slot_refusal(&counts, rows, killers, slots, call, slot)?;
    // a value that the host altered may count more than 32 slots, so the place may lie past the buffer
    match byte_at(slots, 32 * usize::from(call) + usize::from(slot)) {
        255 => Ok(SlotState::Open),
        CANCELLED => Ok(SlotState::Cancelled),
        byte => Ok(SlotState::Struck(byte)),
    }
}

// Alive, or its killer's column.
pub fn row_state(
    value: Value,
    rows: &[u8],
    killers: &[u8],
    slots: &[u8],
    rule: u8,
    row: u8,
) -> Result<RowState, Refusal>
    ensures { RowPromise (memory value rows.now killers.now slots.now) rule row result }
{
    let counts = value.heads.counts;
    let arity = value.heads.arity;
    let lengths = value.heads.lengths;
    row_refusal(&counts, &arity, &lengths, rows, killers, slots, rule, row)?;
    match killers[64 * usize::from(rule) + usize::from(row)] {
        255 => Ok(RowState::Alive),
        byte => Ok(RowState::Killed(byte)),
    }
}

// The row's four bytes where they lie in the lent buffer, and the empty part, as docs/SCOPE.md has it (5.4), where `row_state` refuses.
pub fn row_bytes<'a>(
    value: Value,
    rows: &'a [u8],
    killers: &[u8],
    slots: &[u8],
    rule: u8,
    row: u8,
) -> &'a [u8]
    ensures { RowPart value rows.entry killers.now slots.now rule row result }
{
    let counts = value.heads.counts;
    let arity = value.heads.arity;
    let lengths = value.heads.lengths;
    if row_refusal(&counts, &arity, &lengths, rows, killers, slots, rule, row).is_err() {
        return &rows[..0];
    }
    let start = 256 * usize::from(rule) + 4 * usize::from(row);
    &rows[start..start + 4]
}

// The lowest living row that holds the slot in the rule's column, or none; none in the column of a cancelled call.
pub fn support(
    value: Value,
    rows: &[u8],
    killers: &[u8],
    slots: &[u8],
    rule: u8,
    column: u8,
    slot: u8,
) -> Result<Option<u8>, Refusal>
    ensures { SupportPromise (memory value rows.now killers.now slots.now) rule column slot result }
{
    let Heads {
        counts,
        arity,
        scope,
        lengths,
    } = value.heads;
    support_refusal(
        &counts, &arity, &scope, rows, killers, slots, rule, column, slot,
    )?;
    if is_cancelled(slots, call_of(&scope, rule, column)) {
        return Ok(None);
    }
    Ok(lowest_support(&lengths, rows, killers, rule, column, slot))
}
