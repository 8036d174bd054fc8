// The checks of each question, as SCOPE 4.1 numbers them and in the order of SCOPE 4.3. None relies on another to be safe. Of the value they see only the lists that
// they are handed.
ghost use Rattle.std.specs.Prelude.{◌≡◌};
ghost use Rattle.model.specs.Questions.{call_checks, slot_checks, rule_checks, row_checks, support_checks};
ghost use Rattle.questions.specs.Parts.{call_parts, rule_parts, row_parts, support_parts};
ghost use Rattle.model.specs.Refusals.{first_of, number_of};

use crate::read::{call_of, columns_of, rows_of, slots_held};
use layout::value::bad_lengths;
use model::refusal::Refusal;

// A call (5.1).
pub fn call_refusal(
    counts: &[u8; 32],
    rows: &[u8],
    killers: &[u8],
    slots: &[u8],
    call: u8,
) -> Result<(), Refusal>
    ensures { number_of result
        ≡ first_of (call_checks (call_parts counts.now rows.now killers.now slots.now) call) }
{
    Refusal::BufferLength.when(bad_lengths(rows, killers, slots))?;
    Refusal::NoBoard.when(counts[0] == 0)?;
    Refusal::NoCall.when(slots_held(counts, call) == 0)
}

// A slot of a call (5.2).
pub fn slot_refusal(
    counts: &[u8; 32],
    rows: &[u8],
    killers: &[u8],
    slots: &[u8],
    call: u8,
    slot: u8,
) -> Result<(), Refusal>
    ensures { number_of result
        ≡ first_of (slot_checks (call_parts counts.now rows.now killers.now slots.now) call slot) }
{
    call_refusal(counts, rows, killers, slots, call)?;
    Refusal::NoSlot.when(slots_held(counts, call) <= slot)
}

// A rule: what 5.3, 5.4 and 5.5 check first.
fn rule_refusal(
    counts: &[u8; 32],
    arity: &[u8; 64],
    rows: &[u8],
    killers: &[u8],
    slots: &[u8],
    rule: u8,
) -> Result<(), Refusal>
    ensures { number_of result
        ≡ first_of (rule_checks (rule_parts counts.now arity.now rows.now killers.now slots.now) rule) }
{
    Refusal::BufferLength.when(bad_lengths(rows, killers, slots))?;
    Refusal::NoBoard.when(counts[0] == 0)?;
    Refusal::BadNumber.when(63 < rule)?;
    Refusal::NotInForce.when(columns_of(arity, rule) == 0)
}

// A row of a rule (5.3, 5.4).
pub fn row_refusal(
    counts: &[u8; 32],
    arity: &[u8; 64],
    lengths: &[u8; 64],
    rows: &[u8],
    killers: &[u8],
    slots: &[u8],
    rule: u8,
    row: u8,
) -> Result<(), Refusal>
    ensures { number_of result
        ≡ first_of (row_checks (row_parts counts.now arity.now lengths.now rows.now killers.now slots.now) rule row) }
{
    rule_refusal(counts, arity, rows, killers, slots, rule)?;
    Refusal::NoRow.when(rows_of(lengths, rule) <= row)
}

// A slot in a column of a rule (5.5). The slot belongs to the column's call, so the column is looked at first.
pub fn support_refusal(
    counts: &[u8; 32],
    arity: &[u8; 64],
    scope: &[u8; 256],
    rows: &[u8],
    killers: &[u8],
    slots: &[u8],
    rule: u8,
    column: u8,
    slot: u8,
) -> Result<(), Refusal>
    ensures { number_of result
        ≡ first_of (support_checks (support_parts counts.now arity.now scope.now rows.now killers.now slots.now) rule column slot) }
{
    let held = slots_held(counts, call_of(scope, rule, column));
    rule_refusal(counts, arity, rows, killers, slots, rule)?;
    Refusal::NoColumn.when(columns_of(arity, rule) <= column)?;
    Refusal::NoSlot.when(held <= slot)
}
