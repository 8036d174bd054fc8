// Kind 3: adds a row to the draft.
ghost use Rattle.std.specs.Prelude.{◌≡◌};
ghost use Rattle.command_draft.specs.Fields.{add_row_checks};
ghost use Rattle.command_draft.specs.Drafts.{with_row, AddsRow};
ghost use Rattle.model.specs.Refusals.{first_of, number_of, AnsweredBy};

use crate::fields;
use crate::redraft::outcome_of;
use layout::places::cap;
use layout::value::{Draft, RuleData, Value};
use model::answer::Outcome;
use model::command::Row;
use model::refusal::Refusal;

// The first refusal that holds, in the order of SCOPE 4.3.
fn check_row(counts: &[u8; 32], rule: &RuleData, row: Row) -> Result<(), Refusal>
    ensures { number_of result ≡ first_of (add_row_checks counts.now rule.now row) }
{
    let slots = [row.slot0, row.slot1, row.slot2, row.slot3];
    let columns = cap(rule.arity, 4);
    let length = cap(rule.length, 64);
    Refusal::NoBoard.when(counts[0] == 0)?;
    Refusal::NoDraft.when(rule.arity == 0)?;
    Refusal::DraftFull.when(64 <= rule.length)?;
    Refusal::SlotOffCall.when(fields::slot_off_call(counts, &rule.scope, &slots, columns))?;
    Refusal::SpareField.when(fields::bad_spare(&slots, columns))?;
    Refusal::RowTwice.when(fields::row_in_draft(&rule.rows, &slots, columns, length))
}

// Adds one row to the draft. A draft of 64 rows, which the check refuses, stays as it is.
pub fn push_row(draft: &mut Draft, row: Row)
    ensures { draft.new ≡ with_row draft.old row }
{
    let rule = &mut draft.rule;
    if 63 < rule.length {
        return;
    }
    let at = 4 * usize::from(rule.length);
    rule.rows[at] = row.slot0;
    rule.rows[at + 1] = row.slot1;
    rule.rows[at + 2] = row.slot2;
    rule.rows[at + 3] = row.slot3;
    rule.length += 1;
}

// The draft with the row.
pub fn redraft(counts: &[u8; 32], mut draft: Draft, row: Row) -> Result<Draft, Refusal>
    ensures { AnsweredBy (first_of (add_row_checks counts.now draft.rule row)) (with_row draft row) result }
{
    check_row(counts, &draft.rule, row)?;
    push_row(&mut draft, row);
    Ok(draft)
}

// In a frame of its own, for the stack.
#[inline(never)]
pub fn add_row(value: Value, row: Row) -> Outcome
    ensures { AddsRow value row result }
{
    let next = redraft(&value.heads.counts, value.draft, row);
    outcome_of(value, next)
}
