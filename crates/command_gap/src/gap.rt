// Kind 6: starts a draft with all the rows of a gap rule, in the place of any other.
ghost use Rattle.command_draft.specs.Drafts.{DraftPromise};
ghost use Rattle.command_gap.specs.Checks.{RedrawsGap};
ghost use Rattle.model.specs.declared.command.Command.TheVariants as kind;

use crate::checks::check_fields;
use crate::draft::{GapDraft, draft_of};
use command_draft::redraft::outcome_of;
use layout::value::{Draft, Value};
use model::answer::Outcome;
use model::command::GapRule;
use model::refusal::Refusal;

// The draft of the rule.
pub fn redraft(counts: &[u8; 32], slots: &[u8], f: GapRule) -> Result<Draft, Refusal>
    ensures { RedrawsGap counts.now slots.now f result }
{
    check_fields(counts, slots, f)?;
    let GapDraft { draft, count } = draft_of(counts, f);
    Refusal::TooManyPairs.when(64 < count)?;
    Ok(draft)
}

// In a frame of its own, for the stack.
#[inline(never)]
pub fn draft_gap(value: Value, f: GapRule, slots: &[u8]) -> Outcome
    ensures { DraftPromise value slots.now (kind.Gap f) result }
{
    let next = redraft(&value.heads.counts, slots, f);
    outcome_of(value, next)
}
