// The outcome of kinds 2, 3 and 6, from the new draft or the refusal.
ghost use Rattle.std.specs.Prelude.{◌≡◌};
ghost use Rattle.command_draft.specs.Drafts.{draft_outcome};

use layout::value::{Draft, Value};
use model::answer::Outcome;
use model::refusal::Refusal;

// Refused, the value stays as it was; accepted, it has the new draft.
pub fn outcome_of(value: Value, next: Result<Draft, Refusal>) -> Outcome
    ensures { result ≡ draft_outcome value next }
{
    match next {
        Ok(draft) => Outcome::accepted(0, 0, 0, value.with_draft(draft)),
        Err(refusal) => Outcome::refused(refusal, value),
    }
}
