// Kind 4, put: the draft comes into force, and there is none left.
ghost use Rattle.std.specs.Prelude.{◌≡◌};
ghost use Rattle.model.specs.declared.command.Command.TheVariants as kind;
ghost use Rattle.command_rules.specs.Checks.{post_checks};
ghost use Rattle.command_rules.specs.Changes.{Posted, RulesPromise};
ghost use Rattle.layout.specs.Memory.{memory};
ghost use Rattle.model.specs.Refusals.{first_of, number_of};

use layout::places::rule_index;
use layout::value::{Draft, Heads, KILLERS, ROWS, SLOTS, Value};
use model::answer::Outcome;
use model::refusal::Refusal;

// The first refusal that holds. The draft has this number and so many columns.
pub fn check_post(heads: &Heads, number: u8, columns: u8) -> Result<(), Refusal>
    ensures { number_of result ≡ first_of (post_checks heads.now.counts heads.now.arity number columns) }
{
    Refusal::NoBoard.when(heads.counts[0] == 0)?;
    Refusal::NoDraft.when(columns == 0)?;
    Refusal::InForce.when(heads.arity[rule_index(number)] != 0)
}

// A draft comes into force under its number, whatever stands there. It may be another than the value's own, which stays.
pub fn post_unchecked(
    mut value: Value,
    draft: Draft,
    rows: &mut [u8; ROWS],
    killers: &mut [u8; KILLERS],
    slots: &mut [u8; SLOTS],
) -> Outcome
    ensures { Posted
        draft (memory value rows.old killers.old slots.old) result.answer
        (memory result.value rows.new killers.new slots.new) }
{
    let p = rule_index(draft.number);
    let n = filter_post::post(rows, killers, slots, &mut value.heads, p, &draft.rule);
    Outcome::accepted(n, 0, n, value)
}

// The whole of kind 4: refused, and nothing is changed; or the draft is in force, and there is none left.
// In a frame of its own, for the stack.
#[inline(never)]
pub fn post(
    mut value: Value,
    rows: &mut [u8; ROWS],
    killers: &mut [u8; KILLERS],
    slots: &mut [u8; SLOTS],
) -> Outcome
    ensures { RulesPromise
        kind.Post (memory value rows.old killers.old slots.old) result.answer
        (memory result.value rows.new killers.new slots.new) }
{
    if let Err(refusal) = check_post(&value.heads, value.draft.number, value.draft.rule.arity) {
        return Outcome::refused(refusal, value);
    }
    let p = rule_index(value.draft.number);
    let struck = filter_post::post(rows, killers, slots, &mut value.heads, p, &value.draft.rule);
    value.draft = Draft::empty();
    Outcome::accepted(struck, 0, struck, value)
}
