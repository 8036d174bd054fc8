// Kind 5, lift: a rule leaves force. The draft is untouched.
ghost use Rattle.std.specs.Prelude.{◌≡◌};
ghost use Rattle.model.specs.declared.command.Command.TheVariants as kind;
ghost use Rattle.command_rules.specs.Checks.{retract_checks};
ghost use Rattle.command_rules.specs.Changes.{Retracted, RulesPromise};
ghost use Rattle.layout.specs.Memory.{memory};
ghost use Rattle.model.specs.Refusals.{first_of, number_of};

use layout::places::rule_index;
use layout::value::{Heads, KILLERS, ROWS, SLOTS, Value};
use model::answer::Outcome;
use model::refusal::Refusal;

// The first refusal that holds.
pub fn check_retract(heads: &Heads, number: u8) -> Result<(), Refusal>
    ensures { number_of result ≡ first_of (retract_checks heads.now.counts heads.now.arity number) }
{
    Refusal::NoBoard.when(heads.counts[0] == 0)?;
    Refusal::BadNumber.when(63 < number)?;
    Refusal::NotInForce.when(heads.arity[rule_index(number)] == 0)
}

// The rule under a number leaves force, whatever stands there: the number may be any byte, and it is taken modulo 64.
pub fn retract_unchecked(
    mut value: Value,
    number: u8,
    rows: &mut [u8; ROWS],
    killers: &mut [u8; KILLERS],
    slots: &mut [u8; SLOTS],
) -> Outcome
    ensures { Retracted
        number (memory value rows.old killers.old slots.old) result.answer
        (memory result.value rows.new killers.new slots.new) }
{
    let p = rule_index(number);
    let done = filter_retract::retract(rows, killers, slots, &mut value.heads, p);
    Outcome::accepted(0, done.reopened, done.touched, value)
}

// The whole of kind 5: refused, and nothing is changed; or the rule is out of force.
// In a frame of its own, for the stack.
#[inline(never)]
pub fn retract(
    mut value: Value,
    number: u8,
    rows: &mut [u8; ROWS],
    killers: &mut [u8; KILLERS],
    slots: &mut [u8; SLOTS],
) -> Outcome
    ensures { RulesPromise
        (kind.Retract number) (memory value rows.old killers.old slots.old) result.answer
        (memory result.value rows.new killers.new slots.new) }
{
    if let Err(refusal) = check_retract(&value.heads, number) {
        return Outcome::refused(refusal, value);
    }
    let p = rule_index(number);
    let count = filter_retract::retract(rows, killers, slots, &mut value.heads, p);
    Outcome::accepted(0, count.reopened, count.touched, value)
}
