// The bytes of a plan against the slots of the calls.
ghost use Rattle.std.specs.Prelude.{◌≡◌};
ghost use Rattle.plan_model.specs.Plans.{slots_on_in};
ghost use Rattle.plan_model.specs.Check.{wrong_byte?, wrong_plan?};
ghost use Rattle.plan_fit.specs.Parts.{call_parts};

use plan_fit::calls::slots_for;

// The byte is none of a call's slots, or is not 255 where the call has none.
fn wrong_byte(held: u8, byte: u8) -> bool
    ensures { result ≡ wrong_byte? held byte }
{
    if held == 0 { byte != 255 } else { held <= byte }
}

// Some byte of the plan is wrong. Without a branch, so that the compiler looks at several at once.
pub fn wrong_plan(counts: &[u8; 32], slots: &[u8], plan: &[u8; 32]) -> bool
    ensures { result ≡ wrong_plan? (slots_on_in (call_parts counts.now slots.now)) plan.now }
{
    let mut wrong = false;
    for c in 0..32 {
        wrong |= wrong_byte(slots_for(counts, slots, c), plan[c]);
    }
    wrong
}
