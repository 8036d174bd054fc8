// The rules of the board against a plan, from the lowest number up.
ghost use Rattle.std.specs.Prelude.{◌≡◌};
ghost use Rattle.plan_model.specs.Plans.{rules_in, lowest_broken};
ghost use Rattle.plan_fit.specs.Parts.{rule_parts};
ghost use Rattle.plan_model.specs.Check.{broken_answer};

use layout::value::{Heads, ROWS};
use plan_fit::breaks;

// The lowest number of a rule that the plan breaks; none where it keeps them all.
pub fn lowest_broken(heads: &Heads, rows: &[u8; ROWS], slots: &[u8], plan: &[u8; 32]) -> Option<u8>
    ensures { result
        ≡ broken_answer (lowest_broken (rules_in (rule_parts heads.now rows.now slots.now)) plan.now) }
{
    for p in 0..64u8 {
        if breaks(heads, rows, slots, plan, usize::from(p)) {
            return Some(p);
        }
    }
    None
}
