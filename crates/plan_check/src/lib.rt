// The check of a plan from elsewhere (order 10, SCOPE 5.7): kept, or the lowest number of a rule in force that the plan breaks.
// Proved: the answer meets its promise of plan_model's specs/Check.antt, on any value, any buffers and any plan. Assumed: nothing.
#![tactic(auto)]

mod wrong; // the plan's bytes against the calls
mod broken; // the lowest broken rule

ghost use Rattle.layout.specs.Memory.{memory};
ghost use Rattle.plan_model.specs.Check.{PlanPromise};

use crate::broken::lowest_broken;
use crate::wrong::wrong_plan;
use layout::value::{KILLERS, ROWS, SLOTS, Value};
use model::refusal::Refusal;

// The lowest number of a rule in force that the plan, 32 bytes with a slot for each call, breaks; none where it keeps them all. The checks of the question are in the
// order of SCOPE 4.3: 1, 32, 6, 33; the bytes are looked at last, where nothing else is refused.
pub fn check_plan(
    value: Value,
    rows: &[u8],
    killers: &[u8],
    slots: &[u8],
    plan: &[u8],
) -> Result<Option<u8>, Refusal>
    ensures { PlanPromise (memory value rows.now killers.now slots.now) plan.now result }
{
    let (Some(rows), Some(_), Some(slots)) = (
        rows.as_array::<ROWS>(),
        killers.as_array::<KILLERS>(),
        slots.as_array::<SLOTS>(),
    ) else {
        return Err(Refusal::BufferLength);
    };
    let Some(plan) = plan.as_array::<32>() else {
        return Err(Refusal::PlanLength);
    };
    Refusal::NoBoard.when(value.heads.counts[0] == 0)?;
    Refusal::BadPlanByte.when(wrong_plan(&value.heads.counts, slots, plan))?;
    Ok(lowest_broken(&value.heads, rows, slots, plan))
}
