// The first full plan (order 8, SCOPE 5.9): calls are laid in rising order, each with the lowest open slot that stays, and where none is left the call before goes on.
// Proved: the answer meets its promise of plan_search's specs/First.antt, on any value and any buffers. Assumed: nothing.
#![tactic(auto)]

mod lay; // the search by the tables
mod first; // the search from the tables to the answer

ghost use Rattle.layout.specs.Memory.{memory};
ghost use Rattle.plan_search.specs.First.{FirstPromise};

use crate::first::lay_plan;
use layout::value::{KILLERS, ROWS, SLOTS, Value};
use model::refusal::Refusal;
use plan_search::answer::FirstPlan;

// The first full plan with the trials of the search; that there is none; or that the search needs more trials than the ceiling. The checks of the question are 1 and 6.
pub fn first_plan(
    value: Value,
    rows: &[u8],
    killers: &[u8],
    slots: &[u8],
    ceiling: u32,
) -> Result<FirstPlan, Refusal>
    ensures { FirstPromise (memory value rows.now killers.now slots.now) ceiling result }
{
    let (Some(rows), Some(_), Some(slots)) = (
        rows.as_array::<ROWS>(),
        killers.as_array::<KILLERS>(),
        slots.as_array::<SLOTS>(),
    ) else {
        return Err(Refusal::BufferLength);
    };
    Refusal::NoBoard.when(value.heads.counts[0] == 0)?;
    Ok(lay_plan(&value.heads, rows, slots, ceiling))
}
