// The search by the tables, by recursion that falls on the calls and the slots left: a slot for each call in rising order, and back to the call before where none is left.
ghost use Rattle.std.specs.Prelude.{◌+◌, ◌<◌, ◌≤◌, set};
ghost use Rattle.model.specs.Board.{no_slot_given};
ghost use Rattle.plan_search.specs.Search.{after};
ghost use Rattle.plan_search.specs.First.{Clear};
ghost use Rattle.plan_lay.specs.Lay.{NextOpen, table_task, calls_from, tries_from, behind_slot, StepEnded};

use plan_tables::fit::rules_fit;
use plan_tables::lookup::Tables;

// How the calls from one on ended, or those behind a slot.
#[derive(Clone, Copy)]
pub enum Ending {
    // each has a slot
    Found,
    // no slot is left
    Nothing,
    // a slot was left, and no trial
    Stopped,
}

// Where a search stands.
#[derive(Drop)]
pub struct Search {
    // the slots that are laid; 255 for calls that are not
    pub plan: [u8; 32],
    // one more than the trials that may still be made; 0 where one more was needed
    pub left: u64,
}

// The first slot of the mask from `slot` on.
fn next_open(mask: u32, slot: usize) -> Option<usize>
    requires { slot ≤ 32 }
    ensures { NextOpen mask slot result }
{
    let above = u64::from(mask) >> slot;
    if above == 0 {
        return None;
    }
    Some(slot + above.trailing_zeros() as usize)
}

// Lays the calls from `call` on. Where no slot of it is left, the plan is as it was.
#[cycle(lay_calls_lay_slot_lay_slots)]
pub fn lay_calls(tables: &Tables, search: &mut Search, call: usize) -> Ending
    requires clear { Clear call search.old.plan }
    requires left_nonzero { 0 < search.old.left }
    requires call_bound { call ≤ 32 }
    ensures { StepEnded
        (calls_from (table_task tables.now) call search.old.plan)
        search.old.left search.new.left search.old.plan search.new.plan result }
{
    if 32 <= call {
        return Ending::Found;
    }
    if tables.held[call] == 0 {
        return lay_calls(tables, search, call + 1);
    }
    lay_slots(tables, search, call, 0)
}

// Lays the open slots of a call from `slot` on, until one comes to a full plan or to the ceiling. Where none does, the call has no slot in the plan.
#[cycle(lay_calls_lay_slot_lay_slots)]
fn lay_slots(tables: &Tables, search: &mut Search, call: usize, slot: usize) -> Ending
    requires clear { Clear (call + 1) search.old.plan }
    requires left_nonzero { 0 < search.old.left }
    requires call_bound { call < 32 }
    requires slot_bound { slot ≤ 32 }
    ensures { StepEnded
        (tries_from (table_task tables.now) call slot search.old.plan)
        search.old.left search.new.left (set search.old.plan call no_slot_given) search.new.plan result }
{
    let Some(s) = next_open(tables.opened[call], slot) else {
        search.plan[call] = 255;
        return Ending::Nothing;
    };
    match lay_slot(tables, search, call, s) {
        Ending::Found => Ending::Found,
        Ending::Stopped => Ending::Stopped,
        Ending::Nothing => lay_slots(tables, search, call, s + 1),
    }
}

// Lays an open slot, which is a trial, and where it stays the calls behind it.
#[cycle(lay_calls_lay_slot_lay_slots)]
fn lay_slot(tables: &Tables, search: &mut Search, call: usize, slot: usize) -> Ending
    requires clear { Clear (call + 1) search.old.plan }
    requires left_nonzero { 0 < search.old.left }
    requires call_bound { call < 32 }
    requires slot_bound { slot < 32 }
    ensures { StepEnded
        (after 1 (behind_slot (table_task tables.now) call slot search.old.plan))
        search.old.left search.new.left (set search.old.plan call slot) search.new.plan result }
{
    search.left -= 1;
    if search.left == 0 {
        return Ending::Stopped;
    }
    search.plan[call] = slot as u8;
    if !rules_fit(tables, &search.plan, tables.due[call]) {
        return Ending::Nothing;
    }
    lay_calls(tables, search, call + 1)
}
