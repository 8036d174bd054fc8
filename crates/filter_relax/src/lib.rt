// Relaxation over the lent bytes: from a seed of visited slots, the slots touched by a retraction or a cancellation are found, reopened and counted, and
// the rows that they killed live again.
// Proved: it is safe and ends on any contents of the buffers; only touched slots reopen, and all of them do where no rule kills its own rows by its own strikes
// (specs/Relaxed.antt). What that means on a board is for the crates above.
// Assumed: nothing.
#![tactic(auto)]

pub mod visit; // slots join the visited
pub mod seed; // the slots with a rule as their cause
pub mod scan; // the walk over a rule's rows: visited by visited killers
pub mod closure; // the closure of the visited
pub mod reopen; // the visited slots are open again
pub mod revive; // the rows killed by visited slots live again

ghost use Rattle.tables.specs.Masks.{flags_of, all_flags};
ghost use Rattle.masks.specs.Rules.{RulesOn};
ghost use Rattle.filter_propagate.specs.Rules.{rules_in};
ghost use Rattle.filter_propagate.specs.Queue.{IsFlagged};
ghost use Rattle.filter_relax.specs.Touched.{CallsVisited};
ghost use Rattle.filter_relax.specs.Relaxed.{Relaxed};

use closure::close;
use layout::value::{Heads, KILLERS, ROWS, SLOTS};
use masks::rules::rules_on;
use reopen::reopen_calls;
use revive::revive_rules;

// How many slots were touched, and the rules on the call of one of them.
#[derive(Clone, Copy)]
pub struct Relaxation {
    pub touched: usize,
    pub pending: u64,
}

// Of a retraction or a cancellation: how many slots came back, and how many were touched.
#[derive(Clone, Copy)]
pub struct ReopenCount {
    pub reopened: usize,
    pub touched: usize,
}

// From the visited of a seed, on the calls of the mask, to the touched slots: they are open again, and the rows that they killed live again.
pub fn relax(
    rows: &[u8; ROWS],
    killers: &mut [u8; KILLERS],
    slots: &mut [u8; SLOTS],
    heads: &Heads,
    on: &[u64; 32],
    visited: &mut [u32; 32],
    calls: u32,
) -> Relaxation
    requires rules_on { RulesOn heads.now on.now }
    requires calls_visited { CallsVisited (flags_of 32 calls) (all_flags 32 visited.old) }
    ensures { Relaxed
        (rules_in rows.now heads.now)
        (IsFlagged (all_flags 32 visited.old)) result.touched killers.old killers.new
        slots.old slots.new (all_flags 32 visited.new) (flags_of 64 result.pending) }
{
    let seen = close(rows, killers, slots, heads, on, visited, calls);
    let touched = reopen_calls(slots, visited, seen);
    let pending = rules_on(on, seen);
    revive_rules(rows, killers, heads, visited, pending);
    Relaxation { touched, pending }
}
