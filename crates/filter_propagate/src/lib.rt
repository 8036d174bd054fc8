// Propagation over the lent bytes: pending rules are revised one after another, until every rule is stable.
// Proved: it is safe and ends on any contents of the buffers; each step kills rows and strikes slots as specs/Step.antt says, and at the end no rule is pending. What
// that means on a board is for the crates above.
// Assumed: nothing.
#![tactic(auto)]

ghost use Rattle.std.specs.Prelude.{◌<◌};
ghost use Rattle.tables.specs.Masks.{Has, flags_of};
ghost use Rattle.masks.specs.Rules.{RulesOn};
ghost use Rattle.filter_propagate.specs.Rules.{rules_in, reached};
ghost use Rattle.filter_propagate.specs.Queue.{only_rule};
ghost use Rattle.filter_propagate.specs.Step.{Revision, Stepped};
ghost use Rattle.filter_propagate.specs.Steps.{Propagated};
ghost use Rattle.filter_support.specs.Known.{Known};

use filter_support::known::{CallMasks, know_columns};
use filter_support::rows::revise_columns;
use filter_support::strikes::{StrikeCount, strike_columns};
use layout::places::cap;
use layout::value::{Heads, KILLERS, ROWS, SLOTS};
use masks::columns::column_sets;
use masks::rules::{enqueue, next_rule, rules_on_calls};

// How many slots a step struck, and the rules that are pending after it.
#[derive(Clone, Copy)]
pub struct StepDone {
    pub struck: usize,
    pub pending: u64,
}

// Revises rule p: kills its living rows that hold a struck slot, then strikes its open slots without a support. How many it struck, and on which calls.
pub fn revise(
    rows: &[u8; ROWS],
    killers: &mut [u8; KILLERS],
    slots: &mut [u8; SLOTS],
    masks: &mut CallMasks,
    heads: &Heads,
    p: usize,
) -> StrikeCount
    requires p_bound { p < 64 }
    requires known { Known slots.old masks.old }
    ensures revision { Revision
        (rules_in rows.now heads.now) p result.number result.calls
        killers.old killers.new slots.old slots.new }
    ensures known_2 { Known slots.new masks.new }
{
    let n = cap(heads.arity[p], 4);
    let m = cap(heads.lengths[p], 64);
    know_columns(slots, masks, &heads.scope, p, n);
    let dead = column_sets(&masks.struck, &heads.scope, p, n);
    let found = revise_columns(rows, killers, dead, p, n, m);
    strike_columns(slots, masks, found, &heads.scope, p as u8, n)
}

// One step: the pending rule p is revised, and the other rules on a call where a slot was struck become pending. Rule p
// itself need not: where its calls are different, no living row of it holds a slot that it struck.
pub fn step(
    rows: &[u8; ROWS],
    killers: &mut [u8; KILLERS],
    slots: &mut [u8; SLOTS],
    masks: &mut CallMasks,
    heads: &Heads,
    on: &[u64; 32],
    pending: u64,
    p: usize,
) -> StepDone
    requires rules_on { RulesOn heads.now on.now }
    requires p_bound { p < 64 }
    requires has { Has pending p }
    requires known { Known slots.old masks.old }
    ensures stepped { Stepped
        (rules_in rows.now heads.now) p result.struck
        (reached killers.old slots.old (flags_of 64 pending))
        (reached killers.new slots.new (flags_of 64 result.pending)) }
    ensures known_2 { Known slots.new masks.new }
{
    let done = revise(rows, killers, slots, masks, heads, p);
    StepDone {
        struck: done.number,
        pending: enqueue(on, done.calls, pending, p),
    }
}

// Revises pending rules until none is pending, where the masks of some calls are known already. The number of slots struck.
pub fn propagate_known(
    rows: &[u8; ROWS],
    killers: &mut [u8; KILLERS],
    slots: &mut [u8; SLOTS],
    masks: &mut CallMasks,
    heads: &Heads,
    on: &[u64; 32],
    pending: u64,
) -> usize
    requires rules_on { RulesOn heads.now on.now }
    requires known { Known slots.old masks.old }
    ensures { Propagated
        (rules_in rows.now heads.now) result
        (reached killers.old slots.old (flags_of 64 pending))
        (reached killers.new slots.new (flags_of 64 0)) }
{
    let mut left = pending;
    let mut total = 0;
    let mut last = 63;
    while let Some(p) = next_rule(left, last) {
        let done = step(rows, killers, slots, masks, heads, on, left, p);
        total += done.struck;
        left = done.pending;
        last = p;
    }
    total
}

// Revises pending rules until none is pending. The number of slots struck.
pub fn propagate(
    rows: &[u8; ROWS],
    killers: &mut [u8; KILLERS],
    slots: &mut [u8; SLOTS],
    heads: &Heads,
    on: &[u64; 32],
    pending: u64,
) -> usize
    requires { RulesOn heads.now on.now }
    ensures { Propagated
        (rules_in rows.now heads.now) result
        (reached killers.old slots.old (flags_of 64 pending))
        (reached killers.new slots.new (flags_of 64 0)) }
{
    let mut masks = CallMasks::none();
    propagate_known(rows, killers, slots, &mut masks, heads, on, pending)
}

// Revises rule p, and where it strikes, the rules on the calls that it changed: the table of the rules on each call is made only then. The number of slots struck.
pub fn propagate_from(
    rows: &[u8; ROWS],
    killers: &mut [u8; KILLERS],
    slots: &mut [u8; SLOTS],
    heads: &Heads,
    p: usize,
) -> usize
    requires { p < 64 }
    ensures { Propagated
        (rules_in rows.now heads.now) result
        (reached killers.old slots.old (only_rule p))
        (reached killers.new slots.new (flags_of 64 0)) }
{
    let mut masks = CallMasks::none();
    let first = revise(rows, killers, slots, &mut masks, heads, p);
    if first.number == 0 {
        return 0;
    }
    let on = rules_on_calls(heads);
    let pending = enqueue(&on, first.calls, 0, p);
    let rest = propagate_known(rows, killers, slots, &mut masks, heads, &on, pending);
    first.number + rest
}
