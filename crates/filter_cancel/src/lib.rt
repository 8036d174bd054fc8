// A call is cancelled: its struck slots are the seed of a relaxation, as the slots that a rule struck are for a retraction. What leaned on them reopens, the call's own slots
// are neither open nor struck any more, and propagation strikes again what has no support without the call either.
// Proved: it is safe and ends on any contents of the buffers, and on a stored board it leaves the board stored with the call cancelled (specs/Stored.antt).
// Assumed: nothing.
#![tactic(auto)]

ghost use Rattle.std.specs.Prelude.{◌*◌, ◌≤◌, ◌<◌};
ghost use Rattle.tables.specs.Masks.{flags_of};
ghost use Rattle.tables.specs.Sweep.{Becomes, Swept};
ghost use Rattle.masks.specs.Rules.{RulesOn};
ghost use Rattle.filter_propagate.specs.Rules.{rules_in};
ghost use Rattle.filter_relax.specs.Seed.{Seeding};
ghost use Rattle.filter_cancel.specs.Done.{OwnStruck, StruckWithout, OthersCounted, CancelReworked, CancelDone};
ghost use Rattle.layout.specs.Places.{cancelled_byte};

use filter_propagate::propagate;
use filter_relax::reopen::slots_in;
use filter_relax::visit::visit_call;
use filter_relax::{ReopenCount, relax};
use layout::places::CANCELLED;
use layout::value::{Heads, KILLERS, ROWS, SLOTS};
use masks::rules::rules_on_calls;
use masks::slots::slots_below;

// The first n slot bytes of call c become those of a cancelled call.
pub fn withdraw(slots: &mut [u8; SLOTS], c: usize, n: usize)
    requires c_bound { c < 32 }
    requires n_bound { n ≤ 32 }
    ensures { Swept 0 (Becomes cancelled_byte) (32 * c) n slots.old slots.new }
{
    slots[32 * c..32 * c + n].fill(CANCELLED);
}

// Call c is withdrawn, and the pending rules are revised. The number of slots struck.
fn strike_without(
    rows: &[u8; ROWS],
    killers: &mut [u8; KILLERS],
    slots: &mut [u8; SLOTS],
    heads: &Heads,
    on: &[u64; 32],
    pending: u64,
    c: usize,
    n: usize,
) -> usize
    requires rules_on { RulesOn heads.now on.now }
    requires c_bound { c < 32 }
    requires n_bound { n ≤ 32 }
    ensures { StruckWithout
        c n result (flags_of 64 pending) (rules_in rows.now heads.now)
        killers.old killers.new slots.old slots.new }
{
    withdraw(slots, c, n);
    propagate(rows, killers, slots, heads, on, pending)
}

// Of all touched slots, those of the other calls than c: how many came back where so many are struck again, and how many they are.
fn count_others(visited: &[u32; 32], c: usize, all: usize, again: usize) -> ReopenCount
    requires { c < 32 }
    ensures { OthersCounted visited.now c all again result.reopened result.touched }
{
    let touched = all.saturating_sub(slots_in(visited[c]));
    ReopenCount {
        reopened: touched.saturating_sub(again),
        touched,
    }
}

// The cancellation of a call with struck slots: those that are visited, on the calls of the mask. They reopen with all that leaned on them, the call is withdrawn, and
// the rules on the reopened calls are revised.
fn cancel_struck(
    rows: &[u8; ROWS],
    killers: &mut [u8; KILLERS],
    slots: &mut [u8; SLOTS],
    heads: &Heads,
    visited: &mut [u32; 32],
    calls: u32,
    c: usize,
    n: usize,
) -> ReopenCount
    requires c_bound { c < 32 }
    requires n_bound { n ≤ 32 }
    requires seeding { Seeding (OwnStruck slots.old c) visited.old calls }
    ensures { CancelReworked
        c n (rules_in rows.now heads.now) killers.old
        killers.new slots.old slots.new result.reopened result.touched }
{
    let on = rules_on_calls(heads);
    let relaxed = relax(rows, killers, slots, heads, &on, visited, calls);
    let again = strike_without(rows, killers, slots, heads, &on, relaxed.pending, c, n);
    count_others(visited, c, relaxed.touched, again)
}

// Call c, which has n slots, is cancelled. One without a struck slot is only withdrawn.
pub fn cancel(
    rows: &[u8; ROWS],
    killers: &mut [u8; KILLERS],
    slots: &mut [u8; SLOTS],
    heads: &Heads,
    c: usize,
    n: usize,
) -> ReopenCount
    requires c_bound { c < 32 }
    requires n_bound { n ≤ 32 }
    ensures { CancelDone
        c n (rules_in rows.now heads.now) killers.old
        killers.new slots.old slots.new result.reopened result.touched }
{
    let mut visited = [0; 32];
    let mask = slots_below(slots, c, 64);
    let calls = visit_call(&mut visited, c, mask, 0);
    if calls == 0 {
        withdraw(slots, c, n);
        return ReopenCount {
            reopened: 0,
            touched: 0,
        };
    }
    cancel_struck(rows, killers, slots, heads, &mut visited, calls, c, n)
}
