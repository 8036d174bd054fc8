// The touched slots: the visited grow to the smallest set that has them and every slot that stands in a row of its cause whose
// killer's slot is in the set. Pending rules are scanned one after another, until none is pending.
ghost use Rattle.std.specs.Prelude.{◌<◌};
ghost use Rattle.tables.specs.Masks.{Has, flags_of, all_flags};
ghost use Rattle.masks.specs.Rules.{RulesOn};
ghost use Rattle.filter_propagate.specs.Rules.{rules_in};
ghost use Rattle.filter_relax.specs.Touched.{CallsVisited};
ghost use Rattle.filter_relax.specs.Closure.{traversal, Expanded, Closed};

use crate::scan::scan_rule;
use layout::value::{Heads, KILLERS, ROWS, SLOTS};
use masks::rules::{enqueue, next_rule, rules_on};

// The calls with a visited slot, and the rules that are to be scanned.
#[derive(Clone, Copy)]
pub struct Frontier {
    pub calls: u32,
    pub pending: u64,
}

// One step: the pending rule q is scanned, and the other rules on a call with a new visited slot become pending. Rule q itself need not:
// where it does not kill its own rows by its own strikes, no row of it has a killer on a slot that it visited.
pub fn expand(
    rows: &[u8; ROWS],
    killers: &[u8; KILLERS],
    slots: &[u8; SLOTS],
    heads: &Heads,
    on: &[u64; 32],
    visited: &mut [u32; 32],
    front: Frontier,
    q: usize,
) -> Frontier
    requires rules_on { RulesOn heads.now on.now }
    requires q_bound { q < 64 }
    requires has { Has front.pending q }
    ensures { Expanded
        (rules_in rows.now heads.now) killers.now
        slots.now q
        (traversal (all_flags 32 visited.old) (flags_of 32 front.calls) (flags_of 64 front.pending))
        (traversal (all_flags 32 visited.new) (flags_of 32 result.calls) (flags_of 64 result.pending)) }
{
    let changed = scan_rule(rows, killers, slots, heads, visited, q);
    Frontier {
        calls: front.calls | changed,
        pending: enqueue(on, changed, front.pending, q),
    }
}

// Scans pending rules, at first those on the calls of the mask, until none is pending. The calls with a visited slot.
pub fn close(
    rows: &[u8; ROWS],
    killers: &[u8; KILLERS],
    slots: &[u8; SLOTS],
    heads: &Heads,
    on: &[u64; 32],
    visited: &mut [u32; 32],
    calls: u32,
) -> u32
    requires rules_on { RulesOn heads.now on.now }
    requires calls_visited { CallsVisited (flags_of 32 calls) (all_flags 32 visited.old) }
    ensures { Closed
        (rules_in rows.now heads.now) killers.now
        slots.now (all_flags 32 visited.old)
        (traversal (all_flags 32 visited.new) (flags_of 32 result) (flags_of 64 0)) }
{
    let pending = rules_on(on, calls);
    let mut front = Frontier { calls, pending };
    let mut last = 63;
    while let Some(q) = next_rule(front.pending, last) {
        front = expand(rows, killers, slots, heads, on, visited, front, q);
        last = q;
    }
    front.calls
}
