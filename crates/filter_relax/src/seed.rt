// The seed of a retraction: the slots of a rule's calls that have the rule as their cause.
ghost use Rattle.std.specs.Prelude.{◌≤◌, ◌<◌};
ghost use Rattle.filter_relax.specs.Touched.{Seeded};
ghost use Rattle.filter_relax.specs.Spread.{Adds};

use crate::visit::visit_call;
use layout::value::SLOTS;
use masks::slots::slots_with;

// Visits the slots on the calls of n columns of rule p with the cause p. The calls that have one: without any, a retraction of p touches nothing.
pub fn visit_seed(
    slots: &[u8; SLOTS],
    scope: &[u8; 256],
    visited: &mut [u32; 32],
    p: usize,
    n: usize,
) -> u32
    requires p_bound { p < 64 }
    requires n_bound { n ≤ 4 }
    ensures { Adds (Seeded slots.now scope.now p n) visited.old visited.new 0 result }
{
    let mut calls = 0;
    for k in 0..n {
        let c = usize::from(scope[4 * p + k] % 32);
        let mask = slots_with(slots, c, p as u8);
        calls = visit_call(visited, c, mask, calls);
    }
    calls
}
