// The rules on each call as masks of 64 bits, and the pending rules, those that are to be looked at, as one such mask.
ghost use Rattle.std.specs.Prelude.{◌≤◌, ◌<◌};
ghost use Rattle.masks.specs.Rules.{ScopeRule, Inserted, RulesOn, RuleDropped, RulesOnAny, Without, Enqueues, NextRule};

use layout::places::cap;
use layout::value::Heads;

// Rule q joins the rules on the calls of its n columns.
pub fn add_rule(scope: &[u8; 256], on: &mut [u64; 32], q: usize, n: usize)
    requires q_bound { q < 64 }
    requires n_bound { n ≤ 4 }
    ensures { Inserted (ScopeRule scope.now q n) on.old on.new }
{
    for k in 0..n {
        let c = usize::from(scope[4 * q + k] % 32);
        on[c] |= 1 << q;
    }
}

// The rules on each call.
pub fn rules_on_calls(heads: &Heads) -> [u64; 32]
    ensures { RulesOn heads.now result }
{
    let mut on = [0; 32];
    for q in 0..64 {
        let n = cap(heads.arity[q], 4);
        add_rule(&heads.scope, &mut on, q, n);
    }
    on
}

// A mask of 64 rules without rule p.
pub fn without(rules: u64, p: usize) -> u64
    requires { p < 64 }
    ensures { Without p rules result }
{
    rules & !(1 << p)
}

// Rule p leaves the rules on every call.
pub fn drop_rule(on: &mut [u64; 32], p: usize)
    requires { p < 64 }
    ensures { RuleDropped p on.old on.new }
{
    for c in 0..32 {
        on[c] = without(on[c], p);
    }
}

// The rules on the calls of the mask.
pub fn rules_on(on: &[u64; 32], calls: u32) -> u64
    ensures { RulesOnAny on.now calls result }
{
    let mut rules = 0;
    let mut left = calls;
    // by the bits of the mask, which are no range
    while left != 0 {
        rules |= on[left.trailing_zeros() as usize];
        left &= left - 1;
    }
    rules
}

// The pending rules, with those on the calls of the mask, without rule p.
pub fn enqueue(on: &[u64; 32], calls: u32, pending: u64, p: usize) -> u64
    requires { p < 64 }
    ensures { Enqueues on.now calls p pending result }
{
    without(pending | rules_on(on, calls), p)
}

// A pending rule, the next one after p going round; none where none is pending. Rules taken in turn are revised less often than lowest first: their calls' other
// rules have struck by then.
pub fn next_rule(pending: u64, p: usize) -> Option<usize>
    requires { p < 64 }
    ensures { NextRule pending result }
{
    let above = (pending >> p) >> 1;
    if above != 0 {
        return Some(p + 1 + above.trailing_zeros() as usize);
    }
    if pending == 0 {
        return None;
    }
    Some(pending.trailing_zeros() as usize)
}
