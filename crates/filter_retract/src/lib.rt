// A rule leaves force: the slots that it struck reopen, and with them every slot whose strike leaned on one of them; the rule's bytes are cleared; and
// propagation strikes again what has no support without the rule either.
// Proved: it is safe and ends on any contents of the buffers, and on a stored board it leaves the board stored without the rule (specs/Stored.antt).
// Assumed: nothing.
#![tactic(auto)]

ghost use Rattle.std.specs.Prelude.{◌≡◌, ◌*◌, ◌<◌};
ghost use Rattle.tables.specs.Sweep.{Becomes, Swept};
ghost use Rattle.tables.specs.Masks.{flags_of};
ghost use Rattle.masks.specs.Rules.{RulesOn};
ghost use Rattle.filter_propagate.specs.Rules.{rules_in};
ghost use Rattle.filter_relax.specs.Seed.{Seeding};
ghost use Rattle.filter_retract.specs.Done.{RuleCleared, CausedBy, StruckAgain, Reworked, RetractDone};

use filter_post::write::write_rule;
use filter_propagate::propagate;
use filter_relax::seed::visit_seed;
use filter_relax::{ReopenCount, relax};
use layout::places::cap;
use layout::value::{Heads, KILLERS, ROWS, RuleData, SLOTS};
use masks::rules::{drop_rule, rules_on_calls, without};

// The killer bytes of rule p become 255.
pub fn clear_killers(killers: &mut [u8; KILLERS], p: usize)
    requires { p < 64 }
    ensures { Swept 0 (Becomes 255) (64 * p) 64 killers.old killers.new }
{
    killers[64 * p..64 * p + 64].fill(255);
}

// Rule p becomes the empty rule.
pub fn clear_rule(rows: &mut [u8; ROWS], killers: &mut [u8; KILLERS], heads: &mut Heads, p: usize)
    requires { p < 64 }
    ensures cleared { RuleCleared
        p (rules_in rows.old heads.old)
        (rules_in rows.new heads.new) killers.old
        killers.new }
    ensures counts { heads.new.counts ≡ heads.old.counts }
{
    write_rule(rows, heads, p, &RuleData::empty());
    clear_killers(killers, p);
}

// Rule p is cleared, also in the table of the rules on each call, and the other pending rules are revised. The number of slots struck.
pub fn strike_again(
    rows: &mut [u8; ROWS],
    killers: &mut [u8; KILLERS],
    slots: &mut [u8; SLOTS],
    heads: &mut Heads,
    on: &mut [u64; 32],
    pending: u64,
    p: usize,
) -> usize
    requires rules_on { RulesOn heads.old on.old }
    requires p_bound { p < 64 }
    ensures struck_again { StruckAgain
        p result (flags_of 64 pending) (rules_in rows.old heads.old)
        (rules_in rows.new heads.new) killers.old
        killers.new slots.old slots.new }
    ensures counts { heads.new.counts ≡ heads.old.counts }
{
    clear_rule(rows, killers, heads, p);
    drop_rule(on, p);
    propagate(rows, killers, slots, heads, on, without(pending, p))
}

// The retraction of a rule that struck something: the slots that are visited, on the calls of the mask. They reopen, with all that leaned on them, and the rules on
// the reopened calls are revised.
pub fn retract_struck(
    rows: &mut [u8; ROWS],
    killers: &mut [u8; KILLERS],
    slots: &mut [u8; SLOTS],
    heads: &mut Heads,
    visited: &mut [u32; 32],
    calls: u32,
    p: usize,
) -> ReopenCount
    requires p_bound { p < 64 }
    requires seeding { Seeding (CausedBy p (rules_in rows.old heads.old) slots.old) visited.old calls }
    ensures reworked { Reworked
        p (rules_in rows.old heads.old)
        (rules_in rows.new heads.new) killers.old
        killers.new slots.old slots.new result.reopened result.touched }
    ensures counts { heads.new.counts ≡ heads.old.counts }
{
    let mut on = rules_on_calls(heads);
    let relaxed = relax(rows, killers, slots, heads, &on, visited, calls);
    let again = strike_again(rows, killers, slots, heads, &mut on, relaxed.pending, p);
    ReopenCount {
        reopened: relaxed.touched.saturating_sub(again),
        touched: relaxed.touched,
    }
}

// Rule p leaves force. A rule that struck nothing is only cleared.
pub fn retract(
    rows: &mut [u8; ROWS],
    killers: &mut [u8; KILLERS],
    slots: &mut [u8; SLOTS],
    heads: &mut Heads,
    p: usize,
) -> ReopenCount
    requires { p < 64 }
    ensures done { RetractDone
        p (rules_in rows.old heads.old)
        (rules_in rows.new heads.new) killers.old
        killers.new slots.old slots.new result.reopened result.touched }
    ensures counts { heads.new.counts ≡ heads.old.counts }
{
    let n = cap(heads.arity[p], 4);
    let mut visited = [0; 32];
    let calls = visit_seed(slots, &heads.scope, &mut visited, p, n);
    if calls == 0 {
        clear_rule(rows, killers, heads, p);
        return ReopenCount {
            reopened: 0,
            touched: 0,
        };
    }
    retract_struck(rows, killers, slots, heads, &mut visited, calls, p)
}
