// A rule comes into force under a free number: its bytes are written and propagation strikes the slots that lost their support.
// Proved: it is safe and ends on any contents of the buffers, and on a stored board it leaves the board stored with the rule (specs/Laws/Stored.antt).
// Assumed: nothing.
#![tactic(auto)]

pub mod write; // the bytes of one rule

ghost use Rattle.std.specs.Prelude.{◌≡◌, ◌<◌};
ghost use Rattle.filter_propagate.specs.Rules.{rules_in};
ghost use Rattle.filter_post.specs.Post.{PostDone};

use filter_propagate::propagate_from;
use layout::value::{Heads, KILLERS, ROWS, RuleData, SLOTS};
use write::write_rule;

// Writes the rule under number p and propagates from it. The number of slots struck.
pub fn post(
    rows: &mut [u8; ROWS],
    killers: &mut [u8; KILLERS],
    slots: &mut [u8; SLOTS],
    heads: &mut Heads,
    p: usize,
    rule: &RuleData,
) -> usize
    requires { p < 64 }
    ensures done { PostDone
        p result rule.now
        (rules_in rows.old heads.old)
        (rules_in rows.new heads.new) killers.old
        killers.new slots.old slots.new }
    ensures counts { heads.new.counts ≡ heads.old.counts }
{
    write_rule(rows, heads, p, rule);
    propagate_from(rows, killers, slots, heads, p)
}
