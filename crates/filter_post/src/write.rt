// Writing the bytes of one rule: its columns, its number of rows, its calls and its rows. The empty rule takes one out.
ghost use Rattle.std.specs.Prelude.{◌≡◌, ◌<◌};
ghost use Rattle.filter_propagate.specs.Rules.{rules_in};
ghost use Rattle.filter_post.specs.Write.{RuleWritten};

use layout::value::{Heads, ROWS, RuleData};

// All bytes of rule p.
pub fn write_rule(rows: &mut [u8; ROWS], heads: &mut Heads, p: usize, rule: &RuleData)
    requires { p < 64 }
    ensures written { RuleWritten
        p rule.now
        (rules_in rows.old heads.old)
        (rules_in rows.new heads.new) }
    ensures counts { heads.new.counts ≡ heads.old.counts }
{
    heads.arity[p] = rule.arity;
    heads.lengths[p] = rule.length;
    heads.scope[4 * p..4 * p + 4].copy_from_slice(&rule.scope);
    rows[256 * p..256 * p + 256].copy_from_slice(&rule.rows);
}
