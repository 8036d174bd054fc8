// A plan against a rule of the board: which columns of the rule count, and whether a row fits the plan in all of them (SCOPE 1.23).
// Proved: a rule is broken exactly as `breaks?` of plan_model says, read off any value and any bytes. Assumed: nothing.
#![tactic(auto)]

pub mod calls; // the slots that a call has in a plan
pub mod columns; // the calls of a rule's columns, and what a plan has for them
pub mod rows; // the rows of a rule, each as one word

ghost use Rattle.std.specs.Prelude.{◌≡◌, ◌<◌};
ghost use Rattle.plan_model.specs.Plans.{rules_in, breaks?};
ghost use Rattle.plan_fit.specs.Parts.{rule_parts};

use crate::columns::{column_calls, column_mask, plan_word};
use crate::rows::has_row;
use layout::value::{Heads, ROWS};

// The plan breaks rule p: a column of it counts, and no row has the plan's slots in all that do.
pub fn breaks(heads: &Heads, rows: &[u8; ROWS], slots: &[u8], plan: &[u8; 32], p: usize) -> bool
    requires { p < 64 }
    ensures { result ≡ breaks? (rules_in (rule_parts heads.now rows.now slots.now)) plan.now p }
{
    // most numbers of an everyday board are not in force
    if heads.arity[p] == 0 {
        return false;
    }
    let calls = column_calls(heads, slots, p);
    let mask = column_mask(calls);
    if mask == 0 {
        return false;
    }
    !has_row(rows, &heads.lengths, p, mask, plan_word(plan, calls))
}
