// The rules that a call makes due: a rule is looked at once, when the last of its calls is laid.
ghost use Rattle.std.specs.Prelude.{◌≡◌, ◌<◌};
ghost use Rattle.masks.specs.Rules.{Inserted};
ghost use Rattle.plan_tables.specs.Due.{column_stage, rule_stage, DueAt, DueRules};

// How many calls are passed when the column's call is laid: one more than its number; 0 for a column that does not count, and 64 for a call that is not to be laid. Numbers, since a rule's is the largest.
#[tactic(auto, unfolding(crate::specs::Due::column_stage))]
fn column_stage(held: &[u8; 32], call: u8) -> u8
    ensures { result ≡ column_stage held.now call }
{
    if 32 <= call {
        return 0;
    }
    if held[usize::from(call)] == 0 {
        return 64;
    }
    call + 1
}

// The same for a rule: the largest of its columns.
#[tactic(auto, unfolding(crate::specs::Due::rule_stage))]
fn rule_stage(held: &[u8; 32], columns: &[u8; 256], p: usize) -> u8
    requires { p < 64 }
    ensures { result ≡ rule_stage held.now columns.now p }
{
    let first = column_stage(held, columns[4 * p]).max(column_stage(held, columns[4 * p + 1]));
    let last = column_stage(held, columns[4 * p + 2]).max(column_stage(held, columns[4 * p + 3]));
    first.max(last)
}

// Rule p joins the rules that a call makes due, where its stage is one more than the call.
fn add_due(due: &mut [u64; 32], p: usize, stage: u8)
    requires { p < 64 }
    ensures { Inserted (DueAt p stage) due.old due.new }
{
    if 0 < stage && stage <= 32 {
        due[usize::from(stage - 1)] |= 1u64 << p;
    }
}

// The rules that each call makes due.
pub fn due_rules(held: &[u8; 32], columns: &[u8; 256]) -> [u64; 32]
    ensures { DueRules held.now columns.now 64 result }
{
    let mut due = [0u64; 32];
    for p in 0..64 {
        add_due(&mut due, p, rule_stage(held, columns, p));
    }
    due
}
