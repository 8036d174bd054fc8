// Reviving: the rows of pending rules whose killer's slot is visited have no killer any more.
ghost use Rattle.std.specs.Prelude.{◌≡◌, cond, ◌*◌, ◌≤◌, ◌<◌, eqb};
ghost use Rattle.tables.specs.Masks.{flags_of, all_flags};
ghost use Rattle.tables.specs.Sweep.{One, Swept};
ghost use Rattle.masks.specs.Columns.{PastEmpty};
ghost use Rattle.filter_propagate.specs.Rules.{rules_in};
ghost use Rattle.filter_relax.specs.Revive.{MaskRevived, RuleFreed, RuleRevived, Blocks};

use crate::scan::killer_bit;
use layout::places::cap;
use layout::value::{Heads, KILLERS, ROWS};
use masks::columns::{Columns, column_sets, first_columns, row_slots};

// The killer, or none where its slot is visited.
pub fn killer_left(killer: u8, hit: u32) -> u8
    ensures { result ≡ cond (eqb hit 0) killer 255 }
{
    if hit == 0 { killer } else { 255 }
}

// Row w of rule q.
pub fn revive_row(rows: &[u8; ROWS], killers: &mut [u8; KILLERS], sets: Columns, q: usize, w: usize)
    requires q_bound { q < 64 }
    requires w_bound { w < 64 }
    ensures { One 0 (MaskRevived rows.now sets q) (64 * q) w killers.old killers.new }
{
    let row = row_slots(rows, q, w);
    let old = killers[64 * q + w];
    let hit = killer_bit(row, sets, old);
    killers[64 * q + w] = killer_left(old, hit);
}

// The first m rows of rule q.
pub fn revive_rows(
    rows: &[u8; ROWS],
    killers: &mut [u8; KILLERS],
    sets: Columns,
    q: usize,
    m: usize,
)
    requires q_bound { q < 64 }
    requires m_bound { m ≤ 64 }
    ensures { Swept 0 (MaskRevived rows.now sets q) (64 * q) m killers.old killers.new }
{
    for w in 0..m {
        revive_row(rows, killers, sets, q, w);
    }
}

// The same for a rule of n columns; revise_columns of filter_support says why the walk is no closure.
pub fn revive_columns(
    rows: &[u8; ROWS],
    killers: &mut [u8; KILLERS],
    sets: Columns,
    q: usize,
    n: usize,
    m: usize,
)
    requires q_bound { q < 64 }
    requires m_bound { m ≤ 64 }
    requires n_bound { n ≤ 4 }
    requires past_empty { PastEmpty n sets }
    ensures { Swept 0 (MaskRevived rows.now sets q) (64 * q) m killers.old killers.new }
{
    if n < 3 {
        revive_rows(rows, killers, first_columns::<2>(sets), q, m);
        return;
    }
    if n < 4 {
        revive_rows(rows, killers, first_columns::<3>(sets), q, m);
        return;
    }
    revive_rows(rows, killers, sets, q, m)
}

// All rows of rule q.
pub fn revive_rule(
    rows: &[u8; ROWS],
    killers: &mut [u8; KILLERS],
    heads: &Heads,
    visited: &[u32; 32],
    q: usize,
)
    requires { q < 64 }
    ensures { Swept
        0
        (RuleFreed (rules_in rows.now heads.now) (all_flags 32 visited.now) q)
        (64 * q) 64 killers.old killers.new }
{
    let n = cap(heads.arity[q], 4);
    let m = cap(heads.lengths[q], 64);
    let sets = column_sets(visited, &heads.scope, q, n);
    revive_columns(rows, killers, sets, q, n, m)
}

// All rules of the mask.
pub fn revive_rules(
    rows: &[u8; ROWS],
    killers: &mut [u8; KILLERS],
    heads: &Heads,
    visited: &[u32; 32],
    rules: u64,
)
    ensures { Blocks
        (RuleRevived (rules_in rows.now heads.now) (all_flags 32 visited.now) (flags_of 64 rules))
        64 killers.old killers.new }
{
    let mut left = rules;
    // by the bits of the mask, which are no range
    while left != 0 {
        let q = left.trailing_zeros() as usize;
        revive_rule(rows, killers, heads, visited, q);
        left &= left - 1;
    }
}
