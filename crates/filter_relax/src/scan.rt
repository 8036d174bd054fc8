// The walk over a rule's rows: where the slot of a row's killer is visited, the row's slots that the rule struck are visited too. The rule is scanned as a whole from
// the slots that are visited when it begins, and a row is treated without a branch, so that the compiler treats several at once.
ghost use Rattle.std.specs.Prelude.{◌≡◌, ◌≤◌, ◌<◌};
ghost use Rattle.tables.specs.Assign.{Below};
ghost use Rattle.tables.specs.Masks.{all_flags};
ghost use Rattle.masks.specs.Columns.{PastEmpty};
ghost use Rattle.filter_propagate.specs.Rules.{rules_in};
ghost use Rattle.filter_relax.specs.Touched.{RuleJustifies};
ghost use Rattle.filter_relax.specs.Spread.{ColumnMask, Adds};
ghost use Rattle.filter_relax.specs.Scan.{KillerBits, WithHit, RowScanned, Scanned, ScannedColumns, ColumnWanted, ColumnsWanted, Empty, Common, NewSlots, Scans};

use crate::visit::visit_call;
use layout::places::cap;
use layout::value::{Heads, KILLERS, ROWS, SLOTS};
use masks::columns::{Columns, column, column_sets, first_columns, row_slots};
use masks::slots::{set_difference, set_where, slots_with};

// The slot of a row's killer, where it is in the sets; else 0.
pub fn killer_bit(row: Columns, sets: Columns, killer: u8) -> u32
    ensures { KillerBits row sets killer result }
{
    set_where(killer == 0, row.c0 & sets.c0)
        | set_where(killer == 1, row.c1 & sets.c1)
        | set_where(killer == 2, row.c2 & sets.c2)
        | set_where(killer == 3, row.c3 & sets.c3)
}

// The slots found, with those of a row that is hit.
pub fn with_hit(found: Columns, row: Columns, hit: u32) -> Columns
    ensures { WithHit found row hit result }
{
    Columns {
        c0: found.c0 | set_where(hit != 0, row.c0),
        c1: found.c1 | set_where(hit != 0, row.c1),
        c2: found.c2 | set_where(hit != 0, row.c2),
        c3: found.c3 | set_where(hit != 0, row.c3),
    }
}

// The slots of row w are added to the found where its killer's slot is in the sets.
pub fn scan_row(
    rows: &[u8; ROWS],
    killers: &[u8; KILLERS],
    sets: Columns,
    found: Columns,
    q: usize,
    w: usize,
) -> Columns
    requires q_bound { q < 64 }
    requires w_bound { w < 64 }
    ensures { RowScanned rows.now killers.now sets q w found result }
{
    let row = row_slots(rows, q, w);
    let hit = killer_bit(row, sets, killers[64 * q + w]);
    with_hit(found, row, hit)
}

// The same for the first m rows.
pub fn scan_rows(
    rows: &[u8; ROWS],
    killers: &[u8; KILLERS],
    sets: Columns,
    q: usize,
    m: usize,
) -> Columns
    requires q_bound { q < 64 }
    requires m_bound { m ≤ 64 }
    ensures { Scanned rows.now killers.now sets q m result }
{
    let mut found = Columns::NONE;
    for w in 0..m {
        found = scan_row(rows, killers, sets, found, q, w);
    }
    found
}

// The same for a rule of n columns. The ifs are those of revise_columns of filter_support and revive_columns, whose walks can be no closures.
pub fn scan_columns(
    rows: &[u8; ROWS],
    killers: &[u8; KILLERS],
    sets: Columns,
    q: usize,
    n: usize,
    m: usize,
) -> Columns
    requires q_bound { q < 64 }
    requires m_bound { m ≤ 64 }
    requires n_bound { n ≤ 4 }
    requires past_empty { PastEmpty n sets }
    ensures { ScannedColumns rows.now killers.now sets q n m result }
{
    if n < 3 {
        let found = scan_rows(rows, killers, first_columns::<2>(sets), q, m);
        return first_columns::<2>(found);
    }
    if n < 4 {
        let found = scan_rows(rows, killers, first_columns::<3>(sets), q, m);
        return first_columns::<3>(found);
    }
    scan_rows(rows, killers, sets, q, m)
}

// The slots of column k's call with the cause q that are not visited; none past the n columns.
pub fn column_wanted(
    slots: &[u8; SLOTS],
    scope: &[u8; 256],
    visited: &[u32; 32],
    q: usize,
    n: usize,
    k: usize,
) -> u32
    requires q_bound { q < 64 }
    requires k_bound { k < 4 }
    ensures { ColumnWanted slots.now scope.now visited.now q n k result }
{
    if k < n {
        let c = usize::from(scope[4 * q + k] % 32);
        set_difference(slots_with(slots, c, q as u8), visited[c])
    } else {
        0
    }
}

// The same for each column.
pub fn columns_wanted(
    slots: &[u8; SLOTS],
    scope: &[u8; 256],
    visited: &[u32; 32],
    q: usize,
    n: usize,
) -> Columns
    requires { q < 64 }
    ensures { ColumnsWanted slots.now scope.now visited.now q n result }
{
    Columns {
        c0: column_wanted(slots, scope, visited, q, n, 0),
        c1: column_wanted(slots, scope, visited, q, n, 1),
        c2: column_wanted(slots, scope, visited, q, n, 2),
        c3: column_wanted(slots, scope, visited, q, n, 3),
    }
}

// Whether the sets of all columns are empty.
pub fn all_empty(x: Columns) -> bool
    ensures { Empty x result }
{
    x.c0 | x.c1 | x.c2 | x.c3 == 0
}

// What the sets of each column have in common.
pub fn common(x: Columns, y: Columns) -> Columns
    ensures { Common x y result }
{
    Columns {
        c0: x.c0 & y.c0,
        c1: x.c1 & y.c1,
        c2: x.c2 & y.c2,
        c3: x.c3 & y.c3,
    }
}

// The wanted slots that stand in a row of rule q whose killer's slot is visited.
pub fn new_slots(
    rows: &[u8; ROWS],
    killers: &[u8; KILLERS],
    scope: &[u8; 256],
    visited: &[u32; 32],
    wanted: Columns,
    q: usize,
    n: usize,
    m: usize,
) -> Columns
    requires q_bound { q < 64 }
    requires m_bound { m ≤ 64 }
    requires n_bound { n ≤ 4 }
    requires past_empty { PastEmpty n wanted }
    ensures { NewSlots rows.now killers.now scope.now visited.now wanted q n m result }
{
    let sets = column_sets(visited, scope, q, n);
    let found = scan_columns(rows, killers, sets, q, n, m);
    common(found, wanted)
}

// Visits a set of slots for each column of rule q, on the columns' calls. The calls that have one of them.
pub fn visit_columns(scope: &[u8; 256], visited: &mut [u32; 32], q: usize, new: Columns) -> u32
    requires { q < 64 }
    ensures { Adds (Below (ColumnMask scope.now q new) 4) visited.old visited.new 0 result }
{
    let mut calls = 0;
    for k in 0..4 {
        let c = usize::from(scope[4 * q + k] % 32);
        calls = visit_call(visited, c, column(new, k), calls);
    }
    calls
}

// Visits what the rows of rule q justify by the slots that are visited. The calls with a new one. A rule all of whose strikes are visited needs no walk.
pub fn scan_rule(
    rows: &[u8; ROWS],
    killers: &[u8; KILLERS],
    slots: &[u8; SLOTS],
    heads: &Heads,
    visited: &mut [u32; 32],
    q: usize,
) -> u32
    requires { q < 64 }
    ensures { Scans
        (RuleJustifies (rules_in rows.now heads.now) killers.now slots.now q)
        (all_flags 32 visited.old) (all_flags 32 visited.new) result }
{
    let n = cap(heads.arity[q], 4);
    let wanted = columns_wanted(slots, &heads.scope, visited, q, n);
    if all_empty(wanted) {
        return 0;
    }
    let m = cap(heads.lengths[q], 64);
    let new = new_slots(rows, killers, &heads.scope, visited, wanted, q, n, m);
    visit_columns(&heads.scope, visited, q, new)
}
