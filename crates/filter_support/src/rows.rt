// The walk over a rule's rows: it kills the living rows that hold a struck slot, and gathers the slots of those that go on living, a set for each column. A row is
// treated so that the compiler makes no branch of it, and treats several at once.
ghost use Rattle.std.specs.Prelude.{◌≡◌, ◌≤◌, ◌<◌};
ghost use Rattle.masks.specs.Columns.{PastEmpty};
ghost use Rattle.filter_support.specs.Walk.{FirstMeeting, killer_now, WithRow, RowWalked, Walked, WalkedColumns};

use layout::value::{KILLERS, ROWS};
use masks::columns::{Columns, first_columns, row_slots};
use masks::slots::set_where;

// The first column where the two sets meet, or 255, the killer's byte of a row that lives.
pub fn first_meeting(a: Columns, b: Columns) -> u8
    ensures { FirstMeeting a b result }
{
    if a.c0 & b.c0 != 0 {
        return 0;
    }
    if a.c1 & b.c1 != 0 {
        return 1;
    }
    if a.c2 & b.c2 != 0 {
        return 2;
    }
    if a.c3 & b.c3 != 0 {
        return 3;
    }
    255
}

// A dead row keeps its killer.
pub fn killer_now(old: u8, new: u8) -> u8
    ensures { result ≡ killer_now old new }
{
    if old == 255 { new } else { old }
}

// The slots found, with those of a row that lives.
pub fn with_row(found: Columns, row: Columns, killer: u8) -> Columns
    ensures { WithRow found row killer result }
{
    let alive = killer == 255;
    Columns {
        c0: found.c0 | set_where(alive, row.c0),
        c1: found.c1 | set_where(alive, row.c1),
        c2: found.c2 | set_where(alive, row.c2),
        c3: found.c3 | set_where(alive, row.c3),
    }
}

// A living row is killed by its first struck slot; where it has none its slots are added to the found.
pub fn revise_row(
    rows: &[u8; ROWS],
    killers: &mut [u8; KILLERS],
    struck: Columns,
    found: Columns,
    p: usize,
    w: usize,
) -> Columns
    requires p_bound { p < 64 }
    requires w_bound { w < 64 }
    ensures { RowWalked rows.now struck p w killers.old killers.new found result }
{
    let row = row_slots(rows, p, w);
    let first = first_meeting(row, struck);
    let now = killer_now(killers[64 * p + w], first);
    killers[64 * p + w] = now;
    with_row(found, row, now)
}

// The same for the first m rows.
pub fn revise_rows(
    rows: &[u8; ROWS],
    killers: &mut [u8; KILLERS],
    struck: Columns,
    p: usize,
    m: usize,
) -> Columns
    requires p_bound { p < 64 }
    requires m_bound { m ≤ 64 }
    ensures { Walked rows.now struck p m killers.old killers.new result }
{
    let mut found = Columns::NONE;
    for w in 0..m {
        found = revise_row(rows, killers, struck, found, p, w);
    }
    found
}

// The same for a rule of n columns. A closure for the walk would not do here: of the killers that it borrows nothing is known after it.
pub fn revise_columns(
    rows: &[u8; ROWS],
    killers: &mut [u8; KILLERS],
    struck: Columns,
    p: usize,
    n: usize,
    m: usize,
) -> Columns
    requires p_bound { p < 64 }
    requires m_bound { m ≤ 64 }
    requires n_bound { n ≤ 4 }
    requires past_empty { PastEmpty n struck }
    ensures { WalkedColumns rows.now struck p n m killers.old killers.new result }
{
    if n < 3 {
        let found = revise_rows(rows, killers, first_columns::<2>(struck), p, m);
        return first_columns::<2>(found);
    }
    if n < 4 {
        let found = revise_rows(rows, killers, first_columns::<3>(struck), p, m);
        return first_columns::<3>(found);
    }
    revise_rows(rows, killers, struck, p, m)
}
