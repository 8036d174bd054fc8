// A set of slots for each column of a rule. The walks over a rule's rows are written once, for four columns; with the spare columns set to 0, and what is found there
// thrown away, the compiler makes a loop for two columns and one for three of them.
ghost use Rattle.std.specs.Prelude.{◌≡◌, ◌+◌, ◌%◌, ◌^◌, ◌<◌, length};
ghost use Rattle.masks.specs.Columns.{column_of, word_at, RowMasks, first_columns, ColumnSet, ColumnSets};

use layout::value::ROWS;

// A set of slots for each of four columns. They are four fields, since each walk over rows writes them out, so as to have no loop within its loop.
#[derive(Clone, Copy)]
pub struct Columns {
    pub c0: u32,
    pub c1: u32,
    pub c2: u32,
    pub c3: u32,
}

impl Columns {
    // No slot for any column.
    pub const NONE: Columns = Columns {
        c0: 0,
        c1: 0,
        c2: 0,
        c3: 0,
    };
}

// The set of column k.
pub fn column(x: Columns, k: usize) -> u32
    ensures { result ≡ column_of x k }
{
    match k {
        0 => x.c0,
        1 => x.c1,
        2 => x.c2,
        _ => x.c3,
    }
}

// The first N columns alone, two at least.
pub fn first_columns<const N: usize>(x: Columns) -> Columns
    ensures { result ≡ first_columns N x }
{
    Columns {
        c0: x.c0,
        c1: x.c1,
        c2: if N > 2 { x.c2 } else { 0 },
        c3: if N > 3 { x.c3 } else { 0 },
    }
}

// The four bytes from i on as one number, the first as its lowest: so that a row is read at once.
pub fn word(rows: &[u8], i: usize) -> u32
    requires { i + 3 < length rows.now }
    ensures { result ≡ word_at rows.now i }
{
    u32::from_le_bytes([rows[i], rows[i + 1], rows[i + 2], rows[i + 3]])
}

// The mask of the slot in the lowest byte of a number.
pub fn slot_bit(x: u32) -> u32
    ensures { result ≡ 2 ^ (x % 32) }
{
    1 << (x % 32)
}

// The slots of row w of rule p, a mask of one for each column.
pub fn row_slots(rows: &[u8; ROWS], p: usize, w: usize) -> Columns
    requires p_bound { p < 64 }
    requires w_bound { w < 64 }
    ensures { RowMasks rows.now p w result }
{
    let x = word(rows, 256 * p + 4 * w);
    let c0 = slot_bit(x);
    let c1 = slot_bit(x / 256);
    let c2 = slot_bit(x / 65536);
    let c3 = slot_bit(x / 16777216);
    Columns { c0, c1, c2, c3 }
}

// The set of column k's call, of sets for all calls; none past the n columns.
pub fn column_set(sets: &[u32; 32], scope: &[u8; 256], p: usize, n: usize, k: usize) -> u32
    requires p_bound { p < 64 }
    requires k_bound { k < 4 }
    ensures { ColumnSet sets.now scope.now p n k result }
{
    if k < n {
        sets[usize::from(scope[4 * p + k] % 32)]
    } else {
        0
    }
}

// The same for each column.
pub fn column_sets(sets: &[u32; 32], scope: &[u8; 256], p: usize, n: usize) -> Columns
    requires { p < 64 }
    ensures { ColumnSets sets.now scope.now p n result }
{
    let c0 = column_set(sets, scope, p, n, 0);
    let c1 = column_set(sets, scope, p, n, 1);
    let c2 = column_set(sets, scope, p, n, 2);
    let c3 = column_set(sets, scope, p, n, 3);
    Columns { c0, c1, c2, c3 }
}
