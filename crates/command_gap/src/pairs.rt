// The pairs of slots that fit a form, listed as the rows of a draft: in one pass over all pairs, in rising order. All of them are counted, and the first 64 written.
ghost use Rattle.std.specs.Prelude.{◌+◌, ◌<◌, min, ◌≡◌};
ghost use Rattle.model.specs.Gaps.{pair_test, rows_of_gap};
ghost use Rattle.command_gap.specs.Pairs.{Listed, ListedTo, with_pair};

use crate::fits::fits;
use layout::places::cap;

// A form and its gap, and the slots of the second call.
#[derive(Clone, Copy)]
pub struct Test {
    pub form: u8,
    pub gap: u8,
    pub seconds: u8,
}

#[derive(Clone, Copy)]
pub struct Pairs {
    // row w from 4 * w on; 255 past the two columns and past the rows
    pub rows: [u8; 256],
    // how many pairs fit, those among them for which there is no room
    pub count: usize,
}

// Whether the second slot is on its call, and the two fit.
fn passes(test: Test, a: u8, b: u8) -> bool
    ensures { result ≡ pair_test test.form test.gap test.seconds a b }
{
    b < test.seconds && fits(test.form, test.gap, a, b)
}

// The pair is row w, if there is room for it.
fn write_pair(rows: &mut [u8; 256], w: usize, a: u8, b: u8)
    ensures { rows.new ≡ with_pair rows.old w a b }
{
    if w < 64 {
        rows[4 * w] = a;
        rows[4 * w + 1] = b;
    }
}

// The pair at place i is listed behind so many others, if it passes. How many there are then.
fn list_pair(rows: &mut [u8; 256], count: usize, test: Test, i: usize) -> usize
    requires i_bound { i < 1024 }
    requires listed_to { ListedTo (pair_test test.form test.gap test.seconds) i rows.old count }
    ensures { ListedTo (pair_test test.form test.gap test.seconds) (i + 1) rows.new result }
{
    let a = (i / 32) as u8;
    let b = (i % 32) as u8;
    if passes(test, a, b) {
        write_pair(rows, count, a, b);
        count + 1
    } else {
        count
    }
}

// The rows of the test's form on a call with n slots and the second call.
pub fn list_pairs(test: Test, n: u8) -> Pairs
    ensures { Listed (rows_of_gap test.form test.gap (min n 32) test.seconds) result.rows result.count }
{
    let mut rows = [255u8; 256];
    let mut count = 0;
    for i in 0..32 * cap(n, 32) {
        count = list_pair(&mut rows, count, test, i);
    }
    Pairs { rows, count }
}
