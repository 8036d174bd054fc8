// The rows of a rule against a word of slots: a row is read as one word, and the columns that do not count are masked out of it.
ghost use Rattle.std.specs.Prelude.{◌≡◌, ◌<◌, ◌≤◌};
ghost use Rattle.layout.specs.Places.{rows_of};
ghost use Rattle.model.specs.Tests.{some?};
ghost use Rattle.plan_fit.specs.Words.{row_matches?, SomeBetween};

use layout::places::cap;
use layout::value::ROWS;
use masks::columns::word;

// Some row of rule p, of those from one number on and below another, is the wanted word in the columns of the mask. Without a branch, so that the compiler compares
// several rows at once.
fn has_row_between(
    rows: &[u8; ROWS],
    p: usize,
    from: usize,
    to: usize,
    mask: u32,
    wanted: u32,
) -> bool
    requires p_bound { p < 64 }
    requires from_le_to { from ≤ to }
    requires to_bound { to ≤ 64 }
    ensures { SomeBetween (row_matches? rows.now p mask wanted) from to result }
{
    let mut found = false;
    for w in from..to {
        found |= word(rows, 256 * p + 4 * w) & mask == wanted;
    }
    found
}

// The same of all rows of the rule. They are taken in sixteens, so that a row among the first ones ends it soon.
pub fn has_row(rows: &[u8; ROWS], lengths: &[u8; 64], p: usize, mask: u32, wanted: u32) -> bool
    requires { p < 64 }
    ensures { result ≡ some? (rows_of lengths.now p) (row_matches? rows.now p mask wanted) }
{
    let held = cap(lengths[p], 64);
    for part in 0..held / 16 {
        if has_row_between(rows, p, 16 * part, 16 * part + 16, mask, wanted) {
            return true;
        }
    }
    has_row_between(rows, p, held - held % 16, held, mask, wanted)
}
