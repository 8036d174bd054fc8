// A plan laid in part against the rows of the rules that are due.
ghost use Rattle.std.specs.Prelude.{◌≡◌, ◌+◌, ◌*◌, ◌<◌, get_or, eqb};
ghost use Rattle.layout.specs.Places.{rows_of};
ghost use Rattle.model.specs.Tests.{some?};
ghost use Rattle.plan_tables.specs.Fit.{fitted_by, stays_by};

use crate::lookup::{Tables, columns_at};
use layout::places::cap;
use plan_fit::columns::plan_word;

// Some row of rule p is the wanted word. Without a branch, so that the compiler compares several rows at once.
fn has_word(tables: &Tables, p: usize, wanted: u32) -> bool
    requires { p < 64 }
    ensures { result ≡ some? (rows_of tables.now.lengths p) (λ w. eqb (get_or tables.now.words (64 * p + w) 0) wanted) }
{
    let held = cap(tables.lengths[p], 64);
    let mut found = false;
    for w in 0..held {
        found |= tables.words[64 * p + w] == wanted;
    }
    found
}

// Some row of rule p has the plan's slots in the columns that count.
fn rule_fits(tables: &Tables, plan: &[u8; 32], p: usize) -> bool
    requires { p < 64 }
    ensures { result ≡ fitted_by tables.now plan.now p }
{
    let wanted = plan_word(plan, columns_at(&tables.columns, p));
    has_word(tables, p, wanted)
}

// The same for every rule of the mask.
pub fn rules_fit(tables: &Tables, plan: &[u8; 32], rules: u64) -> bool
    ensures { result ≡ stays_by tables.now rules plan.now }
{
    let mut left = rules;
    // by the bits of the mask, which are no range
    while left != 0 {
        let p = left.trailing_zeros() as usize;
        if !rule_fits(tables, plan, p) {
            return false;
        }
        left &= left - 1;
    }
    true
}
