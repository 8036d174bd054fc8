// The records of all calls, by value.
ghost use Rattle.std.specs.Prelude.{◌<◌, cond, ◌≡◌, eqb};
ghost use Rattle.layout.specs.Summary.{no_summary};
ghost use Rattle.summary_counts.specs.Counted.{figures_of, Counted};

use layout::summary::{RECORDS, Summary, Table};
use layout::value::{Heads, SLOTS};

// The record of call c, which has so many slots and so many rules on it; zeros where it has no slots.
fn record_of(slots: &[u8; SLOTS], c: usize, count: u8, rules: u8) -> Summary
    requires { c < 32 }
    ensures { result ≡ cond (eqb count 0) no_summary (figures_of slots.now c count rules) }
{
    if count == 0 {
        return Summary::NONE;
    }
    crate::figures::figures(slots, c, count, rules)
}

// The table that the heads and the slot bytes give.
pub fn table_of(heads: &Heads, slots: &[u8; SLOTS]) -> Table
    ensures { Counted heads.now slots.now result.records }
{
    let on = crate::rules::columns_on_calls(heads);
    let mut table = Table::empty();
    for c in 0..RECORDS {
        let rules = (on[c] % 256) as u8;
        table.records[c] = record_of(slots, c, heads.counts[c], rules);
    }
    table
}
