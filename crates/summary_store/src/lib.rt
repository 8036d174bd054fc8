// The store into the summary table that the host lends: a slice of records.
// Proved: the first records are those that are to be stored, and every other is as it was. Assumed: nothing.
#![tactic(auto)]

ghost use Rattle.std.specs.Prelude.{◌≡◌, ◌≤◌, length};
ghost use Rattle.layout.specs.Summary.{replaced};

use layout::summary::{Summary, Table};

// The first n records of the table are replaced.
pub fn store_records(table: &mut [Summary], all: Table, n: usize)
    requires { (n ≤ 32) × (n ≤ length table.old) }
    ensures { table.new ≡ replaced n all.records table.old }
{
    table[..n].copy_from_slice(&all.records[..n]);
}
