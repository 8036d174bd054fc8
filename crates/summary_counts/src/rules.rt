// How many rules are on each call. A rule's calls differ, so the columns on a call are counted, in one pass over the heads.
ghost use Rattle.std.specs.Prelude.{◌+◌, ◌*◌, ◌<◌};
ghost use Rattle.summary_counts.specs.Rules.{AtMost, ColumnAdded, ColumnsAdded, Columns};

use layout::value::Heads;

// Column k of rule q, whose arity is n, counts for its call.
fn add_column(scope: &[u8; 256], on: &mut [u32; 32], q: usize, n: u8, k: usize)
    requires at_most { AtMost (4 * q + 3) on.old }
    requires q_bound { q < 64 }
    requires k_bound { k < 4 }
    ensures { ColumnAdded scope.now q n k on.old on.new }
{
    if k < usize::from(n) {
        let c = usize::from(scope[4 * q + k] % 32);
        on[c] += 1;
    }
}

// The four columns of rule q, whose arity is n.
fn add_rule(scope: &[u8; 256], on: &mut [u32; 32], q: usize, n: u8)
    requires at_most { AtMost (4 * q) on.old }
    requires q_bound { q < 64 }
    ensures { ColumnsAdded scope.now q n 4 on.old on.new }
{
    for k in 0..4 {
        add_column(scope, on, q, n, k);
    }
}

// The columns on each call.
pub fn columns_on_calls(heads: &Heads) -> [u32; 32]
    ensures { Columns heads.now result }
{
    let mut on = [0u32; 32];
    for q in 0..64 {
        let n = heads.arity[q];
        if n > 0 {
            add_rule(&heads.scope, &mut on, q, n);
        }
    }
    on
}
