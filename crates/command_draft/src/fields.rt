// The checks of fields that kinds 2 and 3 make, and kind 6 some of them: each looks at one condition of SCOPE 4.1, over the bytes, whatever they hold.
ghost use Rattle.std.specs.Prelude.{◌≡◌, ◌≤◌, ◌<◌};
ghost use Rattle.model.specs.Ledger.{bad_spare?};
ghost use Rattle.command_draft.specs.Fields.{off_board?, call_off_board?, call_cancelled?, call_before?, call_twice?, bad_arity?, slot_off?, slot_off_call?, same_row?, row_in_draft?};

use layout::places::is_cancelled;

// Whether call x is not on the board.
pub fn off_board(counts: &[u8; 32], x: u8) -> bool
    ensures { result ≡ off_board? counts.now x }
{
    32 <= x || counts[usize::from(x)] == 0
}

// Refusal 9: one of n calls is not on the board.
pub fn call_off_board(counts: &[u8; 32], scope: &[u8; 4], n: usize) -> bool
    requires { n ≤ 4 }
    ensures { result ≡ call_off_board? counts.now scope.now n }
{
    scope[..n].iter().any(|&x| off_board(counts, x))
}

// Refusal 29: one of n calls is cancelled.
pub fn call_cancelled(slots: &[u8], scope: &[u8; 4], n: usize) -> bool
    requires { n ≤ 4 }
    ensures { result ≡ call_cancelled? slots.now scope.now n }
{
    scope[..n].iter().any(|&x| is_cancelled(slots, x))
}

// Whether call k is one of those before it.
fn call_before(scope: &[u8; 4], k: usize) -> bool
    requires { k < 4 }
    ensures { result ≡ call_before? scope.now k }
{
    scope[..k].contains(&scope[k])
}

// Refusal 10: one of n calls is there twice.
pub fn call_twice(scope: &[u8; 4], n: usize) -> bool
    requires { n ≤ 4 }
    ensures { result ≡ call_twice? scope.now n }
{
    (0..n).any(|k| call_before(scope, k))
}

// Refusal 8: an arity that is not 1 to 4.
pub fn bad_arity(n: u8) -> bool
    ensures { result ≡ bad_arity? n }
{
    !matches!(n, 1..=4)
}

// Refusal 11: one of four fields past the first n is not 255.
pub fn bad_spare(fields: &[u8; 4], n: usize) -> bool
    requires { n ≤ 4 }
    ensures { result ≡ bad_spare? n fields.now }
{
    fields[n..].iter().any(|&x| x != 255)
}

// Whether the slot in column k is not on the column's call.
fn off_call(counts: &[u8; 32], scope: &[u8; 4], slots: &[u8; 4], k: usize) -> bool
    requires { k < 4 }
    ensures { result ≡ slot_off? counts.now scope.now slots.now k }
{
    counts[usize::from(scope[k] % 32)] <= slots[k]
}

// Refusal 14: the slot in one of n columns is not on the column's call.
pub fn slot_off_call(counts: &[u8; 32], scope: &[u8; 4], slots: &[u8; 4], n: usize) -> bool
    requires { n ≤ 4 }
    ensures { result ≡ slot_off_call? counts.now scope.now slots.now n }
{
    (0..n).any(|k| off_call(counts, scope, slots, k))
}

// Whether row v has these slots in n columns.
fn same_row(rows: &[u8; 256], slots: &[u8; 4], n: usize, v: usize) -> bool
    requires n_bound { n ≤ 4 }
    requires v_bound { v < 64 }
    ensures { result ≡ same_row? rows.now slots.now n v }
{
    rows[4 * v..4 * v + n] == slots[..n]
}

// Refusal 15: one of m rows has these slots in n columns.
pub fn row_in_draft(rows: &[u8; 256], slots: &[u8; 4], n: usize, m: usize) -> bool
    requires n_bound { n ≤ 4 }
    requires m_bound { m ≤ 64 }
    ensures { result ≡ row_in_draft? rows.now slots.now n m }
{
    (0..m).any(|v| same_row(rows, slots, n, v))
}
