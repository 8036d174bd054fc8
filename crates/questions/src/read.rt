// What the questions read: bytes of the value and of the lent buffers.
ghost use Rattle.std.specs.Prelude.{◌≡◌, ◌+◌, get_or};
ghost use Rattle.layout.specs.Places.{columns_of, rows_of, scope_place};
ghost use Rattle.model.specs.Report.{open?};
ghost use Rattle.model.specs.Questions.{mask_of, supports?};
ghost use Rattle.questions.specs.Parts.{search_parts, length_parts, Searchable, active_support};

use crate::weights::slot_weights;
use layout::places::byte_at;

// The slots of a call; 0 where there is no such call.
pub fn slots_held(counts: &[u8; 32], call: u8) -> u8
    ensures { result ≡ get_or counts.now call 0 }
{
    byte_at(counts, usize::from(call))
}

// The columns of a rule; 0 where the number is not in force.
pub fn columns_of(arity: &[u8; 64], rule: u8) -> u8
    ensures { result ≡ columns_of arity.now rule }
{
    byte_at(arity, usize::from(rule)).min(4)
}

// The rows of a rule.
pub fn rows_of(lengths: &[u8; 64], rule: u8) -> u8
    ensures { result ≡ rows_of lengths.now rule }
{
    byte_at(lengths, usize::from(rule)).min(64)
}

// The call of a rule's column.
pub fn call_of(scope: &[u8; 256], rule: u8, column: u8) -> u8
    ensures { result ≡ get_or scope.now (scope_place rule column) 0 }
{
    byte_at(scope, 4 * usize::from(rule) + usize::from(column))
}

// The mask of a call's open slots: the sum of their weights.
pub fn open_mask(slots: &[u8], call: u8) -> u32
    ensures { result ≡ mask_of 32 (open? slots.now call) }
{
    let base = 32 * usize::from(call);
    let weights = slot_weights();
    let mut mask = 0;
    for s in 0..32 {
        if byte_at(slots, base + s) == 255 {
            mask += weights[s];
        }
    }
    mask
}

// The row of the rule is alive and holds the slot in the column.
fn supports(rows: &[u8], killers: &[u8], rule: u8, row: u8, column: u8, slot: u8) -> bool
    requires { Searchable rows.now killers.now rule (row + 1) column }
    ensures { result ≡ supports? (search_parts rows.now killers.now) rule column slot row }
{
    let (rule, row, column) = (usize::from(rule), usize::from(row), usize::from(column));
    killers[64 * rule + row] == 255 && rows[256 * rule + 4 * row + column] == slot
}

// The lowest living row of the rule that holds the slot in the column, or none.
pub fn lowest_support(
    lengths: &[u8; 64],
    rows: &[u8],
    killers: &[u8],
    rule: u8,
    column: u8,
    slot: u8,
) -> Option<u8>
    requires { Searchable rows.now killers.now rule (rows_of lengths.now rule) column }
    ensures { result ≡ active_support (length_parts lengths.now rows.now killers.now) rule column slot }
{
    for row in 0..rows_of(lengths, rule) {
        if supports(rows, killers, rule, row, column, slot) {
            return Some(row);
        }
    }
    None
}
