// The columns of a rule that count, by the call of each; and one byte for each column in a word, the first as its lowest.
ghost use Rattle.std.specs.Prelude.{◌≡◌, ◌<◌};
ghost use Rattle.plan_fit.specs.Words.{column_call, ColumnCalls, mask_byte, plan_byte, IsWord};

use layout::places::{cap, is_cancelled};
use layout::value::Heads;

// The call of column k of rule p; 255 where the column does not count, since it is none of the rule's or its call is cancelled. The definition has this byte, and the tables of a search hold it.
#[tactic(auto, unfolding(crate::specs::Words::column_call))]
pub fn column_call(heads: &Heads, slots: &[u8], p: usize, k: usize) -> u8
    requires p_bound { p < 64 }
    requires k_bound { k < 4 }
    ensures { result ≡ column_call heads.now slots.now p k }
{
    let call = heads.scope[4 * p + k] % 32;
    if cap(heads.arity[p], 4) <= k {
        return 255;
    }
    if is_cancelled(slots, call) { 255 } else { call }
}

// The same for each column.
pub fn column_calls(heads: &Heads, slots: &[u8], p: usize) -> [u8; 4]
    requires { p < 64 }
    ensures { ColumnCalls heads.now slots.now p result }
{
    [
        column_call(heads, slots, p, 0),
        column_call(heads, slots, p, 1),
        column_call(heads, slots, p, 2),
        column_call(heads, slots, p, 3),
    ]
}

// All bits of a column that counts.
fn mask_byte(call: u8) -> u8
    ensures { result ≡ mask_byte call }
{
    if call < 32 { 255 } else { 0 }
}

// The columns that count, as a word with all bits of each.
pub fn column_mask(calls: [u8; 4]) -> u32
    ensures { IsWord calls mask_byte result }
{
    u32::from_le_bytes([
        mask_byte(calls[0]),
        mask_byte(calls[1]),
        mask_byte(calls[2]),
        mask_byte(calls[3]),
    ])
}

// The plan's slot for the call of a column that counts, else 0.
fn plan_byte(plan: &[u8; 32], call: u8) -> u8
    ensures { result ≡ plan_byte plan.now call }
{
    if call < 32 {
        plan[usize::from(call)]
    } else {
        0
    }
}

// The plan's slots for the columns that count, as a word.
pub fn plan_word(plan: &[u8; 32], calls: [u8; 4]) -> u32
    ensures { IsWord calls (plan_byte plan.now) result }
{
    u32::from_le_bytes([
        plan_byte(plan, calls[0]),
        plan_byte(plan, calls[1]),
        plan_byte(plan, calls[2]),
        plan_byte(plan, calls[3]),
    ])
}
