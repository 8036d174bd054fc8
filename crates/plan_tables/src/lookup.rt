// What the search looks up at each slot, made once off the value and the bytes: which calls are to be laid and their open slots, the calls of every rule's columns,
// and the rows as words.
ghost use Rattle.std.specs.Prelude.{◌≡◌, ◌<◌, ◌≤◌};
ghost use Rattle.plan_fit.specs.Parts.{call_parts};
ghost use Rattle.plan_tables.specs.Lookup.{CallSlots, OpenMasks, RuleColumns, columns_at, WordsMade, RowWords};

use layout::places::cap;
use layout::value::{Heads, ROWS, SLOTS};
use masks::columns::word;
use masks::slots::slots_with;
use plan_fit::calls::slots_for;
use plan_fit::columns::{column_call, column_mask};

// A word for each row that there can be.
pub const WORDS: usize = 4096;

// All that is looked up. It is lent and never copied.
#[derive(Drop)]
pub struct Tables {
    // the rows as words, 64 to a rule, with 0 in the columns that do not count
    pub words: [u32; WORDS],
    // rows of each rule
    pub lengths: [u8; 64],
    // the call of each column of each rule, 255 where the column does not count: rule p's from 4 * p on
    pub columns: [u8; 256],
    // the rules that each call makes due
    pub due: [u64; 32],
    // its open slots
    pub opened: [u32; 32],
    // how many slots it has in a plan: 0 for one that is not to be laid
    pub held: [u8; 32],
}

// How many slots each call has in a plan: 0 for one that is not to be laid.
pub fn call_slots(counts: &[u8; 32], slots: &[u8]) -> [u8; 32]
    ensures { CallSlots (call_parts counts.now slots.now) result }
{
    let mut held = [0u8; 32];
    for c in 0..32 {
        held[c] = slots_for(counts, slots, c);
    }
    held
}

// The open slots of every call.
pub fn open_masks(slots: &[u8; SLOTS]) -> [u32; 32]
    ensures { OpenMasks slots.now result }
{
    let mut opened = [0u32; 32];
    for c in 0..32 {
        opened[c] = slots_with(slots, c, 255);
    }
    opened
}

// The call of each column of each rule, 255 where the column does not count: rule p's from 4 * p on.
pub fn rule_columns(heads: &Heads, slots: &[u8]) -> [u8; 256]
    ensures { RuleColumns heads.now slots.now result }
{
    let mut columns = [255u8; 256];
    for i in 0..256 {
        columns[i] = column_call(heads, slots, i / 4, i % 4);
    }
    columns
}

// The four of one rule.
pub fn columns_at(columns: &[u8; 256], p: usize) -> [u8; 4]
    requires { p < 64 }
    ensures { result ≡ columns_at columns.now p }
{
    [
        columns[4 * p],
        columns[4 * p + 1],
        columns[4 * p + 2],
        columns[4 * p + 3],
    ]
}

// The rows of rule p as words, in the columns of the mask.
fn rule_words(rows: &[u8; ROWS], held: usize, p: usize, mask: u32, words: &mut [u32; WORDS])
    requires held_bound { held ≤ 64 }
    requires p_bound { p < 64 }
    ensures { WordsMade rows.now p mask held words.old words.new }
{
    for w in 0..held {
        words[64 * p + w] = word(rows, 256 * p + 4 * w) & mask;
    }
}

// Writes the rows of every rule as words, with 0 in the columns that do not count: rule p's from 64 * p on. The words are lent, since they are half of a search's stack.
pub fn write_words(
    rows: &[u8; ROWS],
    lengths: &[u8; 64],
    columns: &[u8; 256],
    words: &mut [u32; WORDS],
)
    ensures { RowWords rows.now lengths.now columns.now 64 words.new }
{
    for p in 0..64 {
        let held = cap(lengths[p], 64);
        let mask = column_mask(columns_at(columns, p));
        rule_words(rows, held, p, mask, words);
    }
}
