// Kind 1: a new board. Every byte of the three buffers is written, whatever they held.
ghost use Rattle.std.specs.Prelude.{◌≡◌, ◌<◌};
ghost use Rattle.model.specs.Ledger.{bad_counts?};
ghost use Rattle.command_board.specs.Made.{bad_count?, slot_byte, SlotsMade, BuffersCleared, bare_value, MakesBoard};
ghost use Rattle.layout.specs.Memory.{memory};
ghost use Rattle.layout.specs.Sizes.{slots_length};

use layout::value::{Draft, Heads, KILLERS, ROWS, SLOTS, Value};
use model::answer::Outcome;
use model::refusal::Refusal;

// Whether a count n is over 32, or is another than 0 where a 0 came before it.
fn bad_count(n: u8, ended: bool) -> bool
    ensures { result ≡ bad_count? n ended }
{
    n > 32 || ended && n != 0
}

// Refusal 5.
fn bad_counts(counts: &[u8; 32]) -> bool
    ensures { result ≡ bad_counts? counts.now }
{
    let mut ended = false;
    for &n in counts {
        if bad_count(n, ended) {
            return true;
        }
        ended = n == 0;
    }
    counts[0] == 0
}

#[tactic(auto, unfolding(crate::specs::Made::slot_byte))]
fn slot_byte(counts: &[u8; 32], i: usize) -> u8
    requires { i < slots_length }
    ensures { result ≡ slot_byte counts.now i }
{
    if i % 32 < usize::from(counts[i / 32]) {
        255
    } else {
        254
    }
}

// Writes every slot byte: those of the board are open.
fn fill_slots(slots: &mut [u8; SLOTS], counts: &[u8; 32])
    ensures { SlotsMade counts.now slots.new }
{
    for (place, slot) in slots.iter_mut().enumerate() {
        *slot = slot_byte(counts, place);
    }
}

// Writes every byte of the buffers.
fn clear(
    rows: &mut [u8; ROWS],
    killers: &mut [u8; KILLERS],
    slots: &mut [u8; SLOTS],
    counts: &[u8; 32],
)
    ensures { BuffersCleared counts.now rows.new killers.new slots.new }
{
    rows.fill(255);
    killers.fill(255);
    fill_slots(slots, counts);
}

// The calls of these counts, no rule and no draft.
fn bare_value(counts: [u8; 32]) -> Value
    ensures { result ≡ bare_value counts }
{
    Value {
        heads: Heads {
            counts,
            ..Heads::fresh()
        },
        draft: Draft::empty(),
    }
}

pub fn make_board(
    value: Value,
    counts: [u8; 32],
    rows: &mut [u8; ROWS],
    killers: &mut [u8; KILLERS],
    slots: &mut [u8; SLOTS],
) -> Outcome
    ensures { MakesBoard
        counts (memory value rows.old killers.old slots.old) result.answer
        (memory result.value rows.new killers.new slots.new) }
{
    if bad_counts(&counts) {
        return Outcome::refused(Refusal::BadCounts, value);
    }
    clear(rows, killers, slots, &counts);
    Outcome::accepted(0, 0, 0, bare_value(counts))
}
