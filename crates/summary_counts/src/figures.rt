// How many slots of a call are open and struck. The loop counts in bytes, without a branch, so that many bytes are treated at once.
ghost use Rattle.std.specs.Prelude.{◌≡◌, cond, ◌<◌, eqb};
ghost use Rattle.model.specs.Tests.{count_below};
ghost use Rattle.model.specs.Report.{slot_count, open?};
ghost use Rattle.summary_counts.specs.Counted.{slots_left, figures_of};

use layout::places::CANCELLED;
use layout::summary::Summary;
use layout::value::SLOTS;

// 1 for an open slot's byte.
pub fn is_open(b: u8) -> u8
    ensures { result ≡ cond (eqb b 255) 1 0 }
{
    u8::from(b == 255)
}

// The open slots of call c. Beside an array, whose length is known, the compiler takes one call's bytes at once, and not the same byte of several calls, which takes
// twice as long.
pub fn open_count(slots: &[u8; SLOTS], c: usize) -> u8
    requires { c < 32 }
    ensures { result ≡ count_below 32 (open? slots.now c) }
{
    let mut open: u8 = 0;
    for s in 0..32 {
        open += is_open(slots[32 * c + s]);
    }
    open
}

// The slots of call c that are open or struck, of so many that it has: none where it is cancelled.
pub fn slots_left(slots: &[u8; SLOTS], c: usize, count: u8) -> u8
    requires { c < 32 }
    ensures { result ≡ slots_left slots.now c count }
{
    if slots[32 * c] == CANCELLED { 0 } else { count }
}

// The record of call c, which has so many slots and so many rules on it.
pub fn figures(slots: &[u8; SLOTS], c: usize, count: u8, rules: u8) -> Summary
    requires { c < 32 }
    ensures { result ≡ figures_of slots.now c count rules }
{
    let open = open_count(slots, c);
    let struck = slots_left(slots, c, count).saturating_sub(open);
    Summary {
        open,
        struck,
        rules,
    }
}

// The open slots of the whole board.
pub fn open_total(slots: &[u8; SLOTS]) -> usize
    ensures { result ≡ slot_count (open? slots.now) }
{
    let mut n = 0;
    for b in slots {
        n += usize::from(is_open(*b));
    }
    n
}
