// Striking: the open slots on a rule's calls that no living row of the rule holds become struck, with the rule as their cause.
ghost use Rattle.std.specs.Prelude.{◌≡◌, ◌≤◌, ◌<◌};
ghost use Rattle.tables.specs.Masks.{Has};
ghost use Rattle.filter_support.specs.Known.{KnownCalls, ColumnCall, StillKnown};
ghost use Rattle.filter_support.specs.Strikes.{SlotsStruck, CallWith, AllOpen, Lacks, NotIn, WithCall, ColumnsStruck};

use crate::known::CallMasks;
use layout::value::SLOTS;
use masks::columns::{Columns, column};
use masks::slots::set_difference;

// How many slots were struck, and the calls where one was.
#[derive(Clone, Copy)]
pub struct StrikeCount {
    pub number: usize,
    pub calls: u32,
}

// Strikes the slots of call c in the mask, from the lowest on. Their number.
pub fn strike_slots(slots: &mut [u8; SLOTS], p: u8, c: usize, lost: u32) -> usize
    requires p_bound { p < 64 }
    requires c_bound { c < 32 }
    requires all_open { AllOpen slots.old c lost }
    ensures { SlotsStruck (CallWith (Has lost) c) p result slots.old slots.new }
{
    let mut left = lost;
    let mut total = 0;
    // by the bits of the mask, which are no range
    while left != 0 {
        let s = left.trailing_zeros() as usize;
        slots[32 * c + s] = p;
        total += 1;
        left &= left - 1;
    }
    total
}

// Strikes the open slots of call c that are not found, and changes the masks of the call with them, which are known. Their number.
pub fn strike_call(
    slots: &mut [u8; SLOTS],
    masks: &mut CallMasks,
    p: u8,
    c: usize,
    found: u32,
) -> usize
    requires p_bound { p < 64 }
    requires c_bound { c < 32 }
    requires known { KnownCalls (λ d. d ≡ c) slots.old masks.old }
    ensures slots_struck { SlotsStruck (CallWith (Lacks found) c) p result slots.old slots.new }
    ensures still_known { StillKnown slots.old masks.old slots.new masks.new }
{
    let lost = set_difference(masks.opened[c], found);
    masks.opened[c] &= found;
    masks.struck[c] |= lost;
    strike_slots(slots, p, c, lost)
}

// The mask with call c, where some of its slots were struck.
pub fn with_call(calls: u32, c: usize, number: usize) -> u32
    requires { c < 32 }
    ensures { WithCall calls c number result }
{
    if number > 0 { calls | (1 << c) } else { calls }
}

// Strikes the open slots on the calls of n columns of rule p that are not found.
pub fn strike_columns(
    slots: &mut [u8; SLOTS],
    masks: &mut CallMasks,
    found: Columns,
    scope: &[u8; 256],
    p: u8,
    n: usize,
) -> StrikeCount
    requires p_bound { p < 64 }
    requires n_bound { n ≤ 4 }
    requires known { KnownCalls (ColumnCall scope.now p n) slots.old masks.old }
    ensures columns_struck { ColumnsStruck (NotIn found) scope.now p n result.number result.calls slots.old slots.new }
    ensures still_known { StillKnown slots.old masks.old slots.new masks.new }
{
    let mut number = 0;
    let mut calls = 0;
    for k in 0..n {
        let c = usize::from(scope[4 * usize::from(p) + k] % 32);
        let held = column(found, k);
        let d = strike_call(slots, masks, p, c, held);
        calls = with_call(calls, c, d);
        number += d;
    }
    StrikeCount { number, calls }
}
