// The slots of a call as masks of 32 bits.
ghost use Rattle.std.specs.Prelude.{◌≡◌, cond, ◌<◌};
ghost use Rattle.tables.specs.Masks.{IsMask};
ghost use Rattle.masks.specs.Slots.{SlotsTested, SetDifference};
ghost use Rattle.layout.specs.Places.{cause_of};

use layout::value::SLOTS;

// The slots of call c whose byte passes the test. Each test makes a loop of its own, which looks at several slots at once.
pub fn slots_where<F: Fn(u8) -> bool>(slots: &[u8; SLOTS], c: usize, test: F) -> u32
    requires c_bound { c < 32 }
    requires callable { F.IsAlwaysCallable test }
    ensures { SlotsTested (F.post test) slots.now c 32 result }
{
    let mut m: u32 = 0;
    for s in 0..32 {
        m |= u32::from(test(slots[32 * c + s])) << s;
    }
    m
}

// The slots of call c with the byte x: 255 for those that are open, a rule's number for those that it struck.
pub fn slots_with(slots: &[u8; SLOTS], c: usize, x: u8) -> u32
    requires { c < 32 }
    ensures { IsMask (λ s. cause_of slots.now c s ≡ x) 32 result }
{
    slots_where(slots, c, |b| b == x)
}

// The slots of call c with a byte below the bound: 64 for those that are struck.
pub fn slots_below(slots: &[u8; SLOTS], c: usize, bound: u8) -> u32
    requires { c < 32 }
    ensures { IsMask (λ s. cause_of slots.now c s < bound) 32 result }
{
    slots_where(slots, c, |b| b < bound)
}

// What is in the first set and not in the second. By value, since an element of a lent array has no bound by itself, and the complement needs one.
pub fn set_difference(x: u32, y: u32) -> u32
    ensures { SetDifference x y result }
{
    x & !y
}

// The set, where the test holds; else the empty one.
pub fn set_where(test: bool, x: u32) -> u32
    ensures { result ≡ cond test x 0 }
{
    if test { x } else { 0 }
}
