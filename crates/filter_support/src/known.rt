// The masks of the calls that a command has looked at: of each, its open and its struck slots, in two tables. They are made once for each call, and strikes keep them.
ghost use Rattle.std.specs.Prelude.{◌≡◌, ◌≤◌, ◌<◌};
ghost use Rattle.filter_support.specs.Known.{Known, ColumnCall, Learnt};

use layout::value::SLOTS;
use masks::slots::{slots_below, slots_with};

// The tables, and the mask of the calls that they know.
#[derive(Clone, Copy)]
pub struct CallMasks {
    pub opened: [u32; 32],
    pub struck: [u32; 32],
    pub known: u32,
}

impl CallMasks {
    // No call is known.
    pub fn none() -> Self
        ensures { result.known ≡ 0 }
    {
        Self {
            opened: [0; 32],
            struck: [0; 32],
            known: 0,
        }
    }
}

// Makes the masks of call c, where they are not known.
pub fn know_call(slots: &[u8; SLOTS], masks: &mut CallMasks, c: usize)
    requires c_bound { c < 32 }
    requires known { Known slots.now masks.old }
    ensures { Learnt (λ d. d ≡ c) slots.now masks.old masks.new }
{
    let bit = 1 << c;
    if bit & masks.known != 0 {
        return;
    }
    masks.opened[c] = slots_with(slots, c, 255);
    masks.struck[c] = slots_below(slots, c, 64);
    masks.known |= bit;
}

// The same for the calls of n columns of rule p.
pub fn know_columns(
    slots: &[u8; SLOTS],
    masks: &mut CallMasks,
    scope: &[u8; 256],
    p: usize,
    n: usize,
)
    requires p_bound { p < 64 }
    requires n_bound { n ≤ 4 }
    requires known { Known slots.now masks.old }
    ensures { Learnt (ColumnCall scope.now p n) slots.now masks.old masks.new }
{
    for k in 0..n {
        let c = usize::from(scope[4 * p + k] % 32);
        know_call(slots, masks, c);
    }
}
