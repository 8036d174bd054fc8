// Reopening: the visited slots are open again, so their bytes become 255. Only the calls with one are looked at.
ghost use Rattle.std.specs.Prelude.{◌≡◌, ◌<◌};
ghost use Rattle.tables.specs.Assign.{Assigned};
ghost use Rattle.tables.specs.Count.{count};
ghost use Rattle.tables.specs.Masks.{flags_of, all_flags};
ghost use Rattle.filter_relax.specs.Touched.{Covers};
ghost use Rattle.filter_relax.specs.Spread.{is_visited, CallMask};
ghost use Rattle.filter_relax.specs.Reopen.{AnyByte, Reopened};

use layout::value::SLOTS;

// The slots of call c in the mask, from the lowest on.
pub fn reopen_slots(slots: &mut [u8; SLOTS], c: usize, mask: u32)
    requires { c < 32 }
    ensures { Assigned 0 255 AnyByte (CallMask c mask) slots.old slots.new }
{
    let mut left = mask;
    // by the bits of the mask, which are no range
    while left != 0 {
        let s = left.trailing_zeros() as usize;
        slots[32 * c + s] = 255;
        left &= left - 1;
    }
}

// How many slots are in the mask.
pub fn slots_in(mask: u32) -> usize
    ensures { result ≡ count is_visited (flags_of 32 mask) }
{
    mask.count_ones() as usize
}

// The visited slots of the calls of the mask, which are those with a visited slot. The number of visited slots.
pub fn reopen_calls(slots: &mut [u8; SLOTS], visited: &[u32; 32], calls: u32) -> usize
    requires { Covers (flags_of 32 calls) (all_flags 32 visited.now) }
    ensures { Reopened result (all_flags 32 visited.now) slots.old slots.new }
{
    let mut total = 0;
    let mut left = calls;
    // by the bits of the mask, which are no range
    while left != 0 {
        let c = left.trailing_zeros() as usize;
        reopen_slots(slots, c, visited[c]);
        total += slots_in(visited[c]);
        left &= left - 1;
    }
    total
}
