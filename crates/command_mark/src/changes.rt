// The slots that differ between two boards' bytes.
ghost use Rattle.std.specs.Prelude.{◌&&◌, ◌≡◌, ◌<◌, eqb, ltb, length};
ghost use Rattle.layout.specs.Sizes.{slots_length, marks_length};
ghost use Rattle.layout.specs.Marks.{marked_slots};
ghost use Rattle.model.specs.Report.{struck_between};
ghost use Rattle.command_mark.specs.Changes.{Between};

use layout::marks::{MARK, MARKS};
use layout::value::{KILLERS, ROWS, SLOTS};

// Whether a slot is open by one byte and struck by another.
fn closes(x: u8, y: u8) -> bool
    ensures { result ≡ (eqb x 255 && ltb y 64) }
{
    x == 255 && y < 64
}

// How many slots are open before and struck after. With the two exchanged, how many are reopened. They are slices, since one may be a part of the marks.
pub fn count_struck(before: &[u8], after: &[u8]) -> usize
    requires before_len { length before.now ≡ slots_length }
    requires after_len { length after.now ≡ slots_length }
    ensures { result ≡ struck_between before.now after.now }
{
    let mut n = 0;
    // by index, since this is vectorised and a filter's count is not
    for i in 0..SLOTS {
        n += usize::from(closes(before[i], after[i]));
    }
    n
}

#[derive(Clone, Copy)]
pub struct Changes {
    pub struck: usize,
    pub reopened: usize,
}

// The slots that bringing a mark back strikes and reopens.
pub fn changes_back(slots: &[u8; SLOTS], marks: &[u8; MARKS], name: usize) -> Changes
    requires { name < 2 }
    ensures { Between slots.now (marked_slots marks.now name) result }
{
    let start = MARK * name + ROWS + KILLERS;
    let end = start + SLOTS;
    let kept = &marks[start..end];
    let struck = count_struck(slots, kept);
    let reopened = count_struck(kept, slots);
    Changes { struck, reopened }
}
