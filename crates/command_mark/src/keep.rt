// Kind 7, mark: the board is kept under a name. Value and buffers stay as they were, and so does the draft.
ghost use Rattle.std.specs.Prelude.{◌≡◌, ◌<◌};
ghost use Rattle.layout.specs.Marks.{with_mark};
ghost use Rattle.layout.specs.Memory.{marked_memory};
ghost use Rattle.model.specs.declared.command.Command.TheVariants as kind;
ghost use Rattle.command_mark.specs.Kinds.{KeepsBoard, MarkPromise};

use crate::check::check_keep;
use crate::copy::write_part;
use layout::marks::{MARK, MARKS};
use layout::names::{NAMES, store_name};
use layout::value::{KILLERS, ROWS, SLOTS, Value};
use model::answer::Outcome;

// The buffers of a board into a mark: every byte of it is written, and no other.
fn keep(
    marks: &mut [u8; MARKS],
    name: usize,
    rows: &[u8; ROWS],
    killers: &[u8; KILLERS],
    slots: &[u8; SLOTS],
)
    requires { name < 2 }
    ensures { marks.new ≡ with_mark marks.old name rows.now killers.now slots.now }
{
    let start = MARK * name;
    write_part(marks, start, rows);
    write_part(marks, start + ROWS, killers);
    write_part(marks, start + ROWS + KILLERS, slots);
}

// The board is kept under the name, whatever stands there.
fn keep_unchecked(
    value: Value,
    names: &mut [u8; NAMES],
    name: u8,
    rows: &[u8; ROWS],
    killers: &[u8; KILLERS],
    slots: &[u8; SLOTS],
    marks: &mut [u8; MARKS],
) -> Outcome
    requires { name < 2 }
    ensures { KeepsBoard
        name (marked_memory value names.old rows.now killers.now slots.now marks.old) result.answer
        (marked_memory result.value names.new rows.now killers.now slots.now marks.new) }
{
    let place = usize::from(name);
    keep(marks, place, rows, killers, slots);
    store_name(names, place, 1, value.heads);
    Outcome::accepted(0, 0, 0, value)
}

// The whole of kind 7: refused, and nothing is changed; or the board is kept.
// In a frame of its own, for the stack.
#[inline(never)]
pub fn keep_board(
    value: Value,
    names: &mut [u8; NAMES],
    name: u8,
    rows: &[u8; ROWS],
    killers: &[u8; KILLERS],
    slots: &[u8; SLOTS],
    marks: &mut [u8; MARKS],
) -> Outcome
    ensures { MarkPromise
        (kind.Keep name) (marked_memory value names.old rows.now killers.now slots.now marks.old) result.answer
        (marked_memory result.value names.new rows.now killers.now slots.now marks.new) }
{
    if let Err(refusal) = check_keep(&value.heads.counts, name) {
        return Outcome::refused(refusal, value);
    }
    keep_unchecked(value, names, name, rows, killers, slots, marks)
}
