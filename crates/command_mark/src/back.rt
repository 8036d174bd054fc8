// Kind 8, back: the board that is kept under a name is brought back, with its causes and killers and without a draft. It stays kept.
ghost use Rattle.std.specs.Prelude.{◌≡◌, ◌<◌};
ghost use Rattle.layout.specs.Memory.{memory, marked_memory};
ghost use Rattle.model.specs.declared.command.Command.TheVariants as kind;
ghost use Rattle.command_mark.specs.Back.{PartsBack};
ghost use Rattle.command_mark.specs.Changes.{Few};
ghost use Rattle.command_mark.specs.Kinds.{back_outcome, BringsBack, MarkPromise};

use crate::changes::{Changes, changes_back};
use crate::check::check_back;
use crate::copy::read_part;
use layout::marks::{MARK, MARKS};
use layout::names::{NAMES, heads_under};
use layout::value::{Draft, Heads, KILLERS, ROWS, SLOTS, Value};
use model::answer::Outcome;

// The three parts of a mark into the buffers: every byte of them is written.
fn bring_back(
    marks: &[u8; MARKS],
    name: usize,
    rows: &mut [u8; ROWS],
    killers: &mut [u8; KILLERS],
    slots: &mut [u8; SLOTS],
)
    requires { name < 2 }
    ensures { PartsBack marks.now name rows.new killers.new slots.new }
{
    let start = MARK * name;
    read_part(rows, marks, start);
    read_part(killers, marks, start + ROWS);
    read_part(slots, marks, start + ROWS + KILLERS);
}

// Accepted with what is changed, on a board of these heads without a draft.
fn back_outcome(changes: Changes, heads: Heads) -> Outcome
    requires { Few changes }
    ensures { result ≡ back_outcome changes heads }
{
    let Changes { struck, reopened } = changes;
    let draft = Draft::empty();
    Outcome::accepted(struck, reopened, struck + reopened, Value { heads, draft })
}

// The board under the name is brought back, whatever stands there.
fn back_unchecked(
    names: &[u8; NAMES],
    name: u8,
    rows: &mut [u8; ROWS],
    killers: &mut [u8; KILLERS],
    slots: &mut [u8; SLOTS],
    marks: &[u8; MARKS],
) -> Outcome
    requires { name < 2 }
    ensures { BringsBack
        name names.now marks.now slots.old result.answer
        (memory result.value rows.new killers.new slots.new) }
{
    let place = usize::from(name);
    let heads = heads_under(names, place);
    let changes = changes_back(slots, marks, place);
    bring_back(marks, place, rows, killers, slots);
    back_outcome(changes, heads)
}

// The whole of kind 8: refused, and nothing is changed; or the board is brought back.
// In a frame of its own, for the stack.
#[inline(never)]
pub fn back_board(
    value: Value,
    names: &[u8; NAMES],
    name: u8,
    rows: &mut [u8; ROWS],
    killers: &mut [u8; KILLERS],
    slots: &mut [u8; SLOTS],
    marks: &[u8; MARKS],
) -> Outcome
    ensures { MarkPromise
        (kind.Back name) (marked_memory value names.now rows.old killers.old slots.old marks.now) result.answer
        (marked_memory result.value names.now rows.new killers.new slots.new marks.now) }
{
    if let Err(refusal) = check_back(&value.heads.counts, names, name) {
        return Outcome::refused(refusal, value);
    }
    back_unchecked(names, name, rows, killers, slots, marks)
}
