// Commands that have been read: each is obeyed by the function of its kind.
// Proved: what the kind answers and leaves is what specs/Promise.antt of the crate model says. Assumed: nothing.
#![tactic(auto)]

ghost use Rattle.command_obey.specs.Obeys.{Obeys, MakesAnew};
ghost use Rattle.layout.specs.Memory.{memory, marked_memory};

use command_board::new_board::make_board;
use command_cancel::cancel::cancel_call;
use command_draft::head::start_draft;
use command_draft::row::add_row;
use command_gap::gap::draft_gap;
use command_mark::back::back_board;
use command_mark::keep::keep_board;
use command_rules::post::post;
use command_rules::retract::retract;
use layout::marks::MARKS;
use layout::names::{NAMES, forget};
use layout::value::{KILLERS, ROWS, SLOTS, Value};
use model::answer::Outcome;
use model::command::Command;

// Kind 1 with the names: where it is accepted both are forgotten.
// In a frame of its own, for the stack.
#[inline(never)]
fn make_anew(
    value: Value,
    names: &mut [u8; NAMES],
    counts: [u8; 32],
    rows: &mut [u8; ROWS],
    killers: &mut [u8; KILLERS],
    slots: &mut [u8; SLOTS],
) -> Outcome
    ensures { MakesAnew
        counts (memory value rows.old killers.old slots.old) names.old result.answer
        (memory result.value rows.new killers.new slots.new) names.new }
{
    let outcome = make_board(value, counts, rows, killers, slots);
    if outcome.answer.is_ok() {
        forget(names);
    }
    outcome
}

// The counts are those that stand beside a kind 1.
pub fn obey(
    value: Value,
    names: &mut [u8; NAMES],
    command: Command,
    counts: [u8; 32],
    rows: &mut [u8; ROWS],
    killers: &mut [u8; KILLERS],
    slots: &mut [u8; SLOTS],
    marks: &mut [u8; MARKS],
) -> Outcome
    ensures { Obeys
        (marked_memory value names.old rows.old killers.old slots.old marks.old) command counts result.answer
        (marked_memory result.value names.new rows.new killers.new slots.new marks.new) }
{
    match command {
        Command::Board => make_anew(value, names, counts, rows, killers, slots),
        Command::Head(head) => start_draft(value, head, slots),
        Command::Row(row) => add_row(value, row),
        Command::Post => post(value, rows, killers, slots),
        Command::Retract(number) => retract(value, number, rows, killers, slots),
        Command::Gap(f) => draft_gap(value, f, slots),
        Command::Keep(name) => keep_board(value, names, name, rows, killers, slots, marks),
        Command::Back(name) => back_board(value, names, name, rows, killers, slots, marks),
        Command::Cancel(call) => cancel_call(value, call, rows, killers, slots),
    }
}
