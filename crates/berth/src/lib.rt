// The board for hosts in C and Rust: the entries and the seven questions under their C names. What a host holds beside the buffers is a plain C struct of two parts, the
// board's value and the names of the marks. Both are lent by pointer to the two functions that write them; the questions are handed the board's value by value. The
// summary table is a slice of C structs. hosts/berth.h says the same for C, and two numbers tell a host whether its header is this library's.
// Proved: each reply hands on an answer that keeps its promise of the model's specs, on any value and any buffers. Assumed: nothing here; of a host, that a
// lent pointer reaches as far as its length says, and that nothing lent to one call overlaps.
#![tactic(auto)]

ghost use Rattle.std.specs.Prelude.{◌≡◌};
ghost use Rattle.model.specs.Questions.{SlotsPromise, StatePromise, RowPromise, SupportPromise};
ghost use Rattle.plan_model.specs.Check.{PlanPromise};
ghost use Rattle.plan_search.specs.First.{FirstPromise};
ghost use Rattle.berth_reply.specs.Replies.{Replied, CommandReplied, ReplayReplied, PlaceReplied, slots_reply, state_reply, row_reply, support_reply, plan_reply, first_reply};
ghost use Rattle.layout.specs.Names.{fresh_marked};
ghost use Rattle.layout.specs.Memory.{memory, marked_memory, whole_of};
ghost use Rattle.berth.specs.Version.{interface_version, value_size};

use berth_reply::{
    CommandReply, FirstReply, PlaceReply, PlanReply, ReplayReply, RowReply, SlotsReply, StateReply,
    SupportReply,
};
use layout::names::{MarkedValue, NAMES};
use layout::summary::Summary;
use layout::value::Value;

// A host compares these two with what its header says. They take and return plain numbers, so that a host of any version can ask.
const VERSION: u32 = 11;

// The bytes of `MarkedValue`: 416 of the heads, 263 of the draft, and 834 of the names.
const VALUE_SIZE: usize = 1513;

#[unsafe(no_mangle)]
pub extern "C" fn berth_version() -> u32
    ensures { result ≡ interface_version }
{
    VERSION
}

#[unsafe(no_mangle)]
pub extern "C" fn berth_value_size() -> usize
    ensures { result ≡ value_size }
{
    VALUE_SIZE
}

// All that is held beside the buffers, before the first command.
#[unsafe(no_mangle)]
pub extern "C" fn berth_fresh() -> MarkedValue
    ensures { result ≡ fresh_marked }
{
    MarkedValue::fresh()
}

// A command. Value, names, buffers and table are written in place, and stay as they were where the command is refused.
#[unsafe(no_mangle)]
pub extern "C" fn berth_command(
    value: &mut Value,
    names: &mut [u8; NAMES],
    bytes: &[u8],
    rows: &mut [u8],
    killers: &mut [u8],
    slots: &mut [u8],
    marks: &mut [u8],
    table: &mut [Summary],
) -> CommandReply
    ensures { CommandReplied
        bytes.now (whole_of (marked_memory value.old names.old rows.old killers.old slots.old marks.old) table.old)
        result (whole_of (marked_memory value.new names.new rows.new killers.new slots.new marks.new) table.new) }
{
    let outcome = board::command(*value, names, bytes, rows, killers, slots, marks, table);
    *value = outcome.value;
    outcome.into()
}

// The memory becomes a fresh board's, whatever it held, and the commands of a file are run on it; a file without bytes leaves the fresh board. All of it is written in
// place, and stays as it was where the file is refused.
#[unsafe(no_mangle)]
pub extern "C" fn berth_replay(
    value: &mut Value,
    names: &mut [u8; NAMES],
    file: &[u8],
    rows: &mut [u8],
    killers: &mut [u8],
    slots: &mut [u8],
    marks: &mut [u8],
    table: &mut [Summary],
) -> ReplayReply
    ensures { ReplayReplied
        file.now (whole_of (marked_memory value.old names.old rows.old killers.old slots.old marks.old) table.old) result
        (whole_of (marked_memory value.new names.new rows.new killers.new slots.new marks.new) table.new) }
{
    let replayed = board::replay(*value, names, file, rows, killers, slots, marks, table);
    *value = replayed.value;
    replayed.into()
}

// The mask of a call's open slots, with the number of its ones.
#[unsafe(no_mangle)]
pub extern "C" fn berth_open_slots(
    value: Value,
    rows: &[u8],
    killers: &[u8],
    slots: &[u8],
    call: u8,
) -> SlotsReply
    ensures { Replied (SlotsPromise (memory value rows.now killers.now slots.now) call) slots_reply result }
{
    questions::open_slots(value, rows, killers, slots, call).into()
}

// Open, struck with its cause, or of a cancelled call.
#[unsafe(no_mangle)]
pub extern "C" fn berth_slot_state(
    value: Value,
    rows: &[u8],
    killers: &[u8],
    slots: &[u8],
    call: u8,
    slot: u8,
) -> StateReply
    ensures { Replied (StatePromise (memory value rows.now killers.now slots.now) call slot) state_reply result }
{
    questions::slot_state(value, rows, killers, slots, call, slot).into()
}

// Alive, or its killer's column.
#[unsafe(no_mangle)]
pub extern "C" fn berth_row_state(
    value: Value,
    rows: &[u8],
    killers: &[u8],
    slots: &[u8],
    rule: u8,
    row: u8,
) -> RowReply
    ensures { Replied (RowPromise (memory value rows.now killers.now slots.now) rule row) row_reply result }
{
    questions::row_state(value, rows, killers, slots, rule, row).into()
}

// Where the row's four bytes stand in the lent row buffer: no byte of it where `berth_row_state` refuses.
#[unsafe(no_mangle)]
pub extern "C" fn berth_row_place(
    value: Value,
    rows: &[u8],
    killers: &[u8],
    slots: &[u8],
    rule: u8,
    row: u8,
) -> PlaceReply
    ensures { PlaceReplied (memory value rows.now killers.now slots.now) rule row result }
{
    let part = questions::row_bytes(value, rows, killers, slots, rule, row);
    berth_reply::of_row_bytes(part.len(), rule, row)
}

// The lowest living row that holds the slot in the rule's column, or none.
#[unsafe(no_mangle)]
pub extern "C" fn berth_support(
    value: Value,
    rows: &[u8],
    killers: &[u8],
    slots: &[u8],
    rule: u8,
    column: u8,
    slot: u8,
) -> SupportReply
    ensures { Replied
        (SupportPromise (memory value rows.now killers.now slots.now) rule column slot)
        support_reply result }
{
    questions::support(value, rows, killers, slots, rule, column, slot).into()
}

// Whether a plan of 32 bytes keeps every rule in force; where it does not, the lowest of the broken rules.
#[unsafe(no_mangle)]
pub extern "C" fn berth_check_plan(
    value: Value,
    rows: &[u8],
    killers: &[u8],
    slots: &[u8],
    plan: &[u8],
) -> PlanReply
    ensures { Replied (PlanPromise (memory value rows.now killers.now slots.now) plan.now) plan_reply result }
{
    plan_check::check_plan(value, rows, killers, slots, plan).into()
}

// The first full plan with the trials of the search; that there is none; or that the search needs more trials than the ceiling.
#[unsafe(no_mangle)]
pub extern "C" fn berth_first_plan(
    value: Value,
    rows: &[u8],
    killers: &[u8],
    slots: &[u8],
    ceiling: u32,
) -> FirstReply
    ensures { Replied (FirstPromise (memory value rows.now killers.now slots.now) ceiling) first_reply result }
{
    plan_lay::first_plan(value, rows, killers, slots, ceiling).into()
}
