// A file of commands is replayed on a fresh board: each is obeyed as the command entry does, up to the file's end or the first that cannot be read. The records of the
// table are counted once, at the end.
// Proved: what is left stands after the list of the file's commands, each entered as the command entry promises it, and how the file ended is told (specs/Replay.antt); or
// the file is refused and nothing is changed. Assumed: nothing.
#![tactic(auto)]

ghost use Rattle.std.specs.Prelude.{◌≡◌};
ghost use Rattle.layout.specs.Memory.{marked_memory, whole_of};
ghost use Rattle.model.specs.Refusals.{number_of};
ghost use Rattle.command_run.specs.Store.{Stores};
ghost use Rattle.command_file.specs.Replay.{FreshBuffers, ReplayPromise, IsFresh, InFile, ended_at, Taken, FileTaken, FileCounted, none_replayed};

use command_decode::decode;
use command_run::{marks_array, obey_bytes};
use layout::marks::MARKS;
use layout::names::{NAMES, forget};
use layout::summary::{RECORDS, Table};
use layout::value::{KILLERS, ROWS, SLOTS, Value};
use model::command::Read;
use model::refusal::Refusal;
use summary_counts::records::table_of;

// The longest file that is read.
const FILE: usize = 32768;

#[derive(Clone, Copy)]
pub struct Replayed {
    // the value that is left beside the buffers
    pub value: Value,
    // so many commands were run, those among them that were refused
    pub ran: usize,
    // refused 1, 22 or 2 where nothing was run; else 3 or 4 where the file ended so
    pub ended: Result<(), Refusal>,
}

// How far the file has been taken.
#[derive(Clone, Copy)]
pub struct Position {
    pub value: Value,
    // the place to read at next
    pub at: usize,
    pub ran: usize,
    // refused where the file ended by 3 or 4
    pub ended: Result<(), Refusal>,
}

// What is left of a file, and the records that are to be stored, where there are any.
#[derive(Clone, Copy)]
pub struct ReplayDone {
    pub replayed: Replayed,
    pub table: Option<Table>,
}

// Every byte of the three buffers, whatever they held.
fn fill_fresh(rows: &mut [u8; ROWS], killers: &mut [u8; KILLERS], slots: &mut [u8; SLOTS])
    ensures { FreshBuffers rows.new killers.new slots.new }
{
    rows.fill(255);
    killers.fill(255);
    slots.fill(254);
}

// The file has ended: nothing more of it is read.
fn end_at(position: &mut Position, end: usize, ended: Result<(), Refusal>)
    ensures { position.new ≡ ended_at position.old end ended }
{
    position.at = end;
    position.ended = ended;
}

// What stands at the place: a command is run, and anything else ends the file.
fn take_next(
    position: &mut Position,
    names: &mut [u8; NAMES],
    file: &[u8],
    rows: &mut [u8; ROWS],
    killers: &mut [u8; KILLERS],
    slots: &mut [u8; SLOTS],
    marks: &mut [u8; MARKS],
)
    requires { InFile file.now position.old }
    ensures { Taken
        file.now position.old (marked_memory position.old.value names.old rows.old killers.old slots.old marks.old) position.new
        (marked_memory position.new.value names.new rows.new killers.new slots.new marks.new) }
{
    let decoded = decode(file, position.at);
    let next = decoded.next;
    match decoded.read {
        Read::Command(_) => {
            let bytes = &file[position.at..next];
            let outcome = obey_bytes(position.value, names, bytes, rows, killers, slots, marks);
            position.value = outcome.value;
            position.at = next;
            position.ran += 1;
            position.ended = Ok(());
        }
        Read::Refused(_, refusal) => end_at(position, file.len(), Err(refusal)),
        Read::End => end_at(position, file.len(), Ok(())),
    }
}

// On a value and buffers that are fresh. The loop goes by where the last command ended, which is in no range.
fn take_all(
    value: Value,
    names: &mut [u8; NAMES],
    file: &[u8],
    rows: &mut [u8; ROWS],
    killers: &mut [u8; KILLERS],
    slots: &mut [u8; SLOTS],
    marks: &mut [u8; MARKS],
) -> Replayed
    requires { IsFresh marks.old (marked_memory value names.old rows.old killers.old slots.old marks.old) }
    ensures { FileTaken
        marks.old file.now (number_of result.ended) result.ran (marked_memory result.value names.new rows.new killers.new slots.new marks.new) }
{
    let mut position = Position {
        value,
        at: 0,
        ran: 0,
        ended: Ok(()),
    };
    while position.at < file.len() {
        take_next(&mut position, names, file, rows, killers, slots, marks);
    }
    let Position {
        value,
        ran,
        ended,
        ..
    } = position;
    Replayed { value, ran, ended }
}

// The board is made fresh, whatever the memory held, the file's commands are run on it, and the records are counted.
fn run_file(
    names: &mut [u8; NAMES],
    file: &[u8],
    rows: &mut [u8; ROWS],
    killers: &mut [u8; KILLERS],
    slots: &mut [u8; SLOTS],
    marks: &mut [u8; MARKS],
) -> (Replayed, Table)
    ensures { FileCounted
        marks.old file.now (number_of result.0.ended) result.0.ran
        (whole_of (marked_memory result.0.value names.new rows.new killers.new slots.new marks.new) result.1.records) }
{
    fill_fresh(rows, killers, slots);
    forget(names);
    let replayed = take_all(Value::fresh(), names, file, rows, killers, slots, marks);
    let table = table_of(&replayed.value.heads, slots);
    (replayed, table)
}

// A file that is refused: nothing was run, and nothing is to be stored.
// In a frame of its own, for the stack.
#[inline(never)]
fn refused(refusal: Refusal, value: Value) -> ReplayDone
    ensures { result ≡ none_replayed refusal value }
{
    ReplayDone {
        replayed: Replayed {
            value,
            ran: 0,
            ended: Err(refusal),
        },
        table: None,
    }
}

// The file on buffers of the right lengths, with a table of n records.
fn replay_buffers(
    value: Value,
    names: &mut [u8; NAMES],
    file: &[u8],
    rows: &mut [u8; ROWS],
    killers: &mut [u8; KILLERS],
    slots: &mut [u8; SLOTS],
    marks: &mut [u8; MARKS],
    n: usize,
) -> ReplayDone
    ensures { Stores
        (λ old new. ReplayPromise
        (whole_of (marked_memory value names.old rows.old killers.old slots.old marks.old) old) file.now (number_of result.replayed.ended) result.replayed.ran
        (whole_of (marked_memory result.replayed.value names.new rows.new killers.new slots.new marks.new) new))
        n result.table }
{
    if n != RECORDS {
        return refused(Refusal::TableLength, value);
    }
    if FILE < file.len() {
        return refused(Refusal::FileLength, value);
    }
    let (replayed, table) = run_file(names, file, rows, killers, slots, marks);
    ReplayDone {
        replayed,
        table: Some(table),
    }
}

// The file with a table of n records.
pub fn replay_core(
    value: Value,
    names: &mut [u8; NAMES],
    file: &[u8],
    rows: &mut [u8],
    killers: &mut [u8],
    slots: &mut [u8],
    marks: &mut [u8],
    n: usize,
) -> ReplayDone
    ensures { Stores
        (λ old new. ReplayPromise
        (whole_of (marked_memory value names.old rows.old killers.old slots.old marks.old) old) file.now (number_of result.replayed.ended) result.replayed.ran
        (whole_of (marked_memory result.replayed.value names.new rows.new killers.new slots.new marks.new) new))
        n result.table }
{
    let Some(rows) = rows.as_mut_array::<ROWS>() else {
        return refused(Refusal::BufferLength, value);
    };
    let Some(killers) = killers.as_mut_array::<KILLERS>() else {
        return refused(Refusal::BufferLength, value);
    };
    let Some(slots) = slots.as_mut_array::<SLOTS>() else {
        return refused(Refusal::BufferLength, value);
    };
    let Some(marks) = marks_array(marks) else {
        return refused(Refusal::BufferLength, value);
    };
    replay_buffers(value, names, file, rows, killers, slots, marks, n)
}
