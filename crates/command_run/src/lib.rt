// A command on value and buffers, and the records that it leaves for the table. The table itself is not here: its length is a number, so that 22 is decided with the
// other refusals, and the records are handed on by value, where there are any to store.
// Proved: what a command answers and leaves, with its records stored into any table of that length, is what specs/Promise.antt of the crate model says. Assumed: nothing.
#![tactic(auto)]

ghost use Rattle.std.specs.Prelude.{◌≡◌, ◌≢◌, length, MatchOption};
ghost use Rattle.std.specs.Borrow.{sem};
ghost use Rattle.std.specs.Array.{IsWholeChunk};
ghost use Rattle.model.specs.Commands.{read_at};
ghost use Rattle.model.specs.Ledger.{lengths};
ghost use Rattle.model.specs.Promise.{MemoryPromise, Promise};
ghost use Rattle.layout.specs.Memory.{marked_memory, whole_of};
ghost use Rattle.layout.specs.Sizes.{marks_length};
ghost use Rattle.command_run.specs.Lent.{LendsMarks};
ghost use Rattle.command_run.specs.Store.{Stores, WithRecords, none_to_store};

use command_decode::decode;
use command_obey::obey;
use layout::marks::MARKS;
use layout::names::NAMES;
use layout::summary::{RECORDS, Table};
use layout::value::{KILLERS, ROWS, SLOTS, Value};
use model::answer::Outcome;
use model::command::{Decoded, Read};
use model::refusal::Refusal;
use summary_counts::records::table_of;

// What is left of a command: its outcome, and the records that are to be stored, where there are any.
#[derive(Clone, Copy)]
pub struct Done {
    pub outcome: Outcome,
    pub table: Option<Table>,
}

// What was read at the first byte is refused by its form, or obeyed.
fn obey_read(
    value: Value,
    names: &mut [u8; NAMES],
    decoded: Decoded,
    bytes: &[u8],
    rows: &mut [u8; ROWS],
    killers: &mut [u8; KILLERS],
    slots: &mut [u8; SLOTS],
    marks: &mut [u8; MARKS],
) -> Outcome
    requires { decoded ≡ read_at bytes.now 0 }
    ensures { MemoryPromise lengths
        (marked_memory value names.old rows.old killers.old slots.old marks.old) bytes.now
        result.answer (marked_memory result.value names.new rows.new killers.new slots.new marks.new) }
{
    match decoded.read {
        Read::Command(c) => {
            if decoded.next < bytes.len() {
                Outcome::refused(Refusal::BodyLength, value)
            } else {
                obey(value, names, c, decoded.counts, rows, killers, slots, marks)
            }
        }
        Read::Refused(_, refusal) => Outcome::refused(refusal, value),
        Read::End => Outcome::refused(Refusal::UnknownKind, value),
    }
}

// The command on buffers of the right lengths.
pub fn obey_bytes(
    value: Value,
    names: &mut [u8; NAMES],
    bytes: &[u8],
    rows: &mut [u8; ROWS],
    killers: &mut [u8; KILLERS],
    slots: &mut [u8; SLOTS],
    marks: &mut [u8; MARKS],
) -> Outcome
    ensures { MemoryPromise lengths
        (marked_memory value names.old rows.old killers.old slots.old marks.old) bytes.now
        result.answer (marked_memory result.value names.new rows.new killers.new slots.new marks.new) }
{
    let decoded = decode(bytes, 0);
    obey_read(value, names, decoded, bytes, rows, killers, slots, marks)
}

// Nothing is to be stored.
pub fn none_to_store(outcome: Outcome) -> Done
    ensures { result ≡ none_to_store outcome }
{
    Done {
        outcome,
        table: None,
    }
}

// The records of the heads that are left and of the slot bytes, where the command was accepted.
pub fn with_records(outcome: Outcome, slots: &[u8; SLOTS]) -> Done
    ensures { WithRecords outcome slots.now result }
{
    match outcome.answer {
        Ok(_) => Done {
            outcome,
            table: Some(table_of(&outcome.value.heads, slots)),
        },
        Err(_) => none_to_store(outcome),
    }
}

// The marks as an array, where they have their length. A command and a replay are lent them alike.
pub fn marks_array(marks: &mut [u8]) -> Option<&mut [u8; MARKS]>
    ensures cases { MatchOption result (length marks.old ≢ marks_length) (λ y. IsWholeChunk marks.old y.now marks_length) }
    ensures* writes_back { sem 𝓛 (LendsMarks marks.entry result) }
{
    marks.as_mut_array::<MARKS>()
}

// The command with a table of n records.
pub fn command_core(
    value: Value,
    names: &mut [u8; NAMES],
    bytes: &[u8],
    rows: &mut [u8],
    killers: &mut [u8],
    slots: &mut [u8],
    marks: &mut [u8],
    n: usize,
) -> Done
    ensures { Stores
        (λ old new. Promise
        (whole_of (marked_memory value names.old rows.old killers.old slots.old marks.old) old) bytes.now result.outcome.answer
        (whole_of (marked_memory result.outcome.value names.new rows.new killers.new slots.new marks.new) new))
        n result.table }
{
    let Some(rows) = rows.as_mut_array::<ROWS>() else {
        return none_to_store(Outcome::refused(Refusal::BufferLength, value));
    };
    let Some(killers) = killers.as_mut_array::<KILLERS>() else {
        return none_to_store(Outcome::refused(Refusal::BufferLength, value));
    };
    let Some(slots) = slots.as_mut_array::<SLOTS>() else {
        return none_to_store(Outcome::refused(Refusal::BufferLength, value));
    };
    let Some(marks) = marks_array(marks) else {
        return none_to_store(Outcome::refused(Refusal::BufferLength, value));
    };
    if n != RECORDS {
        return none_to_store(Outcome::refused(Refusal::TableLength, value));
    }
    let outcome = obey_bytes(value, names, bytes, rows, killers, slots, marks);
    with_records(outcome, slots)
}
