// THE ENTRIES: any bytes as a command, on any value, any buffers and any summary table; a file of commands, replayed on a board that is made fresh in any memory; and
// the seven questions, which the crates questions, plan_check and plan_lay have. The types that they take and answer with are handed on too.
// Proved: what the command entry answers and leaves is what specs/Promise.antt of the crate model says, and what a file leaves stands after a list of such commands,
// of which specs/Laws/Demands.antt has demand 3. Assumed: nothing.
#![tactic(auto)]

ghost use Rattle.std.specs.Prelude.{◌≡◌, length};
ghost use Rattle.model.specs.Promise.{Promise};
ghost use Rattle.layout.specs.Memory.{marked_memory, whole_of};
ghost use Rattle.command_file.specs.Replay.{ReplayPromise};
ghost use Rattle.model.specs.Refusals.{number_of};
ghost use Rattle.command_run.specs.Store.{Storable, stored};

pub use command_file::Replayed;
use command_file::replay_core;
use command_run::command_core;
pub use layout::names::MarkedValue;
use layout::names::NAMES;
pub use layout::summary::Summary;
use layout::summary::{RECORDS, Table};
pub use layout::value::Value;
pub use model::answer::{OpenSlots, Outcome, Report, RowState, SlotState};
pub use model::refusal::Refusal;
pub use plan_check::check_plan;
pub use plan_lay::first_plan;
pub use plan_search::answer::FirstPlan;
pub use questions::{open_slots, row_bytes, row_state, slot_state, support};
use summary_store::store_records;

// The records, where there are any, are stored.
fn store(table: &mut [Summary], records: Option<Table>)
    requires { Storable records (length table.old) }
    ensures { table.new ≡ stored records table.old }
{
    if let Some(records) = records {
        store_records(table, records, RECORDS);
    }
}

// Refused, and the value, the names, all buffers and the table are as they were; or accepted, and they are those of the board after the command, the table whatever it
// held. A buffer that does not have its length (SCOPE 2), the marks among them, is refused 1 and a table that does not have 32 records 22; no byte at all is refused 3,
// and bytes left over after the command 4.
pub fn command(
    value: Value,
    names: &mut [u8; NAMES],
    bytes: &[u8],
    rows: &mut [u8],
    killers: &mut [u8],
    slots: &mut [u8],
    marks: &mut [u8],
    table: &mut [Summary],
) -> Outcome
    ensures { Promise
        (whole_of (marked_memory value names.old rows.old killers.old slots.old marks.old) table.old) bytes.now result.answer
        (whole_of (marked_memory result.value names.new rows.new killers.new slots.new marks.new) table.new) }
{
    let n = table.len();
    let done = command_core(value, names, bytes, rows, killers, slots, marks, n);
    store(table, done.table);
    done.outcome
}

// Refused 1, 22 or 2, and the value, the names, all buffers and the table are as they were; or the board is made fresh, whatever the memory held but for the marks' bytes,
// and the file's commands are run on it. A file without commands leaves the fresh board.
pub fn replay(
    value: Value,
    names: &mut [u8; NAMES],
    file: &[u8],
    rows: &mut [u8],
    killers: &mut [u8],
    slots: &mut [u8],
    marks: &mut [u8],
    table: &mut [Summary],
) -> Replayed
    ensures { ReplayPromise
        (whole_of (marked_memory value names.old rows.old killers.old slots.old marks.old) table.old) file.now (number_of result.ended) result.ran
        (whole_of (marked_memory result.value names.new rows.new killers.new slots.new marks.new) table.new) }
{
    let n = table.len();
    let done = replay_core(value, names, file, rows, killers, slots, marks, n);
    store(table, done.table);
    done.replayed
}
