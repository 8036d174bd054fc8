// One round over the input: what stands at a place is read and obeyed, and its line is written.
ghost use Rattle.std.specs.Prelude.{length};
ghost use Rattle.model.specs.Commands.{read_at};
ghost use Rattle.sheet_lines.specs.Append.{Room};
ghost use Rattle.sheet.specs.Advance.{state_on, Held, CommandAdvanced, Advanced};
ghost use Rattle.sheet_lines.specs.Lengths.{line_most};

use crate::line::{answer_line, refusal_line};
use layout::marks::MARKS;
use layout::names::NAMES;
use layout::value::{KILLERS, ROWS, SLOTS, Value};
use model::command::{Command, Decoded, Read};

// The board that the commands are obeyed on: its value and its bytes, and those of its marks.
#[derive(Drop)]
pub struct Board {
    pub value: Value,
    pub names: [u8; NAMES],
    pub rows: [u8; ROWS],
    pub killers: [u8; KILLERS],
    pub slots: [u8; SLOTS],
    pub marks: [u8; MARKS],
}

// How far the sheet has come.
#[derive(Clone, Copy)]
pub struct Progress {
    // so many bytes of the input are read
    pub read: usize,
    // so many bytes of the sheet are written
    pub written: usize,
}

// A command that was read is obeyed, and its line is written.
fn advance_command(
    board: &mut Board,
    progress: Progress,
    command: Command,
    decoded: Decoded,
    out: &mut [u8],
) -> Progress
    requires held { Held (state_on board.old) }
    requires room { Room progress.written line_most out.old }
    ensures { CommandAdvanced
        command decoded progress (state_on board.old) out.old result (state_on board.new) out.new }
{
    let outcome = command_obey::obey(
        board.value,
        &mut board.names,
        command,
        decoded.counts,
        &mut board.rows,
        &mut board.killers,
        &mut board.slots,
        &mut board.marks,
    );
    let written = answer_line(out, progress.written, command, outcome.answer);
    board.value = outcome.value;
    Progress {
        read: decoded.next,
        written,
    }
}

// A refusal 3 or 4 counts the rest of the input as read: nothing after it is looked at.
pub fn advance(board: &mut Board, progress: Progress, input: &[u8], out: &mut [u8]) -> Progress
    requires held { Held (state_on board.old) }
    requires room { Room progress.written line_most out.old }
    ensures { Advanced
        (read_at input.now progress.read) (length input.now) progress (state_on board.old) out.old result (state_on board.new) out.new }
{
    let decoded = command_decode::decode(input, progress.read);
    match decoded.read {
        Read::Command(command) => advance_command(board, progress, command, decoded, out),
        Read::Refused(kind, refusal) => {
            let written = refusal_line(out, progress.written, kind, refusal);
            Progress {
                read: input.len(),
                written,
            }
        }
        Read::End => Progress {
            read: input.len(),
            written: progress.written,
        },
    }
}
