// The lines of an input that is not too long: those of its commands, one after another, and then those of the board.
ghost use Rattle.std.specs.Prelude.{length};
ghost use Rattle.model.specs.Ledger.{fresh};
ghost use Rattle.model.specs.Marks.{RepresentsMarked};
ghost use Rattle.sheet_lines.specs.Append.{Appended, Room};
ghost use Rattle.sheet.specs.Advance.{state_on};
ghost use Rattle.sheet.specs.File.{file_lines, counted_lines, Fits, Lined};
ghost use Rattle.sheet_lines.specs.Lengths.{board_lines_most};

use crate::advance::{Board, Progress, advance};
use layout::marks::MARKS;
use layout::names::MarkedValue;
use layout::value::{KILLERS, ROWS, SLOTS};

// The lines of the board, whose calls have these counts: at most 32 lines of 91 bytes, and one of 7 for the whole. Where there is no call there is no line.
fn board_lines(out: &mut [u8], place: usize, counts: &[u8; 32], slots: &[u8; SLOTS]) -> usize
    requires { Room place board_lines_most out.old }
    ensures { Appended (counted_lines counts.now slots.now) place out.old out.new result }
{
    let n = sheet_lines::call_count(counts);
    if n == 0 {
        return place;
    }
    let listed = sheet_lines::call_lines(out, place, slots, n);
    let total = summary_counts::figures::open_total(slots);
    sheet_lines::total_line(out, listed, total)
}

// On a board that is fresh. The loop goes by where the last command ended, which is in no range.
fn fresh_lines(board: &mut Board, input: &[u8], out: &mut [u8]) -> usize
    requires fits { Fits input.now out.old }
    requires represents_marked { RepresentsMarked fresh (state_on board.old) }
    ensures { Lined (file_lines input.now) out.old out.new result }
{
    let mut progress = Progress {
        read: 0,
        written: 0,
    };
    while progress.read < input.len() {
        progress = advance(board, progress, input, out);
    }
    board_lines(
        out,
        progress.written,
        &board.value.heads.counts,
        &board.slots,
    )
}

pub fn file_lines(input: &[u8], out: &mut [u8]) -> usize
    requires { Fits input.now out.old }
    ensures { Lined (file_lines input.now) out.old out.new result }
{
    let MarkedValue { value, names } = MarkedValue::fresh();
    let mut board = Board {
        value,
        names,
        rows: [255; ROWS],
        killers: [255; KILLERS],
        slots: [254; SLOTS],
        marks: [0; MARKS],
    };
    fresh_lines(&mut board, input, out)
}
