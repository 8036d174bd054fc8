// The sheet program's work, from the input's bytes to the output's in a lent buffer: each command of the input is read and obeyed on a board that starts fresh,
// with a line for each; then come the lines of the board's calls and of the whole board, and the last line.
// Proved: what is written is the definition's bytes (model's specs/Sheet.antt), for every input, and no byte behind them is changed. Assumed: nothing.
#![tactic(auto)]

ghost use Rattle.std.specs.Prelude.{◌≤◌, length};
ghost use Rattle.sheet.specs.Promise.{SheetPromise};
ghost use Rattle.sheet.specs.File.{input_lines, Lined};
ghost use Rattle.sheet.specs.Bounds.{sheet_most};

use model::refusal::Refusal;

mod line; // the line of a command
mod advance; // one command of the input
mod file; // all of them, and the lines of the board

// The longest input that is read.
pub const INPUT: usize = 32768;

// The longest sheet: a line of at most 12 bytes for each byte of the input, 32 lines of calls of at most 91, one of 7 for the whole board, and the last line of 4.
pub const ROOM: usize = 12 * INPUT + 32 * 91 + 7 + 4;

// All lines but the last.
fn input_lines(input: &[u8], out: &mut [u8]) -> usize
    requires { sheet_most ≤ length out.old }
    ensures { Lined (input_lines input.now) out.old out.new result }
{
    if INPUT < input.len() {
        return line::refusal_line(out, 0, 0, Refusal::FileLength);
    }
    file::file_lines(input, out)
}

// Writes the sheet of the input to the start of the buffer: the length of what was written. A buffer that is too short for the longest sheet is refused.
pub fn sheet(input: &[u8], out: &mut [u8]) -> Result<usize, Refusal>
    ensures { SheetPromise input.now out.old result out.new }
{
    Refusal::BufferLength.when(out.len() < ROOM)?;
    let place = input_lines(input, out);
    Ok(sheet_lines::end_line(out, place))
}
