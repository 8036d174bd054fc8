// The sheet program: reads commands from standard input and writes their sheet to standard output. The work is the crate sheet's. What cannot be read or written
// is said on standard error, and the exit status is then 1; the sheet's last line shows that it is whole.
// Proved: it is safe and ends, and of a reader and a writer whose bytes are known, it writes the sheet of what it read. What standard input gives is not known to a
// contract: there it is tested.
// Assumed: what the library says of the calls that read and write.
#![tactic(auto)]

ghost use Rattle.std.specs.Prelude.{OnOk, IfSome};
ghost use Rattle.std.specs.Io.{ReadsAtMost};
ghost use Rattle.std.specs.Io.KnownBytes.{Appends};
ghost use Rattle.model.specs.Sheet.{sheet_of};
ghost use Rattle.berthsheet.specs.Streams.{ReadsFull};

use std::io;
use std::io::{Read, Write};
use std::process::ExitCode;

// Reads until the buffer is full or the input ends: how many bytes. Each read but the last gives one or more, so there are no more of them than bytes.
fn read_full<R: Read>(input: &mut R, bytes: &mut [u8]) -> io::Result<usize>
    ensures bound { ReadsAtMost result bytes.new }
    ensures bytes { ReadsFull (R.remaining input.old) (R.remaining input.new) result bytes.new }
{
    let mut n = 0;
    for _ in 0..bytes.len() {
        let read = input.read(&mut bytes[n..])?;
        if read == 0 {
            break;
        }
        n += read;
    }
    Ok(n)
}

// What failed: a stream, and why; or the buffer, which is as long as the longest sheet, so that it never is.
#[derive(Drop)]
enum Failure {
    Input(io::Error),
    Output(io::Error),
    Room,
}

// Writes the sheet of all that the reader has, and nothing else.
fn write_sheet<R: Read, W: Write>(input: &mut R, output: &mut W) -> Result<(), Failure>
    ensures { OnOk result (IfSome (R.remaining input.old) (λ bytes. Appends (W.contents output.old) (W.contents output.new) (sheet_of bytes))) }
{
    // one byte more than the longest input, so that a longer one is told apart
    let mut bytes = [0u8; sheet::INPUT + 1];
    let mut out = [0u8; sheet::ROOM];
    let n = match read_full(input, &mut bytes) {
        Ok(n) => n,
        Err(why) => return Err(Failure::Input(why)),
    };
    let Ok(m) = sheet::sheet(&bytes[..n], &mut out) else {
        return Err(Failure::Room);
    };
    match output.write_all(&out[..m]) {
        Ok(()) => Ok(()),
        Err(why) => Err(Failure::Output(why)),
    }
}

// Says what failed, and why.
fn failed(rt: &impl Eprint, what: &str, why: io::Error) -> ExitCode {
    let _ = eprintln!(rt; "berthsheet: {what}: {why}");
    ExitCode::FAILURE
}

fn main(rt: HostRuntime) -> ExitCode {
    match write_sheet(&mut rt.stdin(), &mut rt.stdout()) {
        Ok(()) => ExitCode::SUCCESS,
        Err(Failure::Input(why)) => failed(&rt, "standard input", why),
        Err(Failure::Output(why)) => failed(&rt, "standard output", why),
        Err(Failure::Room) => ExitCode::FAILURE,
    }
}
