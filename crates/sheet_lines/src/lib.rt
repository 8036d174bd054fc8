// The lines of the sheet, written one after another into a lent buffer. Each function is given the place to write at, asks for room for just what it
// writes, and returns the place after it. A struct of the buffer and the place would need one more clause in each contract: that it still holds the same buffer.
// Proved: what is written is the definition's bytes, and every other byte is as it was. Assumed: nothing.
#![tactic(auto)]

ghost use Rattle.std.specs.Prelude.{◌≡◌, [], ◌∷◌, ◌≤◌, ◌<◌, length};
ghost use Rattle.model.specs.Ledger.{up_to_zero};
ghost use Rattle.model.specs.Sheet.{decimal, spaced, accepted_line, refused_line, total_line, end_line};
ghost use Rattle.sheet_lines.specs.Append.{Appended, Room};
ghost use Rattle.sheet_lines.specs.Joined.{joined};
ghost use Rattle.sheet_lines.specs.Digits.{digit_if};
ghost use Rattle.sheet_lines.specs.Lines.{start};
ghost use Rattle.sheet_lines.specs.Calls.{open_numbers, open_number, call_slots, slot_line};
ghost use Rattle.sheet_lines.specs.Lengths.{decimal_end};

use layout::places::CANCELLED;
use layout::value::SLOTS;

// One byte.
pub fn write_byte(out: &mut [u8], at: usize, b: u8) -> usize
    requires { Room at 1 out.old }
    ensures { Appended (b ∷ []) at out.old out.new result }
{
    out[at] = b;
    at + 1
}

// A text as it is.
pub fn write_bytes(out: &mut [u8], at: usize, text: &[u8]) -> usize
    requires { Room at (length text.now) out.old }
    ensures { Appended text.now at out.old out.new result }
{
    let end = at + text.len();
    out[at..end].copy_from_slice(text);
    end
}

// The digit of n whose weight is w, where n has it: a number begins with no 0.
fn write_digit(out: &mut [u8], at: usize, n: usize, w: usize) -> usize
    requires room { Room at (length (digit_if n w)) out.old }
    requires w_nonzero { 0 < w }
    ensures { Appended (digit_if n w) at out.old out.new result }
{
    if w <= n {
        write_byte(out, at, b'0' + (n / w % 10) as u8)
    } else {
        at
    }
}

// A number in decimal.
pub fn write_decimal(out: &mut [u8], at: usize, n: usize) -> usize
    requires room { Room at (length (decimal n)) out.old }
    requires n_lt_decimal_end { n < decimal_end }
    ensures { Appended (decimal n) at out.old out.new result }
{
    let a = write_digit(out, at, n, 1000);
    let b = write_digit(out, a, n, 100);
    let c = write_digit(out, b, n, 10);
    write_byte(out, c, b'0' + (n % 10) as u8)
}

// A space and a number.
pub fn write_spaced(out: &mut [u8], at: usize, n: usize) -> usize
    requires room { Room at (length (spaced (n ∷ []))) out.old }
    requires n_lt_decimal_end { n < decimal_end }
    ensures { Appended (spaced (n ∷ [])) at out.old out.new result }
{
    let a = write_byte(out, at, b' ');
    write_decimal(out, a, n)
}

// A line's letter and its first number.
pub fn write_start(out: &mut [u8], at: usize, letter: u8, n: usize) -> usize
    requires room { Room at (length (start letter n)) out.old }
    requires n_lt_decimal_end { n < decimal_end }
    ensures { Appended (start letter n) at out.old out.new result }
{
    let a = write_byte(out, at, letter);
    write_spaced(out, a, n)
}

// The line of an accepted command: its kind, S and R.
pub fn accepted_line(
    out: &mut [u8],
    at: usize,
    kind: usize,
    struck: usize,
    reopened: usize,
) -> usize
    requires room { Room at (length (accepted_line kind struck reopened)) out.old }
    requires kind_lt_decimal_end { kind < decimal_end }
    requires struck_lt_decimal_end { struck < decimal_end }
    requires reopened_lt_decimal_end { reopened < decimal_end }
    ensures { Appended (accepted_line kind struck reopened) at out.old out.new result }
{
    let a = write_start(out, at, b'a', kind);
    let b = write_spaced(out, a, struck);
    let c = write_spaced(out, b, reopened);
    write_byte(out, c, b'\n')
}

// The line of a refused command: its kind and the refusal's number.
pub fn refused_line(out: &mut [u8], at: usize, kind: usize, number: usize) -> usize
    requires room { Room at (length (refused_line kind number)) out.old }
    requires kind_lt_decimal_end { kind < decimal_end }
    requires number_lt_decimal_end { number < decimal_end }
    ensures { Appended (refused_line kind number) at out.old out.new result }
{
    let a = write_start(out, at, b'r', kind);
    let b = write_spaced(out, a, number);
    write_byte(out, b, b'\n')
}

// The number of slot s of call c with a space before it, where the slot is open.
fn open_slot(out: &mut [u8], at: usize, slots: &[u8; SLOTS], c: usize, s: usize) -> usize
    requires room { Room at (length (open_number slots.now c s)) out.old }
    requires c_bound { c < 32 }
    requires s_bound { s < 32 }
    ensures { Appended (open_number slots.now c s) at out.old out.new result }
{
    if slots[32 * c + s] == 255 {
        write_spaced(out, at, s)
    } else {
        at
    }
}

// The numbers of all open slots of call c, rising.
pub fn open_slots(out: &mut [u8], at: usize, slots: &[u8; SLOTS], c: usize) -> usize
    requires room { Room at (length (spaced (open_numbers slots.now c))) out.old }
    requires c_bound { c < 32 }
    ensures { Appended (spaced (open_numbers slots.now c)) at out.old out.new result }
{
    let mut next = at;
    for s in 0..32 {
        next = open_slot(out, next, slots, c, s);
    }
    next
}

// What follows the number of call c: a dash where it is cancelled, else the numbers of its open slots.
fn call_slots(out: &mut [u8], at: usize, slots: &[u8; SLOTS], c: usize) -> usize
    requires room { Room at (length (call_slots slots.now c)) out.old }
    requires c_bound { c < 32 }
    ensures { Appended (call_slots slots.now c) at out.old out.new result }
{
    if slots[32 * c] == CANCELLED {
        write_bytes(out, at, b" -")
    } else {
        open_slots(out, at, slots, c)
    }
}

// The line of call c: its number and those of its open slots, with no space after the last, or a dash where it is cancelled.
pub fn call_line(out: &mut [u8], at: usize, slots: &[u8; SLOTS], c: usize) -> usize
    requires room { Room at (length (slot_line slots.now c)) out.old }
    requires c_bound { c < 32 }
    ensures { Appended (slot_line slots.now c) at out.old out.new result }
{
    let numbered = write_start(out, at, b'c', c);
    let listed = call_slots(out, numbered, slots, c);
    write_byte(out, listed, b'\n')
}

// The lines of the first n calls.
pub fn call_lines(out: &mut [u8], at: usize, slots: &[u8; SLOTS], n: usize) -> usize
    requires room { Room at (length (joined (slot_line slots.now) n)) out.old }
    requires n_bound { n ≤ 32 }
    ensures { Appended (joined (slot_line slots.now) n) at out.old out.new result }
{
    let mut next = at;
    for c in 0..n {
        next = call_line(out, next, slots, c);
    }
    next
}

// The number of calls: their slot counts stand before the first 0.
pub fn call_count(counts: &[u8; 32]) -> usize
    ensures { result ≡ length (up_to_zero counts.now) }
{
    counts.iter().position(|n| *n == 0).unwrap_or(counts.len())
}

// The line of the whole board: its open slots.
pub fn total_line(out: &mut [u8], at: usize, total: usize) -> usize
    requires room { Room at (length (total_line total)) out.old }
    requires total_lt_decimal_end { total < decimal_end }
    ensures { Appended (total_line total) at out.old out.new result }
{
    let numbered = write_start(out, at, b't', total);
    write_byte(out, numbered, b'\n')
}

// The last line, a fixed text.
pub fn end_line(out: &mut [u8], at: usize) -> usize
    requires { Room at (length end_line) out.old }
    ensures { Appended end_line at out.old out.new result }
{
    write_bytes(out, at, b"end\n")
}
