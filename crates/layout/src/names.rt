// The names of the marks: for each a byte that says whether a board is kept under it, and the board's calls and rule heads. They belong to the value, but are lent where
// they lie, so that commands that have no part in them do not copy them.
ghost use Rattle.std.specs.Prelude.{◌≡◌, ◌+◌, ◌≤◌, ◌<◌, length};
ghost use Rattle.layout.specs.Names.{names_length, name_length, name_byte, bytes_from, heads_under, with_mark_under, no_names, fresh_marked};

use crate::value::{Heads, Value};

// The bytes of a name: whether a board is kept, 1 or 0, and 416 of its heads.
pub const NAME: usize = 417;

// Of both.
pub const NAMES: usize = 834;

// All that a host holds beside the buffers.
#[repr(C)]
#[derive(Clone, Copy)]
pub struct MarkedValue {
    pub value: Value,
    pub names: [u8; NAMES],
}

// Byte i of a name of these heads.
fn name_byte(kept: u8, heads: &Heads, i: usize) -> u8
    requires { i < name_length }
    ensures { result ≡ name_byte (record { kept = kept; heads = heads.now }) i }
{
    match i {
        0 => kept,
        1..33 => heads.counts[i - 1],
        33..97 => heads.arity[i - 33],
        97..353 => heads.scope[i - 97],
        _ => heads.lengths[i - 353],
    }
}

// Every byte of a name is written, and no byte of the other. The first is the byte that is given.
pub fn store_name(names: &mut [u8; NAMES], name: usize, kept: u8, heads: Heads)
    requires { name < 2 }
    ensures { names.new ≡ with_mark_under names.old name (record { kept = kept; heads = heads }) }
{
    let start = NAME * name;
    for i in 0..NAME {
        names[start + i] = name_byte(kept, &heads, i);
    }
}

// Nothing is kept under either name: every byte is written.
pub fn forget(names: &mut [u8; NAMES])
    ensures { names.new ≡ no_names }
{
    names.fill(0);
    store_name(names, 0, 0, Heads::fresh());
    store_name(names, 1, 0, Heads::fresh());
}

// N bytes from a place on.
fn load<const N: usize>(names: &[u8; NAMES], at: usize) -> [u8; N]
    requires { at + N ≤ names_length }
    ensures { result ≡ bytes_from names.now at N }
{
    let mut bytes = [0; N];
    bytes.copy_from_slice(&names[at..at + N]);
    bytes
}

// The heads that are kept under a name.
pub fn heads_under(names: &[u8; NAMES], name: usize) -> Heads
    requires { name < 2 }
    ensures { result ≡ heads_under names.now name }
{
    let at = NAME * name;
    Heads {
        counts: load(names, at + 1),
        arity: load(names, at + 33),
        scope: load(names, at + 97),
        lengths: load(names, at + 353),
    }
}

impl MarkedValue {
    // Before the first command.
    pub fn fresh() -> Self
        ensures { result ≡ fresh_marked }
    {
        let mut names = [0u8; NAMES];
        forget(&mut names);
        Self {
            value: Value::fresh(),
            names,
        }
    }
}
