// The decoder of a file of commands: from a slice and a place to the command there with its counts and the next place, or refusal 3 or 4.
// Proved: what it reads is read_at of specs/Commands.antt of the crate model, on every input. Assumed: nothing.
#![tactic(auto)]

ghost use Rattle.std.specs.Prelude.{◌≡◌, true, ◌+◌, ◌≤◌, length};
ghost use Rattle.model.specs.Commands.{is_kind, body_size, head_at, row_at, gap_at, command_at, counts_at, without, read_at};

use model::command::{Command, Decoded, GapRule, Head, Read, Row};
use model::refusal::Refusal;

fn is_kind(k: u8) -> bool
    ensures { result ≡ is_kind k }
{
    matches!(k, 1..=9)
}

// By the kind's byte, since the laws of a read are over bytes.
pub fn body_length(k: u8) -> usize
    ensures { result ≡ body_size k }
{
    match k {
        1 => 32,
        2 => 6,
        3 => 4,
        6 => 5,
        5 | 7..=9 => 1,
        _ => 0,
    }
}

// The next five read a body that begins at b, which their caller has found to be in s whole.
fn head_at(s: &[u8], b: usize) -> Head
    requires { b + body_size 2 ≤ length s.now }
    ensures { result ≡ head_at s.now b }
{
    Head {
        number: s[b],
        arity: s[b + 1],
        call0: s[b + 2],
        call1: s[b + 3],
        call2: s[b + 4],
        call3: s[b + 5],
    }
}

fn row_at(s: &[u8], b: usize) -> Row
    requires { b + body_size 3 ≤ length s.now }
    ensures { result ≡ row_at s.now b }
{
    Row {
        slot0: s[b],
        slot1: s[b + 1],
        slot2: s[b + 2],
        slot3: s[b + 3],
    }
}

fn gap_at(s: &[u8], b: usize) -> GapRule
    requires { b + body_size 6 ≤ length s.now }
    ensures { result ≡ gap_at s.now b }
{
    GapRule {
        form: s[b],
        number: s[b + 1],
        first: s[b + 2],
        second: s[b + 3],
        gap: s[b + 4],
    }
}

// The command of kind k, 1 to 9.
fn command_at(s: &[u8], k: u8, b: usize) -> Command
    requires k_value { is_kind k ≡ true }
    requires k_in_bounds { b + body_size k ≤ length s.now }
    ensures { result ≡ command_at s.now k b }
{
    match k {
        1 => Command::Board,
        2 => Command::Head(head_at(s, b)),
        3 => Command::Row(row_at(s, b)),
        4 => Command::Post,
        5 => Command::Retract(s[b]),
        6 => Command::Gap(gap_at(s, b)),
        7 => Command::Keep(s[b]),
        8 => Command::Back(s[b]),
        _ => Command::Cancel(s[b]),
    }
}

// The slot counts that stand beside a command of kind k.
fn counts_at(s: &[u8], k: u8, b: usize) -> [u8; 32]
    requires { b + body_size k ≤ length s.now }
    ensures { result ≡ counts_at s.now k b }
{
    let mut counts = [0; 32];
    if k == 1 {
        counts.copy_from_slice(&s[b..b + 32]);
    }
    counts
}

// No command at a place: what is read there, and the place itself is the next.
fn without(read: Read, at: usize) -> Decoded
    ensures { result ≡ without read at }
{
    Decoded {
        read,
        counts: [0; 32],
        next: at,
    }
}

// What stands at a place of a file. A place past the end is the end.
pub fn decode(s: &[u8], at: usize) -> Decoded
    ensures { result ≡ read_at s.now at }
{
    let Some(&k) = s.get(at) else {
        return without(Read::End, at);
    };
    if !is_kind(k) {
        return without(Read::Refused(k, Refusal::UnknownKind), at);
    }
    let b = at + 1;
    let n = body_length(k);
    // a difference, since b + n could wrap
    if s.len() - b < n {
        return without(Read::Refused(k, Refusal::BodyLength), at);
    }
    Decoded {
        read: Read::Command(command_at(s, k, b)),
        counts: counts_at(s, k, b),
        next: b + n,
    }
}
