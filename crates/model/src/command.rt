// The commands: what a file of them holds, and what stands at a place of it.

use crate::refusal::Refusal;

// The head of a rule: kind 2's body. Calls past the arity are 255. They are four fields, since the laws are over any head, and an array would be a list of any length there.
#[derive(Clone, Copy)]
pub struct Head {
    pub number: u8,
    pub arity: u8,
    pub call0: u8,
    pub call1: u8,
    pub call2: u8,
    pub call3: u8,
}

// A row of a rule: kind 3's body. Slots past the arity are 255, and are four fields as in a head.
#[derive(Clone, Copy)]
pub struct Row {
    pub slot0: u8,
    pub slot1: u8,
    pub slot2: u8,
    pub slot3: u8,
}

// A rule of two calls by the gap between their slots, order 3's standing form: kind 6's body.
#[derive(Clone, Copy)]
pub struct GapRule {
    // 1, 2 or 3
    pub form: u8,
    pub number: u8,
    pub first: u8,
    pub second: u8,
    pub gap: u8,
}

// A command with its own fields. The 32 counts of kind 1 stand beside it, as docs/SCOPE.md has them (10.6).
#[derive(Clone, Copy)]
pub enum Command {
    Board,
    Head(Head),
    Row(Row),
    // put, kind 4
    Post,
    // lift, kind 5: the rule of this number
    Retract(u8),
    Gap(GapRule),
    // mark, kind 7: the board is kept under this name
    Keep(u8),
    // back, kind 8: and brought back from there
    Back(u8),
    // kind 9: this call is cancelled
    Cancel(u8),
}

// What stands at a place of a file.
#[derive(Clone, Copy)]
pub enum Read {
    Command(Command),
    // the kind's byte, which the laws of a read speak of, and refusal 3 or 4
    Refused(u8, Refusal),
    End,
}

// What stands there, the slot counts where it is kind 1, and the place after it.
#[derive(Clone, Copy)]
pub struct Decoded {
    pub read: Read,
    pub counts: [u8; 32],
    pub next: usize,
}
