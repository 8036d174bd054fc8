// Kinds 7 and 8, mark and back: a board is kept under a name, and brought back from there.
// Proved: which bytes are written, and that no others are; what is counted; and that what both kinds answer and leave is what specs/Promise.antt of the crate model
// says. Assumed: nothing.
#![tactic(auto)]

pub mod copy; // parts of a buffer, written and read
mod check; // the refusals
pub mod keep; // kind 7
pub mod changes; // the slots that bringing a board back strikes and reopens
pub mod back; // kind 8
