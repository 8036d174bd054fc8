// Sets as masks, made from the bytes and worked on by the machine's own operations: the slots of a call, the slots of a row and of a rule's columns, and the rules on
// calls. All of it is safe and ends on any contents of the buffers.
// Proved: which numbers are in each mask (specs/). Assumed: nothing.
#![tactic(auto)]

pub mod slots; // the slots of a call
pub mod columns; // a set of slots for each column of a rule
pub mod rules; // the rules on each call, and the pending rules
