// Kind 1: a new board. It checks its own refusal and changes nothing where that holds.
// Proved: what it answers and leaves is what specs/Promise.antt of the crate model says; all of it is safe on any contents. Assumed: nothing.
#![tactic(auto)]

pub mod new_board; // the counts, the value and the buffers of a new board
