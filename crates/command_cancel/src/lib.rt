// Kind 9 (order 6): a call is cancelled until the next new board, or until a back to a mark where it was not.
// Proved: what it answers and leaves is what specs/Promise.antt of the crate model says. Assumed: nothing.
#![tactic(auto)]

pub mod cancel; // the checks, and kind 9
