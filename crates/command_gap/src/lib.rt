// Kind 6, a gap rule, order 3's standing form: the pairs of slots that fit it, listed as the row bytes of a draft.
// Proved: what it answers and leaves is what specs/Promise.antt of the crate model says; the rows are those of its specs/Gaps.antt, in their order. Assumed: nothing.
#![tactic(auto)]

mod fits; // whether two slots fit a form
pub mod pairs; // the pairs that fit, listed
pub mod draft; // the draft of them
mod checks; // the checks of its five fields
pub mod gap; // kind 6
