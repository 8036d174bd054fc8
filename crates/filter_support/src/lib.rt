// The parts of a rule's revision over the lent bytes: its rows are walked, which finds the supports, and the slots without one are struck.
// Proved: which rows are killed and which slots struck, on any contents of the buffers; what it means on a board is for the crates above. Assumed: nothing.
#![tactic(auto)]

pub mod known; // the masks of the calls that a command has looked at
pub mod rows; // the walk over a rule's rows: kills and supports
pub mod strikes; // striking the slots without a support
