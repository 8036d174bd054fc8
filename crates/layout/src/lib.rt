// THE MEMORY MAP: the value and the names of the marks beside the lent buffers, the lengths of the buffers, and where each byte lies. Every other crate uses it; it uses
// none but the laws of lists of the crate tables.
// Proved: every function. Assumed: nothing.
#![tactic(auto)]

pub mod value; // the value beside the buffers, and the buffers' lengths
pub mod places; // where bytes lie, and caps
pub mod summary; // the summary table: its records and its length
pub mod marks; // the marks' bytes: their lengths
pub mod names; // what is held of the marks beside the value
