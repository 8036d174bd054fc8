// The figures of the summary table: each call's open slots, struck slots and rules in force, counted from the slot bytes and the rule heads.
// Proved: every record is the count that its name says, on any memory, and where the memory is a board's it is that board's. Assumed: nothing.
#![tactic(auto)]

pub mod figures; // the figures of a call, and the open slots of all
pub mod rules; // the rules on each call
pub mod records; // the records of all calls
