// What the search for the first full plan (order 8) looks up at each slot, made once off the value and the bytes, and a plan laid in part against the rules by it.
// Proved: each table holds what specs/ says of it, on any value and any bytes; a rule is due with the last of its calls. Assumed: nothing.
#![tactic(auto)]

pub mod lookup; // which calls are to be laid, their open slots, and the rules' columns and rows
pub mod due; // the rules that a call makes due
pub mod fit; // a plan laid in part against the rows of rules
