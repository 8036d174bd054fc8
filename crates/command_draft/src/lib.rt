// Kinds 2 and 3: the head of a draft, a row of it. Each checks its own refusals, in the order of SCOPE 4.3, and changes nothing where one
// holds. What each makes of a draft is a function of its own (head::redraft, row::redraft), apart from the value; kind 6 does likewise in a crate of its own.
// Proved: what each answers and leaves is what specs/Promise.antt of the crate model says; all of it is safe on any contents. Assumed: nothing.
#![tactic(auto)]

pub mod fields; // the checks that kinds 2, 3 and 6 share
pub mod redraft; // their outcome
pub mod head; // kind 2
pub mod row; // kind 3
