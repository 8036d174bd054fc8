// Kinds 4 and 5: the draft comes into force, and a rule leaves it. Each checks its own refusals, in the order of SCOPE 4.3, and changes nothing where one
// holds.
// Proved: what each answers and leaves is what specs/Promise.antt of the crate model says; all of it is safe on any contents. Assumed: nothing.
#![tactic(auto)]

pub mod post; // kind 4
pub mod retract; // kind 5
