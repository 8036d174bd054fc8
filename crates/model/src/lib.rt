// What the berth board means, and the types that its layers share. specs/ has the definitions that a reader must believe, in the order of docs/SCOPE.md,
// and under Laws the theorems over them; the code is the types, and what makes an outcome or a refusal.
// Proved: every function here and every theorem of specs/. Assumed: nothing.
#![tactic(auto)]

pub mod command; // the commands
pub mod answer; // what commands and questions answer
pub mod refusal; // the refusals, and the check that gives one
