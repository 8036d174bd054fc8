// What the search for the first full plan means (order 8), and the types of its answer. specs/ has the definitions that a reader must believe, and under Laws the theorems
// over them; plan_lay has the question's code.
// Proved: every theorem of specs/. Assumed: nothing.
#![tactic(auto)]

pub mod answer; // what the question answers
