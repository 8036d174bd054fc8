// What it means that a plan from elsewhere is checked (order 10). specs/ has the definitions that a reader must believe, and under Laws the theorems over them; there
// is no code here.
// Proved: every theorem of specs/. Assumed: nothing.
#![tactic(auto)]
