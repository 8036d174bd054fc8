// What propagation and relaxation mean on a board: they keep sound records sound, the second on a weaker board, and where no rule is pending the board is stored. The
// laws are in specs/, and there is no code here.
// Proved: every law. Assumed: nothing.
#![tactic(auto)]
