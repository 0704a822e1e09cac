// Theorems about the definitions of mending and undo. There is no code here.

#![tactic(auto)]
