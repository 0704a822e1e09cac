// Theorems about the definitions of lookup and description. There is no code here.

#![tactic(auto)]
