// Theorems about the audit's definition. There is no code here.

#![tactic(auto)]
