// Theorems about the block that an audit can't enter. There is no code here.

#![tactic(auto)]
