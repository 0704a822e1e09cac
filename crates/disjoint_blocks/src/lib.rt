// Every list of disjoint blocks has an index: a law without code.

#![tactic(auto)]
