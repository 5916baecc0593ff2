// The three demands as theorems about the planner's calls; there is no code.

#![tactic(auto)]
