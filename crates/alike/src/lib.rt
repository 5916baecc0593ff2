// Planners that hold the same answer alike, as theorems about the planner's calls; there is no code.

#![tactic(auto)]
