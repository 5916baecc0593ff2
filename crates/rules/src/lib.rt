// The rules of the planner, with no code: definitions on numbers and lists, and the theorems about them, all in specs/.

#![tactic(auto)]
