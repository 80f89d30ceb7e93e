//! Laws of runs, for any program in any state: what a step does to the live calls, the history of a budget, budgets given in parts. No code.
#![tactic(auto)]
