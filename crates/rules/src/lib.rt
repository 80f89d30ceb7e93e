//! Types, levels, effects and flow: the rules of questions 6, 8, 18, 9 and 10, and the laws of them that the safety of a run rests on. No code.
#![tactic(auto)]
