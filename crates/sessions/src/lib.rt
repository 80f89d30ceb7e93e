//! Lists of calls of the C functions are the lists that demand 3 speaks of: statements in `specs/`, and their proofs. No code.
#![tactic(auto)]
