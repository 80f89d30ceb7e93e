//! Demand 3: the statement in `specs/Claim.antt`, its proof in `proofs/`. No code.
#![tactic(auto)]
