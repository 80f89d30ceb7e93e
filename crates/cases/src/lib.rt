//! The cases that paper 01 lists as proved, P1 to P11, and further ones that it decides: tables in `specs/`, one general fact. No code.
#![tactic(auto)]
