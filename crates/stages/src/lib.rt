//! Stages that follow one another: the first that stops says why. Definitions and their laws alone:
//! the laws speak of stages of any kind, which no clause of a function may, so they stand in
//! `proofs/`, and crates above cite them there.
#![tactic(auto)]
