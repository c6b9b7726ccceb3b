//! The invariant of a job: what a running search of one prefix keeps besides the picture. Each cube
//! found was left behind at one place of the trail, and what is left open weighs little enough for
//! the leaves to come. It has definitions and lemmas over plain lists and no code.
#![tactic(auto)]

pub mod laws;
