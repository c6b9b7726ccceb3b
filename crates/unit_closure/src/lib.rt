//! Unit propagation as a set: what a list of clauses derives from a list of literals, whatever the
//! order of the steps.
//!
//! It has definitions and laws over lists and no code. Who propagates shows that what it derived is
//! in this set; who checks a clause by propagation shows that the set closes. It rests on the truth
//! of `sat_terms`, and on the pairs of `search_region`.
#![tactic(auto)]

pub mod laws;
