//! The picture of a search for all solutions: the trail of what is assigned, the cubes found, and
//! the prefixes left open. It has definitions and lemmas over plain lists and no code. A lister
//! cites one lemma for each move that it makes, as `plain_search` does.
#![tactic(auto)]

pub mod laws;
