//! The trail of a search with chronological backtracking: what is assigned, in the order in which
//! it was, each literal with its level and the reason for it.
//!
//! Levels do not rise along the trail. An implied literal, or one that a lemma turned over, stands
//! on the level that its reason needs, which may be far below the current one, and stays when the
//! levels above are taken back (Nadel and Ryvchin, Chronological Backtracking, SAT 2018; Möhle and
//! Biere, Backing Backtracking, SAT 2019). What does rise is the decisions: each level from 1 to
//! the current one has just one, in this order.
//!
//! It rests on `sat_terms` for literals and on `search_region` for the picture that a search is
//! proved over.
#![tactic(auto)]

mod clause;
mod item;
pub mod laws;
mod table;
mod trail;

pub use clause::{Scanned, level_of_rest, scan};
pub use item::{Item, Kind};
pub use trail::Trail;
