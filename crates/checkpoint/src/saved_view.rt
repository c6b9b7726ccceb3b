//! What a stopped run shows of itself to be saved.
ghost use Rattle.std.specs.Prelude.{◌≡◌, ◌<◌, List, [], ℤ, ⊤, length, slice_index_or};
ghost use Rattle.std.specs.Borrow.{follows_so, sem};
ghost use mathlib.Core.Option.{none};
ghost use Rattle.sat_terms.specs.declared.subject.Subject.{Subject};

use sat_terms::{CubeList, Subject};

/// The cubes that were found, the prefixes that are pending, and what they are of. As a list of
/// cubes it is the list of those that were found.
pub trait SavedView: CubeList {
    /// What is enumerated.
    ghost subject_of: { Self → Subject };

    /// The pending prefixes, in order.
    ghost pending: { Self → List (List ℤ) };

    /// What is enumerated.
    fn subject(&self) -> &Subject
        ensures { result.now ≡ subject_of self.now };

    /// How many prefixes are pending.
    fn pending_count(&self) -> usize
        ensures { result ≡ length (pending self.now) };

    /// The literals of the pending prefix at a place, counted from 0. It may be made in room that
    /// the value keeps for it; what contracts see of the value stays as it was.
    fn pending_at(&mut self, i: usize) -> &[i32]
        requires { i < length (pending self.old) }
        ensures* kept { sem 𝓛 (follows_so Self.row Self.row self.entry.ghost_name none (λ _ _. ⊤)
            (λ v. v ≡ self.old)) }
        ensures prefix { result.now ≡ slice_index_or (pending self.old) i [] };
}
