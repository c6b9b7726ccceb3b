//! The laws of the lists. Each function does nothing; its contract is the law, proved.
ghost use Rattle.std.specs.Prelude.{ℕ, List, ℤ};
ghost use Rattle.watch_lists.specs.Views.{ListsView};
ghost use Rattle.watch_lists.specs.Watching.{MovesKeepWatching, AttachingKeepsWatching};
ghost use Rattle.watch_lists.specs.Watching.{WalkGivesEachOnce};

/// A walk by `first` and `after` gives each watch of a list once, also where it moves some of them
/// to other lists.
pub fn a_walk_gives_each_once()
    ensures { (v : ListsView) (k : ℕ) (passed : List ℕ) (n : ℕ) (later : List ℕ)
        → WalkGivesEachOnce v k passed n later }
{}

/// Where each clause of an arena is watched, a watch that moves within its clause keeps it so.
pub fn moves_keep_watching()
    ensures { (v : ListsView) (clauses : List (List ℤ)) (n : ℕ) (l : ℤ)
        → MovesKeepWatching v clauses n l }
{}

/// Where each clause of an arena is watched, the next one is after `attach`.
pub fn attaching_keeps_watching()
    ensures { (v : ListsView) (clauses : List (List ℤ)) (c : List ℤ)
        → AttachingKeepsWatching v clauses c }
{}
