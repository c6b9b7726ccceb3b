//! The laws of what an arena keeps. Each function does nothing; its contract is the law, proved.
ghost use Rattle.std.specs.Prelude.{List, ℤ};
ghost use Rattle.clause_arena.specs.Once.{KeepsEachOnce, OnceKeepsTruth, OnceKeepsPairs};
ghost use Rattle.clause_arena.specs.Once.{OnceKeepsPlaces};

/// A clause has the same literals as before, and each once.
pub fn each_literal_is_kept_once()
    ensures { (c : List ℤ) → KeepsEachOnce c }
{}

/// Where each literal stands once, a formula has the same truth, a clause the same pair, and each
/// clause its place.
pub fn clauses_keep_their_meaning()
    ensures truth { OnceKeepsTruth }
    ensures pairs { OnceKeepsPairs }
    ensures places { (f : List (List ℤ)) → OnceKeepsPlaces f }
{}
