//! The laws of verdicts. Each function does nothing; its contract is the law, proved.
ghost use Rattle.std.specs.Prelude.{ℕ, List, ℤ};
ghost use Rattle.cube_check.specs.declared.met.Met.{Met};
ghost use Rattle.cube_check.specs.declared.verdict.Verdict.{Verdict};
ghost use Rattle.cube_check.specs.Laws.{RightIsSound, HasOneVerdict};

/// Where the verdict is right, any two cubes are apart, and each assignment in one of them is good.
pub fn a_right_verdict_is_sound()
    ensures { (n : ℕ) (f : List (List ℤ)) (p : List ℕ) (met : List Met) → RightIsSound n f p met }
{}

/// A listing has one verdict.
pub fn there_is_one_verdict()
    ensures { (f : List (List ℤ)) (met : List Met) (v w : Verdict) → HasOneVerdict f met v w }
{}
