//! The law of what is learnt. The function does nothing; its contract is the law, proved.
ghost use Rattle.conflict_analysis.specs.Laws.{AssertingLemmaIsReason, AssertingLemmaIsPictured};

/// A lemma that asserts a literal is a reason for it, on the level of its other literals, once the
/// conflict's level is taken back. So a decision can be turned over by it.
pub fn an_asserting_lemma_is_a_reason()
    ensures items { AssertingLemmaIsReason }
    ensures picture { AssertingLemmaIsPictured }
{}
