//! When a job is cut up. A job keeps all that it learns until it ends, and many long lemmas slow it
//! down more than they spare. They go between two jobs, so a job that has learnt much ends.
ghost use Rattle.std.specs.Prelude.{◌≡◌, ◌-◌, None, length, nat_le};

use live_engine::Engine;

/// A job that has learnt so many lemmas is cut up at its next leaf. Where there are so many before
/// a job, the long ones go.
const MANY_LEMMAS: u32 = 10_000;

/// Lemmas of at most so many literals are never dropped.
const LONGEST_KEPT: usize = 8;

/// Whether the job has learnt so much that it is to be cut up, where so many lemmas came before.
pub(crate) fn has_learnt_much(engine: &Engine, before: u32) -> bool
    ensures { result ≡ nat_le 10000
        (length engine.now.clauses - length engine.now.subject.formula.clauses - before) }
{
    engine.lemmas().saturating_sub(before) >= MANY_LEMMAS
}

/// Drops the long lemmas between two jobs, where there are many.
pub(crate) fn forget_long(engine: &mut Engine)
    requires { engine.old.job ≡ None }
    ensures idle { engine.new.job ≡ None }
    ensures same { engine.new.subject ≡ engine.old.subject }
{
    if engine.lemmas() >= MANY_LEMMAS {
        engine.drop_lemmas(LONGEST_KEPT);
    }
}
