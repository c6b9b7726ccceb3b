//! Lemmas between workers: which of those that arrive are looked at, and how a worker sends its
//! own.
ghost use Rattle.std.specs.Prelude.{◌≡◌, ◌↔◌, [], IsTrue};
ghost use Rattle.worker_loop.specs.Fetched.{MayBeImported};

use clause_exchange::Post;
use live_engine::Engine;
use prefix_jobs::Lemma;
use std::alloc::AllocError;
use std::sync::Wait;

/// The most literals of a lemma that is looked at.
const LONGEST_FETCHED: u8 = 8;

/// So many lemmas are fetched before a job at most.
const MOST_FETCHED: u32 = 256;

/// Whether the lemma is short, and is of the variables from 1 to this one. Nothing else is trusted
/// before it is looked at.
fn may_be_imported(lemma: &Lemma, variables: u32) -> bool
    ensures { IsTrue result ↔ MayBeImported variables lemma.now }
{
    if lemma.len > LONGEST_FETCHED {
        return false;
    }
    for literal in lemma.lits() {
        let variable = literal.unsigned_abs();
        if variable == 0 || variable > variables {
            return false;
        }
    }
    true
}

/// Fetches what the others sent, and keeps what the engine finds to follow.
pub(crate) fn fetch_lemmas<R: Wait>(
    rt: &R,
    engine: &mut Engine,
    post: &mut Post,
) -> Result<(), AllocError>
    requires { engine.old.job ≡ None }
    ensures idle { engine.new.job ≡ None }
    ensures same { engine.new.subject ≡ engine.old.subject }
{
    for _ in 0..MOST_FETCHED {
        let Some(lemma) = post.fetch(rt) else {
            return Ok(());
        };
        if may_be_imported(&lemma, engine.variables()) {
            engine.import(lemma.lits())?;
        }
    }
    Ok(())
}

/// Offers the lemmas that are still unsent to the others.
pub(crate) fn send_lemmas(engine: &mut Engine, post: &mut Post)
    ensures { engine.new ≡ record engine.old { unsent = [] } }
{
    while let Some(lemma) = engine.fresh() {
        post.offer(lemma);
    }
}
