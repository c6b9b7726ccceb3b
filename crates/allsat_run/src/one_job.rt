//! What one job of the engine finds, from the given literals on.
ghost use Rattle.sat_terms.specs.Subjects.{IsSubject};

use live_engine::{Engine, Leaf};
use sat_terms::{Cube, Subject};
use std::alloc::{AllocError, Global};

/// The cubes that one job finds, in the order in which it finds them.
pub(crate) fn list_cubes(alloc: Global, subject: &Subject) -> Result<Vec<Cube>, AllocError>
    requires { IsSubject subject.now.formula.variables subject.now.formula.clauses
        subject.now.shown subject.now.under }
{
    let mut engine = Engine::make(alloc, subject)?;
    engine.start(&subject.under)?;
    while engine.leaf()? != Leaf::Ended {}
    Ok(engine.expose()?.cubes.into_vec())
}
