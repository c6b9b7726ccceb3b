//! Each literal of a clause is kept once, at its first place.
ghost use Rattle.std.specs.Prelude.{◌≡◌, ◌<◌, ◌≤◌, ◌++◌, length, IfOk};
ghost use Rattle.std.specs.List.{All};
ghost use Rattle.sat_terms.specs.CubeOrder.{key};
ghost use Rattle.clause_arena.specs.Once.{once};

use sat_terms::place_of;
use std::alloc::AllocError;

/// Appends the literals of a clause, each once. The table tells which literals the clause had so
/// far: those that bear its stamp. So no pass has to clear the table, where each clause has a
/// greater stamp.
pub(crate) fn append_once(
    lits: &mut Vec<i32>,
    stamps: &mut [u32],
    stamp: u32,
    clause: &[i32],
) -> Result<(), AllocError>
    requires older { All (λ s. s < stamp) stamps.old }
    requires places { All (λ l. key l < length stamps.old) clause.now }
    ensures lits { IfOk result (λ _. lits.new.items ≡ lits.old.items ++ once clause.now) }
    ensures stamps { IfOk result (λ _. All (λ s. s ≤ stamp) stamps.new) }
{
    for lit in clause {
        let place = place_of(*lit);
        if stamps[place] != stamp {
            stamps[place] = stamp;
            lits.push(*lit)?;
        }
    }
    Ok(())
}
