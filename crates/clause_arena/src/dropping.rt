//! Long lemmas go, and the clauses behind them move down into their place.
ghost use Rattle.std.specs.Prelude.{◌≡◌, ◌++◌, length, take, drop, filter, nat_le};
ghost use Rattle.clause_arena.specs.Layout.{pieces, IsLaidOut};
ghost use Rattle.clause_arena.specs.Clauses.{without_long};

use crate::arena::start_of;

/// Keeps the first `base` clauses, and of those behind them the ones of at most `keep` literals, in
/// their order. Two places walk along each list: one that is read, and one that is written.
pub(crate) fn drop_long(lits: &mut Vec<i32>, ends: &mut Vec<u32>, base: u32, keep: usize)
    requires { IsLaidOut lits.old.items ends.old.items base }
    ensures laid { IsLaidOut lits.new.items ends.new.items base }
    ensures clauses { pieces lits.new.items 0 ends.new.items
        ≡ without_long base keep (pieces lits.old.items 0 ends.old.items) }
{
    let mut start = start_of(ends.as_slice(), base) as usize;
    let mut filled = start;
    let mut kept = base as usize;
    for id in base as usize..ends.len() {
        let end = ends[id] as usize;
        if end - start <= keep {
            lits.copy_within(start..end, filled);
            filled += end - start;
            ends[kept] = filled as u32;
            kept += 1;
        }
        start = end;
    }
    lits.truncate(filled);
    ends.truncate(kept);
}
