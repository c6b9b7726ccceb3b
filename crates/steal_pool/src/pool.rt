//! The benches of a pool, each with passes at all others.
ghost use Rattle.std.specs.Prelude.{◌≡◌, ℕ, ◌<◌, ◌≤◌, ◌++◌, length, map, slice_range, IfOk, OnOk};
ghost use Rattle.std.specs.List.{All};
ghost use Rattle.steal_pool.specs.Stealing.{visits_of};
ghost use Rattle.steal_pool.specs.Benches.{IsAlone, new_visit, deques_of, visits_others, IsPool};

use crate::bench::Bench;
use crate::other::Other;
use crate::rule::{Fair, Hand};
use std::alloc::{AllocError, Global};
use std::sync::Arc;
use std::sync::atomic::AtomicU64;

/// The benches of some workers, made together.
pub struct Pool;

impl Pool {
    /// A bench for each worker. Nothing lies on them, and all their workers are hungry. A worker
    /// steals at the benches after its own first, so that not all go to the same.
    pub fn make(alloc: Global, workers: u32) -> Result<Vec<Bench>, AllocError>
        requires some { 1 ≤ workers }
        requires few { workers ≤ 16 }
        ensures count { IfOk result (λ benches. length benches.items ≡ workers) }
        ensures pool { IfOk result (λ benches. IsPool benches.items) }
    {
        let hungry = Arc::new(alloc, AtomicU64::new(workers as u64))?;
        let mut benches = lone_benches(alloc, workers as usize, &hungry)?;
        visit_each_other(alloc, benches.as_mut_slice())?;
        Ok(benches)
    }
}

/// So many benches, whose workers steal nowhere yet.
fn lone_benches(
    alloc: Global,
    count: usize,
    hungry: &Arc<AtomicU64, Global>,
) -> Result<Vec<Bench>, AllocError>
    ensures count { IfOk result (λ benches. length benches.items ≡ count) }
    ensures alone { IfOk result (λ benches. All IsAlone benches.items) }
{
    let mut benches = Vec::new(alloc);
    for _ in 0..count {
        benches.push(Bench::alone(alloc, Arc::try_clone(hungry)?)?)?;
    }
    Ok(benches)
}

/// From each of the benches its worker steals at all others.
fn visit_each_other(alloc: Global, benches: &mut [Bench]) -> Result<(), AllocError>
    requires { All IsAlone benches.old }
    ensures { OnOk result (IsPool benches.new) }
{
    for thief in 0..benches.len() {
        let others = invite_others(alloc, benches, thief)?;
        benches[thief].visit(others);
    }
    Ok(())
}

/// The passes of a thief: at the benches after its own, and then at those before it.
fn invite_others(
    alloc: Global,
    benches: &mut [Bench],
    thief: usize,
) -> Result<Vec<Other<Hand, Fair>>, AllocError>
    requires { thief < length benches.old }
    ensures unchanged { benches.new ≡ benches.old }
    ensures visits { IfOk result
        (λ others. visits_of others.items ≡ visits_others thief (deques_of benches.old)) }
{
    let mut others = Vec::new(alloc);
    let count = benches.len();
    invite_range(benches, thief + 1, count, &mut others)?;
    invite_range(benches, 0, thief, &mut others)?;
    Ok(others)
}

/// Adds a pass at each bench of a range.
fn invite_range(
    benches: &mut [Bench],
    from: usize,
    to: usize,
    others: &mut Vec<Other<Hand, Fair>>,
) -> Result<(), AllocError>
    requires order { from ≤ to }
    requires within { to ≤ length benches.old }
    ensures unchanged { benches.new ≡ benches.old }
    ensures visits { OnOk result (visits_of others.new.items ≡ visits_of others.old.items
        ++ map new_visit (slice_range (deques_of benches.old) from to)) }
{
    for place in from..to {
        let other = benches[place].invite()?;
        others.push(other)?;
    }
    Ok(())
}
