//! How tokens are taken, under any rule.
//!
//! What these calls learn where they find nothing has its force here: of a rule that is not known a
//! call learns it from the deque alone.
ghost use Rattle.std.specs.Prelude.{◌≡◌, ℕ, ◌≤◌, [], ◌∷◌, IfSome, IfNone};
ghost use Rattle.std.specs.List.{All};
ghost use Rattle.crossbeam_deque.specs.Tasks.{Takes, Pops, Finds, FindsFew};
ghost use Rattle.crossbeam_deque.specs.Handles.{view, IsPassOf, SamePass, SameWorker, stealer_deque, stealer_flavor, worker_flavor, worker_view, worker_index};
ghost use Rattle.steal_pool.specs.Stealing.{StealsFrom, visits_of};

use crate::other::Other;
use crossbeam_deque::protocol::{Outcome, Protocol};
use crossbeam_deque::{Pass, Steal, Stealer, Worker};
use prefix_jobs::Token;
use std::alloc::Global;
use std::sync::Wait;

/// Takes the newest token. None comes only where the deque was empty at a moment of the call.
pub(crate) fn take_newest<V, P: Protocol<Token, V>, M: Outcome<Token, V>>(
    deque: &mut Worker<Token, Global, V, P>,
) -> Option<Token>
    requires newest { worker_flavor deque.old ≡ 1 }
    requires pops { (port : ℕ) (v : V) → Pops P.holds port v (M.then v) }
    requires empty { (port : ℕ) (v : V) → Finds P.holds port v (M.empty v) }
    ensures same { SameWorker deque.old deque.new }
    ensures index { worker_index deque.new ≤ worker_index deque.old }
    ensures taken { IfSome result (λ t. M.then (worker_view deque.old) (t ∷ [])
        (worker_view deque.new)) }
    ensures kept { IfNone result (worker_view deque.new ≡ worker_view deque.old) }
    ensures none { IfNone result (M.empty (worker_view deque.old)) }
{
    deque.pop_as::<M>()
}

/// Steals the oldest token of one deque, and tries again where a race was lost. None comes only
/// where the deque held at most one token at a moment of the call.
fn steal_oldest<R: Wait, V, P: Protocol<Token, V>, M: Outcome<Token, V>>(
    rt: &R,
    deque: &Stealer<Token, Global, V, P>,
    pass: &mut Pass<Token, V>,
) -> Option<Token>
    requires pass { IsPassOf (stealer_deque deque.now) pass.old }
    requires newest { stealer_flavor deque.now ≡ 1 }
    requires takes { (port : ℕ) (v : V) → Takes P.holds port v 1 (M.then v) }
    requires few { (port : ℕ) (v : V) → FindsFew P.holds 1 port v (M.empty v) }
    ensures pass { IsPassOf (stealer_deque deque.now) pass.new }
    ensures taken { IfSome result (λ t. M.then (view pass.old) (t ∷ []) (view pass.new)) }
    ensures kept { IfNone result (view pass.new ≡ view pass.old) }
    ensures none { IfNone result (M.empty (view pass.old)) }
{
    for _ in rt.forever() {
        match deque.steal_as::<M>(pass) {
            Steal::Success(token) => return Some(token),
            Steal::Empty => return None,
            Steal::Retry => {}
        }
    }
    unreachable!()
}

/// Steals from the first of these deques that gives a token. None comes only where each of them
/// held at most one token at a moment of the call.
pub(crate) fn steal_from<R: Wait, V, P: Protocol<Token, V>, M: Outcome<Token, V>>(
    rt: &R,
    others: &mut [Other<V, P>],
) -> Option<Token>
    requires takes { (port : ℕ) (v : V) → Takes P.holds port v 1 (M.then v) }
    requires few { (port : ℕ) (v : V) → FindsFew P.holds 1 port v (M.empty v) }
    ensures taken { IfSome result (λ t. StealsFrom M.then t (visits_of others.old)
        (visits_of others.new)) }
    ensures kept { IfNone result (visits_of others.new ≡ visits_of others.old) }
    ensures none { IfNone result (All (λ o. M.empty (view o.pass)) others.old) }
{
    for place in 0..others.len() {
        let other = &mut others[place];
        if let Some(token) = steal_oldest::<R, V, P, M>(rt, &other.deque, &mut other.pass) {
            return Some(token);
        }
    }
    None
}
