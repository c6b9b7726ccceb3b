//! The watches of an arena's clauses.
ghost use Rattle.std.specs.Prelude.{◌≡◌, ◌+◌, ◌*◌, ◌<◌, ◌≤◌, ◌^◌, ℕ, [], length, take};
ghost use Rattle.std.specs.Prelude.{cond, nat_eq, slice_index_or, Some, None, IfOk, IfErr, IfSome};
ghost use Rattle.std.specs.List.{All};
ghost use Rattle.sat_terms.specs.CubeOrder.{key};
ghost use Rattle.sat_terms.specs.Literals.{IsLiteralOf};
ghost use Rattle.watch_lists.specs.Linked.{IsLinked};
ghost use Rattle.watch_lists.specs.Nodes.{stop, lists_view};
ghost use Rattle.watch_lists.specs.Views.{IsPlaced, IsFree, Stands, list_of, lit_of, moved};
ghost use Rattle.watch_lists.specs.Views.{partner, head_of, follower};
ghost use Rattle.watch_lists.specs.Watching.{IsWatching, attached};

use crate::nodes::{END, IDLE, Node, grow, push_front, unlink, watch_first_two};
use crate::watch::Watch;
use clause_arena::Arena;
use sat_terms::place_of;
use std::alloc::{AllocError, Global};
use std::marker::Model;

/// For each literal the clauses that watch it. A clause has two places, 2i and 2i + 1 for the
/// clause i; a clause of two or more literals has each of them in the list of a literal, a clause
/// of fewer has both in no list.
#[derive(Debug, Drop)]
pub struct Watches {
    nodes: Vec<Node>,
    heads: Vec<u32>,
}

impl Model for Watches {
    ghost use Rattle.watch_lists.specs.Views.{ListsView};
    ghost use Rattle.watch_lists.specs.Nodes.{lists_view};
    ghost use Rattle.watch_lists.specs.Linked.{IsLinked};

    ghost Value = { ListsView };

    ghost view = { λ w. lists_view w.nodes.items w.heads.items };

    ghost invariant = { λ w. IsLinked w.nodes.items w.heads.items };
}

/// The watch at a place; None at the end of a list.
fn watch_at(place: u32) -> Option<Watch>
    ensures { result ≡ cond (nat_eq place stop) None (Some (record { place = place })) }
{
    if place == END {
        None
    } else {
        Some(Watch { place })
    }
}

/// Watches the first two literals of each clause.
fn watch_all(nodes: &mut Vec<Node>, heads: &mut Vec<u32>, arena: &Arena)
    requires linked { IsLinked nodes.old.items heads.old.items }
    requires places { 2 * length arena.now.clauses ≤ length nodes.old.items }
    requires free { (n : ℕ) → IsFree (lists_view nodes.old.items heads.old.items) n }
    requires listed { All (All (λ l. key l < length heads.old.items)) arena.now.clauses }
    ensures linked { IsLinked nodes.new.items heads.new.items }
    ensures watching { IsWatching (lists_view nodes.new.items heads.new.items) arena.now.clauses }
    ensures places { length nodes.new.items ≡ length nodes.old.items }
    ensures count { length heads.new.items ≡ length heads.old.items }
{
    for id in 0..arena.len() {
        watch_first_two(nodes, heads, 2 * id, arena.lits(id));
    }
}

impl Watches {
    /// Watches the first two literals of each clause of an arena over the variables 1 to
    /// `variables`. The time is that of one walk over the clauses and the lists.
    pub fn make(alloc: Global, arena: &Arena, variables: u32) -> Result<Watches, AllocError>
        requires small { variables < 2 ^ 31 }
        requires clauses { All (All (IsLiteralOf variables)) arena.now.clauses }
        ensures watching { IfOk result (λ watches. IsWatching watches arena.now.clauses) }
        ensures places { IfOk result
            (λ watches. length watches.lits ≡ 2 * length arena.now.clauses) }
        ensures lists { IfOk result (λ watches. length watches.lists ≡ 2 * (variables + 1)) }
    {
        let mut nodes = vec![in alloc; IDLE; 2 * arena.len() as usize]?;
        let mut heads = vec![in alloc; END; 2 * (variables as usize + 1)]?;
        watch_all(&mut nodes, &mut heads, arena);
        Ok(Watches { nodes, heads })
    }

    /// Watches the first two literals of the next clause. A clause of no or one literal is put in
    /// no list; only its places are made. Without memory for them the lists stay as they are.
    pub fn attach(&mut self, arena: &Arena, id: u32) -> Result<(), AllocError>
        requires known { id < length arena.now.clauses }
        requires watching { IsWatching self.old (take id arena.now.clauses) }
        requires few { 2 * id + 2 ≤ stop }
        requires listed { All (λ l. key l < length self.old.lists)
            (slice_index_or arena.now.clauses id []) }
        ensures attached { IfOk result
            (λ _. self.new ≡ attached id (slice_index_or arena.now.clauses id []) self.old) }
        ensures watching { IfOk result
            (λ _. IsWatching self.new (take (id + 1) arena.now.clauses)) }
        ensures places { length self.old.lits ≤ length self.new.lits }
        ensures lists { length self.new.lists ≡ length self.old.lists }
        ensures unchanged { IfErr result (λ _. self.new ≡ self.old) }
    {
        grow(&mut self.nodes, 2 * id as usize + 2)?;
        watch_first_two(&mut self.nodes, &mut self.heads, 2 * id, arena.lits(id));
        Ok(())
    }

    /// Watches the first two literals of each clause anew, as is needed once clauses were dropped
    /// and the ids of others changed. It takes no memory, and keeps all places. The time is that of
    /// one walk over the clauses and the lists.
    pub fn rebuild(&mut self, arena: &Arena)
        requires places { 2 * length arena.now.clauses ≤ length self.old.lits }
        requires listed { All (All (λ l. key l < length self.old.lists)) arena.now.clauses }
        ensures watching { IsWatching self.new arena.now.clauses }
        ensures places { length self.new.lits ≡ length self.old.lits }
        ensures lists { length self.new.lists ≡ length self.old.lists }
    {
        self.heads.fill(END);
        watch_all(&mut self.nodes, &mut self.heads, arena);
    }

    /// The first watch in the list of a literal. Constant time, as is each of the next four.
    pub fn first(&self, lit: i32) -> Option<Watch>
        requires listed { key lit < length self.now.lists }
        ensures first { result ≡ head_of (list_of self.now (key lit)) }
        ensures stands { IfSome result (λ watch. Stands self.now watch.place) }
        ensures placed { IsPlaced self.now }
    {
        watch_at(self.heads[place_of(lit)])
    }

    /// The watch after this one in its list. A walk that lets watches move asks for it before it
    /// moves this one.
    pub fn after(&self, watch: Watch) -> Option<Watch>
        requires stands { Stands self.now watch.place }
        ensures after { result
            ≡ follower (list_of self.now (key (lit_of self.now watch.place))) watch.place }
        ensures stands { IfSome result (λ next. Stands self.now next.place) }
    {
        watch_at(self.nodes[watch.place as usize].next)
    }

    /// The literal that a watch watches.
    pub fn literal(&self, watch: Watch) -> i32
        requires inside { watch.place < length self.now.lits }
        ensures { result ≡ lit_of self.now watch.place }
    {
        self.nodes[watch.place as usize].lit
    }

    /// The other literal that the watch's clause watches.
    pub fn other(&self, watch: Watch) -> i32
        requires inside { watch.place < length self.now.lits }
        requires partner { partner watch.place < length self.now.lits }
        ensures { result ≡ lit_of self.now (partner watch.place) }
    {
        let place = watch.place;
        let other = if place % 2 == 0 { place + 1 } else { place - 1 };
        self.nodes[other as usize].lit
    }

    /// Moves a watch from the literal that it watches to the head of the list of another.
    pub fn move_watch(&mut self, watch: Watch, to: i32)
        requires stands { Stands self.old watch.place }
        requires listed { key to < length self.old.lists }
        ensures moved { self.new ≡ moved self.old watch.place to }
        ensures lists { length self.new.lists ≡ length self.old.lists }
        ensures placed { IsPlaced self.new }
    {
        unlink(&mut self.nodes, &mut self.heads, watch.place);
        push_front(&mut self.nodes, &mut self.heads, watch.place, to);
    }
}
