//! The nodes of the lists: one for each place, with the places before and after it.
ghost use Rattle.std.specs.Prelude.{◌≡◌, ◌+◌, ◌-◌, ◌<◌, ◌≤◌, ◌++◌, length, replicate, IfOk, IfErr};
ghost use Rattle.std.specs.List.{All};
ghost use Rattle.sat_terms.specs.CubeOrder.{key};
ghost use Rattle.watch_lists.specs.Nodes.{put_next, put_prev, put_head, stop, lists_view, idle};
ghost use Rattle.watch_lists.specs.Linked.{IsLinked};
ghost use Rattle.watch_lists.specs.Views.{IsFree, Stands, taken, pushed, watched};

use sat_terms::place_of;
use std::alloc::AllocError;

/// The end of a list, where no place follows, or none stands before.
pub(crate) const END: u32 = u32::MAX;

/// A watch in its list: the places after and before it, and the literal that it watches.
#[derive(Clone, Copy, Debug)]
pub struct Node {
    pub next: u32,
    pub prev: u32,
    pub lit: i32,
}

/// A node in no list.
pub(crate) const IDLE: Node = Node {
    next: END,
    prev: END,
    lit: 0,
};

/// Makes a place the next one: of the place `at`, or as the head of the list where `at` is the end.
fn set_next(nodes: &mut Vec<Node>, heads: &mut Vec<u32>, list: usize, at: u32, next: u32)
    requires inside { at < stop → at < length nodes.old.items }
    requires list { list < length heads.old.items }
    requires few { length nodes.old.items ≤ stop }
    ensures nodes { nodes.new.items ≡ put_next nodes.old.items at next }
    ensures heads { heads.new.items ≡ put_head heads.old.items list at next }
{
    if at == END {
        heads[list] = next;
    } else {
        nodes[at as usize].next = next;
    }
}

/// Makes a place the previous one of the place `at`. At the end nothing is written.
fn set_prev(nodes: &mut Vec<Node>, at: u32, prev: u32)
    requires inside { at < stop → at < length nodes.old.items }
    requires few { length nodes.old.items ≤ stop }
    ensures { nodes.new.items ≡ put_prev nodes.old.items at prev }
{
    if at != END {
        nodes[at as usize].prev = prev;
    }
}

/// Takes a place out of its list.
pub(crate) fn unlink(nodes: &mut Vec<Node>, heads: &mut Vec<u32>, place: u32)
    requires linked { IsLinked nodes.old.items heads.old.items }
    requires stands { Stands (lists_view nodes.old.items heads.old.items) place }
    ensures linked { IsLinked nodes.new.items heads.new.items }
    ensures taken { lists_view nodes.new.items heads.new.items
        ≡ taken (lists_view nodes.old.items heads.old.items) place }
{
    let node = nodes[place as usize];
    let list = place_of(node.lit);
    set_next(nodes, heads, list, node.prev, node.next);
    set_prev(nodes, node.next, node.prev);
}

/// Puts a place that is in no list at the head of the list of a literal.
pub(crate) fn push_front(nodes: &mut Vec<Node>, heads: &mut Vec<u32>, place: u32, lit: i32)
    requires linked { IsLinked nodes.old.items heads.old.items }
    requires inside { place < length nodes.old.items }
    requires list { key lit < length heads.old.items }
    requires free { IsFree (lists_view nodes.old.items heads.old.items) place }
    ensures linked { IsLinked nodes.new.items heads.new.items }
    ensures pushed { lists_view nodes.new.items heads.new.items
        ≡ pushed (lists_view nodes.old.items heads.old.items) place lit }
{
    let list = place_of(lit);
    let head = heads[list];
    nodes[place as usize] = Node {
        next: head,
        prev: END,
        lit,
    };
    heads[list] = place;
    set_prev(nodes, head, place);
}

/// Puts two places, from `place` on, into the lists of the first two literals of a clause, if it
/// has so many.
pub(crate) fn watch_first_two(nodes: &mut Vec<Node>, heads: &mut Vec<u32>, place: u32, lits: &[i32])
    requires linked { IsLinked nodes.old.items heads.old.items }
    requires inside { place + 1 < length nodes.old.items }
    requires listed { All (λ l. key l < length heads.old.items) lits.now }
    requires first { IsFree (lists_view nodes.old.items heads.old.items) place }
    requires second { IsFree (lists_view nodes.old.items heads.old.items) (place + 1) }
    ensures linked { IsLinked nodes.new.items heads.new.items }
    ensures watched { lists_view nodes.new.items heads.new.items
        ≡ watched (lists_view nodes.old.items heads.old.items) place lits.now }
{
    if lits.len() >= 2 {
        push_front(nodes, heads, place, lits[0]);
        push_front(nodes, heads, place + 1, lits[1]);
    }
}

/// Appends places that are in no list, until there are so many. Without memory none is appended.
pub(crate) fn grow(nodes: &mut Vec<Node>, places: usize) -> Result<(), AllocError>
    ensures grown { IfOk result (λ _. nodes.new.items
        ≡ nodes.old.items ++ replicate (places - length nodes.old.items) idle) }
    ensures unchanged { IfErr result (λ _. nodes.new.items ≡ nodes.old.items) }
{
    if nodes.len() < places {
        nodes.resize(places, IDLE)?;
    }
    Ok(())
}
