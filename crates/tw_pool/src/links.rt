//! Nodes in a slab, linked in both directions to lists.
//!
//! `None` stands for an end of a list: linking `None` with a node makes that node the first or the last one. So every change of a
//! list joins a left with a right neighbor, either of which may be missing.

ghost use Rattle.std.specs.Prelude.{◌≡◌, ◌+◌, ◌-◌, ◌<◌, ◌^◌, length, Some, IfSome, slice_index_or};
ghost use Rattle.tw_pool.specs.Lists.{live_count, item_of, IsLive, without, with_item_last, with_item_before};
ghost use Rattle.tw_pool.specs.Links.{edited, with_next, with_prev, with_first, with_last, joined_nodes, joined_ends, linked_nodes, linked_ends, no_ends, with_len, IsThere, lists_of, IsLinked, SameItems, IsFree, stored};

use slab::Slab;

/// An item with its list and its neighbors there.
#[derive(Drop)]
pub(crate) struct Node<T> {
    pub(crate) item: T,
    pub(crate) list: usize,
    pub(crate) prev: Option<usize>,
    pub(crate) next: Option<usize>,
}

/// Where a list begins and ends, and how many nodes it has.
#[derive(Clone, Copy)]
pub(crate) struct Ends {
    pub(crate) first: Option<usize>,
    pub(crate) last: Option<usize>,
    pub(crate) len: usize,
}

/// Says which node comes after the one at `at`, or first in the list.
fn set_next<T>(
    nodes: &mut Slab<Node<T>>,
    ends: &mut [Ends],
    list: usize,
    at: Option<usize>,
    to: Option<usize>,
)
    requires list_fits { list < length ends.old }
    requires there { IsThere nodes.old at }
    ensures nodes { nodes.new ≡ with_next nodes.old at to }
    ensures ends { ends.new ≡ with_first ends.old list at to }
{
    match at {
        Some(index) => nodes[index].next = to,
        None => ends[list].first = to,
    }
}

/// Says which node comes before the one at `at`, or last in the list.
fn set_prev<T>(
    nodes: &mut Slab<Node<T>>,
    ends: &mut [Ends],
    list: usize,
    at: Option<usize>,
    to: Option<usize>,
)
    requires list_fits { list < length ends.old }
    requires there { IsThere nodes.old at }
    ensures nodes { nodes.new ≡ with_prev nodes.old at to }
    ensures ends { ends.new ≡ with_last ends.old list at to }
{
    match at {
        Some(index) => nodes[index].prev = to,
        None => ends[list].last = to,
    }
}

/// Makes two nodes of a list neighbors.
fn join<T>(
    nodes: &mut Slab<Node<T>>,
    ends: &mut [Ends],
    list: usize,
    left: Option<usize>,
    right: Option<usize>,
)
    requires list_fits { list < length ends.old }
    requires left { IsThere nodes.old left }
    requires right { IsThere nodes.old right }
    ensures nodes { nodes.new ≡ joined_nodes nodes.old left right }
    ensures ends { ends.new ≡ joined_ends ends.old list left right }
{
    set_next(nodes, ends, list, left, right);
    set_prev(nodes, ends, list, right, left);
}

/// Says in which list a node is.
fn set_list<T>(nodes: &mut Slab<Node<T>>, index: usize, list: usize)
    requires { IsThere nodes.old (Some index) }
    ensures { nodes.new ≡ edited (λ node. record node { list = list }) nodes.old index }
{
    nodes[index].list = list;
}

/// Counts one node fewer in a list.
fn shorten(ends: &mut [Ends], list: usize)
    requires list_fits { list < length ends.old }
    requires len { 0 < (slice_index_or ends.old list no_ends).len }
    ensures { ends.new ≡ with_len ends.old list ((slice_index_or ends.old list no_ends).len - 1) }
{
    ends[list].len -= 1;
}

/// Takes a node out of its list. It stays in the slab.
pub(crate) fn unlink<T>(nodes: &mut Slab<Node<T>>, ends: &mut [Ends], index: usize)
    requires linked { IsLinked nodes.old ends.old }
    requires live { IsLive index (lists_of nodes.old ends.old) }
    ensures linked { IsLinked nodes.new ends.new }
    ensures lists { lists_of nodes.new ends.new ≡ without index (lists_of nodes.old ends.old) }
    ensures free { IsFree index (lists_of nodes.new ends.new) }
    ensures item { stored nodes.new index ≡ item_of index (lists_of nodes.old ends.old) }
    ensures there { IsThere nodes.new (Some index) }
    ensures fewer { live_count (lists_of nodes.new ends.new) + 1
        ≡ live_count (lists_of nodes.old ends.old) }
    ensures same { SameItems nodes.old nodes.new }
{
    let node = &nodes[index];
    let list = node.list;
    let left = node.prev;
    let right = node.next;
    join(nodes, ends, list, left, right);
    shorten(ends, list);
}

/// Puts a node that is in no list between two neighbors of this one.
fn link<T>(
    nodes: &mut Slab<Node<T>>,
    ends: &mut [Ends],
    list: usize,
    left: Option<usize>,
    index: usize,
    right: Option<usize>,
)
    requires list_fits { list < length ends.old }
    requires left { IsThere nodes.old left }
    requires right { IsThere nodes.old right }
    requires index { IsThere nodes.old (Some index) }
    requires len_fits { (slice_index_or ends.old list no_ends).len < 2 ^ 63 }
    ensures nodes { nodes.new ≡ linked_nodes nodes.old list left index right }
    ensures ends { ends.new ≡ linked_ends ends.old list left index right }
{
    set_list(nodes, index, list);
    join(nodes, ends, list, left, Some(index));
    join(nodes, ends, list, Some(index), right);
    ends[list].len += 1;
}

/// Puts a node that is in no list at the end of one.
pub(crate) fn link_last<T>(nodes: &mut Slab<Node<T>>, ends: &mut [Ends], list: usize, index: usize)
    requires linked { IsLinked nodes.old ends.old }
    requires list_fits { list < length ends.old }
    requires index { IsThere nodes.old (Some index) }
    requires free { IsFree index (lists_of nodes.old ends.old) }
    requires len_fits { live_count (lists_of nodes.old ends.old) < 2 ^ 63 }
    ensures linked { IsLinked nodes.new ends.new }
    ensures lists { IfSome (stored nodes.old index) (λ item.
        lists_of nodes.new ends.new
        ≡ with_item_last (lists_of nodes.old ends.old) list (index, item)) }
    ensures more { live_count (lists_of nodes.new ends.new)
        ≡ live_count (lists_of nodes.old ends.old) + 1 }
    ensures same { SameItems nodes.old nodes.new }
{
    let last = ends[list].last;
    link(nodes, ends, list, last, index, None);
}

/// Puts a node that is in no list right before another one, in its list.
pub(crate) fn link_before<T>(nodes: &mut Slab<Node<T>>, ends: &mut [Ends], at: usize, index: usize)
    requires linked { IsLinked nodes.old ends.old }
    requires live { IsLive at (lists_of nodes.old ends.old) }
    requires index { IsThere nodes.old (Some index) }
    requires free { IsFree index (lists_of nodes.old ends.old) }
    requires len_fits { live_count (lists_of nodes.old ends.old) < 2 ^ 63 }
    ensures linked { IsLinked nodes.new ends.new }
    ensures lists { IfSome (stored nodes.old index) (λ item.
        lists_of nodes.new ends.new
        ≡ with_item_before at (index, item) (lists_of nodes.old ends.old)) }
    ensures more { live_count (lists_of nodes.new ends.new)
        ≡ live_count (lists_of nodes.old ends.old) + 1 }
    ensures same { SameItems nodes.old nodes.new }
{
    let node = &nodes[at];
    let list = node.list;
    let left = node.prev;
    link(nodes, ends, list, left, index, Some(at));
}
