//! The arrays of an arena. A node is a place, or past the places the sentinel of a list; each list is a ring through its sentinel.
ghost use Rattle.std.specs.Prelude.{◌≡◌, ℕ, ◌+◌, ◌<◌, ◌≤◌, length, slice_index, slice_set, IfOk};
ghost use Rattle.st_links.specs.Ring.{as_place, taken_next, taken_prev, put_next, put_prev, IsSelf, IsHome};

use st_units::NoMemory;
use std::alloc::Global;

/// An array in which each of `count` nodes names itself.
pub fn selves(alloc: Global, count: usize) -> Result<Vec<usize>, NoMemory>
    ensures { IfOk result (λ v. IsSelf v.items count) }
{
    let mut nodes = Vec::with_capacity(alloc, count)?;
    for node in 0..count {
        nodes.push(node)?;
    }
    Ok(nodes)
}

/// The array of the lists that nodes stand in: no list for a place, and its own for a sentinel.
pub fn homes(alloc: Global, lists: usize, places: usize) -> Result<Vec<usize>, NoMemory>
    ensures { IfOk result (λ v. IsHome v.items places lists lists) }
{
    let mut homes = vec![in alloc; lists; places]?;
    for list in 0..lists {
        homes.push(list)?;
    }
    Ok(homes)
}

/// Takes a node out of its ring: its neighbours name each other.
pub fn take_out(next: &mut Vec<usize>, prev: &mut Vec<usize>, node: usize)
    requires next_in { node < length next.old.items }
    requires prev_in { node < length prev.old.items }
    requires before_in { slice_index prev.old.items node < length next.old.items }
    requires behind_in { slice_index next.old.items node < length prev.old.items }
    ensures next { next.new.items ≡ taken_next next.old.items prev.old.items node }
    ensures prev { prev.new.items ≡ taken_prev next.old.items prev.old.items node }
{
    let before = prev[node];
    let behind = next[node];
    next[before] = behind;
    prev[behind] = before;
}

/// Puts a node into a ring, behind the node `before`.
pub fn put_behind(next: &mut Vec<usize>, prev: &mut Vec<usize>, before: usize, node: usize)
    requires next_in { node < length next.old.items }
    requires prev_in { node < length prev.old.items }
    requires before_in { before < length next.old.items }
    requires behind_in { slice_index next.old.items before < length prev.old.items }
    ensures next { next.new.items ≡ put_next next.old.items before node }
    ensures prev { prev.new.items ≡ put_prev next.old.items prev.old.items before node }
{
    let behind = next[before];
    next[node] = behind;
    prev[node] = before;
    next[before] = node;
    prev[behind] = node;
}

/// A node as a place; a sentinel is none.
pub fn place_of(node: usize, places: usize) -> Option<usize>
    ensures { result ≡ as_place places node }
{
    if node < places { Some(node) } else { None }
}
