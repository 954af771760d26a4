//! Open nodes, the one of least distance first and of those the one of the least number: a binary heap in the front of a list of all
//! nodes, with each node's place.

ghost use Rattle.std.specs.Prelude.{◌≡◌, ◌+◌, ◌-◌, ◌*◌, ◌<◌, ◌≤◌, length, slice_index, slice_set, IfSome};
ghost use Rattle.dijkstra_paths.specs.Heap.{AreInverse, HasHole, SameOpen};

use mcf_limits::MAX_NODES;

// Whether an open node comes before another one: by its key, and where both have the same by its number. So nodes of one distance are
// gone on from in the same order, whichever was opened first.
#[inline(always)]
fn is_before(key: u64, node: u16, other_key: u64, other: u16) -> bool {
    // no branch on the comparison, which is as good as random
    (key < other_key) | ((key == other_key) & (node < other))
}

// Puts the node into the free place.
#[inline(always)]
fn fill(order: &mut [u16], place: &mut [u16], keys: &mut [u64], at: usize, node: u16, key: u64)
    requires hole { HasHole order.old place.old at node }
    requires small { length order.old ≤ MAX_NODES }
    requires keys { length keys.old ≡ length order.old }
    ensures inverse { AreInverse order.new place.new }
    ensures place { place.new ≡ slice_set place.old node at }
{
    order[at] = node;
    keys[at] = key;
    place[node as usize] = at as u16;
}

// Moves the node up from the free place, past those that come after it.
#[inline(always)]
fn rise(
    order: &mut [u16],
    place: &mut [u16],
    keys: &mut [u64],
    hole: usize,
    count: usize,
    node: u16,
    key: u64,
)
    requires hole { HasHole order.old place.old hole node }
    requires small { length order.old ≤ MAX_NODES }
    requires keys { length keys.old ≡ length order.old }
    requires inside { hole < count }
    requires within { count ≤ length order.old }
    ensures inverse { AreInverse order.new place.new }
    ensures opened { slice_index place.new node < count }
    ensures others { SameOpen place.old count place.new count node }
{
    let mut at = hole;
    while at > 0 && is_before(key, node, keys[(at - 1) / 2], order[(at - 1) / 2]) {
        let up = (at - 1) / 2;
        let other = order[up];
        order[at] = other;
        keys[at] = keys[up];
        place[other as usize] = at as u16;
        at = up;
    }
    fill(order, place, keys, at, node, key);
}

// The child of the free place that comes before the other, where it comes before the given node too.
#[inline(always)]
fn first_child(
    order: &[u16],
    keys: &[u64],
    at: usize,
    count: usize,
    node: u16,
    key: u64,
) -> Option<usize>
    requires within { count ≤ length order.now }
    requires keys { length keys.now ≡ length order.now }
    requires small { length order.now ≤ MAX_NODES }
    requires at { at < count }
    ensures below { IfSome result (λ child. at < child) }
    ensures inside { IfSome result (λ child. child < count) }
{
    let left = 2 * at + 1;
    if left >= count {
        return None;
    }
    let right = left + 1;
    let child = if right < count {
        left + is_before(keys[right], order[right], keys[left], order[left]) as usize
    } else {
        left
    };
    if is_before(keys[child], order[child], key, node) {
        Some(child)
    } else {
        None
    }
}

// Moves the node down from the first place, past those that come before it.
#[inline(always)]
fn sink(order: &mut [u16], place: &mut [u16], keys: &mut [u64], count: usize, node: u16, key: u64)
    requires hole { HasHole order.old place.old 0 node }
    requires small { length order.old ≤ MAX_NODES }
    requires keys { length keys.old ≡ length order.old }
    requires some { 0 < count }
    requires within { count ≤ length order.old }
    ensures inverse { AreInverse order.new place.new }
    ensures opened { slice_index place.new node < count }
    ensures others { SameOpen place.old count place.new count node }
{
    let mut at = 0;
    while let Some(child) = first_child(order, keys, at, count, node, key) {
        let other = order[child];
        order[at] = other;
        keys[at] = keys[child];
        place[other as usize] = at as u16;
        at = child;
    }
    fill(order, place, keys, at, node, key);
}

/// Opens the node, or moves it forward where its key has fallen, and gives the number of open nodes.
#[inline(always)]
pub fn put(
    order: &mut [u16],
    place: &mut [u16],
    keys: &mut [u64],
    count: usize,
    node: u16,
    key: u64,
) -> usize
    requires inverse { AreInverse order.old place.old }
    requires small { length order.old ≤ MAX_NODES }
    requires keys { length keys.old ≡ length order.old }
    requires within { count ≤ length order.old }
    requires node { node < length order.old }
    ensures inverse { AreInverse order.new place.new }
    ensures opened { slice_index place.new node < result }
    ensures others { SameOpen place.old count place.new result node }
    ensures grows { result ≤ count + 1 }
    ensures within { result ≤ length order.old }
{
    let at = place[node as usize] as usize;
    if at < count {
        rise(order, place, keys, at, count, node, key);
        return count;
    }
    let other = order[count];
    order[at] = other;
    place[other as usize] = at as u16;
    rise(order, place, keys, count, count + 1, node, key);
    count + 1
}

/// Takes out the open node that comes first.
#[inline(always)]
pub fn pop(order: &mut [u16], place: &mut [u16], keys: &mut [u64], count: usize) -> u16
    requires inverse { AreInverse order.old place.old }
    requires small { length order.old ≤ MAX_NODES }
    requires keys { length keys.old ≡ length order.old }
    requires some { 0 < count }
    requires within { count ≤ length order.old }
    ensures inverse { AreInverse order.new place.new }
    ensures node { result < length order.old }
    ensures was_open { slice_index place.old result < count }
    ensures closed { count ≤ slice_index place.new result + 1 }
    ensures others { SameOpen place.old count place.new (count - 1) result }
{
    let first = order[0];
    let end = count - 1;
    let last = order[end];
    let key = keys[end];
    if end == 0 {
        return first;
    }
    order[end] = first;
    place[first as usize] = end as u16;
    sink(order, place, keys, end, last, key);
    first
}
