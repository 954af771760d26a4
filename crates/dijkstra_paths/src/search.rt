//! The search: nodes are opened as they come nearer, and each goes on to the nodes after it.

ghost use Rattle.std.specs.Prelude.{◌≡◌, ◌⊎◌, ℕ, ◌+◌, ◌*◌, ◌^◌, ◌<◌, ◌≤◌, if◌then◌else◌, length, slice_index, IsFalse, IfSome, Some};
ghost use Rattle.std.specs.List.{sum_by};
ghost use Rattle.flow_model.specs.declared.net.Cell.{Cell};
ghost use Rattle.flow_model.specs.Walk.{Goes, PassesOver};
ghost use Rattle.flow_model.specs.Lengths.{AreLengths};
ghost use Rattle.dijkstra_paths.specs.Arcs.{ends_of};
ghost use Rattle.dijkstra_paths.specs.Heap.{AreInverse};
ghost use Rattle.dijkstra_paths.specs.Tree.{AreFront, AreOpen, AreSameSlices, GoBothWays, IsFront, IsTree, IsDone, IsUnderWay, IsWay};

use crate::graph::CellEnds;
use crate::queue::{pop, put};
use crate::{Arc, Graph};
use mcf_limits::{MAX_LENGTH, MAX_NODES};
use std::hint::select_unpredictable;

// Up to this number of cells a node, it pays to look at all ways to a node.
const FEW_CELLS: usize = 2;

/// The cell by which a node was reached, and the node before it.
#[derive(Clone, Copy)]
pub struct Step {
    /// The number of the cell.
    pub cell: u16,
    /// The node before.
    pub from: u16,
}

/// A node, and the step by which an earlier search reached it.
#[derive(Clone, Copy)]
pub struct Kept {
    /// The node.
    pub node: u16,
    /// The step that led to it.
    pub step: Step,
}

/// What a search works in: the distance of each node and the step to it, and all nodes in an order whose front is a
/// heap of the open ones, with each node's place in it and the key of each place.
#[derive(Drop)]
pub struct Front {
    /// The distance of each node; `MAX_LENGTH` for one that was not reached.
    pub dist: Vec<u64>,
    /// The step to each node.
    pub steps: Vec<Step>,
    /// All nodes, those that are open in front, as a heap.
    pub order: Vec<u16>,
    /// The place of each node in that order.
    pub place: Vec<u16>,
    /// The key of each place: the distance of its node.
    pub keys: Vec<u64>,
}

// The lists of a front as slices. Only inlined functions take them, so that they stay in registers while lists are
// written, where those of a `&mut Front` would be read again.
#[derive(Drop)]
struct FrontSlices<'a> {
    dist: &'a mut [u64],
    steps: &'a mut [Step],
    order: &'a mut [u16],
    place: &'a mut [u16],
    keys: &'a mut [u64],
}

// Goes over the arc from the node, where that is shorter, and gives the number of open nodes.
#[inline(always)]
fn relax(
    graph: &Graph,
    lengths: &[u64],
    from: u16,
    node: u16,
    arc: Arc,
    front: &mut FrontSlices,
    count: usize,
) -> usize
    requires lengths { AreLengths graph.now.cells lengths.now }
    requires small { length front.old.dist.now ≤ MAX_NODES }
    requires keys { length front.old.keys.now ≡ length front.old.dist.now }
    requires nodes { (node < length front.old.dist.now) × (arc.to < length front.old.dist.now)
        × (arc.cell < length lengths.now) }
    requires passes { PassesOver graph.now.cells arc.cell node arc.to }
    requires near { slice_index front.old.dist.now node < MAX_LENGTH }
    requires state { IsUnderWay graph.now.cells lengths.now from node front.old count }
    ensures state { IsUnderWay graph.now.cells lengths.now from node front.new result }
    ensures slices { AreSameSlices front.old front.new }
    ensures keys { length front.new.keys.now ≡ length front.new.dist.now }
    ensures nodes { length front.new.dist.now ≡ length front.old.dist.now }
    ensures falls { (v : ℕ) → slice_index front.new.dist.now v ≤ slice_index front.old.dist.now v }
    ensures node { slice_index front.new.dist.now node ≡ slice_index front.old.dist.now node }
    ensures there { slice_index front.new.dist.now arc.to
        ≤ slice_index front.old.dist.now node + slice_index lengths.now arc.cell }
    ensures work { 2 * sum_by (λ d. d) front.new.dist.now + result
        ≤ 2 * sum_by (λ d. d) front.old.dist.now + count }
{
    let _ = graph;
    let _ = from;
    let there = front.dist[node as usize] + lengths[arc.cell as usize];
    if there >= front.dist[arc.to as usize] {
        return count;
    }
    front.dist[arc.to as usize] = there;
    front.steps[arc.to as usize] = Step {
        cell: arc.cell,
        from: node,
    };
    put(front.order, front.place, front.keys, count, arc.to, there)
}

// Goes over all arcs from the node.
#[inline(always)]
fn go_on(
    graph: &Graph,
    lengths: &[u64],
    from: u16,
    node: u16,
    front: &mut FrontSlices,
    count: usize,
) -> usize
    requires lengths { AreLengths graph.now.cells lengths.now }
    requires nodes { length front.old.dist.now ≡ graph.now.nodes }
    requires keys { length front.old.keys.now ≡ length front.old.dist.now }
    requires node { node < length front.old.dist.now }
    requires near { slice_index front.old.dist.now node < MAX_LENGTH }
    requires state { IsUnderWay graph.now.cells lengths.now from node front.old count }
    ensures state { IsUnderWay graph.now.cells lengths.now from node front.new result }
    ensures slices { AreSameSlices front.old front.new }
    ensures keys { length front.new.keys.now ≡ length front.new.dist.now }
    ensures nodes { length front.new.dist.now ≡ length front.old.dist.now }
    ensures done { IsDone graph.now.cells lengths.now front.new.dist.now node }
    ensures work { 2 * sum_by (λ d. d) front.new.dist.now + result
        ≤ 2 * sum_by (λ d. d) front.old.dist.now + count }
{
    let mut count = count;
    let arcs = graph.out(node);
    for arc in arcs {
        count = relax(graph, lengths, from, node, *arc, front, count);
    }
    count
}

// Puts all nodes out of reach.
#[inline(always)]
fn clear(dist: &mut [u64])
    ensures { (v : ℕ) → v < length dist.new → slice_index dist.new v ≡ MAX_LENGTH }
{
    for d in dist.iter_mut() {
        *d = MAX_LENGTH;
    }
}

// Gives the node the distance over an earlier step to it, where that goes and is shorter than what is known.
#[inline(always)]
fn keep_step(
    graph: &Graph,
    lengths: &[u64],
    from: u16,
    node: u16,
    step: Step,
    dist: &mut [u64],
    steps: &mut [Step],
)
    requires lengths { AreLengths graph.now.cells lengths.now }
    requires nodes { length dist.old ≡ graph.now.nodes }
    requires tree { IsTree graph.now.cells lengths.now from dist.old steps.old }
    ensures tree { IsTree graph.now.cells lengths.now from dist.new steps.new }
    ensures nodes { length dist.new ≡ length dist.old }
{
    let _ = from;
    if !graph.passes(step.cell, step.from, node) {
        return;
    }
    let there = dist[step.from as usize] + lengths[step.cell as usize];
    if there < dist[node as usize] {
        dist[node as usize] = there;
        steps[node as usize] = step;
    }
}

// Gives nodes the distances along an earlier tree, in its order: mostly nodes before those that were reached from them. It is a
// function of its own, as `look_along` and `open_nodes` are, so that its pointers stay in registers: within the whole search they are
// on the stack.
#[inline(never)]
fn keep_steps(
    graph: &Graph,
    lengths: &[u64],
    from: u16,
    earlier: &[Kept],
    dist: &mut [u64],
    steps: &mut [Step],
)
    requires lengths { AreLengths graph.now.cells lengths.now }
    requires nodes { length dist.old ≡ graph.now.nodes }
    requires tree { IsTree graph.now.cells lengths.now from dist.old steps.old }
    ensures tree { IsTree graph.now.cells lengths.now from dist.new steps.new }
    ensures nodes { length dist.new ≡ length dist.old }
{
    for kept in earlier {
        keep_step(graph, lengths, from, kept.node, kept.step, dist, steps);
    }
}

// A way over a cell at a node: the cell, the node at its other end, and how long it is from the source on, as far as that is known.
#[derive(Clone, Copy)]
struct Way {
    cell: u16,
    from: u16,
    long: u64,
}

// The one way or the other, without a branch.
#[inline(always)]
fn either(first: bool, one: Way, other: Way) -> Way
    ensures { result ≡ (if first then one else other) }
{
    Way {
        cell: select_unpredictable(first, one.cell, other.cell),
        from: select_unpredictable(first, one.from, other.from),
        long: select_unpredictable(first, one.long, other.long),
    }
}

// The shortest of what is known of a node and the ways over the cells at it, as far as distances are known. Where cells go both ways,
// they lead to the node too. Of equally short ones it is the first, or that over the cell of the earlier step.
#[inline(always)]
fn shortest_way(graph: &Graph, lengths: &[u64], kept: Kept, dist: &[u64]) -> Way
    requires lengths { AreLengths graph.now.cells lengths.now }
    requires nodes { length dist.now ≡ graph.now.nodes }
    requires node { kept.node < graph.now.nodes }
    requires bound { (v : ℕ) → v < length dist.now → slice_index dist.now v ≤ MAX_LENGTH }
    ensures { (result.long ≡ slice_index dist.now kept.node)
        ⊎ IsWay graph.now.cells lengths.now dist.now kept.node result }
{
    let mut way = Way {
        cell: 0,
        from: 0,
        long: dist[kept.node as usize],
    };
    let arcs = graph.out(kept.node);
    for arc in arcs {
        let long = dist[arc.to as usize] + lengths[arc.cell as usize];
        let other = Way {
            cell: arc.cell,
            from: arc.to,
            long,
        };
        // the earlier step's way comes first where it is as short as another: no way is of length 0
        let lead = u64::from(arc.cell == kept.step.cell);
        // no branch: which way is the shortest follows no pattern
        way = either(long - lead < way.long, other, way);
    }
    way
}

// Gives the node the distance over the shortest of the ways to it over the cells at it, where that is shorter than what is known.
#[inline(always)]
fn come_near(
    graph: &Graph,
    lengths: &[u64],
    from: u16,
    kept: Kept,
    dist: &mut [u64],
    steps: &mut [Step],
)
    requires lengths { AreLengths graph.now.cells lengths.now }
    requires both { GoBothWays graph.now.cells }
    requires nodes { length dist.old ≡ graph.now.nodes }
    requires tree { IsTree graph.now.cells lengths.now from dist.old steps.old }
    ensures tree { IsTree graph.now.cells lengths.now from dist.new steps.new }
    ensures nodes { length dist.new ≡ length dist.old }
{
    let _ = from;
    let node = kept.node as usize;
    if kept.node >= graph.nodes() {
        return;
    }
    let way = shortest_way(graph, lengths, kept, dist);
    if way.long < dist[node] {
        dist[node] = way.long;
        steps[node] = Step {
            cell: way.cell,
            from: way.from,
        };
    }
}

// As `keep_steps`, but each node gets the shortest way over the cells at it, of which the earlier step is mostly one. Mostly these
// are the least distances, so few nodes are opened then. Each cell has to go both ways.
#[inline(never)]
fn look_along(
    graph: &Graph,
    lengths: &[u64],
    from: u16,
    earlier: &[Kept],
    dist: &mut [u64],
    steps: &mut [Step],
)
    requires lengths { AreLengths graph.now.cells lengths.now }
    requires both { GoBothWays graph.now.cells }
    requires nodes { length dist.old ≡ graph.now.nodes }
    requires tree { IsTree graph.now.cells lengths.now from dist.old steps.old }
    ensures tree { IsTree graph.now.cells lengths.now from dist.new steps.new }
    ensures nodes { length dist.new ≡ length dist.old }
{
    for kept in earlier {
        come_near(graph, lengths, from, *kept, dist, steps);
    }
}

// Whether nodes have so few ways that it pays to look at all of them.
#[inline(always)]
fn is_sparse(graph: &Graph) -> bool {
    graph.cells().len() <= FEW_CELLS * graph.nodes() as usize
}

// Whether the distances of both ends lie further apart than the length of their cell, so that a way over it may be shorter than what is
// known.
#[inline(always)]
fn are_apart(ends: CellEnds, long: u64, dist: &[u64]) -> bool
    requires ends { (ends.tail < length dist.now) × (ends.head < length dist.now) }
    requires bound { (v : ℕ) → v < length dist.now → slice_index dist.now v ≤ MAX_LENGTH }
    ensures { (cell : Cell) (u x : ℕ) → IsFalse result → ends ≡ ends_of cell → long ≤ 2 ^ 52 → 1 ≤ cell.cap
        → Goes cell u x → slice_index dist.now x ≤ slice_index dist.now u + long }
{
    // one comparison for both ways, since mostly neither end is nearer over the cell: what is below 0 wraps to a great number
    let ahead = dist[ends.tail as usize].wrapping_add(long);
    ahead.wrapping_sub(dist[ends.head as usize]) > long.wrapping_add(long)
}

// The node from which the way over the cell of that number is shorter than what is known, if it is a positive cell with such a way. It
// is a function of its own, and takes the number, since it is called for few cells: so the loop over all of them has no pointer to each.
#[inline(never)]
fn nearer_from(graph: &Graph, lengths: &[u64], number: usize, dist: &[u64]) -> Option<u16>
    requires lengths { AreLengths graph.now.cells lengths.now }
    requires nodes { length dist.now ≡ graph.now.nodes }
    requires bound { (v : ℕ) → v < length dist.now → slice_index dist.now v ≤ MAX_LENGTH }
    requires number { number < length graph.now.cells }
    ensures inside { IfSome result (λ u. u < length dist.now) }
    ensures near { IfSome result (λ u. slice_index dist.now u < MAX_LENGTH) }
    ensures way { (u x : ℕ) → PassesOver graph.now.cells number u x
        → (slice_index dist.now x ≤ slice_index dist.now u + slice_index lengths.now number) ⊎ (result ≡ Some u) }
{
    let cell = &graph.cells()[number];
    if cell.cap == 0 {
        return None;
    }
    let long = lengths[number];
    let tail = dist[cell.tail as usize];
    let head = dist[cell.head as usize];
    if tail + long < head {
        return Some(cell.tail);
    }
    if cell.both && head + long < tail {
        return Some(cell.head);
    }
    None
}

// Opens the node, which has a distance, and gives the number of open nodes. It is a function of its own, since it is called for few
// cells.
#[inline(never)]
fn open(
    node: u16,
    dist: &[u64],
    order: &mut [u16],
    place: &mut [u16],
    keys: &mut [u64],
    count: usize,
) -> usize
    requires node { node < length dist.now }
    requires near { slice_index dist.now node < MAX_LENGTH }
    requires small { length dist.now ≤ MAX_NODES }
    requires keys { length keys.old ≡ length dist.now }
    requires state { AreOpen dist.now order.old place.old count }
    ensures keys { length keys.new ≡ length dist.now }
    ensures state { AreOpen dist.now order.new place.new result }
    ensures stays { (v : ℕ) → v < length dist.now → slice_index place.old v < count → slice_index place.new v < result }
    ensures opened { slice_index place.new node < result }
{
    put(order, place, keys, count, node, dist[node as usize])
}

// Opens each node from which a way on is shorter than what is known, and gives the number of open nodes.
#[inline(never)]
fn open_nodes(
    graph: &Graph,
    lengths: &[u64],
    dist: &[u64],
    order: &mut [u16],
    place: &mut [u16],
    keys: &mut [u64],
) -> usize
    requires lengths { AreLengths graph.now.cells lengths.now }
    requires nodes { length dist.now ≡ graph.now.nodes }
    requires bound { (v : ℕ) → v < length dist.now → slice_index dist.now v ≤ MAX_LENGTH }
    requires orders { length order.old ≡ length dist.now }
    requires keys { length keys.old ≡ length dist.now }
    requires inverse { AreInverse order.old place.old }
    ensures state { AreOpen dist.now order.new place.new result }
    ensures done { (u : ℕ) → result ≤ slice_index place.new u → IsDone graph.now.cells lengths.now dist.now u }
    ensures keys { length keys.new ≡ length dist.now }
{
    let _cells = graph.cells();
    let ends = graph.ends();
    let mut count = 0;
    for number in 0..ends.len() {
        if are_apart(ends[number], lengths[number], dist) {
            if let Some(node) = nearer_from(graph, lengths, number, dist) {
                count = open(node, dist, order, place, keys, count);
            }
        }
    }
    count
}

// Goes on from the open nodes until there are none.
#[inline(always)]
fn close_all(graph: &Graph, lengths: &[u64], from: u16, front: &mut FrontSlices, count: usize)
    requires lengths { AreLengths graph.now.cells lengths.now }
    requires nodes { length front.old.dist.now ≡ graph.now.nodes }
    requires keys { length front.old.keys.now ≡ length front.old.dist.now }
    requires state { IsUnderWay graph.now.cells lengths.now from (length front.old.dist.now) front.old count }
    ensures slices { AreSameSlices front.old front.new }
    ensures front { AreFront graph.now.nodes front.new }
    ensures tree { IsTree graph.now.cells lengths.now from front.new.dist.now front.new.steps.now }
    ensures done { (u : ℕ) → u < length front.new.dist.now → slice_index front.new.dist.now u < MAX_LENGTH
        → IsDone graph.now.cells lengths.now front.new.dist.now u }
{
    let _nodes = graph.nodes();
    let mut count = count;
    while count > 0 {
        let node = pop(front.order, front.place, front.keys, count);
        count = go_on(graph, lengths, from, node, front, count - 1);
    }
}

// Puts all nodes but the first out of reach, and then at the distances along an earlier tree.
#[inline(always)]
fn begin(
    graph: &Graph,
    lengths: &[u64],
    from: u16,
    earlier: &[Kept],
    dist: &mut [u64],
    steps: &mut [Step],
)
    requires lengths { AreLengths graph.now.cells lengths.now }
    requires nodes { length dist.old ≡ graph.now.nodes }
    requires steps { length steps.old ≡ length dist.old }
    requires from { from < graph.now.nodes }
    ensures tree { IsTree graph.now.cells lengths.now from dist.new steps.new }
    ensures nodes { length dist.new ≡ length dist.old }
{
    clear(dist);
    dist[from as usize] = 0;
    if graph.goes_both_ways() && is_sparse(graph) {
        look_along(graph, lengths, from, earlier, dist, steps);
    } else {
        keep_steps(graph, lengths, from, earlier, dist, steps);
    }
}

/// Finds the least distances from a node.
pub fn search(graph: &Graph, lengths: &[u64], from: u16, front: &mut Front)
    requires lengths { AreLengths graph.now.cells lengths.now }
    requires front { IsFront graph.now.nodes front.old }
    requires from { from < graph.now.nodes }
    ensures front { IsFront graph.now.nodes front.new }
    ensures tree { IsTree graph.now.cells lengths.now from front.new.dist.items front.new.steps.items }
    ensures done { (u : ℕ) → u < length front.new.dist.items → slice_index front.new.dist.items u < MAX_LENGTH
        → IsDone graph.now.cells lengths.now front.new.dist.items u }
{
    let _nodes = graph.nodes();
    let dist = front.dist.as_mut_slice();
    let steps = front.steps.as_mut_slice();
    let order = front.order.as_mut_slice();
    let place = front.place.as_mut_slice();
    let keys = front.keys.as_mut_slice();
    clear(dist);
    dist[from as usize] = 0;
    let count = put(order, place, keys, 0, from, 0);
    let mut slices = FrontSlices {
        dist,
        steps,
        order,
        place,
        keys,
    };
    close_all(graph, lengths, from, &mut slices, count);
    // each list is named once its borrow has ended, so that the checker knows what was left in it
    let _ = dist;
    let _ = steps;
    let _ = order;
    let _ = place;
    let _ = keys;
}

/// A search that begins at an earlier tree. The tree changes no distance: it makes the search quick where it is one from the same node
/// and few distances have changed since. `false` where no node was opened: then each node that was reached still stands behind the one
/// that it was reached from, in the tree's order.
#[inline(never)]
pub fn search_on(
    graph: &Graph,
    lengths: &[u64],
    from: u16,
    earlier: &[Kept],
    front: &mut Front,
) -> bool
    requires lengths { AreLengths graph.now.cells lengths.now }
    requires front { IsFront graph.now.nodes front.old }
    requires from { from < graph.now.nodes }
    ensures front { IsFront graph.now.nodes front.new }
    ensures tree { IsTree graph.now.cells lengths.now from front.new.dist.items front.new.steps.items }
    ensures done { (u : ℕ) → u < length front.new.dist.items → slice_index front.new.dist.items u < MAX_LENGTH
        → IsDone graph.now.cells lengths.now front.new.dist.items u }
{
    let dist = front.dist.as_mut_slice();
    let steps = front.steps.as_mut_slice();
    let order = front.order.as_mut_slice();
    let place = front.place.as_mut_slice();
    let keys = front.keys.as_mut_slice();
    begin(graph, lengths, from, earlier, dist, steps);
    let count = open_nodes(graph, lengths, dist, order, place, keys);
    let mut slices = FrontSlices {
        dist,
        steps,
        order,
        place,
        keys,
    };
    close_all(graph, lengths, from, &mut slices, count);
    // each list is named once its borrow has ended, so that the checker knows what was left in it
    let _ = dist;
    let _ = steps;
    let _ = order;
    let _ = place;
    let _ = keys;
    count > 0
}
