// Reachability over positive edges, over plain slices: edge e leads from from[e] to to[e]. A set of vertices has a bool
// for each; a bitset has a bit.
#![tactic(auto)]

ghost use Rattle.std.specs.Prelude.{◌≡◌, true, false, ℕ, ◌<◌, ◌≤◌, ltb, get_or, set, length, replicate};
ghost use Rattle.lists.specs.Choice.{pick};
ghost use Rattle.sets.specs.Sets.{none, with_bit, joined, collect, set_of};
ghost use Rattle.sets.specs.Inner.{word_width, set_width, sets_of, lowest_in};
ghost use Rattle.graph.specs.Graph.{pass, passes, reached, leads};
ghost use Rattle.graph.specs.Bitsets.{column};

use sets::{EdgeSet, VertexSet};

// The bitset of `end` takes in the bitset of `start`. Answers whether the bitsets changed.
fn join(bitsets: &mut [VertexSet], start: usize, end: usize) -> bool
    ensures bitsets_after { bitsets.new ≡
        set bitsets.old end (joined (get_or bitsets.old end none)
        (get_or bitsets.old start none)) }
    ensures bitsets_unchanged { result ≡ false → bitsets.new ≡ bitsets.old }
{
    let none = sets::word::none();
    let old = lists::at_or(&*bitsets, end, none);
    let more = lists::at_or(&*bitsets, start, none);
    let new = sets::word::joined(old, more);
    lists::put(bitsets, end, new);
    new != old
}

// Where edge e is positive, the bitset of its end takes in the bitset of its start. Answers whether the bitsets
// changed.
fn cross(from: &[u32], to: &[u32], flows: &[u32], bitsets: &mut [VertexSet], e: usize) -> bool
    ensures bitsets_after { bitsets.new ≡
        pick (ltb 0 (get_or flows.now e 0)) (set bitsets.old (get_or to.now e 0)
        (joined (get_or bitsets.old (get_or to.now e 0) none)
        (get_or bitsets.old (get_or from.now e 0) none))) bitsets.old }
    ensures bitsets_unchanged { result ≡ false → bitsets.new ≡ bitsets.old }
{
    if lists::at_or(flows, e, 0) == 0 {
        return false;
    }
    let start = lists::at_or(from, e, 0) as usize;
    let end = lists::at_or(to, e, 0) as usize;
    join(bitsets, start, end)
}

// One pass over the edges, for every vertex at once. Answers whether the bitsets changed.
fn pass(from: &[u32], to: &[u32], flows: &[u32], bitsets: &mut [VertexSet]) -> bool
    ensures by_index { (v : ℕ) → column bitsets.new v ≡
        pass from.now to.now flows.now 0 (length flows.now)
        (column bitsets.old v) }
    ensures bitsets_unchanged { result ≡ false → bitsets.new ≡ bitsets.old }
{
    let mut any_changed = false;
    for e in 0..flows.len() {
        any_changed |= cross(from, to, flows, bitsets, e);
    }
    any_changed
}

// The bitset of each vertex is the vertex alone.
fn clear(bitsets: &mut [VertexSet])
    requires { length bitsets.old ≤ word_width }
    ensures { (v : ℕ) → column bitsets.new v ≡
        set (replicate (length bitsets.old) false) v true }
{
    for (v, bitset) in bitsets.iter_mut().enumerate() {
        *bitset = sets::word::with(sets::word::none(), true, v);
    }
}

// Passes over the edges until the bitsets no longer change.
fn spread(from: &[u32], to: &[u32], flows: &[u32], bitsets: &mut [VertexSet])
    ensures { (v : ℕ) → column bitsets.new v ≡
        passes from.now to.now flows.now (length bitsets.old)
        (column bitsets.old v) }
{
    for _ in 0..bitsets.len() {
        if !pass(from, to, flows, bitsets) {
            return;
        }
    }
}

// The bitsets in which a vertex u has v where u can be reached from v over positive edges.
pub fn reach(from: &[u32], to: &[u32], flows: &[u32], bitsets: &mut [VertexSet])
    requires { length bitsets.old ≤ word_width }
    ensures { (v : ℕ) → column bitsets.new v ≡
        reached from.now to.now flows.now (length bitsets.old) v }
{
    clear(bitsets);
    spread(from, to, flows, bitsets);
}

// The set of the vertices whose bitset has v.
pub fn column(bitsets: &[VertexSet], v: u32, seen: &mut [bool])
    requires { length seen.old ≡ length bitsets.now }
    ensures { seen.new ≡ column bitsets.now v }
{
    for (u, bitset) in bitsets.iter().enumerate() {
        seen[u] = sets::word::has(*bitset, v as usize);
    }
}

// ---- The edges that lead on from each vertex, as sets.

// The empty set for each vertex.
fn empty(edges: &mut [EdgeSet])
    ensures { (v : ℕ) → v < length edges.old → get_or (sets_of edges.new) v none ≡ none }
{
    edges.fill(sets::none());
}

// Where edge e is positive and leads into the set, it joins the edges of the vertex that it leaves.
fn leave(from: &[u32], to: &[u32], flows: &[u32], seen: &[bool], edges: &mut [EdgeSet], e: usize)
    requires { e < set_width }
    ensures { (v : ℕ) → v < length edges.old → get_or (sets_of edges.new) v none ≡
        pick (leads from.now to.now flows.now seen.now v e)
        (with_bit (get_or (sets_of edges.old) v none) e) (get_or (sets_of edges.old) v none) }
{
    if lists::at_or(flows, e, 0) == 0 {
        return;
    }
    let head = lists::at_or(to, e, 0) as usize;
    if !lists::at_or(seen, head, false) {
        return;
    }
    let tail = lists::at_or(from, e, 0) as usize;
    let old = lists::at_or(&*edges, tail, sets::none());
    lists::put(edges, tail, sets::with(old, true, e));
}

// For each vertex the set of the positive edges that leave it and lead into the set.
pub fn leaving(from: &[u32], to: &[u32], flows: &[u32], seen: &[bool], edges: &mut [EdgeSet])
    requires { length flows.now ≤ set_width }
    ensures { (v : ℕ) → v < length edges.old → get_or (sets_of edges.new) v none ≡
        collect (leads from.now to.now flows.now seen.now v) none 0
        (length flows.now) }
{
    empty(edges);
    for e in 0..flows.len() {
        leave(from, to, flows, seen, edges, e);
    }
}

// The lowest edge of a set, or the count of edges.
pub fn lowest_edge(edges: EdgeSet, count: usize) -> usize
    ensures { result ≡ pick (ltb (lowest_in (set_of edges)) count) (lowest_in (set_of edges)) count }
{
    (sets::lowest(edges) as usize).min(count)
}
