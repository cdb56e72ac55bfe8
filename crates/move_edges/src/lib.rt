// The edges at a vertex as sets, which edges are singular, and which ones a turn marks newly.
#![tactic(auto)]

ghost use Rattle.std.specs.Prelude.{◌≡◌, ◌<◌, get_or, set};
ghost use Rattle.sets.specs.Sets.{none, with_bit, collect, set_of};
ghost use Rattle.sets.specs.Inner.{set_width, sets_of};
ghost use Rattle.move_edges.specs.Incidence.{Incident, PositiveSet, touching_by};
ghost use Rattle.move_edges.specs.Marking.{straight_by, singular_by, is_fresh_by};

use board::Board;
use sets::EdgeSet;

// ---- The edges at each vertex, and the positive edges, as sets.

// Adds edge e to the set of vertex v, where there is such a vertex.
#[tactic(auto, unfolding(lists::specs::Choice::pick))]
fn join(edges: &mut [EdgeSet], v: u32, e: usize)
    requires { e < set_width }
    ensures { sets_of edges.new ≡
        set (sets_of edges.old) v (with_bit (get_or (sets_of edges.old) v none) e) }
{
    let joined = sets::with(lists::at_or(edges, v as usize, sets::none()), true, e);
    lists::put(edges, v as usize, joined);
}

// For each vertex the set of the edges that have this end there.
pub fn at_vertices(ends: [u32; Board::MAX_EDGES]) -> [EdgeSet; Board::MAX_VERTICES]
    ensures { Incident ends (sets_of result) }
{
    let none = sets::none();
    let mut edges: [EdgeSet; Board::MAX_VERTICES] = [none; Board::MAX_VERTICES];
    for (e, v) in ends.iter().enumerate() {
        join(&mut edges, *v, e);
    }
    edges
}

// The set of the positive edges.
pub fn positive(flows: &[u32; Board::MAX_EDGES]) -> EdgeSet
    ensures { PositiveSet flows.now (set_of result) }
{
    let mut m = sets::none();
    for (e, flow) in flows.iter().enumerate() {
        m = sets::with(m, 0 < *flow, e);
    }
    m
}

// The set of the positive edges that have this end at v, and the empty set where there is no such vertex.
pub fn touching(edges: &[EdgeSet], positive: EdgeSet, v: u32) -> EdgeSet
    ensures { set_of result ≡ touching_by (sets_of edges.now) (set_of positive) v }
{
    sets::common(lists::at_or(edges, v as usize, sets::none()), positive)
}

// ---- Singular edges, and the edges that a turn marks. The edges that leave each vertex and the positive edges are
// sets.

// Whether v and each vertex after it has at most one positive edge leaving, for as many vertices as are left.
// It calls itself and is no loop: document 01 asks for this form (docs/DECISIONS.md).
fn straight<'a>(
    heads: &'a [u32],
    leaving: &'a [EdgeSet],
    positive: EdgeSet,
    left: u32,
    v: u32,
) -> bool
    ensures { result ≡ straight_by heads.now (sets_of leaving.now) (set_of positive) left v }
{
    if left == 0 {
        return true;
    }
    let out = touching(leaving, positive, v);
    if sets::is_empty(out) {
        return true;
    }
    let e = sets::lowest(out);
    let others = sets::drop(out, e);
    if !sets::is_empty(others) {
        return false;
    }
    let next = lists::at_or(heads, e as usize, 0);
    straight(heads, leaving, positive, left - 1, next)
}

// Whether the head of edge e, and every vertex reached from it, has at most one positive edge leaving.
pub fn singular_by<'a>(
    heads: &'a [u32],
    leaving: &'a [EdgeSet],
    positive: EdgeSet,
    vertices: u32,
    e: usize,
) -> bool
    ensures { result ≡ singular_by heads.now (sets_of leaving.now) (set_of positive) vertices e }
{
    let head = lists::at_or(heads, e, 0);
    straight(heads, leaving, positive, vertices, head)
}

// The edges that are not marked, positive and singular: those that a turn marks newly.
pub fn fresh_by<'a>(
    heads: &'a [u32],
    leaving: &'a [EdgeSet],
    positive: EdgeSet,
    vertices: u32,
    marks: EdgeSet,
) -> EdgeSet
    ensures { set_of result ≡ collect (is_fresh_by heads.now (sets_of leaving.now)
        (set_of positive) vertices (set_of marks)) none 0 set_width }
{
    // No index is counted here: the numbers come from the set itself, from which each is dropped.
    let mut rest = sets::without(positive, marks);
    let mut m = sets::none();
    while !sets::is_empty(rest) {
        let e = sets::lowest(rest);
        let joins = singular_by(heads, leaving, positive, vertices, e as usize);
        m = sets::with(m, joins, e as usize);
        rest = sets::drop(rest, e);
    }
    m
}
