// The cycle that the solver turns.
#![tactic(auto)]

ghost use Rattle.std.specs.Prelude.{◌≡◌, [], ◌∷◌, ◌++◌, ◌+◌, ◌≤◌, ◌<◌, get_or, drop};
ghost use Rattle.board.specs.Limits.{max_vertices};
ghost use Rattle.sets.specs.Sets.{with_bit, set_of};
ghost use Rattle.sets.specs.Inner.{word_width, sets_of};
ghost use Rattle.move_cycle.specs.Steps.{code_up, stride};
ghost use Rattle.solve_walk.specs.Walk.{another, first_met, down_walk, up_walk, cycle_of, packed};
ghost use Rattle.solve_walk.specs.Inner.{gone, StopsWith};
ghost use Rattle.solve_walk.specs.Chart.{Charted, Seen, another_by, parts_by};

use board::Board;
use move_cycle::StepCode;
use sets::{EdgeSet, VertexSet};

// The steps of a walk, from the first on; 0 in the places past them.
// No heap: the places are fixed, so the count of steps stands beside them.
#[derive(Clone, Copy)]
pub struct Walk {
    pub count: u32,
    pub steps: [StepCode; Board::MAX_EDGES],
}

// A walk so far: its steps, from the first on, no more than there are vertices; the vertices where they start; the edge
// of the last one; and the vertex that it has come to.
// No heap: the places are fixed, so the count of steps stands beside them.
#[derive(Clone, Copy)]
pub struct Way {
    pub count: u32,
    pub steps: [StepCode; Board::MAX_VERTICES],
    pub seen: VertexSet,
    pub edge: u32,
    pub vertex: u32,
}

// What the walk looks at, lent: the ends and the flows of the edges, the edges at each vertex, and the positive edges.
#[derive(Clone, Copy)]
struct Lent<'a> {
    tails: &'a [u32],
    heads: &'a [u32],
    flows: &'a [u32],
    leaving: &'a [EdgeSet],
    entering: &'a [EdgeSet],
    positive: EdgeSet,
}

// The lowest positive edge with this end at v other than x, or a number that no edge has.
// The definition `another_by` answers such a number for none, so no Option stands here.
fn another(edges: &[EdgeSet], positive: EdgeSet, v: u32, x: u32) -> u32
    ensures { result ≡ another_by (sets_of edges.now) (set_of positive) v x }
{
    let at = move_edges::touching(edges, positive, v);
    let others = sets::drop(at, x);
    sets::lowest(others)
}

// Whether two or more positive edges leave v.
fn parts(leaving: &[EdgeSet], positive: EdgeSet, v: u32) -> bool
    ensures { result ≡ parts_by (sets_of leaving.now) (set_of positive) v }
{
    let at = move_edges::touching(leaving, positive, v);
    let e = sets::lowest(at);
    let others = sets::drop(at, e);
    !sets::is_empty(others)
}

// Takes one step more, over edge e from the one end to the other.
fn step_on<'a>(starts: &'a [u32], ends: &'a [u32], ups: bool, e: u32, way: &mut Way)
    requires count_lt_max_vertices { way.old.count < max_vertices }
    requires e_lt_code_up { e < code_up }
    requires start_lt_word_width { get_or starts.now e 0 < word_width }
    ensures steps { gone way.new ≡ gone way.old ++ (stride ups e ∷ []) }
    ensures count { way.new.count ≡ way.old.count + 1 }
    ensures seen { way.new.seen ≡ with_bit way.old.seen (get_or starts.now e 0) }
    ensures edge { way.new.edge ≡ e }
    ensures vertex { way.new.vertex ≡ get_or ends.now e 0 }
{
    let start = lists::at_or(starts, e as usize, 0);
    way.steps[way.count as usize] = move_cycle::stride(ups, e);
    way.count += 1;
    way.seen = sets::word::with(way.seen, true, start as usize);
    way.edge = e;
    way.vertex = lists::at_or(ends, e as usize, 0);
}

// How many steps came before v was first met.
fn first_met<'a>(tails: &'a [u32], heads: &'a [u32], way: Way, v: u32) -> u32
    requires { way.count ≤ max_vertices }
    ensures value { result ≡ first_met tails.now heads.now (gone way) v }
    ensures within { result ≤ way.count }
{
    for i in 0..way.count {
        if move_cycle::start_of(tails, heads, way.steps[i as usize]) == v {
            return i;
        }
    }
    way.count
}

// The steps from k on, from the first place on.
fn walk_from(way: Way, k: u32) -> Walk
    requires k_le_count { k ≤ way.count }
    requires count_le_max_vertices { way.count ≤ max_vertices }
    ensures { result ≡ packed (drop k (gone way)) }
{
    let rest = way.count - k;
    let mut steps: [StepCode; Board::MAX_EDGES] = [0; Board::MAX_EDGES];
    steps[..rest as usize].copy_from_slice(&way.steps[k as usize..way.count as usize]);
    Walk { count: rest, steps }
}

// Goes on from where the walk has come to over an edge down, or without a step: down by the lowest edge; up where none
// leaves. The two call each other and are no loop: document 01 asks for this form (docs/DECISIONS.md).
#[cycle(down_walk_up_walk)]
fn down_walk<'a>(net: &'a Lent<'a>, left: u32, way: &mut Way)
    requires left_bound { way.old.count + left ≤ max_vertices }
    requires charted { Charted net.now.tails.now net.now.heads.now net.now.flows.now (sets_of net.now.leaving.now)
        (sets_of net.now.entering.now) (set_of net.now.positive) }
    requires seen { Seen net.now.tails.now net.now.heads.now (gone way.old) way.old.seen }
    requires vertex_lt_max_vertices { way.old.vertex < max_vertices }
    ensures { StopsWith net.now.tails.now net.now.heads.now
        (down_walk net.now.tails.now net.now.heads.now net.now.flows.now
        (another net.now.tails.now net.now.flows.now) (another net.now.heads.now net.now.flows.now) left
        (gone way.old) way.old.edge way.old.vertex) way.new }
{
    if lists::or(left == 0, sets::word::has(way.seen, way.vertex as usize)) {
        return;
    }
    let e = another(net.leaving, net.positive, way.vertex, way.edge);
    if (e as usize) < net.flows.len() {
        step_on(net.tails, net.heads, false, e, way);
        return down_walk(net, left - 1, way);
    }
    let c = another(net.entering, net.positive, way.vertex, way.edge);
    step_on(net.heads, net.tails, true, c, way);
    up_walk(net, left - 1, way)
}

// Goes on from where the walk has come to over an edge up: up while one edge leaves; down where two or more do.
#[cycle(down_walk_up_walk)]
fn up_walk<'a>(net: &'a Lent<'a>, left: u32, way: &mut Way)
    requires left_bound { way.old.count + left ≤ max_vertices }
    requires charted { Charted net.now.tails.now net.now.heads.now net.now.flows.now (sets_of net.now.leaving.now)
        (sets_of net.now.entering.now) (set_of net.now.positive) }
    requires seen { Seen net.now.tails.now net.now.heads.now (gone way.old) way.old.seen }
    requires vertex_lt_max_vertices { way.old.vertex < max_vertices }
    ensures { StopsWith net.now.tails.now net.now.heads.now
        (up_walk net.now.tails.now net.now.heads.now net.now.flows.now
        (another net.now.tails.now net.now.flows.now) (another net.now.heads.now net.now.flows.now) left
        (gone way.old) way.old.edge way.old.vertex) way.new }
{
    if lists::or(left == 0, sets::word::has(way.seen, way.vertex as usize)) {
        return;
    }
    if parts(net.leaving, net.positive, way.vertex) {
        let e = another(net.leaving, net.positive, way.vertex, way.edge);
        step_on(net.tails, net.heads, false, e, way);
        return down_walk(net, left - 1, way);
    }
    let c = another(net.entering, net.positive, way.vertex, way.edge);
    step_on(net.heads, net.tails, true, c, way);
    up_walk(net, left - 1, way)
}

// The cycle that the walk from the source finds.
pub fn cycle<'a>(
    tails: &'a [u32],
    heads: &'a [u32],
    leaving: &'a [EdgeSet],
    entering: &'a [EdgeSet],
    positive: EdgeSet,
    flows: &'a [u32],
    vertices: u32,
    source: u32,
) -> Walk
    requires vertices_le_max_vertices { vertices ≤ max_vertices }
    requires charted { Charted tails.now heads.now flows.now (sets_of leaving.now) (sets_of entering.now)
        (set_of positive) }
    requires source_lt_max_vertices { source < max_vertices }
    ensures { result ≡ packed (cycle_of tails.now heads.now
        flows.now vertices source) }
{
    let mut way = Way {
        count: 0,
        steps: [0; Board::MAX_VERTICES],
        seen: sets::word::none(),
        edge: flows.len() as u32,
        vertex: source,
    };
    let net = Lent {
        tails,
        heads,
        flows,
        leaving,
        entering,
        positive,
    };
    down_walk(&net, vertices, &mut way);
    let from = first_met(tails, heads, way, way.vertex);
    walk_from(way, from)
}
