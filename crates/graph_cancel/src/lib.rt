// Cycle cancelling, over plain slices: edge e goes from tails[e] to heads[e], and a set of vertices has a bool for
// each, a bitset a bit.
#![tactic(auto)]

ghost use Rattle.std.specs.Prelude.{◌≡◌, [], ℕ, ◌≤◌, ◌<◌, ltb, length, get_or};
ghost use Rattle.sets.specs.Sets.{has_bit};
ghost use Rattle.sets.specs.Inner.{word_width, set_width};
ghost use Rattle.graph.specs.Graph.{reached, onward};
ghost use Rattle.graph.specs.Bitsets.{column};
ghost use Rattle.graph_cancel.specs.Cycles.{since, follow, cycle_vertex, cycle_from};
ghost use Rattle.graph_cancel.specs.Lowering.{smallest, lowered, lower_cycle};
ghost use Rattle.graph_cancel.specs.Cancelling.{acyclic_flows};

use sets::VertexSet;

// ---- The lowest vertex on a cycle of positive edges, and the walk from it.

// The set of the vertices that a positive edge leaves from whose head they can be reached: the head's bitset has them.
fn on_cycles(tails: &[u32], heads: &[u32], flows: &[u32], bitsets: &[VertexSet]) -> VertexSet
    ensures { (v : ℕ) → has_bit result v ≡
        ltb (onward tails.now heads.now flows.now (column bitsets.now v) v)
        (length flows.now) }
{
    let none = sets::word::none();
    let mut on = none;
    for (e, flow) in flows.iter().enumerate() {
        let tail = lists::at_or(tails, e, 0) as usize;
        let head = lists::at_or(heads, e, 0) as usize;
        let bitset = lists::at_or(bitsets, head, none);
        if 0 < *flow && sets::word::has(bitset, tail) {
            on = sets::word::with(on, true, tail);
        }
    }
    on
}

// The lowest vertex on a cycle of positive edges, or the count of vertices. The bitsets are left as the vertices that
// each vertex reaches.
fn cycle_vertex(
    tails: &[u32],
    heads: &[u32],
    flows: &[u32],
    n: u32,
    bitsets: &mut [VertexSet],
) -> u32
    requires { (n ≡ length bitsets.old) × (n ≤ word_width) }
    ensures value { result ≡ cycle_vertex tails.now heads.now n flows.now }
    ensures by_index { (v : ℕ) → column bitsets.new v ≡
        reached heads.now tails.now flows.now n v }
{
    graph::reach(heads, tails, flows, bitsets);
    let on = on_cycles(tails, heads, flows, &*bitsets);
    sets::word::lowest(on).min(n)
}

// How many edges of a walk, the latest first, come before the one that left v.
fn since(tails: &[u32], v: u32, walk: &[usize]) -> usize
    ensures value { result ≡ since tails.now v walk.now }
    ensures upper_bound { result ≤ length walk.now }
{
    for (i, e) in walk.iter().enumerate() {
        if lists::at_or(tails, *e, 0) == v {
            return i;
        }
    }
    walk.len()
}

// Walks from `start` until a vertex comes a second time, filling `walk` from its end; answers the part since that
// vertex was left.
fn follow<'w>(
    tails: &[u32],
    heads: &[u32],
    flows: &[u32],
    seen: &[bool],
    start: u32,
    walk: &'w mut [usize],
) -> &'w [usize]
    requires heads_in_bounds { (length heads.now ≤ length flows.now) × (length flows.now ≤ set_width) }
    requires seen_len_bound { (length seen.now ≤ word_width) × (start < length seen.now) }
    ensures { result.now ≡ follow tails.now heads.now flows.now seen.now (length walk.old) [] start }
{
    let none = sets::none();
    let mut edges = [none; sets::word::WIDTH];
    graph::leaving(tails, heads, flows, seen, &mut edges);
    let mut v = start;
    for at in (0..walk.len()).rev() {
        let onward = lists::at_or(&edges, v as usize, none);
        let e = graph::lowest_edge(onward, flows.len());
        walk[at] = e;
        v = lists::at_or(heads, e, 0);
        let count = since(tails, v, &walk[at..]);
        if count < walk.len() - at {
            return &walk[at..=at + count];
        }
    }
    &[]
}

// ---- One cycle lowered by the smallest flow on it.

// The smallest flow on a cycle.
fn smallest(flows: &[u32], cycle: &[usize]) -> u32
    ensures { result ≡ smallest flows.now (get_or flows.now (get_or cycle.now 0 0) 0)
        cycle.now }
{
    let first = lists::at_or(cycle, 0, 0);
    let mut least = lists::at_or(flows, first, 0);
    for e in cycle {
        let flow = lists::at_or(flows, *e, 0);
        least = flow.min(least);
    }
    least
}

// Lowers each edge of a cycle by x.
fn lower(flows: &mut [u32], x: u32, cycle: &[usize])
    ensures { flows.new ≡ lowered flows.old x cycle.now }
{
    for e in cycle {
        let flow = lists::at_or(&*flows, *e, 0);
        lists::put(flows, *e, flow.saturating_sub(x));
    }
}

// Lowers each edge of a cycle by the smallest flow among them.
fn lower_cycle(flows: &mut [u32], cycle: &[usize])
    ensures { flows.new ≡ lower_cycle flows.old cycle.now }
{
    let x = smallest(&*flows, cycle);
    lower(flows, x, cycle);
}

// ---- All rounds.

// Cancels the cycle that the walk from v finds: the bitsets have the vertices that each vertex reaches. The set and the
// walk are for its use.
fn cancel_from(
    tails: &[u32],
    heads: &[u32],
    flows: &mut [u32],
    v: u32,
    seen: &mut [bool],
    walk: &mut [usize],
    bitsets: &[VertexSet],
)
    requires heads_in_bounds { (length heads.now ≤ length flows.old) × (length flows.old ≤ set_width) }
    requires seen_len { (length seen.old ≡ length walk.old) × (length seen.old ≡ length bitsets.now)
        × (v < length bitsets.now) × (length bitsets.now ≤ word_width) }
    requires v_value { column bitsets.now v ≡ reached heads.now tails.now flows.old (length seen.old) v }
    ensures { flows.new ≡
        lower_cycle flows.old (cycle_from tails.now heads.now
        (length seen.old) flows.old v) }
{
    graph::column(bitsets, v, seen);
    let cycle = follow(tails, heads, &*flows, &*seen, v, walk);
    lower_cycle(flows, cycle);
}

// Cancels every cycle, the lowest vertex on one first. The set, the walk and the bitsets are for its use.
fn cancel_all(
    tails: &[u32],
    heads: &[u32],
    flows: &mut [u32],
    n: u32,
    seen: &mut [bool],
    walk: &mut [usize],
    bitsets: &mut [VertexSet],
)
    requires heads_in_bounds { (length heads.now ≤ length flows.old) × (length flows.old ≤ set_width) }
    requires n_value { (n ≡ length seen.old) × (n ≡ length walk.old) × (n ≡ length bitsets.old) × (n ≤ word_width) }
    ensures { flows.new ≡ acyclic_flows tails.now heads.now n
        flows.old }
{
    for _ in 0..flows.len() {
        let v = cycle_vertex(tails, heads, &*flows, n, bitsets);
        if n <= v {
            return;
        }
        cancel_from(tails, heads, flows, v, seen, walk, &*bitsets);
    }
}

// Cancels every cycle, the lowest vertex on one first.
pub fn cancel(tails: &[u32], heads: &[u32], flows: &mut [u32], n: u32)
    requires heads_in_bounds { (length heads.now ≤ length flows.old) × (length flows.old ≤ set_width) }
    requires n_le_word_width { n ≤ word_width }
    ensures { flows.new ≡ acyclic_flows tails.now heads.now n
        flows.old }
{
    let none = sets::word::none();
    let mut seen = [false; sets::word::WIDTH];
    let mut walk = [0usize; sets::word::WIDTH];
    let mut bitsets = [none; sets::word::WIDTH];
    let k = n as usize;
    cancel_all(
        tails,
        heads,
        flows,
        n,
        &mut seen[..k],
        &mut walk[..k],
        &mut bitsets[..k],
    );
}
