// The steps of a turn, the amount that they allow, and the flows that they change.
#![tactic(auto)]

ghost use Rattle.std.specs.Prelude.{◌≡◌, ◌<◌, ◌≤◌, ltb, set};
ghost use Rattle.graph_flows.specs.Trails.{edge_of, start_of};
ghost use Rattle.move_cycle.specs.Steps.{
  step_of,
  step_byte,
  code_up,
  code_step,
  code_steps,
  step_code,
  stride,
  is_up,
  leads_back,
  is_cycle,
  gather,
};
ghost use Rattle.move_cycle.specs.Inner.{InSets, AtMost};
ghost use Rattle.move_cycle.specs.Amounts.{smaller, lessened, raise_in, allowed_in, amount_in};
ghost use Rattle.sets.specs.Sets.{none, set_of};
ghost use Rattle.board.specs.Limits.{max_total};
ghost use Rattle.move_cycle.specs.Shifts.{shifted_at, shifted};

use board::Board;
use sets::EdgeSet;

// A step as one number: its edge, and with UP added for a step up, from the edge's head to its tail. It stays a number,
// and no struct of an edge and a way: `code_steps` stands in the contracts of move_turn, solve_finish and play_lines,
// and in `walked` of solve_walk. UP is far above each limit, so that the codes do not change with the limits.
pub type StepCode = u16;

// The code of a step up over edge 0.
const UP: StepCode = 32768;

// The byte of a step up over edge 0: a step of a lent list is a byte, which `decoded` reads and `encoded` makes.
pub const UP_BYTE: u8 = 128;

// ---- The steps of a turn.

// A step over e, up or down.
pub fn stride(ups: bool, e: u32) -> StepCode
    requires { e < code_up }
    ensures { result ≡ step_code (stride ups e) }
{
    if ups {
        e as StepCode + UP
    } else {
        e as StepCode
    }
}

// Whether steps over e have codes.
pub fn has_code(e: u32) -> bool
    ensures { result ≡ ltb e code_up }
{
    e < UP as u32
}

// The steps with another one at i.
pub fn put_step(
    mut steps: [StepCode; Board::MAX_EDGES],
    i: usize,
    step: StepCode,
) -> [StepCode; Board::MAX_EDGES]
    ensures { result ≡ set steps i step }
{
    lists::put(&mut steps, i, step);
    steps
}

// The step of a byte.
pub fn decoded(byte: u8) -> StepCode
    ensures { code_step result ≡ step_of byte }
{
    stride(byte >= UP_BYTE, (byte % UP_BYTE) as u32)
}

// The byte of a step.
pub fn encoded(s: StepCode) -> u8
    ensures { result ≡ step_byte (code_step s) }
{
    let edge = (edge_of(s) % UP_BYTE as u32) as u8;
    if is_up(s) { edge + UP_BYTE } else { edge }
}

// The edge of a step.
pub fn edge_of(s: StepCode) -> u32
    ensures { result ≡ edge_of (code_step s) }
{
    (s % UP) as u32
}

// Whether a step goes up.
pub fn is_up(s: StepCode) -> bool
    ensures { result ≡ is_up (code_step s) }
{
    s >= UP
}

// Where a step starts.
pub fn start_of<'a>(tails: &'a [u32], heads: &'a [u32], s: StepCode) -> u32
    ensures { result ≡ start_of tails.now heads.now (code_step s) }
{
    let edge = edge_of(s) as usize;
    if is_up(s) {
        lists::at_or(heads, edge, 0)
    } else {
        lists::at_or(tails, edge, 0)
    }
}

// Whether the steps lead from r back to r, each from where the last one ended, over no edge twice.
fn leads_back<'a>(tails: &'a [u32], heads: &'a [u32], steps: &'a [StepCode], r: u32) -> bool
    requires { InSets steps.now }
    ensures { result ≡
        leads_back tails.now heads.now r none r (code_steps steps.now) }
{
    let mut seen = sets::none();
    let mut v = r;
    for s in steps {
        let edge = edge_of(*s) as usize;
        if start_of(tails, heads, *s) != v || sets::has(seen, edge) {
            return false;
        }
        seen = sets::with(seen, true, edge);
        // A step ends where it would start with the ends of its edge exchanged.
        v = start_of(heads, tails, *s);
    }
    v == r
}

// Whether the steps are a cycle.
pub fn is_cycle<'a>(tails: &'a [u32], heads: &'a [u32], steps: &'a [StepCode]) -> bool
    requires { InSets steps.now }
    ensures { result ≡ is_cycle tails.now heads.now (code_steps steps.now) }
{
    if steps.len() == 0 {
        return false;
    }
    let r = start_of(tails, heads, steps[0]);
    leads_back(tails, heads, steps, r)
}

// The set of the edges of the steps that go the given way: up, or down.
pub fn gather(ups: bool, steps: &[StepCode]) -> EdgeSet
    requires { InSets steps.now }
    ensures { set_of result ≡ gather ups none (code_steps steps.now) }
{
    let mut m = sets::none();
    for s in steps {
        m = sets::with(m, is_up(*s) == ups, edge_of(*s) as usize);
    }
    m
}

// ---- The amount of a turn.

// The smaller of two amounts, where a first one of 0 stands for none.
#[tactic(auto, unfolding(crate::specs::Amounts::smaller, lists::specs::Choice::pick))]
fn smaller(a: u32, x: u32) -> u32
    ensures { result ≡ smaller a x }
{
    if a == 0 { x } else { a.min(x) }
}

// The amount, made smaller by what a terminal allows that is at the head of an edge and has a demand above its flow.
#[tactic(auto, unfolding(crate::specs::Amounts::lessened, lists::specs::Choice::pick, lists::specs::Choice::both))]
fn lessened(head: u32, flow: u32, place: u32, demand: u32, a: u32) -> u32
    ensures { result ≡ lessened head flow place demand a }
{
    if place == head && flow < demand {
        smaller(a, demand - flow)
    } else {
        a
    }
}

// The amount, made smaller by what the terminals at the head of an edge allow.
fn raise<'a>(
    places: &'a [u32],
    demands: &'a [u32],
    terminals: u32,
    head: u32,
    flow: u32,
    a: u32,
) -> u32
    ensures { result ≡ raise_in places.now demands.now head flow a 0 terminals }
{
    let mut least = a;
    for i in 0..terminals as usize {
        let place = lists::at_or(places, i, 0);
        let demand = lists::at_or(demands, i, 0);
        least = lessened(head, flow, place, demand, least);
    }
    least
}

// The amount, made smaller by what a step allows.
fn allowed<'a>(
    heads: &'a [u32],
    flows: &'a [u32],
    places: &'a [u32],
    demands: &'a [u32],
    terminals: u32,
    a: u32,
    s: StepCode,
) -> u32
    ensures { result ≡ allowed_in heads.now flows.now places.now
        demands.now terminals a (code_step s) }
{
    let edge = edge_of(s) as usize;
    let flow = lists::at_or(flows, edge, 0);
    if !is_up(s) {
        return smaller(a, flow);
    }
    let head = lists::at_or(heads, edge, 0);
    raise(places, demands, terminals, head, flow, a)
}

// What a turn along the steps changes the flows by: the smallest that they allow.
pub fn least_allowed<'a>(
    heads: &'a [u32],
    flows: &'a [u32],
    places: &'a [u32],
    demands: &'a [u32],
    terminals: u32,
    steps: &'a [StepCode],
) -> u32
    ensures { result ≡ amount_in heads.now flows.now places.now
        demands.now terminals 0
        (code_steps steps.now) }
{
    let mut a: u32 = 0;
    for s in steps {
        a = allowed(heads, flows, places, demands, terminals, a, *s);
    }
    a
}

// ---- Flows changed on sets of edges.

// The new flow of edge e: lowered or raised by x, or as it is.
#[tactic(auto, unfolding(crate::specs::Shifts::shifted_at, lists::specs::Choice::pick))]
fn shifted_at(x: u32, downs: EdgeSet, ups: EdgeSet, e: usize, f: u32) -> u32
    requires { (x ≤ max_total) × (f ≤ max_total) }
    ensures { result ≡ shifted_at x (set_of downs) (set_of ups) e f }
{
    if sets::has(downs, e) {
        f.saturating_sub(x)
    } else if sets::has(ups, e) {
        f + x
    } else {
        f
    }
}

// The flows, lowered by x on one set of edges and raised by x on another.
pub fn shifted(
    x: u32,
    downs: EdgeSet,
    ups: EdgeSet,
    flows: [u32; Board::MAX_EDGES],
) -> [u32; Board::MAX_EDGES]
    requires x_le_max_total { x ≤ max_total }
    requires at_most { AtMost max_total flows }
    ensures { result ≡ shifted x (set_of downs) (set_of ups) flows }
{
    let mut new = flows;
    shift(x, downs, ups, &mut new);
    new
}

// Lowers the flows by x on one set of edges, and raises them by x on another. No other edge is looked at.
pub fn shift(x: u32, downs: EdgeSet, ups: EdgeSet, flows: &mut [u32])
    requires x_le_max_total { x ≤ max_total }
    requires at_most { AtMost max_total flows.old }
    ensures { flows.new ≡ shifted x (set_of downs) (set_of ups) flows.old }
{
    // No index is counted here: the numbers come from the set itself, from which each is dropped.
    let mut rest = sets::joined(downs, ups);
    while !sets::is_empty(rest) {
        let e = sets::lowest(rest);
        let f = lists::at_or(flows, e as usize, 0);
        let new = shifted_at(x, downs, ups, e as usize, f);
        lists::put(flows, e as usize, new);
        rest = sets::drop(rest, e);
    }
}
