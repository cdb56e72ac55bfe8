// The open carry that the solver makes, by sets of edges.
#![tactic(auto)]

ghost use Rattle.std.specs.Prelude.{◌≡◌, [], get_or, is_some};
ghost use Rattle.sets.specs.Inner.{set_width, sets_of};
ghost use Rattle.sets.specs.Sets.{has_bit, set_of};
ghost use Rattle.move_carry.specs.Opens.{flow_fits, some_open_in};
ghost use Rattle.move_carry.specs.Frames.{net_of};
ghost use Rattle.solve_carry.specs.Search.{open_carry_in, found_of};
ghost use Rattle.solve_carry.specs.Inner.{lowest_fit_by, chosen_by, fit_of, Searched, Resumes};

use board::Relocation;
use move_carry::Frame;
use sets::EdgeSet;

// Whether the flow of edge e allows a carry of this demand.
fn fits(flows: &[u32], marks: EdgeSet, demand: u32, e: u32) -> bool
    ensures { result ≡ flow_fits (has_bit (set_of marks) e) (get_or flows.now e 0) demand }
{
    let flow = lists::at_or(flows, e as usize, 0);
    let mark = sets::has(marks, e as usize);
    move_carry::flow_fits(mark, flow, demand)
}

// The lowest such edge of the set.
fn lowest_fit(flows: &[u32], marks: EdgeSet, demand: u32, set: EdgeSet) -> Option<u32>
    ensures { result ≡ fit_of (lowest_fit_by flows.now (set_of marks) demand (set_of set)) }
{
    let mut rest = set;
    // No index is counted here: each round takes the lowest edge off the set.
    while !sets::is_empty(rest) {
        let e = sets::lowest(rest);
        if fits(flows, marks, demand, e) {
            return Some(e);
        }
        rest = sets::drop(rest, e);
    }
    None
}

// Of the edges of the set that allow a carry of this demand, the marked first, then the lowest.
fn chosen(flows: &[u32], marks: EdgeSet, demand: u32, set: EdgeSet) -> Option<u32>
    ensures { result ≡ fit_of (chosen_by flows.now (set_of marks) set_width demand (set_of set)) }
{
    let marked = sets::common(set, marks);
    if let Some(e) = lowest_fit(flows, marks, demand, marked) {
        return Some(e);
    }
    lowest_fit(flows, marks, demand, set)
}

// The lowest terminal with an open carry, and of its open carries the one over a marked edge first, then over the
// lowest. The search goes on where the frame says.
pub fn open_carry<'a>(
    frame: Frame,
    heads: &'a [u32],
    demands: &'a [u32],
    entering: &'a [EdgeSet],
    flows: &'a [u32],
    places: &'a [u32],
) -> Option<Relocation>
    requires searched { Searched (net_of frame [] heads.now demands.now) (sets_of entering.now)
        flows.now (set_of frame.positive)
        places.now }
    requires resumes { Resumes (net_of frame [] heads.now demands.now) flows.now (set_of frame.marks)
        places.now frame.resume }
    ensures found { found_of frame.terminals frame.edges result ≡
        open_carry_in (net_of frame [] heads.now demands.now)
        flows.now (set_of frame.marks) places.now }
    ensures some { is_some result ≡
        some_open_in (net_of frame [] heads.now demands.now)
        flows.now (set_of frame.marks) places.now }
{
    for i in frame.resume..frame.terminals {
        let place = lists::at_or(places, i as usize, 0);
        let demand = lists::at_or(demands, i as usize, 0);
        let into = move_edges::touching(entering, frame.positive, place);
        if let Some(e) = chosen(flows, frame.marks, demand, into) {
            return Some(Relocation {
                terminal: i,
                edge: e,
            });
        }
    }
    None
}
