// The rules of a network, each at one place.
#![tactic(auto)]

ghost use Rattle.std.specs.Prelude.{◌≡◌};
ghost use Rattle.text_rules.specs.Rules.{
  edge_numbers_fit,
  terminal_numbers_fit,
  edge_fits,
  terminal_fits,
};

use board::{Board, Network};

// Whether the numbers of a place are those of an edge, or all 0 where the place is past the edges.
#[tactic(auto, unfolding(lists::specs::Choice::pick))]
pub fn edge_numbers_fit(is_edge: bool, tail: u32, head: u32, flow: u32, vertices: u32) -> bool
    ensures { result ≡ edge_numbers_fit is_edge tail head flow vertices }
{
    if is_edge {
        lists::and(
            tail < vertices,
            lists::and(head < vertices, flow <= Board::MAX_FLOW),
        )
    } else {
        lists::and(tail == 0, lists::and(head == 0, flow == 0))
    }
}

// The same of the numbers at place i of a network.
pub fn edge_fits(net: Network, i: u32) -> bool
    ensures { result ≡ edge_fits net i }
{
    let tail = lists::at_or(&net.tails, i as usize, 0);
    let head = lists::at_or(&net.heads, i as usize, 0);
    let flow = lists::at_or(&net.flows, i as usize, 0);
    edge_numbers_fit(i < net.edges, tail, head, flow, net.vertices)
}

// Whether the numbers of a place are those of a terminal, or both 0 where the place is past the terminals.
#[tactic(auto, unfolding(lists::specs::Choice::pick, lists::specs::Choice::both))]
pub fn terminal_numbers_fit(is_terminal: bool, home: u32, demand: u32, vertices: u32) -> bool
    ensures { result ≡ terminal_numbers_fit is_terminal home demand vertices }
{
    if is_terminal {
        lists::and(home < vertices, (1..=Board::MAX_FLOW).contains(&demand))
    } else {
        lists::and(home == 0, demand == 0)
    }
}

// The same of the numbers at place j of a network.
pub fn terminal_fits(net: Network, j: u32) -> bool
    ensures { result ≡ terminal_fits net j }
{
    let home = lists::at_or(&net.homes, j as usize, 0);
    let demand = lists::at_or(&net.demands, j as usize, 0);
    terminal_numbers_fit(j < net.terminals, home, demand, net.vertices)
}
