// Which boards a call of play works on.
#![tactic(auto)]

ghost use Rattle.std.specs.Prelude.{◌≡◌, ◌<◌, ◌≤◌, leb, eqb};
ghost use Rattle.journal.specs.Words.{whole_of};
ghost use Rattle.lists.specs.Choice.{pick};
ghost use Rattle.lists.specs.Lists.{all};
ghost use Rattle.board.specs.Limits.{max_edges, max_terminals, max_total};
ghost use Rattle.board.specs.Whole.{move_of};
ghost use Rattle.move_guard.specs.Guard.{
  edge_intact_in,
  terminal_intact_in,
  edge_blank_in,
  terminal_blank_in,
  move_intact,
  intact,
  loaded,
  playing,
};

use board::{Board, Move, Network};
use journal::WORDS;

// Whether an edge's flow is small, and 0 where its acyclic flow is.
#[tactic(auto, unfolding(lists::specs::Choice::pick))]
fn small_flow(acyclic: u32, flow: u32) -> bool
    ensures { result ≡ pick (eqb acyclic 0) (eqb flow 0) (leb flow max_total) }
{
    if acyclic == 0 {
        flow == 0
    } else {
        flow <= Board::MAX_TOTAL
    }
}

// Edges have five lists and terminals three, so each of these tests is two functions, one of an edge and one of a
// terminal.

// Whether the numbers of edge i are intact.
fn edge_intact<'a>(
    net: &'a Network,
    acyclic: &'a [u32; Board::MAX_EDGES],
    flows: &'a [u32; Board::MAX_EDGES],
    i: usize,
) -> bool
    requires within { net.now.edges ≤ max_edges }
    requires edge { i < net.now.edges }
    ensures { result ≡ edge_intact_in net.now acyclic.now flows.now i }
{
    let fits = text_rules::edge_numbers_fit(
        true,
        net.tails[i],
        net.heads[i],
        net.flows[i],
        net.vertices,
    );
    let small = small_flow(acyclic[i], flows[i]);
    lists::and(fits, lists::and(acyclic[i] <= net.flows[i], small))
}

// Whether every number of a place past the edges is 0.
fn edge_blank<'a>(
    net: &'a Network,
    acyclic: &'a [u32; Board::MAX_EDGES],
    flows: &'a [u32; Board::MAX_EDGES],
    i: usize,
) -> bool
    requires { i < max_edges }
    ensures { result ≡ edge_blank_in net.now.tails net.now.heads net.now.flows acyclic.now flows.now i }
{
    let flow = lists::and(acyclic[i] == 0, flows[i] == 0);
    let numbers = lists::and(net.heads[i] == 0, lists::and(net.flows[i] == 0, flow));
    lists::and(net.tails[i] == 0, numbers)
}

// Whether the numbers of terminal j are intact.
fn terminal_intact<'a>(net: &'a Network, places: &'a [u32; Board::MAX_TERMINALS], j: usize) -> bool
    requires within { net.now.terminals ≤ max_terminals }
    requires terminal { j < net.now.terminals }
    ensures { result ≡ terminal_intact_in net.now places.now j }
{
    let fits = text_rules::terminal_numbers_fit(true, net.homes[j], net.demands[j], net.vertices);
    lists::and(fits, places[j] < net.vertices)
}

// Whether every number of a place past the terminals is 0.
fn terminal_blank<'a>(net: &'a Network, places: &'a [u32; Board::MAX_TERMINALS], j: usize) -> bool
    requires { j < max_terminals }
    ensures { result ≡ terminal_blank_in net.now.homes net.now.demands places.now j }
{
    let numbers = lists::and(net.demands[j] == 0, places[j] == 0);
    lists::and(net.homes[j] == 0, numbers)
}

// Whether a move's amount is one that can be taken back.
fn move_intact(step: Move) -> bool
    ensures { result ≡ move_intact (move_of step) }
{
    match step {
        Move::Carry(_) => true,
        Move::Turn(turn) => turn.amount <= Board::MAX_TOTAL,
    }
}

// Whether every edge is intact, and every number past the edges 0. One loop over all places, with a test of which kind
// each is, was tried and takes three times the instructions.
fn edges_intact<'a>(
    net: &'a Network,
    acyclic: &'a [u32; Board::MAX_EDGES],
    flows: &'a [u32; Board::MAX_EDGES],
) -> bool
    requires { net.now.edges ≤ max_edges }
    ensures { result ≡ all (edge_intact_in net.now acyclic.now flows.now) 0 max_edges }
{
    let edges = net.edges as usize;
    for i in 0..edges {
        if !edge_intact(net, acyclic, flows, i) {
            return false;
        }
    }
    for past in edges..Board::MAX_EDGES {
        if !edge_blank(net, acyclic, flows, past) {
            return false;
        }
    }
    true
}

// Whether every terminal is intact, and every number past the terminals 0: two loops, as over the edges.
fn terminals_intact<'a>(net: &'a Network, places: &'a [u32; Board::MAX_TERMINALS]) -> bool
    requires { net.now.terminals ≤ max_terminals }
    ensures { result ≡ all (terminal_intact_in net.now places.now) 0 max_terminals }
{
    let terminals = net.terminals as usize;
    for j in 0..terminals {
        if !terminal_intact(net, places, j) {
            return false;
        }
    }
    for past in terminals..Board::MAX_TERMINALS {
        if !terminal_blank(net, places, past) {
            return false;
        }
    }
    true
}

// Whether no number of the board can lead a call astray.
pub fn intact(board: Board, journal: &[[u64; WORDS]; Board::JOURNAL]) -> bool
    ensures { result ≡ intact (whole_of board journal.now) }
{
    let counts_fit = text_judge::counts_fit_in(
        board.network.vertices,
        board.network.edges,
        board.network.terminals,
        board.network.source,
    );
    if !counts_fit {
        return false;
    }
    let edges_fit = edges_intact(&board.network, &board.acyclic, &board.flows);
    let terminals_fit = terminals_intact(&board.network, &board.places);
    let last = journal::last_entry(journal, board.moves);
    let step = last.step;
    let room = lists::and(board.moves <= Board::JOURNAL as u32, move_intact(step));
    lists::and(edges_fit, lists::and(terminals_fit, room))
}

// Whether the board was loaded: it is in play or finished, and intact.
pub fn loaded(board: Board, journal: &[[u64; WORDS]; Board::JOURNAL]) -> bool
    ensures { result ≡ loaded (whole_of board journal.now) }
{
    let fits = intact(board, journal);
    lists::and(Board::staged(board.stage), fits)
}

// Whether the board is in play.
pub fn playing(board: Board, journal: &[[u64; WORDS]; Board::JOURNAL]) -> bool
    ensures { result ≡ playing (whole_of board journal.now) }
{
    let fits = intact(board, journal);
    lists::and(board.stage == Board::PLAY, fits)
}
